//! Compiling dictionaries from the files that the command line names.

ghost use Rattle.std.specs.Prelude.{◌≡◌, ◌∷◌, IfErr, IfOk, OnOk, map, string_bytes};
ghost use Rattle.dict_compile.specs.declared.compiled.Compiled.{Compiled as CompiledOf};
ghost use Rattle.programs.specs.Faults.{NamesOneOf};
ghost use Rattle.dictc_lib.specs.HostFiles.{host_loads, host_reads, host_reads_costs};
ghost use Rattle.dictc_lib.specs.RequestErrors.{IsImageError, IsReportError, IsRequestError, IsSystemError, IsUserDictionaryError};
ghost use Rattle.dictc_lib.specs.RequestedImages.{AreReadFrom, AreSourcesReadFrom, IsRequestedImage, IsSystemImageFrom, IsUserImageFrom};

use crate::compile_error::CompileError;
use crate::file_access::FileAccess;
use crate::reporting::print_counts;
use crate::shares::log_shares;
use crate::system_compilation::compile_sources;
use crate::user_compilation::compile_user_files;
use command_lines::dictc::{Base, Options};
use dict_compile::Compiled;
use dict_image::DigestTest;
use programs::{Fault, Reporter, SourceFiles, Stage, WholeFile, write_file};
use std::alloc::{AllocError, Global};
use std::string::String;

/// Name of the program.
const PROGRAM: &str = "dictc";

/// Compiles a dictionary, writes its image, and prints the number of entries on standard output.
pub fn compile_and_report(rt: &HostRuntime, options: &Options) -> Result<(), CompileError>
    ensures compiled { OnOk result ((compiled : CompiledOf)
        × IsRequestedImage host_reads_costs host_reads host_loads options.now compiled) }
    ensures rejected { IfErr result (IsReportError options.now) }
{
    let reporter = Reporter::new(rt, PROGRAM, options.verbose);
    let compiled = compile_image(rt, &reporter, rt, options)?;
    log_shares(&reporter, &compiled.image);
    Ok(print_counts(&compiled, &mut rt.stdout())?)
}

/// Compiles a dictionary from the files that the options name, and writes its image.
pub fn compile_image<F: FileAccess>(
    rt: &HostRuntime,
    reporter: &Reporter<'_>,
    files: &F,
    options: &Options,
) -> Result<Compiled, CompileError>
    ensures compiled { IfOk result
        (IsRequestedImage F.reads_costs F.reads F.loads options.now) }
    ensures rejected { IfErr result
        (IsImageError F.reads_costs F.reads F.loads options.now) }
{
    let compiled = match compile_files(rt, reporter, files, options) {
        Ok(compiled) => compiled,
        Err(error) => {
            if let CompileError::Fault(fault) = &error {
                reporter.log_cause(fault);
            }
            return Err(error);
        }
    };
    let bytes = compiled.image.len();
    reporter.log(Stage::Compiled {
        entries: compiled.entries,
        bytes,
    });
    write_file(rt, reporter, options.out.as_str(), &compiled.image)?;
    reporter.log(Stage::Written {
        path: options.out.as_str(),
        bytes,
    });
    Ok(compiled)
}

/// Reads and compiles the files that the options name.
fn compile_files<F: FileAccess>(
    rt: &HostRuntime,
    reporter: &Reporter<'_>,
    files: &F,
    options: &Options,
) -> Result<Compiled, CompileError>
    ensures compiled { IfOk result
        (IsRequestedImage F.reads_costs F.reads F.loads options.now) }
    ensures rejected { IfErr result
        (IsRequestError F.reads_costs F.reads F.loads options.now) }
{
    match &options.base {
        Base::Definitions { matrix, chars, unk } => {
            compile_definitions(rt, reporter, files, options, matrix, chars, unk)
        }
        Base::System { dic, skip_digest } => {
            let digest = DigestTest::skipped_if(*skip_digest);
            compile_for_system(rt, reporter, files, options, dic, digest)
        }
    }
}

/// Compiles a system dictionary from the lexicons that the options name and these definitions.
fn compile_definitions<F: FileAccess>(
    rt: &HostRuntime,
    reporter: &Reporter<'_>,
    files: &F,
    options: &Options,
    matrix: &String,
    chars: &String,
    unk: &String,
) -> Result<Compiled, CompileError>
    ensures compiled { IfOk result (IsSystemImageFrom F.reads_costs F.reads matrix.now chars.now
        unk.now options.now.lexicons.items) }
    ensures rejected { IfErr result (IsSystemError F.reads_costs F.reads matrix.now chars.now
        unk.now options.now.lexicons.items options.now.all_faults) }
{
    let costs = files.read_costs(matrix.as_str())?;
    let mut sources = read_sources(rt.alloc(), files, options, matrix, chars, unk)?;
    sources.log(reporter, costs.bytes, &costs.first);
    compile_sources(rt, reporter, costs, &mut sources, options.all_faults)
}

/// Compiles a user dictionary from the lexicons that the options name, for the system dictionary at
/// the path `dic`.
fn compile_for_system<F: FileAccess>(
    rt: &HostRuntime,
    reporter: &Reporter<'_>,
    files: &F,
    options: &Options,
    dic: &String,
    digest: DigestTest,
) -> Result<Compiled, CompileError>
    ensures compiled { IfOk result
        (IsUserImageFrom F.reads F.loads dic.now digest options.now.lexicons.items) }
    ensures rejected { IfErr result (IsUserDictionaryError F.reads F.loads dic.now digest
        options.now.lexicons.items options.now.all_faults) }
{
    let system = files.load(dic.as_str(), digest)?;
    reporter.log(Stage::Loaded { path: dic.as_str() });
    let mut lexicons = read_lexicons(rt.alloc(), files, &options.lexicons)?;
    for lexicon in &lexicons {
        reporter.log_source(lexicon);
    }
    compile_user_files(
        rt,
        reporter,
        dic.as_str(),
        &system,
        &mut lexicons,
        options.all_faults,
    )
}

/// Reads the sources of a system dictionary other than `matrix.def`.
fn read_sources<F: FileAccess>(
    alloc: Global,
    files: &F,
    options: &Options,
    matrix: &String,
    chars: &String,
    unk: &String,
) -> Result<SourceFiles, Fault>
    ensures read { IfOk result
        (AreSourcesReadFrom F.reads chars.now unk.now options.now.lexicons.items) }
    ensures matrix { IfOk result
        (λ files. string_bytes files.matrix ≡ string_bytes matrix.now) }
    ensures chars { IfOk result
        (λ files. string_bytes files.chars.path ≡ string_bytes chars.now) }
    ensures unk { IfOk result
        (λ files. string_bytes files.unk.path ≡ string_bytes unk.now) }
    ensures lexicons { IfOk result
        (λ files. map (λ file. string_bytes file.path) files.lexicons.items
        ≡ map (λ path. string_bytes path) options.now.lexicons.items) }
    ensures fault { IfErr result
        (NamesOneOf (chars.now ∷ unk.now ∷ options.now.lexicons.items)) }
{
    Ok(SourceFiles {
        chars: files.read(chars.as_str())?,
        unk: files.read(unk.as_str())?,
        lexicons: read_lexicons(alloc, files, &options.lexicons)?,
        matrix: String::from_str(alloc, matrix.as_str())?,
    })
}

/// Reads the lexicons at `paths` in order, and stops at the first error.
fn read_lexicons<F: FileAccess>(
    alloc: Global,
    files: &F,
    paths: &[String],
) -> Result<Vec<WholeFile>, Fault>
    ensures read { IfOk result (λ lexicons. AreReadFrom F.reads paths.now lexicons.items) }
    ensures paths { IfOk result (λ lexicons.
        map (λ file. string_bytes file.path) lexicons.items
        ≡ map (λ path. string_bytes path) paths.now) }
    ensures fault { IfErr result (NamesOneOf paths.now) }
{
    let mut lexicons = Vec::new(alloc);
    for path in paths {
        let file = files.read(path.as_str())?;
        lexicons.push(file).map_err(AllocError::from)?;
    }
    Ok(lexicons)
}
