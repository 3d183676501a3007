//! Reading a source directory.

ghost use Rattle.std.specs.Prelude.{◌≡◌, All, IfErr, IfOk, IsSorted, string_bytes, string_cmp};
ghost use Rattle.std.specs.Cmp.Lexicographic.{slice_cmp};
ghost use Rattle.std.specs.Ordering.{nat_cmp};
ghost use Rattle.jseg_lib.specs.Directories.{HasFilesBytes, IsLexiconIn, NamesReadIn, chars_path, matrix_path, path_in, paths_of, unk_path};
ghost use Rattle.programs.specs.Faults.{Names};
ghost use Rattle.programs.specs.Reading.{AreOfAFile};
ghost use Rattle.programs.specs.declared.fault.Fault.TheVariants.{File};

use programs::{Fault, SourceFiles, WholeFile, read_files};
use std::alloc::{AllocError, Global};
use std::rt::Files;
use std::string::String;
use std::{fs, io};

/// The files of a source directory, read whole.
#[derive(Drop)]
pub struct Directory {
    /// The bytes of `matrix.def`.
    pub matrix: Vec<u8>,
    pub files: SourceFiles,
}

/// Reads `matrix.def`, `char.def`, `unk.def`, the names in the directory, and then each file whose
/// name ends with `.csv`, in byte order of the paths.
pub fn read_directory<R: Files + AllocGlobal + Clone + Drop>(
    rt: &R,
    dir: &str,
) -> Result<Directory, Fault>
    ensures matrix { IfOk result
        (λ read. string_bytes read.files.matrix ≡ matrix_path dir.now) }
    ensures chars { IfOk result
        (λ read. string_bytes read.files.chars.path ≡ chars_path dir.now) }
    ensures unk { IfOk result
        (λ read. string_bytes read.files.unk.path ≡ unk_path dir.now) }
    ensures lexicons { IfOk result
        (λ read. All (IsLexiconIn dir.now) (paths_of read.files.lexicons.items)) }
    ensures order { IfOk result
        (λ read. IsSorted (slice_cmp nat_cmp) (paths_of read.files.lexicons.items)) }
    ensures bytes { IfOk result (HasFilesBytes R.File.remaining) }
    ensures fault { IfErr result (NamesReadIn dir.now) }
{
    let matrix = read_named(rt, dir, "matrix.def")?;
    Ok(Directory {
        matrix: matrix.bytes,
        files: SourceFiles {
            matrix: matrix.path,
            chars: read_named(rt, dir, "char.def")?,
            unk: read_named(rt, dir, "unk.def")?,
            lexicons: read_files(rt, &lexicon_paths(rt, dir)?)?,
        },
    })
}

/// Reads the file `name` in the directory `dir`.
fn read_named<R: Files + AllocGlobal>(rt: &R, dir: &str, name: &str) -> Result<WholeFile, Fault>
    ensures path { IfOk result (λ read. string_bytes read.path ≡ path_in dir.now name.now) }
    ensures bytes { IfOk result (λ read. AreOfAFile R.File.remaining read.bytes.items) }
    ensures fault { IfErr result (Names File (path_in dir.now name.now)) }
{
    let path = joined(rt.alloc(), dir, name)?;
    WholeFile::read(rt, path.as_str())
}

/// Returns `dir`, a slash and `name`.
fn joined(alloc: Global, dir: &str, name: &str) -> Result<String, AllocError>
    ensures { IfOk result (λ path. string_bytes path ≡ path_in dir.now name.now) }
{
    let mut path = String::from_str(alloc, dir)?;
    path.push_str("/")?;
    path.push_str(name)?;
    Ok(path)
}

/// Returns the paths of the files in `dir` whose names end with `.csv`, in byte order.
fn lexicon_paths<R: Files + AllocGlobal + Clone + Drop>(
    rt: &R,
    dir: &str,
) -> Result<Vec<String>, Fault>
    ensures each { IfOk result (λ paths.
        All (λ path. IsLexiconIn dir.now (string_bytes path)) paths.items) }
    ensures order { IfOk result (λ paths. IsSorted string_cmp paths.items) }
    ensures fault { IfErr result (Names File dir.now) }
{
    match paths_in(rt, dir) {
        Ok(paths) => Ok(paths),
        Err(error) => Err(Fault::of_file(rt.alloc(), dir, &error)),
    }
}

fn paths_in<R: Files + AllocGlobal + Clone + Drop>(rt: &R, dir: &str) -> io::Result<Vec<String>>
    ensures each { IfOk result (λ paths.
        All (λ path. IsLexiconIn dir.now (string_bytes path)) paths.items) }
    ensures order { IfOk result (λ paths. IsSorted string_cmp paths.items) }
{
    let mut paths = Vec::new(rt.alloc());
    for entry in fs::read_dir(rt, dir)? {
        let entry = entry?;
        if entry.file_name().ends_with(".csv") {
            paths.push(joined(rt.alloc(), dir, entry.file_name())?)?;
        }
    }
    paths.sort()?;
    Ok(paths)
}
