//! Compiling a system dictionary from the contents of files.

ghost use Rattle.std.specs.Prelude.{ℕ, List, IfErr, IfOk};
ghost use Rattle.matrix_def.specs.Costs.{IsTableIn};
ghost use Rattle.dictc_lib.specs.CompiledFiles.{IsCompiledFromFiles, IsErrorOfFiles};
ghost use Rattle.dictc_lib.specs.MatrixFiles.{HasReadEnough};
ghost use Rattle.dictc_lib.specs.Rejections.{IsRejectionOfFiles, IsRejectionOfSources};

use crate::compile_context::CompileContext;
use crate::compile_error::CompileError;
use crate::matrix_file::MatrixFile;
use crate::progress_reporter::ProgressReporter;
use crate::rejection::rejection;
use crate::repeated::warn_of_repeated;
use crate::surfaces::log_longest;
use dict_compile::{Compiled, OtherSources, compile_others_watched};
use matrix_def::Matrix;
use mj_model::SourceFault;
use programs::{Fault, Reporter, SourceFiles, Stage, texts};

/// Compiles a system dictionary from the connection costs of `matrix.def` and the other source
/// files.
pub(crate) fn compile_sources(
    rt: &HostRuntime,
    reporter: &Reporter<'_>,
    costs: MatrixFile,
    files: &mut SourceFiles,
    all_faults: bool,
) -> Result<Compiled, CompileError>
    ensures compiled { (matrix : List ℕ) → HasReadEnough matrix costs
        → IfOk result (IsCompiledFromFiles matrix files.old) }
    ensures rejected { (matrix : List ℕ) → HasReadEnough matrix costs
        → IfErr result (IsRejectionOfSources matrix files.old all_faults) }
{
    reporter.log(Stage::Compiling {
        lexicons: files.lexicons.len(),
    });
    match costs.matrix() {
        Ok(matrix) => compile_with_costs(rt, reporter, matrix, files, all_faults),
        Err(fault) => {
            let path = Some(files.matrix.as_str());
            Err(CompileError::Fault(Fault::of_source(rt.alloc(), path, fault)))
        }
    }
}

/// Compiles the connection costs with the other source files, and reports an error of these files.
fn compile_with_costs(
    rt: &HostRuntime,
    reporter: &Reporter<'_>,
    matrix: Matrix,
    files: &mut SourceFiles,
    all_faults: bool,
) -> Result<Compiled, CompileError>
    ensures compiled { (costs : List ℕ) → IsTableIn costs matrix
        → IfOk result (IsCompiledFromFiles costs files.old) }
    ensures rejected { (costs : List ℕ) → IsTableIn costs matrix
        → IfErr result (IsRejectionOfFiles costs files.old all_faults) }
{
    let sizes = matrix.sizes();
    match compile_others(rt, reporter, matrix, files) {
        Ok(compiled) => Ok(compiled),
        Err(fault) => {
            let header = format!(in rt.alloc(); "{} {}\n", sizes.right, sizes.left)?;
            let context = CompileContext::Definitions {
                matrix: files.matrix.as_str(),
                header: header.as_bytes(),
                chars: &files.chars,
                unk: &files.unk,
            };
            Err(rejection(
                rt,
                reporter,
                context,
                &mut files.lexicons,
                fault,
                all_faults,
            ))
        }
    }
}

/// Compiles the connection costs with the other source files, or returns the first error of these
/// files.
fn compile_others(
    rt: &HostRuntime,
    reporter: &Reporter<'_>,
    matrix: Matrix,
    files: &SourceFiles,
) -> Result<Compiled, SourceFault>
    ensures compiled { (costs : List ℕ) → IsTableIn costs matrix
        → IfOk result (IsCompiledFromFiles costs files.now) }
    ensures rejected { (costs : List ℕ) → IsTableIn costs matrix
        → IfErr result (IsErrorOfFiles costs files.now) }
{
    let lexicons = texts(rt.alloc(), &files.lexicons)?;
    let others = OtherSources {
        chars: &files.chars.bytes,
        unk: &files.unk.bytes,
        lexicons: &lexicons,
    };
    let mut progress = ProgressReporter::new(reporter, &files.lexicons);
    let compiled = compile_others_watched(rt.alloc(), matrix, &others, &mut progress)?;
    log_longest(rt.alloc(), reporter, &files.lexicons, &lexicons);
    warn_of_repeated(rt.alloc(), reporter, &lexicons);
    Ok(compiled)
}
