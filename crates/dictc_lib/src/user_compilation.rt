//! Compiling a user dictionary from the contents of files.

ghost use Rattle.std.specs.Prelude.{◌≡◌, Err, IfErr, IfOk};
ghost use Rattle.dict_compile.specs.UserOutcomes.{FindsUserKeysFrom, IsUserCompiledFrom, IsUserError, IsUserRejectedAtFault};
ghost use Rattle.dict_compile.specs.declared.fault.CompileUserFault.TheVariants.{NotSystem};
ghost use Rattle.image_format.specs.ImageMeaning.{image_tables};
ghost use Rattle.mj_model.specs.Tables.{User};
ghost use Rattle.dictc_lib.specs.Rejections.{IsRejectionOfLexicons};
ghost use Rattle.dictc_lib.specs.SourceContents.{contents_of};

use crate::compile_context::CompileContext;
use crate::compile_error::CompileError;
use crate::progress_reporter::ProgressReporter;
use crate::rejection::rejection;
use crate::repeated::warn_of_repeated;
use crate::surfaces::log_longest;
use dict_compile::{CompileUserFault, Compiled, compile_user_watched};
use dict_image::Dict;
use mj_model::{OverlayFault, SourceFault};
use programs::{Fault, Reporter, Stage, WholeFile, texts};

/// Compiles a user dictionary from lexicons for `system`, the system dictionary loaded from the
/// path `dic`.
pub(crate) fn compile_user_files(
    rt: &HostRuntime,
    reporter: &Reporter<'_>,
    dic: &str,
    system: &Dict,
    lexicons: &mut [WholeFile],
    all_faults: bool,
) -> Result<Compiled, CompileError>
    ensures compiled { IfOk result
        (IsUserCompiledFrom system.now (contents_of lexicons.old)) }
    ensures every_key { IfOk result (FindsUserKeysFrom system.now (contents_of lexicons.old)) }
    ensures rejected { IfErr result (IsRejectionOfLexicons dic.now system.now lexicons.old all_faults) }
{
    reporter.log(Stage::Compiling {
        lexicons: lexicons.len(),
    });
    match compile_lexicons(rt, reporter, system, lexicons) {
        Ok(compiled) => Ok(compiled),
        Err(CompileUserFault::NotSystem) => {
            let fault = Fault::of_overlay(rt.alloc(), dic, OverlayFault::NotSystem);
            Err(CompileError::Fault(fault))
        }
        Err(CompileUserFault::Source(fault)) => {
            let context = CompileContext::System(system);
            Err(rejection(rt, reporter, context, lexicons, fault, all_faults))
        }
    }
}

/// Compiles lexicons for `system`, or returns their first error.
fn compile_lexicons(
    rt: &HostRuntime,
    reporter: &Reporter<'_>,
    system: &Dict,
    files: &[WholeFile],
) -> Result<Compiled, CompileUserFault>
    ensures compiled { IfOk result (IsUserCompiledFrom system.now (contents_of files.now)) }
    ensures every_key { IfOk result (FindsUserKeysFrom system.now (contents_of files.now)) }
    ensures not_system { result ≡ Err NotSystem → (image_tables system.now).kind ≡ User }
    ensures rejected { IsUserError system.now (contents_of files.now) result }
    ensures first { IsUserRejectedAtFault system.now (contents_of files.now) result }
{
    let texts = match texts(rt.alloc(), files) {
        Ok(texts) => texts,
        Err(error) => return Err(CompileUserFault::Source(SourceFault::from(error))),
    };
    let mut progress = ProgressReporter::new(reporter, files);
    let compiled = compile_user_watched(rt.alloc(), system, &texts, &mut progress)?;
    log_longest(rt.alloc(), reporter, files, &texts);
    warn_of_repeated(rt.alloc(), reporter, &texts);
    Ok(compiled)
}
