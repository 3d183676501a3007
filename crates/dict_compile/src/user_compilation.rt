//! Compilation of a user dictionary.

ghost use Rattle.std.specs.Prelude.{◌≡◌, ◌↔◌, Err, IfOk, IfErr};
ghost use Rattle.mj_model.specs.declared.source_fault.SourceFault.{SourceFault as FaultOf};
ghost use Rattle.dict_compile.specs.Compilation.{IsUserCompilation, IsUserCause, IsUserFault};
ghost use Rattle.mj_model.specs.FirstFault.{IsMemoryOr};
ghost use Rattle.image_format.specs.ImageMeaning.{image_tables};
ghost use Rattle.mj_model.specs.Tables.{Tables as TablesOf, User};
ghost use Rattle.mj_model.specs.Connection.{AreMatrixSizes};
ghost use Rattle.dict_compile.specs.Results.{IsRejectedFor, lexicons_of};
ghost use Rattle.dict_compile.specs.Steps.{AreEntrySteps, ReportsSteps};
ghost use Rattle.dict_compile.specs.UserImages.{IsSystemOf};
ghost use Rattle.dict_compile.specs.UserOutcomes.{FindsUserKeysFrom, IsUserCompiledFrom, IsUserError, IsUserRejectedAtFault};
ghost use Rattle.dict_compile.specs.declared.fault.CompileUserFault.TheVariants.{NotSystem};

use crate::compiled::Compiled;
use crate::fault::CompileUserFault;
use crate::images::user_image;
use crate::lexicons::read_lexicons;
use crate::watch::{Unwatched, Watch};
use dict_image::Dict;
use mj_model::{MatrixSizes, SourceFault};
use std::alloc::Global;

/// Compiles the lexicons of a user dictionary to an image of layout 3. Their ids must be within the
/// sizes of the dictionary `system`. Returns `NotSystem` if that is not a system dictionary,
/// otherwise the first error.
///
/// Errors count the first lexicon as file 3, as in the sources of a system dictionary. (MeCab,
/// `mecab-dict-index -u`; the numbers are this project's own choice)
pub fn compile_user(
    alloc: Global,
    system: &Dict,
    lexicons: &[&[u8]],
) -> Result<Compiled, CompileUserFault>
    ensures not_system { (result ≡ Err NotSystem) ↔ ((image_tables system.now).kind ≡ User) }
    ensures compiled { IfOk result (IsUserCompiledFrom system.now (lexicons_of lexicons.now)) }
    ensures every_key { IfOk result (FindsUserKeysFrom system.now (lexicons_of lexicons.now)) }
    ensures rejected { IsUserError system.now (lexicons_of lexicons.now) result }
    ensures first { IsUserRejectedAtFault system.now (lexicons_of lexicons.now) result }
{
    compile_user_watched(alloc, system, lexicons, &mut Unwatched {})
}

/// Compiles the lexicons of a user dictionary for the dictionary `system`, and reports each step to
/// `watch`. Errors are those of `compile_user`.
pub fn compile_user_watched<W: Watch>(
    alloc: Global,
    system: &Dict,
    lexicons: &[&[u8]],
    watch: &mut W,
) -> Result<Compiled, CompileUserFault>
    ensures compiled { IfOk result (IsUserCompiledFrom system.now (lexicons_of lexicons.now)) }
    ensures every_key { IfOk result (FindsUserKeysFrom system.now (lexicons_of lexicons.now)) }
    ensures not_system { (result ≡ Err NotSystem) ↔ ((image_tables system.now).kind ≡ User) }
    ensures rejected { IsUserError system.now (lexicons_of lexicons.now) result }
    ensures first { IsUserRejectedAtFault system.now (lexicons_of lexicons.now) result }
    // Each step is reported exactly once, in order.
    ensures steps { ReportsSteps (W.reported watch.old) (W.reported watch.new)
        (λ _. AreEntrySteps (image_tables system.now).sizes (lexicons_of lexicons.now)) result }
{
    if system.is_user() {
        return Err(CompileUserFault::NotSystem);
    }
    let sizes = system.matrix_sizes();
    Ok(compile_lexicons(alloc, sizes, lexicons, watch)?)
}

/// Compiles lexicons for a system dictionary of these sizes.
fn compile_lexicons<W: Watch>(
    alloc: Global,
    sizes: MatrixSizes,
    lexicons: &[&[u8]],
    watch: &mut W,
) -> Result<Compiled, SourceFault>
    requires { AreMatrixSizes sizes }
    ensures compiled { (system : TablesOf) → IsSystemOf sizes system
        → IfOk result (λ compiled. IsUserCompilation system (lexicons_of lexicons.now)
        compiled.image.items compiled.entries compiled.skipped) }
    ensures rejected { (system : TablesOf) → IsSystemOf sizes system → IfErr result
        (λ fault. IsMemoryOr fault (IsUserCause system (lexicons_of lexicons.now) fault)) }
    ensures first { (system : TablesOf) → IsSystemOf sizes system → (fault : FaultOf)
        → IsUserFault system (lexicons_of lexicons.now) fault → IsRejectedFor fault result }
    ensures steps { ReportsSteps (W.reported watch.old) (W.reported watch.new)
        (λ _. AreEntrySteps sizes (lexicons_of lexicons.now)) result }
{
    let read = read_lexicons(alloc, lexicons, sizes, watch)?;
    user_image(alloc, read, watch)
}
