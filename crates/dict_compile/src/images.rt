//! Writing of images from parsed sources.

ghost use Rattle.std.specs.Prelude.{◌≡◌, ◌++◌, List, [], ◌∷◌, length, OnOk, IfOk, IfErr};
ghost use Rattle.mj_model.specs.Connection.{AreMatrixSizes};
ghost use Rattle.lex_source.specs.Lexicons.{AreSortedOf};
ghost use Rattle.dict_compile.specs.Images.{IsImageOf, IsImageError};
ghost use Rattle.dict_compile.specs.Parts.{FitTogether};
ghost use Rattle.dict_compile.specs.UserImages.{IsUserImageOf, IsUserImageError};
ghost use Rattle.dict_compile.specs.declared.watch.CompileStep.{CompileStep as StepOf};
ghost use Rattle.dict_compile.specs.declared.watch.CompileStep.TheVariants.{Sorted};

use crate::compiled::Compiled;
use crate::fault::of_image;
use crate::lexicons::LexiconsRead;
use crate::parts::SourceParts;
use crate::watch::{CompileStep, Watch};
use image_writer::{write_system, write_user};
use lex_source::{SortedLexicon, SourceLexicon};
use mj_model::SourceFault;
use std::alloc::{AllocError, Global};

/// Returns the image of a system dictionary from its parsed sources. Sorts the entries once.
pub(crate) fn system_image<W: Watch>(
    alloc: Global,
    parts: SourceParts<'_>,
    watch: &mut W,
) -> Result<Compiled, SourceFault>
    requires { FitTogether parts }
    ensures image { IfOk result (IsImageOf parts.entry) }
    ensures rejected { IfErr result (IsImageError parts.entry) }
    ensures steps { (before : List StepOf) → W.reported watch.old before → OnOk result
        (W.reported watch.new (before ++ Sorted (length parts.entry.lexicon.rows) ∷ [])) }
{
    let (lexicon, entries) = sorted(parts.lexicon, watch)?;
    let image = write_system(alloc, &parts.matrix, &parts.chars, &parts.unknown, lexicon).map_err(
        of_image,
    )?;
    Ok(Compiled {
        image,
        entries,
        skipped: parts.skipped,
    })
}

/// Returns the image of a user dictionary from its parsed lexicons. Sorts the entries once.
pub(crate) fn user_image<W: Watch>(
    alloc: Global,
    read: LexiconsRead<'_>,
    watch: &mut W,
) -> Result<Compiled, SourceFault>
    requires { AreMatrixSizes read.lexicon.sizes }
    ensures image { IfOk result (IsUserImageOf read.entry) }
    ensures rejected { IfErr result (IsUserImageError read.entry) }
    ensures steps { (before : List StepOf) → W.reported watch.old before → OnOk result
        (W.reported watch.new (before ++ Sorted (length read.entry.lexicon.rows) ∷ [])) }
{
    let (lexicon, entries) = sorted(read.lexicon, watch)?;
    let image = write_user(alloc, lexicon).map_err(of_image)?;
    Ok(Compiled {
        image,
        entries,
        skipped: read.skipped,
    })
}

/// Returns the entries in the order of an image, and their number. Reports the step to `watch`.
fn sorted<'a, W: Watch>(
    lexicon: SourceLexicon<'a>,
    watch: &mut W,
) -> Result<(SortedLexicon<'a>, u64), AllocError>
    ensures order { IfOk result (λ sorted. AreSortedOf lexicon.entry sorted.0) }
    ensures count { IfOk result (λ sorted. sorted.1 ≡ length lexicon.entry.rows) }
    ensures step { (before : List StepOf) → W.reported watch.old before → OnOk result
        (W.reported watch.new (before ++ Sorted (length lexicon.entry.rows) ∷ [])) }
{
    let entries = lexicon.len() as u64;
    let sorted = lexicon.sorted()?;
    watch.done(CompileStep::Sorted { entries });
    Ok((sorted, entries))
}
