//! The parsed sources of a system dictionary.

ghost use Rattle.std.specs.Prelude.{ℕ, List, IfOk, IfErr};
ghost use Rattle.std.specs.Borrow.{Bor};
ghost use Rattle.matrix_def.specs.Costs.{IsTableIn};
ghost use Rattle.dict_compile.specs.OtherSources.{sources_with};
ghost use Rattle.dict_compile.specs.Results.{lexicons_of};
ghost use Rattle.dict_compile.specs.Parts.{AreParts, FitTogether, IsReadingError};
ghost use Rattle.dict_compile.specs.Steps.{AreReadingSteps, ReportsSteps};

use crate::lexicons::read_lexicons;
use crate::other_sources::OtherSources;
use crate::unknown::read_unknown;
use crate::watch::{CompileStep, Watch};
use char_def::{CharTable, UnkTable, read_chars};
use lex_source::SourceLexicon;
use matrix_def::{Matrix, read_matrix};
use mj_model::{SourceFault, Sources};
use std::alloc::Global;

/// The contents of the sources of a system dictionary, by file.
#[derive(Drop)]
pub(crate) struct SourceParts<'a> {
    pub(crate) matrix: Matrix,
    pub(crate) chars: CharTable,
    pub(crate) unknown: UnkTable<'a>,
    pub(crate) lexicon: SourceLexicon<'a>,
    /// The number of lexicon lines that were skipped.
    pub(crate) skipped: u128,
}

/// Reads all sources, up to the first error.
pub(crate) fn read_sources<'a, W: Watch>(
    alloc: Global,
    sources: &Sources<'a>,
    watch: &mut W,
) -> Result<SourceParts<'a>, SourceFault>
    ensures accepted { IfOk result (AreParts sources.now) }
    ensures fitting { IfOk result FitTogether }
    ensures rejected { IfErr result (IsReadingError sources.now) }
    ensures steps { ReportsSteps (W.reported watch.old) (W.reported watch.new)
        (AreReadingSteps (lexicons_of sources.now.lexicons.now)) result }
{
    let matrix = read_matrix(alloc, sources.matrix)?;
    let others = OtherSources {
        chars: sources.chars,
        unk: sources.unk,
        lexicons: sources.lexicons,
    };
    read_others(alloc, matrix, &others, watch)
}

/// Reads the sources after `matrix.def`, whose costs are `matrix`, up to the first error.
pub(crate) fn read_others<'a, W: Watch>(
    alloc: Global,
    matrix: Matrix,
    others: &OtherSources<'a>,
    watch: &mut W,
) -> Result<SourceParts<'a>, SourceFault>
    ensures accepted { (costs : Bor (List ℕ)) → IsTableIn costs.now matrix
        → IfOk result (AreParts (sources_with costs others.now)) }
    ensures fitting { IfOk result FitTogether }
    ensures rejected { (costs : Bor (List ℕ)) → IsTableIn costs.now matrix
        → IfErr result (IsReadingError (sources_with costs others.now)) }
    ensures steps { ReportsSteps (W.reported watch.old) (W.reported watch.new)
        (AreReadingSteps (lexicons_of others.now.lexicons.now)) result }
{
    let sizes = matrix.sizes();
    watch.done(CompileStep::MatrixRead(sizes));
    let chars = read_chars(alloc, others.chars)?;
    watch.done(CompileStep::CategoriesRead(chars.count()));
    let unknown = read_unknown(alloc, others.unk, &chars, sizes)?;
    watch.done(CompileStep::UnknownRead);
    let lexicons = read_lexicons(alloc, others.lexicons, sizes, watch)?;
    Ok(SourceParts {
        matrix,
        chars,
        unknown,
        lexicon: lexicons.lexicon,
        skipped: lexicons.skipped,
    })
}
