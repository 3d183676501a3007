//! Compilation of a system dictionary.

ghost use Rattle.std.specs.Prelude.{IfOk, IfErr};
ghost use Rattle.dict_compile.specs.Outcomes.{FindsKeysFrom, IsCompilationError, IsCompiledFrom, IsRejectedAtFault};
ghost use Rattle.dict_compile.specs.Steps.{AreSteps, ReportsSteps};

use crate::compiled::Compiled;
use crate::images::system_image;
use crate::parts::read_sources;
use crate::watch::{Unwatched, Watch};
use mj_model::{SourceFault, Sources};
use std::alloc::Global;

/// Compiles the sources of a system dictionary to an image of layout 3. Returns the first error
/// otherwise.
///
/// Reads `matrix.def` first, then `char.def`, `unk.def`, and each lexicon in the given order.
/// (MeCab, `mecab-dict-index`; the order is this project's own choice)
pub fn compile(alloc: Global, sources: &Sources<'_>) -> Result<Compiled, SourceFault>
    ensures compiled { IfOk result (IsCompiledFrom sources.now) }
    ensures every_key { IfOk result (FindsKeysFrom sources.now) }
    ensures rejected { IfErr result (IsCompilationError sources.now) }
    // Invalid sources are rejected with their first error, unless an allocation fails or the double
    // array is full.
    ensures first { IsRejectedAtFault sources.now result }
{
    compile_watched(alloc, sources, &mut Unwatched {})
}

/// Compiles the sources of a system dictionary to an image of layout 3, and reports each step to
/// `watch`. Returns the first error otherwise, in the order of `compile`.
pub fn compile_watched<W: Watch>(
    alloc: Global,
    sources: &Sources<'_>,
    watch: &mut W,
) -> Result<Compiled, SourceFault>
    ensures compiled { IfOk result (IsCompiledFrom sources.now) }
    ensures every_key { IfOk result (FindsKeysFrom sources.now) }
    ensures rejected { IfErr result (IsCompilationError sources.now) }
    // Invalid sources are rejected with their first error, unless an allocation fails or the double
    // array is full.
    ensures first { IsRejectedAtFault sources.now result }
    // Each step is reported exactly once, in order.
    ensures steps { ReportsSteps (W.reported watch.old) (W.reported watch.new)
        (λ _. AreSteps sources.now) result }
{
    let parts = read_sources(alloc, sources, watch)?;
    system_image(alloc, parts, watch)
}
