//! Compilation of a system dictionary after its connection costs were read.

ghost use Rattle.std.specs.Prelude.{ℕ, List, IfOk, IfErr};
ghost use Rattle.std.specs.Borrow.{Bor};
ghost use Rattle.matrix_def.specs.Costs.{IsTableIn};
ghost use Rattle.dict_compile.specs.Outcomes.{FindsKeysFrom, IsCompilationError, IsCompiledFrom, IsRejectedAtFault};
ghost use Rattle.dict_compile.specs.OtherSources.{sources_with};
ghost use Rattle.dict_compile.specs.Steps.{AreSteps, ReportsSteps};

use crate::compiled::Compiled;
use crate::images::system_image;
use crate::parts::read_others;
use crate::watch::Watch;
use matrix_def::Matrix;
use mj_model::SourceFault;
use std::alloc::Global;

/// The bytes of MeCab's source files except `matrix.def`.
#[derive(Clone, Copy, Debug)]
pub struct OtherSources<'a> {
    /// `char.def`.
    pub chars: &'a [u8],
    /// `unk.def`.
    pub unk: &'a [u8],
    /// The lexicons, in the order in which they are read.
    pub lexicons: &'a [&'a [u8]],
}

/// Compiles the sources of a system dictionary whose `matrix.def` was read before, and reports each
/// step to `watch`. `matrix` are its costs, so that the bytes of the file, the largest of the
/// sources, need not be kept.
pub fn compile_others_watched<W: Watch>(
    alloc: Global,
    matrix: Matrix,
    others: &OtherSources<'_>,
    watch: &mut W,
) -> Result<Compiled, SourceFault>
    ensures compiled { (costs : Bor (List ℕ)) → IsTableIn costs.now matrix
        → IfOk result (IsCompiledFrom (sources_with costs others.now)) }
    ensures every_key { (costs : Bor (List ℕ)) → IsTableIn costs.now matrix
        → IfOk result (FindsKeysFrom (sources_with costs others.now)) }
    ensures rejected { (costs : Bor (List ℕ)) → IsTableIn costs.now matrix
        → IfErr result (IsCompilationError (sources_with costs others.now)) }
    // Invalid sources are rejected with their first error, unless an allocation fails or the double
    // array is full.
    ensures first { (costs : Bor (List ℕ)) → IsTableIn costs.now matrix
        → IsRejectedAtFault (sources_with costs others.now) result }
    // Each step is reported exactly once, in order.
    ensures steps { (costs : Bor (List ℕ)) → IsTableIn costs.now matrix
        → ReportsSteps (W.reported watch.old) (W.reported watch.new)
        (λ _. AreSteps (sources_with costs others.now)) result }
{
    let parts = read_others(alloc, matrix, others, watch)?;
    system_image(alloc, parts, watch)
}
