//! Writes items of the last line into a buffer that C provides.

ghost use Rattle.std.specs.Prelude.{◌≡◌, ℕ, List, OnOk, OnErr, IfErr};
ghost use Rattle.line_segmenter.specs.Segmenters.{SegmentedLine, SegmenterState, OfLastLine};
ghost use Rattle.line_segmenter.specs.declared.fault.SegmentFault.{SegmentFault as FaultOf};
ghost use Rattle.capi.specs.Handles.{ItemsResult, segmenter_in};

use crate::codes::{code_of, code_of_result};
use crate::fault::CallFault;
use crate::handle::Handle;
use line_segmenter::{SegmentFault, Segmenter};
use std::alloc::Global;

/// An item of the last line in the layout of the C header: a word of its path, or a node of its
/// lattice.
pub trait CItem {
    /// `written state first count old new line`: the items of `line` from index `first` were
    /// written into the buffer `old`, which is `new` then, and there are `count` in all.
    ghost written: { SegmenterState → ℕ → ℕ → List Self → List Self → SegmentedLine → Type 0 };

    /// The errors of `write`.
    ghost rejected: { SegmenterState → FaultOf → Type 0 };

    /// Writes the items from index `first` into `out`, as many as fit, and stores the number of all
    /// items in `count`.
    fn write(
        segmenter: &Segmenter,
        first: usize,
        out: &mut [Self],
        count: &mut usize,
    ) -> Result<(), SegmentFault>
        ensures written { OnOk result
            (OfLastLine segmenter.now (written segmenter.now first count.new out.old out.new)) }
        ensures rejected { IfErr result (rejected segmenter.now) }
        ensures unchanged { OnErr result (out.new ≡ out.old) }
        ensures unset { OnErr result (count.new ≡ count.old) };
}

impl Handle {
    /// Writes items of the handle's segmenter, from index `first`, into `out`. Stores the number of
    /// all items in `count`, and returns a code.
    pub fn write_items<T: CItem>(
        &mut self,
        alloc: Global,
        first: usize,
        out: &mut [T],
        count: &mut usize,
    ) -> u32
        ensures { ItemsResult T.written T.rejected first (segmenter_in self.old)
            (segmenter_in self.new) out.old out.new count.old count.new result }
    {
        let Some(session) = self.take(alloc) else {
            return code_of(CallFault::EmptySegmenter);
        };
        let outcome = T::write(&session.segmenter, first, out, count);
        self.put(session);
        code_of_result(outcome.map_err(CallFault::Segment))
    }
}
