//! Segments lines and texts for C, and returns the size of the path.

ghost use Rattle.std.specs.Prelude.{◌≡◌, IfOk, IfErr, OnOk, OnErr};
ghost use Rattle.line_segmenter.specs.Segmenters.{OfLastLine};
ghost use Rattle.line_segmenter.specs.Faults.{IsNothingSegmented};
ghost use Rattle.capi.specs.Calls.{HasSize, IsSegmentedInto, IsGoodFor, IsErrorFor, reported_size};
ghost use Rattle.capi.specs.Codes.{result_code};
ghost use Rattle.capi.specs.Outputs.{IsCallErrorPosition, IsPlaceIfBad};

use crate::codes::{OK, code_of};
use crate::fault::CallFault;
use crate::places::error_position;
use crate::session::Session;
use line_segmenter::SegmentFault;

/// The number of words of a path, and its cost.
#[derive(Clone, Copy, Debug, PartialEq, Eq, Drop)]
pub struct PathSize {
    pub count: usize,
    pub total: i64,
}

/// What an input is: a line or a text.
#[derive(Clone, Copy, Debug, PartialEq, Eq, Drop)]
pub enum Extent {
    /// One line, without an LF.
    Line,
    /// A text, in which an LF is a character like any other.
    Text,
}

impl Session {
    /// Segments a line or a text, and returns the size of its path.
    #[tactic(auto, unfolding(crate::specs::Calls::IsGoodLine, crate::specs::Calls::IsGoodText))]
    pub fn segment(&mut self, extent: Extent, text: &[u8]) -> Result<PathSize, SegmentFault>
        ensures segmented { IfOk result
            (λ size. IsSegmentedInto text.now size self.old.segmenter self.new.segmenter) }
        ensures accepted { OnOk result (IsGoodFor extent text.now) }
        ensures rejected { IfErr result (IsErrorFor extent text.now) }
        ensures unchanged { OnErr result (self.new.segmenter ≡ self.old.segmenter) }
    {
        match extent {
            Extent::Line => self.segmenter.segment(text)?,
            Extent::Text => self.segmenter.segment_whole(text)?,
        }
        self.path_size()
    }

    /// Returns the size of the last path.
    fn path_size(&self) -> Result<PathSize, SegmentFault>
        ensures size { IfOk result (λ size. OfLastLine self.now.segmenter (HasSize size)) }
        ensures none { IfErr result (IsNothingSegmented self.now.segmenter) }
    {
        Ok(PathSize {
            count: self.segmenter.words()?.len(),
            total: self.segmenter.total()?,
        })
    }
}

/// Returns the code of a result. On success stores the size of the path in `count` and `total`, on
/// an error its position in `text`, if it has one, in `at`.
pub fn result_with_size(
    outcome: Result<PathSize, CallFault>,
    text: &[u8],
    count: &mut usize,
    total: &mut i64,
    at: &mut usize,
) -> u32
    ensures code { result ≡ result_code outcome }
    ensures size { IfOk outcome (λ size. size ≡ reported_size count.new total.new) }
    ensures size_unset { OnErr outcome
        (reported_size count.new total.new ≡ reported_size count.old total.old) }
    ensures place { IfErr outcome (IsCallErrorPosition (IsPlaceIfBad text.now) at.old at.new) }
    ensures at_unset { OnOk outcome (at.new ≡ at.old) }
{
    match outcome {
        Ok(size) => {
            *count = size.count;
            *total = size.total;
            OK
        }
        Err(fault) => {
            *at = error_position(text, fault, *at);
            code_of(fault)
        }
    }
}
