//! The position of an error in a text.

ghost use Rattle.std.specs.Prelude.{IsUtf8};
ghost use Rattle.std.specs.Str.{IsValidUpTo};
ghost use Rattle.capi.specs.Outputs.{IsCallErrorPosition, IsPlaceIfBad};

use crate::fault::CallFault;
use line_segmenter::SegmentFault;
use std::str;

/// Returns the number of bytes before the first one that is not UTF-8, or the length of a valid
/// text.
fn valid_up_to(text: &[u8]) -> usize
    ensures { (IsUtf8 text.now → ⊥) → IsValidUpTo text.now result }
{
    match str::from_utf8(text) {
        Ok(text) => text.len(),
        Err(error) => error.valid_up_to(),
    }
}

/// Returns the byte offset of an error in `text`, or `at` if the error has no position.
pub fn error_position(text: &[u8], fault: CallFault, at: usize) -> usize
    ensures { IsCallErrorPosition (IsPlaceIfBad text.now) at result fault }
{
    match fault {
        CallFault::Segment(SegmentFault::LineFeed(place)) => place,
        CallFault::Segment(SegmentFault::NotUtf8) => valid_up_to(text),
        CallFault::Segment(SegmentFault::TooLong) => text.len(),
        _ => at,
    }
}
