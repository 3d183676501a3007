//! The error type of the C interface.

ghost use Rattle.capi.specs.CallWords.{call_words};

use line_segmenter::SegmentFault;
use mj_model::NamedFault;

/// The error of a call from C: an error of a handle or buffer that C passed, or of the segmenter.
#[derive(Clone, Copy, Debug, PartialEq, Eq, Drop)]
pub enum CallFault {
    /// The handle is empty.
    EmptySegmenter,
    /// The handle is not empty.
    FullSegmenter,
    /// The output does not fit into the buffer.
    ShortBuffer,
    /// The segmenter returned an error.
    Segment(SegmentFault),
}

impl NamedFault for CallFault {
    ghost words_of = { call_words };

    fn words(self) -> (&'static str, &'static str) {
        match self {
            CallFault::Segment(fault) => fault.words(),
            CallFault::EmptySegmenter => ("K5", "EmptySegmenter"),
            CallFault::FullSegmenter => ("K6", "FullSegmenter"),
            CallFault::ShortBuffer => ("K7", "ShortBuffer"),
        }
    }
}
