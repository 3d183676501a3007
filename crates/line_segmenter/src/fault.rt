//! The error type of a segmenter's calls.

ghost use Rattle.std.specs.Prelude.{◌≡◌};
ghost use Rattle.line_segmenter.specs.FaultWords.{segment_fault_words, of_image_fault, of_line_fault, of_line_error, of_format_fault};
ghost use Rattle.line_segmenter.specs.declared.fault.SegmentFault.TheVariants.{Overlay, Memory};

use line_stream::{LineError, LineFault};
use mj_model::{
    FormatFault, ImageFault, NamedFault, OverlayFault, write_code_and_name, write_numbered,
};
use std::alloc::{AllocError, AllocFailed};
use std::fmt::{self, Display, Formatter, Write};
use thiserror::Error;

/// The error of a segmenter's call. Positions are byte offsets into the line, and words are counted
/// from 0.
#[derive(Clone, Copy, Debug, PartialEq, Eq, Drop, Error)]
pub enum SegmentFault {
    /// The image of a dictionary is invalid. An allocation failure while it is loaded is
    /// `SegmentFault::Memory`.
    Image(ImageFault),
    /// The dictionary does not fit the others: a wrong kind, or other sizes.
    Overlay(OverlayFault),
    /// The texts are not a valid format. An allocation failure while they are parsed is
    /// `SegmentFault::Memory`.
    Format(FormatFault),
    /// The text is not UTF-8.
    NotUtf8,
    /// The text has more than `SENTENCE_MAX` bytes.
    TooLong,
    /// The line contains an LF. The number is the offset of the first one.
    LineFeed(usize),
    /// There is no last line: none was segmented since the segmenter was created, since
    /// `parse_lines`, or since its dictionaries or its grouping changed.
    NothingSegmented,
    /// Another segmenter shares the dictionaries.
    Shared,
    /// The grouping is greater than `GROUPING_MAX`.
    BadGrouping,
    /// The last path has no word of this number.
    NoWord(usize),
    /// An allocation failed.
    Memory,
}

impl NamedFault for SegmentFault {
    ghost words_of = { segment_fault_words };

    fn words(self) -> (&'static str, &'static str) {
        match self {
            SegmentFault::Image(fault) => fault.words(),
            SegmentFault::Overlay(fault) => fault.words(),
            SegmentFault::Format(fault) => fault.words(),
            SegmentFault::NotUtf8 => ("G3", "NotUtf8"),
            SegmentFault::TooLong => ("G4", "TooLong"),
            SegmentFault::LineFeed(_) => ("K1", "LineFeed"),
            SegmentFault::NoWord(_) => ("K8", "NoWord"),
            SegmentFault::NothingSegmented => ("K2", "NothingSegmented"),
            SegmentFault::Shared => ("K3", "Shared"),
            SegmentFault::BadGrouping => ("K4", "BadGrouping"),
            SegmentFault::Memory => ("Memory", "Memory"),
        }
    }
}

impl From<ImageFault> for SegmentFault {
    ghost from_gives = { λ fault reported. reported ≡ of_image_fault fault };

    fn from(fault: ImageFault) -> SegmentFault {
        match fault {
            ImageFault::Memory => SegmentFault::Memory,
            _ => SegmentFault::Image(fault),
        }
    }
}

impl From<LineFault> for SegmentFault {
    ghost from_gives = { λ fault reported. reported ≡ of_line_fault fault };

    fn from(fault: LineFault) -> SegmentFault {
        match fault {
            LineFault::TooLong => SegmentFault::TooLong,
            LineFault::NotUtf8 => SegmentFault::NotUtf8,
        }
    }
}

impl From<LineError> for SegmentFault {
    ghost from_gives = { λ error reported. reported ≡ of_line_error error };

    fn from(error: LineError) -> SegmentFault {
        match error {
            LineError::Bad(fault) => fault.into(),
            LineError::Memory => SegmentFault::Memory,
        }
    }
}

impl From<FormatFault> for SegmentFault {
    ghost from_gives = { λ fault reported. reported ≡ of_format_fault fault };

    fn from(fault: FormatFault) -> SegmentFault {
        match fault {
            FormatFault::Memory => SegmentFault::Memory,
            FormatFault::Bad { .. } => SegmentFault::Format(fault),
        }
    }
}

impl From<OverlayFault> for SegmentFault {
    ghost from_gives = { λ fault reported. reported ≡ Overlay fault };

    fn from(fault: OverlayFault) -> SegmentFault {
        SegmentFault::Overlay(fault)
    }
}

impl From<AllocError> for SegmentFault {
    ghost from_gives = { λ _ fault. fault ≡ Memory };

    fn from(_error: AllocError) -> SegmentFault {
        SegmentFault::Memory
    }
}

impl Display for SegmentFault {
    fn fmt<W: Write>(&self, f: &mut Formatter<W>) -> fmt::Result {
        match *self {
            SegmentFault::Image(fault) => fault.fmt(f),
            SegmentFault::Overlay(fault) => fault.fmt(f),
            SegmentFault::Format(fault) => fault.fmt(f),
            SegmentFault::LineFeed(number) | SegmentFault::NoWord(number) => {
                write_numbered(*self, number, f)
            }
            _ => write_code_and_name(*self, f),
        }
    }
}

impl<T: Drop> From<AllocFailed<T>> for SegmentFault {
    ghost from_gives = { λ _ fault. fault ≡ Memory };

    fn from(_error: AllocFailed<T>) -> SegmentFault {
        SegmentFault::Memory
    }
}
