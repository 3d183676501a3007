//! Errors of an output format.

ghost use Rattle.std.specs.Prelude.{◌≡◌};
ghost use Rattle.mj_model.specs.FaultWords.{format_words};
ghost use Rattle.mj_model.specs.declared.format_fault.FormatFault.TheVariants.{Memory};

use crate::named_fault::{NamedFault, write_code_and_name, write_numbered};
use std::alloc::{AllocError, AllocFailed};
use std::fmt::{self, Display, Formatter, Write};
use thiserror::Error;

/// One of the four texts of an output format.
#[derive(Clone, Copy, Debug, PartialEq, Eq, Drop)]
pub enum FormatPart {
    /// The text printed for each known word.
    Node,
    /// The text printed for each unknown word.
    Unk,
    /// The text printed before the first word.
    Bos,
    /// The text printed after the last word.
    Eos,
}

/// Why a text of a format is rejected.
#[derive(Clone, Copy, Debug, PartialEq, Eq, Drop)]
pub enum FormatKind {
    /// The character after a backslash has no escape.
    BadEscape,
    /// No item of this part follows a `%`.
    BadItem,
    /// `%f` without an index in brackets of one to five digits, at most 65,535.
    BadIndex,
}

/// Why a format is rejected.
#[derive(Clone, Copy, Debug, PartialEq, Eq, Drop, Error)]
/// A text of the format is invalid. `at` is the byte offset in `part` of the `%` or of the
/// backslash, counted from 0.
pub enum FormatFault {
    Bad {
        part: FormatPart,
        at: usize,
        kind: FormatKind,
    },
    /// An allocation failed.
    Memory,
}

impl NamedFault for FormatFault {
    ghost words_of = { format_words };

    fn words(self) -> (&'static str, &'static str) {
        match self {
            FormatFault::Bad {
                kind: FormatKind::BadEscape,
                ..
            } => ("P1", "BadEscape"),
            FormatFault::Bad {
                kind: FormatKind::BadItem,
                ..
            } => ("P2", "BadItem"),
            FormatFault::Bad {
                kind: FormatKind::BadIndex,
                ..
            } => ("P3", "BadIndex"),
            FormatFault::Memory => ("Memory", "Memory"),
        }
    }
}

impl Display for FormatFault {
    fn fmt<W: Write>(&self, f: &mut Formatter<W>) -> fmt::Result {
        match *self {
            FormatFault::Bad { at, .. } => write_numbered(*self, at, f),
            FormatFault::Memory => write_code_and_name(*self, f),
        }
    }
}

impl From<AllocError> for FormatFault {
    ghost from_gives = { λ _ fault. fault ≡ Memory };

    fn from(_error: AllocError) -> FormatFault {
        FormatFault::Memory
    }
}

impl<T: Drop> From<AllocFailed<T>> for FormatFault {
    ghost from_gives = { λ _ fault. fault ≡ Memory };

    fn from(_error: AllocFailed<T>) -> FormatFault {
        FormatFault::Memory
    }
}
