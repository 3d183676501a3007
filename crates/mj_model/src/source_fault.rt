//! Errors of a dictionary's sources, and where they are.

ghost use Rattle.std.specs.Prelude.{◌≡◌};
ghost use Rattle.mj_model.specs.FaultWords.{source_words};
ghost use Rattle.mj_model.specs.declared.source_fault.SourceKind.TheVariants.{Memory};

use crate::named_fault::{NamedFault, write_code_and_name, write_numbered};
use std::alloc::{AllocError, AllocFailed};
use std::fmt::{self, Display, Formatter, Write};
use thiserror::Error;

/// The file number of `matrix.def`.
pub const MATRIX_FILE: u32 = 0;

/// The file number of `char.def`.
pub const CHAR_FILE: u32 = 1;

/// The file number of `unk.def`.
pub const UNK_FILE: u32 = 2;

/// The file number of the first lexicon. The lexicons after it are numbered consecutively.
pub const FIRST_LEXICON_FILE: u32 = 3;

/// The greatest file number of a lexicon. All lexicons after the one with this number share it.
pub const LAST_LEXICON_FILE: u32 = u32::MAX - 1;

/// The file number of an error that belongs to no file, but to the whole compilation.
pub const NO_FILE: u32 = u32::MAX;

/// Why a source is rejected. The letter of each code names the kind of file, such as `M` for
/// `matrix.def`.
#[derive(Clone, Copy, Debug, PartialEq, Eq, Drop, Error)]
pub enum SourceKind {
    /// A line of a lexicon or of `unk.def` is not UTF-8.
    NotUtf8,
    /// A line has fewer than five fields: no comma ends the fourth.
    TooFewFields,
    /// An id is not a number from 0 to 65,535, or the cost is not a number from -32,768 to 32,767.
    BadNumber,
    /// A surface has more than `SURFACE_MAX` bytes.
    SurfaceTooLong,
    /// There are more than `ENTRIES_MAX` entries.
    TooManyEntries,
    /// The first line of `matrix.def` that is not blank is not two numbers from 1 to 65,535. If
    /// there is no such line, the error is at line 0.
    BadHeader,
    /// A later line of `matrix.def` is not two ids and a cost.
    BadRow,
    /// The ids of a row lie outside the sizes.
    PairOutside,
    /// The product of the sizes is above `MATRIX_CELLS_MAX`.
    TooLarge,
    /// A line of `char.def` has too few words, an invalid number or an invalid name.
    BadLine,
    /// The code points of a mapping are not a range within U+0000 to U+10FFFF.
    BadRange,
    /// A line of `char.def` defines a category that is already defined.
    Twice,
    /// A mapping names a category that `char.def` does not define.
    UndefinedCategory,
    /// There are more than `CATEGORIES_MAX` categories.
    TooManyCategories,
    /// `char.def` does not define DEFAULT.
    NoDefault,
    /// `char.def` does not define SPACE.
    NoSpace,
    /// A line of `unk.def` names no category of `char.def`.
    NoSuchCategory,
    /// This category has no line in `unk.def`. It is the lowest one without a line.
    MissingCategory(u8),
    /// An id of a lexicon or of `unk.def` lies outside the connection table.
    IdOutside,
    /// The key index of an image is full.
    ArrayFull,
    /// The features of an image take 2^32 bytes or more.
    FeaturesTooLarge,
    /// An allocation failed.
    Memory,
}

impl SourceKind {
    /// Returns the error of this kind at line `line` of file `file`.
    pub fn at(self, file: u32, line: u64) -> SourceFault
        ensures { result ≡ record { file = file; line = line; kind = self } }
    {
        SourceFault {
            file,
            line,
            kind: self,
        }
    }
}

impl NamedFault for SourceKind {
    ghost words_of = { source_words };

    fn words(self) -> (&'static str, &'static str) {
        match self {
            SourceKind::NotUtf8 => ("S1", "NotUtf8"),
            SourceKind::TooFewFields => ("S2", "TooFewFields"),
            SourceKind::BadNumber => ("S3", "BadNumber"),
            SourceKind::SurfaceTooLong => ("S4", "SurfaceTooLong"),
            SourceKind::TooManyEntries => ("S5", "TooMany"),
            SourceKind::BadHeader => ("M1", "BadHeader"),
            SourceKind::BadRow => ("M2", "BadRow"),
            SourceKind::PairOutside => ("M3", "PairOutside"),
            SourceKind::TooLarge => ("M4", "TooLarge"),
            SourceKind::BadLine => ("C1", "BadLine"),
            SourceKind::BadRange => ("C2", "BadRange"),
            SourceKind::Twice => ("C3", "Twice"),
            SourceKind::UndefinedCategory => ("C4", "NoSuchCategory"),
            SourceKind::TooManyCategories => ("C5", "TooMany"),
            SourceKind::NoDefault => ("C6", "NoDefault"),
            SourceKind::NoSpace => ("C7", "NoSpace"),
            SourceKind::NoSuchCategory => ("U1", "NoSuchCategory"),
            SourceKind::MissingCategory(_) => ("U2", "MissingCategory"),
            SourceKind::IdOutside => ("I1", "IdOutside"),
            SourceKind::ArrayFull => ("I2", "ArrayFull"),
            SourceKind::FeaturesTooLarge => ("I3", "FeaturesTooLarge"),
            SourceKind::Memory => ("Memory", "Memory"),
        }
    }
}

impl Display for SourceKind {
    fn fmt<W: Write>(&self, f: &mut Formatter<W>) -> fmt::Result {
        match *self {
            SourceKind::MissingCategory(category) => write_numbered(*self, category, f),
            _ => write_code_and_name(*self, f),
        }
    }
}

impl<T: Drop> From<AllocFailed<T>> for SourceKind {
    ghost from_gives = { λ _ kind. kind ≡ Memory };

    fn from(_error: AllocFailed<T>) -> SourceKind {
        SourceKind::Memory
    }
}

impl From<AllocError> for SourceKind {
    ghost from_gives = { λ _ kind. kind ≡ Memory };

    fn from(_error: AllocError) -> SourceKind {
        SourceKind::Memory
    }
}

/// An error in a source, with its file and line. If the kind is `Memory`, `file` and `line` have no
/// meaning.
#[derive(Clone, Copy, Debug, PartialEq, Eq, Drop, Error)]
#[error("file {file}, line {line}: {kind}")]
pub struct SourceFault {
    /// 0 is `matrix.def`, 1 `char.def`, 2 `unk.def`. The lexicons follow from 3 on, in the given
    /// order.
    pub file: u32,
    /// Counted from 1. Line 0 means the file as a whole.
    pub line: u64,
    pub kind: SourceKind,
}

impl NamedFault for SourceFault {
    ghost words_of = { λ fault. source_words fault.kind };

    fn words(self) -> (&'static str, &'static str) {
        self.kind.words()
    }
}

impl From<AllocError> for SourceFault {
    ghost from_gives = { λ _ fault. fault.kind ≡ Memory };

    fn from(_error: AllocError) -> SourceFault {
        SourceKind::Memory.at(NO_FILE, 0)
    }
}

impl<T: Drop> From<AllocFailed<T>> for SourceFault {
    ghost from_gives = { λ _ fault. fault.kind ≡ Memory };

    fn from(_error: AllocFailed<T>) -> SourceFault {
        SourceKind::Memory.at(NO_FILE, 0)
    }
}
