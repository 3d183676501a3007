//! Errors of the bytes of an image.

ghost use Rattle.std.specs.Prelude.{◌≡◌};
ghost use Rattle.mj_model.specs.ImageFaultWords.{image_words};
ghost use Rattle.mj_model.specs.declared.image_fault.ImageFault.TheVariants.{Memory};

use crate::named_fault::{NamedFault, write_code_and_name, write_numbered};
use std::alloc::{AllocError, AllocFailed};
use std::fmt::{self, Display, Formatter, Write};
use thiserror::Error;

/// Why an image is rejected. Sections are counted from 1, keys and tokens from 0. The number in an
/// error is the lowest invalid one.
#[derive(Clone, Copy, Debug, PartialEq, Eq, Drop, Error)]
pub enum ImageFault {
    /// The image is shorter than the header, or shorter than the header demands.
    Truncated,
    /// The first 8 bytes are not the magic number of an image.
    BadMagic,
    /// This layout is not supported.
    BadLayout(u32),
    /// This section is invalid. Section 0 is the header, and 9 is what follows the last section.
    BadSection(u8),
    /// This group has no key that is UTF-8 of 1 to `SURFACE_MAX` bytes.
    BadKey(u32),
    /// An id of this token lies outside the connection table, or its two spare bytes are not 0.
    BadToken(u32),
    /// The feature of this token lies outside the features, or is not UTF-8.
    BadText(u32),
    /// The SHA-256 at the end does not match the bytes before it.
    Digest,
    /// An allocation failed.
    Memory,
}

impl NamedFault for ImageFault {
    ghost words_of = { image_words };

    fn words(self) -> (&'static str, &'static str) {
        match self {
            ImageFault::Truncated => ("L1", "Truncated"),
            ImageFault::BadMagic => ("L2", "BadMagic"),
            ImageFault::BadLayout(_) => ("L3", "BadLayout"),
            ImageFault::BadSection(_) => ("L4", "BadSection"),
            ImageFault::BadKey(_) => ("L5", "BadKey"),
            ImageFault::BadToken(_) => ("L6", "BadToken"),
            ImageFault::BadText(_) => ("L7", "BadText"),
            ImageFault::Digest => ("L8", "Digest"),
            ImageFault::Memory => ("Memory", "Memory"),
        }
    }
}

impl Display for ImageFault {
    fn fmt<W: Write>(&self, f: &mut Formatter<W>) -> fmt::Result {
        match *self {
            ImageFault::BadSection(section) => write_numbered(*self, section, f),
            ImageFault::BadLayout(number)
            | ImageFault::BadKey(number)
            | ImageFault::BadToken(number)
            | ImageFault::BadText(number) => write_numbered(*self, number, f),
            _ => write_code_and_name(*self, f),
        }
    }
}

impl<T: Drop> From<AllocFailed<T>> for ImageFault {
    ghost from_gives = { λ _ fault. fault ≡ Memory };

    fn from(_error: AllocFailed<T>) -> ImageFault {
        ImageFault::Memory
    }
}

impl From<AllocError> for ImageFault {
    ghost from_gives = { λ _ fault. fault ≡ Memory };

    fn from(_error: AllocError) -> ImageFault {
        ImageFault::Memory
    }
}
