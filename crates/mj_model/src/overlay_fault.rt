//! Errors of a system dictionary combined with user dictionaries.

ghost use Rattle.mj_model.specs.ImageFaultWords.{overlay_words};

use crate::named_fault::{NamedFault, write_code_and_name, write_numbered};
use std::fmt::{self, Display, Formatter, Write};
use thiserror::Error;

/// Why dictionaries cannot be combined. User dictionaries are counted from 0, in the given order.
#[derive(Clone, Copy, Debug, PartialEq, Eq, Drop, Error)]
pub enum OverlayFault {
    /// The first dictionary is not a system dictionary.
    NotSystem,
    /// This one is not a user dictionary.
    NotUser(usize),
    /// This one was compiled for a connection table of other sizes.
    OtherSizes(usize),
}

impl Display for OverlayFault {
    fn fmt<W: Write>(&self, f: &mut Formatter<W>) -> fmt::Result {
        match *self {
            OverlayFault::NotSystem => write_code_and_name(*self, f),
            OverlayFault::NotUser(user) | OverlayFault::OtherSizes(user) => {
                write_numbered(*self, user, f)
            }
        }
    }
}

impl NamedFault for OverlayFault {
    ghost words_of = { overlay_words };

    fn words(self) -> (&'static str, &'static str) {
        match self {
            OverlayFault::NotSystem => ("O1", "NotSystem"),
            OverlayFault::NotUser(_) => ("O2", "NotUser"),
            OverlayFault::OtherSizes(_) => ("O3", "OtherSizes"),
        }
    }
}
