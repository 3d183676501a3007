//! Errors of an insertion.

ghost use Rattle.double_array.specs.FaultWords.{words_of as fault_words};

use mj_model::{NamedFault, write_code_and_name};
use std::fmt::{self, Display, Formatter, Write};
use thiserror::Error;

/// Why an insertion failed. The map is unchanged.
#[derive(Clone, Copy, Debug, PartialEq, Eq, Drop, Error)]
pub enum DaFault {
    /// The array would need more than 2^30 cells.
    Full,
    /// An allocation failed.
    Memory,
}

impl Display for DaFault {
    fn fmt<W: Write>(&self, f: &mut Formatter<W>) -> fmt::Result {
        write_code_and_name(*self, f)
    }
}

impl NamedFault for DaFault {
    ghost words_of = { fault_words };

    fn words(self) -> (&'static str, &'static str) {
        match self {
            DaFault::Full => ("X1", "Full"),
            DaFault::Memory => ("Memory", "Memory"),
        }
    }
}
