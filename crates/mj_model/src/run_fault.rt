//! Errors of a run over a text.

ghost use Rattle.mj_model.specs.FaultWords.{run_words};

use crate::named_fault::{NamedFault, write_code_and_name, write_numbered};
use crate::source_fault::SourceFault;
use std::fmt::{self, Display, Formatter, Write};
use thiserror::Error;

/// Why a run over a text failed. Lines of the text are numbered from 1.
#[derive(Clone, Copy, Debug, PartialEq, Eq, Drop, Error)]
pub enum RunFault {
    /// The sources of the system dictionary are rejected. Nothing was read.
    Source(SourceFault),
    /// The lexicons of this user dictionary, counted from 0, are rejected. Nothing was read.
    UserSource(usize, SourceFault),
    /// A read failed. The number is one more than the number of lines read completely.
    Read(u64),
    /// A write or a flush failed, or a write accepted no byte. The number is that of the bytes
    /// accepted before.
    Write(u128),
    /// This line is not UTF-8.
    NotUtf8(u64),
    /// This line has more than `SENTENCE_MAX` bytes.
    TooLong(u64),
    /// `READS_MAX` reads did not reach the end. The number is one more than the number of lines
    /// read completely.
    InputTooLong(u64),
    /// An allocation failed. The number is one more than the number of lines written completely,
    /// and 0 before the first read.
    Memory(u64),
}

impl NamedFault for RunFault {
    ghost words_of = { run_words };

    fn words(self) -> (&'static str, &'static str) {
        match self {
            RunFault::Source(fault) | RunFault::UserSource(_, fault) => fault.words(),
            RunFault::Read(_) => ("G1", "Read"),
            RunFault::Write(_) => ("G2", "Write"),
            RunFault::NotUtf8(_) => ("G3", "NotUtf8"),
            RunFault::TooLong(_) => ("G4", "TooLong"),
            RunFault::InputTooLong(_) => ("G5", "InputTooLong"),
            RunFault::Memory(_) => ("Memory", "Memory"),
        }
    }
}

impl Display for RunFault {
    fn fmt<W: Write>(&self, f: &mut Formatter<W>) -> fmt::Result {
        match *self {
            RunFault::Source(fault) | RunFault::UserSource(_, fault) => fault.fmt(f),
            RunFault::Read(line)
            | RunFault::NotUtf8(line)
            | RunFault::TooLong(line)
            | RunFault::InputTooLong(line) => {
                write!(f, "line {line}: ")?;
                write_code_and_name(*self, f)
            }
            RunFault::Write(taken) => write_numbered(*self, taken, f),
            RunFault::Memory(_) => write_code_and_name(*self, f),
        }
    }
}
