//! Errors of a line, and of a run over a stream of lines.

ghost use Rattle.std.specs.Prelude.{◌≡◌};
ghost use Rattle.line_stream.specs.declared.line_fault.LineError.TheVariants.{Memory};
ghost use Rattle.line_stream.specs.LineErrors.{run_fault};

use mj_model::RunFault;
use std::alloc::AllocError;

/// What is wrong with a line of text.
#[derive(Clone, Copy, Debug, PartialEq, Eq, Drop)]
pub enum LineFault {
    /// Longer than `SENTENCE_MAX` bytes.
    TooLong,
    /// Not UTF-8 (RFC 3629).
    NotUtf8,
}

/// Why a line was not printed.
#[derive(Clone, Copy, Debug, PartialEq, Eq, Drop)]
pub enum LineError {
    /// The line is invalid.
    Bad(LineFault),
    /// An allocation failed.
    Memory,
}

impl From<AllocError> for LineError {
    ghost from_gives = { λ _ error. error ≡ Memory };

    fn from(_error: AllocError) -> LineError {
        LineError::Memory
    }
}

/// Why a run over a stream failed. Lines are numbered from 1.
#[derive(Clone, Copy, Debug, PartialEq, Eq, Drop)]
pub enum StreamFault {
    /// A read failed. The number is one more than the number of lines read completely.
    Read(u64),
    /// A write or a flush failed, or a write accepted no byte. The number is that of the bytes
    /// accepted before.
    Write(u128),
    /// This line is invalid, or an allocation failed at it.
    Line(u64, LineError),
    /// The allowed reads did not reach the end. The number is one more than the number of lines
    /// read completely.
    InputTooLong(u64),
}

impl From<StreamFault> for RunFault {
    ghost from_gives = { λ fault reported. reported ≡ run_fault fault };

    fn from(fault: StreamFault) -> RunFault {
        match fault {
            StreamFault::Read(line) => RunFault::Read(line),
            StreamFault::Write(taken) => RunFault::Write(taken),
            StreamFault::Line(line, LineError::Bad(LineFault::TooLong)) => RunFault::TooLong(line),
            StreamFault::Line(line, LineError::Bad(LineFault::NotUtf8)) => RunFault::NotUtf8(line),
            StreamFault::Line(line, LineError::Memory) => RunFault::Memory(line),
            StreamFault::InputTooLong(line) => RunFault::InputTooLong(line),
        }
    }
}
