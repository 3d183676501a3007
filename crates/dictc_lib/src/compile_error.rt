//! The errors of a compilation.

ghost use Rattle.std.specs.Prelude.{◌≡◌};
ghost use Rattle.dictc_lib.specs.Statuses.{status_of_end};
ghost use Rattle.dictc_lib.specs.declared.compile_error.CompileError.TheVariants.{Fault as ForFault};
ghost use Rattle.programs.specs.declared.fault.Fault.TheVariants.{Memory};

use programs::{Fault, Termination};
use std::alloc::AllocError;

/// Exit status for rejected sources.
const SOURCES_REJECTED: u8 = 1;

/// Why a compilation gave no image.
#[derive(Debug, PartialEq, Eq, Drop)]
pub enum CompileError {
    /// An error that has not been reported yet.
    Fault(Fault),
    /// Errors of lines of lexicons, which have been reported.
    Reported,
}

impl Termination for CompileError {
    ghost status = { status_of_end };

    fn print(&self, rt: &HostRuntime, program: &str) -> u8 {
        match self {
            CompileError::Fault(fault) => fault.print(rt, program),
            CompileError::Reported => SOURCES_REJECTED,
        }
    }
}

impl From<Fault> for CompileError {
    ghost from_gives = { λ fault reported. reported ≡ ForFault fault };

    fn from(fault: Fault) -> CompileError {
        CompileError::Fault(fault)
    }
}

impl From<AllocError> for CompileError {
    ghost from_gives = { λ _ reported. reported ≡ ForFault Memory };

    fn from(_error: AllocError) -> CompileError {
        CompileError::Fault(Fault::Memory)
    }
}
