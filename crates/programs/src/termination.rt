//! Reasons that end a program early.

ghost use Rattle.std.specs.Prelude.{◌≡◌, ℕ};
ghost use Rattle.programs.specs.Statuses.{status_of};

use crate::fault::Fault;
use crate::reporting::report;

/// Why a program ends before its work is done.
pub trait Termination {
    /// The exit status.
    ghost status: { Self → ℕ };

    /// Prints the error on standard error, unless it has been printed. Returns the exit status.
    fn print(&self, rt: &HostRuntime, program: &str) -> u8
        ensures { result ≡ status self.now };
}

impl Termination for Fault {
    ghost status = { status_of };

    fn print(&self, rt: &HostRuntime, program: &str) -> u8 {
        report(rt.alloc(), program, self, &mut rt.stderr())
    }
}
