//! Running a command of `dictc`.

ghost use Rattle.std.specs.Prelude.{IfErr, OnOk};
ghost use Rattle.dictc_lib.specs.HostFiles.{HasImage};
ghost use Rattle.dictc_lib.specs.RequestErrors.{IsCommandError};

use crate::compile_error::CompileError;
use crate::compiling::compile_and_report;
use crate::ids::print_ids;
use command_lines::dictc::Command;

/// Compiles a dictionary, or lists the ids and costs of entries.
pub fn run_command(rt: &HostRuntime, command: &Command) -> Result<(), CompileError>
    // If the command compiles a dictionary and succeeds, the files that it names compile.
    ensures compiled { OnOk result (HasImage command.now) }
    ensures rejected { IfErr result (IsCommandError command.now) }
{
    match command {
        Command::Image(options) => compile_and_report(rt, options),
        Command::Ids(options) => Ok(print_ids(rt, options)?),
    }
}
