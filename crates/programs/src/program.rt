//! The run of a program from its command line to its exit status.

ghost use Rattle.std.specs.Prelude.{Ok};
ghost use Rattle.std.specs.Process.{exit_status};
ghost use Rattle.programs.specs.Statuses.{IsCommandStatus, IsOptionsStatus, IsProgramStatus};

use crate::fault::Fault;
use crate::output::write_whole;
use crate::termination::Termination;
use command_lines::OptionsFault;
use std::process::ExitCode;
use std::string::String;

/// Parses the words of a command line with `read` and runs the command with `work`. An error is
/// reported first, and `print_hints` then prints the hints for it. Returns the exit status.
pub fn run_program<O: Drop, E: Termination + Drop, R, W, S>(
    rt: &HostRuntime,
    program: &str,
    words: Result<Vec<String>, OptionsFault>,
    read: R,
    work: W,
    print_hints: S,
) -> ExitCode
where
    R: Fn(&HostRuntime, Vec<String>) -> Result<O, OptionsFault> + Drop,
    W: Fn(&HostRuntime, &O) -> Result<(), E> + Drop,
    S: Fn(&HostRuntime, &O, &E) + Drop,
    requires read { R.IsAlwaysCallable read }
    requires work { W.IsAlwaysCallable work }
    requires print_hints { S.IsAlwaysCallable print_hints }
    // The command of these words ended with a result that has this status.
    ensures status { IsProgramStatus E.status (R.post read rt.entry) (W.post work rt.entry)
        words (exit_status result) }
{
    match words {
        Ok(words) => run_parsed(rt, program, read(rt, words), work, print_hints),
        Err(fault) => ExitCode::from(print_options_error(rt, program, &fault)),
    }
}

/// Runs a command that was parsed, or reports the error in the command line. Returns the exit
/// status: 0, or that of the error, which is reported.
fn run_parsed<O: Drop, E: Termination + Drop, W, S>(
    rt: &HostRuntime,
    program: &str,
    parsed: Result<O, OptionsFault>,
    work: W,
    print_hints: S,
) -> ExitCode
where
    W: Fn(&HostRuntime, &O) -> Result<(), E> + Drop,
    S: Fn(&HostRuntime, &O, &E) + Drop,
    requires work { W.IsAlwaysCallable work }
    requires print_hints { S.IsAlwaysCallable print_hints }
    ensures { IsCommandStatus E.status (W.post work rt.entry) parsed (exit_status result) }
{
    let command = match parsed {
        Ok(command) => command,
        Err(fault) => return ExitCode::from(print_options_error(rt, program, &fault)),
    };
    match work(rt, &command) {
        Ok(()) => ExitCode::from(0),
        Err(error) => {
            let status = error.print(rt, program);
            print_hints(rt, &command, &error);
            ExitCode::from(status)
        }
    }
}

/// Prints help or the error in the command line. Returns the exit status: that of `Fault::Output`
/// if help can't be printed.
fn print_options_error(rt: &HostRuntime, program: &str, fault: &OptionsFault) -> u8
    ensures { IsOptionsStatus fault.now result }
{
    let fault = match fault {
        OptionsFault::Help(text) if write_whole(&mut rt.stdout(), text.as_bytes()).is_err() =>
            Fault::Output,
        OptionsFault::Memory => Fault::Memory,
        OptionsFault::Help(_) => return fault.status(),
        OptionsFault::Bad(text) => {
            let _ = write_whole(&mut rt.stderr(), text.as_bytes());
            return fault.status();
        }
    };
    fault.print(rt, program)
}
