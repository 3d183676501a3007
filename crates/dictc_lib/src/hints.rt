//! Hints that are printed after an error.

use crate::compile_error::CompileError;
use command_lines::dictc::{Base, Command};
use programs::{Fault, Reporter, log_image_dirs};

/// Prints the directories that were searched, if `end` is an image that can't be read, and how to
/// get an explanation of the error.
pub fn print_hints(rt: &HostRuntime, command: &Command, end: &CompileError) {
    let CompileError::Fault(fault) = end else {
        return;
    };
    let reporter = Reporter::new(rt, "dictc", is_verbose(command));
    if let Fault::File(path) = fault {
        if is_image(command, path.as_str()) {
            log_image_dirs(rt, &reporter, fault);
        }
    }
    reporter.log_explanation(fault);
}

/// Returns whether log messages are requested.
fn is_verbose(command: &Command) -> bool {
    match command {
        Command::Image(options) => options.verbose,
        Command::Ids(options) => options.verbose,
    }
}

/// Returns whether `path` is an image that the command reads.
fn is_image(command: &Command, path: &str) -> bool {
    match command {
        Command::Image(options) => match &options.base {
            Base::System { dic, .. } => dic.as_str() == path,
            Base::Definitions { .. } => false,
        },
        Command::Ids(options) => {
            options.dic.as_str() == path || options.users.iter().any(|user| user.as_str() == path)
        }
    }
}
