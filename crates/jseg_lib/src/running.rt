//! Running a command of `jseg`.

use crate::listing::list_images;
use crate::segmenting::segment_input;
use command_lines::jseg::{Command, Input};
use programs::{Fault, Reporter, log_image_dirs};

/// Segments standard input, or lists the images that bare names may find.
pub fn run_command(rt: &HostRuntime, command: &Command) -> Result<(), Fault> {
    match command {
        Command::Segment(options) => segment_input(rt, options),
        Command::ListImages { verbose } => list_images(rt, &Reporter::new(rt, "jseg", *verbose)),
    }
}

/// Prints hints for an error: the directories that were searched for the image, and how to get an
/// explanation.
pub fn print_hints(rt: &HostRuntime, command: &Command, fault: &Fault) {
    let Command::Segment(options) = command else {
        return;
    };
    let reporter = Reporter::new(rt, "jseg", options.verbose);
    if matches!(options.input, Input::Images { .. }) {
        log_image_dirs(rt, &reporter, fault);
    }
    reporter.log_explanation(fault);
}
