//! `dictc`: compiles dictionary sources to images, and prints the ids and costs of an image's
//! entries.
#![tactic(auto)]

use dictc_lib::{print_hints, read_command, run_command};
use messages::dictc::{HELP, HINTS};
use messages::{subjects, texts};
use programs::{arguments, run_program};
use std::process::ExitCode;

fn main(rt: HostRuntime) -> ExitCode {
    let explanations = subjects();
    let texts = texts(&HELP, &HINTS, &explanations);
    let words = arguments(&rt, "dictc");
    run_program(
        &rt,
        "dictc",
        words,
        |rt, words| read_command(rt, words, &texts),
        |rt, command| run_command(rt, command),
        print_hints,
    )
}
