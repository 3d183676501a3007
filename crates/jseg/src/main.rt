//! `jseg`: segments the text on standard input.
#![tactic(auto)]

use jseg_lib::{print_hints, read_command, run_command};
use messages::jseg::{HELP, HINTS};
use messages::{subjects, texts};
use programs::{arguments, run_program};
use std::process::ExitCode;

fn main(rt: HostRuntime) -> ExitCode {
    let words = arguments(&rt, "jseg");
    let explanations = subjects();
    let texts = texts(&HELP, &HINTS, &explanations);
    run_program(
        &rt,
        "jseg",
        words,
        |rt, words| read_command(rt, words, &texts),
        run_command,
        print_hints,
    )
}
