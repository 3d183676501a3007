//! Images that would overwrite one of their own inputs.

use super::words_in;
use crate::tests::texts::{subjects, texts};
use crate::tests::{expect_in_directory, in_directory, write_in};
use dictc_lib::read_command;
use std::os::unix::fs::symlink;
use std::test::Fail;

/// The start of the error, up to the path.
const LINE: &str = "dictc: --out would overwrite an input file: /";

/// Returns whether the command line is accepted, or is rejected because an input would be lost.
fn has_expected_result(
    rt: &HostRuntime,
    dir: &str,
    (given, lost): &(&'static str, bool),
) -> Result<bool, Fail> {
    Ok(
        match read_command(rt, words_in(rt, dir, given)?, &texts(&subjects())) {
            Ok(_options) => !*lost,
            Err(fault) => *lost && fault.status() == 2 && fault.text().starts_with(LINE),
        },
    )
}

#[rattlefmt::skip]
static KEPT_INPUTS: [(&str, (&str, bool)); 14] = [
    // (what, (arguments, whether an input would be lost))
    ("a new image",       ("user --dic sys.img --out new.img a.csv", false)),
    ("an old image",      ("user --dic sys.img --out old.img a.csv", false)),
    ("the system's",      ("user --dic sys.img --out sys.img a.csv", true)),
    ("none yet",          ("user --dic none.img --out none.img a.csv", true)),
    ("another spelling",  ("user --dic sys.img --out ./sys.img a.csv", true)),
    ("a link to it",      ("user --dic sys.img --out link.img a.csv", true)),
    ("by a link",         ("user --dic link.img --out sys.img a.csv", true)),
    ("a system's lexicon", ("system --matrix m. --char c. --unk u. --out a.csv a.csv", true)),
    ("sources",           ("system --matrix m. --char c. --unk u. --out o. a.csv", false)),
    ("connection costs",  ("system --matrix m. --char c. --unk u. --out m. a.csv", true)),
    ("categories",        ("system --matrix m. --char c. --unk u. --out c. a.csv", true)),
    ("unknown words",     ("system --matrix m. --char c. --unk u. --out u. a.csv", true)),
    ("a second lexicon",  ("user --dic sys.img --out a.csv b.csv a.csv", true)),
    ("a device of both",  ("user --dic sys.img --out /dev/null /dev//null", false)),
];

static INPUTS: [&str; 3] = ["sys.img", "a.csv", "old.img"];

/// Writes the inputs.
fn make_inputs(rt: &HostRuntime, dir: &str) -> Result<(), Fail> {
    for name in &INPUTS {
        write_in(rt, dir, name, b"x")?;
    }
    symlink(rt, "sys.img", in_directory(rt, dir, "link.img")?)?;
    Ok(())
}

#[test]
fn kept_inputs(rt: HostRuntime) -> Result<(), Fail> {
    expect_in_directory(
        &rt,
        "inputs",
        make_inputs,
        &KEPT_INPUTS,
        has_expected_result,
    )
}
