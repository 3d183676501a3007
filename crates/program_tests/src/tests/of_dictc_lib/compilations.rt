//! Compilations, and failed ones that leave existing images unchanged.

use super::{compiled_as, is_printed, words_in};
use crate::tests::texts::{subjects, texts};
use crate::tests::{expect_in_directory, in_directory, write_in};
use command_lines::dictc::{Command, parse_command};
use dict_compile::Compiled;
use dict_image::load;
use dictc_lib::CompileError;
use mj_model::{OverlayFault, SourceFault, SourceKind, sample};
use programs::Fault;
use std::alloc::Global;
use std::fs;
use std::test::Fail;

/// User lexicons: name and text.
static LEXICONS: [(&str, &str); 3] = [
    ("user.csv", "もも,1,1,1,名詞,ユーザ\n"),
    ("skipped.csv", ",1,1,5,X\nもも,1,1,1,名詞,ユーザ\n"),
    ("bad.csv", "もも,1,1,1,名詞\nも,1,1,x,助詞\n"),
];

/// Compiles the system dictionary.
const SYSTEM: &str =
    "system --matrix matrix.def --char char.def --unk unk.def --out sys.img lexicon.csv";

/// Compiles the system dictionary again, with a second lexicon that is invalid.
const BAD_SECOND: &str =
    "system --matrix matrix.def --char char.def --unk unk.def --out sys.img lexicon.csv bad.csv";

/// Compiles a user dictionary for the system dictionary.
const USER: &str = "user --dic sys.img --out user.img user.csv";

/// Compiles a user dictionary whose lexicon has a line to skip.
const SKIPPED: &str = "user --dic sys.img --out skipped.img skipped.csv";

/// Compiles the user dictionary again, with an invalid lexicon.
const BAD_USER: &str = "user --dic sys.img --out user.img bad.csv";

/// Compiles an invalid lexicon with a user image in place of the system image.
const FOR_USER: &str = "user --dic user.img --out sys.img bad.csv";

/// Writes the sample's sources and the user lexicons.
fn make_sources(rt: &HostRuntime, dir: &str) -> Result<(), Fail> {
    let sample = sample();
    write_in(rt, dir, "matrix.def", sample.matrix)?;
    write_in(rt, dir, "char.def", sample.chars)?;
    write_in(rt, dir, "unk.def", sample.unk)?;
    for lexicon in sample.lexicons {
        write_in(rt, dir, "lexicon.csv", *lexicon)?;
    }
    for (name, text) in &LEXICONS {
        write_in(rt, dir, name, text.as_bytes())?;
    }
    Ok(())
}

/// Parses the command line `given`, whose files are in `dir`.
fn command_in(rt: &HostRuntime, dir: &str, given: &str) -> Result<Command, Fail> {
    Ok(parse_command(rt.alloc(), words_in(rt, dir, given)?, &texts(&subjects()))?)
}

/// Runs the compilation that the command line `given` selects.
fn compile_in(
    rt: &HostRuntime,
    dir: &str,
    given: &str,
) -> Result<Result<Compiled, CompileError>, Fail> {
    match &command_in(rt, dir, given)? {
        Command::Image(options) => Ok(compiled_as(rt, options)),
        _ => Err(Fail::new("it compiles no image")),
    }
}

/// Returns the bytes of the file `name` in `dir`.
fn bytes_in(rt: &HostRuntime, dir: &str, name: &str) -> Result<Vec<u8>, Fail> {
    let path = in_directory(rt, dir, name)?;
    Ok(fs::read(rt, path.as_str())?)
}

/// The arguments, the image that they compile, whether it is a user image, and the line that is
/// printed.
type CompiledRow = (&'static str, &'static str, bool, &'static str);

/// Returns whether `image` loads, and is a user image or not.
fn is_of_kind(alloc: Global, image: Vec<u8>, user: bool) -> bool {
    match load(alloc, image) {
        Ok(dictionary) => dictionary.is_user() == user,
        Err(_) => false,
    }
}

/// Returns whether the command line writes an image of this name and kind, and prints this line.
fn is_compiled(
    rt: &HostRuntime,
    dir: &str,
    (given, name, user, line): &CompiledRow,
) -> Result<bool, Fail> {
    let Ok(compiled) = compile_in(rt, dir, given)? else {
        return Ok(false);
    };
    let is_printed = is_printed(rt.alloc(), &compiled, line);
    let is_same = bytes_in(rt, dir, name)? == compiled.image;
    Ok(is_printed && is_same && is_of_kind(rt.alloc(), compiled.image, *user))
}

#[rattlefmt::skip]
static COMPILED: [(&str, CompiledRow); 3] = [
    // (what, (arguments, image, whether it is a user image, line))
    ("the sample",       (SYSTEM,  "sys.img",     false, "3 entries, 0 skipped\n")),
    ("a user's",         (USER,    "user.img",    true,  "1 entries, 0 skipped\n")),
    ("an empty surface", (SKIPPED, "skipped.img", true,  "1 entries, 1 skipped\n")),
];

#[test]
fn compiled_dictionaries(rt: HostRuntime) -> Result<(), Fail> {
    expect_in_directory(&rt, "compiled", make_sources, &COMPILED, is_compiled)
}

/// Returns whether `fault` names the file at `path`. `number` is its source number, or nothing for
/// an image.
fn is_fault_of(fault: &CompileError, path: &str, number: Option<u32>) -> bool {
    match fault {
        CompileError::Fault(Fault::Source(reported, fault)) => {
            reported.as_str() == path && number == Some(fault.file) && is_bad_number(fault)
        }
        CompileError::Fault(Fault::Overlay(reported, OverlayFault::NotSystem)) => {
            reported.as_str() == path && number == None
        }
        _ => false,
    }
}

/// Returns whether `fault` is the invalid number in line 2.
fn is_bad_number(fault: &SourceFault) -> bool {
    fault.line == 2 && fault.kind == SourceKind::BadNumber
}

/// Writes the sources and compiles both images, and copies the images.
fn make_images(rt: &HostRuntime, dir: &str) -> Result<(), Fail> {
    make_sources(rt, dir)?;
    for given in [SYSTEM, USER] {
        if compile_in(rt, dir, given)?.is_err() {
            return Err(Fail::new("an image is not compiled"));
        }
    }
    for (name, copy) in &COPIES {
        write_in(rt, dir, copy, &bytes_in(rt, dir, name)?)?;
    }
    Ok(())
}

static COPIES: [(&str, &str); 2] = [("sys.img", "sys.copy"), ("user.img", "user.copy")];

/// Returns whether the images equal their copies.
fn are_kept(rt: &HostRuntime, dir: &str) -> Result<bool, Fail> {
    for (name, copy) in &COPIES {
        if bytes_in(rt, dir, name)? != bytes_in(rt, dir, copy)? {
            return Ok(false);
        }
    }
    Ok(true)
}

/// The arguments, the file that the error names, and its number if it is a source.
type RejectedRow = (&'static str, &'static str, Option<u32>);

/// Returns whether the command line fails with this error and leaves the images unchanged.
fn is_rejected(
    rt: &HostRuntime,
    dir: &str,
    (given, wanted, number): &RejectedRow,
) -> Result<bool, Fail> {
    let path = in_directory(rt, dir, wanted)?;
    let is_reported = match &compile_in(rt, dir, given)? {
        Ok(_) => false,
        Err(fault) => is_fault_of(fault, path.as_str(), *number),
    };
    Ok(is_reported && are_kept(rt, dir)?)
}

#[rattlefmt::skip]
static REJECTED: [(&str, RejectedRow); 3] = [
    // (what, (arguments, the file that the error names, its number if it is a source))
    ("a bad second lexicon",                  (BAD_SECOND, "bad.csv",  Some(4))),
    ("a bad lexicon of a user",               (BAD_USER,   "bad.csv",  Some(3))),
    ("for a user's, which is reported first", (FOR_USER,   "user.img", None)),
];

#[test]
fn invalid_dictionaries(rt: HostRuntime) -> Result<(), Fail> {
    expect_in_directory(&rt, "rejected", make_images, &REJECTED, is_rejected)
}
