//! Command lines of `jseg`.

use super::is_text;
use crate::tests::texts::{subjects, texts};
use Expected::{Directory, Images, Sample, Trusted};
use command_lines::OptionsFault;
use command_lines::jseg::{
    Command, Form, Input, LatticeChoice, Options, ViewChoice, parse_command,
};
use std::alloc::{AllocError, Global};
use std::string::String;
use std::test::Fail;
use test_support::text::words;

/// The expected input: images, a directory or the sample. User images are one text, separated by
/// blanks.
enum Expected {
    Images(&'static str, &'static str),
    /// Images whose checksums are not checked.
    Trusted(&'static str, &'static str),
    Directory(&'static str),
    Sample,
}

impl Expected {
    fn input(&self, alloc: Global) -> Result<Input, AllocError> {
        Ok(match self {
            Expected::Images(dic, users) | Expected::Trusted(dic, users) => Input::Images {
                dic: String::from_str(alloc, dic)?,
                users: words(alloc, users)?,
                skip_digest: matches!(self, Expected::Trusted(_, _)),
            },
            Expected::Directory(dir) => Input::Sources(String::from_str(alloc, dir)?),
            Expected::Sample => Input::Sample,
        })
    }
}

/// Parses `words`, and returns the options of a command line that segments text.
fn options(alloc: Global, words: Vec<String>) -> Result<Option<Options>, OptionsFault> {
    Ok(match parse_command(alloc, words, &texts(&subjects()))? {
        Command::Segment(options) => Some(options),
        Command::ListImages { .. } => None,
    })
}

/// Returns whether `words` select this input and this grouping.
fn are_input_and_grouping(alloc: Global, words: Vec<String>, input: &Input, grouping: u16) -> bool {
    match options(alloc, words) {
        Ok(Some(options)) => options.input == *input && options.grouping == grouping,
        _ => false,
    }
}

#[rattlefmt::skip]
static COMMAND_LINES: [(&str, &str, Expected, u16); 13] = [
    // (what, arguments, the expected input, grouping)
    ("the sample",                "--sample",            Sample,                     24),
    ("a directory",               "--sources a/b",       Directory("a/b"),           24),
    ("with =",                    "--sources=a",         Directory("a"),             24),
    ("no grouping",               "--sample -M 0",       Sample,                     0),
    ("grouping first",            "-M 25 --sample",      Sample,                     25),
    ("grouping joined",           "--sample -M1000",     Sample,                     1000),
    ("both",                      "--sources a -M 7",    Directory("a"),             7),
    ("a system",                  "-d sys.img",          Images("sys.img", ""),      24),
    ("a system joined",           "-dsys.img",           Images("sys.img", ""),      24),
    ("with a user",               "-d sys.img -u u.img", Images("sys.img", "u.img"), 24),
    ("with users in their order", "-u b -d s -u a -u b", Images("s", "b a b"),       24),
    ("without the digests",       "-d s --skip-digest -u a", Trusted("s", "a"),         24),
    ("a format and a grouping",   "-d s -O wakati -M 3", Images("s", ""),            3),
];

#[test]
fn command_lines(rt: HostRuntime) -> Result<(), Fail> {
    for (what, given, expected, grouping) in &COMMAND_LINES {
        let input = expected.input(rt.alloc())?;
        let words = words(rt.alloc(), given)?;
        let are_chosen = are_input_and_grouping(rt.alloc(), words, &input, *grouping);
        assert!(rt; are_chosen, "{what}");
    }
    Ok(())
}

/// The name of an output, and the formats of known words, unknown words, BOS and EOS.
type Chosen = (
    Option<&'static str>,
    Option<&'static str>,
    Option<&'static str>,
    Option<&'static str>,
    Option<&'static str>,
);

/// Returns whether `options` have these formats.
fn are_chosen(options: &Options, chosen: &Chosen) -> bool {
    let (output, node, unk, bos, eos) = chosen;
    is_text(&options.output, *output)
        && is_text(&options.node, *node)
        && is_text(&options.unk, *unk)
        && is_text(&options.bos, *bos)
        && is_text(&options.eos, *eos)
}

/// Returns the words of `text`, then `further`.
fn words_and(alloc: Global, text: &str, further: &[&str]) -> Result<Vec<String>, AllocError> {
    let mut words = words(alloc, text)?;
    for word in further {
        words.push(String::from_str(alloc, word)?)?;
    }
    Ok(words)
}

/// Returns whether `words` select these formats.
fn are_formats(alloc: Global, words: Vec<String>, chosen: &Chosen) -> bool {
    match options(alloc, words) {
        Ok(Some(options)) => are_chosen(&options, chosen),
        _ => false,
    }
}

#[rattlefmt::skip]
static FORMAT_OPTIONS: [(&str, &[&str], Chosen); 5] = [
    // (what, arguments after --sample, the name of the output and the four formats)
    ("none", &[], (None, None, None, None, None)),
    ("all", &["-F", "a", "-U", "b", "-B", "c", "-E", "d"],
        (None, Some("a"), Some("b"), Some("c"), Some("d"))),
    ("empty, and with a hyphen", &["-F", "", "-E", "-%pc"],
        (None, Some(""), None, None, Some("-%pc"))),
    ("joined", &["-F%m\\n"], (None, Some("%m\\n"), None, None, None)),
    ("a name", &["-O", "wakati", "-F", "%q"], (Some("wakati"), Some("%q"), None, None, None)),
];

#[test]
fn format_options(rt: HostRuntime) -> Result<(), Fail> {
    for (what, given, chosen) in &FORMAT_OPTIONS {
        let words = words_and(rt.alloc(), "--sample", given)?;
        assert!(rt; are_formats(rt.alloc(), words, chosen), "{what}");
    }
    Ok(())
}

/// What is printed for each line.
enum Printed {
    Words,
    /// The lattice in a form, without the nodes that `--within` leaves out.
    Lattice(Form, Option<i64>),
    Why,
}

impl Printed {
    fn view(&self) -> Option<ViewChoice> {
        match self {
            Printed::Words => None,
            Printed::Lattice(form, within) => Some(ViewChoice::Lattice(LatticeChoice {
                form: *form,
                within: *within,
            })),
            Printed::Why => Some(ViewChoice::Why),
        }
    }
}

/// Returns whether `words` select this view.
fn is_view(alloc: Global, words: Vec<String>, wanted: Option<ViewChoice>) -> bool {
    match options(alloc, words) {
        Ok(Some(options)) => options.view == wanted,
        _ => false,
    }
}

#[rattlefmt::skip]
static VIEWS: [(&str, Printed); 8] = [
    // (arguments, what is printed for each line)
    ("--sample",                                  Printed::Words),
    ("--sample --lattice tsv",                    Printed::Lattice(Form::Tsv, None)),
    ("--lattice=dot -d s",                        Printed::Lattice(Form::Dot, None)),
    ("--sources a --lattice dot --within 0",      Printed::Lattice(Form::Dot, Some(0))),
    ("--within 300000 --lattice tsv --sample -v", Printed::Lattice(Form::Tsv, Some(300_000))),
    ("--sample --why",                            Printed::Why),
    ("--why -d s -u a -M 3 -v",                   Printed::Why),
    ("--sources a --why",                         Printed::Why),
];

#[test]
fn views(rt: HostRuntime) -> Result<(), Fail> {
    for (given, wanted) in &VIEWS {
        let is_view = is_view(rt.alloc(), words(rt.alloc(), given)?, wanted.view());
        assert!(rt; is_view, "{given}");
    }
    Ok(())
}

#[rattlefmt::skip]
static LISTS: [(&str, bool); 3] = [
    // (arguments, whether log messages are on)
    ("--dictionaries", false),
    ("--dictionaries -v", true),
    ("-v --dictionaries", true),
];

/// Returns whether `words` list the images, with log messages or without.
fn is_list(alloc: Global, words: Vec<String>, verbose: bool) -> bool {
    parse_command(alloc, words, &texts(&subjects())).ok() == Some(Command::ListImages { verbose })
}

/// `--dictionaries` is given alone or with `-v`.
#[test]
fn lists(rt: HostRuntime) -> Result<(), Fail> {
    for (given, verbose) in &LISTS {
        let is_list = is_list(rt.alloc(), words(rt.alloc(), given)?, *verbose);
        assert!(rt; is_list, "{given}");
    }
    Ok(())
}

#[test]
fn help(rt: HostRuntime) -> Result<(), Fail> {
    let Err(fault) = parse_command(
        rt.alloc(),
        words(rt.alloc(), "--help")?,
        &texts(&subjects()),
    ) else {
        assert!(rt; false, "it is no choice");
        return Ok(());
    };
    assert!(rt; fault.status() == 0);
    assert!(rt; fault.text().contains("--sources"));
    Ok(())
}
