//! Command lines that run nothing, and the status and text with which a program ends.

use crate::tests::texts::{subjects, texts};
use Program::{Dictc, Jseg};
use command_lines::{OptionsFault, dictc, jseg};
use std::alloc::{AllocError, Global};
use std::process::Abort;
use std::test::Fail;
use test_support::text::words;

/// The program that parses a command line.
#[derive(Clone, Copy)]
enum Program {
    Dictc,
    Jseg,
}

impl Program {
    /// Returns the error or the help for `given`, or nothing if the command line is valid.
    fn fault(self, alloc: Global, given: &str) -> Result<Option<OptionsFault>, AllocError> {
        let words = words(alloc, given)?;
        Ok(match self {
            Dictc => dictc::parse_command(alloc, words, &texts(&subjects())).err(),
            Jseg => jseg::parse_command(alloc, words, &texts(&subjects())).err(),
        })
    }

    /// Returns the prefix of the text for an invalid command line.
    fn prefix(self) -> &'static str {
        match self {
            Dictc => "dictc: ",
            Jseg => "jseg: ",
        }
    }
}

/// Returns whether the command line `given` ends `program` with `status` and a text that contains
/// `text`.
///
/// The text of status 2 must also start with the program's name.
fn is_ended(
    alloc: Global,
    program: Program,
    given: &str,
    status: u8,
    text: &str,
) -> Result<bool, AllocError> {
    Ok(match &program.fault(alloc, given)? {
        Some(fault) => {
            let reported = fault.text();
            let is_prefixed = status != 2 || reported.starts_with(program.prefix());
            fault.status() == status && is_prefixed && reported.contains(text)
        }
        None => false,
    })
}

/// Returns whether the command line `given` ends each of `programs` with this status and text.
fn are_ended(
    alloc: Global,
    programs: &[Program],
    given: &str,
    (status, text): (u8, &str),
) -> Result<bool, AllocError> {
    for program in programs {
        if !is_ended(alloc, *program, given, status, text)? {
            return Ok(false);
        }
    }
    Ok(true)
}

const DICTC: &[Program] = &[Dictc];

const JSEG: &[Program] = &[Jseg];

const BOTH: &[Program] = &[Dictc, Jseg];

const HELP: (u8, &str) = (0, "Usage: dictc");

/// Command lines that print help, the version or explanations of errors, and those with an unknown
/// word.
#[rattlefmt::skip]
static COMMAND_LINES_THAT_END_AT_ONCE: [(&[Program], &str, &str, (u8, &str)); 34] = [
    // (programs, what, arguments, (status, a part of the text))
    (DICTC, "help", "--help", HELP),
    (DICTC, "help for a system", "system --help", HELP),
    (DICTC, "help for a user", "user --help", HELP),
    (DICTC, "help for ids", "ids --help", HELP),
    (BOTH, "the version", "--version", (0, "layouts read: 1, 2, 3; written: 3")),
    (BOTH, "a code", "--explain L4", (0, "L4 BadSection\nMeaning: ")),
    (BOTH, "memory", "--explain Memory", (0, "Memory\nMeaning: ")),
    (BOTH, "memory, with =", "--explain=Memory", (0, "Memory\nMeaning: ")),
    (BOTH, "a code in lower case", "--explain l4", (0, "L4 BadSection\nMeaning: ")),
    (BOTH, "a code of the library", "--explain k7", (0, "K7 ShortBuffer\nMeaning: ")),
    (BOTH, "a code of two digits", "--explain k10", (0, "K10 NoField\nMeaning: ")),
    (BOTH, "the first of its digits", "--explain K1", (0, "K1 LineFeed\nMeaning: ")),
    (BOTH, "a name in lower case", "--explain nosuchcategory", (0, "C4 NoSuchCategory\nMeaning: ")),
    (BOTH, "another name", "--explain notutf8", (0, "S1 NotUtf8\nMeaning: ")),
    (BOTH, "a name of two codes", "--explain NotUtf8", (0, "\n\nG3 NotUtf8\nMeaning: ")),
    (BOTH, "all codes", "--explain", (0, "\nL4 BadSection\n")),
    (BOTH, "all codes, those of texts", "--explain", (0, "\nG3 NotUtf8\nG4 TooLong\n")),
    (DICTC, "a code of none", "--explain X9", (2, "dictc: no error has the code or name 'X9'\n")),
    (JSEG, "a code of none", "--explain X9", (2, "jseg: no error has the code or name 'X9'\n")),
    (DICTC, "a name that is near", "systen", (2, "'system'")),
    (DICTC, "an option that is near", "system --matrx m", (2, "'--matrix'")),
    (DICTC, "controls", "user\u{1b} a\nb", (2, "dictc: unrecognized subcommand 'user\\u{1b}'")),
    (DICTC, "a line feed", "user --a\nb", (2, "dictc: unexpected argument '--a\\nb' found\n")),
    (DICTC, "a file like an option", "user --dic s --out o -x.csv",
        (2, "write './-x.csv'\n\nUsage: ")),
    (DICTC, "the same as a value", "user --dic s a --out -o", (2, "write './-o'\n\n")),
    (JSEG, "a file like an option", "-d -x.img",
        (2, "\n\n  tip: for the file '-x.img' write './-x.img'\n\n")),
    (JSEG, "a tab in a code", "--explain L4\t",
        (2, "jseg: no error has the code or name 'L4\\t'\n")),
    (JSEG, "a near option", "--simple", (2, "'--sample'")),
    (JSEG, "another near option", "--soures a", (2, "'--sources'")),
    (JSEG, "controls", "--x\u{1b}[2J", (2, "jseg: unexpected argument '--x\\u{1b}[2J' found\n")),
    (JSEG, "a line feed", "--a\nb", (2, "jseg: unexpected argument '--a\\nb' found\n")),
    (JSEG, "one in a value", "--sample -M 7\n", (2, "jseg: invalid value '7\\n' for '-M <N>': ")),
    (JSEG, "one next to an image", "--smple -d s.img", (2, "'--sample'")),
    (JSEG, "a short option", "-q", (2, "jseg: unexpected argument '-q' found\n\nUsage: jseg ")),
];

#[test]
fn command_lines_that_end_at_once(rt: HostRuntime) -> Result<(), Fail> {
    for (programs, what, given, end) in &COMMAND_LINES_THAT_END_AT_ONCE {
        assert!(rt; are_ended(rt.alloc(), programs, given, *end)?, "{what}");
    }
    Ok(())
}

/// A program, a label, and the arguments of a command line.
type WrongRow<'a> = (Program, &'a str, &'a str);

fn expect_wrong(rt: &(impl Abort + Alloc<A = Global>), rows: &[WrongRow<'_>]) -> Result<(), Fail> {
    for (program, what, given) in rows {
        let is_ended = is_ended(rt.alloc(), *program, given, 2, program.prefix())?;
        assert!(rt; is_ended, "{}{what}", program.prefix());
    }
    Ok(())
}

#[rattlefmt::skip]
static WRONG_COMMAND_LINES: [WrongRow<'static>; 65] = [
    // (program, what, arguments)
    (Dictc, "nothing requested", ""),
    (Dictc, "another subcommand", "delete"),
    (Dictc, "options alone", "--out o a"),
    (Dictc, "a system without its options", "system a"),
    (Dictc, "no matrix", "system --char c --unk u --out o a"),
    (Dictc, "no lexicon", "system --matrix m --char c --unk u --out o"),
    (Dictc, "a system's", "system --matrix m --char c --unk u --dic d --out o a"),
    (Dictc, "a user for no system", "user --out o a"),
    (Dictc, "a user without an image", "user --dic s a"),
    (Dictc, "a user without a lexicon", "user --dic s --out o"),
    (Dictc, "a user with a matrix", "user --dic s --matrix m --out o a"),
    (Dictc, "ids of no image", "ids 名詞"),
    (Dictc, "ids of no part of speech", "ids --dic s"),
    (Dictc, "ids of two", "ids --dic s 名詞 動詞"),
    (Dictc, "an option twice", "user --dic s --dic s --out o a"),
    (Dictc, "no value", "user --dic s a --out"),
    (Jseg, "an image without a name", "-d"),
    (Jseg, "two system images", "-d a -d b"),
    (Jseg, "image and sample", "-d a --sample"),
    (Jseg, "image and directory", "-d a --sources b"),
    (Jseg, "a user alone", "-u a"),
    (Jseg, "a user of the sample", "--sample -u a"),
    (Jseg, "a user of a directory", "--sources a -u b"),
    (Jseg, "the digest of a directory", "--sources a --skip-digest"),
    (Jseg, "the digest of the sample", "--skip-digest --sample"),
    (Jseg, "a user without a name", "-d a -u"),
    (Jseg, "nothing requested", ""),
    (Jseg, "twice", "--sample --sample"),
    (Jseg, "two directories", "--sources a --sources b"),
    (Jseg, "directory and sample", "--sources a --sample"),
    (Jseg, "no directory", "--sources"),
    (Jseg, "unknown option", "--simple"),
    (Jseg, "a word", "--sample text"),
    (Jseg, "another name", "--sample -O yomi"),
    (Jseg, "a format twice", "--sample -F a -F b"),
    (Jseg, "grouping alone", "-M 3"),
    (Jseg, "grouping too large", "--sample -M 1001"),
    (Jseg, "grouping below 0", "--sample -M -1"),
    (Jseg, "grouping no number", "--sample -M x"),
    (Jseg, "grouping without a value", "--sample -M"),
    (Jseg, "grouping twice", "--sample -M 1 -M 2"),
    (Jseg, "a lattice and a format", "--sample --lattice tsv -F a"),
    (Jseg, "a bound without a lattice", "--sample --within 5"),
    (Jseg, "why twice", "--sample --why --why"),
    (Jseg, "why and a lattice", "--sample --why --lattice tsv"),
    (Jseg, "why within a bound", "--sample --within 5 --why"),
    (Jseg, "why and an output", "--sample --why -O wakati"),
    (Jseg, "why and a format", "-F a --why --sample"),
    (Jseg, "why and a format of unknown words", "--sample --why -U a"),
    (Jseg, "why and a beginning", "--sample --why -B a"),
    (Jseg, "why and an end", "--sample -E a --why"),
    (Jseg, "why of nothing", "--why"),
    (Jseg, "a list and an image", "--dictionaries -d a"),
    (Jseg, "a list and a directory", "--sources a --dictionaries"),
    (Jseg, "a list and the sample", "--dictionaries --sample"),
    (Jseg, "a list and a user", "--dictionaries -u a"),
    (Jseg, "a list without digests", "--skip-digest --dictionaries"),
    (Jseg, "a list and a grouping", "--dictionaries -M 3"),
    (Jseg, "a list and an output", "--dictionaries -O wakati"),
    (Jseg, "a list and a format", "--dictionaries -F a"),
    (Jseg, "a list and an end", "-E a --dictionaries"),
    (Jseg, "a list and a lattice", "--dictionaries --lattice tsv"),
    (Jseg, "a list and why", "--dictionaries --why"),
    (Jseg, "two lists", "--dictionaries --dictionaries"),
    (Jseg, "a list of a name", "--dictionaries ipadic"),
];

#[test]
fn wrong_command_lines(rt: HostRuntime) -> Result<(), Fail> {
    expect_wrong(&rt, &WRONG_COMMAND_LINES)
}
