//! Command lines of `dictc`.

use crate::tests::texts::{subjects, texts};
use Command::{AllFaults, System, Trusting, User, Verbose};
use command_lines::dictc::{Base, Command as ParsedCommand, IdsOptions, Options, parse_command};
use std::alloc::{AllocError, Global};
use std::string::String;
use std::test::Fail;
use test_support::text::words;

/// The expected meaning of a command line that writes the image `o`. Lexicons are one text,
/// separated by blanks.
enum Command {
    /// Compiles a system dictionary from the definitions `m`, `c` and `u` and these lexicons.
    System(&'static str),
    /// Compiles a system dictionary with log messages on.
    Verbose(&'static str),
    /// Compiles a system dictionary and reports all errors.
    AllFaults(&'static str),
    /// Compiles a user dictionary of these lexicons for this system image.
    User(&'static str, &'static str),
    /// Compiles a user dictionary without checking the system image's checksum.
    Trusting(&'static str, &'static str),
}

impl Command {
    fn options(&self, alloc: Global) -> Result<Options, AllocError> {
        let (base, lexicons) = match self {
            Command::System(lexicons) | Command::Verbose(lexicons) | Command::AllFaults(lexicons) =>
                {
                    let definitions = Base::Definitions {
                        matrix: String::from_str(alloc, "m")?,
                        chars: String::from_str(alloc, "c")?,
                        unk: String::from_str(alloc, "u")?,
                    };
                    (definitions, lexicons)
                }
            Command::User(dic, lexicons) | Command::Trusting(dic, lexicons) => {
                let system = Base::System {
                    dic: String::from_str(alloc, dic)?,
                    skip_digest: matches!(self, Command::Trusting(_, _)),
                };
                (system, lexicons)
            }
        };
        Ok(Options {
            base,
            out: String::from_str(alloc, "o")?,
            lexicons: words(alloc, lexicons)?,
            all_faults: matches!(self, Command::AllFaults(_)),
            verbose: matches!(self, Command::Verbose(_)),
        })
    }
}

/// Returns whether the command line `given` is parsed as `wanted`.
fn is_verbose(alloc: Global, given: &str, wanted: &ParsedCommand) -> Result<bool, AllocError> {
    Ok(
        match parse_command(alloc, words(alloc, given)?, &texts(&subjects())) {
            Ok(found) => found == *wanted,
            Err(_) => false,
        },
    )
}

#[rattlefmt::skip]
static COMMAND_LINES: [(&str, &str, Command); 8] = [
    // (what, arguments, the expected meaning)
    ("a system", "system --matrix m --char c --unk u --out o a.csv", System("a.csv")),
    ("options with =", "system b --out=o --unk=u a --char=c --matrix=m", System("b a")),
    ("all faults", "system --matrix m --char c --unk u --out o --all-faults a.csv",
        AllFaults("a.csv")),
    ("log messages on", "system --matrix m --char c --unk u --out o -v a.csv", Verbose("a.csv")),
    ("a user", "user --dic sys.img --out o a.csv", User("sys.img", "a.csv")),
    ("a user, without the digest", "user --skip-digest --dic s --out o a", Trusting("s", "a")),
    ("a lexicon twice", "user --dic s --out o a b a", User("s", "a b a")),
    ("a lexicon like an option", "user --dic s --out o -- --out", User("s", "--out")),
];

#[test]
fn command_lines(rt: HostRuntime) -> Result<(), Fail> {
    for (what, given, expected) in &COMMAND_LINES {
        let wanted = ParsedCommand::Image(expected.options(rt.alloc())?);
        assert!(rt; is_verbose(rt.alloc(), given, &wanted)?, "{what}");
    }
    Ok(())
}

#[rattlefmt::skip]
static COMMAND_LINES_OF_IDS: [(&str, &str, &str, bool, bool); 3] = [
    // (what, arguments, user images, whether the checksum is skipped, whether log messages are on)
    ("a system",       "ids --dic s 名詞,*",                  "",    false, false),
    ("users",          "ids --dic s -u a -u b 名詞,*",        "a b", false, false),
    ("with all words", "ids -v --skip-digest 名詞,* --dic=s", "",    true,  true),
];

#[test]
fn command_lines_of_ids(rt: HostRuntime) -> Result<(), Fail> {
    for (what, given, users, skip_digest, verbose) in &COMMAND_LINES_OF_IDS {
        let wanted = ParsedCommand::Ids(IdsOptions {
            dic: String::from_str(rt.alloc(), "s")?,
            users: words(rt.alloc(), users)?,
            skip_digest: *skip_digest,
            feature: String::from_str(rt.alloc(), "名詞,*")?,
            verbose: *verbose,
        });
        assert!(rt; is_verbose(rt.alloc(), given, &wanted)?, "{what}");
    }
    Ok(())
}
