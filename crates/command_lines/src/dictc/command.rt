//! Parsing the command line of `dictc`.

use super::choices::{Base, Command, IdsOptions, Options};
use super::mecab_hints::hint_for;
use super::rows::{compiling_rows, ids_rows, rows, system_rows, user_rows};
use crate::options_fault::{OptionsFault, Parsed};
use crate::row::{Row, with_rows};
use crate::texts::Texts;
use crate::words::{
    check, file_after, file_among, found, needed_text, texts_of, with_feed_placeholders,
};
use clap::{ArgMatches, Command as ClapCommand};
use std::alloc::{AllocError, Global};
use std::string::String;

/// Name of the program.
pub(crate) const NAME: &str = "dictc";

/// Name of the subcommand that compiles a system dictionary.
const SYSTEM: &str = "system";

/// Name of the subcommand that compiles a user dictionary.
const USER: &str = "user";

/// Name of the subcommand that prints ids and costs.
const IDS: &str = "ids";

/// The options whose value is a file name.
const FILES: [&str; 6] = ["--matrix", "--char", "--unk", "--dic", "-u", "--out"];

/// Key of the hint if no subcommand is given.
const NO_SUBCOMMAND: &str = "no subcommand";

/// Parses the words that follow the program's name. Help, hints and explanations are taken from
/// `texts`.
pub fn parse_command(alloc: Global, words: Vec<String>, texts: &Texts<'_>) -> Parsed<Command> {
    let reported = with_feed_placeholders(alloc, &words)?;
    check(alloc, NAME, command(alloc, texts)?, &reported).map_err(|fault| parser_error(
        alloc, fault, &words, texts,
    ))?;
    let matches = found(alloc, NAME, command(alloc, texts)?, &words, texts)?;
    command_of(alloc, &matches, texts)
}

/// Returns the parser's error with a better hint: what to write in place of an option of
/// mecab-dict-index, or of a file name.
fn parser_error(
    alloc: Global,
    fault: OptionsFault,
    words: &[String],
    texts: &Texts<'_>,
) -> OptionsFault {
    match (file_after(words, &FILES), hint_for(words)) {
        (None, Some(key)) => fault.with_hint(alloc, NAME, texts.hint_of(key)),
        _ => fault.with_file_tip(alloc, meant_file(words)),
    }
}

/// Returns the definition of the command line for the parser.
fn command<'a>(alloc: Global, texts: &Texts<'_>) -> Result<ClapCommand<'a>, AllocError> {
    let command = ClapCommand::new(alloc, NAME)
        .bin_name(NAME)?
        .about(texts.help_of(NAME))
        .version(texts.version)
        .no_binary_name(true);
    with_subcommands(alloc, with_rows(alloc, command, rows(), texts)?, texts)
}

/// Returns the requested command.
fn command_of(
    alloc: Global,
    matches: &ArgMatches<'_>,
    texts: &Texts<'_>,
) -> Result<Command, OptionsFault> {
    match matches.subcommand() {
        Some((name, given)) if name == IDS => Ok(Command::Ids(ids_options(alloc, given)?)),
        Some((name, given)) => Ok(Command::Image(image_options(alloc, name, given)?)),
        None => Err(OptionsFault::usage_error(alloc, NAME, texts.hint_of(NO_SUBCOMMAND))),
    }
}

/// Returns the word that looks like an option but is meant as a file name, if there is one. No
/// option contains a `.`.
fn meant_file(words: &[String]) -> Option<&str> {
    match file_after(words, &FILES) {
        Some(word) => Some(word),
        None => file_among(words),
    }
}

/// Adds the subcommands, in the order of help.
fn with_subcommands<'a>(
    alloc: Global,
    command: ClapCommand<'a>,
    texts: &Texts<'_>,
) -> Result<ClapCommand<'a>, AllocError> {
    let shared = compiling_rows();
    let command = command.subcommand(subcommand(alloc, SYSTEM, system_rows(), shared, texts)?)?;
    let command = command.subcommand(subcommand(alloc, USER, user_rows(), shared, texts)?)?;
    command.subcommand(subcommand(alloc, IDS, ids_rows(), &[], texts)?)
}

/// Returns a subcommand with its own rows, and then those that it shares with others.
fn subcommand<'a>(
    alloc: Global,
    name: &'static str,
    own: &[Row],
    shared: &[Row],
    texts: &Texts<'_>,
) -> Result<ClapCommand<'a>, AllocError> {
    let command = ClapCommand::new(alloc, name).about(texts.help_of(name));
    with_rows(alloc, with_rows(alloc, command, own, texts)?, shared, texts)
}

/// Returns the options of a compiling subcommand.
fn image_options(
    alloc: Global,
    subcommand: &str,
    given: &ArgMatches<'_>,
) -> Result<Options, OptionsFault> {
    Ok(Options {
        out: needed_text(alloc, NAME, given, "out")?,
        lexicons: texts_of(alloc, given, "lexicons")?,
        base: base(alloc, subcommand, given)?,
        all_faults: given.get_flag("all-faults"),
        verbose: given.get_flag("verbose"),
    })
}

/// Returns what the lexicons are compiled with: a system dictionary for `dictc user`, otherwise
/// definitions.
fn base(alloc: Global, subcommand: &str, given: &ArgMatches<'_>) -> Result<Base, OptionsFault> {
    if subcommand == USER {
        return Ok(Base::System {
            dic: needed_text(alloc, NAME, given, "base")?,
            skip_digest: given.get_flag("skip-digest"),
        });
    }
    Ok(Base::Definitions {
        matrix: needed_text(alloc, NAME, given, "matrix")?,
        chars: needed_text(alloc, NAME, given, "char")?,
        unk: needed_text(alloc, NAME, given, "unk")?,
    })
}

/// Returns the options of `dictc ids`.
fn ids_options(alloc: Global, given: &ArgMatches<'_>) -> Result<IdsOptions, OptionsFault> {
    Ok(IdsOptions {
        dic: needed_text(alloc, NAME, given, "dic")?,
        feature: needed_text(alloc, NAME, given, "feature")?,
        users: texts_of(alloc, given, "users")?,
        skip_digest: given.get_flag("skip-digest"),
        verbose: given.get_flag("verbose"),
    })
}
