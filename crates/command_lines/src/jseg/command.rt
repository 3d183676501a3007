//! Parsing the command line of `jseg`.

use super::choices::{Command, Form, Input, LatticeChoice, Options, ViewChoice};
use super::mecab_hints::{hint_for, rejected_rows};
use super::rows::{INPUTS, rows};
use crate::options_fault::{OptionsFault, Parsed};
use crate::row::with_rows;
use crate::texts::Texts;
use crate::words::{check, file_after, found, text_of, texts_of, with_feed_placeholders};
use clap::{ArgGroup, ArgMatches, Command as ClapCommand};
use mj_model::GROUPING_DEFAULT;
use std::alloc::{AllocError, Global};
use std::string::String;

/// Name of the program.
pub(crate) const NAME: &str = "jseg";

/// The options whose value is the name of a file or a directory.
const FILES: [&str; 3] = ["-d", "-u", "--sources"];

/// Key of the hint if no dictionary is chosen.
const NO_INPUT: &str = "no input";

/// Key of the hint if `--within` is given without `--lattice`.
const NO_LATTICE: &str = "no lattice";

/// Parses the words that follow the program's name. Help, hints and explanations are taken from
/// `texts`.
pub fn parse_command(alloc: Global, words: Vec<String>, texts: &Texts<'_>) -> Parsed<Command> {
    let reported = with_feed_placeholders(alloc, &words)?;
    check(alloc, NAME, command(alloc, texts)?, &reported).map_err(|fault| parser_error(
        alloc, fault, &words,
    ))?;
    let matches = found(alloc, NAME, command(alloc, texts)?, &words, texts)?;
    command_of(alloc, &matches, texts)
}

/// Returns the parser's error with a better hint for file names. The parser's own tip is removed,
/// because `jseg` takes no words.
fn parser_error(alloc: Global, fault: OptionsFault, words: &[String]) -> OptionsFault {
    fault
        .without_tip(alloc)
        .with_file_tip(alloc, file_after(words, &FILES))
}

/// Returns the definition of the command line for the parser.
fn command<'a>(alloc: Global, texts: &Texts<'_>) -> Result<ClapCommand<'a>, AllocError> {
    let command = ClapCommand::new(alloc, NAME)
        .about(texts.help_of(NAME))
        .version(texts.version)
        .override_usage("jseg [OPTIONS] <-d IMG|--sources DIR|--sample> < TEXT")
        .no_binary_name(true);
    let command = with_rows(alloc, command, rows(), texts)?;
    let command = with_rows(alloc, command, rejected_rows(), texts)?;
    with_input_group(alloc, command)
}

/// Returns the requested command, or the error with a hint if an option of MeCab was given.
fn command_of(
    alloc: Global,
    matches: &ArgMatches<'_>,
    texts: &Texts<'_>,
) -> Result<Command, OptionsFault> {
    match hint_for(matches) {
        Some(key) => Err(OptionsFault::usage_error(alloc, NAME, texts.hint_of(key))),
        None if matches.get_flag("dictionaries") => Ok(Command::ListImages {
            verbose: matches.get_flag("verbose"),
        }),
        None => Ok(Command::Segment(choices(alloc, matches, texts)?)),
    }
}

fn with_input_group<'a>(
    alloc: Global,
    command: ClapCommand<'a>,
) -> Result<ClapCommand<'a>, AllocError> {
    command.group(input_group(alloc)?)
}

/// Returns the group of options that choose the dictionary, or list the images. At most one of them
/// may be given.
fn input_group<'a>(alloc: Global) -> Result<ArgGroup<'a>, AllocError> {
    let [dic, sources, sample, dictionaries] = INPUTS;
    ArgGroup::new(alloc, "input")
        .arg(dic)?
        .arg(sources)?
        .arg(sample)?
        .arg(dictionaries)
}

/// Returns the options of a segmentation.
fn choices(
    alloc: Global,
    matches: &ArgMatches<'_>,
    texts: &Texts<'_>,
) -> Result<Options, OptionsFault> {
    let Some(input) = input(alloc, matches)? else {
        return Err(OptionsFault::usage_error(alloc, NAME, texts.hint_of(NO_INPUT)));
    };
    let mut options = Options {
        input,
        grouping: matches.get_one("grouping").unwrap_or(GROUPING_DEFAULT),
        output: None,
        node: None,
        unk: None,
        bos: None,
        eos: None,
        view: view(alloc, matches, texts)?,
        verbose: matches.get_flag("verbose"),
    };
    read_formats(alloc, matches, &mut options)?;
    Ok(options)
}

/// Reads the output formats into `options`, by name and by text.
fn read_formats(
    alloc: Global,
    matches: &ArgMatches<'_>,
    options: &mut Options,
) -> Result<(), AllocError> {
    options.output = text_of(alloc, matches, "output")?;
    options.node = text_of(alloc, matches, "node")?;
    options.unk = text_of(alloc, matches, "unk")?;
    options.bos = text_of(alloc, matches, "bos")?;
    options.eos = text_of(alloc, matches, "eos")?;
    Ok(())
}

/// Returns the chosen dictionaries: images, a source directory or the sample; None if none are
/// chosen.
fn input(alloc: Global, matches: &ArgMatches<'_>) -> Result<Option<Input>, AllocError> {
    if let Some(dic) = text_of(alloc, matches, "dic")? {
        return Ok(Some(Input::Images {
            dic,
            users: texts_of(alloc, matches, "users")?,
            skip_digest: matches.get_flag("skip-digest"),
        }));
    }
    if let Some(dir) = text_of(alloc, matches, "sources")? {
        return Ok(Some(Input::Sources(dir)));
    }
    Ok(matches.get_flag("sample").then_some(Input::Sample))
}

/// Returns the chosen view; None if the words of best paths are printed.
fn view(
    alloc: Global,
    matches: &ArgMatches<'_>,
    texts: &Texts<'_>,
) -> Result<Option<ViewChoice>, OptionsFault> {
    match lattice(alloc, matches, texts)? {
        Some(choice) => Ok(Some(ViewChoice::Lattice(choice))),
        None => Ok(matches.get_flag("why").then_some(ViewChoice::Why)),
    }
}

/// Returns how lattices are printed; None if they are not.
fn lattice(
    alloc: Global,
    matches: &ArgMatches<'_>,
    texts: &Texts<'_>,
) -> Result<Option<LatticeChoice>, OptionsFault> {
    let within = matches.get_one("within");
    let Some(name) = matches.get_str("lattice") else {
        return match within {
            Some(_) => Err(OptionsFault::usage_error(alloc, NAME, texts.hint_of(NO_LATTICE))),
            None => Ok(None),
        };
    };
    let form = if name == "dot" { Form::Dot } else { Form::Tsv };
    Ok(Some(LatticeChoice { form, within }))
}
