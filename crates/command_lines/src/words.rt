//! The words of a command line, and their values as the parser finds them.

use crate::about::print_explanation;
use crate::one_line::FEED_PLACEHOLDER;
use crate::options_fault::OptionsFault;
use crate::texts::Texts;
use clap::{ArgMatches, Command};
use std::alloc::{AllocError, Global};
use std::string::String;
use std::{env, io};

/// Returns the words that follow the program's name.
pub fn arguments(rt: &HostRuntime, program: &str) -> Result<Vec<String>, OptionsFault> {
    words(rt).map_err(|error| OptionsFault::of_words(rt.alloc(), program, &error))
}

fn words(rt: &HostRuntime) -> io::Result<Vec<String>> {
    let mut words = Vec::new(rt.alloc());
    for word in env::args(rt)?.skip(1) {
        words.push(word)?;
    }
    Ok(words)
}

/// Returns the words with a placeholder for each line feed. `OptionsFault::in_lines` prints the
/// placeholder as `\n`.
pub(crate) fn with_feed_placeholders(
    alloc: Global,
    words: &[String],
) -> Result<Vec<String>, AllocError> {
    let mut reported = Vec::with_capacity(alloc, words.len())?;
    for word in words {
        reported.push(word.replace(alloc, '\n', FEED_PLACEHOLDER)?)?;
    }
    Ok(reported)
}

/// Returns the first word that begins with `-` and follows one of `options`, each of which takes a
/// file name.
pub(crate) fn file_after<'a>(words: &'a [String], options: &[&str]) -> Option<&'a str> {
    let mut is_next = false;
    for word in words {
        if is_next && word.starts_with('-') {
            return Some(word.as_str());
        }
        is_next = options.iter().any(|option| word.as_str() == *option);
    }
    None
}

/// Returns the first word before `--` that begins with `-`, contains a `.` as file names do, and
/// contains no `=`.
pub(crate) fn file_among(words: &[String]) -> Option<&str> {
    for word in words {
        let word = word.as_str();
        if word == "--" {
            return None;
        }
        if word.starts_with('-') && word.contains('.') && !word.contains('=') {
            return Some(word);
        }
    }
    None
}

/// Parses the words with the program's command. If they contain `--explain`, the explanation is
/// returned as `Help`.
pub(crate) fn found<'a>(
    alloc: Global,
    program: &str,
    command: Command<'a>,
    words: &'a [String],
    texts: &Texts<'_>,
) -> Result<ArgMatches<'a>, OptionsFault> {
    let matches = parsed(alloc, program, command, words)?;
    print_explanation(alloc, program, &matches, texts)?;
    Ok(matches)
}

/// Returns the parser's error for words without line feeds, if it rejects them. The words that it
/// quotes are escaped.
pub(crate) fn check<'a>(
    alloc: Global,
    program: &str,
    command: Command<'a>,
    reported: &'a [String],
) -> Result<(), OptionsFault> {
    match parsed(alloc, program, command, reported) {
        Ok(_) => Ok(()),
        Err(fault) => Err(fault.in_lines(alloc)),
    }
}

/// Parses the words.
fn parsed<'a>(
    alloc: Global,
    program: &str,
    command: Command<'a>,
    words: &'a [String],
) -> Result<ArgMatches<'a>, OptionsFault> {
    command
        .try_get_matches_from(words)
        .map_err(|error| OptionsFault::of_parser(alloc, program, &error))
}

/// Returns the value of an option, if it was given.
pub(crate) fn text_of(
    alloc: Global,
    matches: &ArgMatches<'_>,
    id: &str,
) -> Result<Option<String>, AllocError> {
    match matches.get_str(id) {
        Some(text) => Ok(Some(String::from_str(alloc, text)?)),
        None => Ok(None),
    }
}

/// Returns the value of a required option.
pub(crate) fn needed_text(
    alloc: Global,
    program: &str,
    matches: &ArgMatches<'_>,
    id: &str,
) -> Result<String, OptionsFault> {
    match text_of(alloc, matches, id)? {
        Some(text) => Ok(text),
        None => Err(OptionsFault::usage_error(alloc, program, "a required option is missing")),
    }
}

/// Returns the values of an option or of positional words, in their order.
pub(crate) fn texts_of(
    alloc: Global,
    matches: &ArgMatches<'_>,
    id: &str,
) -> Result<Vec<String>, AllocError> {
    let mut texts = Vec::new(alloc);
    for text in matches.get_strs(id).unwrap_or(&[]) {
        texts.push(String::from_str(alloc, text)?)?;
    }
    Ok(texts)
}
