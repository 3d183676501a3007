//! Why parsing a command line gave no command.

ghost use Rattle.std.specs.Prelude.{◌≡◌};
ghost use Rattle.command_lines.specs.Statuses.{exit_status};

use crate::one_line::{EscapedLine, EscapedLines};
use clap::Error;
use clap::error::ErrorKind as ParserKind;
use std::alloc::{AllocError, Global};
use std::io::{self, ErrorKind};
use std::string::String;

/// Why a command line gave no command.
#[derive(Debug, Drop)]
pub enum OptionsFault {
    /// Help, the version or an explanation was requested. The text is for standard output, and the
    /// exit status is 0.
    Help(String),
    /// The command line is invalid. The text is for standard error, and the exit status is 2.
    Bad(String),
    /// An allocation failed.
    Memory,
}

/// The result of parsing a command line.
pub type Parsed<C> = Result<C, OptionsFault>;

impl OptionsFault {
    /// Returns the error if the arguments can't be read: an allocation failed, or an argument is
    /// not UTF-8.
    pub fn of_words(alloc: Global, program: &str, error: &io::Error) -> OptionsFault {
        if error.kind() == ErrorKind::OutOfMemory {
            return OptionsFault::Memory;
        }
        bad(format!(in alloc; "{program}: an argument is not UTF-8\n"))
    }

    /// Returns the error of a command line that the parser rejects, or the help that was requested.
    pub fn of_parser(alloc: Global, program: &str, error: &Error) -> OptionsFault {
        if error.kind() == ParserKind::OutOfMemory {
            return OptionsFault::Memory;
        }
        match format!(in alloc; "{error}") {
            Ok(text) if error.use_stderr() => OptionsFault::from_parser_text(
                alloc,
                program,
                text.as_str(),
            ),
            Ok(text) => OptionsFault::Help(text),
            Err(_) => OptionsFault::Memory,
        }
    }

    /// Returns the error of an invalid command line with this message.
    pub fn usage_error(alloc: Global, program: &str, message: &str) -> OptionsFault {
        bad(format!(in alloc; "{program}: {message}\n\nFor more information, try '--help'.\n"))
    }

    /// Removes the parser's tip to pass an option as a word. Use it for a program that takes no
    /// words.
    pub(crate) fn without_tip(self, alloc: Global) -> OptionsFault {
        match self {
            OptionsFault::Bad(text) => bad(without_tip(alloc, text.as_str())),
            other => other,
        }
    }

    /// Escapes the control characters of the quoted words. The line feeds of the text remain.
    pub(crate) fn in_lines(self, alloc: Global) -> OptionsFault {
        match self {
            OptionsFault::Bad(text) => bad(format!(in alloc; "{}", EscapedLines(text.as_str()))),
            other => other,
        }
    }

    /// Adds a tip on how to write `word`, which looks like an option but is meant as a file name.
    pub(crate) fn with_file_tip(self, alloc: Global, word: Option<&str>) -> OptionsFault {
        match (self, word) {
            (OptionsFault::Bad(text), Some(word)) => bad(with_file_tip(alloc, text.as_str(), word)),
            (other, _) => other,
        }
    }

    /// Replaces the parser's message on an invalid command line by the hint `instead`.
    pub(crate) fn with_hint(self, alloc: Global, program: &str, instead: &str) -> OptionsFault {
        match self {
            OptionsFault::Bad(_) => OptionsFault::usage_error(alloc, program, instead),
            other => other,
        }
    }

    /// Returns the error with the parser's text, in which the program's name replaces the prefix
    /// `error: `.
    fn from_parser_text(alloc: Global, program: &str, text: &str) -> OptionsFault {
        let reported = text.strip_prefix("error: ").unwrap_or(text);
        bad(format!(in alloc; "{program}: {reported}"))
    }

    /// Returns the text to print; empty if an allocation failed.
    pub fn text(&self) -> &str {
        match self {
            OptionsFault::Help(text) | OptionsFault::Bad(text) => text.as_str(),
            OptionsFault::Memory => "",
        }
    }

    /// Returns the exit status.
    pub fn status(&self) -> u8
        ensures { result ≡ exit_status self.now }
    {
        match self {
            OptionsFault::Help(_) => 0,
            OptionsFault::Bad(_) => 2,
            OptionsFault::Memory => 4,
        }
    }
}

/// Returns the error of an invalid command line with this text, or `Memory` if its allocation
/// failed.
fn bad(text: Result<String, AllocError>) -> OptionsFault {
    match text {
        Ok(text) => OptionsFault::Bad(text),
        Err(AllocError) => OptionsFault::Memory,
    }
}

/// Returns the paragraphs of a text without the parser's tip to pass an option as a word.
fn without_tip(alloc: Global, text: &str) -> Result<String, AllocError> {
    let mut kept = String::new(alloc);
    for part in text.split("\n\n") {
        if part.starts_with("  tip: to pass ") {
            continue;
        }
        if !kept.is_empty() {
            kept.push_str("\n\n")?;
        }
        kept.push_str(part)?;
    }
    Ok(kept)
}

/// Returns the paragraphs of a text with a tip after the first one and without the parser's own
/// tip.
fn with_file_tip(alloc: Global, text: &str, word: &str) -> Result<String, AllocError> {
    let text = without_tip(alloc, text)?;
    let word = EscapedLine(word);
    let (first, others) = text.split_once("\n\n").unwrap_or((text.as_str(), ""));
    format!(in alloc; "{first}\n\n  tip: for the file '{word}' write './{word}'\n\n{others}")
}

impl From<AllocError> for OptionsFault {
    fn from(_error: AllocError) -> OptionsFault {
        OptionsFault::Memory
    }
}
