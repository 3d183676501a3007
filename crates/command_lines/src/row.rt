//! Tables of the options of a command.

use crate::texts::Texts;
use clap::builder::ValueParser;
use clap::{Arg, ArgAction, ArgMatches, Command};
use std::alloc::{AllocError, Global};
use std::string::String;

/// An option, or the positional words of a command. Its id is the key of its help.
#[derive(Clone, Copy)]
pub(crate) struct Row {
    pub id: &'static str,
    pub name: Name,
    /// Whether it is a flag, has the value of its one use, or collects the values of all its uses.
    pub action: ArgAction,
    /// Minimum number of values of a use.
    pub least: usize,
    /// Maximum number of values of a use.
    pub most: usize,
    pub parser: ValueParser<'static>,
    /// Names of its values in help.
    pub values: &'static [&'static str],
    /// Ids of the options that exclude it.
    pub excluded: &'static [&'static str],
    /// Whether it is required.
    pub is_needed: bool,
    /// Whether a value may be empty or begin with `-`.
    pub is_text: bool,
    /// Whether help omits it.
    pub is_hidden: bool,
}

/// The name of an option.
#[derive(Clone, Copy)]
pub(crate) enum Name {
    Letter(char),
    Long(&'static str),
    Both(char, &'static str),
    /// No name: the positional words of the command.
    Words,
}

/// An option without a value. The other rows are written as differences from this one or one of the
/// following.
pub(crate) const FLAG: Row = Row {
    id: "",
    name: Name::Words,
    action: ArgAction::SetTrue,
    least: 0,
    most: 0,
    parser: ValueParser::Bool,
    values: &[],
    excluded: &[],
    is_needed: false,
    is_text: false,
    is_hidden: false,
};

/// An option with one value.
pub(crate) const VALUE: Row = Row {
    action: ArgAction::Set,
    least: 1,
    most: 1,
    parser: ValueParser::String,
    ..FLAG
};

/// An option with one value or none.
pub(crate) const MAY_HAVE_VALUE: Row = Row { least: 0, ..VALUE };

/// A required option with one value.
pub(crate) const NEEDED: Row = Row {
    is_needed: true,
    ..VALUE
};

/// An option with one value, which may be empty or begin with `-`.
pub(crate) const TEXT: Row = Row {
    is_text: true,
    ..VALUE
};

/// An option that may be given several times, with one value each.
pub(crate) const VALUES: Row = Row {
    action: ArgAction::Append,
    ..VALUE
};

/// Positional words, at least one.
pub(crate) const WORDS: Row = Row {
    most: usize::MAX,
    is_needed: true,
    ..VALUES
};

/// An option that the program rejects. The hint of its id is printed if it is given.
pub(crate) const REJECTED: Row = Row {
    least: 0,
    is_hidden: true,
    ..VALUES
};

/// Returns the id of the first row that the parser found.
pub(crate) fn id_of_given(rows: &[Row], matches: &ArgMatches<'_>) -> Option<&'static str> {
    for row in rows {
        if matches.contains_id(row.id) {
            return Some(row.id);
        }
    }
    None
}

/// Returns the key beside the first option that is a word before `--`. It is for command lines that
/// the parser rejects.
pub(crate) fn key_of_word(
    options: &[(Name, &'static str)],
    words: &[String],
) -> Option<&'static str> {
    for (name, key) in options {
        if is_among(*name, words) {
            return Some(*key);
        }
    }
    None
}

/// Returns whether a word before `--` is an option with this name.
fn is_among(name: Name, words: &[String]) -> bool {
    for word in words {
        if word.as_str() == "--" {
            return false;
        }
        if name.is_word(word.as_str()) {
            return true;
        }
    }
    false
}

/// Adds the rows of a table to a command, in their order.
pub(crate) fn with_rows<'a>(
    alloc: Global,
    mut command: Command<'a>,
    rows: &[Row],
    texts: &Texts<'_>,
) -> Result<Command<'a>, AllocError> {
    for row in rows {
        command = command.arg(row.arg(alloc, texts.help_of(row.id))?)?;
    }
    Ok(command)
}

impl Row {
    /// Returns the option as the parser takes it.
    fn arg<'a>(&self, alloc: Global, help: &'static str) -> Result<Arg<'a>, AllocError> {
        let arg = Arg::new(alloc, self.id)
            .help(help)
            .value_names(self.values)
            .action(self.action)
            .num_args(self.least..=self.most)
            .value_parser(self.parser)
            .required(self.is_needed)
            .allow_hyphen_values(self.is_text)
            .hide(self.is_hidden);
        self.name.given_to(arg).conflicts_with_all(self.excluded)
    }
}

impl Name {
    /// Returns whether `word` is an option with this name, alone or as `--long=VALUE`.
    fn is_word(self, word: &str) -> bool {
        match self {
            Name::Letter(letter) => is_short(letter, word),
            Name::Long(long) => is_long(long, word),
            Name::Both(letter, long) => is_short(letter, word) || is_long(long, word),
            Name::Words => false,
        }
    }

    /// Sets this name on an argument of the parser.
    fn given_to<'a>(self, arg: Arg<'a>) -> Arg<'a> {
        match self {
            Name::Letter(letter) => arg.short(letter),
            Name::Long(word) => arg.long(word),
            Name::Both(letter, word) => arg.short(letter).long(word),
            Name::Words => arg,
        }
    }
}

/// Returns whether `word` is `-` and `letter`.
fn is_short(letter: char, word: &str) -> bool {
    let mut characters = word.chars();
    characters.next() == Some('-')
        && characters.next() == Some(letter)
        && characters.next().is_none()
}

/// Returns whether `word` is `--` and `long`, perhaps followed by `=` and a value.
fn is_long(long: &str, word: &str) -> bool {
    let Some(given) = word.strip_prefix("--") else {
        return false;
    };
    match given.split_once('=') {
        Some((name, _value)) => name == long,
        None => given == long,
    }
}
