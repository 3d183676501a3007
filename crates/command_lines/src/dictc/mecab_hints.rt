//! Options of mecab-dict-index that `dictc` doesn't have, each with the key of the hint for it.

use crate::row::Name::{self, Both};
use crate::row::key_of_word;
use std::string::String;

/// Returns the key of the hint for the most important option of mecab-dict-index among `words`, if
/// there is one. It is for command lines that the parser rejects.
pub(super) fn hint_for(words: &[String]) -> Option<&'static str> {
    key_of_word(
        options_of(words.first().map_or("", |word| word.as_str())),
        words,
    )
}

/// Returns the options for the subcommand `first`, or for none, the most important one first.
fn options_of(first: &str) -> &'static [(Name, &'static str)] {
    match first {
        "user" => &USER,
        "system" => &SYSTEM,
        "ids" => &IDS,
        _ => &NO_SUBCOMMAND,
    }
}

const USER_DICTIONARY: Name = Both('u', "userdic");

const DIRECTORY: Name = Both('d', "dicdir");

const OF_OUT: (Name, &str) = (Both('o', "outdir"), "outdir");

const OF_ENCODING: (Name, &str) = (Both('f', "dictionary-charset"), "dictionary-charset");

const OF_CHARSET: (Name, &str) = (Both('t', "charset"), "charset");

static NO_SUBCOMMAND: [(Name, &str); 5] = [
    (USER_DICTIONARY, "userdic"),
    (DIRECTORY, "dicdir"),
    OF_OUT,
    OF_ENCODING,
    OF_CHARSET,
];

static USER: [(Name, &str); 5] = [
    (DIRECTORY, "dicdir of an image"),
    (USER_DICTIONARY, "userdic of user"),
    OF_OUT,
    OF_ENCODING,
    OF_CHARSET,
];

static SYSTEM: [(Name, &str); 5] = [
    (DIRECTORY, "dicdir of system"),
    (USER_DICTIONARY, "userdic"),
    OF_OUT,
    OF_ENCODING,
    OF_CHARSET,
];

static IDS: [(Name, &str); 1] = [(DIRECTORY, "dicdir of an image")];
