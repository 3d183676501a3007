//! The words of a line.
ghost use Rattle.std.specs.Prelude.{◌≡◌, ◌≤◌, ℕ, List, [], ◌∷◌, length, MatchOption};
ghost use Rattle.std.specs.List.{position_or_len};
ghost use Rattle.std.specs.Iterator.{YieldsFirstRef, item_count};
ghost use Rattle.mj_model.specs.Bytes.{is_blank as is_blank_byte};
ghost use Rattle.mj_model.specs.Connection.{words_of};

use crate::bytes::{blanks_before, is_blank};
use std::marker::Model;

/// An iterator over the words of a line: its parts between blanks and tabs.
#[derive(Drop)]
pub struct Words<'a> {
    rest: &'a [u8],
}

impl<'a> Model for Words<'a> {
    ghost Value = { List (List ℕ) };

    ghost view = { λ it. words_of it.rest.now };
}

impl<'a> Words<'a> {
    /// Returns the words of `line`. (MeCab, `matrix.def` and `char.def`; that a tab separates words
    /// too is this project's own choice)
    pub fn new(line: &'a [u8]) -> Words<'a>
        ensures { result ≡ words_of line.now }
    {
        Words { rest: line }
    }
}

impl<'a> Iterator for Words<'a> {
    type Item = &'a [u8];

    ghost next_gives = { YieldsFirstRef (λ rest. rest) };

    ghost remaining = { item_count (λ rest. rest) };

    fn next(&mut self) -> Option<&'a [u8]> {
        match first_word(self.rest) {
            Some((word, rest)) => {
                self.rest = rest;
                Some(word)
            }
            None => {
                self.rest = &self.rest[self.rest.len()..];
                None
            }
        }
    }
}

/// Returns the first word of a line, and the bytes after it.
fn first_word(line: &[u8]) -> Option<(&[u8], &[u8])>
    ensures { MatchOption result (words_of line.now ≡ [])
        (λ parts. words_of line.now ≡ parts.0.now ∷ words_of parts.1.now) }
{
    let text = &line[blanks_before(line)..];
    if text.is_empty() {
        return None;
    }
    let end = word_end(text);
    Some((&text[..end], &text[end..]))
}

/// Returns the position of the first blank or tab, or the length if there is none.
fn word_end(text: &[u8]) -> usize
    ensures at { result ≡ position_or_len is_blank_byte text.now }
    ensures within { result ≤ length text.now }
{
    for (i, byte) in text.iter().enumerate() {
        if is_blank(*byte) {
            return i;
        }
    }
    text.len()
}
