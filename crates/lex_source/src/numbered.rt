//! The lines of a source file, one after another.
ghost use Rattle.std.specs.Prelude.{◌≡◌, ℕ, ◌+◌, ◌<◌, ◌^◌, List, ◌∷◌, length};
ghost use Rattle.std.specs.List.{enumerate_from};
ghost use Rattle.std.specs.Iterator.{YieldsFirstBy, item_count};
ghost use Rattle.mj_model.specs.Lines.{numbered_lines, source_lines, without_return as line_without_return};
ghost use Rattle.lex_source.specs.NonblankLines.{line_view};

use crate::bytes::split_first;
use std::marker::Model;

/// An iterator over the lines of a source file, with their numbers.
#[derive(Drop)]
pub struct Lines<'a> {
    /// The number of lines that were returned.
    reported: u64,
    rest: &'a [u8],
}

impl<'a> Model for Lines<'a> {
    ghost Value = { List (ℕ × List ℕ) };

    ghost view = { λ it. enumerate_from (it.reported + 1) (source_lines it.rest.now) };

    ghost invariant = { λ it. it.reported + length it.rest.now < 2 ^ 64 };
}

impl<'a> Lines<'a> {
    /// Returns the lines of `bytes`, numbered from 1.
    pub(crate) fn new(bytes: &'a [u8]) -> Lines<'a>
        ensures { result ≡ numbered_lines bytes.now }
    {
        Lines {
            reported: 0,
            rest: bytes,
        }
    }
}

impl<'a> Iterator for Lines<'a> {
    type Item = (u64, &'a [u8]);

    ghost next_gives = { YieldsFirstBy line_view (λ rest. rest) };

    ghost remaining = { item_count (λ rest. rest) };

    fn next(&mut self) -> Option<(u64, &'a [u8])> {
        if self.rest.is_empty() {
            return None;
        }
        let (line, rest) = first_line(self.rest);
        self.reported += 1;
        self.rest = rest;
        Some((self.reported, line))
    }
}

/// Returns the first line, and the bytes after its line feed.
fn first_line(bytes: &[u8]) -> (&[u8], &[u8])
    requires { 0 < length bytes.now }
    ensures lines { source_lines bytes.now ≡ result.0.now ∷ source_lines result.1.now }
    ensures shorter { length result.1.now < length bytes.now }
{
    match split_first(bytes, b'\n') {
        Some((line, rest)) => (without_return(line), rest),
        None => (without_return(bytes), &bytes[bytes.len()..]),
    }
}

/// Returns `line` without the carriage return at its end, if it has one.
fn without_return(line: &[u8]) -> &[u8]
    ensures { result.now ≡ line_without_return line.now }
{
    if !line.is_empty() && line[line.len() - 1] == b'\r' {
        &line[..line.len() - 1]
    } else {
        line
    }
}
