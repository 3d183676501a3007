//! Finding a line of a file, and removing it.

ghost use Rattle.std.specs.Prelude.{◌≡◌, ℕ, ◌-◌, ◌++◌, IfOk, MatchOption};
ghost use Rattle.dictc_lib.specs.FileLines.{StartsAtLine, EndsBefore, IsLineOf, IsUpToFeed};

use lex_source::split_first;
use std::alloc::{AllocError, Global};

/// The bytes of a file around one of its lines: those before the line, the line without its line
/// feed, and those after it. The last part begins with the line feed, if the line has one.
#[derive(Clone, Copy, Drop)]
pub(crate) struct FileLine<'a> {
    pub(crate) before: &'a [u8],
    pub(crate) line: &'a [u8],
    pub(crate) following: &'a [u8],
}

impl<'a> FileLine<'a> {
    /// Returns the line with this number, counted from 1; None if the file has fewer lines.
    pub(crate) fn find(bytes: &'a [u8], number: u64) -> Option<FileLine<'a>>
        ensures { MatchOption result (EndsBefore number bytes.now) (IsLineOf number bytes.now) }
    {
        match from_line(bytes, number) {
            Some(rest) => Some(first_line(bytes, rest)),
            None => None,
        }
    }

    /// Returns the bytes of the file without those of the line. The line feed remains, so the other
    /// lines keep their numbers.
    pub(crate) fn without(self, alloc: Global) -> Result<Vec<u8>, AllocError>
        ensures { IfOk result (λ kept. kept.items
            ≡ self.entry.before.now ++ self.entry.following.now) }
    {
        let mut kept = Vec::new(alloc);
        kept.extend_from_slice(self.before)?;
        kept.extend_from_slice(self.following)?;
        Ok(kept)
    }
}

/// Returns the bytes of a file from line `number` on; None if it has fewer lines.
fn from_line(bytes: &[u8], number: u64) -> Option<&[u8]>
    ensures { MatchOption result (EndsBefore number bytes.now)
        (λ rest. StartsAtLine (number - 1) bytes.now rest.now) }
{
    let mut rest = bytes;
    for _passed in 0..number.saturating_sub(1) {
        match split_first(rest, b'\n') {
            Some((_line, following)) => rest = following,
            None => return None,
        }
    }
    Some(rest)
}

/// Splits a file around the first line of `rest`, which is a suffix of `bytes`.
fn first_line<'a>(bytes: &'a [u8], rest: &'a [u8]) -> FileLine<'a>
    requires { (n : ℕ) × StartsAtLine n bytes.now rest.now }
    ensures { (number : ℕ) → StartsAtLine (number - 1) bytes.now rest.now
        → IsLineOf number bytes.now result }
{
    let line = up_to_feed(rest);
    FileLine {
        before: &bytes[..bytes.len() - rest.len()],
        line,
        following: &rest[line.len()..],
    }
}

/// Returns the bytes before the first line feed, or all bytes if there is none.
fn up_to_feed(rest: &[u8]) -> &[u8]
    ensures { IsUpToFeed rest.now result.now }
{
    match split_first(rest, b'\n') {
        Some((line, _after)) => line,
        None => rest,
    }
}
