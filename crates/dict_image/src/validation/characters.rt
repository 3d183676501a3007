//! Tests which parts of some bytes are UTF-8. (RFC 3629)
ghost use Rattle.std.specs.Prelude.{◌≡◌, ◌<◌, ◌≤◌, ◌↔◌, length, slice_range, IsTrue, IfOk, IsUtf8};
ghost use Rattle.dict_image.specs.Validation.Stretches.{AreWrong, IsStretchEnd, IsEndOf, IsNextWrong};

use simdutf8::is_utf8;
use std::alloc::{AllocError, Global};
use std::marker::Model;
use std::str;

/// Bytes that were decoded once, so that `is_text` can test any part of them in logarithmic
/// time.
#[derive(Drop)]
pub(crate) struct Characters<'a> {
    bytes: &'a [u8],
    /// Positions at which decoding fails, in rising order. The bytes from after each of them up to
    /// the next one, or to the end, are UTF-8.
    wrong: Vec<usize>,
}

impl<'a> Model for Characters<'a> {
    ghost use Rattle.std.specs.Prelude.{ℕ, List};
    ghost use Rattle.dict_image.specs.Validation.Stretches.{AreWrong};

    ghost Value = { List ℕ };

    ghost view = { λ it. it.bytes.now };

    ghost invariant = { λ it. AreWrong it.bytes.now it.wrong.items };
}

impl<'a> Characters<'a> {
    /// Decodes `bytes`. Reads each byte a bounded number of times. Does not allocate if the bytes
    /// are UTF-8, otherwise stores up to 8 bytes for each byte.
    pub(crate) fn read(alloc: Global, bytes: &'a [u8]) -> Result<Characters<'a>, AllocError>
        ensures { IfOk result (λ characters. characters ≡ bytes.now) }
    {
        let wrong = if is_utf8(bytes) {
            Vec::new(alloc)
        } else {
            invalid_positions(alloc, bytes)?
        };
        Ok(Characters { bytes, wrong })
    }

    /// Returns the number of bytes.
    pub(crate) fn len(&self) -> usize
        ensures { result ≡ length self.now }
    {
        self.bytes.len()
    }

    /// Returns whether the bytes from `start` to before `end` are UTF-8. Runs a binary search over
    /// the invalid positions.
    pub(crate) fn is_text(&self, start: usize, end: usize) -> bool
        requires forward { start ≤ end }
        requires within { end ≤ length self.now }
        ensures { IsTrue result ↔ IsUtf8 (slice_range self.now start end) }
    {
        if start == end {
            return true;
        }
        let to = self.run_end(start);
        end <= to && self.is_stretch_end(start, to) && self.is_stretch_end(end, to)
    }

    /// Returns the first position at or after `place` at which decoding fails, or the number of
    /// bytes.
    fn run_end(&self, place: usize) -> usize
        requires { place ≤ length self.now }
        ensures { IsEndOf self.now place result }
    {
        let before = self.wrong.partition_point(|wrong| *wrong < place);
        let wrong = self.wrong.get(before).copied();
        wrong.unwrap_or(self.bytes.len())
    }

    /// Returns whether a character may end before `place`: `place` is `run_end`, or its byte is
    /// not a continuation byte.
    fn is_stretch_end(&self, place: usize, run_end: usize) -> bool
        requires place { place ≤ run_end }
        requires within { run_end ≤ length self.now }
        ensures { IsTrue result ↔ IsStretchEnd self.now run_end place }
    {
        place == run_end || !matches!(self.bytes[place], 0x80..=0xBF)
    }
}

/// Returns the positions at which decoding fails. It continues after each invalid byte.
fn invalid_positions(alloc: Global, bytes: &[u8]) -> Result<Vec<usize>, AllocError>
    ensures { IfOk result (λ wrong. AreWrong bytes.now wrong.items) }
{
    let mut wrong = Vec::new(alloc);
    let mut at = 0;
    while let Some(place) = next_invalid(bytes, at) {
        wrong.push(place)?;
        at = place + 1;
    }
    Ok(wrong)
}

/// Returns the first position at or after `from` at which decoding fails, or None. Does not read
/// the bytes that follow it.
fn next_invalid(bytes: &[u8], from: usize) -> Option<usize>
    requires { from ≤ length bytes.now }
    ensures { IsNextWrong bytes.now from result }
{
    match str::from_utf8(&bytes[from..]) {
        Ok(_) => None,
        Err(fault) => Some(from + fault.valid_up_to()),
    }
}
