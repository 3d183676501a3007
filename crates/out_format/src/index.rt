//! Reads the index of a field, between brackets.

ghost use Rattle.std.specs.Prelude.{◌≡◌, ◌∷◌, ◌≤◌, true, length};
ghost use Rattle.std.specs.Char.{is_ascii_digit};
ghost use Rattle.std.specs.List.{prefix_len};
ghost use Rattle.std.specs.Str.{all_ascii_digits};
ghost use Rattle.out_format.specs.Results.{IsFirstIndex, index_of};

use crate::bytes::first_byte;

/// The greatest number of digits of an index. (This project's own choice)
const DIGITS_MAX: usize = 5;

/// An index, and the text after its closing bracket.
#[derive(Clone, Copy)]
pub struct Index<'a> {
    pub number: u16,
    pub rest: &'a [u8],
}

/// Returns the index at the start of `text`: one to five digits between brackets, of value at most
/// 65,535.
pub fn first_index(text: &[u8]) -> Option<Index<'_>>
    ensures { IsFirstIndex text.now result }
{
    let (bracket, inside) = first_byte(text)?;
    if bracket == b'[' {
        index_inside(inside)
    } else {
        None
    }
}

/// Returns the index whose text after the opening bracket is `inside`.
fn index_inside(inside: &[u8]) -> Option<Index<'_>>
    ensures { IsFirstIndex (0x5b ∷ inside.now) result }
{
    let count = digits_before(inside);
    if count == 0 || count > DIGITS_MAX {
        return None;
    }
    let digits = &inside[..count];
    let (closing, rest) = first_byte(&inside[count..])?;
    if closing == b']' {
        let number = index_value(digits)?;
        Some(Index { number, rest })
    } else {
        None
    }
}

/// Returns the number of digits at the start of `text`.
fn digits_before(text: &[u8]) -> usize
    ensures count { result ≡ prefix_len is_ascii_digit text.now }
    ensures within { result ≤ length text.now }
{
    for (i, byte) in text.iter().enumerate() {
        if !byte.is_ascii_digit() {
            return i;
        }
    }
    text.len()
}

/// Returns the value of `digits`, or `None` if it is over 65,535.
fn index_value(digits: &[u8]) -> Option<u16>
    requires { all_ascii_digits digits.now ≡ true }
    ensures { result ≡ index_of digits.now }
{
    let mut value: u32 = 0;
    for digit in digits {
        value = 10 * value + u32::from(digit - b'0');
        if value > u32::from(u16::MAX) {
            return None;
        }
    }
    Some(value as u16)
}
