//! Numbers of the source files.
ghost use Rattle.std.specs.Prelude.{◌≡◌, ◌≤◌, ◌+◌, ◌^◌, ◌-◌, Some, None, pos, neg_ℤ, nat_le, if◌then◌else◌};
ghost use Rattle.mj_model.specs.Numbers.{number_in, unsigned_number, context_id as context_id_of, cost as cost_of};
ghost use Rattle.lex_source.specs.Digits.{up_to, with_digit};

use crate::bytes::without_trailing_blanks;

/// The greatest magnitude of a signed 32-bit number.
const MAGNITUDE_MAX: u64 = 1 << 31;

/// Returns the value of a decimal number: an optional `-` or `+`, digits, then blanks and tabs.
/// Returns `None` if `text` is anything else, or if the value does not fit. (This project's own
/// choice)
pub fn number(text: &[u8]) -> Option<i32>
    ensures { result ≡ number_in (neg_ℤ (pos (2 ^ 31))) (pos (2 ^ 31 - 1)) text.now }
{
    match without_trailing_blanks(text) {
        [b'-', digits @ ..] => Some(negative(natural(digits)?)),
        [b'+', digits @ ..] => positive(natural(digits)?),
        digits => positive(natural(digits)?),
    }
}

/// Returns a context id: a number from 0 to 65,535.
pub fn context_id(text: &[u8]) -> Option<u16>
    ensures { result ≡ context_id_of text.now }
{
    u16::try_from(number(text)?).ok()
}

/// Returns a word cost or a connection cost: a number from -32,768 to 32,767.
pub fn cost(text: &[u8]) -> Option<i16>
    ensures { result ≡ cost_of text.now }
{
    i16::try_from(number(text)?).ok()
}

/// Returns the value of decimal digits, if it is at most `MAGNITUDE_MAX`.
fn natural(digits: &[u8]) -> Option<u64>
    ensures { result ≡ up_to (2 ^ 31) (unsigned_number digits.now) }
{
    if digits.is_empty() {
        return None;
    }
    let mut value = 0;
    for byte in digits {
        value = append_digit(value, *byte)?;
    }
    if value <= MAGNITUDE_MAX {
        Some(value)
    } else {
        None
    }
}

/// Returns `value` with one more digit, or `None` if `byte` is no digit. The result is
/// `MAGNITUDE_MAX + 1` for all greater values.
fn append_digit(value: u64, byte: u8) -> Option<u64>
    requires { value ≤ 2 ^ 31 + 1 }
    ensures { result ≡ with_digit value byte }
{
    if byte.is_ascii_digit() {
        Some((10 * value + u64::from(byte - b'0')).min(MAGNITUDE_MAX + 1))
    } else {
        None
    }
}

fn positive(magnitude: u64) -> Option<i32>
    ensures { result ≡ (if nat_le magnitude (2 ^ 31 - 1) then Some (pos magnitude) else None) }
{
    if magnitude < MAGNITUDE_MAX {
        Some(magnitude as i32)
    } else {
        None
    }
}

fn negative(magnitude: u64) -> i32
    requires { magnitude ≤ 2 ^ 31 }
    ensures { result ≡ neg_ℤ (pos magnitude) }
{
    -(magnitude as i64) as i32
}
