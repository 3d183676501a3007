//! Hexadecimal numbers.
ghost use Rattle.std.specs.Prelude.{◌≡◌, ◌≤◌, ◌*◌, ◌+◌, Some, None, if◌then◌else◌};
ghost use Rattle.std.specs.Char.{is_ascii_hexdigit, digit_value};
ghost use Rattle.mj_model.specs.CharDef.{hexadecimal as hexadecimal_of, hex_digits as hex_digits_of, starts_with_hex as begins_with_prefix};
ghost use Rattle.char_def.specs.Hex.{up_to_max, with_hex_digit};

use mj_model::CODE_POINT_MAX;

/// Returns whether `word` starts with `0x`.
pub(crate) fn starts_with_hex(word: &[u8]) -> bool
    ensures { result ≡ begins_with_prefix word.now }
{
    word.starts_with(b"0x")
}

/// Returns the value of `0x` and hexadecimal digits in either case. The result is `CODE_POINT_MAX +
/// 1` for all greater values.
pub(crate) fn hexadecimal(text: &[u8]) -> Option<u32>
    ensures { result ≡ up_to_max (hexadecimal_of text.now) }
{
    if starts_with_hex(text) {
        hex_digits(&text[2..])
    } else {
        None
    }
}

fn hex_digits(digits: &[u8]) -> Option<u32>
    ensures { result ≡ up_to_max (hex_digits_of digits.now) }
{
    if digits.is_empty() {
        return None;
    }
    let mut value = 0;
    for byte in digits {
        value = append_digit(value, *byte)?;
    }
    Some(value)
}

/// Returns `value` with one more digit, or `None` if `byte` is no digit. The result is
/// `CODE_POINT_MAX + 1` for all greater values.
fn append_digit(value: u32, byte: u8) -> Option<u32>
    requires { value ≤ 1114112 }
    ensures { result ≡ with_hex_digit value byte }
{
    Some((16 * value + u32::from(hex_digit(byte)?)).min(CODE_POINT_MAX + 1))
}

fn hex_digit(byte: u8) -> Option<u8>
    ensures { result ≡ (if is_ascii_hexdigit byte then Some (digit_value byte) else None) }
{
    match byte {
        b'0'..=b'9' => Some(byte - b'0'),
        b'A'..=b'F' => Some(byte - b'A' + 10),
        b'a'..=b'f' => Some(byte - b'a' + 10),
        _ => None,
    }
}
