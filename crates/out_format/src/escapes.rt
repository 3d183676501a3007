//! The escapes of formats.

ghost use Rattle.std.specs.Prelude.{◌≡◌};
ghost use Rattle.out_format.specs.Formats.{byte_of_escape};

/// Returns the byte of the escape `\character`, or `None` if there is no such escape. (MeCab)
pub fn escaped_byte(character: u8) -> Option<u8>
    ensures { result ≡ byte_of_escape character }
{
    match character {
        b'0' => Some(0x00),
        b'a' => Some(0x07),
        b'b' => Some(0x08),
        b't' => Some(0x09),
        b'n' => Some(0x0a),
        b'v' => Some(0x0b),
        b'f' => Some(0x0c),
        b'r' => Some(0x0d),
        b's' => Some(0x20),
        b'\\' => Some(0x5c),
        _ => None,
    }
}
