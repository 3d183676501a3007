//! Little-endian numbers of an image.
ghost use Rattle.std.specs.Prelude.{◌≡◌, ◌+◌, ◌≤◌, length};
ghost use Rattle.image_format.specs.ImageBytes.{number_at, signed_2_at, signed_4_at};

use byteorder::{ByteOrder, LittleEndian};

/// Returns the 2-byte number at offset `at`.
pub fn u16_at(bytes: &[u8], at: usize) -> u16
    requires { at + 2 ≤ length bytes.now }
    ensures { result ≡ number_at 2 bytes.now at }
{
    LittleEndian::read_u16(&bytes[at..])
}

/// Returns the 4-byte number at offset `at`.
pub fn u32_at(bytes: &[u8], at: usize) -> u32
    requires { at + 4 ≤ length bytes.now }
    ensures { result ≡ number_at 4 bytes.now at }
{
    LittleEndian::read_u32(&bytes[at..])
}

/// Returns the 8-byte number at offset `at`.
pub fn u64_at(bytes: &[u8], at: usize) -> u64
    requires { at + 8 ≤ length bytes.now }
    ensures { result ≡ number_at 8 bytes.now at }
{
    LittleEndian::read_u64(&bytes[at..])
}

/// Returns the signed 2-byte number at offset `at`.
pub fn i16_at(bytes: &[u8], at: usize) -> i16
    requires { at + 2 ≤ length bytes.now }
    ensures { result ≡ signed_2_at bytes.now at }
{
    LittleEndian::read_i16(&bytes[at..])
}

/// Returns the signed 4-byte number at offset `at`.
pub fn i32_at(bytes: &[u8], at: usize) -> i32
    requires { at + 4 ≤ length bytes.now }
    ensures { result ≡ signed_4_at bytes.now at }
{
    LittleEndian::read_i32(&bytes[at..])
}
