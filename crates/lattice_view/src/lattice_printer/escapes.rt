//! Escapes surfaces and features for the cells of a table and the labels of a graph.

ghost use Rattle.std.specs.Prelude.{◌≡◌, ◌++◌, ◌<◌, flat_map, take, vec_len, OnOk};
ghost use Rattle.lattice_view.specs.LatticePrinter.Escapes.{after_pending, by_code, escaped, pending_after, pending_bytes, hex_digit, in_cell, in_label, label_text, unless_pending};

use std::alloc::AllocError;

/// The target of an escape.
#[derive(Clone, Copy, Debug, PartialEq, Eq, Drop)]
pub enum Escape {
    /// A cell of a table
    Cell,
    /// A label of a graph
    Label,
}

/// The bytes of a label that wait for the next byte, because they may be the start of U+0080 to
/// U+009F, U+FFFE or U+FFFF.
#[derive(Clone, Copy, Debug, PartialEq, Eq, Drop)]
pub(crate) enum PendingBytes {
    Nothing,
    /// 0xc2
    C2,
    /// 0xef
    Ef,
    /// 0xef and 0xbf
    EfBf,
}

impl PendingBytes {
    /// Returns the bytes that wait.
    fn bytes(self) -> &'static [u8]
        ensures { result.now ≡ pending_bytes self }
    {
        match self {
            PendingBytes::Nothing => b"",
            PendingBytes::C2 => b"\xc2",
            PendingBytes::Ef => b"\xef",
            PendingBytes::EfBf => b"\xef\xbf",
        }
    }

    /// Returns the bytes that wait after a further byte.
    fn following(self, byte: u8) -> PendingBytes
        ensures { result ≡ pending_after self byte }
    {
        match (self, byte) {
            (PendingBytes::Ef, 0xbf) => PendingBytes::EfBf,
            (_, 0xc2) => PendingBytes::C2,
            (_, 0xef) => PendingBytes::Ef,
            _ => PendingBytes::Nothing,
        }
    }
}

/// Appends `bytes` with the escapes of a cell or a label. On an error a part of them may remain in
/// `out`.
pub fn append_escaped(escape: Escape, bytes: &[u8], out: &mut Vec<u8>) -> Result<(), AllocError>
    ensures appended { OnOk result (out.new.items ≡ out.old.items ++ escaped escape bytes.now) }
    ensures unchanged { take (vec_len out.old) out.new.items ≡ out.old.items }
{
    match escape {
        Escape::Cell => append_cell(bytes, out),
        Escape::Label => append_label(bytes, out),
    }
}

/// Appends `bytes` to a cell. On an error a part of them may remain in `out`.
fn append_cell(bytes: &[u8], out: &mut Vec<u8>) -> Result<(), AllocError>
    ensures appended { OnOk result (out.new.items ≡ out.old.items ++ flat_map in_cell bytes.now) }
    ensures unchanged { take (vec_len out.old) out.new.items ≡ out.old.items }
{
    for byte in bytes {
        append_in_cell(*byte, out)?;
    }
    Ok(())
}

/// Appends a byte to a cell. A tab, a line feed, a carriage return and a backslash are escaped with
/// a backslash.
fn append_in_cell(byte: u8, out: &mut Vec<u8>) -> Result<(), AllocError>
    ensures appended { OnOk result (out.new.items ≡ out.old.items ++ in_cell byte) }
    ensures unchanged { take (vec_len out.old) out.new.items ≡ out.old.items }
{
    match byte {
        b'\t' => out.extend_from_slice(b"\\t"),
        b'\n' => out.extend_from_slice(b"\\n"),
        b'\r' => out.extend_from_slice(b"\\r"),
        b'\\' => out.extend_from_slice(b"\\\\"),
        _ => out.extend_from_slice(&[byte]),
    }
}

/// Appends a text to a label, so that Graphviz reads each character as itself. Characters that SVG
/// does not allow are written as code points. On an error a part of it may remain in `out`.
fn append_label(bytes: &[u8], out: &mut Vec<u8>) -> Result<(), AllocError>
    ensures appended { OnOk result (out.new.items ≡ out.old.items ++ label_text bytes.now) }
    ensures unchanged { take (vec_len out.old) out.new.items ≡ out.old.items }
{
    let mut held = PendingBytes::Nothing;
    let mut rest = bytes;
    while let Some((byte, following)) = rest.split_first() {
        append_after(held, *byte, out)?;
        held = held.following(*byte);
        rest = following;
    }
    out.extend_from_slice(held.bytes())
}

/// Appends the text for `byte` after the waiting bytes `held`. On an error a part of it may remain
/// in `out`.
fn append_after(held: PendingBytes, byte: u8, out: &mut Vec<u8>) -> Result<(), AllocError>
    ensures appended { OnOk result (out.new.items ≡ out.old.items ++ after_pending held byte) }
    ensures unchanged { take (vec_len out.old) out.new.items ≡ out.old.items }
{
    match (held, byte) {
        (PendingBytes::C2, 0x80..=0x9f) => append_by_code(byte, out),
        (PendingBytes::Ef, 0xbf) => Ok(()),
        (PendingBytes::EfBf, 0xbe) => out.extend_from_slice(b"\\\\u{fffe}"),
        (PendingBytes::EfBf, 0xbf) => out.extend_from_slice(b"\\\\u{ffff}"),
        _ => append_both(held, byte, out),
    }
}

/// Appends the waiting bytes, and the text for the next one.
fn append_both(held: PendingBytes, byte: u8, out: &mut Vec<u8>) -> Result<(), AllocError>
    ensures appended { OnOk result
        (out.new.items ≡ out.old.items ++ (pending_bytes held ++ unless_pending byte)) }
    ensures unchanged { take (vec_len out.old) out.new.items ≡ out.old.items }
{
    out.extend_from_slice(held.bytes())?;
    append_unless_pending(byte, out)
}

/// Appends the text for a byte before which no byte waits, or nothing if the byte itself has to
/// wait.
fn append_unless_pending(byte: u8, out: &mut Vec<u8>) -> Result<(), AllocError>
    ensures appended { OnOk result (out.new.items ≡ out.old.items ++ unless_pending byte) }
    ensures unchanged { take (vec_len out.old) out.new.items ≡ out.old.items }
{
    match byte {
        0xc2 | 0xef => Ok(()),
        _ => append_in_label(byte, out),
    }
}

/// Appends a byte to a label. It is a character by itself, or a part of one.
fn append_in_label(byte: u8, out: &mut Vec<u8>) -> Result<(), AllocError>
    ensures appended { OnOk result (out.new.items ≡ out.old.items ++ in_label byte) }
    ensures unchanged { take (vec_len out.old) out.new.items ≡ out.old.items }
{
    match byte {
        0x00..=0x1f | 0x7f => append_by_code(byte, out),
        b'"' => out.extend_from_slice(b"\\\""),
        b'\\' => out.extend_from_slice(b"\\\\"),
        b'&' => out.extend_from_slice(b"&amp;"),
        _ => out.extend_from_slice(&[byte]),
    }
}

/// Appends a character as its code point, such as `\u{1b}`, with the backslash escaped.
fn append_by_code(code: u8, out: &mut Vec<u8>) -> Result<(), AllocError>
    ensures appended { OnOk result (out.new.items ≡ out.old.items ++ by_code code) }
    ensures unchanged { take (vec_len out.old) out.new.items ≡ out.old.items }
{
    if code < 16 {
        out.extend_from_slice(&[b'\\', b'\\', b'u', b'{', hex_digit(code), b'}'])
    } else {
        out.extend_from_slice(&[
            b'\\',
            b'\\',
            b'u',
            b'{',
            hex_digit(code / 16),
            hex_digit(code % 16),
            b'}',
        ])
    }
}

/// Returns a hexadecimal digit.
fn hex_digit(value: u8) -> u8
    requires { value < 16 }
    ensures { result ≡ hex_digit value }
{
    if value < 10 {
        b'0' + value
    } else {
        b'a' + (value - 10)
    }
}
