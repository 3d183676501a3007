//! The sample's sources with further lines. Reading is retried once after an allocation failure.

use crate::tests::faults::{Read, read_again};
use char_def::{CharTable, UnkTable, read_chars, read_unk};
use lex_source::lines;
use mj_model::{CharInfo, SourceFault, sample};
use std::alloc::{Alloc, AllocError, Global};
use std::io::Eprint;
use std::test::Fail;
use test_support::again;

/// Returns a line of the sample's `char.def`. The lines of KANJI get tabs, comments and a
/// lower-case digit.
fn with_comment(line: &[u8]) -> &[u8] {
    if line.starts_with(b"KANJI") {
        b"KANJI\t\t0 0 2  # two at most"
    } else if line.starts_with(b"0x4E00") {
        b"0x4e00..0x9FFF KANJI # ideographs"
    } else {
        line
    }
}

/// Returns the sample's `char.def` with tabs, comments and a lower-case digit in the lines of
/// KANJI.
pub fn commented(alloc: Global) -> Result<Vec<u8>, AllocError> {
    let mut bytes = Vec::new(alloc);
    for (_, line) in lines(sample().chars) {
        bytes.extend_from_slice(with_comment(line))?;
        bytes.push(b'\n')?;
    }
    Ok(bytes)
}

/// Lines of 12 categories. With the sample's six there are 18.
pub const TWELVE: &[u8] = b"\
A 0 0 0\nB 0 0 0\nC 0 0 0\nD 0 0 0\nE 0 0 0\nF 0 0 0\n\
G 0 0 0\nH 0 0 0\nI 0 0 0\nJ 0 0 0\nK 0 0 0\nL 0 0 0\n";

/// Appends the lines `further` to `source`.
pub fn joined(alloc: Global, source: &[u8], further: &[u8]) -> Result<Vec<u8>, AllocError> {
    let mut bytes = Vec::from_slice(alloc, source)?;
    bytes.extend_from_slice(further)?;
    Ok(bytes)
}

/// Appends the lines `further` to `source`, with one retry.
pub fn joined_again(
    rt: &(impl Alloc<A = Global> + Eprint),
    source: &[u8],
    further: &[u8],
) -> Result<Vec<u8>, Fail> {
    Ok(again!(rt, Err(_), joined(rt.alloc(), source, further))?)
}

/// Reads the `char.def` `bytes`.
pub fn table_of(alloc: Global, bytes: &[u8]) -> Result<CharTable, SourceFault> {
    read_chars(alloc, bytes)
}

/// Reads the `char.def` `bytes`, with one retry.
pub fn chars_of(rt: &(impl Alloc<A = Global> + Eprint), bytes: &[u8]) -> Read<CharTable> {
    read_again(rt, bytes, table_of)
}

/// Reads the sample's `char.def` with the lines `further` appended.
pub fn chars_with(
    rt: &(impl Alloc<A = Global> + Eprint),
    further: &[u8],
) -> Result<CharTable, Fail> {
    Ok(chars_of(rt, &joined_again(rt, sample().chars, further)?)??)
}

/// Returns the categories of `code`, or `None` above U+10FFFF.
pub fn info_of(table: &CharTable, code: u32) -> Option<CharInfo> {
    if code > 0x10FFFF {
        return None;
    }
    Some(table.info(code))
}

/// Returns the categories of `code` in the sample with the lines `further` appended.
pub fn info_with(
    rt: &(impl Alloc<A = Global> + Eprint),
    further: &[u8],
    code: u32,
) -> Result<Option<CharInfo>, Fail> {
    let table = chars_with(rt, further)?;
    Ok(info_of(&table, code))
}

/// Reads the `unk.def` `bytes` for the categories of `chars`.
fn entries_of<'a>(
    alloc: Global,
    bytes: &'a [u8],
    chars: &CharTable,
) -> Result<UnkTable<'a>, SourceFault> {
    read_unk(alloc, bytes, chars)
}

/// Reads the `unk.def` `bytes` for the sample's categories.
pub fn unk_of<'a>(rt: &(impl Alloc<A = Global> + Eprint), bytes: &'a [u8]) -> Read<UnkTable<'a>> {
    let chars = chars_with(rt, b"")?;
    read_again(rt, bytes, |alloc, bytes| entries_of(alloc, bytes, &chars))
}

/// Returns the error of the `unk.def` `bytes`, if it has one.
pub fn unk_fault(
    rt: &(impl Alloc<A = Global> + Eprint),
    bytes: &[u8],
) -> Result<Option<SourceFault>, Fail> {
    Ok(unk_of(rt, bytes)?.err())
}
