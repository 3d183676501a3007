//! Records that a lexicon appends to a list. Reading is retried once after an allocation failure.
use lex_source::read_lexicon;
use mj_model::SourceKind::Memory;
use mj_model::{Record, SourceFault};
use std::alloc::{Alloc, Global};
use std::io::Eprint;
use std::process::Abort;
use std::test::Fail;

/// A record with left id 1 and right id 1: its line, surface, cost and feature.
pub type Expected = (u64, &'static str, i16, &'static str);

/// A label, a lexicon, how many of its lines are skipped, and its records.
pub type Row = (&'static str, &'static str, u64, &'static [Expected]);

/// Lexicons that are accepted.
#[rattlefmt::skip]
pub static ACCEPTED: [Row; 7] = [
    ("lexicon_lines",        "\n,1,1,5,X\nも,1,1,20,Y\r\n",  1, &[(3, "も", 20, "Y")]),
    ("a comma",              "\"a,b\",1,1,10,X",             0, &[(1, "a,b", 10, "X")]),
    ("a quote",              "\"a\"\"b\",1,1,10,Y",          0, &[(1, "a\"b", 10, "Y")]),
    ("quotes in all fields", "a,\"1\",\"1\",\"10\"x,\"Y\",", 0, &[(1, "a", 10, "\"Y\",")]),
    ("an empty feature",     "a,1,1,10,",                    0, &[(1, "a", 10, "")]),
    ("a comma, a quote",     "\"a,b\",1,1,10,X\n\"a\"\"b\",1,1,10,Y\n", 0,
        &[(1, "a,b", 10, "X"), (2, "a\"b", 10, "Y")]),
    ("the least cost",       "も,1,1,-32768,助詞,も\n",      0, &[(1, "も", -32768, "助詞,も")]),
];

/// The record of `z,1,1,5,Z`, which the list has before a lexicon is read.
static BEFORE: Expected = (1, "z", 5, "Z");

fn is_record(record: &Record<'_>, expected: &Expected) -> bool {
    let (line, surface, cost, feature) = *expected;
    let entry = &record.entry;
    (record.line, record.surface.as_str()) == (line, surface)
        && (entry.left, entry.right, entry.cost) == (1, 1, cost)
        && entry.feature == feature
}

/// Returns whether `records` are `BEFORE` and then `expected`.
fn are_appended(records: &[Record<'_>], expected: &[Expected]) -> bool {
    let Some((first, others)) = records.split_first() else {
        return false;
    };
    let mut all = is_record(first, &BEFORE) && others.len() == expected.len();
    for (record, expected) in others.iter().zip(expected) {
        all = all && is_record(record, expected);
    }
    all
}

/// Reads `lexicon`, which has the source number `number`, and appends its records to `out`.
pub fn read<'a>(
    alloc: Global,
    number: u32,
    lexicon: &'a [u8],
    out: &mut Vec<Record<'a>>,
) -> Result<u64, SourceFault> {
    read_lexicon(alloc, lexicon, number, out)
}

/// Returns a list with the record `BEFORE`.
fn one_record(
    rt: &(impl Abort + Alloc<A = Global> + Eprint),
) -> Result<Vec<Record<'static>>, Fail> {
    let mut out = Vec::new(rt.alloc());
    if let Err(fault) = read(rt.alloc(), 3, b"z,1,1,5,Z", &mut out) {
        rt.eprintln("refused")?;
        assert!(rt; fault.kind == Memory && out.is_empty());
        assert_eq!(rt; read(rt.alloc(), 3, b"z,1,1,5,Z", &mut out)?, 0);
    }
    Ok(out)
}

/// Reads a lexicon after `BEFORE`, with one retry. An allocation failure must leave `BEFORE` alone
/// in the list.
fn read_after<'a>(
    rt: &(impl Abort + Alloc<A = Global> + Eprint),
    number: u32,
    lexicon: &'a [u8],
    out: &mut Vec<Record<'a>>,
) -> Result<Result<u64, SourceFault>, Fail> {
    let found = read(rt.alloc(), number, lexicon, out);
    if matches!(found, Err(SourceFault { kind: Memory, .. })) {
        rt.eprintln("refused")?;
        assert!(rt; are_appended(out, &[]));
        return Ok(read(rt.alloc(), number, lexicon, out));
    }
    Ok(found)
}

/// Returns the error of reading a lexicon after `BEFORE`. The error must leave `BEFORE` alone in
/// the list.
pub fn fault_after(
    rt: &(impl Abort + Alloc<A = Global> + Eprint),
    number: u32,
    lexicon: &[u8],
) -> Result<Option<SourceFault>, Fail> {
    let mut out = one_record(rt)?;
    let read = read_after(rt, number, lexicon, &mut out)?;
    assert!(rt; are_appended(&out, &[]), "{lexicon:?}");
    Ok(read.err())
}

/// Returns whether a lexicon has `skipped` skipped lines and appends the records `expected`.
fn adds(
    rt: &(impl Abort + Alloc<A = Global> + Eprint),
    lexicon: &str,
    skipped: u64,
    expected: &[Expected],
) -> Result<bool, Fail> {
    let mut out = one_record(rt)?;
    let read = read_after(rt, 3, lexicon.as_bytes(), &mut out)?;
    Ok(read == Ok(skipped) && are_appended(&out, expected))
}

/// Checks the records of each lexicon.
pub fn expect_records(
    rt: &(impl Abort + Alloc<A = Global> + Eprint),
    rows: &[Row],
) -> Result<(), Fail> {
    for (what, lexicon, skipped, expected) in rows {
        assert!(rt; adds(rt, lexicon, *skipped, expected)?, "{what}");
    }
    Ok(())
}
