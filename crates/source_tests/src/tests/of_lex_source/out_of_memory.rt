//! Allocation failures.
//!
//! Allocations fail under `tests/out_of_memory/run.py`, which expects the line `refused` on
//! standard error.
use super::is_text;
use super::records::{ACCEPTED, expect_records, fault_after};
use super::sorted::add;
use crate::tests::faults::{File, expect_faults};
use lex_source::{SortedLexicon, SourceLexicon, append_field, field};
use mj_model::MatrixSizes;
use mj_model::SourceKind::{Memory, SurfaceTooLong};
use std::alloc::{Alloc, Global};
use std::io::Eprint;
use std::process::Abort;
use std::string::String;
use std::test::Fail;
use test_support::again;

#[test]
fn failed_allocation_adds_no_records(rt: HostRuntime) -> Result<(), Fail> {
    expect_records(&rt, &ACCEPTED)
}

#[test]
fn invalid_lexicon_out_of_memory(rt: HostRuntime) -> Result<(), Fail> {
    expect_faults(&rt, File::FirstLexicon)
}

/// Returns a line whose surface has `length` bytes, with one retry for each allocation.
fn line_of(rt: &HostRuntime, length: usize) -> Result<Vec<u8>, Fail> {
    let mut line = again!(rt, Err(_), Vec::from_elem(rt.alloc(), b'a', length))?;
    again!(rt, Err(_), line.extend_from_slice(b",1,1,5,X"))?;
    Ok(line)
}

#[test]
fn long_surface_out_of_memory(rt: HostRuntime) -> Result<(), Fail> {
    let line = line_of(&rt, 65_536)?;
    assert_eq!(rt; fault_after(&rt, 3, &line)?, Some(SurfaceTooLong.at(3, 1)));
    Ok(())
}

/// Two entries with quoted surfaces, and a line that is skipped.
const LINES: &[u8] = b"\"a,b\",1,1,10,X\n\"a\"\"b\",1,1,10,Y\n,1,1,5,Z\n";

/// Adds `LINES` to a lexicon of `held` entries. An allocation failure must add none.
fn add_lines(
    rt: &(impl Abort + Alloc<A = Global> + Eprint),
    lexicon: &mut SourceLexicon<'static>,
    held: usize,
) -> Result<(), Fail> {
    if let Err(fault) = add(rt.alloc(), lexicon, 3, LINES) {
        rt.eprintln("refused")?;
        assert!(rt; fault.kind == Memory && lexicon.len() == held);
        assert_eq!(rt; add(rt.alloc(), lexicon, 3, LINES)?, 1);
    }
    Ok(())
}

/// Returns whether `expected` are the surfaces and features of the sorted entries.
fn are_sorted(sorted: &SortedLexicon<'_>, expected: &[(&str, &str)]) -> bool {
    let records = sorted.records();
    let mut all = records.len() == expected.len();
    for (record, (surface, feature)) in records.iter().zip(expected) {
        all = all && record.surface.as_str() == *surface && record.entry.feature == *feature;
    }
    all
}

#[test]
fn failed_allocation_adds_no_entries(rt: HostRuntime) -> Result<(), Fail> {
    let mut lexicon = SourceLexicon::new(rt.alloc(), MatrixSizes { right: 2, left: 2 });
    add_lines(&rt, &mut lexicon, 0)?;
    assert!(rt; lexicon.len() == 2);
    add_lines(&rt, &mut lexicon, 2)?;
    assert!(rt; lexicon.len() == 4);
    // A failed sort consumes the entries, so that it can't be retried.
    let Ok(sorted) = lexicon.sorted() else {
        rt.eprintln("refused")?;
        return Ok(());
    };
    let expected = [("a\"b", "Y"), ("a\"b", "Y"), ("a,b", "X"), ("a,b", "X")];
    assert!(rt; are_sorted(&sorted, &expected));
    Ok(())
}

/// Fields of the line `x, "y z"w,*`.
#[rattlefmt::skip]
static FIELDS: [(usize, Option<&str>); 4] = [
    // (number of the field, field)
    (0, Some("x")), (1, Some("y z")), (2, Some("*")), (3, None),
];

/// Returns field `number` of `line`, with one retry.
fn field_again(
    rt: &(impl Alloc<A = Global> + Eprint),
    line: &str,
    number: usize,
) -> Result<Option<String>, Fail> {
    Ok(again!(rt, Err(_), field(rt.alloc(), line, number))?)
}

#[test]
fn field_out_of_memory(rt: HostRuntime) -> Result<(), Fail> {
    for (number, expected) in &FIELDS {
        let found = field_again(&rt, "x, \"y z\"w,*", *number)?;
        assert!(rt; is_text(&found, *expected), "{number}");
    }
    Ok(())
}

/// Appends the first field of `line`, with one retry. An allocation failure must keep the bytes
/// `before`.
fn append_again(
    rt: &(impl Abort + Eprint),
    out: &mut Vec<u8>,
    before: &[u8],
    line: &str,
) -> Result<(), Fail> {
    if append_field(out, line, 0).is_err() {
        rt.eprintln("refused")?;
        assert!(rt; out.as_slice().starts_with(before));
        out.truncate(before.len());
        assert!(rt; append_field(out, line, 0)?);
    }
    Ok(())
}

#[test]
fn failed_allocation_keeps_the_text_before(rt: HostRuntime) -> Result<(), Fail> {
    let mut out = Vec::new(rt.alloc());
    append_again(&rt, &mut out, b"", "ab,\"c\"\"d\"")?;
    append_again(
        &rt,
        &mut out,
        b"ab",
        "\"0123456789\"\"0123456789\"\"0123456789\"",
    )?;
    assert_eq!(rt;
        out.as_slice(),
        b"ab0123456789\"0123456789\"0123456789".as_slice()
    );
    Ok(())
}
