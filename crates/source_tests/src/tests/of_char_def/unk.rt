//! `unk.def`.

use super::samples::{joined, unk_fault, unk_of};
use crate::tests::faults::{File, expect_faults};
use char_def::UnkTable;
use mj_model::SourceKind::MissingCategory;
use mj_model::{MatrixSizes, Record, sample};
use std::alloc::{Alloc, Global};
use std::io::Eprint;
use std::process::Abort;
use std::test::Fail;

/// The number of KANJI among the sample's categories.
const KANJI: usize = 4;

/// Returns the lines of KANJI, or none unless `unknown` has `count` categories.
fn kanji_lines<'a, 'b>(unknown: &'b UnkTable<'a>, count: usize) -> &'b [Record<'a>] {
    if unknown.count() != count || count <= KANJI {
        return &[];
    }
    unknown.lines(KANJI)
}

/// Further lines, and the lines that KANJI has then.
#[rattlefmt::skip]
static OF_KANJI: [(&str, &[u8], usize, i16); 3] = [
    // (what, a line after the sample's 6, the number of KANJI's lines then, the cost of the last)
    ("a second line", b"KANJI,0,0,-5,Y,Z\n",  2, -5),
    ("a blank line",  b" \t\n",              1, 1_000),
    ("quotes",        b"\"KANJI\",1,1,1,Y\n", 2, 1),
];

/// Returns whether KANJI has `count` lines with `further` appended, and the last has the cost
/// `cost`.
fn has_lines(
    rt: &(impl Alloc<A = Global> + Eprint),
    further: &[u8],
    count: usize,
    cost: i16,
) -> Result<bool, Fail> {
    let bytes = joined(rt.alloc(), sample().unk, further)?;
    let unknown = unk_of(rt, &bytes)??;
    let lines = kanji_lines(&unknown, 6);
    Ok(match lines.last() {
        Some(last) => lines.len() == count && last.entry.cost == cost,
        None => false,
    })
}

#[test]
fn lines_of_kanji(rt: HostRuntime) -> Result<(), Fail> {
    for (what, further, count, cost) in &OF_KANJI {
        assert!(rt; has_lines(&rt, further, *count, *cost)?, "{what}");
    }
    Ok(())
}

#[test]
fn invalid_lines_of_unk_def(rt: HostRuntime) -> Result<(), Fail> {
    expect_faults(&rt, File::MoreUnk)
}

/// A line of KANJI: its number, left id, right id, cost and feature.
type Expected = (u64, u16, u16, i16, &'static str);

static LINES: [Expected; 2] = [(1, 1, 2, 3, "A"), (4, 4, 5, -6, "B,C")];

fn is_line(record: &Record<'_>, expected: &Expected) -> bool {
    let (line, left, right, cost, feature) = *expected;
    let entry = &record.entry;
    (record.line, record.surface.as_str()) == (line, "KANJI")
        && (entry.left, entry.right, entry.cost) == (left, right, cost)
        && entry.feature == feature
}

/// Lines of all categories except KATAKANA.
static ALL_BUT_ONE: &[u8] =
    b"KANJI,1,2,3,A\nSPACE,1,1,1,X\nALPHA,1,1,1,X\nKANJI,4,5,-6,B,C\nDEFAULT,1,1,1,X\nHIRAGANA,1,1,1,X\n";

/// Checks the lines of KANJI.
fn expect_kanji(rt: &impl Abort, kanji: &[Record<'_>]) {
    assert!(rt; kanji.len() == LINES.len());
    for (record, expected) in kanji.iter().zip(&LINES) {
        assert!(rt; is_line(record, expected), "{}", expected.0);
    }
}

#[test]
fn unknown_entries(rt: HostRuntime) -> Result<(), Fail> {
    let missing = unk_fault(&rt, ALL_BUT_ONE)?;
    assert!(rt; missing == Some(MissingCategory(3).at(2, 0)));
    let bytes = joined(rt.alloc(), ALL_BUT_ONE, b"KATAKANA,1,1,1,X\n")?;
    let unknown = unk_of(&rt, &bytes)??;
    expect_kanji(&rt, kanji_lines(&unknown, 6));
    Ok(())
}

/// Sizes of a matrix, and the first line with an id out of range.
#[rattlefmt::skip]
static OUTSIDE: [(&str, MatrixSizes, Option<u64>); 6] = [
    // (what, sizes, line)
    ("all inside",     MatrixSizes { right: 5, left: 3 }, None),
    ("a left id",      MatrixSizes { right: 5, left: 2 }, Some(2)),
    ("a right id",     MatrixSizes { right: 4, left: 3 }, Some(5)),
    ("two right ids",  MatrixSizes { right: 3, left: 3 }, Some(3)),
    ("the first line", MatrixSizes { right: 1, left: 1 }, Some(1)),
    ("no ids",         MatrixSizes { right: 0, left: 0 }, Some(1)),
];

/// Returns the first line with an id out of range.
fn line_outside(
    rt: &(impl Alloc<A = Global> + Eprint),
    sizes: MatrixSizes,
) -> Result<Option<u64>, Fail> {
    let lines =
        b"KANJI,1,1,1,X\nSPACE,2,1,1,X\nALPHA,1,3,1,X\nKANJI,0,0,1,X\nDEFAULT,1,4,1,X\nHIRAGANA,1,1,1,X\nKATAKANA,1,1,1,X\n";
    Ok(unk_of(rt, lines)??.first_line_outside(sizes))
}

#[test]
fn first_line_outside(rt: HostRuntime) -> Result<(), Fail> {
    for (what, sizes, line) in &OUTSIDE {
        assert!(rt; line_outside(&rt, *sizes)? == *line, "{what}");
    }
    Ok(())
}
