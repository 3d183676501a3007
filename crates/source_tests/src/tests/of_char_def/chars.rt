//! `char.def`.

use super::samples::{TWELVE, chars_of, chars_with, commented, info_with, joined};
use crate::tests::faults::{File, expect_faults};
use char_def::CharTable;
use mj_model::{Category, CharInfo, sample};
use std::process::Abort;
use std::test::Fail;

/// A category: its name, INVOKE, GROUP and LENGTH.
type Named = (&'static str, bool, bool, u8);

/// Returns whether category `number` is `expected`.
fn is_category(table: &CharTable, number: usize, expected: &Named) -> bool {
    let (name, invoke, group, length) = *expected;
    #[rattlefmt::skip]
    let category = Category { invoke, group, length };
    number < table.count() && table.name(number) == name && table.category(number) == category
}

/// Lines that define a category.
#[rattlefmt::skip]
static LINES: [(&[u8], Named); 4] = [
    // (a line after the sample's 12, its category)
    (b"SYMBOL\t\t0 0 2  # two at most", ("SYMBOL", false, false, 2)),
    (b"SYMBOL 1 0 15 more",            ("SYMBOL", true,  false, 15)),
    (b"SYMBOL +1 -0 015",              ("SYMBOL", true,  false, 15)),
    (b"SYMBOL 0 1 0\r\n\n",            ("SYMBOL", false, true,  0)),
];

#[test]
fn lines_of_a_category(rt: HostRuntime) -> Result<(), Fail> {
    for (further, expected) in &LINES {
        let table = chars_with(&rt, further)?;
        let is_there = table.count() == 7 && is_category(&table, 6, expected);
        assert!(rt; is_there, "{further:?}");
    }
    Ok(())
}

#[test]
fn missing_categories(rt: HostRuntime) -> Result<(), Fail> {
    expect_faults(&rt, File::Chars)
}

#[test]
fn nineteen_categories(rt: HostRuntime) -> Result<(), Fail> {
    expect_faults(&rt, File::Nineteenth)
}

#[test]
fn eighteen_categories(rt: HostRuntime) -> Result<(), Fail> {
    let lines = joined(rt.alloc(), TWELVE, b"0x41 L\n")?;
    let info = info_with(&rt, &lines, 0x41)?;
    assert!(rt;
        info == Some(CharInfo {
            bits: 131_072,
            head: 17
        }),
        "the 18th category"
    );
    Ok(())
}

/// The categories of the sample.
#[rattlefmt::skip]
static CATEGORIES: [Named; 6] = [
    ("DEFAULT", false, true, 0),
    ("SPACE", false, true, 0),
    ("ALPHA", true, true, 0),
    ("KATAKANA", true, true, 2),
    ("KANJI", false, false, 2),
    ("HIRAGANA", false, true, 2),
];

/// Checks the sample's categories.
fn expect_categories(rt: &impl Abort, table: &CharTable) {
    assert_eq!(rt; table.count(), CATEGORIES.len());
    for (i, expected) in CATEGORIES.iter().enumerate() {
        assert!(rt; is_category(table, i, expected), "{i}");
    }
}

#[test]
fn categories(rt: HostRuntime) -> Result<(), Fail> {
    expect_categories(&rt, &chars_with(&rt, b"")?);
    expect_categories(&rt, &chars_of(&rt, &commented(rt.alloc())?)??);
    Ok(())
}

// The categories of a character, by the names that its line lists. The first name is the head.
const DEFAULT: CharInfo = CharInfo { bits: 1, head: 0 };

const SPACE: CharInfo = CharInfo { bits: 2, head: 1 };

const ALPHA: CharInfo = CharInfo { bits: 4, head: 2 };

const KATAKANA: CharInfo = CharInfo { bits: 8, head: 3 };

const KANJI: CharInfo = CharInfo { bits: 16, head: 4 };

const SYMBOL: CharInfo = CharInfo { bits: 64, head: 6 };

const KANJI_ALPHA: CharInfo = CharInfo { bits: 20, head: 4 };

const KATAKANA_HIRAGANA: CharInfo = CharInfo { bits: 40, head: 3 };

const HIRAGANA_KATAKANA: CharInfo = CharInfo { bits: 40, head: 5 };

/// Code points and their categories.
#[rattlefmt::skip]
static CODE_POINTS: [(&str, &[u8], u32, CharInfo); 24] = [
    // (what, further lines, code point, its categories)
    ("a comment alone", b"# 0x41 KANJI", 0x41, ALPHA),
    ("blanks before a comment", b" \t# KANJI 9", 0x41, ALPHA),
    ("leading zeros", b"0x00000000000041 KANJI", 0x41, KANJI),
    ("a range and a comment", b"0x100..0x1fF KANJI # ideographs", 0x1FF, KANJI),
    ("a name twice", b"0x10ffff KANJI ALPHA KANJI", 0x10FFFF, KANJI_ALPHA),
    ("defined after", b"0x3007 SYMBOL\nSYMBOL 0 0 0", 0x3007, SYMBOL),
    ("the last code point of the plane", b"0xFFFF KANJI", 0xFFFF, KANJI),
    ("not mapped", b"", 0x20BB7, DEFAULT),
    ("a surrogate", b"", 0xD800, DEFAULT),
    ("the first code point", b"0x0000 KANJI", 0, KANJI),
    ("not the entry of U+0000", b"0x0000 KANJI", 0x20BB7, DEFAULT),
    ("mapped", b"0x20000..0x2A6DF KANJI", 0x20BB7, KANJI),
    ("the low end", b"0x20000..0x2A6DF KANJI", 0x20000, KANJI),
    ("the high end", b"0x20000..0x2A6DF KANJI", 0x2A6DF, KANJI),
    ("after the high end", b"0x20000..0x2A6DF KANJI", 0x2A6E0, DEFAULT),
    ("before the low end", b"0x20000..0x2A6DF KANJI", 0x1FFFF, DEFAULT),
    ("the last code point", b"0x10FFFF KANJI", 0x10FFFF, KANJI),
    ("two categories", b"0x30FC KATAKANA HIRAGANA", 0x30FC, KATAKANA_HIRAGANA),
    ("the other order", b"0x30FC HIRAGANA KATAKANA HIRAGANA", 0x30FC, HIRAGANA_KATAKANA),
    ("next to a later mapping", b"0x30FC KATAKANA HIRAGANA", 0x30FD, KATAKANA),
    ("the last of two", b"0x41..0x43 KANJI\n0x42 SPACE", 0x42, SPACE),
    ("next to the last of two", b"0x41..0x43 KANJI\n0x42 SPACE", 0x43, KANJI),
    ("after both", b"0x41..0x43 KANJI\n0x42 SPACE", 0x44, ALPHA),
    ("the last of three", b"0x41 KANJI\n0x40..0x50 SPACE\n0x41..0x42 DEFAULT", 0x41, DEFAULT),
];

#[test]
fn categories_of_code_points(rt: HostRuntime) -> Result<(), Fail> {
    for (what, further, code, expected) in &CODE_POINTS {
        assert!(rt;
            info_with(&rt, further, *code)? == Some(*expected),
            "{what}"
        );
    }
    Ok(())
}
