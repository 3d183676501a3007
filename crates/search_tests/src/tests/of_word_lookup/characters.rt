//! Blanks and categories.

use super::expected_words::is_at;
use crate::tests::dicts::sample_with;
use std::alloc::Global;
use std::test::Fail;
use test_support::samples::overlay;

/// Returns the position after the blanks at `place`, over the sample's dictionary with `line`
/// appended to `char.def`.
fn end_of_blanks(
    alloc: Global,
    line: &str,
    text: &str,
    place: usize,
) -> Result<Option<usize>, Fail> {
    let system = sample_with(alloc, (line, None))?;
    let dictionaries = overlay(&system, &[])?;
    if is_at(text, place) {
        Ok(Some(dictionaries.blanks(text, place)))
    } else {
        Ok(None)
    }
}

#[rattlefmt::skip]
static BLANKS: [(&str, &str, &str, usize, usize); 7] = [
    // (what, a further line of char.def, text, position, position after the blanks)
    ("no blank", "", "も", 0, 0),
    ("one blank", "", " すもも  もも ", 0, 1),
    ("two blanks", "", " すもも  もも ", 10, 12),
    ("a blank at the end", "", " すもも  もも ", 18, 19),
    ("only_blanks", "", "   ", 0, 3),
    ("a wide blank", "0x3000 SPACE\n", "\u{3000}も", 0, 3),
    ("on over a letter", "0x0009 SPACE ALPHA\n", "\tzも", 0, 2),
];

#[test]
fn blanks(rt: HostRuntime) -> Result<(), Fail> {
    for (what, line, text, place, following) in &BLANKS {
        let found = end_of_blanks(rt.alloc(), line, text, *place)?;
        assert_eq!(rt; found, Some(*following), "{what}");
    }
    Ok(())
}

/// Returns the categories of `c`, and the first of them.
fn categories_of(alloc: Global, line: &str, c: char) -> Result<(u32, u8), Fail> {
    let system = sample_with(alloc, (line, None))?;
    let info = overlay(&system, &[])?.info(c);
    Ok((info.bits, info.first()))
}

#[rattlefmt::skip]
static CATEGORIES: [(&str, &str, char, (u32, u8)); 5] = [
    // (what, a further line of char.def, character, (set of categories, first one))
    ("a letter", "", 'z', (4, 2)),
    ("a blank", "", ' ', (2, 1)),
    ("two categories", "0x30FC KATAKANA HIRAGANA\n", 'ー', (40, 3)),
    ("not mapped", "", '𠮷', (1, 0)),
    ("mapped", "0x20000..0x2A6DF KANJI\n", '𠮷', (16, 4)),
];

#[test]
fn categories(rt: HostRuntime) -> Result<(), Fail> {
    for (what, line, c, categories) in &CATEGORIES {
        let found = categories_of(rt.alloc(), line, *c)?;
        assert_eq!(rt; found, *categories, "{what}");
    }
    Ok(())
}
