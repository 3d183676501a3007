//! Words at a position.

use super::expected_words::Expected::{self, Known, Unknown};
use super::expected_words::{are_words, has_words};
use crate::tests::dicts::{Changes, sample_with};
use dict_image::Dict;
use std::alloc::Global;
use std::process::Abort;
use std::test::Fail;
use test_support::samples::{letters, overlay};

/// A label, the changes of the sample's dictionary, a text, a position, and the words there.
type Row<'a> = (&'a str, Changes<'a>, &'a str, usize, &'a [Expected]);

fn expect_words(rt: &(impl Abort + Alloc<A = Global>), rows: &[Row<'_>]) -> Result<(), Fail> {
    for (what, changes, text, place, expected) in rows {
        let dict = sample_with(rt.alloc(), *changes)?;
        let holds = has_words(rt.alloc(), (&dict, &[]), text, *place, expected)?;
        assert!(rt; holds, "{what}");
    }
    Ok(())
}

const MARK: &str = "0x30FC KATAKANA HIRAGANA\n";

const KANJI: &str = "0x20000..0x2A6DF KANJI\n";

#[rattlefmt::skip]
static WORDS_OF_THE_SAMPLE: [Row<'static>; 9] = [
    ("sumomo", ("", None), "すもももも", 0, &[Known(0, 9, 100, "名詞,すもも")]),
    ("after す", ("", None), "すもももも", 3, &[Known(3, 6, 20, "助詞,も"), Known(3, 9, 30, "名詞,もも")]),
    ("katakana_group_and_length", ("", None), "アイ", 0, &[Unknown(0, 6), Unknown(0, 3)]),
    ("prolonged mark", (MARK, None), "アーす", 0, &[Unknown(0, 9), Unknown(0, 3), Unknown(0, 6)]),
    ("tokyo_tie", ("", None), "東京都", 0, &[Unknown(0, 3), Unknown(0, 6)]),
    ("the end of the text", ("", None), "も", 3, &[]),
    ("beyond_the_basic_plane", ("", None), "𠮷野", 0, &[Unknown(0, 4)]),
    ("not the entry of U+0000", ("0x0000 KANJI\n", None), "𠮷野", 0, &[Unknown(0, 4)]),
    ("mapped beyond the basic plane", (KANJI, None), "𠮷野", 0, &[Unknown(0, 4), Unknown(0, 7)]),
];

#[test]
fn words_of_the_sample(rt: HostRuntime) -> Result<(), Fail> {
    expect_words(&rt, &WORDS_OF_THE_SAMPLE)
}

const SPACED: &str = " すもも  もも ";

const WIDE: &str = "\u{3000}すもも\u{3000}";

const MAPPED: &str = "0x3000 SPACE\n";

#[rattlefmt::skip]
static WORDS_NEXT_TO_BLANKS: [Row<'static>; 8] = [
    ("a blank before the first word", ("", None), SPACED, 0, &[Known(1, 10, 100, "名詞,すもも")]),
    ("between", ("", None), SPACED, 10, &[Known(12, 15, 20, "助詞,も"), Known(12, 18, 30, "名詞,もも")]),
    ("a blank after the last word", ("", None), SPACED, 18, &[]),
    ("only_blanks", ("", None), "   ", 0, &[]),
    ("a wide blank", (MAPPED, None), WIDE, 0, &[Known(3, 12, 100, "名詞,すもも")]),
    ("a wide blank after", (MAPPED, None), WIDE, 12, &[]),
    ("a wide blank that is not mapped", ("", None), WIDE, 0, &[Unknown(0, 3)]),
    ("blanks over a letter", ("0x0009 SPACE ALPHA\n", None), "\tzも", 0, &[Known(2, 5, 20, "助詞,も")]),
];

#[test]
fn words_next_to_blanks(rt: HostRuntime) -> Result<(), Fail> {
    expect_words(&rt, &WORDS_NEXT_TO_BLANKS)
}

const TIE: Option<&str> = Some("a,1,1,10,X\nb,1,1,10,X\nab,1,1,27,X\n");

const TWICE: Option<&str> = Some("a,1,1,10,X\na,1,1,10,Y\n");

const BLANK: Option<&str> = Some("も,1,1,20,助詞,も\nも ,1,1,500,Z\n");

#[rattlefmt::skip]
static WORDS_OF_LEXICONS: [Row<'static>; 5] = [
    ("tie_later_place", ("", TIE), "ab", 0,
        &[Known(0, 1, 10, "X"), Known(0, 2, 27, "X"), Unknown(0, 2)]),
    ("same_surface_twice", ("", TWICE), "a", 0,
        &[Known(0, 1, 10, "X"), Known(0, 1, 10, "Y"), Unknown(0, 1)]),
    ("ends_later", ("", BLANK), "も ", 0, &[Known(0, 3, 20, "助詞,も"), Known(0, 4, 500, "Z")]),
    ("quoted_fields", ("", Some("\"a,b\",1,1,10,X\n")), "a,b", 0,
        &[Known(0, 3, 10, "X"), Unknown(0, 1)]),
    ("empty_lexicon", ("", Some("")), "も", 0, &[Unknown(0, 3)]),
];

#[test]
fn words_of_lexicons(rt: HostRuntime) -> Result<(), Fail> {
    expect_words(&rt, &WORDS_OF_LEXICONS)
}

/// A grouping limit, the number of letters of a text, a position, and the end of the only word
/// there.
type GroupedRow = (u16, usize, usize, usize);

/// Returns whether the only word at `place` is an unknown word that ends at `end`, with the limit
/// `grouping`.
fn is_grouped(
    alloc: Global,
    (dict, grouping): (&Dict, u16),
    text: &str,
    place: usize,
    end: usize,
) -> Result<bool, Fail> {
    if grouping > 1000 {
        return Ok(false);
    }
    let dictionaries = overlay(dict, &[])?.with_grouping(grouping);
    let expected = [Unknown(place, end)];
    Ok(are_words(alloc, &dictionaries, text, place, &expected)?)
}

fn expect_grouped(
    rt: &(impl Abort + Alloc<A = Global>),
    dict: &Dict,
    rows: &[GroupedRow],
) -> Result<(), Fail> {
    for (grouping, count, place, end) in rows {
        let text = letters(rt.alloc(), *count)?;
        let holds = is_grouped(rt.alloc(), (dict, *grouping), text.as_str(), *place, *end)?;
        assert!(rt; holds, "{grouping}");
    }
    Ok(())
}

#[rattlefmt::skip]
static GROUPING_LIMIT: [GroupedRow; 9] = [
    // (grouping limit, letters, position, end of the only word there)
    (24, 25, 0, 25),
    (24, 26, 0, 1),
    (24, 26, 1, 26),
    (25, 26, 0, 26),
    (25, 27, 0, 1),
    (25, 27, 1, 27),
    (0, 1, 0, 1),
    (0, 2, 0, 1),
    (1000, 1001, 0, 1001),
];

#[test]
fn grouping_limit(rt: HostRuntime) -> Result<(), Fail> {
    let dict = sample_with(rt.alloc(), ("", None))?;
    expect_grouped(&rt, &dict, &GROUPING_LIMIT)?;
    assert!(rt; is_grouped(rt.alloc(), (&dict, 0), "アイ", 0, 3)?);
    Ok(())
}
