//! Best paths over sources, with their total costs.

use super::sample_paths::{expect_sums, path_in, path_over, sums_of};
use crate::tests::dicts::{Changes, asymmetric, sample_with};
use dict_image::Dict;
use lattice::{Lattice, Path};
use mj_model::{SENTENCE_MAX, sample};
use std::alloc::Global;
use std::process::Abort;
use std::test::Fail;
use test_support::samples::{letters, overlay, system_dict};

/// Returns the best path of `text` with the limit `grouping`, or `None` if either is too large.
fn path_of(alloc: Global, dict: &Dict, grouping: u16, text: &str) -> Result<Option<Path>, Fail> {
    if grouping > 1000 {
        return Ok(None);
    }
    let dictionaries = overlay(dict, &[])?.with_grouping(grouping);
    Ok(path_over(alloc, &dictionaries, text)?)
}

/// Returns whether `surfaces` are the surfaces of the words of `path`.
fn has_surfaces(path: &Option<Path>, text: &str, surfaces: &[&str]) -> bool {
    let Some(path) = path else {
        return false;
    };
    let mut all = path.words.len() == surfaces.len();
    for (word, surface) in path.words.iter().zip(surfaces.iter()) {
        all = all && text.get(word.start..word.end) == Some(*surface);
    }
    all
}

/// A grouping limit, a text, and the total cost and the surfaces of its best path.
type GroupingRow<'a> = (u16, &'a str, i64, &'a [&'a str]);

/// Checks the best path of a text.
fn expect_path(
    rt: &(impl Abort + Alloc<A = Global>),
    what: &str,
    dict: &Dict,
    (grouping, text, total, surfaces): GroupingRow<'_>,
) -> Result<(), Fail> {
    let path = path_of(rt.alloc(), dict, grouping, text)?;
    assert_eq!(rt; sums_of(&path), Some((total, surfaces.len())), "{what}");
    assert!(rt; has_surfaces(&path, text, surfaces), "{what}");
    Ok(())
}

/// A label, the changes of the sample's dictionary, a text, and the total cost and the surfaces of
/// its best path.
type PathRow<'a> = (&'a str, Changes<'a>, &'a str, i64, &'a [&'a str]);

const TIE: Option<&str> = Some("a,1,1,10,X\nb,1,1,10,X\nab,1,1,27,X\n");

const WITH_BLANK: Option<&str> = Some("すもも,1,1,100,X\nも,1,1,20,X\nもも,1,1,30,X\nも ,1,1,500,Z\n");

#[rattlefmt::skip]
static BEST_PATHS: [PathRow<'static>; 12] = [
    // (what, (a line of char.def, a lexicon in place of the sample's), text, total cost, surfaces)
    ("sumomo", ("", None), "すもももも", 152, &["すもも", "もも"]),
    ("only_blanks", ("", None), "   ", 0, &[]),
    ("tie_later_place", ("", TIE), "ab", 42, &["a", "b"]),
    ("tokyo_tie", ("", None), "東京都", 2022, &["東京", "都"]),
    ("katakana_group_and_length", ("", None), "アイ", 1015, &["アイ"]),
    ("chain_over_prolonged_mark", ("0x30FC KATAKANA HIRAGANA\n", None), "アーす", 1015, &["アーす"]),
    ("ends_later", ("", WITH_BLANK), "も ", 515, &["も "]),
    ("beyond_the_basic_plane", ("", None), "𠮷野", 2022, &["𠮷", "野"]),
    ("U+0000 is itself alone", ("0x0000 KANJI\n", None), "𠮷野", 2022, &["𠮷", "野"]),
    ("mapped beyond the basic plane", ("0x20000..0x2A6DF KANJI\n", None), "𠮷野", 1015, &["𠮷野"]),
    ("U+FFFF may be mapped", ("0xFFFF KANJI\n", None), "も", 35, &["も"]),
    ("empty_lexicon", ("", Some("")), "も", 1015, &["も"]),
];

#[test]
fn best_paths(rt: HostRuntime) -> Result<(), Fail> {
    for (what, changes, text, total, surfaces) in &BEST_PATHS {
        let dict = sample_with(rt.alloc(), *changes)?;
        expect_path(&rt, what, &dict, (24, text, *total, surfaces))?;
    }
    Ok(())
}

/// Checks the best path of `count` letters: its total cost and the number of its words.
fn expect_letters(
    rt: &(impl Abort + Alloc<A = Global>),
    dict: &Dict,
    grouping: u16,
    (count, total, words): (usize, i64, usize),
) -> Result<(), Fail> {
    let text = letters(rt.alloc(), count)?;
    let path = path_of(rt.alloc(), dict, grouping, text.as_str())?;
    expect_sums(rt, &path, total, words);
    Ok(())
}

const LETTERS_25: &str = "zzzzzzzzzzzzzzzzzzzzzzzzz";

const LETTERS_26: &str = "zzzzzzzzzzzzzzzzzzzzzzzzzz";

const LETTERS_27: &str = "zzzzzzzzzzzzzzzzzzzzzzzzzzz";

#[rattlefmt::skip]
static GROUPING_LIMIT: [GroupingRow<'static>; 8] = [
    // (grouping limit, text, total cost, surfaces)
    (24, LETTERS_25, 1015, &[LETTERS_25]),
    (24, LETTERS_26, 2022, &["z", LETTERS_25]),
    (25, LETTERS_26, 1015, &[LETTERS_26]),
    (25, LETTERS_27, 2022, &["z", LETTERS_26]),
    (0, "z", 1015, &["z"]),
    (0, "zz", 2022, &["z", "z"]),
    (0, "アイ", 2022, &["ア", "イ"]),
    (1000, LETTERS_27, 1015, &[LETTERS_27]),
];

#[test]
fn grouping_limit(rt: HostRuntime) -> Result<(), Fail> {
    let dict = system_dict(rt.alloc(), &sample())?;
    for row in &GROUPING_LIMIT {
        expect_path(&rt, row.1, &dict, *row)?;
    }
    // The greatest grouping limit groups 1,001 letters into one word.
    expect_letters(&rt, &dict, 1000, (1001, 1015, 1))
}

static ASYMMETRIC: GroupingRow<'static> = (24, "も", 129, &["も"]);

#[test]
fn asymmetric_matrix(rt: HostRuntime) -> Result<(), Fail> {
    let dict = asymmetric(rt.alloc())?;
    expect_path(&rt, "も", &dict, ASYMMETRIC)
}

static LONGEST_LINE: [(usize, i64, usize); 3] = [
    // (bytes, total cost, words)
    (65_535, 65_969_585, 65_511),
    (65_536, 65_970_592, 65_512),
    (SENTENCE_MAX, 1_055_891_872, 1_048_552),
];

#[test]
fn longest_line(rt: HostRuntime) -> Result<(), Fail> {
    let dict = system_dict(rt.alloc(), &sample())?;
    for row in &LONGEST_LINE {
        expect_letters(&rt, &dict, 24, *row)?;
    }
    Ok(())
}

/// Checks the best path that `lattice` finds.
fn expect_best(
    rt: &impl Abort,
    lattice: &mut Lattice,
    dict: &Dict,
    (text, total, words): (&str, i64, usize),
) -> Result<(), Fail> {
    let dictionaries = overlay(dict, &[])?;
    let path = path_in(lattice, &dictionaries, text)?;
    expect_sums(rt, &path, total, words);
    Ok(())
}

/// Checks the best path that `lattice` finds for a long text.
fn expect_long(
    rt: &(impl Abort + Alloc<A = Global>),
    lattice: &mut Lattice,
    dict: &Dict,
) -> Result<(), Fail> {
    let long = letters(rt.alloc(), 65_535)?;
    let row = (long.as_str(), 65_969_585, 65_511);
    expect_best(rt, lattice, dict, row)
}

static SHORTER_LINES: [(&str, i64, usize); 2] = [
    // (text, total cost, words)
    ("すもももも", 152, 2),
    ("", 0, 0),
];

#[test]
fn one_lattice(rt: HostRuntime) -> Result<(), Fail> {
    let dict = system_dict(rt.alloc(), &sample())?;
    let mut lattice = Lattice::new(rt.alloc());
    expect_long(&rt, &mut lattice, &dict)?;
    for row in &SHORTER_LINES {
        expect_best(&rt, &mut lattice, &dict, *row)?;
    }
    Ok(())
}
