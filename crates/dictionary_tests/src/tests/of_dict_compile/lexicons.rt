//! Compiled system dictionaries.
use crate::tests::samples::{
    Expected, NONE, are_entries, compiled_of, dict_of, sample_dict, with_lexicons,
};
use dict_image::{Dict, Entries};
use mj_model::{MatrixSizes, Sources, sample};
use std::alloc::Global;
use std::process::Abort;
use std::test::Fail;

/// Keys of the sample and their entries.
#[rattlefmt::skip]
static SUMOMO: [(&str, &[Expected]); 8] = [
    // (key, entries)
    ("すもも", &[(0, 1, 1, 100, "名詞,すもも")]),
    ("も", &[(1, 1, 1, 20, "助詞,も")]),
    ("もも", &[(2, 1, 1, 30, "名詞,もも")]),
    ("", NONE),
    ("す", NONE),
    ("すも", NONE),
    ("ももも", NONE),
    ("x", NONE),
];

/// The number of entries, the number of skipped lines, and whether a key has the expected entries.
type Outcome = (u64, u128, bool);

/// Returns whether the dictionary of `image` has `entries` at `key`.
fn has_entries(
    alloc: Global,
    image: Vec<u8>,
    key: &str,
    entries: &[Expected],
) -> Result<bool, Fail> {
    Ok(are_entries(&dict_of(alloc, image)?, key, entries))
}

/// Compiles `sources` and looks up `key`, which should have `entries`.
fn outcome_of(
    alloc: Global,
    sources: &Sources<'_>,
    key: &str,
    entries: &[Expected],
) -> Result<Outcome, Fail> {
    let compiled = compiled_of(alloc, sources)?;
    let (count, skipped) = (compiled.entries, compiled.skipped);
    let has_entries = has_entries(alloc, compiled.image, key, entries)?;
    Ok((count, skipped, has_entries))
}

/// Returns whether `dict` is a system dictionary with the sample's sizes.
fn is_system(dict: &Dict) -> bool {
    !dict.is_user() && dict.matrix_sizes() == MatrixSizes { right: 2, left: 2 }
}

/// Checks the entries of the sample's keys.
fn expect_sumomo(rt: &impl Abort, dict: &Dict) {
    assert!(rt; is_system(dict));
    for (key, entries) in &SUMOMO {
        assert!(rt; are_entries(dict, key, entries), "{key}");
    }
}

/// Returns whether the sample has three entries and no skipped line.
fn are_three(alloc: Global) -> Result<bool, Fail> {
    let compiled = compiled_of(alloc, &sample())?;
    Ok((compiled.entries, compiled.skipped) == (3, 0))
}

#[test]
fn sumomo(rt: HostRuntime) -> Result<(), Fail> {
    assert!(rt; are_three(rt.alloc())?);
    expect_sumomo(&rt, &sample_dict(rt.alloc())?);
    Ok(())
}

/// A surface that is a prefix of a text: its length in bytes, and the feature of its first entry.
type Prefix = (usize, &'static str);

/// Returns whether the next entry has the feature `feature`.
fn is_next(entries: &mut Entries<'_>, feature: &str) -> bool {
    match entries.next() {
        Some(entry) => entry.feature == feature,
        None => false,
    }
}

/// Returns whether `expected` are the surfaces that are prefixes of `text`.
fn are_prefixes(dict: &Dict, text: &str, expected: &[Prefix]) -> bool {
    let mut prefixes = dict.prefixes(text);
    for (length, feature) in expected {
        let Some((found, mut entries)) = prefixes.next() else {
            return false;
        };
        if found != *length || !is_next(&mut entries, feature) {
            return false;
        }
    }
    prefixes.next().is_none()
}

/// Texts, and the surfaces that are prefixes of them.
#[rattlefmt::skip]
static TEXTS: [(&str, &[Prefix]); 5] = [
    // (text, its prefixes)
    ("すもももも", &[(9, "名詞,すもも")]),
    ("もももも", &[(3, "助詞,も"), (6, "名詞,もも")]),
    ("もす", &[(3, "助詞,も")]),
    ("す", &[]),
    ("", &[]),
];

/// Checks the prefixes of the texts.
fn expect_prefixes(rt: &impl Abort, dict: &Dict) {
    for (text, expected) in &TEXTS {
        assert!(rt; are_prefixes(dict, text, expected), "{text}");
    }
}

#[test]
fn surfaces_that_start_a_text(rt: HostRuntime) -> Result<(), Fail> {
    expect_prefixes(&rt, &sample_dict(rt.alloc())?);
    Ok(())
}

/// Pairs of lexicons, and their dictionaries.
#[rattlefmt::skip]
static TWO_LEXICONS: [(&str, &str, &str, u64, u128, &str, &[Expected]); 11] = [
    // (what, the two lexicons, number of entries, number of skipped lines, a key, its entries)
    ("same_surface_twice", "a,1,1,10,X\na,1,1,10,Y\n", "", 2, 0, "a",
        &[(0, 1, 1, 10, "X"), (1, 1, 1, 10, "Y")]),
    ("features in falling order", "a,1,1,10,Y\nb,1,1,10,Z\na,1,1,10,X\n", "", 3, 0, "a",
        &[(0, 1, 1, 10, "Y"), (1, 1, 1, 10, "X")]),
    ("one surface in each", "b,1,1,9,Z\na,0,1,30,Y\n", "a,1,0,-5,X\n", 3, 0, "a",
        &[(0, 0, 1, 30, "Y"), (1, 1, 0, -5, "X")]),
    ("lexicon_lines", "\n,1,1,5,X\nも,1,1,20,Y\r\n", "", 1, 1, "も", &[(0, 1, 1, 20, "Y")]),
    ("skipped lines in both", ",1,1,5,X\n,9,9,5,X\na,1,1,10,X\n", "b,1,1,10,Y\n,1,1,5,X\n", 2, 3,
        "b", &[(1, 1, 1, 10, "Y")]),
    ("skipped lines alone", ",1,1,5,X\n", ",1,1,5,X\n", 0, 2, "", NONE),
    ("empty_lexicon", "", "", 0, 0, "も", NONE),
    ("blank lines", "\n\r\n", "\n", 0, 0, "も", NONE),
    ("quoted_fields", "\"a,b\",1,1,10,X\n\"a\"\"b\",1,1,10,Y\n", "", 2, 0, "a,b",
        &[(1, 1, 1, 10, "X")]),
    ("least and greatest cost", "a,1,1,-32768,X\na,1,1,32767,X\n", "", 2, 0, "a",
        &[(0, 1, 1, -32768, "X"), (1, 1, 1, 32767, "X")]),
    ("beyond the basic plane", "𠮷,1,1,10,X\nも,1,1,20,Y\n", "", 2, 0, "𠮷", &[(1, 1, 1, 10, "X")]),
];

/// Compiles two lexicons and looks up `key`, which should have `entries`.
fn outcome_of_two(
    alloc: Global,
    first: &str,
    second: &str,
    key: &str,
    entries: &[Expected],
) -> Result<Outcome, Fail> {
    let lexicons = [first.as_bytes(), second.as_bytes()];
    outcome_of(alloc, &with_lexicons(&lexicons), key, entries)
}

#[test]
fn two_lexicons(rt: HostRuntime) -> Result<(), Fail> {
    for (what, first, second, count, skipped, key, entries) in &TWO_LEXICONS {
        let found = outcome_of_two(rt.alloc(), first, second, key, entries)?;
        assert!(rt; found == (*count, *skipped, true), "{what}");
    }
    Ok(())
}

/// Returns whether the dictionary of no lexicons has no entry, and finds no prefix of `text`.
fn is_empty(alloc: Global, text: &str) -> Result<bool, Fail> {
    let compiled = compiled_of(alloc, &with_lexicons(&[]))?;
    let counted = (compiled.entries, compiled.skipped) == (0, 0);
    let dict = dict_of(alloc, compiled.image)?;
    Ok(counted && are_entries(&dict, text, NONE) && are_prefixes(&dict, text, &[]))
}

#[test]
fn no_lexicon(rt: HostRuntime) -> Result<(), Fail> {
    assert!(rt; is_empty(rt.alloc(), "も")?);
    Ok(())
}

/// Connection matrices.
#[rattlefmt::skip]
static COSTS: [(&str, &str, u32, u32, &[u8]); 3] = [
    // (what, matrix.def, right ids, left ids, the costs by right id, then by left id)
    ("asymmetric_matrix", "2 3\n0 2 100\n1 0 9\n", 2, 3, b"\0\0\0\0\x64\0\x09\0\0\0\0\0"),
    ("negative cost", "2 2\n0 0 -434\n", 2, 2, b"\x4e\xfe\0\0\0\0\0\0"),
    ("a pair twice", "2 2\n0 1 3\n0 1 4\n", 2, 2, b"\0\0\x04\0\0\0\0\0"),
];

/// Returns whether `dict` has the sizes `sizes` and the entry of its only surface.
fn has_sizes(dict: &Dict, sizes: MatrixSizes) -> bool {
    dict.matrix_sizes() == sizes && are_entries(dict, "も", &[(0, 1, 1, 20, "X")])
}

/// Returns whether the dictionary of `matrix` has these sizes and costs, and the entry of its only
/// surface.
fn has_costs(alloc: Global, matrix: &str, sizes: MatrixSizes, costs: &[u8]) -> Result<bool, Fail> {
    let lexicons = ["も,1,1,20,X\n".as_bytes()];
    let sources = Sources {
        matrix: matrix.as_bytes(),
        ..with_lexicons(&lexicons)
    };
    let image = compiled_of(alloc, &sources)?.image;
    let has_start = image.get(104..).unwrap_or(b"").starts_with(costs);
    Ok(has_start && has_sizes(&dict_of(alloc, image)?, sizes))
}

#[test]
fn connection_costs(rt: HostRuntime) -> Result<(), Fail> {
    for (what, matrix, right, left, costs) in &COSTS {
        let sizes = MatrixSizes {
            right: *right,
            left: *left,
        };
        assert!(rt; has_costs(rt.alloc(), matrix, sizes, costs)?, "{what}");
    }
    Ok(())
}
