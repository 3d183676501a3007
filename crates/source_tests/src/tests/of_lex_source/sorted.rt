//! Entries of several lexicons, sorted by surface.
use lex_source::{SortedLexicon, SourceLexicon};
use mj_model::SourceKind::{self, BadNumber, IdOutside, TooFewFields};
use mj_model::{MatrixSizes, SourceFault};
use std::alloc::{AllocError, Global};
use std::test::Fail;

/// The sizes of a connection matrix with three right ids and two left ids.
const SIZES: MatrixSizes = MatrixSizes { right: 3, left: 2 };

/// Pairs of lexicons.
#[rattlefmt::skip]
static SORTED: [(&str, [&str; 2], &str); 7] = [
    // (what, two lexicons, the features in the order of the surfaces)
    ("no lines",                      ["",                          ""],              ""),
    ("bytes, not letters",            ["b,0,0,1,x\nB,0,0,1,y\n",    "あ,0,0,1,z\n"], "yxz"),
    ("one surface",                   ["a,1,2,9,x\na,0,0,1,y\n",    "a,0,0,5,z\n"],  "xyz"),
    ("a surface that starts another", ["ab,0,0,1,x\nabc,0,0,1,y\n", "a,0,0,1,z\n"],  "zxy"),
    ("7, 8 and 9 bytes", ["abcdefghi,0,0,1,x\nabcdefgh,0,0,1,y\n",  "abcdefg,0,0,1,z\n"],  "zyx"),
    ("equal up to byte 8", ["abcdefghz,0,0,1,x\nabcdefgha,0,0,1,y\n", "abcdefgz,0,0,1,z\n"], "yxz"),
    ("U+0000 at the end", ["a\0,0,0,1,x\na\0\0,0,0,1,y\n",       "a,0,0,1,z\n"],  "zxy"),
];

/// Adds the lexicon `bytes`, which has the source number `number`.
pub fn add<'a>(
    alloc: Global,
    lexicon: &mut SourceLexicon<'a>,
    number: u32,
    bytes: &'a [u8],
) -> Result<u64, SourceFault> {
    lexicon.add(alloc, bytes, number)
}

/// Returns the entries of two lexicons.
fn joined<'a>(alloc: Global, lexicons: &[&'a str; 2]) -> Result<SourceLexicon<'a>, SourceFault> {
    let [first, second] = lexicons;
    let mut lexicon = SourceLexicon::new(alloc, SIZES);
    add(alloc, &mut lexicon, 3, first.as_bytes())?;
    add(alloc, &mut lexicon, 4, second.as_bytes())?;
    Ok(lexicon)
}

/// Returns the features of the sorted entries, concatenated.
fn features_of(alloc: Global, sorted: &SortedLexicon<'_>) -> Result<Vec<u8>, AllocError> {
    let mut features = Vec::new(alloc);
    for entry in sorted.records() {
        features.extend_from_slice(entry.entry.feature.as_bytes())?;
    }
    Ok(features)
}

/// Returns whether the sorted entries of two lexicons have the features `expected`, of one letter
/// each.
fn are_sorted(alloc: Global, lexicons: &[&str; 2], expected: &str) -> Result<bool, Fail> {
    let lexicon = joined(alloc, lexicons)?;
    let count = lexicon.len();
    let sorted = lexicon.sorted()?;
    let same = features_of(alloc, &sorted)?.as_slice() == expected.as_bytes();
    Ok(same && count == expected.len() && sorted.sizes() == SIZES)
}

#[test]
fn sorted_lexicons(rt: HostRuntime) -> Result<(), Fail> {
    for (what, lexicons, expected) in &SORTED {
        assert!(rt; are_sorted(rt.alloc(), lexicons, expected)?, "{what}");
    }
    Ok(())
}

/// Lexicons that are rejected when they are added to another one.
#[rattlefmt::skip]
static REJECTED: [(&str, &str, u64, SourceKind); 4] = [
    // (what, a lexicon, the line, the kind of the error)
    ("a left id outside",     "b,0,0,1,y\nc,2,0,1,z\n", 2, IdOutside),
    ("a right id outside",    "b,0,3,1,y\n",            1, IdOutside),
    ("a bad line after one",  "b,0,0,1,y\nc,0,0,1\n",   2, TooFewFields),
    ("a line before its ids", "b,9,9,1,y\nc,0,0,x,z\n", 2, BadNumber),
];

#[test]
fn invalid_lexicons_add_nothing(rt: HostRuntime) -> Result<(), Fail> {
    let mut lexicon = SourceLexicon::new(rt.alloc(), SIZES);
    add(rt.alloc(), &mut lexicon, 3, b"a,0,0,1,x\n")?;
    for (what, bytes, line, kind) in &REJECTED {
        let fault = add(rt.alloc(), &mut lexicon, 4, bytes.as_bytes()).err();
        assert!(rt; fault == Some(kind.at(4, *line)), "{what}");
        assert!(rt; lexicon.len() == 1, "{what}");
    }
    Ok(())
}
