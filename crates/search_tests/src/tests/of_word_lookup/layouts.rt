//! Words over dictionaries loaded from images of layouts 1, 2 and 3. They are the same.

use super::expected_words::Expected::{self, Known, Unknown};
use super::expected_words::has_words;
use std::alloc::Global;
use std::process::Abort;
use std::test::Fail;
use test_support::samples::system_in;

/// Two words, and a word of both letters with the same total cost.
const TIE: &str = "a,1,1,10,X\nb,1,1,10,X\nab,1,1,27,X\n";

/// A surface with two entries.
const TWICE: &str = "a,1,1,10,X\na,1,1,10,Y\n";

/// A lexicon, its surfaces, a text, and the words at its start.
type Row<'a> = (&'a str, &'a [&'a str], &'a str, &'a [Expected]);

#[rattlefmt::skip]
static WORDS_OF_FURTHER_LEXICONS: [Row<'static>; 2] = [
    // (lexicon, surfaces, text, words at its start)
    (TIE, &["a", "ab", "b"], "ab", &[Known(0, 1, 10, "X"), Known(0, 2, 27, "X"), Unknown(0, 2)]),
    (TWICE, &["a"], "a", &[Known(0, 1, 10, "X"), Known(0, 1, 10, "Y"), Unknown(0, 1)]),
];

/// Checks the words over the dictionaries of lexicons in layout `layout`.
fn expect_words(
    rt: &(impl Abort + Alloc<A = Global>),
    layout: u32,
    rows: &[Row<'_>],
) -> Result<(), Fail> {
    for (lexicon, surfaces, text, expected) in rows {
        let dict = system_in(rt.alloc(), layout, "", &[lexicon.as_bytes()], surfaces)?;
        let same = has_words(rt.alloc(), (&dict, &[]), text, 0, expected)?;
        assert!(rt; same, "{text}, layout {layout}");
    }
    Ok(())
}

#[test]
fn words_of_further_lexicons(rt: HostRuntime) -> Result<(), Fail> {
    for layout in 1..=3 {
        expect_words(&rt, layout, &WORDS_OF_FURTHER_LEXICONS)?;
    }
    Ok(())
}
