//! Which entries match a part of speech, and the table of their context ids.

use dict_image::EntryRef;
use dictc_lib::{Template, rows_of_pairs, text_of};
use std::alloc::{AllocError, Global};
use std::test::Fail;

/// The names of the columns.
const HEADING: &str =
    "left\tright\tentries\tleast\tlower_quartile\tmedian\tupper_quartile\tgreatest\n";

/// Entries: (left id, right id, cost, feature).
#[rattlefmt::skip]
static ENTRIES: [(u16, u16, i16, &str); 10] = [
    (5, 6, 40, "名詞,一般,a"),
    (5, 6, -10, "名詞,一般,b"),
    (5, 6, 30, "名詞,一般"),
    (5, 6, 20, "名詞,一般"),
    (5, 6, 50, "名詞,一般"),
    (3, 9, 7, "名詞,固有名詞"),
    (3, 8, 7, "\"名詞\", 固有名詞"),
    (2, 9, 7, "動詞,自立"),
    (2, 9, 9, "名詞"),
    (1, 1, 0, "*,一般"),
];

/// Returns how many of the entries match the template `text`.
fn count_of_fitting(alloc: Global, text: &str) -> Result<usize, Fail> {
    let template = Template::of(alloc, text)?;
    let mut room = Vec::new(alloc);
    let mut count = 0_usize;
    for (_left, _right, _cost, feature) in &ENTRIES {
        if template.fits(feature, &mut room)? {
            count = count.saturating_add(1);
        }
    }
    Ok(count)
}

#[rattlefmt::skip]
static ENTRIES_THAT_FIT: [(&str, usize); 11] = [
    // (a template, how many entries match)
    ("名詞",          8),
    ("名詞,一般",     5),
    ("名詞,一般,a",   1),
    ("\"名詞\",一般", 5),
    ("*,一般",        6),
    (",一般",         6),
    ("",              10),
    ("*",             10),
    ("名詞,*,*,*",    8),
    ("名詞,一般,*,b", 0),
    ("名",            0),
];

#[test]
fn entries_that_fit(rt: HostRuntime) -> Result<(), Fail> {
    for (text, wanted) in &ENTRIES_THAT_FIT {
        assert!(rt; count_of_fitting(rt.alloc(), text)? == *wanted, "{text}");
    }
    Ok(())
}

/// Returns the entries. Their tokens are their indices.
fn entries(alloc: Global) -> Result<Vec<EntryRef<'static>>, AllocError> {
    let mut entries = Vec::new(alloc);
    for (token, (left, right, cost, feature)) in ENTRIES.iter().enumerate() {
        let (left, right, cost, token) = (*left, *right, *cost, token as u32);
        let feature = *feature;
        entries.push(EntryRef {
            left,
            right,
            cost,
            feature,
            token,
        })?;
    }
    Ok(entries)
}

#[rattlefmt::skip]
static LINES_OF_PAIRS: [(&str, &str); 3] = [
    // (a template, lines)
    ("名詞",
        "5\t6\t5\t-10\t20\t30\t40\t50\n2\t9\t1\t9\t9\t9\t9\t9\n3\t8\t1\t7\t7\t7\t7\t7\n3\t9\t1\t7\t7\t7\t7\t7\n"),
    ("*,一般", "5\t6\t5\t-10\t20\t30\t40\t50\n1\t1\t1\t0\t0\t0\t0\t0\n"),
    ("助詞", ""),
];

/// Returns whether the table of the entries that match the template `text` has `lines` after its
/// heading.
fn has_lines(
    alloc: Global,
    entries: &[EntryRef<'_>],
    text: &str,
    lines: &str,
) -> Result<bool, Fail> {
    let template = Template::of(alloc, text)?;
    let rows = rows_of_pairs(alloc, &template, entries)?;
    Ok(text_of(alloc, &rows)?.as_str().strip_prefix(HEADING) == Some(lines))
}

#[test]
fn lines_of_pairs(rt: HostRuntime) -> Result<(), Fail> {
    let entries = entries(rt.alloc())?;
    for (text, lines) in &LINES_OF_PAIRS {
        let has_lines = has_lines(rt.alloc(), &entries, text, lines)?;
        assert!(rt; has_lines, "{text}");
    }
    Ok(())
}
