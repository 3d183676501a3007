//! The sample's dictionary: its entries by number, its categories and their unknown entries.
use crate::tests::samples::{Expected, is_entry, sample_dict};
use dict_image::Dict;
use mj_model::Category;
use std::test::Fail;

/// Entries of the lexicon by number, which is their order by surface.
#[rattlefmt::skip]
static TOKENS: [(&str, Expected); 3] = [
    // (surface, entry)
    ("すもも", (0, 1, 1, 100, "名詞,すもも")),
    ("も",     (1, 1, 1, 20,  "助詞,も")),
    ("もも",   (2, 1, 1, 30,  "名詞,もも")),
];

/// Returns whether the lexicon has an entry of this number, which is `expected`.
fn has_token(dict: &Dict, expected: &Expected) -> bool {
    let (number, _, _, _, _) = *expected;
    number < dict.entry_count() && is_entry(&dict.token(number), expected)
}

#[test]
fn tokens(rt: HostRuntime) -> Result<(), Fail> {
    let dict = sample_dict(rt.alloc())?;
    assert_eq!(rt; dict.entry_count(), 3);
    for (surface, expected) in &TOKENS {
        assert!(rt; has_token(&dict, expected), "{surface}");
    }
    Ok(())
}

/// A category: its number, name, INVOKE, GROUP, LENGTH, and its only unknown entry.
type Row = (usize, &'static str, bool, bool, u8, Expected);

/// The categories in the order of `char.def`.
#[rattlefmt::skip]
static CATEGORIES: [Row; 6] = [
    // (number, name, INVOKE, GROUP, LENGTH, unknown entry)
    (0, "DEFAULT",  false, true,  0, (3, 1, 1, 1000, "未知")),
    (1, "SPACE",    false, true,  0, (4, 1, 1, 1000, "未知")),
    (2, "ALPHA",    true,  true,  0, (5, 1, 1, 1000, "未知")),
    (3, "KATAKANA", true,  true,  2, (6, 1, 1, 1000, "未知")),
    (4, "KANJI",    false, false, 2, (7, 1, 1, 1000, "未知")),
    (5, "HIRAGANA", false, true,  2, (8, 1, 1, 1000, "未知")),
];

/// Returns whether `expected` is the only unknown entry of category `number`, which must exist.
fn has_unknown(dict: &Dict, number: usize, expected: &Expected) -> bool {
    if dict.category_count() <= number {
        return false;
    }
    let mut entries = dict.unknown(number);
    let is_first = match entries.next() {
        Some(found) => is_entry(&found, expected),
        None => false,
    };
    is_first && entries.next().is_none()
}

/// Returns whether the dictionary has the category of this number, with this name and settings.
fn has_category(dict: &Dict, number: usize, name: &str, expected: Category) -> bool {
    number < dict.category_count()
        && dict.category_name(number) == name
        && dict.category(number) == expected
}

#[test]
fn categories(rt: HostRuntime) -> Result<(), Fail> {
    let dict = sample_dict(rt.alloc())?;
    assert_eq!(rt; dict.category_count(), 6);
    for (number, name, invoke, group, length, unknown) in &CATEGORIES {
        let expected = Category {
            invoke: *invoke,
            group: *group,
            length: *length,
        };
        assert!(rt; has_category(&dict, *number, name, expected), "{name}");
        assert!(rt; has_unknown(&dict, *number, unknown), "{name}");
    }
    Ok(())
}
