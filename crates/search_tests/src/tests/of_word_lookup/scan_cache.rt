//! Words of one text that are looked up at several positions, with the same cache.

ghost use Rattle.std.specs.Prelude.{◌≤◌};
ghost use Rattle.word_lookup.specs.Overlays.{overlay_of};
ghost use Rattle.word_lookup.specs.ScanCaches.{AreScansOver};

use super::expected_words::is_at;
use mj_model::sample;
use std::alloc::{AllocError, Global};
use std::test::Fail;
use test_support::samples::{overlay, system};
use word_lookup::{Dictionaries, ScanCache, Surface};

/// Returns whether the words at a position have the ends `row.1`, in this order.
fn end_at(
    dictionaries: &Dictionaries<'_>,
    text: &str,
    row: (usize, &[usize]),
    last: &mut ScanCache,
    surfaces: &mut Vec<Surface>,
) -> Result<bool, AllocError>
    requires { AreScansOver (overlay_of dictionaries.now) text.now last.old }
    ensures { AreScansOver (overlay_of dictionaries.now) text.now last.new }
{
    let (place, ends) = row;
    if !is_at(text, place) {
        return Ok(false);
    }
    surfaces.clear();
    dictionaries.surfaces_at(text, place, last, surfaces)?;
    Ok(are_ends(surfaces, ends))
}

fn are_ends(surfaces: &[Surface], ends: &[usize]) -> bool {
    let mut all = surfaces.len() == ends.len();
    for (surface, end) in surfaces.iter().zip(ends) {
        all = all && surface.end == *end;
    }
    all
}

/// Returns the first position in `places` whose words have other ends.
fn first_other(
    alloc: Global,
    dictionaries: &Dictionaries<'_>,
    text: &str,
    places: &[(usize, &[usize])],
) -> Result<Option<usize>, AllocError> {
    let mut surfaces = Vec::new(alloc);
    let mut last = ScanCache::none();
    for row in places {
        if !end_at(dictionaries, text, *row, &mut last, &mut surfaces)? {
            return Ok(Some(row.0));
        }
    }
    Ok(None)
}

const MARK: &str = "0x30FC KATAKANA HIRAGANA\n";

const TAB: &str = "0x0009 SPACE ALPHA\n";

const RANGES: &str = "0x20000..0x20001 ALPHA\n0x20002..0x20003 ALPHA KATAKANA\n0x20004 KATAKANA\n";

/// A label, further lines of `char.def`, the grouping limit, a text, and its positions with the
/// ends of the words there.
type Row<'a> = (&'a str, &'a str, u16, &'a str, &'a [(usize, &'a [usize])]);

#[rattlefmt::skip]
static IN_TURN: [Row<'static>; 14] = [
    ("each place of a run", "", 24, "zzz", &[(0, &[3]), (1, &[3]), (2, &[3])]),
    ("a run that is longer than the grouping", "", 2, "zzzzzz",
        &[(0, &[1]), (1, &[2]), (2, &[3]), (3, &[6]), (4, &[6]), (5, &[6])]),
    ("a run from its middle on", "", 24, "zzzzz", &[(2, &[5]), (3, &[5])]),
    ("places that skip ahead in a run", "", 2, "zzzzz", &[(0, &[1]), (3, &[5])]),
    ("places that skip what was not looked at", "", 1, "zzzzzz",
        &[(0, &[1]), (4, &[6]), (5, &[6])]),
    ("places that skip a run's end", "", 2, "zzzzアイ", &[(0, &[1]), (4, &[10, 7]), (7, &[10])]),
    ("places that fall", "", 2, "zzzzアイ", &[(4, &[10, 7]), (0, &[1]), (7, &[10]), (2, &[4])]),
    ("LENGTH after a run that is too long", "", 0, "アイウ", &[(0, &[3, 6]), (3, &[6]), (6, &[9])]),
    // ア and ー share a category, and so do ー and す, but ア and す don't.
    ("kinds that share in pairs", MARK, 24, "アーす", &[(0, &[9, 3, 6]), (3, &[9, 6]), (6, &[9])]),
    ("the same from the second on", MARK, 24, "アーす", &[(3, &[9, 6]), (6, &[9])]),
    ("the same without the second", MARK, 24, "アーす", &[(0, &[9, 3, 6]), (6, &[9])]),
    // The blanks at a tab include letters after it. A letter alone has no blanks.
    ("a run after blanks, and runs in them", TAB, 24, "\tz\tzアイ",
        &[(0, &[10, 7]), (1, &[4]), (2, &[10, 7]), (3, &[4]), (4, &[10, 7])]),
    ("beyond the basic plane", "0x20000..0x2A6DF ALPHA\n", 1, "𠮷𠮷𠮷",
        &[(0, &[4]), (4, &[12]), (8, &[12])]),
    ("over ranges", RANGES, 24, "\u{20001}\u{20002}\u{20004}",
        &[(0, &[12]), (4, &[12]), (8, &[12])]),
];

/// Returns the first position whose words have other ends, over the sample's dictionary with
/// `lines` appended to `char.def`.
fn other_of(
    alloc: Global,
    lines: &str,
    grouping: u16,
    text: &str,
    places: &[(usize, &[usize])],
) -> Result<Option<usize>, Fail>
    requires { grouping ≤ 1000 }
{
    let system = system(alloc, lines, sample().lexicons)?;
    let dictionaries = overlay(&system, &[])?.with_grouping(grouping);
    Ok(first_other(alloc, &dictionaries, text, places)?)
}

#[test]
fn words_in_turn(rt: HostRuntime) -> Result<(), Fail> {
    for (what, lines, grouping, text, places) in &IN_TURN {
        assert!(rt; *grouping <= 1000, "{what}");
        let other = other_of(rt.alloc(), lines, *grouping, text, places)?;
        assert_eq!(rt; other, None, "{what}");
    }
    Ok(())
}
