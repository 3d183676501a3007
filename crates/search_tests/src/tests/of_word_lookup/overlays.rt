//! User dictionaries over a system dictionary.

use super::expected_words::Expected::{self, Known, User};
use super::expected_words::has_words;
use dict_image::Dict;
use mj_model::{Origin, OverlayFault, Sources, Word, sample};
use std::alloc::Global;
use std::process::Abort;
use std::test::Fail;
use test_support::samples::{overlay, system, system_dict, user};
use word_lookup::Dictionaries;

/// The only line of a user lexicon.
const USER: &str = "もも,1,1,1,名詞,ユーザ\n";

#[rattlefmt::skip]
static WORDS: [Expected; 4] = [
    Known(0, 3, 20, "助詞,も"),
    Known(0, 6, 30, "名詞,もも"),
    User(1, 0, 6, 1, "名詞,ユーザ"),
    User(2, 0, 6, 1, "名詞,ユーザ"),
];

/// Returns `count` user dictionaries for `system`.
fn users_of(alloc: Global, system: &Dict, count: usize) -> Result<Vec<Dict>, Fail> {
    let mut users = Vec::new(alloc);
    for _user in 0..count {
        add_user(alloc, &mut users, system)?;
    }
    Ok(users)
}

/// Returns whether a text has the words of the sample and one word of each of `count` user
/// dictionaries.
fn has_words_of(alloc: Global, count: usize) -> Result<bool, Fail> {
    let system = system(alloc, "", sample().lexicons)?;
    let users = users_of(alloc, &system, count)?;
    let expected = WORDS.get(..count.saturating_add(2)).unwrap_or(&[]);
    has_words(alloc, (&system, &users), "もも", 0, expected)
}

#[test]
fn words_of_users(rt: HostRuntime) -> Result<(), Fail> {
    for count in 0..3 {
        assert!(rt; has_words_of(rt.alloc(), count)?, "{count} users");
    }
    Ok(())
}

/// Returns the sample's dictionary with three left ids.
fn wide_system(alloc: Global) -> Result<Dict, Fail> {
    let sources = Sources {
        matrix: b"2 3\n",
        ..sample()
    };
    system_dict(alloc, &sources)
}

/// Appends a user dictionary for `system` to `dicts`.
fn add_user(alloc: Global, dicts: &mut Vec<Dict>, system: &Dict) -> Result<(), Fail> {
    dicts.push(user(alloc, system, USER)?)?;
    Ok(())
}

/// Returns five dictionaries: a user dictionary for the sample and one for the wide system, the
/// sample, a second user dictionary for the wide system, and the wide system.
fn dicts(alloc: Global) -> Result<Vec<Dict>, Fail> {
    let mut dicts = Vec::new(alloc);
    let system = system(alloc, "", sample().lexicons)?;
    let wide = wide_system(alloc)?;
    add_user(alloc, &mut dicts, &system)?;
    add_user(alloc, &mut dicts, &wide)?;
    dicts.push(system)?;
    add_user(alloc, &mut dicts, &wide)?;
    dicts.push(wide)?;
    Ok(dicts)
}

/// A label, the index of the system dictionary, the range of the user dictionaries, and the error.
type Row<'a> = (&'a str, usize, (usize, usize), OverlayFault);

#[rattlefmt::skip]
static REJECTED_OVERLAYS: [Row<'static>; 6] = [
    // (what, system, users, error)
    ("user as system",                  0, (0, 0), OverlayFault::NotSystem),
    ("user as system before its users", 0, (2, 4), OverlayFault::NotSystem),
    ("system as user",                  2, (2, 4), OverlayFault::NotUser(0)),
    ("user of sizes 2 3",               2, (1, 2), OverlayFault::OtherSizes(0)),
    ("the first of two faults",         2, (0, 3), OverlayFault::OtherSizes(1)),
    ("system of sizes 2 3 as user",     2, (4, 5), OverlayFault::NotUser(0)),
];

/// Returns the error of combining the dictionary `system` with the range `from..to`, if there is
/// one.
fn rejected(dicts: &[Dict], system: usize, (from, to): (usize, usize)) -> Option<OverlayFault> {
    match (dicts.get(system), dicts.get(from..to)) {
        (Some(system), Some(users)) => overlay(system, users).err(),
        _ => None,
    }
}

#[test]
fn invalid_overlays(rt: HostRuntime) -> Result<(), Fail> {
    let dicts = dicts(rt.alloc())?;
    for (what, system, users, fault) in &REJECTED_OVERLAYS {
        let rejected = rejected(&dicts, *system, *users);
        assert_eq!(rt; rejected, Some(*fault), "{what}");
    }
    Ok(())
}

/// Checks the feature of a word with this origin.
fn expect_feature(
    rt: &impl Abort,
    what: &str,
    dictionaries: &Dictionaries<'_>,
    origin: Origin,
    feature: &str,
) {
    let word = Word {
        place: 0,
        start: 0,
        end: 3,
        left: 1,
        right: 1,
        cost: 1,
        origin,
    };
    assert_eq!(rt; dictionaries.feature(&word), feature, "{what}");
}

#[rattlefmt::skip]
static FEATURES: [(&str, Origin, &str); 7] = [
    // (what, origin, feature)
    ("the first entry in byte order", Origin::Known { dict: 0, token: 0 }, "名詞,すもも"),
    ("an unknown entry is none of the lexicon", Origin::Known { dict: 0, token: 3 }, ""),
    ("no such dictionary", Origin::Known { dict: 1, token: 0 }, ""),
    ("an entry of the lexicon is no unknown one", Origin::Unknown { token: 2 }, ""),
    ("the first unknown entry", Origin::Unknown { token: 3 }, "未知"),
    ("the last unknown entry", Origin::Unknown { token: 8 }, "未知"),
    ("after the last entry", Origin::Unknown { token: 9 }, ""),
];

#[test]
fn features_of_numbers(rt: HostRuntime) -> Result<(), Fail> {
    let system = system(rt.alloc(), "", sample().lexicons)?;
    let dictionaries = overlay(&system, &[])?;
    for (what, origin, feature) in &FEATURES {
        expect_feature(&rt, what, &dictionaries, *origin, feature);
    }
    Ok(())
}

/// Returns the connection cost of `right` and `left`, or `None` if one is out of range.
fn cost_of(system: &Dict, right: u16, left: u16) -> Result<Option<i16>, OverlayFault> {
    let dictionaries = Dictionaries::new(system, &[])?;
    if system.matrix_sizes().contains(right, left) {
        Ok(Some(dictionaries.cost(right, left)))
    } else {
        Ok(None)
    }
}

#[rattlefmt::skip]
static COSTS: [(u16, u16, Option<i16>); 5] = [
    // (right id of the preceding word, left id of the following word, cost)
    (0, 0, Some(0)),
    (0, 1, Some(10)),
    (1, 0, Some(5)),
    (1, 1, Some(7)),
    (2, 0, None),
];

#[test]
fn connection_costs(rt: HostRuntime) -> Result<(), Fail> {
    let system = system(rt.alloc(), "", sample().lexicons)?;
    for (right, left, cost) in &COSTS {
        let found = cost_of(&system, *right, *left)?;
        assert_eq!(rt; found, *cost, "{right} {left}");
    }
    Ok(())
}
