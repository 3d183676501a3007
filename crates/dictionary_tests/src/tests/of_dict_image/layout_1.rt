//! The user image of layout 1 with the single surface `もも`, and its changes.
use super::changes::{Changed, Row, dict_with, expect_faults, expect_token_faults, headers};
use super::images::{Change, user_body};
use super::lookups::is_user_with;
use crate::tests::samples::{fault_of_front, fault_of_longer};
use mj_model::ImageFault::{BadKey, BadSection, Truncated};
use std::test::Fail;

/// Changes of the layout, and of the length of the keys, which lie from byte 104 to byte 112.
#[rattlefmt::skip]
static CHANGES: [Row; 5] = [
    ("layout 2: one cell, a bad root",   &[(8, b"\x02")],                Some(BadSection(5))),
    ("layout 3: 32 bytes are missing",   &[(8, b"\x03")],                Some(Truncated)),
    ("section 5 shorter",                &[(72, b"\x07")],               Some(BadSection(9))),
    ("section 5 longer",                 &[(72, b"\x09")],               Some(Truncated)),
    ("section 5 shorter, 6 longer",      &[(72, b"\x07"), (80, b"\x09")], Some(BadKey(0))),
];

#[test]
fn changes_of_layout_1(rt: HostRuntime) -> Result<(), Fail> {
    expect_faults(&rt, Changed::Layout1, headers())?;
    expect_token_faults(&rt, Changed::Layout1, 112)?;
    expect_faults(&rt, Changed::Layout1, &CHANGES)
}

/// Changes of the image that are accepted.
#[rattlefmt::skip]
static ACCEPTED: [(&str, Change<'_>, &str, i16); 2] = [
    // (what, a position and the new bytes there, the key, the cost of its entry)
    ("cost 2",              (124, b"\x02"), "もも", 2),
    ("the key's last byte", (111, b"\x81"), "もめ", 1),
];

#[test]
fn accepted_changes_of_layout_1(rt: HostRuntime) -> Result<(), Fail> {
    for (what, change, key, cost) in &ACCEPTED {
        let dict = dict_with(rt.alloc(), Changed::Layout1, &[*change])?;
        assert!(rt; is_user_with(&dict, key, *cost, "も"), "{what}");
    }
    Ok(())
}

#[test]
fn other_lengths_of_layout_1(rt: HostRuntime) -> Result<(), Fail> {
    let bytes = user_body(rt.alloc(), 1)?;
    assert_eq!(rt; fault_of_longer(rt.alloc(), &bytes)?, Some(BadSection(9)));
    assert_eq!(rt; fault_of_front(rt.alloc(), &bytes, 136)?, Some(Truncated));
    Ok(())
}
