//! Changes of images, and their errors.
use super::checked_system::{ONE_RANGE, one_category};
use super::images::{Change, changed, sealed, user_body, user_image};
use crate::tests::samples::{dict_of, fault_of};
use Changed::{Layout1, Layout2, Layout3, Sealed, System};
use dict_image::Dict;
use mj_model::ImageFault::{
    self, BadKey, BadLayout, BadMagic, BadSection, BadText, BadToken, Truncated,
};
use std::alloc::{Alloc, AllocError, Global};
use std::process::Abort;
use std::test::Fail;

/// The image that is changed.
#[derive(Clone, Copy)]
pub(crate) enum Changed {
    /// The user image of layout 1 with the single surface `もも`.
    Layout1,
    /// The user image of layout 2 with the single surface `a`. Cell n is at byte 104 + 8 n.
    Layout2,
    /// The user image of layout 3 with the single surface `a`. Its checksum is computed after the
    /// change.
    Layout3,
    /// The user image of layout 3 with the single surface `a`. Its checksum is computed before the
    /// change.
    Sealed,
    /// The system image with one category. Its checksum is computed after the change.
    System,
}

/// A label, the changed bytes with their positions, and the error.
pub(crate) type Row = (&'static str, &'static [Change<'static>], Option<ImageFault>);

/// Changes of the header of a user image. They have the same effect in each layout.
#[rattlefmt::skip]
static HEADERS: [Row; 14] = [
    ("no change",                    &[],                None),
    ("byte 0 is 0",                  &[(0, b"\0")],      Some(BadMagic)),
    ("byte 0 is another letter",     &[(0, b"m")],       Some(BadMagic)),
    ("layout 0",                     &[(8, b"\0")],      Some(BadLayout(0))),
    ("layout 4",                     &[(8, b"\x04")],    Some(BadLayout(4))),
    ("layout 9",                     &[(8, b"\x09")],    Some(BadLayout(9))),
    ("kind 2",                       &[(12, b"\x02")],   Some(BadSection(0))),
    ("no right ids",                 &[(16, b"\0")],     Some(BadSection(0))),
    ("a category",                   &[(24, b"\x01")],   Some(BadSection(0))),
    ("more groups than tokens",      &[(28, b"\x02")],   Some(BadSection(0))),
    ("no tokens",                    &[(32, b"\0")],     Some(BadSection(0))),
    ("an unknown token",             &[(36, b"\x01")],   Some(BadSection(0))),
    ("section 1 has 2^64 - 1 bytes", &[(40, &[0xff; 8])], Some(Truncated)),
    ("section 5 beyond any memory",  &[(79, b"\xff")],   Some(Truncated)),
];

/// Returns the changes of a header. A call keeps the table out of the caller's proof.
pub(crate) fn headers() -> &'static [Row] {
    &HEADERS
}

/// Cell 50 is (3, 99), and its value cell 3 is (-1, 50). So two cells hold value 0.
const VALUE_IN_3: &[Change<'_>] = &[
    (504, b"\x03\0\0\0\x63\0\0\0"),
    (128, b"\xff\xff\xff\xff\x32\0\0\0"),
];

/// Cell 98 is (2, 0), and its value cell 2 is (-1, 98). So two cells hold value 0.
const VALUE_IN_2: &[Change<'_>] = &[
    (120, b"\xff\xff\xff\xff\x62\0\0\0"),
    (888, b"\x02\0\0\0\0\0\0\0"),
];

/// Changes of the cells of the user image with the single surface `a`. They have the same effect in
/// layouts 2 and 3. Section 5 starts at byte 104, so that cell n is at 104 + 8 n.
#[rattlefmt::skip]
static CELLS: [Row; 12] = [
    ("cell 1 is (-1, 98)",       &[(112, b"\xff\xff\xff\xff\x62\0\0\0")], Some(BadSection(5))),
    ("cell 1 is (-2, 99)",       &[(112, b"\xfe\xff\xff\xff\x63\0\0\0")], Some(BadSection(5))),
    ("cell 1 is (0, -1)",        &[(112, b"\0\0\0\0\xff\xff\xff\xff")], Some(BadSection(5))),
    ("cell 1 after the root",    &[(116, b"\0\0\0\0")],                 Some(BadKey(0))),
    ("cell 99 is (1, 99)",       &[(896, b"\x01\0\0\0\x63\0\0\0")],     Some(BadKey(0))),
    ("cell 0 is (1, 0)",         &[(104, b"\x01\0\0\0\0\0\0\0")],       Some(BadSection(5))),
    ("value 0 in cells 1 and 2", VALUE_IN_2,                            Some(BadSection(5))),
    ("value 0 in cells 1 and 3", VALUE_IN_3,                            Some(BadSection(5))),
    ("cell 3 is (-1, 99)",       &[(128, b"\xff\xff\xff\xff\x63\0\0\0")], Some(BadSection(5))),
    ("cell 5 is (0, -2)",        &[(144, b"\0\0\0\0\xfe\xff\xff\xff")], Some(BadSection(5))),
    ("cell 5 is (1, 100)",       &[(144, b"\x01\0\0\0\x64\0\0\0")],     Some(BadSection(5))),
    ("half a cell at the end",   &[(72, b"\x1c"), (80, b"\x0c")],       Some(BadSection(5))),
];

/// Returns the changes of cells. A call keeps the table out of the caller's proof.
pub(crate) fn cells() -> &'static [Row] {
    &CELLS
}

/// Changes of the only group, token and feature of a user image. They have the same effect in each
/// layout.
#[rattlefmt::skip]
static TOKENS: [(&str, Change<'_>, Option<ImageFault>); 9] = [
    // (what, the position after the keys and the new bytes there, the error)
    ("group 0 from token 1",  (0, b"\x01"),  Some(BadSection(6))),
    ("group 0 up to token 2", (4, b"\x02"),  Some(BadSection(6))),
    ("left id 2",             (8, b"\x02"),  Some(BadToken(0))),
    ("right id 2",            (10, b"\x02"), Some(BadToken(0))),
    ("cost 2",                (12, b"\x02"), None),
    ("spare bytes",           (14, b"\x01"), Some(BadToken(0))),
    ("feature from 1",        (16, b"\x01"), Some(BadText(0))),
    ("feature length 2",      (20, b"\x02"), Some(BadText(0))),
    ("feature not UTF-8",     (24, b"\x80"), Some(BadText(0))),
];

/// Returns the bytes that are changed.
fn body_of(alloc: Global, image: Changed) -> Result<Vec<u8>, AllocError> {
    match image {
        Layout1 => user_body(alloc, 1),
        Layout2 => user_body(alloc, 2),
        Layout3 => user_body(alloc, 3),
        Sealed => user_image(alloc, 3),
        System => one_category(alloc, ONE_RANGE),
    }
}

/// Returns `image` with `changes`, and then with its checksum if that is computed last.
fn image_with(
    alloc: Global,
    image: Changed,
    changes: &[Change<'_>],
) -> Result<Vec<u8>, AllocError> {
    let bytes = changed(alloc, &body_of(alloc, image)?, changes)?;
    if matches!(image, Layout3 | System) {
        return sealed(alloc, &bytes);
    }
    Ok(bytes)
}

/// Returns the error of loading `image` with `changes`.
fn fault_with(
    alloc: Global,
    image: Changed,
    changes: &[Change<'_>],
) -> Result<Option<ImageFault>, AllocError> {
    Ok(fault_of(alloc, image_with(alloc, image, changes)?))
}

/// Loads `image` with `changes`.
pub(crate) fn dict_with(
    alloc: Global,
    image: Changed,
    changes: &[Change<'_>],
) -> Result<Dict, Fail> {
    Ok(dict_of(alloc, image_with(alloc, image, changes)?)?)
}

/// Checks the error of `image` with the changes of each test case.
pub(crate) fn expect_faults(
    rt: &(impl Abort + Alloc<A = Global>),
    image: Changed,
    rows: &[Row],
) -> Result<(), Fail> {
    for (what, changes, expected) in rows {
        let fault = fault_with(rt.alloc(), image, changes)?;
        assert_eq!(rt; fault, *expected, "{what}");
    }
    Ok(())
}

/// Checks the errors of a user image with changes after its keys, which end at `keys_end`.
pub(crate) fn expect_token_faults(
    rt: &(impl Abort + Alloc<A = Global>),
    image: Changed,
    keys_end: usize,
) -> Result<(), Fail> {
    for (what, (place, bytes), expected) in &TOKENS {
        let change = (keys_end.saturating_add(*place), *bytes);
        let fault = fault_with(rt.alloc(), image, &[change])?;
        assert_eq!(rt; fault, *expected, "{what}");
    }
    Ok(())
}
