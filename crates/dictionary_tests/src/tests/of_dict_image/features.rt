//! The user image of the single surface `a` with other features.
use super::images::{one_surface_with, sealed};
use crate::tests::samples::fault_of;
use mj_model::ImageFault::{self, BadText};
use std::alloc::{AllocError, Global};
use std::test::Fail;

/// Features, and the parts of them that tokens use.
#[rattlefmt::skip]
static PARTS: [(&str, &[u8], &[(u8, u8)], Option<ImageFault>); 25] = [
    // (what, the features, the start and length of each token's feature, the error)
    ("one after another",          b"X\xe3\x81\x82Y", &[(0, 1), (1, 3), (4, 1)], None),
    ("overlapping",                b"X\xe3\x81\x82Y", &[(0, 5), (0, 4), (1, 4), (1, 3)], None),
    ("starts inside a character",  b"X\xe3\x81\x82Y", &[(2, 3)],                 Some(BadText(0))),
    ("ends inside a character",    b"X\xe3\x81\x82Y", &[(0, 3)],                 Some(BadText(0))),
    ("a byte of a character",      b"X\xe3\x81\x82Y", &[(2, 1)],                 Some(BadText(0))),
    ("empty inside a character",   b"X\xe3\x81\x82Y", &[(2, 0)],                 None),
    ("the second of two",          b"X\xe3\x81\x82Y", &[(0, 1), (0, 2)],         Some(BadText(1))),
    ("ends before a stray byte",   b"X\x80Y",         &[(0, 1)],                 None),
    ("starts after a stray byte",  b"X\x80Y",         &[(2, 1)],                 None),
    ("a stray byte inside",        b"X\x80Y",         &[(0, 3)],                 Some(BadText(0))),
    ("ends after a stray byte",    b"X\x80Y",         &[(0, 2)],                 Some(BadText(0))),
    ("starts at a stray byte",     b"X\x80Y",         &[(1, 2)],                 Some(BadText(0))),
    ("empty before a stray byte",  b"X\x80Y",         &[(1, 0)],                 None),
    ("empty among stray bytes",    b"\x80\xff\x80",   &[(1, 0), (2, 0)],         None),
    ("between stray bytes",        b"\x80\xe3\x81\x82\xff", &[(1, 3)],           None),
    ("over the second stray byte", b"\x80X\xffY",     &[(1, 3)],                 Some(BadText(0))),
    ("before a cut-off character", b"X\xe3\x81",      &[(0, 1)],                 None),
    ("a cut-off character",        b"X\xe3\x81",      &[(0, 3)],                 Some(BadText(0))),
    ("the first byte of one",      b"X\xe3\x81",      &[(0, 2)],                 Some(BadText(0))),
    ("after a cut-off character",  b"\xe3\x81X",      &[(2, 1)],                 None),
    ("a surrogate",                b"\xed\xa0\x80",   &[(0, 3)],                 Some(BadText(0))),
    ("a slash in two bytes",       b"\xc0\xaf",       &[(0, 2)],                 Some(BadText(0))),
    ("empty at the end",           b"X",              &[(1, 0)],                 None),
    ("a byte past the end",        b"X",              &[(0, 2)],                 Some(BadText(0))),
    ("empty past the end",         b"X",              &[(2, 0)],                 Some(BadText(0))),
];

/// Returns the error of the image whose tokens use the parts `places` of `features`.
fn fault_of_parts(
    alloc: Global,
    places: &[(u8, u8)],
    features: &[u8],
) -> Result<Option<ImageFault>, AllocError> {
    let body = one_surface_with(alloc, places, features)?;
    Ok(fault_of(alloc, sealed(alloc, &body)?))
}

#[test]
fn parts_of_the_features(rt: HostRuntime) -> Result<(), Fail> {
    for (what, features, places, expected) in &PARTS {
        let fault = fault_of_parts(rt.alloc(), places, features)?;
        assert_eq!(rt; fault, *expected, "{what}");
    }
    Ok(())
}
