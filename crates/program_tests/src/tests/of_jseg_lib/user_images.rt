//! Images that can't be used as system images or user images.

use crate::tests::{in_directory, new_directory, write_in};
use dict_image::{Dict, DigestTest};
use jseg_lib::overlay_fault;
use mj_model::OverlayFault;
use programs::{load_dictionary, report};
use segmenter::sample;
use std::fs;
use std::test::Fail;
use test_support::samples::{image, overlay, user_image};
use test_support::text::words;

/// Writes `image` in `dir`, and loads the dictionary from the file.
fn written_and_read(rt: &HostRuntime, dir: &str, image: &[u8]) -> Result<Dict, Fail> {
    write_in(rt, dir, "some.img", image)?;
    let path = in_directory(rt, dir, "some.img")?;
    Ok(load_dictionary(rt, path.as_str(), DigestTest::Verified)?)
}

/// Returns the sample's dictionary.
fn system(rt: &HostRuntime, dir: &str) -> Result<Dict, Fail> {
    written_and_read(rt, dir, &image(rt.alloc(), &sample())?)
}

/// Returns a user dictionary. Its image replaces the sample's in `dir`.
fn user(rt: &HostRuntime, dir: &str) -> Result<Dict, Fail> {
    let system = system(rt, dir)?;
    written_and_read(rt, dir, &user_image(rt.alloc(), &system, "a,1,1,1,X\n")?)
}

/// Returns whether a user dictionary is rejected as a system dictionary.
fn is_no_system(rt: &HostRuntime, dir: &str) -> Result<bool, Fail> {
    let dictionary = user(rt, dir)?;
    let fault = overlay(&dictionary, &[]).err();
    Ok(dictionary.is_user() && fault == Some(OverlayFault::NotSystem))
}

#[test]
fn user_image_as_the_system(rt: HostRuntime) -> Result<(), Fail> {
    let dir = new_directory(&rt, "user_image")?;
    let is_no_system = is_no_system(&rt, dir.as_str())?;
    fs::remove_dir_all(&rt, dir.as_str())?;
    assert!(rt; is_no_system);
    Ok(())
}

#[rattlefmt::skip]
static IMAGES_AT_FAULT: [(OverlayFault, &str); 5] = [
    // (error, line)
    (OverlayFault::NotSystem,     "jseg: s.img: O1 NotSystem\n"),
    (OverlayFault::NotUser(0),    "jseg: a.img: O2 NotUser 0\n"),
    (OverlayFault::NotUser(1),    "jseg: b.img: O2 NotUser 1\n"),
    (OverlayFault::OtherSizes(0), "jseg: a.img: O3 OtherSizes 0\n"),
    (OverlayFault::OtherSizes(1), "jseg: b.img: O3 OtherSizes 1\n"),
];

#[test]
fn images_at_fault(rt: HostRuntime) -> Result<(), Fail> {
    let users = words(rt.alloc(), "a.img b.img")?;
    for (fault, line) in &IMAGES_AT_FAULT {
        let mut reported = Vec::new(rt.alloc());
        let fault = overlay_fault(rt.alloc(), "s.img", &users, *fault);
        let status = report(rt.alloc(), "jseg", &fault, &mut reported);
        assert!(rt; status == 1, "{line}");
        assert!(rt; reported.as_slice() == line.as_bytes(), "{line}");
    }
    Ok(())
}
