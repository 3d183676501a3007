//! Images of user dictionaries under allocation failures.
//!
//! Allocations fail under `tests/out_of_memory/run.py`, which expects the line `refused` on
//! standard error.
use super::images::user_image;
use super::lookups::is_user_with;
use crate::tests::samples::dict_of;
use dict_image::Dict;
use mj_model::ImageFault;
use std::test::Fail;
use test_support::again;

/// Returns the user image of layout `layout`, with one retry.
fn image_again(rt: &HostRuntime, layout: u32) -> Result<Vec<u8>, Fail> {
    Ok(again!(rt, Err(_), user_image(rt.alloc(), layout))?)
}

/// Returns the dictionary of the user image of layout `layout`, with one retry. A failed load drops
/// the image, so the retry builds it again.
fn dict_again(rt: &HostRuntime, layout: u32) -> Result<Dict, Fail> {
    Ok(again!(
        rt,
        Err(ImageFault::Memory),
        dict_of(rt.alloc(), image_again(rt, layout)?)
    )?)
}

/// Layouts of images.
#[rattlefmt::skip]
static LAYOUTS: [(&str, u32, &str, &str); 3] = [
    // (what, layout, the only key of its image, a key that does not exist)
    ("layout_1_vector", 1, "もも", "も"),
    ("layout_2_vector", 2, "a",    "b"),
    ("layout 3",        3, "a",    "b"),
];

/// Each dictionary has the only entry of its image, even after an allocation failure.
#[test]
fn user_images_out_of_memory(rt: HostRuntime) -> Result<(), Fail> {
    for (what, layout, key, other) in &LAYOUTS {
        let dict = dict_again(&rt, *layout)?;
        assert!(rt; is_user_with(&dict, key, 1, other), "{what}");
    }
    Ok(())
}
