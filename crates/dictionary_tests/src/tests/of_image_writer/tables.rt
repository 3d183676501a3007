//! The section of connection costs.
use super::samples::{section, system_image};
use mj_model::{Sources, sample};
use std::alloc::{AllocError, Global};
use std::test::Fail;

/// The names of the sample's categories.
static NAMES: [&str; 6] = ["DEFAULT", "SPACE", "ALPHA", "KATAKANA", "KANJI", "HIRAGANA"];

/// Returns unknown entries whose ids are in range for a matrix of any sizes.
fn unknown_of_0(alloc: Global) -> Result<Vec<u8>, AllocError> {
    let mut unk = Vec::new(alloc);
    for name in &NAMES {
        unk.extend_from_slice(name.as_bytes())?;
        unk.extend_from_slice(b",0,0,1000,*\n")?;
    }
    Ok(unk)
}

/// Returns whether section 1 of the image of `matrix` has these bytes.
fn has_costs(alloc: Global, matrix: &[u8], bytes: &[u8]) -> Result<bool, Fail> {
    let unk = unknown_of_0(alloc)?;
    let sources = Sources {
        matrix,
        unk: &unk,
        ..sample()
    };
    let image = system_image(alloc, &sources, "")?;
    Ok(section(&image, 1) == bytes)
}

#[test]
fn costs_of_a_matrix(rt: HostRuntime) -> Result<(), Fail> {
    let of_sample = has_costs(rt.alloc(), sample().matrix, b"\0\0\x0a\0\x05\0\x07\0")?;
    assert!(rt; of_sample, "the sample");
    let of_other = has_costs(rt.alloc(), b"2 1\n0 0 -1\n1 0 258\n", b"\xff\xff\x02\x01")?;
    assert!(rt; of_other, "more right ids than left ids");
    Ok(())
}
