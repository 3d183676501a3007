//! Segmenters over the sample's dictionary.

use dict_compile::compile;
use image_format::borrowed::ImageBytes;
use line_segmenter::{DigestTest, Segmenter};
use mj_model::sample;
use std::alloc::{AllocError, Global};
use std::test::Fail;

/// Returns a segmenter over the sample's dictionary.
pub fn sample_segmenter(alloc: Global) -> Result<Segmenter, Fail> {
    Ok(Segmenter::load(
        alloc,
        ImageBytes::owned(compile(alloc, &sample())?.image),
        DigestTest::Verified,
    )?)
}

/// Returns the output for the text that `segmenter` segmented last, or nothing if there is none.
pub fn printed(alloc: Global, segmenter: &Segmenter) -> Result<Vec<u8>, AllocError> {
    let mut out = Vec::new(alloc);
    match segmenter.print(&mut out) {
        Ok(()) => Ok(out),
        Err(_) => Ok(Vec::new(alloc)),
    }
}

/// Returns whether `output` is the output for the text that `segmenter` segmented last.
pub fn prints(alloc: Global, segmenter: &Segmenter, output: &str) -> Result<bool, Fail> {
    Ok(printed(alloc, segmenter)?.as_slice() == output.as_bytes())
}
