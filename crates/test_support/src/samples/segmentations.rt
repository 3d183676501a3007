//! Segmentation of texts in memory.

use mj_model::{Counted, RunFault};
use out_format::Format;
use segmenter::segment;
use std::alloc::Global;
use word_lookup::Dictionaries;

/// Segments `text` with `dictionaries`, appends the output in `format` to `written`, and returns
/// the result of the run.
pub fn segment_text(
    alloc: Global,
    dictionaries: &Dictionaries<'_>,
    format: &Format,
    text: &[u8],
    written: &mut Vec<u8>,
) -> Result<u64, RunFault> {
    let mut reader = Counted::new(text);
    let mut writer = Counted::new(written);
    segment(alloc, dictionaries, format, &mut reader, &mut writer)
}
