//! Calls that fail, and the state after them.

use super::samples::{prints, sample_segmenter};
use line_segmenter::{SegmentFault, Segmenter};
use mj_model::SENTENCE_MAX;
use std::alloc::Global;
use std::process::Abort;
use std::test::Fail;

const MOMO: &str = "もも\t名詞,もも\nEOS\n";

/// Checks the error of segmenting `bytes` as a line, and as a whole text if `as_text` is given. The
/// last segmentation must stay.
fn expect_rejected(
    rt: &(impl Abort + Alloc<A = Global>),
    segmenter: &mut Segmenter,
    (what, bytes): (&str, &[u8]),
    as_line: SegmentFault,
    as_text: Option<SegmentFault>,
) -> Result<(), Fail> {
    assert!(rt; segmenter.segment(bytes) == Err(as_line), "{what}");
    if let Some(fault) = as_text {
        assert!(rt; segmenter.segment_whole(bytes) == Err(fault), "{what}");
    }
    assert!(rt; segmenter.text() == Ok("もも"), "{what}");
    assert!(rt; prints(rt.alloc(), segmenter, MOMO)?, "{what}");
    Ok(())
}

/// `も`, a line feed and `も`.
const MO_TWICE: &[u8] = b"\xe3\x82\x82\n\xe3\x82\x82";

#[rattlefmt::skip]
static REJECTED_TEXTS: [(&str, &[u8], SegmentFault, Option<SegmentFault>); 4] = [
    // (what, bytes, error as a line, error as a text)
    ("a line feed",       MO_TWICE, SegmentFault::LineFeed(3), None),
    ("a line feed alone", b"\n",    SegmentFault::LineFeed(0), None),
    ("a line feed, then no text", b"ab\n\xff", SegmentFault::LineFeed(2),
        Some(SegmentFault::NotUtf8)),
    ("no text",           b"a\xff", SegmentFault::NotUtf8,     Some(SegmentFault::NotUtf8)),
];

#[test]
fn invalid_texts(rt: HostRuntime) -> Result<(), Fail> {
    let alloc = rt.alloc();
    let mut segmenter = sample_segmenter(alloc)?;
    assert!(rt; segmenter.text() == Err(SegmentFault::NothingSegmented));
    assert!(rt; segmenter.words().is_err());
    assert!(rt; segmenter.print(&mut Vec::new(alloc)) == Err(SegmentFault::NothingSegmented));
    segmenter.segment("もも".as_bytes())?;
    let long = Vec::from_elem(alloc, b'z', SENTENCE_MAX + 1)?;
    let long_no_text = Vec::from_elem(alloc, 0xffu8, SENTENCE_MAX + 1)?;
    for (what, bytes, as_line, as_text) in &REJECTED_TEXTS {
        expect_rejected(&rt, &mut segmenter, (what, bytes), *as_line, *as_text)?;
    }
    let too_long = SegmentFault::TooLong;
    for (what, bytes) in [("too long", &long), ("too long, no text", &long_no_text)] {
        expect_rejected(&rt, &mut segmenter, (what, bytes), too_long, Some(too_long))?;
    }
    Ok(())
}
