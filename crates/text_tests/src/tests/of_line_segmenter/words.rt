//! Words that don't exist.

use super::samples::sample_segmenter;
use line_segmenter::SegmentFault;
use std::test::Fail;

#[test]
fn no_such_word(rt: HostRuntime) -> Result<(), Fail> {
    let mut segmenter = sample_segmenter(rt.alloc())?;
    let mut out = Vec::new(rt.alloc());
    let none = Err(SegmentFault::NothingSegmented);
    assert!(rt; segmenter.append_feature(0, &mut out) == none);
    assert!(rt; segmenter.append_features(&mut out) == none);
    assert!(rt; segmenter.category(0) == Err(SegmentFault::NothingSegmented));
    segmenter.segment("すもももも".as_bytes())?;
    assert!(rt; segmenter.append_feature(2, &mut out) == Err(SegmentFault::NoWord(2)));
    assert!(rt; segmenter.category(2) == Err(SegmentFault::NoWord(2)));
    assert!(rt; out.is_empty());
    Ok(())
}
