//! Formats of printed paths.

use super::samples::{prints, sample_segmenter};
use std::test::Fail;

/// The texts of node, unk, bos and eos.
type Texts = (
    &'static str,
    Option<&'static str>,
    &'static str,
    &'static str,
);

const COSTS: &str = "すもも/名詞/100/110/110 もも/名詞/30/37/147 152\n";

#[rattlefmt::skip]
static FORMATS: [(&str, Texts, &str, &str); 4] = [
    // (what, (node, unk, bos, eos), line, output)
    ("cost_format", ("%m/%f[0]/%c/%pn/%pc\\s", None, "", "%pc\\n"), "すもももも", COSTS),
    ("before and after", ("%m/", None, "[%S]", "%L|%pc\\n"), "すもも", "[すもも]すもも/9|115\n"),
    ("a part for unknown words", ("%m,", Some("<%m>%H"), "", ""), "もz", "も,<z>未知"),
    ("nothing", ("", None, "", ""), "も", ""),
];

#[test]
fn formats(rt: HostRuntime) -> Result<(), Fail> {
    let mut segmenter = sample_segmenter(rt.alloc())?;
    for (what, (node, unk, bos, eos), line, output) in &FORMATS {
        segmenter.set_format(node, *unk, bos, eos)?;
        segmenter.segment(line.as_bytes())?;
        assert!(rt; prints(rt.alloc(), &segmenter, output)?, "{what}");
    }
    Ok(())
}
