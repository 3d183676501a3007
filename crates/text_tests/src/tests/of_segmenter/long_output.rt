//! Output that exceeds the buffer in which it is collected before it is written.

use super::devices::{StepWriter, writer as device};
use mj_model::{Counted, RunFault, sample};
use out_format::Format;
use segmenter::segment;
use std::alloc::{AllocError, Global};
use std::process::Abort;
use std::test::Fail;
use test_support::samples::{letters, overlay, system_dict};
use word_lookup::Dictionaries;

/// The output is written after a line if more than this many bytes are buffered.
const OUTPUT_MAX: usize = 1 << 16;

/// Returns the format in which an empty line prints `count` letters.
fn letters_format(alloc: Global, count: usize) -> Result<Format, Fail> {
    let mut eos = letters(alloc, count)?;
    eos.push_str("\\n")?;
    Ok(Format::parse(alloc, "", None, "", eos.as_str())?)
}

/// Segments `lines` empty lines. Returns the result and the writer.
fn written(
    alloc: Global,
    dictionaries: &Dictionaries<'_>,
    format: &Format,
    lines: usize,
) -> Result<(Result<u64, RunFault>, StepWriter), AllocError> {
    let text = Vec::from_elem(alloc, b'\n', lines)?;
    let mut reader = Counted::new(text.as_slice());
    let mut out = device(alloc, usize::MAX, usize::MAX);
    let mut writer = Counted::new(&mut out);
    let result = segment(alloc, dictionaries, format, &mut reader, &mut writer);
    Ok((result, out))
}

/// The number of empty lines, the letters that each prints, all bytes, and the bytes of the longest
/// write.
type Pieces = (usize, usize, usize, usize);

/// Checks the writes for empty lines.
fn expect_pieces(
    rt: &(impl Abort + Alloc<A = Global>),
    dictionaries: &Dictionaries<'_>,
    what: &str,
    (lines, count, all, longest): Pieces,
) -> Result<(), Fail> {
    let format = letters_format(rt.alloc(), count)?;
    let (result, out) = written(rt.alloc(), dictionaries, &format, lines)?;
    assert!(rt; result == Ok(lines as u64), "{what}");
    assert_eq!(rt; out.taken.len(), all, "{what}");
    assert_eq!(rt; out.longest, longest, "{what}");
    Ok(())
}

#[rattlefmt::skip]
static PIECES: [(&str, Pieces); 8] = [
    // (what, (empty lines, letters that each prints, all bytes, bytes of the longest write))
    ("a few lines",             (5,     1_000,      5_005,      5_005)),
    ("all that is held",        (65,    1_000,      65_065,     65_065)),
    ("1 MiB in short lines",    (1_047, 1_000,      1_048_047,  66_066)),
    ("more than that",          (5_000, 1_000,      5_005_000,  66_066)),
    ("longer lines",            (100,   8_180,      818_100,    73_629)),
    ("each line more than that", (3,     OUTPUT_MAX, 196_611,    65_537)),
    ("each line about twice that", (100, 131_000,    13_100_100, 131_001)),
    ("each line more than 1 MiB", (3,    1_048_576,  3_145_731,  1_048_577)),
];

#[test]
fn written_in_pieces(rt: HostRuntime) -> Result<(), Fail> {
    let dict = system_dict(rt.alloc(), &sample())?;
    let dictionaries = overlay(&dict, &[])?;
    for (what, pieces) in &PIECES {
        expect_pieces(&rt, &dictionaries, what, *pieces)?;
    }
    Ok(())
}
