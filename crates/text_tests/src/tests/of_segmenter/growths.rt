//! Runs whose allocations `tests/out_of_memory/run.py` counts and compares.

use mj_model::sample;
use out_format::Format;
use std::alloc::Global;
use std::process::Abort;
use std::test::Fail;
use test_support::samples::{letters, overlay, segment_text, system_dict};

/// The number of letters of a line.
const LETTERS: usize = 2_000;

/// The output of a line.
const PRINTED: &str = "1989840\n";

/// Returns `lines` lines of letters. There are at most two.
fn lines_of_letters(alloc: Global, lines: usize) -> Result<Vec<u8>, Fail> {
    let letters = letters(alloc, LETTERS)?;
    let mut text = Vec::with_capacity(alloc, 2 * LETTERS + 2)?;
    for _line in 0..lines {
        text.extend_from_slice(letters.as_bytes())?;
        text.push(b'\n')?;
    }
    Ok(text)
}

/// Segments `lines` lines of letters. There are at most two.
fn segment(rt: &(impl Abort + Alloc<A = Global>), lines: usize) -> Result<(), Fail> {
    let format = Format::parse(rt.alloc(), "", None, "", "%pc\\n")?;
    let dict = system_dict(rt.alloc(), &sample())?;
    let dictionaries = overlay(&dict, &[])?;
    let text = lines_of_letters(rt.alloc(), lines)?;
    let mut written = Vec::with_capacity(rt.alloc(), 2 * PRINTED.len())?;
    let result = segment_text(rt.alloc(), &dictionaries, &format, &text, &mut written);
    assert!(rt; result == Ok(lines as u64));
    assert_eq!(rt; written.len(), lines.saturating_mul(PRINTED.len()));
    assert!(rt; written.starts_with(PRINTED.as_bytes()));
    assert!(rt; written.ends_with(PRINTED.as_bytes()));
    Ok(())
}

#[test]
fn one_line(rt: HostRuntime) -> Result<(), Fail> {
    segment(&rt, 1)
}

#[test]
fn two_lines(rt: HostRuntime) -> Result<(), Fail> {
    segment(&rt, 2)
}
