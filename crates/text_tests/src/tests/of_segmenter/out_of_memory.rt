//! Allocation failures of runs.
//!
//! Allocations fail under `tests/out_of_memory/run.py`, which expects the line `refused` on
//! standard error.

use mj_model::{Counted, GROUPING_DEFAULT, RunFault, TextIn, sample};
use out_format::Format;
use segmenter::run_sources;
use std::alloc::Global;
use std::io::Eprint;
use std::process::Abort;
use std::test::Fail;
use test_support::again;
use test_support::samples::{dict_again, overlay, segment_text};

/// The lines of the text and their output.
const LINES: [(&str, &str); 3] = [
    ("すもももも\n", "すもも\t名詞,すもも\nもも\t名詞,もも\nEOS\n"),
    ("ab\n", "ab\t未知\nEOS\n"),
    ("も\n", "も\t助詞,も\nEOS\n"),
];

/// The text of the lines.
const TEXT: &str = "すもももも\nab\nも\n";

/// Returns whether `written` is the output of the lines before line `line`, counted from 1.
fn are_lines_before(line: u64, written: &[u8]) -> bool {
    let mut left = written;
    for (i, (_text, printed)) in LINES.iter().enumerate() {
        if (i as u64) + 1 < line {
            match left.strip_prefix(printed.as_bytes()) {
                Some(rest) => left = rest,
                None => return false,
            }
        }
    }
    left.is_empty()
}

/// Returns the default format, with one retry.
fn default_again(rt: &(impl Alloc<A = Global> + Eprint)) -> Result<Format, Fail> {
    Ok(again!(rt, Err(_), Format::default_of(rt.alloc()))?)
}

/// Returns a buffer for the output, with one retry.
fn room_again(rt: &(impl Alloc<A = Global> + Eprint)) -> Result<Vec<u8>, Fail> {
    Ok(again!(rt, Err(_), Vec::with_capacity(rt.alloc(), 1000))?)
}

/// Checks the result of a run, which must be `Ok` or an allocation failure.
fn expect_run(
    rt: &(impl Abort + Eprint),
    returned: Result<u64, RunFault>,
    written: &[u8],
    reads: u64,
) -> Result<(), Fail> {
    let line = match returned {
        Ok(lines) => {
            assert_eq!(rt; lines, 3);
            4
        }
        Err(RunFault::Memory(line)) => {
            rt.eprintln("refused")?;
            assert!(rt; line > 0 || reads == 0);
            line
        }
        Err(fault) => panic!(rt; "{fault}"),
    };
    assert!(rt; are_lines_before(line, written), "line {line}");
    Ok(())
}

#[test]
fn runs_out_of_memory(rt: HostRuntime) -> Result<(), Fail> {
    let format = default_again(&rt)?;
    let mut written = room_again(&rt)?;
    let dict = dict_again(&rt, sample().lexicons)?;
    let dictionaries = overlay(&dict, &[])?;
    let text = TEXT.as_bytes();
    let result = segment_text(rt.alloc(), &dictionaries, &format, text, &mut written);
    expect_run(&rt, result, &written, 1)
}

#[test]
fn sources_out_of_memory(rt: HostRuntime) -> Result<(), Fail> {
    let format = default_again(&rt)?;
    let mut written = room_again(&rt)?;
    let mut reader = Counted::new(TEXT.as_bytes());
    let mut writer = Counted::new(&mut written);
    let result = run_sources(
        rt.alloc(),
        &sample(),
        &[],
        GROUPING_DEFAULT,
        &format,
        &mut reader,
        &mut writer,
    );
    expect_run(&rt, result, &written, reader.reads())
}
