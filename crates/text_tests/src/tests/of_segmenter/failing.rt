//! Runs over readers and writers that fail or transfer few bytes at a time, and over long lines.

use super::devices::{StepReader, StepWriter, reader, writer};
use mj_model::{Counted, GROUPING_DEFAULT, RunFault, SENTENCE_MAX, TextIn, TextOut, sample};
use out_format::Format;
use segmenter::run_sources;
use std::alloc::{AllocError, Global};
use std::io::ErrorKind;
use std::process::Abort;
use std::test::Fail;

const SUMOMO: &str = "すもももも\n";

const SUMOMO_OUTPUT: &str = "すもも\t名詞,すもも\nもも\t名詞,もも\nEOS\n";

const MO_OUTPUT: &str = "も\t助詞,も\nEOS\n";

/// The result of a run, and the counts of its calls.
#[derive(Drop)]
struct Ended {
    returned: Result<u64, RunFault>,
    reads: u64,
    failed_reads: u64,
    failed_writes: u64,
    flushes: u64,
}

/// Runs over `input` with the sample's sources, in the default format.
fn run(alloc: Global, input: StepReader<'_>, out: &mut StepWriter) -> Result<Ended, AllocError> {
    let format = Format::default_of(alloc)?;
    let mut input = Counted::new(input);
    let mut out = Counted::new(out);
    let returned = run_sources(
        alloc,
        &sample(),
        &[],
        GROUPING_DEFAULT,
        &format,
        &mut input,
        &mut out,
    );
    Ok(Ended {
        returned,
        reads: input.reads(),
        failed_reads: input.failures(),
        failed_writes: out.failures(),
        flushes: out.flushes(),
    })
}

/// A writer: the most bytes of a write, its room, whether it then accepts 0 bytes, whether a flush
/// fails, and the kind of its error.
type Writes = (usize, usize, bool, bool, ErrorKind);

/// A label, a writer, the result of the run, the bytes that are accepted, and the number of
/// flushes.
type WriterRow = (&'static str, Writes, Result<u64, RunFault>, usize, u64);

/// Returns whether a run ended as `row` expects without a failed read, and wrote a prefix of the
/// output.
fn is_ended(got: &Ended, out: &StepWriter, row: &WriterRow) -> bool {
    let (_what, _writes, wanted, taken, flushes) = *row;
    let failed_writes = if wanted.is_ok() { 0 } else { 1 };
    let are_failures = got.failed_reads == 0 && got.failed_writes == failed_writes;
    let are_flushes = got.flushes == flushes && out.flushes == flushes;
    let is_taken = Some(out.taken.as_slice()) == SUMOMO_OUTPUT.as_bytes().get(..taken);
    got.returned == wanted && are_failures && are_flushes && is_taken
}

/// Checks how a run over the sample's line ends.
fn expect_writer(rt: &(impl Abort + Alloc<A = Global>), row: &WriterRow) -> Result<(), Fail> {
    let (what, (step, room, silent, flush_fails, failure), ..) = *row;
    let mut out = StepWriter {
        silent,
        flush_fails,
        failure,
        ..writer(rt.alloc(), step, room)
    };
    let got = run(rt.alloc(), reader(SUMOMO.as_bytes(), 1, None), &mut out)?;
    assert!(rt; is_ended(&got, &out, row), "{what}");
    Ok(())
}

/// No limit.
const ALL: usize = usize::MAX;

#[rattlefmt::skip]
static FAILING_WRITERS: [WriterRow; 7] = [
    // (what, (most bytes of a write, room, accepts 0 bytes, flush fails, error), result, bytes
    // accepted, flushes)
    ("takes 5 bytes", (ALL, 5, false, false, ErrorKind::Other),
        Err(RunFault::Write(5)), 5, 0),
    ("takes nothing", (ALL, 0, true, false, ErrorKind::Other),
        Err(RunFault::Write(0)), 0, 0),
    ("takes 51 bytes of 52", (1, 51, false, false, ErrorKind::Other),
        Err(RunFault::Write(51)), 51, 0),
    ("interrupted", (1, 7, false, false, ErrorKind::Interrupted),
        Err(RunFault::Write(7)), 7, 0),
    ("flush fails", (ALL, ALL, false, true, ErrorKind::Other),
        Err(RunFault::Write(52)), 52, 1),
    ("flush is interrupted", (1, ALL, false, true, ErrorKind::Interrupted),
        Err(RunFault::Write(52)), 52, 1),
    ("a byte at a time", (1, ALL, false, false, ErrorKind::Other),
        Ok(1), 52, 1),
];

#[test]
fn failing_writers(rt: HostRuntime) -> Result<(), Fail> {
    for row in &FAILING_WRITERS {
        expect_writer(&rt, row)?;
    }
    Ok(())
}

/// Returns whether a run over the sample's line ended at read number `read`, with no other failed
/// call.
fn is_failed_read(got: &Ended, out: &StepWriter, read: u64) -> bool {
    let (line, output) = if read < 17 {
        (1, "")
    } else {
        (2, SUMOMO_OUTPUT)
    };
    let are_reads = got.reads == read && got.failed_reads == 1;
    let are_writes = got.failed_writes == 0 && got.flushes == 0;
    let is_taken = out.taken.as_slice() == output.as_bytes();
    got.returned == Err(RunFault::Read(line)) && are_reads && are_writes && is_taken
}

/// Checks how a run over the sample's line ends if read number `read` fails.
fn expect_failed_read(
    rt: &(impl Abort + Alloc<A = Global>),
    read: u64,
    failure: ErrorKind,
) -> Result<(), Fail> {
    let mut out = writer(rt.alloc(), usize::MAX, usize::MAX);
    let input = StepReader {
        failure,
        ..reader(SUMOMO.as_bytes(), 1, Some(read))
    };
    let got = run(rt.alloc(), input, &mut out)?;
    assert!(rt; is_failed_read(&got, &out, read), "read {read}");
    Ok(())
}

#[test]
fn failing_readers(rt: HostRuntime) -> Result<(), Fail> {
    // The sample's line has 16 bytes. The last one is its line feed.
    for read in 1..=17 {
        expect_failed_read(&rt, read, ErrorKind::Other)?;
        expect_failed_read(&rt, read, ErrorKind::Interrupted)?;
    }
    Ok(())
}

/// Returns whether a run ends with `fault` after the output of line 1.
///
/// Line 2 of `text` is invalid, or read number `fails_at` fails.
fn is_fault_after_line_1(
    alloc: Global,
    text: &[u8],
    fails_at: Option<u64>,
    fault: RunFault,
) -> Result<bool, AllocError> {
    let mut out = writer(alloc, usize::MAX, usize::MAX);
    let got = run(alloc, reader(text, usize::MAX, fails_at), &mut out)?;
    let is_taken = out.taken.as_slice() == MO_OUTPUT.as_bytes();
    Ok(got.returned == Err(fault) && got.flushes == 0 && is_taken)
}

#[rattlefmt::skip]
static FAULTS_AFTER_LINE_1: [(&str, &[u8], Option<u64>, RunFault); 2] = [
    // (what, text, failing read, result)
    ("read fails", b"\xe3\x82\x82\n\xe3\x81\x99", Some(2), RunFault::Read(2)),
    ("not UTF-8",  b"\xe3\x82\x82\n\xff\n",       None,    RunFault::NotUtf8(2)),
];

#[test]
fn faults_after_line_1(rt: HostRuntime) -> Result<(), Fail> {
    for (what, text, fails_at, fault) in &FAULTS_AFTER_LINE_1 {
        let is_reported = is_fault_after_line_1(rt.alloc(), text, *fails_at, *fault)?;
        assert!(rt; is_reported, "{what}");
    }
    Ok(())
}

/// Runs over three lines, with `step` bytes in each read and a writer with room for `room` bytes.
/// Returns the result and the number of reads.
fn result_and_reads(
    alloc: Global,
    step: usize,
    room: usize,
) -> Result<(Result<u64, RunFault>, u64), AllocError> {
    let mut out = writer(alloc, usize::MAX, room);
    let input = reader("も\nも\nも\n".as_bytes(), step, None);
    let got = run(alloc, input, &mut out)?;
    Ok((got.returned, got.reads))
}

#[rattlefmt::skip]
static READS: [(&str, usize, usize, Result<u64, RunFault>, u64); 4] = [
    // (what, bytes of a read, room of the writer, result, reads)
    ("a line a read",    4,  0,          Err(RunFault::Write(0)),  1),
    ("half a line",      2,  0,          Err(RunFault::Write(0)),  2),
    ("the second line",  4,  20,         Err(RunFault::Write(20)), 2),
    ("three lines",      12, usize::MAX, Ok(3),                    2),
];

#[test]
fn worked_through_before_the_next_read(rt: HostRuntime) -> Result<(), Fail> {
    for (what, step, room, wanted, reads) in &READS {
        let got = result_and_reads(rt.alloc(), *step, *room)?;
        assert!(rt; got == (*wanted, *reads), "{what}");
    }
    Ok(())
}

/// Returns `length` letters `z`, of which the first is replaced by `first` if there is one, and a
/// line feed if `ends`.
fn long_line(
    alloc: Global,
    first: Option<u8>,
    length: usize,
    ends: bool,
) -> Result<Vec<u8>, AllocError> {
    let mut line = Vec::from_elem(alloc, b'z', length)?;
    if let (Some(byte), Some(head)) = (first, line.first_mut()) {
        *head = byte;
    }
    if ends {
        line.push(b'\n')?;
    }
    Ok(line)
}

/// A label, the first byte of a line, its length, whether a line feed follows, a failing read, the
/// number of reads, and the result.
type LineRow = (
    &'static str,
    Option<u8>,
    usize,
    bool,
    Option<u64>,
    u64,
    Result<u64, RunFault>,
);

/// Returns the number of tabs. Each word prints one.
fn tabs(bytes: &[u8]) -> usize {
    bytes.iter().filter(|byte| **byte == b'\t').count()
}

/// Returns whether a run over a long line ends as `row` expects, with all of its words or none.
fn is_long_line(alloc: Global, row: &LineRow) -> Result<bool, AllocError> {
    let (_what, first, length, ends, fails_at, reads, wanted) = *row;
    let line = long_line(alloc, first, length, ends)?;
    let mut out = writer(alloc, usize::MAX, usize::MAX);
    let got = run(alloc, reader(&line, usize::MAX, fails_at), &mut out)?;
    // All letters except the last 25 are single words.
    let words = if wanted.is_ok() { SENTENCE_MAX - 24 } else { 0 };
    Ok(got.returned == wanted && got.reads == reads && tabs(&out.taken) == words)
}

#[rattlefmt::skip]
static LONG_LINES: [LineRow; 5] = [
    // (what, first byte, length, line feed, failing read, reads, result)
    ("a byte too long", None, SENTENCE_MAX + 1, false, Some(18), 17, Err(RunFault::TooLong(1))),
    ("far too long", None, SENTENCE_MAX + 200_000, true, None, 17, Err(RunFault::TooLong(1))),
    ("bad and too long", Some(0xff), SENTENCE_MAX + 1, true, None, 17, Err(RunFault::TooLong(1))),
    ("a bad byte", Some(0xff), SENTENCE_MAX, true, None, 17, Err(RunFault::NotUtf8(1))),
    ("the longest line", None, SENTENCE_MAX, false, None, 17, Ok(1)),
];

#[test]
fn long_lines(rt: HostRuntime) -> Result<(), Fail> {
    for row in &LONG_LINES {
        assert!(rt; is_long_line(rt.alloc(), row)?, "{}", row.0);
    }
    Ok(())
}
