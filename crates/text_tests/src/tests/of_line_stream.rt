//! The limit on the number of reads. The limit of the public calls is too large for a test to
//! reach, so this one calls the loop itself.

use line_stream::{StreamFault, run_over};
use mj_model::{Counted, sample};
use out_format::Format;
use out_format::words_printer::{LineBuffers, WordsPrinter};
use std::alloc::Global;
use std::io;
use std::io::Read;
use std::process::Abort;
use std::test::Fail;
use test_support::samples::{overlay, system_dict};

/// A reader that returns one byte in each read.
#[derive(Drop)]
struct ByteByByte<'a> {
    bytes: &'a [u8],
}

impl Read for ByteByByte<'_> {
    fn read(&mut self, buf: &mut [u8]) -> io::Result<usize> {
        let bytes = self.bytes;
        let most = bytes.len().min(1).min(buf.len());
        buf[..most].copy_from_slice(&bytes[..most]);
        self.bytes = &bytes[most..];
        Ok(most)
    }
}

/// Checks the result of a run over `text` with at most 4 reads, and the output of its first line.
fn expect_bounded(
    rt: &(impl Abort + Alloc<A = Global>),
    format: &Format,
    what: &str,
    text: &str,
    expected: Result<u64, StreamFault>,
) -> Result<(), Fail> {
    let system = system_dict(rt.alloc(), &sample())?;
    let printer = WordsPrinter {
        alloc: rt.alloc(),
        dictionaries: overlay(&system, &[])?,
        format,
    };
    let mut kept = LineBuffers::new(rt.alloc());
    let mut input = Counted::new(ByteByByte {
        bytes: text.as_bytes(),
    });
    let mut out = Counted::new(Vec::new(rt.alloc()));
    let got = run_over(rt.alloc(), &printer, &mut kept, &mut input, &mut out, 4);
    assert!(rt; got == expected, "{what}");
    assert!(rt;
        out.get_ref().as_slice() == "ab\t未知\nEOS\n".as_bytes(),
        "{what}"
    );
    Ok(())
}

#[rattlefmt::skip]
static BOUND_ON_READS: [(&str, &str, Result<u64, StreamFault>); 2] = [
    // (what, text, result)
    ("no end in 4 reads",  "ab\ncd\n", Err(StreamFault::InputTooLong(2))),
    ("the end at the 4th", "ab\n",     Ok(1)),
];

#[test]
fn bound_on_reads(rt: HostRuntime) -> Result<(), Fail> {
    let format = Format::default_of(rt.alloc())?;
    for (what, text, expected) in &BOUND_ON_READS {
        expect_bounded(&rt, &format, what, text, *expected)?;
    }
    Ok(())
}
