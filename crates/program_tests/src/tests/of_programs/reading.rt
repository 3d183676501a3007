//! Readers that are read to their end, and those that fail.

use programs::{ReadFault, read_whole};
use std::alloc::{AllocError, Global};
use std::io::{self, ErrorKind, Read};
use std::process::Abort;
use std::test::Fail;

/// A reader that fails after `reads` reads of one byte.
#[derive(Drop)]
struct Failing {
    reads: usize,
}

impl Read for Failing {
    fn read(&mut self, buf: &mut [u8]) -> io::Result<usize> {
        if self.reads == 0 {
            return Err(io::Error::from(ErrorKind::Interrupted));
        }
        self.reads -= 1;
        Ok(buf.len().min(1))
    }
}

/// Checks that a text of `length` bytes is read to its end within `reads` reads if `ends`, and is
/// `Endless` otherwise.
fn expect_read(
    rt: &(impl Abort + Alloc<A = Global>),
    length: usize,
    reads: u64,
    ends: bool,
) -> Result<(), AllocError> {
    let text = vec![in rt.alloc(); 7_u8; length]?;
    let mut reader = text.as_slice();
    match read_whole(rt.alloc(), &mut reader, reads) {
        Ok(bytes) => assert!(rt; ends && bytes == text, "{length} in {reads}"),
        Err(ReadFault::Endless) => assert!(rt; !ends, "{length} in {reads}"),
        Err(_) => assert!(rt; false, "{length} in {reads}"),
    }
    Ok(())
}

#[rattlefmt::skip]
static READERS_OF_SOME_LENGTH: [(usize, u64, bool); 10] = [
    // (bytes, reads, whether the text ends within them)
    (0,       1, true),
    (0,       0, false),
    (1,       2, true),
    (1,       1, false),
    (65_536,  2, true),
    (65_537,  3, true),
    (65_537,  2, false),
    (200_000, 5, true),
    (300_000, 6, true),
    (300_000, 5, false),
];

#[test]
fn readers_of_some_length(rt: HostRuntime) -> Result<(), Fail> {
    for (length, reads, ends) in &READERS_OF_SOME_LENGTH {
        expect_read(&rt, *length, *reads, *ends)?;
    }
    Ok(())
}

#[test]
fn failing_readers(rt: HostRuntime) -> Result<(), Fail> {
    for reads in [0, 1, 5] {
        let fault = read_whole(rt.alloc(), &mut Failing { reads }, 9).err();
        let Some(ReadFault::Device(error)) = &fault else {
            assert!(rt; false, "after {reads} reads");
            return Ok(());
        };
        assert!(rt;
            error.kind() == ErrorKind::Interrupted,
            "after {reads} reads"
        );
    }
    Ok(())
}
