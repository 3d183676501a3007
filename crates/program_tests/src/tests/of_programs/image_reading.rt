//! Images whose header is checked before the remainder is read.

use First::{Image, Other};
use Outcome::{Endless, Rejected, Whole};
use dict_image::DigestTest;
use mj_model::ImageFault::{self, BadLayout, BadMagic, BadSection, Truncated};
use programs::{ImageReadFault, ImageReading, ReadFault, read_image};
use std::alloc::{AllocError, Global};
use std::io::{self, Read};
use std::process::Abort;
use std::test::Fail;

/// `NUMBERS` is the length in bytes of the magic and the header fields, `LENGTHS` that of the section
/// lengths.
const NUMBERS: usize = 40;

const LENGTHS: usize = 64;

/// A reader that returns the bytes of `text`, `at_once` in each read. Then it ends, or returns
/// zeros for ever.
#[derive(Drop)]
struct Dripping<'a> {
    text: &'a [u8],
    at_once: usize,
    ends: bool,
    reads: usize,
}

impl Read for Dripping<'_> {
    fn read(&mut self, buf: &mut [u8]) -> io::Result<usize> {
        self.reads = self.reads.saturating_add(1);
        if self.text.is_empty() && !self.ends {
            return Ok(buf.len().min(self.at_once));
        }
        let count = buf.len().min(self.at_once).min(self.text.len());
        let (now, later) = self.text.split_at(count);
        buf[..count].copy_from_slice(now);
        self.text = later;
        Ok(count)
    }
}

/// Returns a header of layout `layout`, and `following` zeros after it.
///
/// Section 1 has a length of `section` bytes. The other lengths are 0.
fn image(alloc: Global, layout: u8, section: u64, following: usize) -> Result<Vec<u8>, AllocError> {
    let mut bytes = Vec::new(alloc);
    bytes.extend_from_slice(b"MJDICT\r\n")?;
    bytes.push(layout)?;
    bytes.resize(NUMBERS, 0)?;
    bytes.extend_from_slice(&section.to_le_bytes())?;
    bytes.resize((NUMBERS + LENGTHS).saturating_add(following), 0)?;
    Ok(bytes)
}

/// The result of reading an image.
#[derive(Clone, Copy, PartialEq)]
enum Outcome {
    Whole,
    Rejected(ImageFault),
    Endless,
}

/// Reads an image from `reader`, and returns `Whole` if it has the bytes `bytes`, or the error.
///
/// The checksum is checked, and no progress is printed.
fn outcome_of<R: Read>(
    alloc: Global,
    reader: &mut R,
    known: Option<u64>,
    reads: u64,
    bytes: &[u8],
) -> Option<Outcome> {
    let reading = ImageReading {
        digest: DigestTest::Verified,
        reported: None,
    };
    match read_image(alloc, reader, known, reads, reading) {
        Ok(image) => (image.bytes.as_slice() == bytes).then_some(Outcome::Whole),
        Err(ImageReadFault::Image(fault)) => Some(Outcome::Rejected(fault)),
        Err(ImageReadFault::Read(ReadFault::Endless)) => Some(Outcome::Endless),
        Err(ImageReadFault::Read(_)) => None,
    }
}

/// A label, the layout, the bytes of section 1 and those after the header, the known length, the
/// most reads, and the result.
type HeadRow = (&'static str, u8, u64, usize, Option<u64>, u64, Outcome);

fn expect_checked(
    rt: &(impl Abort + Alloc<A = Global>),
    (what, layout, section, following, known, reads, wanted): &HeadRow,
) -> Result<(), AllocError> {
    let bytes = image(rt.alloc(), *layout, *section, *following)?;
    let mut reader = bytes.as_slice();
    let outcome = outcome_of(rt.alloc(), &mut reader, *known, *reads, &bytes);
    assert!(rt; outcome == Some(*wanted), "{what}");
    Ok(())
}

const MUCH: u64 = 1 << 40;

#[rattlefmt::skip]
static CHECKED_HEADS: [HeadRow; 18] = [
    // (what, layout, bytes of section 1, bytes after the header, known length, most reads, result)
    ("as many as stated",        1, 10, 10, Some(114), 3, Whole),
    ("the same of a pipe",       1, 10, 10, None,      3, Whole),
    ("with a digest",            3, 10, 42, Some(146), 3, Whole),
    ("a header alone",           2,  0,  0, Some(104), 3, Whole),
    ("fewer",                    1, 10,  9, Some(113), 3, Rejected(Truncated)),
    ("fewer, of a pipe",         1, 10,  9, None,      3, Whole),
    ("no digest",                3, 10, 10, Some(114), 3, Rejected(Truncated)),
    ("more",                     1, 10, 11, Some(115), 3, Rejected(BadSection(9))),
    ("more, of a pipe",          1, 10, 11, None,      3, Rejected(BadSection(9))),
    ("many more, of a pipe",     1, 10, 99, None,      3, Rejected(BadSection(9))),
    ("a huge length",            1, MUCH, 0, Some(104), 3, Rejected(Truncated)),
    ("a huge length, of a pipe", 1, MUCH, 0, None,     3, Whole),
    ("more than can be counted", 3, u64::MAX, 0, None, 3, Rejected(Truncated)),
    ("a reported length of 0",   1, 10, 10, Some(0),   3, Whole),
    ("layout 0",                 0, 10, 10, Some(114), 3, Rejected(BadLayout(0))),
    ("layout 4 before lengths",  4, 10,  9, Some(113), 3, Rejected(BadLayout(4))),
    ("too few reads for it",     1, 10, 10, Some(114), 1, Endless),
    ("none",                     1, 10, 10, Some(114), 0, Endless),
];

#[test]
fn checked_heads(rt: HostRuntime) -> Result<(), Fail> {
    for row in &CHECKED_HEADS {
        expect_checked(&rt, row)?;
    }
    Ok(())
}

/// The first bytes of an image or of another file: this many, or all if there are fewer.
enum First {
    Image(usize),
    Other(usize),
}

/// A label, the bytes, how many a read returns, whether they end, the result, and the most reads.
type DrippingRow = (&'static str, First, usize, bool, Outcome, usize);

/// Checks that a header is checked as soon as it is complete, in reads of any size.
fn expect_dripping(
    rt: &(impl Abort + Alloc<A = Global>),
    files: (&[u8], &[u8]),
    (what, first, at_once, ends, wanted, most): &DrippingRow,
) {
    let (bytes, count) = match first {
        Image(count) => (files.0, *count),
        Other(count) => (files.1, *count),
    };
    let bytes = &bytes[..count.min(bytes.len())];
    let mut reader = Dripping {
        text: bytes,
        at_once: *at_once,
        ends: *ends,
        reads: 0,
    };
    let outcome = outcome_of(rt.alloc(), &mut reader, None, 1 << 40, bytes);
    assert!(rt; outcome == Some(*wanted), "{what}");
    assert!(rt; reader.reads <= *most, "{what}: {} reads", reader.reads);
}

#[rattlefmt::skip]
static DRIPPING_HEADS: [DrippingRow; 11] = [
    // (what, bytes, bytes of a read, whether they end, result, most reads)
    ("single bytes",           Image(usize::MAX), 1,      true,  Whole,                   70_105),
    ("a header at once",       Image(usize::MAX), 104,    true,  Whole,                   676),
    ("all at once",            Image(usize::MAX), 99_999, true,  Whole,                   3),
    ("zeros after it",         Image(usize::MAX), 99_999, false, Rejected(BadSection(9)), 3),
    ("zeros after it, singly", Image(usize::MAX), 1,      false, Rejected(BadSection(9)), 70_105),
    ("zeros after a part",     Image(200),        99_999, false, Rejected(BadSection(9)), 4),
    ("another file",           Other(usize::MAX), 99_999, true,  Rejected(BadMagic),      1),
    ("another one, singly",    Other(usize::MAX), 1,      true,  Rejected(BadMagic),      104),
    ("fewer than a header",    Other(103),        99_999, true,  Whole,                   2),
    ("nothing",                Other(0),          99_999, true,  Whole,                   1),
    ("zeros for ever",         Other(0),          99_999, false, Rejected(BadMagic),      1),
];

#[test]
fn dripping_heads(rt: HostRuntime) -> Result<(), Fail> {
    let of_image = image(rt.alloc(), 1, 70_000, 70_000)?;
    let other = vec![in rt.alloc(); 7_u8; 300]?;
    for row in &DRIPPING_HEADS {
        expect_dripping(&rt, (&of_image, &other), row);
    }
    Ok(())
}
