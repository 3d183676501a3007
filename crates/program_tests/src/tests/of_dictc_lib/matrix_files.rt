//! Files of connection costs whose header is rejected before they end.

use dictc_lib::MatrixFile;
use mj_model::SourceKind;
use programs::{Fault, Progress, ReadProgress};
use std::io::{self, Read};
use std::test::Fail;

/// Number of bytes after the first ones: more than one read gives.
const MORE: u64 = 1 << 20;

/// The first bytes of a file, the byte that is repeated after them, and whether the file is read to
/// its end.
type Start = (&'static str, u8, bool);

#[rattlefmt::skip]
static STARTS: [(&str, Start, SourceKind); 5] = [
    // (what, (the first bytes, the next ones, whether all are read), the error)
    ("letters",          ("",      b'x', false), SourceKind::BadHeader),
    ("a long number",    ("2 ",    b'2', false), SourceKind::BadHeader),
    ("zero bytes",       ("\n\n",  0,    false), SourceKind::BadHeader),
    ("blanks",           ("2 ",    b' ', true),  SourceKind::BadHeader),
    ("a row of letters", ("2 2\n", b'x', true),  SourceKind::BadRow),
];

/// Returns the error of a file, and whether all of it was read.
fn read(rt: &HostRuntime, (first, next, _): &Start) -> Result<(Option<SourceKind>, bool), Fault> {
    let progress = Progress::new(rt);
    let reading = ReadProgress {
        progress: &progress,
        path: "matrix.def",
        all: 0,
    };
    let mut file = first.as_bytes().chain(io::repeat(*next).take(MORE));
    let read = MatrixFile::read_from(rt.alloc(), reading, &mut file)?;
    let kind = read.matrix().err().map(|fault| fault.kind);
    Ok((kind, file.get_ref().1.limit() == 0))
}

#[test]
fn rejected_headers(rt: HostRuntime) -> Result<(), Fail> {
    for (what, start, kind) in &STARTS {
        let Ok(found) = read(&rt, start) else {
            return Err(Fail::new(*what));
        };
        assert!(rt; found == (Some(*kind), start.2), "{what}");
    }
    Ok(())
}
