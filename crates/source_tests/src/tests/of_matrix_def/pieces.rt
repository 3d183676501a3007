//! A `matrix.def` that is read in pieces gives the result of reading it as one slice.
use super::out_of_memory::rows_of_matrices;
use super::{LISTED, table_of};
use matrix_def::{Matrix, MatrixReader};
use mj_model::{SourceFault, SourceKind};
use std::alloc::{Alloc, Global};
use std::process::Abort;
use std::test::Fail;

/// Reads a matrix in two pieces.
pub fn of_two(alloc: Global, first: &[u8], second: &[u8]) -> Result<Matrix, SourceFault> {
    MatrixReader::new(alloc).read(first)?.read(second)?.finish()
}

/// Reads a matrix in pieces of one byte.
fn of_bytes(alloc: Global, bytes: &[u8]) -> Result<Matrix, SourceFault> {
    let mut reader = MatrixReader::new(alloc);
    for at in 0..bytes.len() {
        reader = reader.read(&bytes[at..at + 1])?;
    }
    reader.finish()
}

/// The costs of a matrix, or its error.
type Expected<'a> = Result<&'a [i16], SourceFault>;

/// Returns whether `read` has the costs or the error `expected`.
fn is_expected(read: Result<Matrix, SourceFault>, expected: Expected<'_>) -> bool {
    match (read, expected) {
        (Ok(matrix), Ok(costs)) => matrix.costs() == costs,
        (Err(fault), Err(expected)) => fault == expected,
        _ => false,
    }
}

/// Checks the result of reading `bytes` in two pieces split at each position, byte by byte, and as
/// one slice.
fn expect_read(
    rt: &(impl Abort + Alloc<A = Global>),
    what: &str,
    bytes: &[u8],
    expected: Expected<'_>,
) {
    for at in 0..bytes.len() + 1 {
        let read = of_two(rt.alloc(), &bytes[..at], &bytes[at..]);
        assert!(rt; is_expected(read, expected), "{what}, cut at {at}");
    }
    let read = of_bytes(rt.alloc(), bytes);
    assert!(rt; is_expected(read, expected), "{what}, byte by byte");
    let read = table_of(rt.alloc(), bytes);
    assert!(rt; is_expected(read, expected), "{what}, as one slice");
}

#[test]
fn costs_of_pieces(rt: HostRuntime) {
    let bytes = b"\r\n2 3\r\n \t\n0 2 100\r\n1 0 -9\n0 2 7\r\n1 1 32767";
    expect_read(&rt, "a pair twice", bytes, Ok(&[0, 0, 7, -9, 32767, 0]));
}

#[test]
fn listed_rows_of_pieces(rt: HostRuntime) {
    for (what, text, cost) in &LISTED {
        expect_read(&rt, what, text.as_bytes(), Ok(&[*cost]));
    }
}

#[test]
fn faults_of_pieces(rt: HostRuntime) {
    for (what, text, line, kind) in rows_of_matrices() {
        expect_read(&rt, what, text, Err(kind.at(0, *line)));
    }
}

/// The starts of matrices. A header is rejected before its end if no size starts with its last word,
/// without the last byte.
#[rattlefmt::skip]
static STARTS: [(&str, &[u8], Option<u64>); 13] = [
    // (what, the bytes that were read, the line of the header that is rejected)
    ("no bytes",                      b"",                    None),
    ("zero bytes",                    b"\0\0\0",              Some(1)),
    ("zero bytes after blank lines",  b"\n \t\r\n\0\0\0",    Some(3)),
    ("zero bytes after a size",       b"2 \0\0\0",            Some(1)),
    ("zero bytes in a row",           b"2 2\n\0\0\0",         None),
    ("a sign",                        b"+",                   None),
    ("a sign, a digit and a blank",   b"+1 ",                 None),
    ("a sign and a letter",           b"+x ",                 Some(1)),
    ("zeros",                         b"00000000000000000000", None),
    ("the greatest size",             b"65535 65535 ",        None),
    ("a greater size",                b"1 65536 ",            Some(1)),
    ("a carriage return",             b"2 2\r",               None),
    ("a carriage return and a digit", b"2 2\r2",              Some(1)),
];

#[test]
fn header_starts(rt: HostRuntime) -> Result<(), Fail> {
    for (what, start, line) in &STARTS {
        let fault = MatrixReader::new(rt.alloc()).read(start)?.header_fault();
        let expected = line.map(|line| SourceKind::BadHeader.at(0, line));
        assert_eq!(rt; fault, expected, "{what}");
    }
    Ok(())
}
