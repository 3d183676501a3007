//! Invalid matrices, and allocation failures.
//!
//! Allocations fail under `tests/out_of_memory/run.py`, which expects the line `refused` on
//! standard error.
use super::{matrix_of, matrix_of_halves};
use crate::tests::faults::Read;
use matrix_def::Matrix;
use mj_model::SourceKind::{self, BadHeader, BadRow, PairOutside, TooLarge};
use std::process::Abort;
use std::test::Fail;

/// A label, a `matrix.def`, the line of its error and the kind of the error.
pub type Row = (&'static str, &'static [u8], u64, SourceKind);

/// Matrices that are rejected.
#[rattlefmt::skip]
static MATRICES: [Row; 31] = [
    ("no bytes",                         b"", 0, BadHeader),
    ("blank lines",                      b"\n \t\n", 0, BadHeader),
    ("no right ids",                     b"0 2\n", 1, BadHeader),
    ("no left ids",                      b"\n2 0\n", 2, BadHeader),
    ("too many right ids",               b"65536 1\n", 1, BadHeader),
    ("one size",                         b"2\n", 1, BadHeader),
    ("three sizes",                      b"2 2 2\n", 1, BadHeader),
    ("too many pairs",                   b"65535 65535\n", 1, TooLarge),
    ("a high cost",                      b"2 2\n0 0 40000\n", 2, BadRow),
    ("no cost",                          b"2 2\n0 0\n", 2, BadRow),
    ("two costs",                        b"2 2\n0 0 1 1\n", 2, BadRow),
    ("a right id, and a bad row",        b"2 2\n\n2 0 1\nx\n", 3, PairOutside),
    ("a left id",                        b"2 2\n0 2 1\n", 2, PairOutside),
    ("a pair twice",                     b"2 2\n0 0 -434\n0 0 40000\n", 3, BadRow),
    ("a right id",                       b"2 2\n0 0 -434\n2 0 1\n", 3, PairOutside),
    ("no right ids, a row",              b"0 2\n0 0 -434\n", 1, BadHeader),
    ("one size, then two",               b"\n2\n1 1\n", 2, BadHeader),
    ("a right id, a bad row",            b"2 2\r\n\r\n2 0 1\r\nx\r\n", 3, PairOutside),
    ("no cost, no line feed",            b"2 2\n0 0 1\n0 0", 3, BadRow),
    ("two costs, and rows",              b"2 2\n0 0 1 1\n2 2\n0 0 1\n", 2, BadRow),
    ("three sizes, blanks",              b"1 1 1  ", 1, BadHeader),
    ("a high size in zeros",             b"1 000100000000000000", 1, BadHeader),
    ("two costs, one of zeros",          b"1 1\n0 0 1 0000  ", 2, BadRow),
    ("a high cost after zeros",          b"1 1\n0 0 00012345678901234567890", 2, BadRow),
    ("a high id after zeros",            b"1 1\n0 00065536 1  ", 2, BadRow),
    ("a sign and blanks",                b"1 1\n0 0 -  5", 2, BadRow),
    ("a sign after a zero",              b"1 1\n0 0 0-5", 2, BadRow),
    ("two carriage returns",             b"1 1\n0 0 5\r\r", 2, BadRow),
    ("one and a blank",                  b"1 1\n0 0 5\r ", 2, BadRow),
    ("one and a letter",                 b"1 1\n0 0 5\rx", 2, BadRow),
    ("an id after zeros",                b"1 1\n0  0000001   5   ", 2, PairOutside),
];

/// Returns the test cases. A call keeps the table out of the caller's proof.
pub fn rows_of_matrices() -> &'static [Row] {
    &MATRICES
}

/// Matrices that are accepted.
#[rattlefmt::skip]
static ACCEPTED: [(&str, &[u8], &[i16]); 3] = [
    // (what, matrix.def, the costs by right id, then by left id)
    ("asymmetric",   b"2 3\n0 2 100\n1 0 9\n",                          &[0, 0, 100, 9, 0, 0]),
    ("each pair",    b"2 2\n0 0 0\n0 1 10\n1 0 5\n1 1 7\n",             &[0, 10, 5, 7]),
    ("a pair twice", b"2 2\n0 0 0\n0 1 10\n1 0 5\n1 1 7\n0 0 -434\n",   &[-434, 10, 5, 7]),
];

/// Checks the costs of the accepted matrices, which `read` reads.
fn expect_costs<F: Fn(&[u8]) -> Read<Matrix> + Drop>(rt: &impl Abort, read: F) -> Result<(), Fail>
    requires { F.IsAlwaysCallable read }
{
    for (what, bytes, costs) in &ACCEPTED {
        let matrix = read(bytes)??;
        assert_eq!(rt; matrix.costs(), *costs, "{what}");
    }
    Ok(())
}

#[test]
fn matrix_out_of_memory(rt: HostRuntime) -> Result<(), Fail> {
    expect_costs(&rt, |bytes| matrix_of(&rt, bytes))
}

#[test]
fn matrix_in_halves_out_of_memory(rt: HostRuntime) -> Result<(), Fail> {
    expect_costs(&rt, |bytes| matrix_of_halves(&rt, bytes))
}

#[test]
fn invalid_matrix_out_of_memory(rt: HostRuntime) -> Result<(), Fail> {
    for (what, bytes, line, kind) in rows_of_matrices() {
        let fault = matrix_of(&rt, bytes)?.err();
        assert_eq!(rt; fault, Some(kind.at(0, *line)), "{what}");
    }
    Ok(())
}
