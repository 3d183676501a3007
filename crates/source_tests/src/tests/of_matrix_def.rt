//! Connection costs.
pub mod out_of_memory;
mod pieces;

use super::faults::{Read, read_again};
use matrix_def::{Matrix, read_matrix};
use mj_model::{MatrixSizes, SourceFault};
use std::alloc::{Alloc, Global};
use std::io::Eprint;
use std::test::Fail;

/// Reads the `matrix.def` `bytes`.
pub fn table_of(alloc: Global, bytes: &[u8]) -> Result<Matrix, SourceFault> {
    read_matrix(alloc, bytes)
}

/// Reads the `matrix.def` `bytes`, with one retry after an allocation failure.
pub fn matrix_of(rt: &(impl Alloc<A = Global> + Eprint), bytes: &[u8]) -> Read<Matrix> {
    read_again(rt, bytes, table_of)
}

/// Reads the `matrix.def` `bytes` in two pieces of the same length.
fn of_halves(alloc: Global, bytes: &[u8]) -> Result<Matrix, SourceFault> {
    let middle = bytes.len() / 2;
    pieces::of_two(alloc, &bytes[..middle], &bytes[middle..])
}

/// Reads the `matrix.def` `bytes` in two pieces, with one retry after an allocation failure.
fn matrix_of_halves(rt: &(impl Alloc<A = Global> + Eprint), bytes: &[u8]) -> Read<Matrix> {
    read_again(rt, bytes, of_halves)
}

/// Returns the cost of a pair of ids, or `None` if one is out of range.
fn cost_of(matrix: &Matrix, right: u16, left: u16) -> Option<i16> {
    if matrix.is_valid(left, right) {
        Some(matrix.cost(right, left))
    } else {
        None
    }
}

/// The costs of an asymmetric matrix.
#[rattlefmt::skip]
static COSTS: [(u16, u16, Option<i16>); 8] = [
    // (right id of the preceding word, left id of the following word, cost)
    (0, 0, Some(0)), (0, 1, Some(0)), (0, 2, Some(100)), (0, 3, None),
    (1, 0, Some(9)), (1, 1, Some(0)), (1, 2, Some(0)),   (2, 0, None),
];

#[test]
fn asymmetric_matrix(rt: HostRuntime) -> Result<(), Fail> {
    let matrix = table_of(rt.alloc(), b"2 3\n0 2 100\n1 0 9\n")?;
    assert!(rt; matrix.sizes() == MatrixSizes { right: 2, left: 3 });
    for (right, left, expected) in &COSTS {
        let cost = cost_of(&matrix, *right, *left);
        assert!(rt; cost == *expected, "{right} {left}");
    }
    Ok(())
}

/// Matrices with one cost. In some the last line has no line feed.
#[rattlefmt::skip]
static LISTED: [(&str, &str, i16); 13] = [
    // (what, matrix.def, its one cost)
    ("the least",                    "1 1\n0 0 -434",                                 -434),
    ("a pair listed twice",          "1 1\n0 0 1\n0 0 2\n",                           2),
    ("blank lines and CR LF",        "\n \t\r\n1\t1\r\n\n 0  0\t7 \r\n\r\n",          7),
    ("signs and zeros",              "+1 01\n-0 00 -0007",                            -7),
    ("the lowest cost",              "1 1\n0 0 -32768",                               -32_768),
    ("blanks and tabs",              " \t  1 \t\t 1  \n  0 \t  0\t\t   -9  \t  ",     -9),
    ("blanks alone",                 "1 1\n0 0 7\n   \t   ",                          7),
    ("zeros",                        "001 0000001\n00 000 000000000000000012",        12),
    ("zeros after a sign",           "+001 +01\n-000 +00 -00000000000000032768",      -32_768),
    ("zeros within a number",        "1 1\n0 0 10001",                                10_001),
    ("a carriage return at the end", "1 1\n0 0 5\r",                                  5),
    ("blanks before it",             "1 1\n0 0 5  \r",                                5),
    ("a row after a long one",       "1 1\n00 00 00005   \n0  0   6",                 6),
];

/// Returns the cost of the ids 0 and 0 in a matrix.
fn first_cost(alloc: Global, text: &str) -> Result<Option<i16>, SourceFault> {
    Ok(cost_of(&table_of(alloc, text.as_bytes())?, 0, 0))
}

#[test]
fn listed_rows(rt: HostRuntime) -> Result<(), Fail> {
    for (what, text, expected) in &LISTED {
        assert_eq!(rt; first_cost(rt.alloc(), text)?, Some(*expected), "{what}");
    }
    Ok(())
}
