//! Allocation failures of searches.
//!
//! Allocations fail under `tests/out_of_memory/run.py`, which expects the line `refused` on
//! standard error.

use super::sample_paths::{path_in, path_over};
use lattice::{Lattice, Path};
use std::alloc::Global;
use std::io::Eprint;
use std::process::Abort;
use std::test::Fail;
use test_support::again;
use test_support::samples::TestDictionary::{self, Letters, Sample};
use test_support::samples::{TwoDicts, overlay};
use word_lookup::Dictionaries;

/// The sample's line with blanks.
const SPACED: &str = " すもも  もも ";

/// Returns whether `path` has the total cost `total`, and `places` are the starts and ends of its
/// surfaces.
fn is_path(path: &Option<Path>, total: i64, places: &[(usize, usize)]) -> bool {
    let Some(path) = path else {
        return false;
    };
    let mut all = path.total == total && path.words.len() == places.len();
    for (word, place) in path.words.iter().zip(places) {
        all = all && (word.start, word.end) == *place;
    }
    all
}

/// Finds the best path with a new lattice once and with `lattice` twice, with one retry each.
fn expect_paths(
    rt: &(impl Abort + Alloc<A = Global> + Eprint),
    lattice: &mut Lattice,
    dictionaries: &Dictionaries<'_>,
    (text, total, places): (&str, i64, &[(usize, usize)]),
) -> Result<(), Fail> {
    let path = again!(rt, Err(_), path_over(rt.alloc(), dictionaries, text))?;
    assert!(rt; is_path(&path, total, places), "{text}");
    for _round in 0..2 {
        let path = again!(rt, Err(_), path_in(lattice, dictionaries, text))?;
        assert!(rt; is_path(&path, total, places), "{text}");
    }
    Ok(())
}

/// A dictionary, and a text with the total cost of its best path and the starts and ends of its
/// surfaces.
type Row<'a> = (TestDictionary, (&'a str, i64, &'a [(usize, usize)]));

#[rattlefmt::skip]
static SEARCHES_OUT_OF_MEMORY: [Row<'static>; 3] = [
    // (dictionary, (text, total cost, starts and ends of the surfaces))
    (Sample,  ("すもももも", 152, &[(0, 9), (9, 15)])),
    (Sample,  (SPACED,       152, &[(1, 10), (12, 18)])),
    (Letters, ("ab",         42,  &[(0, 1), (1, 2)])),
];

/// Checks the best path of a test case.
fn expect_row(
    rt: &(impl Abort + Alloc<A = Global> + Eprint),
    dicts: &TwoDicts,
    lattice: &mut Lattice,
    (requested, wanted): &Row<'_>,
) -> Result<(), Fail> {
    let dictionaries = overlay(dicts.of(*requested), &[])?;
    expect_paths(rt, lattice, &dictionaries, *wanted)
}

#[test]
fn search_out_of_memory(rt: HostRuntime) -> Result<(), Fail> {
    let dicts = TwoDicts::again(&rt)?;
    let mut lattice = Lattice::new(rt.alloc());
    for row in &SEARCHES_OUT_OF_MEMORY {
        expect_row(&rt, &dicts, &mut lattice, row)?;
    }
    Ok(())
}
