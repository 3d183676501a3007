//! Best paths whose allocations `tests/out_of_memory/run.py` counts and compares.

use super::sample_paths::{expect_sums, path_in};
use dict_image::Dict;
use lattice::Lattice;
use mj_model::sample;
use std::alloc::Global;
use std::process::Abort;
use std::test::Fail;
use test_support::samples::{letters, overlay, system_dict};

/// The number of letters of a text.
const LETTERS: usize = 2_000;

/// All letters except the last 25 are single words.
const WORDS: usize = 1_976;

/// The first word costs 1,015 with its connections, and each further one 1,007.
const TOTAL: i64 = 1_989_840;

/// Finds the best path with a new lattice, `calls` times.
fn search_lattice(
    rt: &(impl Abort + Alloc<A = Global>),
    dict: &Dict,
    text: &str,
    calls: usize,
) -> Result<(), Fail> {
    let dictionaries = overlay(dict, &[])?;
    let mut lattice = Lattice::new(rt.alloc());
    for _call in 0..calls {
        let path = path_in(&mut lattice, &dictionaries, text)?;
        expect_sums(rt, &path, TOTAL, WORDS);
    }
    Ok(())
}

/// Finds the best path with each of `lattices` new lattices, `calls` times.
fn search_lattices(
    rt: &(impl Abort + Alloc<A = Global>),
    lattices: usize,
    calls: usize,
) -> Result<(), Fail> {
    let text = letters(rt.alloc(), LETTERS)?;
    let dict = system_dict(rt.alloc(), &sample())?;
    for _lattice in 0..lattices {
        search_lattice(rt, &dict, text.as_str(), calls)?;
    }
    Ok(())
}

#[test]
fn one_call(rt: HostRuntime) -> Result<(), Fail> {
    search_lattices(&rt, 1, 1)
}

#[test]
fn two_calls(rt: HostRuntime) -> Result<(), Fail> {
    search_lattices(&rt, 1, 2)
}

#[test]
fn two_lattices(rt: HostRuntime) -> Result<(), Fail> {
    search_lattices(&rt, 2, 1)
}
