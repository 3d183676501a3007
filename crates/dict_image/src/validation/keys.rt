//! The key of each group, found backward from the cell with the group's value. Each cell's key
//! prefix is cached, so no cell is walked twice.
ghost use Rattle.std.specs.Prelude.{◌≡◌, ℕ, ◌↔◌, pos, negsuc, suc, Some, IsTrue, IfOk, MatchOption};
ghost use Rattle.mj_model.specs.CellMap.{base as base_of, check as check_of, step};
ghost use Rattle.mj_model.specs.CellRules.{AreCells};
ghost use Rattle.image_format.specs.ImageFaults.{HasKey};
ghost use Rattle.image_format.specs.ImageSections.{OccursOnce, stored_cells};
ghost use Rattle.dict_image.specs.Validation.Checks.{IsLeastOrNone};
ghost use Rattle.dict_image.specs.Validation.KeyPrefixes.{AreKeyPrefixes, IsKeyPrefixIfNear, IsTooFar};
ghost use Rattle.dict_image.specs.Validation.Values.{HoldEach, ArePlaces};
ghost use Rattle.dict_image.specs.Validation.PathsToKnown.{IsState, IsPathToKnown};

use crate::validation::cell::{Signed, read_cell};
use crate::validation::key_prefix::KeyPrefix;
use image_format::ImageCells;
use mj_model::SURFACE_MAX;
use mj_model::cell_walk::CellRead;
use std::alloc::{AllocError, Global};

/// A cell with its cached key prefix.
#[derive(Clone, Copy)]
struct KnownCell {
    cell: usize,
    prefix: KeyPrefix,
}

/// Returns the first group without a key, or None if each group has one. `places` are the numbers
/// of the cells of the groups' values. Linear in the number of cells.
pub(crate) fn first_without_key(
    alloc: Global,
    groups: u32,
    cells: &ImageCells<'_>,
    places: &[u32],
) -> Result<Option<u32>, AllocError>
    requires each { HoldEach groups (stored_cells cells.now.bytes.now) }
    requires places { ArePlaces groups (stored_cells cells.now.bytes.now) places.now }
    ensures { IfOk result (IsLeastOrNone groups (HasKey (stored_cells cells.now.bytes.now))) }
{
    let mut prefixes = root_key_prefix(alloc, cells)?;
    let mut path = Vec::new(alloc);
    for group in 0..groups {
        let place = places[group as usize] as usize;
        if !has_key(cells, group, place, &mut prefixes, &mut path)? {
            return Ok(Some(group));
        }
    }
    Ok(None)
}

/// Returns an empty cache for all cells, with the entry of cell 0 set.
fn root_key_prefix(
    alloc: Global,
    cells: &ImageCells<'_>,
) -> Result<Vec<Option<KeyPrefix>>, AllocError>
    requires cells { AreCells (stored_cells cells.now.bytes.now) }
    ensures { IfOk result
        (λ prefixes. AreKeyPrefixes (stored_cells cells.now.bytes.now) prefixes.items) }
{
    let mut prefixes = Vec::from_elem(alloc, None, cells.len())?;
    prefixes[0] = Some(KeyPrefix::empty());
    Ok(prefixes)
}

/// Returns whether `group` has a key. `place` is the cell of its value.
fn has_key(
    cells: &ImageCells<'_>,
    group: u32,
    place: usize,
    prefixes: &mut [Option<KeyPrefix>],
    path: &mut Vec<usize>,
) -> Result<bool, AllocError>
    requires cells { AreCells (stored_cells cells.now.bytes.now) }
    requires once { OccursOnce (stored_cells cells.now.bytes.now) group }
    requires holds { base_of (stored_cells cells.now.bytes.now) place ≡ negsuc group }
    requires prefixes { AreKeyPrefixes (stored_cells cells.now.bytes.now) prefixes.old }
    ensures prefixes { AreKeyPrefixes (stored_cells cells.now.bytes.now) prefixes.new }
    ensures has { IfOk result
        (λ has. IsTrue has ↔ HasKey (stored_cells cells.now.bytes.now) group) }
{
    let state = state_before(cells, place);
    match key_prefix_of(cells, state, prefixes, path)? {
        Some(prefix) => Ok(prefix.is_key()),
        None => Ok(false),
    }
}

/// Returns the prefix that leads to `state`, and caches it. Returns None if no bytes lead there, or
/// more than `SURFACE_MAX`. `path` is a buffer for the states on the path back to a cached cell.
fn key_prefix_of(
    cells: &ImageCells<'_>,
    state: usize,
    prefixes: &mut [Option<KeyPrefix>],
    path: &mut Vec<usize>,
) -> Result<Option<KeyPrefix>, AllocError>
    requires cells { AreCells (stored_cells cells.now.bytes.now) }
    requires state { IsState (stored_cells cells.now.bytes.now) state }
    requires prefixes { AreKeyPrefixes (stored_cells cells.now.bytes.now) prefixes.old }
    ensures prefixes { AreKeyPrefixes (stored_cells cells.now.bytes.now) prefixes.new }
    ensures key_prefix { IfOk result (IsKeyPrefixIfNear (stored_cells cells.now.bytes.now) state) }
{
    match path_to_known(cells, state, prefixes, path)? {
        Some(known) => Ok(record_path(cells, known, prefixes, path)),
        None => Ok(None),
    }
}

/// Returns the first cached cell on the path back from `state`, and stores the uncached states in
/// `path`. Returns None after `SURFACE_MAX` of them.
fn path_to_known(
    cells: &ImageCells<'_>,
    state: usize,
    prefixes: &[Option<KeyPrefix>],
    path: &mut Vec<usize>,
) -> Result<Option<KnownCell>, AllocError>
    requires cells { AreCells (stored_cells cells.now.bytes.now) }
    requires state { IsState (stored_cells cells.now.bytes.now) state }
    requires prefixes { AreKeyPrefixes (stored_cells cells.now.bytes.now) prefixes.now }
    ensures { IfOk result (λ found. MatchOption found
        (IsTooFar (stored_cells cells.now.bytes.now) state)
        (IsPathToKnown (stored_cells cells.now.bytes.now) state path.new.items)) }
{
    path.clear();
    let mut cell = state;
    loop {
        if let Some(prefix) = prefixes[cell] {
            return Ok(Some(KnownCell { cell, prefix }));
        }
        if path.len() == SURFACE_MAX {
            return Ok(None);
        }
        path.push(cell)?;
        cell = state_before(cells, cell);
    }
}

/// Caches the prefix of each state in `path`, from the one next to `known` on, and returns the
/// prefix of the last. Returns None if it becomes too long.
fn record_path(
    cells: &ImageCells<'_>,
    known: KnownCell,
    prefixes: &mut [Option<KeyPrefix>],
    path: &mut Vec<usize>,
) -> Option<KeyPrefix>
    requires cells { AreCells (stored_cells cells.now.bytes.now) }
    requires prefixes { AreKeyPrefixes (stored_cells cells.now.bytes.now) prefixes.old }
    requires path { (state : ℕ)
        × IsPathToKnown (stored_cells cells.now.bytes.now) state path.old.items known }
    ensures prefixes { AreKeyPrefixes (stored_cells cells.now.bytes.now) prefixes.new }
    ensures key_prefix { (state : ℕ)
        → IsPathToKnown (stored_cells cells.now.bytes.now) state path.old.items known
        → IsKeyPrefixIfNear (stored_cells cells.now.bytes.now) state result }
{
    let mut cell = known.cell;
    let mut prefix = known.prefix;
    while let Some(next) = path.pop() {
        prefix = prefix.after(byte_between(cells, cell, next))?;
        prefixes[next] = Some(prefix);
        cell = next;
    }
    Some(prefix)
}

/// Returns the byte of the step from state `from` to state `to`.
fn byte_between(cells: &ImageCells<'_>, from: usize, to: usize) -> u8
    requires cells { AreCells (stored_cells cells.now.bytes.now) }
    requires to { IsState (stored_cells cells.now.bytes.now) to }
    requires named { check_of (stored_cells cells.now.bytes.now) to ≡ pos from }
    ensures { step (stored_cells cells.now.bytes.now) from (suc result) ≡ Some to }
{
    (to - base_at(cells, from) - 1) as u8
}

/// Returns the state from which a step leads to the used cell `t`: its CHECK.
fn state_before(cells: &ImageCells<'_>, t: usize) -> usize
    requires { (s : ℕ) × (check_of (stored_cells cells.now.bytes.now) t ≡ pos s) }
    ensures { check_of (stored_cells cells.now.bytes.now) t ≡ pos result }
{
    match read_cell(cells, t).check {
        Signed::Natural(state) => state as usize,
        Signed::Negative(_) => unreachable!(),
    }
}

/// Returns the BASE of a state.
fn base_at(cells: &ImageCells<'_>, state: usize) -> usize
    requires { IsState (stored_cells cells.now.bytes.now) state }
    ensures { base_of (stored_cells cells.now.bytes.now) state ≡ pos result }
{
    match read_cell(cells, state).base {
        Signed::Natural(base) => base as usize,
        Signed::Negative(_) => unreachable!(),
    }
}
