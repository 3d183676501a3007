//! Insertion of a key into a pool of cells.
ghost use Rattle.std.specs.Prelude.{◌≡◌, ℕ, ◌+◌, ◌<◌, ◌≤◌, ◌^◌, pos, negsuc, None, length, slice_set, false, IsTrue, IsSome, IfOk, IfErr, OnOk, OnErr};
ghost use Rattle.mj_model.specs.CellMap.{base as base_of, check as check_of, step as step_of, value_of, IsMapWith};
ghost use Rattle.double_array.specs.Built.{MeetsInvariants, values};
ghost use Rattle.double_array.specs.Insertion.{IsLongestMatch, HasRoom};
ghost use Rattle.double_array.specs.Moved.{HasSpaceAfterEachCell, HaveMoved};
ghost use Rattle.double_array.specs.Pool.{IsInUse};
ghost use Rattle.double_array.specs.declared.fault.DaFault.TheVariants.{Full, Memory};

use crate::clearing::free_target_cell;
use crate::fault::DaFault;
use crate::pool::{CellPool, WIDTH};
use crate::tail::{add_tail, code_at, value_base};
use cells::CELLS_MAX;

/// The number of cells by which the array grows for a key, in addition to the key's length in
/// bytes.
const GROWTH: usize = 600;

/// The result of an insertion: the value before, and the number of children that moved to other
/// cells.
#[derive(Clone, Copy, Debug, PartialEq, Eq, Drop)]
pub struct Inserted {
    pub old: Option<u32>,
    pub moved: u32,
}

/// The longest prefix of a key that leads to a state: the state, its base `from`, and the length
/// `used` of the prefix in bytes.
#[derive(Clone, Copy, Debug, Drop)]
pub(crate) struct LongestMatch {
    pub state: usize,
    pub from: usize,
    pub used: usize,
}

/// Sets the value of `key` to `value`. On an error the cells are unchanged.
pub(crate) fn insert_key(pool: &mut CellPool, key: &[u8], value: u32) -> Result<Inserted, DaFault>
    requires built { MeetsInvariants pool.old }
    requires some { 0 < length key.now }
    requires short { length key.now ≤ 65535 }
    requires value { value < values }
    ensures built { MeetsInvariants pool.new }
    ensures map { OnOk result (IsMapWith pool.old.cells pool.new.cells key.now value) }
    ensures old { IfOk result (λ inserted. inserted.old ≡ value_of pool.old.cells key.now) }
    ensures moved { IfOk result
        (λ inserted. HaveMoved pool.old.cells pool.new.cells key.now inserted.moved) }
    ensures few { IfOk result (λ inserted. inserted.moved ≤ 257) }
    ensures stays { IfOk result (λ inserted. IsSome inserted.old → inserted.moved ≡ 0) }
    ensures present { IfOk result (λ inserted. IsSome inserted.old
        → length pool.new.cells ≡ length pool.old.cells) }
    ensures least { length pool.old.cells ≤ length pool.new.cells }
    ensures most { length pool.new.cells ≤ length pool.old.cells + length key.now + 600 }
    ensures space { HasSpaceAfterEachCell pool.old.cells (length key.now)
        → length pool.new.cells ≡ length pool.old.cells }
    ensures unchanged { OnErr result (pool.new.cells ≡ pool.old.cells) }
    ensures absent { OnErr result (value_of pool.old.cells key.now ≡ None) }
    ensures needed { OnErr result (HasSpaceAfterEachCell pool.old.cells (length key.now) → ⊥) }
    ensures full { IfErr result (λ fault. fault ≡ Full
        → 2 ^ 30 < length pool.old.cells + length key.now + 600) }
    ensures out_of_memory { IfErr result (λ fault. fault ≡ Memory
        → length pool.old.cells + length key.now + 600 ≤ 2 ^ 30) }
{
    let at = walk_key(pool, key);
    let code = code_at(key, at.used);
    match child(pool, at.state, at.from, code) {
        Some(end) => Ok(Inserted {
            old: Some(replace_value(pool, end, value)),
            moved: 0,
        }),
        None => {
            make_room(pool, key.len(), key.len() - at.used)?;
            let cleared = free_target_cell(pool, at.state, at.from, code);
            add_tail(pool, key, at.used, cleared.state, cleared.wanted, value);
            Ok(Inserted {
                old: None,
                moved: cleared.moved,
            })
        }
    }
}

/// Walks over the bytes of `key` as far as there are states.
fn walk_key(pool: &CellPool, key: &[u8]) -> LongestMatch
    requires { MeetsInvariants pool.now }
    ensures { IsLongestMatch pool.now.cells key.now result }
{
    let mut state = 0;
    let mut from = pool.base(0);
    for (used, byte) in key.iter().enumerate() {
        match child(pool, state, from, *byte as usize + 1) {
            Some(next) => {
                state = next;
                from = pool.base(next);
            }
            None => return LongestMatch { state, from, used },
        }
    }
    LongestMatch {
        state,
        from,
        used: key.len(),
    }
}

/// Returns the cell of the step of `state` on `code`, if there is such a step. `from` is the base
/// of the state.
fn child(pool: &CellPool, state: usize, from: usize, code: usize) -> Option<usize>
    requires based { base_of pool.now.cells state ≡ pos from }
    requires within { from + code < length pool.now.cells }
    requires few { length pool.now.cells ≤ 2 ^ 30 }
    ensures { result ≡ step_of pool.now.cells state code }
{
    if pool.is_child(from + code, state) {
        Some(from + code)
    } else {
        None
    }
}

/// Replaces the value in the value cell `end`, and returns the old value.
fn replace_value(pool: &mut CellPool, end: usize, value: u32) -> u32
    requires used { IsInUse pool.old.cells end }
    requires within { end < length pool.old.cells }
    requires state { (v : ℕ) × (v < values) × (base_of pool.old.cells end ≡ negsuc v) }
    requires value { value < values }
    ensures value { base_of pool.old.cells end ≡ negsuc result }
    ensures cells { pool.new.cells
        ≡ slice_set pool.old.cells end (negsuc value, check_of pool.old.cells end) }
    ensures top { pool.new.top ≡ pool.old.top }
{
    let (base, _) = pool.cell(end);
    pool.set_base(end, value_base(value));
    -(base + 1) as u32
}

/// Makes room for two families and for `left` further codes.
///
/// The array grows before any other cell changes, and only if there is no room after its last used
/// cell. It grows by `key_length`, the length of the key in bytes, and `GROWTH`.
fn make_room(pool: &mut CellPool, key_length: usize, left: usize) -> Result<(), DaFault>
    requires built { MeetsInvariants pool.old }
    requires short { key_length ≤ 65535 }
    requires left { left ≤ key_length }
    ensures room { OnOk result (HasRoom pool.old pool.new key_length left) }
    ensures built { MeetsInvariants pool.new }
    ensures space { HasSpaceAfterEachCell pool.old.cells key_length
        → length pool.new.cells ≡ length pool.old.cells }
    ensures unchanged { OnErr result (pool.new.cells ≡ pool.old.cells) }
    ensures needed { OnErr result (HasSpaceAfterEachCell pool.old.cells key_length → ⊥) }
    ensures full { IfErr result (λ fault. fault ≡ Full
        → 2 ^ 30 < length pool.old.cells + key_length + 600) }
    ensures out_of_memory { IfErr result (λ fault. fault ≡ Memory
        → length pool.old.cells + key_length + 600 ≤ 2 ^ 30) }
{
    if has_room(pool, left) {
        return Ok(());
    }
    let wanted = pool.len() + key_length + GROWTH;
    if wanted > CELLS_MAX {
        return Err(DaFault::Full);
    }
    pool.grow(wanted).map_err(|_| DaFault::Memory)
}

/// Returns whether there is room for two families and `left` further codes after the last used
/// cell. Lowers the top if it is too high for that.
fn has_room(pool: &mut CellPool, left: usize) -> bool
    requires built { MeetsInvariants pool.old }
    requires short { left ≤ 65535 }
    ensures built { MeetsInvariants pool.new }
    ensures cells { pool.new.cells ≡ pool.old.cells }
    ensures room { IsTrue result → pool.new.top + 514 + left ≤ length pool.new.cells }
    ensures none { result ≡ false → (long : ℕ)
        → left ≤ long → HasSpaceAfterEachCell pool.old.cells long → ⊥ }
{
    let following = 2 * WIDTH + left;
    if pool.top() + following <= pool.len() {
        return true;
    }
    pool.lower_top();
    pool.top() + following <= pool.len()
}
