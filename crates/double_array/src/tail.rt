//! The end of a new key: a cell for each code, each a child of the one before.
ghost use Rattle.std.specs.Prelude.{◌≡◌, ◌+◌, ◌-◌, ◌<◌, ◌≤◌, ◌^◌, max, pos, negsuc, length, slice_set, slice_index};
ghost use Rattle.mj_model.specs.CellMap.{free_cell, cell_at, codes_of, IsMapWith};
ghost use Rattle.double_array.specs.Built.{MeetsInvariants, values};
ghost use Rattle.double_array.specs.Tail.{AreUnchanged, IsReady, IsStateAdded};

use crate::pool::{BASE_MIN, CellPool};

/// Returns code `i` of a key: the code of the byte, or 0 at the end of the key.
pub(crate) fn code_at(key: &[u8], i: usize) -> usize
    requires { i ≤ length key.now }
    ensures code { result ≡ slice_index (codes_of key.now) i }
    ensures bounded { result ≤ 256 }
{
    if i < key.len() {
        key[i] as usize + 1
    } else {
        0
    }
}

/// Adds the cells for a key's codes from index `used` on, and stores the value in the last one.
///
/// The codes before `used` lead to `state`, and `wanted` is the free cell of its step on the next
/// code.
pub(crate) fn add_tail(
    pool: &mut CellPool,
    key: &[u8],
    used: usize,
    state: usize,
    wanted: usize,
    value: u32,
)
    requires key { 0 < length key.now }
    requires ready { IsReady pool.old key.now used state wanted }
    requires value { value < values }
    ensures map { IsMapWith pool.old.cells pool.new.cells key.now value }
    ensures built { MeetsInvariants pool.new }
    ensures unchanged { AreUnchanged pool.old.cells pool.new.cells }
    ensures long { length pool.new.cells ≡ length pool.old.cells }
{
    let mut state = state;
    let mut wanted = wanted;
    for i in used..key.len() {
        let next = add_state(pool, state, wanted, code_at(key, i + 1));
        state = wanted;
        wanted = next;
    }
    add_value(pool, state, wanted, value);
}

/// Makes the free cell `wanted` a state and a child of `state`. Its base leaves the cell of the
/// next code free, and that cell is returned.
fn add_state(pool: &mut CellPool, state: usize, wanted: usize, next_code: usize) -> usize
    requires free { cell_at pool.old.cells wanted ≡ free_cell }
    requires inner { 2 ≤ wanted }
    requires room { wanted + 257 < length pool.old.cells }
    requires state { state ≤ 2 ^ 30 }
    requires few { length pool.old.cells ≤ 2 ^ 30 }
    requires top { pool.old.top + 257 ≤ length pool.old.cells }
    requires code { next_code ≤ 256 }
    ensures { IsStateAdded pool.old pool.new state wanted next_code result }
{
    pool.take_free_cell(wanted, BASE_MIN as i32, state);
    let base = pool.find_free_cell(next_code);
    pool.set_state_base(wanted, base);
    base + next_code
}

/// Makes the free cell `wanted` a value cell and a child of `state`.
fn add_value(pool: &mut CellPool, state: usize, wanted: usize, value: u32)
    requires free { cell_at pool.old.cells wanted ≡ free_cell }
    requires inner { 2 ≤ wanted }
    requires room { wanted + 257 < length pool.old.cells }
    requires state { state ≤ 2 ^ 30 }
    requires value { value < values }
    ensures cells { pool.new.cells ≡ slice_set pool.old.cells wanted (negsuc value, pos state) }
    ensures top { pool.new.top ≡ max pool.old.top (wanted + 1) }
{
    pool.take_free_cell(wanted, value_base(value), state);
}

/// Returns the base of a value cell.
pub(crate) fn value_base(value: u32) -> i32
    requires { value < values }
    ensures { result ≡ negsuc value }
{
    -(value as i32) - 1
}
