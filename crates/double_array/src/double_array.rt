//! The double array with insertion.
ghost use Rattle.std.specs.Prelude.{◌≡◌, ℕ, ◌+◌, ◌-◌, ◌<◌, ◌≤◌, ◌^◌, List, None, length, IsSome, IfOk, IfErr, OnOk, OnErr};
ghost use Rattle.mj_model.specs.CellMap.{value_of, IsMapWith};
ghost use Rattle.mj_model.specs.CellRules.{AreCells, AreOnKeys};
ghost use Rattle.double_array.specs.Moved.{HasSpaceAfterEachCell, HaveMoved};
ghost use Rattle.mj_model.specs.declared.limits.TheConstants.{SURFACE_MAX as SurfaceMax};
ghost use Rattle.double_array.specs.declared.fault.DaFault.TheVariants.{Full, Memory};

use crate::fault::DaFault;
use crate::insertion::{Inserted, insert_key};
use crate::pool::CellPool;
use mj_model::cell_walk::CellRead;
use std::alloc::{AllocError, Global};
use std::marker::Model;

/// A map from byte strings to numbers, stored as the arrays BASE and CHECK. (Aoe 1989)
///
/// The end of a key has code 0, and byte b has code b + 1. The step from state s on code c leads to
/// cell BASE[s] + c, if the CHECK of that cell is s. State 0 is the root. The cell of a key's last
/// code has base -(v + 1) for the value v. The view is the list of cells that `CellRead` returns,
/// in which a free cell is (0, -1).
#[derive(Drop)]
pub struct DoubleArray {
    pool: CellPool,
}

impl Model for DoubleArray {
    ghost use Rattle.std.specs.Prelude.{List};
    ghost use Rattle.mj_model.specs.CellMap.{Cell};
    ghost use Rattle.double_array.specs.Built.{MeetsInvariants};

    ghost Value = { List Cell };

    ghost view = { λ array. array.pool.cells };

    ghost invariant = { λ array. MeetsInvariants array.pool };
}

impl DoubleArray {
    /// Returns an empty map.
    pub fn new(alloc: Global) -> Result<DoubleArray, AllocError>
        ensures map { IfOk result (λ array. (key : List ℕ) → value_of array key ≡ None) }
        ensures some { IfOk result (λ array. 1 ≤ length array) }
        ensures few { IfOk result (λ array. length array ≤ 600) }

        // The cells meet the invariants, and each used one lies on the walk of a key.
        ensures rules { IfOk result AreCells }
        ensures keys { IfOk result AreOnKeys }
    {
        Ok(DoubleArray {
            pool: CellPool::new(alloc)?,
        })
    }

    /// Sets the value of `key` to `value`.
    ///
    /// The array grows before any other cell changes. If the next cell for the key is a child of
    /// another state, the smaller of the two families moves. (Aoe 1989; the search for a base is
    /// this project's own choice)
    pub fn insert(&mut self, key: &[u8], value: u32) -> Result<Inserted, DaFault>
        requires some { 0 < length key.now }
        requires short { length key.now ≤ SurfaceMax }
        requires value { value < 2 ^ 31 - 1 }

        // All other keys keep their values.
        ensures map { OnOk result (IsMapWith self.old self.new key.now value) }
        ensures old { IfOk result (λ inserted. inserted.old ≡ value_of self.old key.now) }
        ensures moved { IfOk result
            (λ inserted. HaveMoved self.old self.new key.now inserted.moved) }
        ensures few { IfOk result (λ inserted. inserted.moved ≤ 257) }
        ensures stays { IfOk result (λ inserted. IsSome inserted.old → inserted.moved ≡ 0) }

        // An error changes nothing. It occurs only for a key that is not in the map, and only if
        // there is no room.
        ensures unchanged { OnErr result (self.new ≡ self.old) }
        ensures absent { OnErr result (value_of self.old key.now ≡ None) }
        ensures needed { OnErr result (HasSpaceAfterEachCell self.old (length key.now) → ⊥) }
        ensures full { IfErr result (λ fault. fault ≡ Full
            → 2 ^ 30 - length key.now - 600 < length self.old) }
        ensures out_of_memory { IfErr result (λ fault. fault ≡ Memory
            → length self.old + length key.now + 600 ≤ 2 ^ 30) }

        // The array keeps its length for a key of the map, or if there is room after its last used
        // cell. It never gets shorter.
        ensures present { IfOk result
            (λ inserted. IsSome inserted.old → length self.new ≡ length self.old) }
        ensures space { HasSpaceAfterEachCell self.old (length key.now)
            → length self.new ≡ length self.old }
        ensures least { length self.old ≤ length self.new }
        ensures growth { length self.new ≤ length self.old + length key.now + 600 }
        ensures most { length self.new ≤ 2 ^ 30 }

        // The cells meet the invariants, and each used one lies on the walk of a key.
        ensures rules { AreCells self.new }
        ensures keys { AreOnKeys self.new }
    {
        insert_key(&mut self.pool, key, value)
    }
}

impl CellRead for DoubleArray {
    ghost cells = { λ array. array };

    // The contract also provides that the cells meet the invariants and that each used one lies on
    // the walk of a key.
    fn len(&self) -> usize
        ensures length { result ≡ length self.now }
        ensures most { result ≤ 2 ^ 30 }
        ensures rules { AreCells self.now }
        ensures keys { AreOnKeys self.now }
    {
        self.pool.len()
    }

    fn cell(&self, i: usize) -> (i32, i32) {
        self.pool.cell(i)
    }
}
