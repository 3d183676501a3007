//! The cells of a double array: a growable list of pairs, base and check, in one block of raw
//! memory.
//!
//! `double_array` builds its map in them. The crate keeps the raw pointers behind a safe type.
//!
//! Example:
//!
//! ```text
//! let mut cells = Cells::new(alloc, 4)?;
//! cells.set(3, 8, 1);
//! cells.grow(6)?;
//! cells.len()     // 6
//! cells.get(3)    // (8, 1)
//! cells.get(5)    // (0, -1)
//! ```
//! The test `grown_cells` of `crates/source_tests` runs it.
#![tactic(auto)]

mod block;
mod cells;
pub mod laws;
mod row;
mod token;

pub use cells::{CELLS_MAX, Cells};
