//! A map from byte strings to numbers, stored in the cells of a double array. (Aoe 1989)
//!
//! Use this crate to build the key index of a dictionary: keys are inserted one by one, in any
//! order. The lookups work on the map itself and on any other cells that are read through
//! `CellRead`, such as those of an image.
//!
//! Example:
//!
//! ```text
//! let mut array = DoubleArray::new(alloc)?;
//! array.insert(b"a", 5)?;
//! array.insert(b"ab", 7)?;
//! array.insert(b"a", 9)?.old    // Some(5)
//! get(&array, b"ab")            // Some(7)
//! get(&array, b"abc")           // None
//! prefixes(&array, b"abc")      // lengths and values: (1, 9), (2, 7)
//! ```
//! The test `insert_and_walk` of `crates/source_tests` runs it.
#![tactic(auto)]

pub mod cell_laws;
mod clearing;
mod double_array;
mod fault;
mod insertion;
mod pool;
mod relocation;
mod ring;
mod search;
mod tail;

pub use cells::CELLS_MAX;
pub use double_array::DoubleArray;
pub use fault::DaFault;
pub use insertion::Inserted;
pub use mj_model::cell_walk::{CellRead, Hit, Prefixes, get, prefixes};
