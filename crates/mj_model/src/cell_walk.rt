//! Lookups in the cells of a double array: the value of a key, and the keys that are prefixes of a
//! text. (Aoe 1989)

mod cell_read;
mod common_prefixes;
mod hit;
mod lookup;
mod steps;
mod walk;

pub use cell_read::CellRead;
pub use common_prefixes::Prefixes;
pub use hit::Hit;
pub use lookup::{get, prefixes};
