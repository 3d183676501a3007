//! Connection costs, as `matrix.def` lists them.
//!
//! Use `read_matrix` for a file that is in memory, and `MatrixReader` for one that is read piece by
//! piece, such as a large file from a disk.
//!
//! Example:
//!
//! ```text
//! let matrix = read_matrix(alloc, b"2 3\n0 2 100\n1 0 9\n")?;
//! matrix.sizes()       // MatrixSizes { right: 2, left: 3 }
//! matrix.cost(0, 2)    // 100
//! matrix.cost(1, 0)    // 9
//! matrix.cost(1, 1)    // 0
//! ```
//! The test `asymmetric_matrix` of `crates/source_tests` runs it.
#![tactic(auto)]

mod header_start;
mod matrix;
mod read;
mod reader;
mod reader_state;
mod rows;

pub use matrix::Matrix;
pub use read::read_matrix;
pub use reader::MatrixReader;
