//! Prints the best path of each line.

mod printer;

pub use lattice::LineBuffers;
pub use printer::WordsPrinter;
