//! Prints why a line is segmented as it is: each word of the best path with its costs, and its best
//! rival.

mod explained_line;
pub mod laws;
mod line_explanation;
mod printer;
mod rivals;
mod rows;

pub use printer::WhyPrinter;
