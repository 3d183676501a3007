//! The read, print and write loop over a stream of lines.
//!
//! Use it to run a `LinePrinter` over a reader: `run_over` splits the input at each LF, lets the
//! printer append the output of each line, and writes it. It also checks each line: at most
//! `SENTENCE_MAX` bytes, and UTF-8. `print_lines` and `print_line` print text that is in memory.
//! The printer decides what a line prints.
//!
//! Example:
//!
//! ```text
//! // `input` returns the text "ab\n", one byte per read; at most 4 reads are allowed
//! run_over(alloc, &printer, &mut buffers, &mut input, &mut out, 4)   // Ok(1)
//! // out is "ab\t未知\nEOS\n"; with the text "ab\ncd\n" 4 reads don't reach the end:
//! run_over(alloc, &printer, &mut buffers, &mut input, &mut out, 4)   // Err(InputTooLong(2))
//! ```
//! The test `bound_on_reads` of `crates/text_tests` runs it.
#![tactic(auto)]

pub mod laws;
mod line_fault;
mod line_printer;
mod lines_in_memory;
mod piece;
mod reading;
mod steps;
mod stream_state;
mod text;
mod writing;

pub use line_fault::{LineError, LineFault, StreamFault};
pub use line_printer::{Appended, LinePrinter};
pub use lines_in_memory::{StoppedLine, print_lines};
pub use reading::{BUFFER_SIZE, new_buffer, run_over};
pub use stream_state::print_line;
pub use text::text_of;
