//! Views of a line's lattice: tables and graphs of its nodes, and the rivals of the best path's
//! words.
//!
//! Use it to see why a line is segmented as it is. `lattice_printer` prints all nodes with their
//! costs. `why_printer` prints the best path, and for each of its words the best path that segments
//! the text differently there. Both are `LinePrinter`s for `line_stream::run_over`.
//!
//! Example:
//!
//! ```text
//! let format = LatticeFormat { form: LatticeForm::Tsv, within: Some(16) };
//! let printer = LatticePrinter { alloc, dictionaries, format };
//! printer.append_line(&mut LatticeBuffers::new(alloc), "すもももも", &mut out)?;
//! // out: the heading, the rows of すもも and もも on the best path, and an empty line
//! ```
//! The case `what lost by 16 at most` of `tests/cli/cases/lattices.py` runs it.
#![tactic(auto)]

pub mod lattice_printer;
pub mod why_printer;
