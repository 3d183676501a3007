//! `dictc ids`: the ids and word costs of a dictionary's entries with a given part of speech.

mod listing;
mod pair_row;
mod pair_rows;
mod printing;
mod template;

pub use pair_row::PairRow;
pub use pair_rows::rows_of_pairs;
pub use printing::{print_ids, text_of};
pub use template::Template;
