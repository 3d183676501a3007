//! Tests whether bytes are a well-formed image, and reports the positions of its parts.
//! Use it alone to validate bytes without a dictionary. The tests and their errors, L1 to L8, are
//! those of docs/FORMAT.md. The test `flipped_bits_of_layout_3` of `crates/dictionary_tests` flips
//! one bit of each byte of an image.

mod categories;
mod cell;
mod characters;
mod check;
mod frame;
mod header;
mod index;
mod infos;
mod key_prefix;
mod keys;
mod lexicon;
mod listed;
mod outline;
mod ranges;
mod system;
mod tokens;
mod utf8_state;
mod values;

pub use check::check_image;
pub use outline::{Keys, Outline, outline_of_written};
