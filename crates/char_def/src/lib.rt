//! Character categories and unknown entries, as `char.def` and `unk.def` list them.
//!
//! Use `read_chars` to read the categories, which give each code point its categories. `read_unk`
//! then reads the unknown entries of each category.
//!
//! Example:
//!
//! ```text
//! let table = read_chars(alloc, b"DEFAULT 0 1 0\nSPACE 0 1 0\n0x41..0x5A SPACE")?;
//! table.ranges(alloc)?
//! // The ranges start at 0, 0x41 and 0x5B, with bits 1, 2, 1 and heads 0, 1, 0.
//! ```
//! The test `ranges` of `crates/source_tests` runs it.
#![tactic(auto)]

mod char_lines;
mod char_table;
mod code_range;
mod coverage;
mod definitions;
mod hexadecimal;
mod info_range;
mod line;
mod line_words;
mod mapped;
mod mappings;
mod outside;
mod overlay;
mod range;
mod unk_lines;
mod unk_table;

pub use char_table::{CharTable, read_chars};
pub use info_range::CategoryRange;
pub use unk_table::{UnkTable, read_unk};
