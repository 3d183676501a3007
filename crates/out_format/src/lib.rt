//! Output formats (MeCab, format.html): parses format texts once, and prints paths in them.
//!
//! Use `Format` for MeCab's default and wakati formats, or for your own from its four texts: MeCab's
//! `node-format`, `unk-format`, `bos-format` and `eos-format`. `print` appends a path that is in
//! memory, and `print_words` appends one as its words are read. `words_printer` prints the best path
//! of each line.
//!
//! Example:
//!
//! ```text
//! let format = Format::default_of(alloc)?;
//! let path = best_path(alloc, &dictionaries, "すもももも")?;
//! print(alloc, &format, &dictionaries, "すもももも", &path, &mut out)?;
//! // out was ">" and is ">すもも\t名詞,すもも\nもも\t名詞,もも\nEOS\n"
//! ```
//! The test `a_path_after_other_text` of `crates/text_tests` runs it.
#![tactic(auto)]

mod appending;
mod building;
mod bytes;
mod escapes;
mod first_item;
mod first_piece;
mod format;
mod index;
mod item_printer;
mod items;
mod last_token;
pub mod laws;
mod line;
mod parsing;
mod part;
mod plain_word;
mod printing;
mod word_in_path;
pub mod words_printer;

pub use format::Format;
pub use mj_model::{FormatFault, FormatKind, FormatPart};
pub use printing::{cost_with, print, print_words};
