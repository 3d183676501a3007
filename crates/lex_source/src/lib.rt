//! Lines, words, fields and numbers of MeCab's source files, and the lexicons.
//!
//! Use this crate to read a lexicon, to sort the entries of several lexicons, or to split any other
//! source file into lines and words. Errors name a line and a reason.
//!
//! Example:
//!
//! ```text
//! field(alloc, "x, \"y z\"w,*", 1)?   // Some("y z")
//! field(alloc, "x, \"y z\"w,*", 3)?   // None
//! ```
//! The test `quoted_fields` of `crates/source_tests` runs it.
#![tactic(auto)]

mod bytes;
mod field_cache;
mod fields;
mod lexicon;
mod nonblank_lines;
mod numbered;
mod numbers;
mod ordering;
mod outcome;
mod parts;
mod prefixed_record;
mod quoted;
mod raw_field;
mod records;
mod sink;
mod sorted_lexicon;
mod source_lexicon;
mod source_lines;
mod text;
mod words;

pub use bytes::split_first;
pub use field_cache::FieldCache;
pub use fields::{append_field, field};
pub use lexicon::read_lexicon;
pub use nonblank_lines::NonblankLines;
pub use numbered::Lines;
pub use numbers::{context_id, cost, number};
pub use records::read_record;
pub use sorted_lexicon::SortedLexicon;
pub use source_lexicon::SourceLexicon;
pub use source_lines::lines;
pub use words::Words;
