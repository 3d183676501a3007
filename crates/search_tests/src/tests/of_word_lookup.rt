//! Words at a position, with their blanks and categories.

mod characters;
mod cost_cache;
mod expected_words;
mod layouts;
mod out_of_memory;
mod overlays;
mod scan_cache;
mod words;
