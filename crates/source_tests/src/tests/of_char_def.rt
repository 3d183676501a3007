//! `char.def` and `unk.def`.

mod chars;
mod out_of_memory;
mod ranges;
pub mod samples;
mod unk;
