//! Tests of the segmentation of texts: formats, runs, and the library that segments lines in
//! process.
//!
//! The crate has only tests, because a crate with tests is proved twice: with them and without.
#![tactic(auto)]

#[cfg(test)]
mod tests;
