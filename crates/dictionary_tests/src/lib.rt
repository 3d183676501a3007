//! Tests of images: how they are written, loaded and rejected.
//!
//! The crate has only tests, because a crate with tests is proved twice: with them and without.
#![tactic(auto)]

#[cfg(test)]
mod tests;
