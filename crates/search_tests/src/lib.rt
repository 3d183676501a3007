//! Tests of the words at a position, of best paths and of lattices.
//!
//! The crate has only tests, because a crate with tests is proved twice: with them and without.
#![tactic(auto)]

#[cfg(test)]
mod tests;
