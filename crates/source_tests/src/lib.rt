//! Tests of what dictionaries are built from: counted streams, source lines, connection costs,
//! character categories and double arrays.
//!
//! The crate has only tests, because a crate with tests is proved twice: with them and without.
#![tactic(auto)]

#[cfg(test)]
mod tests;
