//! Tests of the programs' libraries: command lines, files, compilations, and what is printed.
//!
//! The crate has only tests, because a crate with tests is proved twice: with them and without.
#![tactic(auto)]

#[cfg(test)]
mod tests;
