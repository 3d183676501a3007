//! What the tests of several crates share: command lines, texts, test cases of errors, and
//! dictionaries compiled from the sample's sources.
#![tactic(auto)]

pub mod samples;
pub mod text;
