//! What `dictc` and `jseg` print about their command lines and errors: help, hints, explanations of
//! error codes, and the version. Only the two programs use this crate, so a change of a text proves
//! nothing else again.
//!
//! Example:
//!
//! ```text
//! let explanations = subjects();
//! let texts = texts(&jseg::HELP, &jseg::HINTS, &explanations);
//! texts.version   // "0.1.0\nimage layouts read: 1, 2, 3; written: 3"
//! ```
//! `jseg --version` prints it, which `tests/cli/cases/about.py` tests.
#![tactic(auto)]

pub mod dictc;
mod explanations;
pub mod jseg;
mod shared;

pub use explanations::subjects;
pub use shared::texts;
