//! The command lines of `dictc` and `jseg`. Use this crate to parse a command line into the command
//! that it requests. `dictc_lib` and `jseg_lib` run such commands. What a program prints about its
//! options and errors is passed as `Texts`; `messages` has those of both programs.
//!
//! Example:
//!
//! ```text
//! // words: "-d", "sys.img", "-u", "u.img"
//! let command = jseg::parse_command(alloc, words, &texts)?;
//! // Command::Segment of options with the input Images { dic: "sys.img", users: ["u.img"], .. }
//! // and the grouping 24
//! ```
//! The test `command_lines` of `crates/program_tests` (`of_command_lines/jseg.rt`) runs it.
#![tactic(auto)]

mod about;
pub mod dictc;
mod explanation;
pub mod jseg;
mod one_line;
mod options_fault;
mod row;
mod texts;
mod words;

pub use explanation::Explanation;
pub use one_line::EscapedLine;
pub use options_fault::{OptionsFault, Parsed};
pub use texts::Texts;
pub use words::arguments;
