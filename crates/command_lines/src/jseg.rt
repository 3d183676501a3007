//! The command line of `jseg`.

mod choices;
mod command;
mod mecab_hints;
mod rows;

pub use choices::{Command, Form, Input, LatticeChoice, Options, ViewChoice};
pub use command::parse_command;
