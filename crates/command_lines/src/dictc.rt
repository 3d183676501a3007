//! The command line of `dictc`.

mod choices;
mod command;
mod mecab_hints;
mod rows;

pub use choices::{Base, Command, IdsOptions, Options};
pub use command::parse_command;
