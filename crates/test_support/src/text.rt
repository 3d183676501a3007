//! What the tests of several crates share: the words of a command line, concatenated texts, the
//! texts of errors, and retries after an allocation failure.
//!
//! Only tests use this module, and its functions have no contracts.

mod command_line;
mod faults;
mod rejected;
mod texts;

pub use command_line::words;
pub use faults::{FaultRow, expect_printed, is_printed_as};
pub use texts::{joined, printed};
