//! Command lines as texts.

use std::alloc::{AllocError, Global};
use std::string::String;

/// Splits `text` at blanks into the words of a command line.
pub fn words(alloc: Global, text: &str) -> Result<Vec<String>, AllocError> {
    text.split(' ')
        .filter(|word| !word.is_empty())
        .map(|word| String::from_str(alloc, word))
        .try_collect(alloc)
}
