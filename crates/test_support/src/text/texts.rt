//! Concatenated texts, and values as text. Formatting is slow to prove, so one function does it for
//! all tests.

use std::alloc::{AllocError, Global};
use std::fmt::Display;
use std::string::String;
use std::test::Fail;

/// Concatenates `parts`.
pub fn joined(alloc: Global, parts: &[&str]) -> Result<String, AllocError> {
    let mut text = String::new(alloc);
    for part in parts {
        text.push_str(part)?;
    }
    Ok(text)
}

/// Returns `value` as it is printed.
pub fn printed<T: Display + Drop>(alloc: Global, value: T) -> Result<String, Fail> {
    Ok(format!(in alloc; "{value}")?)
}
