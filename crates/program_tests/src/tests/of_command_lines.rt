//! Command lines: what they select, and which are rejected.

mod dictc;
mod endings;
mod jseg;
mod words;

use std::string::String;

pub(crate) fn is_text(got: &Option<String>, wanted: Option<&str>) -> bool {
    match got {
        Some(text) => wanted == Some(text.as_str()),
        None => wanted == None,
    }
}
