//! The beginning of a text in one line.

use command_lines::EscapedLine;
use std::fmt::{self, Display, Formatter, Write};

/// Displays the first characters of a text, escaped by `EscapedLine`, and then `..` if there are more.
#[derive(Clone, Copy)]
pub struct Excerpt<'a> {
    pub text: &'a str,
    /// Maximum number of characters that are displayed.
    pub most: usize,
}

impl Display for Excerpt<'_> {
    fn fmt<W: Write>(&self, f: &mut Formatter<W>) -> fmt::Result {
        let (reported, left_out) = split_after(self.text, self.most);
        EscapedLine(reported).fmt(f)?;
        if left_out.is_empty() {
            return Ok(());
        }
        f.write_str("..")
    }
}

/// Splits `text` after its first `most` characters.
fn split_after(text: &str, most: usize) -> (&str, &str) {
    match text.char_indices().nth(most) {
        Some((end, _)) => text.split_at(end),
        None => (text, ""),
    }
}
