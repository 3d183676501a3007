//! Displaying text with escaped control characters.

use std::fmt::{self, Display, Formatter, Write};

/// Displays a path or a word in one line. Control characters are escaped, such as `\n` or `\u{1b}`.
#[derive(Clone, Copy)]
pub struct EscapedLine<'a>(pub &'a str);

impl Display for EscapedLine<'_> {
    fn fmt<W: Write>(&self, f: &mut Formatter<W>) -> fmt::Result {
        for character in self.0.chars() {
            write_escaped(f, character)?;
        }
        Ok(())
    }
}

/// Stands in for a line feed of a word in `EscapedLines`: a record separator, which no option's
/// name contains.
pub(crate) const FEED_PLACEHOLDER: &str = "\u{1e}";

/// Displays a text of several lines that quotes words. All control characters except the line feeds
/// of the text are escaped.
#[derive(Clone, Copy)]
pub(crate) struct EscapedLines<'a>(pub &'a str);

impl Display for EscapedLines<'_> {
    fn fmt<W: Write>(&self, f: &mut Formatter<W>) -> fmt::Result {
        for character in self.0.chars() {
            match character {
                '\n' => f.write_char('\n')?,
                '\u{1e}' => f.write_str("\\n")?,
                other => write_escaped(f, other)?,
            }
        }
        Ok(())
    }
}

/// Writes a character. Control characters are escaped.
fn write_escaped<W: Write>(f: &mut Formatter<W>, character: char) -> fmt::Result {
    if character.is_control() {
        write!(f, "{}", character.escape_default())
    } else {
        f.write_char(character)
    }
}
