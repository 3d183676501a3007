//! Hints for fields that are not valid numbers.

use lex_source::{field, number};
use mj_model::{SourceFault, SourceKind};
use programs::{EscapedLine, Excerpt, Reporter};
use std::alloc::{AllocError, Global};
use std::fmt::{self, Display, Formatter, Write};
use std::str;
use std::string::String;

/// Maximum number of characters of a field that are printed.
const CHARACTERS_MAX: usize = 40;

/// A numeric field of a line in the format of a lexicon, with its range.
#[derive(Clone, Copy)]
struct NumberField {
    /// Index of the field, counted from 0.
    place: usize,
    name: &'static str,
    least: i32,
    greatest: i32,
}

/// The numeric fields. (MeCab's documentation, dic-detail)
const NUMBER_FIELDS: [NumberField; 3] = [
    NumberField {
        place: 1,
        name: "left id",
        least: 0,
        greatest: 65_535,
    },
    NumberField {
        place: 2,
        name: "right id",
        least: 0,
        greatest: 65_535,
    },
    NumberField {
        place: 3,
        name: "word cost",
        least: -32_768,
        greatest: 32_767,
    },
];

impl NumberField {
    /// Returns whether `text` is a number in the range of the field.
    fn accepts(self, text: &[u8]) -> bool {
        number(text).is_some_and(|value| self.least <= value && value <= self.greatest)
    }
}

/// Displays a line of which `field` has the text `text`, which is not a number in its range.
#[derive(Clone, Copy)]
struct BadNumber<'a> {
    path: &'a str,
    line: u64,
    field: NumberField,
    text: &'a str,
}

impl Display for BadNumber<'_> {
    fn fmt<W: Write>(&self, f: &mut Formatter<W>) -> fmt::Result {
        write_field(f, self.path, self.line, self.field)?;
        write_text(f, self.text)?;
        write_range(f, self.field)
    }
}

fn write_field<W: Write>(
    f: &mut Formatter<W>,
    path: &str,
    line: u64,
    field: NumberField,
) -> fmt::Result {
    let number = field.place.saturating_add(1);
    write!(
        f,
        "{}:{line}: field {number} ({})",
        EscapedLine(path),
        field.name
    )
}

fn write_text<W: Write>(f: &mut Formatter<W>, text: &str) -> fmt::Result {
    let beginning = Excerpt {
        text,
        most: CHARACTERS_MAX,
    };
    write!(f, " is '{beginning}'")
}

fn write_range<W: Write>(f: &mut Formatter<W>, field: NumberField) -> fmt::Result {
    write!(
        f,
        ", not an integer from {} to {}",
        field.least, field.greatest
    )
}

/// Prints the first field of `line` that is not a number in its range, if `fault` is of that kind
/// and the reporter is interactive. Prints nothing if an allocation fails.
pub(crate) fn print_bad_number(
    alloc: Global,
    reporter: &Reporter<'_>,
    path: &str,
    line: &[u8],
    fault: SourceFault,
) {
    if fault.kind != SourceKind::BadNumber || !reporter.is_interactive() {
        return;
    }
    if let Ok(Some((field, text))) = bad_field(alloc, line) {
        reporter.print_line(&BadNumber {
            path,
            line: fault.line,
            field,
            text: text.as_str(),
        });
    }
}

/// Returns the first numeric field of `line` that is not a number in its range, and its text; None
/// if there is none.
fn bad_field(alloc: Global, line: &[u8]) -> Result<Option<(NumberField, String)>, AllocError> {
    let Ok(line) = str::from_utf8(line) else {
        return Ok(None);
    };
    for wanted in &NUMBER_FIELDS {
        let Some(text) = field(alloc, line, wanted.place)? else {
            return Ok(None);
        };
        if !wanted.accepts(text.as_bytes()) {
            return Ok(Some((*wanted, text)));
        }
    }
    Ok(None)
}
