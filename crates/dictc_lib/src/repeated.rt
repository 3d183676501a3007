//! The most frequent surface of lexicons.

use lex_source::read_lexicon;
use mj_model::{FIRST_LEXICON_FILE, Record, SourceFault};
use programs::{Excerpt, Reporter};
use std::alloc::{AllocError, Global};
use std::fmt::{self, Display, Formatter, Write};

/// Up to this number of entries with one surface no warning is printed. (This project's own choice)
const ENTRIES_MAX: usize = 1_000;

/// Maximum number of characters of a surface that are printed.
const CHARACTERS_MAX: usize = 40;

/// A surface and the number of entries that have it.
#[derive(Clone, Copy, Debug, PartialEq, Eq, Drop)]
pub struct Repeated<'a> {
    pub surface: &'a str,
    pub entries: usize,
}

impl Display for Repeated<'_> {
    fn fmt<W: Write>(&self, f: &mut Formatter<W>) -> fmt::Result {
        let surface = Excerpt {
            text: self.surface,
            most: CHARACTERS_MAX,
        };
        write!(
            f,
            "warning: {} entries have the surface '{surface}'",
            self.entries
        )
    }
}

/// Prints a warning about the most frequent surface of lexicons, if log messages are enabled and it
/// has more than `ENTRIES_MAX` entries. Prints nothing if an allocation fails.
pub(crate) fn warn_of_repeated(alloc: Global, reporter: &Reporter<'_>, lexicons: &[&[u8]]) {
    if !reporter.is_verbose() {
        return;
    }
    let Ok(records) = records_of(alloc, lexicons) else {
        return;
    };
    let Ok(surfaces) = sorted_surfaces(alloc, &records) else {
        return;
    };
    if let Some(most) = most_repeated(&surfaces) {
        if most.entries > ENTRIES_MAX {
            reporter.print_line(&most);
        }
    }
}

/// Returns the entries of lexicons.
fn records_of<'a>(alloc: Global, lexicons: &[&'a [u8]]) -> Result<Vec<Record<'a>>, SourceFault> {
    let mut records = Vec::new(alloc);
    for lexicon in lexicons {
        let _skipped = read_lexicon(alloc, lexicon, FIRST_LEXICON_FILE, &mut records)?;
    }
    Ok(records)
}

/// Returns the surfaces of entries in byte order.
fn sorted_surfaces<'a>(
    alloc: Global,
    records: &'a [Record<'_>],
) -> Result<Vec<&'a str>, AllocError> {
    let mut surfaces = Vec::new(alloc);
    for record in records {
        surfaces.push(record.surface.as_str())?;
    }
    surfaces.sort_unstable();
    Ok(surfaces)
}

/// Returns the most frequent surface of a sorted list, the first one if several are equally
/// frequent; None if the list is empty.
pub fn most_repeated<'a>(sorted: &[&'a str]) -> Option<Repeated<'a>> {
    let mut most = None;
    let mut last = None;
    for surface in sorted {
        let repeated = repeated_after(last, *surface);
        most = more_of(most, repeated);
        last = Some(repeated);
    }
    most
}

/// Returns `surface` with the number of its occurrences so far. `last` is the count of the
/// preceding surface.
fn repeated_after<'a>(last: Option<Repeated<'a>>, surface: &'a str) -> Repeated<'a> {
    let before = match last {
        Some(last) if last.surface == surface => last.entries,
        _ => 0,
    };
    Repeated {
        surface,
        entries: before.saturating_add(1),
    }
}

/// Returns the surface with more entries, or the first one if both have as many.
fn more_of<'a>(first: Option<Repeated<'a>>, second: Repeated<'a>) -> Option<Repeated<'a>> {
    match first {
        Some(one) if one.entries >= second.entries => first,
        _ => Some(second),
    }
}
