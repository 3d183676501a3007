//! Log messages on the progress of a program, printed with `-v`.

use command_lines::EscapedLine;
use std::fmt::{self, Display, Formatter, Write};

/// A completed or started step of a program. Sizes are in bytes.
#[derive(Clone, Copy)]
pub enum Stage<'a> {
    /// A file was read.
    Read {
        path: &'a str,
        bytes: usize,
    },
    /// A source that was read begins with a byte order mark, which counts as text.
    ByteOrderMark {
        path: &'a str,
    },
    /// An image was checked and loaded.
    Loaded {
        path: &'a str,
    },
    /// The compilation of this number of lexicons starts.
    Compiling {
        lexicons: usize,
    },
    /// The connection costs were read, for these numbers of right ids and left ids.
    CostsRead {
        right: u32,
        left: u32,
    },
    /// The character categories were read.
    CategoriesRead {
        categories: usize,
    },
    /// The unknown words of all categories were read.
    UnknownRead,
    /// A lexicon was read. `entries` counts the entries of all lexicons read so far.
    LexiconRead {
        path: &'a str,
        entries: u64,
    },
    /// The entries were sorted by surface.
    Sorted {
        entries: u64,
    },
    /// The longest surface of the lexicons, in bytes, and the first line that has it.
    LongestSurface {
        bytes: usize,
        path: &'a str,
        line: u64,
    },
    /// The compilation ended.
    Compiled {
        entries: u64,
        bytes: usize,
    },
    /// An image was written.
    Written {
        path: &'a str,
        bytes: usize,
    },
    /// The size of a section of the image, and its share of the image in percent.
    Share {
        section: &'a str,
        bytes: u64,
        percent: u128,
    },
    /// No entry of the dictionaries has a feature that begins with these fields.
    NoEntry {
        feature: &'a str,
    },
    /// The text was segmented, this number of lines.
    Segment {
        lines: u64,
    },
}

/// Text of the log message for a source that begins with a byte order mark.
const BYTE_ORDER_MARK: &str = ": the file starts with a byte order mark, which counts as text";

impl Display for Stage<'_> {
    fn fmt<W: Write>(&self, f: &mut Formatter<W>) -> fmt::Result {
        match *self {
            Stage::Read { path, bytes } => write_file(f, "read", path, bytes),
            Stage::ByteOrderMark { path } => write_named(f, "warning: ", path, BYTE_ORDER_MARK),
            Stage::Loaded { path } => write_named(f, "loaded ", path, ""),
            Stage::Compiling { lexicons } => write_count(f, "compiling ", lexicons, " lexicons"),
            Stage::CostsRead { right, left } => write_ids(f, right, left),
            Stage::CategoriesRead { categories } => write_count(
                f,
                "read ",
                categories,
                " character categories",
            ),
            Stage::UnknownRead => f.write_str("read unknown words"),
            Stage::LexiconRead { path, entries } => write_entries(f, path, entries),
            Stage::Sorted { entries } => write_count(f, "sorted ", entries, " entries"),
            Stage::LongestSurface { bytes, path, line } => write_longest(f, bytes, path, line),
            Stage::Compiled { entries, bytes } => write_compiled(f, entries, bytes),
            Stage::Written { path, bytes } => write_file(f, "wrote", path, bytes),
            Stage::Share {
                section,
                bytes,
                percent,
            } => write_share(f, section, bytes, percent),
            Stage::NoEntry { feature } => write_named(f, "no entry matches '", feature, "'"),
            Stage::Segment { lines } => write_count(f, "segmented ", lines, " lines"),
        }
    }
}

/// Writes the action `done`, the path of its file and the number of bytes.
fn write_file<W: Write>(f: &mut Formatter<W>, done: &str, path: &str, bytes: usize) -> fmt::Result {
    write!(f, "{done} {}: {bytes} bytes", EscapedLine(path))
}

/// Writes a path or a feature between two texts.
fn write_named<W: Write>(
    f: &mut Formatter<W>,
    before: &str,
    name: &str,
    following: &str,
) -> fmt::Result {
    f.write_str(before)?;
    EscapedLine(name).fmt(f)?;
    f.write_str(following)
}

/// Writes a number between two texts.
fn write_count<N: Display + Drop, W: Write>(
    f: &mut Formatter<W>,
    before: &str,
    number: N,
    following: &str,
) -> fmt::Result {
    f.write_str(before)?;
    write!(f, "{number}")?;
    f.write_str(following)
}

/// Writes the numbers of right ids and left ids of the connection costs.
fn write_ids<W: Write>(f: &mut Formatter<W>, right: u32, left: u32) -> fmt::Result {
    write!(
        f,
        "read connection costs: {right} right ids, {left} left ids"
    )
}

/// Writes the number of entries up to and including the lexicon at `path`.
fn write_entries<W: Write>(f: &mut Formatter<W>, path: &str, entries: u64) -> fmt::Result {
    write!(f, "{entries} entries after reading {}", EscapedLine(path))
}

/// Writes the length of the longest surface, and the line and file that it is in.
fn write_longest<W: Write>(
    f: &mut Formatter<W>,
    bytes: usize,
    path: &str,
    line: u64,
) -> fmt::Result {
    write!(
        f,
        "longest surface: {bytes} bytes, in line {line} of {}",
        EscapedLine(path)
    )
}

/// Writes the number of compiled entries and the size of the image.
fn write_compiled<W: Write>(f: &mut Formatter<W>, entries: u64, bytes: usize) -> fmt::Result {
    write!(f, "compiled {entries} entries to {bytes} bytes")
}

/// Writes the size of a section and its share of the image.
fn write_share<W: Write>(
    f: &mut Formatter<W>,
    section: &str,
    bytes: u64,
    percent: u128,
) -> fmt::Result {
    write!(f, "{section}: {bytes} bytes, {percent} %")
}
