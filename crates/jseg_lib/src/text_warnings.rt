//! Warnings about a text that is segmented as it is, but perhaps not as its author means.

ghost use Rattle.std.specs.Prelude.{◌≡◌, ◌++◌, List, [], ℕ};
ghost use Rattle.jseg_lib.specs.TextWarnings.{HasScanned, warnings_of, warnings_so_far};

use crate::text_scan::{TextScan, Warnings};
use programs::{Progress, Reporter};
use std::fmt::{self, Display, Formatter, Write};

const MARK_WARNING: &str =
    "warning: the text begins with a byte order mark (U+FEFF); it is segmented as text";

/// The warning about a line of this number that ends with CR.
#[derive(Clone, Copy)]
struct ReturnWarning(u64);

/// Prints each warning about a text once, as soon as its bytes show that it is due. A failed write
/// is ignored.
#[derive(Drop)]
pub(crate) struct TextWarnings<'a> {
    pub scan: TextScan,
    /// The warnings that were printed.
    pub printed: Warnings,
    reporter: Reporter<'a>,
    progress: &'a Progress<'a>,
}

impl<'a> TextWarnings<'a> {
    /// Creates the warnings of a text before its first byte. `progress` is erased before a warning.
    pub(crate) fn new(reporter: Reporter<'a>, progress: &'a Progress<'a>) -> TextWarnings<'a>
        ensures scan { HasScanned [] result.scan }
        ensures printed { result.printed ≡ warnings_so_far result.scan }
    {
        TextWarnings {
            scan: TextScan::new(),
            printed: Warnings {
                mark: false,
                line: None,
            },
            reporter,
            progress,
        }
    }

    /// Prints the warnings that the next bytes of the text show to be due.
    pub(crate) fn add(&mut self, piece: &[u8])
        ensures scan { (read : List ℕ) → HasScanned read self.old.scan
            → HasScanned (read ++ piece.now) self.new.scan }
        ensures printed { self.new.printed ≡ warnings_so_far self.new.scan }
    {
        self.scan = self.scan.after(piece);
        self.print(self.scan.so_far());
    }

    /// Prints the warnings that are due if the text ends here.
    pub(crate) fn end(&mut self)
        ensures scan { self.new.scan ≡ self.old.scan }
        ensures printed { (text : List ℕ) → HasScanned text self.old.scan
            → self.new.printed ≡ warnings_of text }
    {
        self.print(self.scan.end());
    }

    /// Prints those of the warnings that were not printed yet.
    fn print(&mut self, due: Warnings)
        ensures scan { self.new.scan ≡ self.old.scan }
        ensures printed { self.new.printed ≡ due }
    {
        if due.mark && !self.printed.mark {
            self.print_line(&MARK_WARNING);
        }
        if let (Some(line), None) = (due.line, self.printed.line) {
            self.print_line(&ReturnWarning(line));
        }
        self.printed = due;
    }

    fn print_line<T: Display>(&self, line: &T) {
        self.progress.erase();
        self.reporter.print_line(line);
    }
}

impl Display for ReturnWarning {
    fn fmt<W: Write>(&self, f: &mut Formatter<W>) -> fmt::Result {
        write!(
            f,
            "warning: line {} ends with a carriage return; it is segmented as text",
            self.0
        )
    }
}
