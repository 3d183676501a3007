//! Searching a text that comes in pieces for what is worth a warning.

ghost use Rattle.std.specs.Prelude.{◌≡◌, ◌++◌, List, [], ℕ};
ghost use Rattle.jseg_lib.specs.TextWarnings.{HasScanned, warnings_of, warnings_so_far};

use crate::mark_scan::MarkScan;
use crate::return_scan::ReturnScan;

/// The warnings about a text: whether it begins with a byte order mark, and the number of the first
/// line that ends with CR, if one does. Lines are counted from 1.
#[derive(Clone, Copy)]
pub(crate) struct Warnings {
    pub mark: bool,
    pub line: Option<u64>,
}

/// The search for warnings about a text. Each piece of the text is scanned once.
#[derive(Clone, Copy)]
pub(crate) struct TextScan {
    pub mark: MarkScan,
    pub returns: ReturnScan,
}

impl TextScan {
    /// Creates the state before the first byte.
    pub(crate) fn new() -> TextScan
        ensures { HasScanned [] result }
    {
        TextScan {
            mark: MarkScan::NoByte,
            returns: ReturnScan::Open {
                line: 1,
                previous: b'\n',
            },
        }
    }

    /// Returns the state after the next bytes of the text.
    pub(crate) fn after(self, piece: &[u8]) -> TextScan
        ensures { (read : List ℕ) → HasScanned read self → HasScanned (read ++ piece.now) result }
    {
        TextScan {
            mark: self.mark.after(piece),
            returns: self.returns.after(piece),
        }
    }

    /// Returns the warnings that are due whatever follows.
    pub(crate) fn so_far(self) -> Warnings
        ensures { result ≡ warnings_so_far self }
    {
        Warnings {
            mark: self.mark.is_present(),
            line: self.returns.found(),
        }
    }

    /// Returns the warnings about a text that ends here.
    pub(crate) fn end(self) -> Warnings
        ensures { (read : List ℕ) → HasScanned read self → result ≡ warnings_of read }
    {
        Warnings {
            mark: self.mark.is_present(),
            line: self.returns.end(),
        }
    }
}
