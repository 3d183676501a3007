//! A cache of the last scans of a text.

ghost use Rattle.std.specs.Prelude.{◌≡◌};
ghost use Rattle.word_lookup.specs.ScanCaches.{empty_scans};

use crate::blank_scan::BlankScan;
use crate::category_scan::CategoryScan;

/// The last scans of a text, kept for lookups at successive positions.
///
/// The run at a position without blanks and the run after the blanks of a position are cached
/// separately. Positions of both kinds may alternate, and the blanks may end far away. With one
/// slot, each run would evict the other and be scanned again at each position.
#[derive(Clone, Copy, Debug, Drop)]
pub struct ScanCache {
    pub(crate) blanks: Option<BlankScan>,
    pub(crate) here: Option<CategoryScan>,
    pub(crate) after_blanks: Option<CategoryScan>,
    /// The index of the range that contained the last character above U+FFFF. It is a hint: any
    /// number is valid.
    pub(crate) range: usize,
}

impl ScanCache {
    /// Returns an empty cache, for the first position of a text.
    pub fn none() -> ScanCache
        ensures { result ≡ empty_scans }
    {
        ScanCache {
            blanks: None,
            here: None,
            after_blanks: None,
            range: 0,
        }
    }
}
