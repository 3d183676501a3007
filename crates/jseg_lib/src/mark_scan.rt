//! Searching a text that comes in pieces for a byte order mark.

ghost use Rattle.std.specs.Prelude.{◌≡◌, ◌∷◌, ◌++◌, List, [], ℕ};
ghost use Rattle.jseg_lib.specs.TextWarnings.{mark_from};

/// The number of bytes of a byte order mark (EF BB BF) that a text begins with, or whether it
/// begins with the whole mark.
#[derive(Clone, Copy)]
pub(crate) enum MarkScan {
    /// The text is empty so far.
    NoByte,
    /// The text is EF so far.
    OneByte,
    /// The text is EF BB so far.
    TwoBytes,
    /// The text begins with a mark.
    Present,
    /// The text doesn't begin with a mark.
    Absent,
}

impl MarkScan {
    /// Returns the state after the next bytes of the text.
    pub(crate) fn after(self, piece: &[u8]) -> MarkScan
        ensures { (rest : List ℕ) → mark_from self (piece.now ++ rest) ≡ mark_from result rest }
    {
        match self {
            MarkScan::Present | MarkScan::Absent => self,
            MarkScan::NoByte | MarkScan::OneByte | MarkScan::TwoBytes => self.after_bytes(piece),
        }
    }

    /// Returns the state after the next byte of the text.
    fn after_byte(self, byte: u8) -> MarkScan
        ensures { (rest : List ℕ) → mark_from self (byte ∷ rest) ≡ mark_from result rest }
    {
        match (self, byte) {
            (MarkScan::NoByte, 0xEF) => MarkScan::OneByte,
            (MarkScan::OneByte, 0xBB) => MarkScan::TwoBytes,
            (MarkScan::TwoBytes, 0xBF) | (MarkScan::Present, _) => MarkScan::Present,
            _ => MarkScan::Absent,
        }
    }

    /// Returns the state after the next bytes, byte by byte.
    fn after_bytes(self, piece: &[u8]) -> MarkScan
        ensures { (rest : List ℕ) → mark_from self (piece.now ++ rest) ≡ mark_from result rest }
    {
        let mut scan = self;
        for byte in piece {
            scan = scan.after_byte(*byte);
        }
        scan
    }

    /// Returns whether a text that ends here begins with a mark.
    pub(crate) fn is_present(self) -> bool
        ensures { result ≡ mark_from self [] }
    {
        matches!(self, MarkScan::Present)
    }
}
