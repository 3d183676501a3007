//! Searching a text that comes in pieces for the first line that ends with CR.

ghost use Rattle.std.specs.Prelude.{◌≡◌, ◌∷◌, ◌++◌, List, [], ℕ};
ghost use Rattle.jseg_lib.specs.TextWarnings.{found_return, return_from};

/// Whether a line of a text ends with CR.
#[derive(Clone, Copy)]
pub(crate) enum ReturnScan {
    /// No line ends with CR so far. `line` is the number of the next byte's line, counted from 1,
    /// and `previous` is the last byte, or LF before the first byte.
    Open { line: u64, previous: u8 },
    /// The line of this number is the first one that ends with CR.
    Found(u64),
}

impl ReturnScan {
    /// Returns the state after the next bytes of the text.
    pub(crate) fn after(self, piece: &[u8]) -> ReturnScan
        ensures { (rest : List ℕ) → return_from self (piece.now ++ rest) ≡ return_from result rest }
    {
        let mut scan = self;
        for byte in piece {
            scan = scan.after_byte(*byte);
        }
        scan
    }

    fn after_byte(self, byte: u8) -> ReturnScan
        ensures { (rest : List ℕ) → return_from self (byte ∷ rest) ≡ return_from result rest }
    {
        let ReturnScan::Open { line, previous } = self else {
            return self;
        };
        if byte != b'\n' {
            return ReturnScan::Open {
                line,
                previous: byte,
            };
        }
        if previous == b'\r' {
            ReturnScan::Found(line)
        } else {
            ReturnScan::Open {
                line: line.saturating_add(1),
                previous: byte,
            }
        }
    }

    /// Returns the number of the line that is found so far.
    pub(crate) fn found(self) -> Option<u64>
        ensures { result ≡ found_return self }
    {
        match self {
            ReturnScan::Open { .. } => None,
            ReturnScan::Found(line) => Some(line),
        }
    }

    /// Returns the number of the first line that ends with CR of a text that ends here.
    pub(crate) fn end(self) -> Option<u64>
        ensures { result ≡ return_from self [] }
    {
        match self {
            ReturnScan::Open { line, previous } => (previous == b'\r').then_some(line),
            ReturnScan::Found(line) => Some(line),
        }
    }
}
