//! Runs of blanks.

ghost use Rattle.std.specs.Prelude.{◌≡◌, ◌&&◌, nat_le, nat_lt};

/// A run of blanks: the bytes from `from` to `to` of a text.
#[derive(Clone, Copy, Debug, Drop)]
pub struct BlankScan {
    pub from: usize,
    pub to: usize,
}

impl BlankScan {
    /// Returns whether byte offset `place` lies in the run.
    pub fn contains(self, place: usize) -> bool
        ensures { result ≡ (nat_le self.from place && nat_lt place self.to) }
    {
        self.from <= place && place < self.to
    }
}
