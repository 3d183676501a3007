//! The result of a read that was made in advance.

ghost use Rattle.std.specs.Prelude.{◌≡◌, [], Decides, Err, IfSome, IsOk, None, Ok, Option, Some, true, ℕ, List};
ghost use Rattle.std.specs.Io.{ReadsAtMost};
ghost use Rattle.std.specs.Io.KnownBytes.{ReadConsumes};
ghost use Rattle.jseg_lib.specs.PeekedReader.{IsReplayed, bytes_left, remaining_with};

use std::alloc::Global;
use std::io::{self, Cursor, Read};

/// The result of a read, until it is replayed: bytes, an error, or the end.
#[derive(Drop)]
pub(crate) struct PeekedRead {
    /// The error of the read, until it is replayed.
    pub failed: Option<io::Error>,
    /// Whether the read found the end.
    pub is_ended: bool,
    /// The bytes of the read. Those before the position were replayed.
    pub bytes: Cursor<Vec<u8>>,
}

impl PeekedRead {
    /// Returns a value that keeps nothing. Does not allocate.
    pub(crate) fn none(alloc: Global) -> PeekedRead
        ensures { IsReplayed result }
    {
        PeekedRead {
            failed: None,
            is_ended: false,
            bytes: Cursor::new(Vec::new(alloc)),
        }
    }

    /// Returns whether nothing is kept, or all of it was replayed.
    fn is_replayed(&self) -> bool
        ensures { Decides result (IsReplayed self.now) }
    {
        if self.failed.is_some() || self.is_ended {
            return false;
        }
        self.are_bytes_replayed()
    }

    /// Returns whether no bytes are kept, or all were replayed.
    fn are_bytes_replayed(&self) -> bool
        ensures { Decides result (bytes_left self.now ≡ Some []) }
    {
        self.bytes.get_ref().len() as u64 <= self.bytes.position()
    }

    /// Replays the read: its bytes as far as they fit into `buf`, its error once, its end each
    /// time. Returns None once nothing is left.
    pub(crate) fn replay(&mut self, buf: &mut [u8]) -> Option<io::Result<usize>>
        ensures bound { IfSome result (λ replayed. ReadsAtMost replayed buf.new) }
        // Whatever follows the kept bytes, they are consumed as by a read.
        ensures bytes { IfSome result (λ replayed. (rest : Option (List ℕ)) → ReadConsumes
            (remaining_with self.old rest) (remaining_with self.new rest) replayed buf.new) }
        ensures none { result ≡ None → IsReplayed self.old × (self.new ≡ self.old) }
        ensures replayed { IsReplayed self.old → result ≡ None }
        // A kept error is returned once, and no other.
        ensures fault { IfSome self.old.failed
            (λ fault. (result ≡ Some (Err fault)) × (self.new.failed ≡ None)) }
        ensures no_other { self.old.failed ≡ None → IfSome result (λ replayed. IsOk replayed) }
        // A kept end is returned each time.
        ensures end { self.old.failed ≡ None → self.old.is_ended ≡ true → result ≡ Some (Ok 0) }
    {
        if self.is_replayed() {
            return None;
        }
        if let Some(fault) = self.failed.take() {
            return Some(Err(fault));
        }
        if self.is_ended {
            return Some(Ok(0));
        }
        Some(self.bytes.read(buf))
    }
}
