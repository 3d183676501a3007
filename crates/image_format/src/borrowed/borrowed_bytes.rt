//! Bytes that are read in place through a pointer and never freed.
ghost use Rattle.std.specs.Prelude.{◌≡◌, ℕ, List, length};
ghost use base.Fml.{Share};
ghost use base.SetCodes.{coded_share};
ghost use Rattle.image_format.specs.BytesInMemory.{shared_bytes, borrowed_bytes};

use crate::borrowed::loan::BorrowedParts;
use std::marker::{Model, Send, Sync};

/// Bytes in memory of another owner, such as a file that C maps. The owner must neither change nor
/// free them while this value exists. Dropping the value does not free them.
#[derive(Drop)]
pub struct BorrowedBytes {
    at: *const u8,
    len: usize,
    pub ghost bytes: { List ℕ },
    ghost share: { Share } by { coded_share },
    ghost counted: { len ≡ length bytes },
}

impl Model for BorrowedBytes {
    ghost also_owns = { λ l. shared_bytes l.share l.at l.len l.bytes };

    ghost also_shares = { λ l _ κ. borrowed_bytes l.at l.len l.bytes κ };
}

unsafe impl Send for BorrowedBytes {}

unsafe impl Sync for BorrowedBytes {}

impl BorrowedBytes {
    /// Returns the bytes that `loan` points to, without a copy.
    pub fn of(loan: BorrowedParts) -> BorrowedBytes
        ensures { result.bytes ≡ loan.bytes }
    {
        let BorrowedParts { at, len } = loan;
        BorrowedBytes { at, len }
    }

    /// Returns the bytes.
    #[inline(always)]
    pub fn as_slice(&self) -> &[u8]
        ensures { result.now ≡ self.now.bytes }
    {
        unsafe { std::slice::from_raw_parts(self.at, self.len) }
    }
}
