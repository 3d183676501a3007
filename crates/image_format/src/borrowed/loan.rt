//! Memory that its owner passes to this program.
ghost use Rattle.std.specs.Prelude.{◌≡◌, ℕ, List, length};
ghost use base.Fml.{Share};
ghost use base.SetCodes.{coded_share};
ghost use Rattle.image_format.specs.BytesInMemory.{shared_bytes};

use std::marker::Model;

/// A pointer to bytes and their number, passed by value from C. A share of the ownership of the
/// bytes comes with it. It differs from `BorrowedBytes`, because C may not pass a type whose
/// contents can be read through a `&`.
#[repr(C)]
#[derive(Drop)]
pub struct BorrowedParts {
    pub(crate) at: *const u8,
    pub(crate) len: usize,
    pub ghost bytes: { List ℕ },
    pub(crate) ghost share: { Share } by { coded_share },
    pub(crate) ghost counted: { len ≡ length bytes },
}

impl Model for BorrowedParts {
    ghost also_owns = { λ l. shared_bytes l.share l.at l.len l.bytes };
}
