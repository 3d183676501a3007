//! The token that permits freeing a block of memory.
ghost use Rattle.std.specs.Prelude.{ℕ};
ghost use denote.RawPtr.{Ptr};
ghost use Rattle.cells.specs.Block.{block_token};

use std::alloc::Allocator;
use std::marker::{Model, PhantomData};

/// The allocator's token for one block. It has no size, and it ends only when the block is freed.
pub(crate) struct FreeToken<T, A: Allocator> {
    pub(crate) mark: PhantomData<*const (T, A)>,
    ghost start: { Ptr },
    ghost places: { ℕ },
    ghost alloc: { A },
}

impl<T, A: Allocator> Model for FreeToken<T, A> {
    ghost also_owns = { λ t. block_token T.row (A.dealloc_token t.alloc) t.start t.places };
}
