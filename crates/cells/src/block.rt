//! Allocation and deallocation of the block of raw memory. No other file of the crate uses a raw
//! pointer.
ghost use Rattle.std.specs.Prelude.{◌≡◌, IfOk};
ghost use Rattle.std.specs.Vec.Ownership.{FitsInBlock};
ghost use Rattle.core.specs.Mem.Slots.{slots_len};
ghost use Rattle.cells.specs.CellBlock.{IsTokenOf};

use crate::token::FreeToken;
use core::slots::Slots;
use std::alloc::{AllocError, Allocator};
use std::marker::PhantomData;
use std::mem::{align_of, size_of};

/// Allocates a block of `places` empty slots. `_like` only shows that the type `T` has a value.
pub(crate) fn allocate_block<T, A: Allocator>(
    alloc: &A,
    places: usize,
    _like: &T,
) -> Result<(Slots<T>, FreeToken<T, A>), AllocError>
    requires { FitsInBlock T.row places }
    ensures { IfOk result (λ block. (slots_len block.0 ≡ places)
        × IsTokenOf block.1 block.0 alloc.now) }
{
    match alloc.allocate(places * size_of::<T>(), align_of::<T>()) {
        Ok(start) => {
            let row = unsafe { Slots::from_raw_parts(start as *mut T, places) };
            let mark = PhantomData;
            Ok((row, FreeToken { mark }))
        }
        Err(rejected) => Err(rejected),
    }
}

/// Returns a block to the allocator that it came from. The values in it are not dropped.
pub(crate) fn free_block<T, A: Allocator>(alloc: &A, row: Slots<T>, token: FreeToken<T, A>)
    requires { IsTokenOf token row alloc.now }
{
    let FreeToken { mark: _ } = token;
    unsafe {
        let (start, places) = row.into_raw_parts();
        alloc.deallocate(start as *mut u8, places * size_of::<T>(), align_of::<T>());
    }
}
