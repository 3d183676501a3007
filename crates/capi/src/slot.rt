//! The pointer by which C holds a session, without a type that C could see.

ghost use Rattle.std.specs.Prelude.{◌≡◌, Some, None, IsSome, IsNone};
ghost use Rattle.capi.specs.Owned.{SessionValue, session_coded, slot_owns};

use crate::session::Session;
use std::alloc::Global;
use std::marker::{Model, Send};

/// The pointer of a boxed session, or null.
#[repr(C)]
pub struct Slot {
    at: *mut u8,
    pub ghost value: { SessionValue } by { session_coded },
}

impl Model for Slot {
    ghost also_owns = { λ s. slot_owns s.at s.value };
}

// C may pass a full slot to another thread.
unsafe impl Send for Slot {}

/// Compiles only if the contents of slots, sessions, may be sent to another thread.
fn held_may_be_sent() {
    may_be_sent::<Session>();
}

/// Requires that values of the type may be sent to another thread.
fn may_be_sent<T: Send>() {}

/// Returns a slot with a null pointer.
pub fn empty() -> Slot
    ensures { result.value ≡ None }
{
    Slot {
        at: std::ptr::null_mut(),
    }
}

/// Moves a boxed session into a slot.
pub fn into_slot(boxed: Box<Session>) -> Slot
    ensures { result.value ≡ Some boxed.value }
{
    Slot {
        at: Box::into_raw(boxed) as *mut u8,
    }
}

/// Moves the boxed session out of a full slot.
pub fn from_slot(slot: Slot, alloc: Global) -> Box<Session>
    requires { IsSome slot.value }
    ensures { Some result.value ≡ slot.value }
{
    let Slot { at } = slot;
    unsafe { Box::from_raw(alloc, at as *mut Session) }
}

/// Consumes an empty slot.
pub fn discard(slot: Slot)
    requires { IsNone slot.value }
{
    let Slot { at: _ } = slot;
}
