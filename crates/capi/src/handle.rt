//! The handle by which C owns a segmenter.

ghost use Rattle.std.specs.Prelude.{◌≡◌, Some, None, IsNone, is_some, option_map};
ghost use Rattle.capi.specs.Owned.{IsFlagOf, flag-prop};

use crate::session::Session;
use crate::slot::{Slot, discard, empty, from_slot, into_slot};
use std::alloc::Global;
use std::mem::replace;

/// A session, or nothing. A handle with all bytes zero is empty.
#[repr(C)]
pub struct Handle {
    held: bool,
    pub slot: Slot,
    ghost fits: { IsFlagOf held slot.value } by { flag-prop held slot.value },
}

impl Handle {
    /// Returns an empty handle.
    pub fn empty() -> Handle
        ensures { result.slot.value ≡ None }
    {
        Handle {
            held: false,
            slot: empty(),
        }
    }

    /// Returns a handle with `session`.
    pub fn full(session: Box<Session>) -> Handle
        ensures { result.slot.value ≡ Some session.value }
    {
        Handle {
            held: true,
            slot: into_slot(session),
        }
    }

    /// Returns whether the handle has a session.
    pub fn is_full(&self) -> bool
        ensures { result ≡ is_some self.now.slot.value }
    {
        self.held
    }

    /// Returns the session, if there is one.
    pub fn into_session(self, alloc: Global) -> Option<Box<Session>>
        ensures { option_map (λ b. b.value) result ≡ self.slot.value }
    {
        let Handle { held, slot } = self;
        if held {
            Some(from_slot(slot, alloc))
        } else {
            discard(slot);
            None
        }
    }

    /// Takes the session out and leaves the handle empty.
    pub fn take(&mut self, alloc: Global) -> Option<Box<Session>>
        ensures session { option_map (λ b. b.value) result ≡ self.old.slot.value }
        ensures empty { self.new.slot.value ≡ None }
    {
        replace(self, Handle::empty()).into_session(alloc)
    }

    /// Puts a session into the empty handle.
    pub fn put(&mut self, session: Box<Session>)
        requires { IsNone self.old.slot.value }
        ensures { self.new.slot.value ≡ Some session.value }
    {
        let Handle { held: _, slot } = replace(self, Handle::full(session));
        discard(slot);
    }
}
