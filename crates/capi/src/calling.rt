//! Calls functions of a handle's session.

ghost use Rattle.std.specs.Fn.{FnOnceReturnsAtMut};
ghost use Rattle.capi.specs.Handles.{IsCalled};

use crate::fault::CallFault;
use crate::handle::Handle;
use crate::session::Session;
use line_segmenter::SegmentFault;
use std::alloc::Global;

impl Handle {
    /// Calls `call` with the session, which is taken out of the handle and put back. Fails with
    /// `EmptySegmenter` if there is none.
    pub fn call<T, F: FnOnce(&mut Session) -> Result<T, SegmentFault>>(
        &mut self,
        alloc: Global,
        call: F,
    ) -> Result<T, CallFault>
        requires { F.IsAlwaysCallable call }
        ensures { IsCalled (FnOnceReturnsAtMut F.FnOnce call)
            self.old.slot.value self.new.slot.value result }
    {
        let mut session = self.take(alloc).ok_or(CallFault::EmptySegmenter)?;
        let outcome = call(&mut session);
        self.put(session);
        outcome.map_err(CallFault::Segment)
    }
}
