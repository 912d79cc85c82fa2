// A session as C holds it.

ghost use Rattle.std.specs.Prelude.{◌≡◌, true, false, Some, None, MatchOption};
ghost use Rattle.rcv_c.specs.Owned.{has_box};

use crate::handle::Handle;
use crate::held::Held;
use std::alloc::Global;
use std::mem::replace;

/// Open, with what it holds, or closed, which zeros say. C has it as a `rcv_session`.
#[repr(C)]
pub struct Session {
    handle: Handle,
    is_open: bool,
    ghost known: { is_open ≡ has_box handle.value },
}

impl Session {
    /// A closed one.
    pub fn closed(alloc: Global) -> Session
        ensures closed { result.is_open ≡ false }
        ensures value { result.handle.value ≡ None }
    {
        Session {
            handle: Handle::none(alloc),
            is_open: false,
        }
    }

    // An open one.
    fn of(held: Box<Held>) -> Session
        ensures opened { result.is_open ≡ true }
        ensures value { result.handle.value ≡ Some held.value }
    {
        Session {
            handle: Handle::of(held),
            is_open: true,
        }
    }

    // What it holds.
    fn into_box(self) -> Option<Box<Held>>
        ensures { MatchOption result (self.handle.value ≡ None) (λ b. Some b.value ≡ self.handle.value) }
    {
        let Session { handle, is_open } = self;
        if is_open {
            Some(handle.into_box())
        } else {
            None
        }
    }

    /// Whether it is open.
    pub fn is_open(&self) -> bool
        ensures { result ≡ has_box self.now.handle.value }
    {
        self.is_open
    }

    /// Takes out what it holds. After that it is closed.
    pub fn take(&mut self, alloc: Global) -> Option<Box<Held>>
        ensures closed { self.new.handle.value ≡ None }
        ensures value { MatchOption result (self.old.handle.value ≡ None) (λ b. Some b.value ≡ self.old.handle.value) }
    {
        replace(self, Session::closed(alloc)).into_box()
    }

    /// Holds this from now on. It was closed, so nothing is lost.
    pub fn hold(&mut self, held: Box<Held>)
        requires { self.old.handle.value ≡ None }
        ensures { self.new.handle.value ≡ Some held.value }
    {
        let Session {
            handle: _,
            is_open: _,
        } = replace(self, Session::of(held));
    }
}
