// A box as C holds it: a pointer whose type C doesn't know, or nothing.

ghost use Rattle.std.specs.Prelude.{◌≡◌, true, Option, Some, None};
ghost use Rattle.rcv_c.specs.Owned.{owned, has_box};
ghost use Rattle.rcv_c.specs.declared.held.Held.{Held as HeldValue};
ghost use Rattle.rcv_c.specs.contracts.held.Held as h;
ghost use Rattle.std.specs.Coded.{codes};

use crate::held::Held;
use crate::loose::Loose;
use std::alloc::Global;
use std::marker::Model;
use std::ptr::null_mut;

/// What the pointer leads to: nothing of it is C's to read.
#[repr(C)]
pub struct Hidden {
    nothing: u8,
}

/// Owns a box, or nothing.
#[repr(C)]
#[derive(Drop)]
pub struct Handle {
    at: *mut Hidden,
    alloc: Global,
    ghost value: { Option HeldValue } by { Prim.hlevel (codes, h.the_row.coded) },
}

impl Model for Handle {
    ghost also_owns = { λ c. owned c.alloc c.at c.value };
}

impl Handle {
    /// Nothing.
    pub fn none(alloc: Global) -> Handle
        ensures { result.value ≡ None }
    {
        Handle {
            at: null_mut(),
            alloc,
        }
    }

    /// The box.
    pub fn of(value: Box<Held>) -> Handle
        ensures { result.value ≡ Some value.value }
    {
        Handle::of_loose(Loose::of(value))
    }

    /// The box of a handle that has one.
    pub fn into_box(self) -> Box<Held>
        requires { has_box self.value ≡ true }
        ensures { Some result.value ≡ self.value }
    {
        self.into_loose().into_box()
    }

    // The same pointer, whose type is forgotten.
    fn of_loose(loose: Loose<Held, Global>) -> Handle
        ensures { result.value ≡ Some loose.value }
    {
        let Loose { at, alloc } = loose;
        Handle {
            at: at as *mut Hidden,
            alloc,
        }
    }

    // The same pointer, with its type.
    fn into_loose(self) -> Loose<Held, Global>
        requires { has_box self.value ≡ true }
        ensures { Some result.value ≡ self.value }
    {
        let Handle { at, alloc } = self;
        Loose {
            at: at as *mut Held,
            alloc,
        }
    }
}
