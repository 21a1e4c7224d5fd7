//! A box of what a handle holds, as a pointer to bytes.

ghost use Rattle.std.specs.Prelude.{◌≡◌, MatchOption};
ghost use Rattle.pm_slot.specs.declared.held.Held.{Held};
ghost use Rattle.pm_slot.specs.Slot.{slot_owns};

use crate::held::Held;
use crate::parts::Parts;
use std::alloc::Global;
use std::marker::Model;
use std::mem;

/// An owning pointer, of which C sees nothing but its bytes. Contracts see what it holds.
#[repr(C)]
pub struct Slot {
    ptr: *mut u8,
    alloc: Global,
    pub ghost held: { Held },
}

impl Model for Slot {
    ghost also_owns = { λ s. slot_owns s.alloc s.ptr s.held };
}

impl Slot {
    /// A slot that holds this.
    pub fn of(held: Box<Held>) -> Slot
        ensures { result.held ≡ held.value }
    {
        Slot::of_parts(Parts::of(held))
    }

    /// What a slot holds.
    pub fn into_box(self) -> Box<Held>
        ensures { result.value ≡ self.held }
    {
        self.into_parts().into_box()
    }

    /// Takes out what the slot holds, which holds no controller until it is put back. `None`, and nothing changes, if
    /// there is not enough memory for that.
    pub fn take(&mut self, alloc: Global) -> Option<Box<Held>>
        ensures { MatchOption result (self.new.held ≡ self.old.held) (λ held. held.value ≡ self.old.held) }
    {
        match Box::new(alloc, Held::none()) {
            Ok(spare) => Some(mem::replace(self, Slot::of(spare)).into_box()),
            Err(_) => None,
        }
    }

    /// Puts it back.
    pub fn put(&mut self, held: Box<Held>)
        ensures { self.new.held ≡ held.value }
    {
        *self = Slot::of(held);
    }

    /// The slot of a box that was taken apart. Its pointer has no type, so that C may hold it.
    fn of_parts(parts: Parts<Held, Global>) -> Slot
        ensures { result.held ≡ parts.value }
    {
        let Parts { ptr, alloc } = parts;
        let ptr = ptr as *mut u8;
        Slot { ptr, alloc }
    }

    /// The parts of the slot's box, whose pointer has its type again.
    fn into_parts(self) -> Parts<Held, Global>
        ensures { result.value ≡ self.held }
    {
        let Slot { ptr, alloc } = self;
        let ptr = ptr as *mut Held;
        Parts { ptr, alloc }
    }
}

impl Drop for Slot {
    /// Gives the controller and its block back.
    fn drop(self) {
        drop(self.into_box());
    }
}
