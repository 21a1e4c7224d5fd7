//! Opening and ending a handle.

ghost use Rattle.std.specs.Prelude.{◌≡◌, [], ◌∷◌};
ghost use Rattle.pm_object.specs.declared.object.Object.{Object};
ghost use Rattle.pm_object.specs.Grammar.{Reads};
ghost use Rattle.pm_handle.specs.Handle.{IsOneOf};

use pm_handle::answers::{DONE, NO_MEMORY};
use pm_handle::opening::open;
use pm_slot::Slot;
use std::alloc::Global;

/// Loads a controller for a configuration object, over the topology of the chip, and stores its handle in `handle`.
/// The first step, the load, begins.
///
/// Returns `DONE`; `BAD_OBJECT` if the bytes are no object; and `NO_MEMORY` for want of memory.
#[unsafe(no_mangle)]
pub extern "C" fn pmu_open(alloc: Global, object: &[u8], handle: &mut *mut Slot) -> u32
    ensures bad { result ≡ 2 → (o : Object) → Reads object.now o → ⊥ }
    ensures codes { IsOneOf (0 ∷ 2 ∷ 6 ∷ []) result }
{
    let slot = match open(alloc, object) {
        Ok(slot) => slot,
        Err(code) => return code,
    };
    match Box::new(alloc, slot) {
        Ok(slot) => {
            *handle = Box::into_raw(slot);
            DONE
        }
        Err(_) => NO_MEMORY,
    }
}

/// Ends a controller and frees its memory. The block to which the handle points is the caller's to free.
#[unsafe(no_mangle)]
pub extern "C" fn pmu_end(slot: Slot) {
    drop(slot);
}
