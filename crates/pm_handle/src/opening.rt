//! A controller of an object at load, behind a slot.

ghost use Rattle.std.specs.Prelude.{◌≡◌, IfErr, IfOk, IfSome, Some};
ghost use Rattle.pm_object.specs.declared.object.Object.{Object};
ghost use Rattle.pm_object.specs.Grammar.{Reads};
ghost use Rattle.pm_chip.specs.Chip.{chip};
ghost use Rattle.pm_controller.specs.Steps.{IsLoaded};
ghost use Rattle.pm_slot.specs.Held.{Holds, inside};
ghost use Rattle.pm_handle.specs.Handle.{IsOpened, IsRefused};

use crate::answers::{BAD_OBJECT, NO_MEMORY};
use pm_chip::zynqmp;
use pm_controller::Controller;
use pm_object::{DecodeError, Object, decode};
use pm_slot::{Held, Slot};
use std::alloc::Global;

/// A slot with a controller of an object at load, over the topology of the chip.
///
/// # Errors
///
/// `BAD_OBJECT` if the bytes are no object, and `NO_MEMORY`.
pub fn open(alloc: Global, object: &[u8]) -> Result<Slot, u32>
    ensures opened { IfOk result (λ slot. Holds (IsOpened object.now) slot.held) }
    ensures refused { IfErr result (IsRefused object.now) }
{
    match load(alloc, object) {
        Ok(controller) => keep(alloc, controller),
        Err(code) => Err(code),
    }
}

/// A controller of an object at load.
fn load(alloc: Global, object: &[u8]) -> Result<Controller, u32>
    ensures opened { IfOk result (IsOpened object.now) }
    ensures refused { IfErr result (IsRefused object.now) }
{
    match decode(alloc, object) {
        Ok(object) => load_object(alloc, object),
        Err(DecodeError::Bad(_)) => Err(BAD_OBJECT),
        Err(DecodeError::Memory(_)) => Err(NO_MEMORY),
    }
}

/// A controller at the load of an object over the chip. NO_MEMORY is its one error.
fn load_object(alloc: Global, object: Object) -> Result<Controller, u32>
    ensures loaded { IfOk result (IsLoaded object chip) }
    ensures starved { IfErr result (λ code. code ≡ 6) }
{
    let Ok(topology) = zynqmp(alloc) else {
        return Err(NO_MEMORY);
    };
    match Controller::load(alloc, object, topology) {
        Ok(controller) => Ok(controller),
        Err(_) => Err(NO_MEMORY),
    }
}

/// A slot with this controller.
fn keep(alloc: Global, controller: Controller) -> Result<Slot, u32>
    ensures kept { IfOk result (λ slot. inside slot.held ≡ Some controller) }
    ensures starved { IfErr result (λ code. code ≡ 6) }
{
    let Some(controller) = boxed(alloc, controller) else {
        return Err(NO_MEMORY);
    };
    match boxed(alloc, Held::of(controller)) {
        Some(held) => Ok(Slot::of(held)),
        None => Err(NO_MEMORY),
    }
}

/// A value in a box of its own. `None` if there is not enough memory, and then it is dropped.
fn boxed<T: Drop>(alloc: Global, value: T) -> Option<Box<T>>
    ensures { IfSome result (λ made. made.value ≡ value) }
{
    match Box::new(alloc, value) {
        Ok(made) => Some(made),
        Err(_) => None,
    }
}
