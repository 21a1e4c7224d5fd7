//! An event is told: a message of a master, a boot, a wait, an interrupt, or time that passes.

ghost use Rattle.std.specs.Prelude.{◌≡◌, ◌<◌, [], ◌∷◌, None};
ghost use Rattle.pm_controller.specs.Steps.{TakesEvent};
ghost use Rattle.pm_slot.specs.Held.{Holds, Leads, inside};
ghost use Rattle.pm_handle.specs.Handle.{IsOneOf, IsOver, IsWaiting};

use crate::answers::{CLOSED, COMMAND_LEFT, DONE, NO_MEMORY};
use pm_base::Event;
use pm_slot::{Held, Slot};
use std::alloc::Global;

/// Tells a controller an event, with which a step begins. Answers `DONE`; `COMMAND_LEFT` while a command of the step before
/// waits; `NO_MEMORY`; and `CLOSED`. But for `DONE` nothing changes.
pub fn tell(alloc: Global, pmu: &mut Slot, event: Event) -> u32
    ensures done { result ≡ 0 → Leads (TakesEvent event) pmu.old.held pmu.new.held }
    ensures kept { 0 < result → inside pmu.new.held ≡ inside pmu.old.held }
    ensures over { result ≡ 0 → Holds IsOver pmu.old.held }
    ensures left { result ≡ 16 → Holds IsWaiting pmu.old.held }
    ensures closed { result ≡ 19 → inside pmu.old.held ≡ None }
    ensures codes { IsOneOf (0 ∷ 6 ∷ 16 ∷ 19 ∷ []) result }
{
    let Some(mut held) = pmu.take(alloc) else {
        return NO_MEMORY;
    };
    let code = tell_held(&mut held, &event);
    pmu.put(held);
    code
}

/// Gives the controller an event. COMMAND_LEFT if a command waits, CLOSED if there is no controller.
fn tell_held(held: &mut Held, event: &Event) -> u32
    ensures done { result ≡ 0 → Leads (TakesEvent event.now) held.old held.new }
    ensures kept { 0 < result → inside held.new ≡ inside held.old }
    ensures over { result ≡ 0 → Holds IsOver held.old }
    ensures left { result ≡ 16 → Holds IsWaiting held.old }
    ensures closed { result ≡ 19 → inside held.old ≡ None }
    ensures codes { IsOneOf (0 ∷ 16 ∷ 19 ∷ []) result }
{
    match &mut held.controller {
        Some(controller) => {
            if controller.event(event) {
                DONE
            } else {
                COMMAND_LEFT
            }
        }
        None => CLOSED,
    }
}
