//! Giving out the commands of a step one by one, and taking the device's answers.

ghost use Rattle.std.specs.Prelude.{◌≡◌, ◌<◌, [], ◌∷◌, None};
ghost use Rattle.pm_controller.specs.Steps.{TakesAnswer};
ghost use Rattle.pm_slot.specs.Held.{Holds, Leads, inside};
ghost use Rattle.pm_handle.specs.Handle.{IsOneOf, IsOver, IsTold};

use pm_handle::commands::{UnitCommand, command_done, next_command};
use pm_slot::Slot;
use std::alloc::Global;

/// Writes into `command` the command that waits for its answer. It stays the same one until it is answered. Nothing
/// changes.
///
/// Returns `DONE`; `NO_COMMAND` if the step is over; `NO_MEMORY` for want of memory; and `CLOSED` if the handle holds
/// no controller.
#[unsafe(no_mangle)]
pub extern "C" fn pmu_next(alloc: Global, pmu: &mut Slot, command: &mut UnitCommand) -> u32
    ensures kept { inside pmu.new.held ≡ inside pmu.old.held }
    ensures done { result ≡ 0 → Holds (IsTold command.new) pmu.old.held }
    ensures over { result ≡ 17 → Holds IsOver pmu.old.held }
    ensures closed { result ≡ 19 → inside pmu.old.held ≡ None }
    ensures codes { IsOneOf (0 ∷ 6 ∷ 17 ∷ 19 ∷ []) result }
    ensures untold { 0 < result → command.new ≡ command.old }
{
    next_command(alloc, pmu, command)
}

/// Takes the device's answer to the command that waits: `ok` if the device took it. The next command of the step then
/// waits, if there is one.
///
/// Returns `DONE`; `NO_COMMAND` if no command waits; `NO_MEMORY` for want of memory; and `CLOSED` if the handle holds
/// no controller. Only with `DONE` anything changes.
#[unsafe(no_mangle)]
pub extern "C" fn pmu_done(alloc: Global, pmu: &mut Slot, ok: bool) -> u32
    ensures done { result ≡ 0 → Leads (TakesAnswer ok) pmu.old.held pmu.new.held }
    ensures kept { 0 < result → inside pmu.new.held ≡ inside pmu.old.held }
    ensures over { result ≡ 17 → Holds IsOver pmu.old.held }
    ensures closed { result ≡ 19 → inside pmu.old.held ≡ None }
    ensures codes { IsOneOf (0 ∷ 6 ∷ 17 ∷ 19 ∷ []) result }
{
    command_done(alloc, pmu, ok)
}
