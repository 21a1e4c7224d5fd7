//! The commands of a step are given out one by one, and each is answered.

ghost use Rattle.std.specs.Prelude.{◌≡◌, ◌<◌, [], ◌∷◌, None};
ghost use Rattle.pm_controller.specs.Steps.{TakesAnswer};
ghost use Rattle.pm_slot.specs.Held.{Holds, Leads, inside};
ghost use Rattle.pm_handle.specs.Handle.{IsOneOf, IsOver, IsTold, unit_command};

use crate::answers::{CLOSED, DONE, NO_COMMAND, NO_MEMORY};
use pm_base::{Command, Unit};
use pm_slot::{Held, Slot};
use std::alloc::Global;

/// A command: a node, or the reset line if `line` is 1, of this number goes to the value.
#[repr(C)]
#[derive(Clone, Copy)]
pub struct UnitCommand {
    pub line: u32,
    pub number: u32,
    pub value: u32,
}

/// The command that waits for its answer: the next one of the step, and the same one until it is answered. Answers
/// `DONE`; `NO_COMMAND` if the step is over; `NO_MEMORY`; and `CLOSED`. Nothing changes.
pub fn next_command(alloc: Global, pmu: &mut Slot, command: &mut UnitCommand) -> u32
    ensures kept { inside pmu.new.held ≡ inside pmu.old.held }
    ensures done { result ≡ 0 → Holds (IsTold command.new) pmu.old.held }
    ensures over { result ≡ 17 → Holds IsOver pmu.old.held }
    ensures closed { result ≡ 19 → inside pmu.old.held ≡ None }
    ensures codes { IsOneOf (0 ∷ 6 ∷ 17 ∷ 19 ∷ []) result }
    ensures untold { 0 < result → command.new ≡ command.old }
{
    let Some(held) = pmu.take(alloc) else {
        return NO_MEMORY;
    };
    let code = next_held(&held, command);
    pmu.put(held);
    code
}

/// Leaves the command that waits. NO_COMMAND if none does, CLOSED if there is no controller.
fn next_held(held: &Held, command: &mut UnitCommand) -> u32
    ensures done { result ≡ 0 → Holds (IsTold command.new) held.now }
    ensures over { result ≡ 17 → Holds IsOver held.now }
    ensures closed { result ≡ 19 → inside held.now ≡ None }
    ensures codes { IsOneOf (0 ∷ 17 ∷ 19 ∷ []) result }
    ensures untold { 0 < result → command.new ≡ command.old }
{
    let Some(controller) = &held.controller else {
        return CLOSED;
    };
    match controller.next_command() {
        Some(next) => {
            *command = unit_command(next);
            DONE
        }
        None => NO_COMMAND,
    }
}

/// A command as C has it: whether the unit is a reset line, its number, the value.
fn unit_command(command: Command) -> UnitCommand
    ensures { result ≡ unit_command command.unit command.value }
{
    let (line, number) = match command.unit {
        Unit::Node(node) => (0, node.0),
        Unit::Line(line) => (1, line.0),
    };
    UnitCommand {
        line,
        number,
        value: command.value,
    }
}

/// What became of the command that waits: the device took it, or failed it. Then the next one waits. Answers `DONE`;
/// `NO_COMMAND` if none waits; `NO_MEMORY`; and `CLOSED`. But for `DONE` nothing changes.
pub fn command_done(alloc: Global, pmu: &mut Slot, ok: bool) -> u32
    ensures done { result ≡ 0 → Leads (TakesAnswer ok) pmu.old.held pmu.new.held }
    ensures kept { 0 < result → inside pmu.new.held ≡ inside pmu.old.held }
    ensures over { result ≡ 17 → Holds IsOver pmu.old.held }
    ensures closed { result ≡ 19 → inside pmu.old.held ≡ None }
    ensures codes { IsOneOf (0 ∷ 6 ∷ 17 ∷ 19 ∷ []) result }
{
    let Some(mut held) = pmu.take(alloc) else {
        return NO_MEMORY;
    };
    let code = done_held(&mut held, ok);
    pmu.put(held);
    code
}

/// Answers the command that waits: whether the device took it. NO_COMMAND if none does, CLOSED if there is no
/// controller.
fn done_held(held: &mut Held, ok: bool) -> u32
    ensures done { result ≡ 0 → Leads (TakesAnswer ok) held.old held.new }
    ensures kept { 0 < result → inside held.new ≡ inside held.old }
    ensures over { result ≡ 17 → Holds IsOver held.old }
    ensures closed { result ≡ 19 → inside held.old ≡ None }
    ensures codes { IsOneOf (0 ∷ 17 ∷ 19 ∷ []) result }
{
    match &mut held.controller {
        Some(controller) => {
            if controller.command_done(ok) {
                DONE
            } else {
                NO_COMMAND
            }
        }
        None => CLOSED,
    }
}
