//! Reading from a controller: the lines of its last step, and its book. No call changes the controller. The result is
//! stored only with `DONE`; `pmu_text` writes with `NO_ROOM` too.

ghost use Rattle.std.specs.Prelude.{◌≡◌, ◌≤◌, ◌<◌, [], ◌∷◌, Some, None, take, length, option_map};
ghost use Rattle.pm_procs.specs.Modes.{mode_number};
ghost use Rattle.pm_controller.specs.Controls.{is_settled, mode_of, text_of, value_of};
ghost use Rattle.pm_slot.specs.Held.{Holds, inside};
ghost use Rattle.pm_handle.specs.Handle.{IsOneOf, IsOver, IsWaiting};
ghost use Rattle.pm_c.specs.HeldReads.{HasNoStatus, IsBeyond, IsStatus};

use crate::held_reads::{
    StatusWords, read_beyond, read_mode, read_settled, read_status, read_value,
};
use crate::telling::write_text;
use pm_base::{Message, NodeId};
use pm_slot::Slot;
use std::alloc::Global;

/// Writes the lines of the last step to the front of `text`, each with this number in front. `written` is the number
/// of bytes that were written: 0 unless the call returns `DONE` or `NO_ROOM`.
///
/// Returns `DONE` if all lines were written; `NO_ROOM` if they don't fit, and then as much as fits is written;
/// `COMMAND_LEFT` if the step isn't over, since a command waits for its answer; `NO_MEMORY` for want of memory; and
/// `CLOSED` if the handle holds no controller.
#[unsafe(no_mangle)]
pub extern "C" fn pmu_text(
    alloc: Global,
    pmu: &mut Slot,
    number: u32,
    text: &mut [u8],
    written: &mut usize,
) -> u32
    ensures kept { inside pmu.new.held ≡ inside pmu.old.held }
    ensures done { result ≡ 0 → Holds (λ c. take written.new text.new ≡ text_of number c) pmu.old.held }
    ensures over { result ≡ 0 → Holds IsOver pmu.old.held }
    ensures left { result ≡ 16 → Holds IsWaiting pmu.old.held }
    ensures closed { result ≡ 19 → inside pmu.old.held ≡ None }
    ensures codes { IsOneOf (0 ∷ 5 ∷ 6 ∷ 16 ∷ 19 ∷ []) result }
    ensures within { written.new ≤ length text.new }
{
    write_text(alloc, pmu, number, text, written)
}

/// Stores in `settled` whether the last step is over and the value that the device last took for each unit of the
/// chip is the one in the book.
///
/// Returns `DONE`; `NO_MEMORY` for want of memory; and `CLOSED` if the handle holds no controller.
#[unsafe(no_mangle)]
pub extern "C" fn pmu_is_settled(alloc: Global, pmu: &mut Slot, settled: &mut bool) -> u32
    ensures kept { inside pmu.new.held ≡ inside pmu.old.held }
    ensures done { result ≡ 0 → Holds (λ c. settled.new ≡ is_settled c) pmu.old.held }
    ensures untold { 0 < result → settled.new ≡ settled.old }
    ensures closed { result ≡ 19 → inside pmu.old.held ≡ None }
    ensures codes { IsOneOf (0 ∷ 6 ∷ 19 ∷ []) result }
{
    read_settled(alloc, pmu, settled)
}

/// Stores in `value` the value of a node in the book: the state of a slave; 1 for a power node that is up and for a
/// processor that is active or suspending; and 0 for any other.
///
/// Returns `DONE`; `NO_NODE` if the chip has no such node; `NO_MEMORY` for want of memory; and `CLOSED` if the handle
/// holds no controller.
#[unsafe(no_mangle)]
pub extern "C" fn pmu_value(alloc: Global, pmu: &mut Slot, node: u32, value: &mut u32) -> u32
    ensures kept { inside pmu.new.held ≡ inside pmu.old.held }
    ensures done { result ≡ 0 → Holds (λ c. value_of (record { 0 = node }) c ≡ Some value.new) pmu.old.held }
    ensures unknown { result ≡ 18 → Holds (λ c. value_of (record { 0 = node }) c ≡ None) pmu.old.held }
    ensures untold { 0 < result → value.new ≡ value.old }
    ensures closed { result ≡ 19 → inside pmu.old.held ≡ None }
    ensures codes { IsOneOf (0 ∷ 6 ∷ 18 ∷ 19 ∷ []) result }
{
    read_value(alloc, pmu, NodeId(node), value)
}

/// Stores in `mode` the mode of a processor: 0 off, 1 active, 2 asleep, 3 suspending.
///
/// Returns `DONE`; `NO_NODE` if no processor of the chip has this number; `NO_MEMORY` for want of memory; and
/// `CLOSED` if the handle holds no controller.
#[unsafe(no_mangle)]
pub extern "C" fn pmu_mode(alloc: Global, pmu: &mut Slot, proc: u32, mode: &mut u32) -> u32
    ensures kept { inside pmu.new.held ≡ inside pmu.old.held }
    ensures done { result ≡ 0
        → Holds (λ c. option_map mode_number (mode_of (record { 0 = proc }) c) ≡ Some mode.new) pmu.old.held }
    ensures unknown { result ≡ 18 → Holds (λ c. mode_of (record { 0 = proc }) c ≡ None) pmu.old.held }
    ensures untold { 0 < result → mode.new ≡ mode.old }
    ensures closed { result ≡ 19 → inside pmu.old.held ≡ None }
    ensures codes { IsOneOf (0 ∷ 6 ∷ 18 ∷ 19 ∷ []) result }
{
    read_mode(alloc, pmu, NodeId(proc), mode)
}

/// Stores in `status` what PM_GET_NODE_STATUS (UG1200) would tell a master about a node. No message is needed: no
/// step begins, and the master may be in any mode.
///
/// Returns `DONE`; `NO_NODE` if the chip has no such node or the object no such master; `NO_MEMORY` for want of
/// memory; and `CLOSED` if the handle holds no controller.
#[unsafe(no_mangle)]
pub extern "C" fn pmu_node_status(
    alloc: Global,
    pmu: &mut Slot,
    master: u32,
    node: u32,
    status: &mut StatusWords,
) -> u32
    ensures kept { inside pmu.new.held ≡ inside pmu.old.held }
    ensures done { result ≡ 0
        → Holds (IsStatus (record { 0 = master }) (record { 0 = node }) status.new) pmu.old.held }
    ensures unknown { result ≡ 18
        → Holds (HasNoStatus (record { 0 = master }) (record { 0 = node })) pmu.old.held }
    ensures untold { 0 < result → status.new ≡ status.old }
    ensures closed { result ≡ 19 → inside pmu.old.held ≡ None }
    ensures codes { IsOneOf (0 ∷ 6 ∷ 18 ∷ 19 ∷ []) result }
{
    read_status(alloc, pmu, NodeId(master), NodeId(node), status)
}

/// Stores in `beyond` whether a message is beyond the reach of the master `of`. Two things have to hold. The master
/// `sender` is beyond that reach, or isn't configured. Each node that the message names is beyond it, and so is the
/// reset line if the message asks for its value. The message has the API word `api` and five arguments.
///
/// Returns `DONE`; `NO_MEMORY` for want of memory; and `CLOSED` if the handle holds no controller.
#[unsafe(no_mangle)]
pub extern "C" fn pmu_is_beyond(
    alloc: Global,
    pmu: &mut Slot,
    of: u32,
    sender: u32,
    api: u32,
    first: u32,
    second: u32,
    third: u32,
    fourth: u32,
    fifth: u32,
    beyond: &mut bool,
) -> u32
    ensures kept { inside pmu.new.held ≡ inside pmu.old.held }
    ensures done { result ≡ 0 → Holds (IsBeyond (record { 0 = of }) (record { 0 = sender }) (record {
      api = api;
      args = first ∷ second ∷ third ∷ fourth ∷ fifth ∷ [];
    }) beyond.new) pmu.old.held }
    ensures untold { 0 < result → beyond.new ≡ beyond.old }
    ensures closed { result ≡ 19 → inside pmu.old.held ≡ None }
    ensures codes { IsOneOf (0 ∷ 6 ∷ 19 ∷ []) result }
{
    let message = Message {
        api,
        args: [first, second, third, fourth, fifth],
    };
    read_beyond(alloc, pmu, NodeId(of), NodeId(sender), &message, beyond)
}
