//! Reads of a controller. None changes it.

ghost use Rattle.std.specs.Prelude.{◌≡◌, ◌<◌, [], ◌∷◌, Some, None, option_map};
ghost use Rattle.pm_procs.specs.Modes.{mode_number};
ghost use Rattle.pm_controller.specs.Controls.{is_settled, mode_of, value_of};
ghost use Rattle.pm_slot.specs.Held.{Holds, inside};
ghost use Rattle.pm_handle.specs.Handle.{IsOneOf};
ghost use Rattle.pm_c.specs.HeldReads.{HasNoStatus, IsBeyond, IsStatus, status_words};

use pm_base::{Message, NodeId};
use pm_controller::NodeStatus;
use pm_handle::answers::{CLOSED, DONE, NO_MEMORY, NO_NODE};
use pm_procs::mode_number;
use pm_slot::{Held, Slot};
use std::alloc::Global;

/// Stores in `settled` whether the step is over and the device took the book's value for each unit. Returns `DONE`,
/// `NO_MEMORY` and `CLOSED`.
pub fn read_settled(alloc: Global, pmu: &mut Slot, settled: &mut bool) -> u32
    ensures kept { inside pmu.new.held ≡ inside pmu.old.held }
    ensures done { result ≡ 0 → Holds (λ c. settled.new ≡ is_settled c) pmu.old.held }
    ensures untold { 0 < result → settled.new ≡ settled.old }
    ensures closed { result ≡ 19 → inside pmu.old.held ≡ None }
    ensures codes { IsOneOf (0 ∷ 6 ∷ 19 ∷ []) result }
{
    let Some(held) = pmu.take(alloc) else {
        return NO_MEMORY;
    };
    let code = settled_held(&held, settled);
    pmu.put(held);
    code
}

/// As `read_settled`, for the content of a handle. Returns `DONE`, and `CLOSED` without a controller.
fn settled_held(held: &Held, settled: &mut bool) -> u32
    ensures done { result ≡ 0 → Holds (λ c. settled.new ≡ is_settled c) held.now }
    ensures untold { 0 < result → settled.new ≡ settled.old }
    ensures closed { result ≡ 19 → inside held.now ≡ None }
    ensures codes { IsOneOf (0 ∷ 19 ∷ []) result }
{
    let Some(controller) = &held.controller else {
        return CLOSED;
    };
    *settled = controller.is_settled();
    DONE
}

/// Stores in `value` the value of a node in the book. Returns `DONE`; `NO_NODE` if the chip has no such node;
/// `NO_MEMORY`; and `CLOSED`.
pub fn read_value(alloc: Global, pmu: &mut Slot, node: NodeId, value: &mut u32) -> u32
    ensures kept { inside pmu.new.held ≡ inside pmu.old.held }
    ensures done { result ≡ 0 → Holds (λ c. value_of node c ≡ Some value.new) pmu.old.held }
    ensures unknown { result ≡ 18 → Holds (λ c. value_of node c ≡ None) pmu.old.held }
    ensures untold { 0 < result → value.new ≡ value.old }
    ensures closed { result ≡ 19 → inside pmu.old.held ≡ None }
    ensures codes { IsOneOf (0 ∷ 6 ∷ 18 ∷ 19 ∷ []) result }
{
    let Some(held) = pmu.take(alloc) else {
        return NO_MEMORY;
    };
    let code = value_held(&held, node, value);
    pmu.put(held);
    code
}

/// As `read_value`, for the content of a handle. Returns `DONE`; `NO_NODE`; and `CLOSED` without a controller.
fn value_held(held: &Held, node: NodeId, value: &mut u32) -> u32
    ensures done { result ≡ 0 → Holds (λ c. value_of node c ≡ Some value.new) held.now }
    ensures unknown { result ≡ 18 → Holds (λ c. value_of node c ≡ None) held.now }
    ensures untold { 0 < result → value.new ≡ value.old }
    ensures closed { result ≡ 19 → inside held.now ≡ None }
    ensures codes { IsOneOf (0 ∷ 18 ∷ 19 ∷ []) result }
{
    let Some(controller) = &held.controller else {
        return CLOSED;
    };
    match controller.value(node) {
        Some(found) => {
            *value = found;
            DONE
        }
        None => NO_NODE,
    }
}

/// Stores in `mode` the mode of a processor: 0 off, 1 active, 2 asleep, 3 suspending. Returns `DONE`; `NO_NODE` if
/// the chip has no such processor; `NO_MEMORY`; and `CLOSED`.
pub fn read_mode(alloc: Global, pmu: &mut Slot, proc: NodeId, mode: &mut u32) -> u32
    ensures kept { inside pmu.new.held ≡ inside pmu.old.held }
    ensures done { result ≡ 0 → Holds (λ c. option_map mode_number (mode_of proc c) ≡ Some mode.new) pmu.old.held }
    ensures unknown { result ≡ 18 → Holds (λ c. mode_of proc c ≡ None) pmu.old.held }
    ensures untold { 0 < result → mode.new ≡ mode.old }
    ensures closed { result ≡ 19 → inside pmu.old.held ≡ None }
    ensures codes { IsOneOf (0 ∷ 6 ∷ 18 ∷ 19 ∷ []) result }
{
    let Some(held) = pmu.take(alloc) else {
        return NO_MEMORY;
    };
    let code = mode_held(&held, proc, mode);
    pmu.put(held);
    code
}

/// As `read_mode`, for the content of a handle. Returns `DONE`; `NO_NODE`; and `CLOSED` without a controller.
fn mode_held(held: &Held, proc: NodeId, mode: &mut u32) -> u32
    ensures done { result ≡ 0 → Holds (λ c. option_map mode_number (mode_of proc c) ≡ Some mode.new) held.now }
    ensures unknown { result ≡ 18 → Holds (λ c. mode_of proc c ≡ None) held.now }
    ensures untold { 0 < result → mode.new ≡ mode.old }
    ensures closed { result ≡ 19 → inside held.now ≡ None }
    ensures codes { IsOneOf (0 ∷ 18 ∷ 19 ∷ []) result }
{
    let Some(controller) = &held.controller else {
        return CLOSED;
    };
    match controller.mode(proc) {
        Some(found) => {
            *mode = mode_number(found);
            DONE
        }
        None => NO_NODE,
    }
}

/// The status of a node for a configured master: its operating point, and of a slave the capabilities that the master
/// requires now, and who uses it (0 nobody, 1 only this master, 2 only others, 3 both).
#[repr(C)]
#[derive(Clone, Copy)]
pub struct StatusWords {
    pub state: u32,
    pub requirement: u32,
    pub usage: u32,
}

/// Stores in `status` the status of a node for a master, as PM_GET_NODE_STATUS tells it. Returns `DONE`; `NO_NODE` if
/// the chip has no such node or the object no such master; `NO_MEMORY`; and `CLOSED`.
pub fn read_status(
    alloc: Global,
    pmu: &mut Slot,
    master: NodeId,
    node: NodeId,
    status: &mut StatusWords,
) -> u32
    ensures kept { inside pmu.new.held ≡ inside pmu.old.held }
    ensures done { result ≡ 0 → Holds (IsStatus master node status.new) pmu.old.held }
    ensures unknown { result ≡ 18 → Holds (HasNoStatus master node) pmu.old.held }
    ensures untold { 0 < result → status.new ≡ status.old }
    ensures closed { result ≡ 19 → inside pmu.old.held ≡ None }
    ensures codes { IsOneOf (0 ∷ 6 ∷ 18 ∷ 19 ∷ []) result }
{
    let Some(held) = pmu.take(alloc) else {
        return NO_MEMORY;
    };
    let code = status_held(&held, master, node, status);
    pmu.put(held);
    code
}

/// As `read_status`, for the content of a handle. Returns `DONE`; `NO_NODE`; and `CLOSED` without a controller.
fn status_held(held: &Held, master: NodeId, node: NodeId, status: &mut StatusWords) -> u32
    ensures done { result ≡ 0 → Holds (IsStatus master node status.new) held.now }
    ensures unknown { result ≡ 18 → Holds (HasNoStatus master node) held.now }
    ensures untold { 0 < result → status.new ≡ status.old }
    ensures closed { result ≡ 19 → inside held.now ≡ None }
    ensures codes { IsOneOf (0 ∷ 18 ∷ 19 ∷ []) result }
{
    let Some(controller) = &held.controller else {
        return CLOSED;
    };
    match controller.status(master, node) {
        Some(found) => {
            *status = status_words(found);
            DONE
        }
        None => NO_NODE,
    }
}

/// A status in three words: operating point, own requirement, usage (UG1200, PM_GET_NODE_STATUS).
fn status_words(status: NodeStatus) -> StatusWords
    ensures { result ≡ status_words status }
{
    StatusWords {
        state: status.state,
        requirement: status.requirement.0,
        usage: status.usage,
    }
}

/// Stores in `beyond` whether a message of `sender` is beyond the reach of the master `of`. Returns `DONE`,
/// `NO_MEMORY` and `CLOSED`.
pub fn read_beyond(
    alloc: Global,
    pmu: &mut Slot,
    of: NodeId,
    sender: NodeId,
    message: &Message,
    beyond: &mut bool,
) -> u32
    ensures kept { inside pmu.new.held ≡ inside pmu.old.held }
    ensures done { result ≡ 0 → Holds (IsBeyond of sender message.now beyond.new) pmu.old.held }
    ensures untold { 0 < result → beyond.new ≡ beyond.old }
    ensures closed { result ≡ 19 → inside pmu.old.held ≡ None }
    ensures codes { IsOneOf (0 ∷ 6 ∷ 19 ∷ []) result }
{
    let Some(held) = pmu.take(alloc) else {
        return NO_MEMORY;
    };
    let code = beyond_held(alloc, &held, of, sender, message, beyond);
    pmu.put(held);
    code
}

/// As `read_beyond`, for the content of a handle. Returns `DONE`; `NO_MEMORY`; and `CLOSED` without a controller.
fn beyond_held(
    alloc: Global,
    held: &Held,
    of: NodeId,
    sender: NodeId,
    message: &Message,
    beyond: &mut bool,
) -> u32
    ensures done { result ≡ 0 → Holds (IsBeyond of sender message.now beyond.new) held.now }
    ensures untold { 0 < result → beyond.new ≡ beyond.old }
    ensures closed { result ≡ 19 → inside held.now ≡ None }
    ensures codes { IsOneOf (0 ∷ 6 ∷ 19 ∷ []) result }
{
    let Some(controller) = &held.controller else {
        return CLOSED;
    };
    match controller.is_beyond(alloc, of, sender, message) {
        Ok(found) => {
            *beyond = found;
            DONE
        }
        Err(_) => NO_MEMORY,
    }
}
