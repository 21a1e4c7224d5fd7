//! What a call is answered.

ghost use Rattle.std.specs.Prelude.{◌≡◌};
ghost use Rattle.std.specs.Option.{option_copied};
ghost use Rattle.pm_psci.specs.Answers.{affinity, answer_of, answered, started};

use crate::calls::{Function, Smc, decode_function};
use crate::refusal::{DENIED, refusal};
use pm_ipi::Response;
use pm_ipi::status::{FAILURE, SUCCESS};
use pm_topology::Topology;

/// The target is on already, or starts (Arm DEN0022, return codes).
const ALREADY_ON: i32 = -4;
/// The message was refused for a reason that the interface has no code for.
const INTERNAL_FAILURE: i32 = -6;
/// What AFFINITY_INFO answers of a target that is on, and of one that is off.
const ON: i32 = 0;

const OFF: i32 = 1;

/// What a call is answered, from the reply to its message. A refused call needs no reply; any other is answered
/// nothing if there is none, and CPU_OFF, SYSTEM_OFF and SYSTEM_RESET are answered nothing if they are done.
pub fn answer(t: &Topology, smc: &Smc, reply: Option<&Response>) -> Option<i32>
    ensures { result ≡ answered t.now smc.now (option_copied reply.entry) }
{
    if let Some(code) = refusal(t, smc) {
        return Some(code);
    }
    match reply {
        Some(response) => answer_of(&decode_function(smc), response),
        None => None,
    }
}

/// What a call is answered that isn't refused, from the reply to its message.
fn answer_of(function: &Function, response: &Response) -> Option<i32>
    ensures { result ≡ answer_of function.now response.now }
{
    match function {
        Function::CpuOn { .. } => Some(started(response.status)),
        Function::CpuOff if response.status != SUCCESS => Some(DENIED),
        Function::AffinityInfo { .. } => Some(affinity(response.words[0])),
        _ => None,
    }
}

/// What CPU_ON is answered.
fn started(status: u32) -> i32
    ensures { result ≡ started status }
{
    match status {
        SUCCESS => 0,
        FAILURE => ALREADY_ON,
        _ => INTERNAL_FAILURE,
    }
}

/// What AFFINITY_INFO is answered of a target in a mode: it is on if it is active or suspending.
fn affinity(mode: u32) -> i32
    ensures { result ≡ affinity mode }
{
    if mode == 1 || mode == 3 { ON } else { OFF }
}
