//! The events that a power call becomes.

ghost use Rattle.std.specs.Prelude.{◌≡◌, slice_get, true, [], ◌∷◌};
ghost use Rattle.pm_psci.specs.Refusal.{are_valid};
ghost use Rattle.pm_psci.specs.Lowering.{lowered, or_pass, sent, sent_by_master};

use crate::calls::{Function, Smc, decode_function, high_word, low_word};
use crate::refusal::refusal;
use crate::targets::{MASTER, target_at};
use pm_base::{Event, Message, NodeId};
use pm_topology::Topology;

/// The `k`-th event, counted from 0, of those that a power call becomes, and `None` past the last one. A call becomes one
/// message of master 1; CPU_OFF also the caller's wait for an interrupt. A refused call becomes `Pass`.
pub fn lower(t: &Topology, smc: &Smc, k: usize) -> Option<Event>
    ensures { result ≡ slice_get (lowered t.now smc.now) k }
{
    if refusal(t, smc).is_some() {
        return alone(Event::Pass, k);
    }
    sent(t, smc, &decode_function(smc), k)
}

/// The `k`-th event of a power call that isn't refused.
fn sent(t: &Topology, smc: &Smc, function: &Function, k: usize) -> Option<Event>
    requires { are_valid t.now function.now ≡ true }
    ensures { result ≡ slice_get (or_pass (sent t.now smc.now function.now)) k }
{
    let caller = smc.proc;
    match *function {
        Function::CpuOn { target, entry } => {
            let node = target_at(t, target).unwrap_or(NodeId(0));
            let args = [node.0, low_word(entry) + 1, high_word(entry), 2, 0];
            alone(sent_by_master(10, args), k)
        }
        Function::CpuOff => match k {
            0 => Some(sent_by_master(7, [caller.0, 0, 0, 0, 0])),
            1 => Some(Event::Wfi { proc: caller }),
            _ => None,
        },
        Function::AffinityInfo { target, .. } => {
            let node = target_at(t, target).unwrap_or(NodeId(0));
            alone(sent_by_master(3, [node.0, 0, 0, 0, 0]), k)
        }
        Function::SystemOff => alone(sent_by_master(12, [0, 2, 0, 0, 0]), k),
        Function::SystemReset => alone(sent_by_master(12, [1, 2, 0, 0, 0]), k),
        Function::Unknown => alone(Event::Pass, k),
    }
}

/// This event at place 0, and none at any other place.
fn alone(event: Event, k: usize) -> Option<Event>
    ensures { result ≡ slice_get (event ∷ []) k }
{
    if k == 0 { Some(event) } else { None }
}

/// A message of master 1.
fn sent_by_master(api: u32, args: [u32; 5]) -> Event
    ensures { result ≡ sent_by_master api args }
{
    Event::Ipi {
        master: MASTER,
        message: Message { api, args },
    }
}
