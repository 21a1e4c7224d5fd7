//! The answers to power calls.

ghost use Rattle.std.specs.Prelude.{◌≡◌};
ghost use Rattle.pm_split.specs.Split.{called_note, noted_call};

use pm_base::{Event, NodeId};
use pm_ipi::Response;
use pm_psci::{Smc, answer};
use pm_topology::Topology;

/// What the power call of a script line is answered, with its processor, by the reply to the message that the call came
/// to. Any other line is no call, and a call may have no answer.
pub fn call_answer(t: &Topology, event: &Event, reply: Option<Response>) -> Option<(NodeId, i32)>
    ensures { noted_call result ≡ called_note t.now event.now reply }
{
    match event {
        Event::Smc {
            proc,
            function,
            args,
        } => {
            let smc = Smc {
                proc: *proc,
                function: *function,
                args: *args,
            };
            let code = answer(t, &smc, reply.as_ref())?;
            Some((*proc, code))
        }
        _ => None,
    }
}
