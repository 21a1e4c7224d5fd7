//! PM_REQUEST_SUSPEND (UG1200).

ghost use Rattle.std.specs.Prelude.{◌≡◌};
ghost use Rattle.pm_calls.specs.Verdict.{verdict_of};
ghost use Rattle.pm_calls.specs.Views.{suspend_view};
ghost use Rattle.pm_calls.specs.calls.RequestSuspend.{request_suspend};

use crate::verdict::{Asked, Say, Verdict};
use crate::views::suspend_view;
use pm_base::{Mode, NodeId};
use pm_ipi::ack_kind;
use pm_ipi::status::{DOUBLE_REQUEST, FAILURE, INVALID_NODE, INVALID_PARAMETER, NO_ACCESS};
use pm_procs::{Pending, same_mode};
use pm_state::Tables;

/// Asks another master to suspend. The target is told how long it may take to be back, the state that is asked for,
/// and its timeout. The caller is answered when the request ends.
/// Refused with INVALID_PARAMETER if the acknowledge kind is unknown, INVALID_NODE if the node can't name a master,
/// NO_ACCESS if the object doesn't permit it, DOUBLE_REQUEST if a request is pending on the target already, and
/// FAILURE if the target isn't active.
pub fn serve(
    tables: &Tables,
    master: usize,
    node: NodeId,
    ack: u32,
    latency: u32,
    state: u32,
    verdict: &mut Verdict,
)
    ensures { verdict.new ≡ verdict_of
        (request_suspend master node ack latency state (suspend_view master node tables.now)) }
{
    let view = suspend_view(tables, master, node);
    let Some(ack) = ack_kind(ack) else {
        return verdict.refuse(INVALID_PARAMETER);
    };
    if !view.named {
        return verdict.refuse(INVALID_NODE);
    }
    let Some(target) = view.target else {
        return verdict.refuse(NO_ACCESS);
    };
    if target.pending {
        return verdict.refuse(DOUBLE_REQUEST);
    }
    if !same_mode(target.mode, Mode::Active) {
        return verdict.refuse(FAILURE);
    }
    verdict.say(Say::Ask(Asked {
        target: target.master,
        request: Pending::new(master, ack, node, target.timeout),
        latency,
        state,
        timeout: target.timeout,
    }))
}
