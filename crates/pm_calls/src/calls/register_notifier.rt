//! PM_REGISTER_NOTIFIER (UG1200).

ghost use Rattle.std.specs.Prelude.{◌≡◌};
ghost use Rattle.pm_calls.specs.Verdict.{verdict_of};
ghost use Rattle.pm_calls.specs.Views.{watched};
ghost use Rattle.pm_calls.specs.calls.RegisterNotifier.{can_happen, may_watch, register_notifier};

use crate::verdict::{Notifier, Say, Verdict};
use crate::views::{Watched, watched_node};
use pm_base::NodeId;
use pm_ipi::status::{INVALID_NODE, INVALID_PARAMETER, NO_ACCESS};
use pm_notify::NodeEvent;
use pm_state::Tables;

/// Whether the event can happen to the node: the value of any node can change, but only a slave has users.
fn can_happen(event: NodeEvent, view: &Watched) -> bool
    ensures { result ≡ can_happen (Some event) view.now }
{
    match event {
        NodeEvent::Change => true,
        NodeEvent::ZeroUsers => matches!(view, Watched::SlaveNode { .. }),
    }
}

/// Whether the caller may be told of the node: of a slave if it may use it, and of any power node.
fn may_watch(view: &Watched) -> bool
    ensures { result ≡ may_watch view.now }
{
    match view {
        Watched::Nothing => false,
        Watched::PowerNode => true,
        Watched::SlaveNode { permitted } => *permitted,
    }
}

/// Sets (`enable` 1) or removes (0) the caller's notifier for an event of a node.
/// Refused with INVALID_NODE if the node is neither a slave nor a power node, INVALID_PARAMETER if the event is
/// unknown or can't happen to the node or `enable` is another word, and NO_ACCESS if the caller may not use the
/// slave.
pub fn serve(
    tables: &Tables,
    master: usize,
    node: NodeId,
    event: u32,
    enable: u32,
    verdict: &mut Verdict,
)
    ensures { verdict.new ≡ verdict_of (register_notifier master node event enable (watched master node tables.now)) }
{
    let view = watched_node(tables, master, node);
    if matches!(view, Watched::Nothing) {
        return verdict.refuse(INVALID_NODE);
    }
    let Some(event) = NodeEvent::from_number(event) else {
        return verdict.refuse(INVALID_PARAMETER);
    };
    if !can_happen(event, &view) || enable > 1 {
        return verdict.refuse(INVALID_PARAMETER);
    }
    if !may_watch(&view) {
        return verdict.refuse(NO_ACCESS);
    }
    verdict.say(Say::Register(Notifier {
        master,
        node,
        event,
        on: enable == 1,
    }))
}
