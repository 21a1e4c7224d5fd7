//! PM_GET_NODE_STATUS (UG1200).

ghost use Rattle.std.specs.Prelude.{◌≡◌};
ghost use Rattle.pm_values.specs.Caches.{AreKept};
ghost use Rattle.pm_calls.specs.Verdict.{verdict_of};
ghost use Rattle.pm_calls.specs.Views.{status_view};
ghost use Rattle.pm_calls.specs.calls.GetNodeStatus.{get_node_status};

use crate::verdict::Verdict;
use crate::views::status_view;
use pm_base::NodeId;
use pm_ipi::status::INVALID_NODE;
use pm_state::Tables;
use pm_values::Caches;

/// Tells the caller three words about any node. The first is its operating point: the state of a slave, the mode of a
/// processor, and for a power node 1 if it is up and else 0. Of a slave the second is the capabilities that the caller
/// requires of it now, and the third who uses it: 0 nobody, 1 the caller alone, 2 others alone, 3 both. Of any other
/// node they are 0. No permission is needed. Refused with INVALID_NODE if the chip has no such node.
pub fn serve(tables: &Tables, caches: &Caches, master: usize, node: NodeId, verdict: &mut Verdict)
    requires { AreKept tables.now caches.now }
    ensures { verdict.new ≡ verdict_of (get_node_status (status_view master node tables.now)) }
{
    let view = status_view(tables, caches, master, node);
    match view.state {
        Some(state) => verdict.tell([state, view.requested.0, view.usage]),
        None => verdict.refuse(INVALID_NODE),
    }
}
