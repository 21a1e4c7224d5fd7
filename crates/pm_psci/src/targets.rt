//! The targets of the calls: the processors of master 1.

ghost use Rattle.std.specs.Prelude.{◌≡◌};
ghost use Rattle.pm_psci.specs.Targets.{is_target, target_at, targets};

use pm_base::NodeId;
use pm_topology::Topology;

/// The master whose processors make the calls and are their targets.
pub(crate) const MASTER: NodeId = NodeId(1);

/// The targets, in the order of the table.
pub(crate) fn targets(t: &Topology) -> &[NodeId]
    ensures { result.now ≡ targets t.now }
{
    t.procs_of(MASTER)
}

/// Whether a node is a target.
pub(crate) fn is_target(t: &Topology, node: NodeId) -> bool
    ensures { result ≡ is_target t.now node }
{
    targets(t).iter().any(|target| target.0 == node.0)
}

/// The target at a place, if there is one.
pub(crate) fn target_at(t: &Topology, place: u64) -> Option<NodeId>
    ensures { result ≡ target_at t.now place }
{
    targets(t).get(place as usize).copied()
}
