//! The rules on the numbers and the processors of masters.

ghost use Rattle.std.specs.Prelude.{◌≡◌, ◌==◌, ◌||◌};
ghost use Rattle.std.specs.List.{list_any};
ghost use Rattle.pm_topology.specs.FirstFault.{has_all_masters, overlap};
ghost use Rattle.pm_topology.specs.Masters.{has_twice, may_have};

use crate::topology::MasterDef;
use pm_base::NodeId;
use pm_base::masters::{APU, RPU, RPU_0, RPU_1, is_half_of, is_master_number, splits_lockstep};

/// Whether a master has this number.
pub(crate) fn has_master(masters: &[MasterDef], node: NodeId) -> bool
    ensures { result ≡ list_any (λ e. e.node.0 == node.0) masters.now }
{
    masters.iter().any(|master| master.node == node)
}

/// Whether each number of a master has its entry.
pub(crate) fn has_all_masters(masters: &[MasterDef]) -> bool
    ensures { result ≡ has_all_masters masters.now }
{
    has_master(masters, APU)
        && has_master(masters, RPU)
        && has_master(masters, RPU_0)
        && has_master(masters, RPU_1)
}

/// Whether a master may have a processor: one with the number of a master is that master's alone, or
/// also the RPU's in lock-step.
pub(crate) fn may_have(master: NodeId, proc: NodeId) -> bool
    ensures { result ≡ may_have master.0 proc.0 }
{
    !is_master_number(proc) || proc == master || is_half_of(proc, master)
}

/// Whether a master has a processor in common with one of these, without that it may.
pub(crate) fn overlaps(master: &MasterDef, others: &[MasterDef]) -> bool
    ensures { result ≡ list_any (overlap master.now) others.now }
{
    others.iter().any(|other| overlap(master, other))
}

/// Whether two masters have a processor in common and may not.
fn overlap(one: &MasterDef, other: &MasterDef) -> bool
    ensures { result ≡ overlap one.now other.now }
{
    share(one.procs.as_slice(), other.procs.as_slice()) && !splits_lockstep(one.node, other.node)
}

/// Whether these nodes have one in common.
fn share(nodes: &[NodeId], others: &[NodeId]) -> bool
    ensures { result ≡ list_any (λ p. list_any (λ q. q.0 == p.0) others.now) nodes.now }
{
    nodes.iter().any(|node| has_node(others, *node))
}

/// Whether a node is among these.
fn has_node(nodes: &[NodeId], node: NodeId) -> bool
    ensures { result ≡ list_any (λ q. q.0 == node.0) nodes.now }
{
    nodes.iter().any(|other| *other == node)
}

/// Whether one of these nodes stands twice.
pub(crate) fn has_twice(nodes: &[NodeId]) -> bool
    ensures { result ≡ has_twice nodes.now }
{
    for (place, node) in nodes.iter().enumerate() {
        if has_node(&nodes[place + 1..], *node) {
            return true;
        }
    }
    false
}
