//! The text of a master's reach.

ghost use Rattle.std.specs.Prelude.{◌==◌, IfOk, IsTrue};
ghost use Rattle.std.specs.List.{list_any};
ghost use Rattle.pm_top.specs.Within.{IsReachText};

use pm_base::{NoMemory, NodeId};
use pm_object::Object;
use pm_reach::reach_by_one;
use pm_topology::Topology;
use pm_trace::reach_text;
use std::alloc::Global;

/// The text of what a master of an object can reach on a chip: a line for each member. Fails with `NoMemory` if there
/// is not enough memory.
pub(crate) fn text_of_reach(
    alloc: Global,
    object: &Object,
    topology: &Topology,
    master: NodeId,
) -> Result<Vec<u8>, NoMemory>
    requires { IsTrue (list_any (λ r. r.node == master.0) object.now.masters) }
    ensures { IfOk result (λ text. IsReachText object.now topology.now master text.items) }
{
    let found = reach_by_one(alloc, object, topology, master)?;
    reach_text(alloc, &found)
}
