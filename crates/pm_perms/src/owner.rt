//! The master to which a processor belongs.

ghost use Rattle.std.specs.Prelude.{◌≡◌, ◌==◌};
ghost use Rattle.std.specs.List.{list_any};
ghost use Rattle.pm_perms.specs.Owner.{has_processor, owner};

use pm_base::NodeId;
use pm_object::Object;
use pm_topology::{MasterDef, Topology};

/// The place in the object of the master that a processor belongs to: the first of its masters that has
/// the processor in the chip's table. `None` if none has it.
pub fn owner_of(object: &Object, t: &Topology, proc: NodeId) -> Option<usize>
    ensures { result ≡ owner object.now t.now proc }
{
    object
        .masters
        .as_slice()
        .iter()
        .position(|master| has_processor(t, master.node, proc))
}

/// Whether the master with a number has a processor in the chip's table.
pub fn has_processor(t: &Topology, master: u32, proc: NodeId) -> bool
    ensures { result ≡ has_processor t.now master proc }
{
    t.masters
        .as_slice()
        .iter()
        .any(|def| def.node.0 == master && lists(def, proc))
}

/// Whether a master's list has the processor.
fn lists(def: &MasterDef, proc: NodeId) -> bool
    ensures { result ≡ list_any (λ p. p.0 == proc.0) def.now.procs }
{
    def.procs.as_slice().iter().any(|own| own.0 == proc.0)
}
