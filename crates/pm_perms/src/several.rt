//! What a master is permitted by at least one of several objects that have the same masters.

ghost use Rattle.std.specs.Prelude.{◌≡◌};
ghost use Rattle.std.specs.List.{list_any};
ghost use Rattle.pm_perms.specs.Several as spec;

use crate::permits::{
    may_configure, may_force, may_reset, may_shut, may_suspend, may_use, may_wake,
};
use pm_base::{LineId, NodeId};
use pm_object::{MasterRec, Object};
use pm_topology::Topology;

/// What a master may be permitted to do.
#[derive(Clone, Copy, Debug, PartialEq, Eq)]
pub enum Act {
    /// Use a slave.
    Use(NodeId),
    /// Suspend another master.
    Suspend(NodeId),
    /// Wake another master.
    Wake(NodeId),
    /// Force a power node or a processor down.
    Force(NodeId),
    /// Reset a line.
    Reset(LineId),
    /// Shut down, by a subtype.
    Shut(u32),
    /// Set the configuration.
    Configure,
}

/// The masters of the objects: those of the first, since all have the same. None if there is no object.
pub fn masters_of(objects: &[Object]) -> &[MasterRec]
    ensures { result.now ≡ spec.masters_of objects.now }
{
    match objects {
        [object, ..] => object.masters.as_slice(),
        [] => &[],
    }
}

/// Whether a master may do this by an object.
pub fn may(object: &Object, t: &Topology, master: NodeId, act: Act) -> bool
    ensures { result ≡ spec.may object.now t.now master act }
{
    match act {
        Act::Use(slave) => may_use(object, t, master, slave),
        Act::Suspend(other) => may_suspend(object, t, master, other),
        Act::Wake(other) => may_wake(object, t, master, other),
        Act::Force(node) => may_force(object, t, master, node),
        Act::Reset(line) => may_reset(object, t, master, line),
        Act::Shut(subtype) => may_shut(object, t, master, subtype),
        Act::Configure => may_configure(object, t, master),
    }
}

/// Whether at least one of these objects permits it.
fn any_may(objects: &[Object], t: &Topology, master: NodeId, act: Act) -> bool
    ensures { result ≡ list_any (λ object. spec.may object t.now master act) objects.now }
{
    objects.iter().any(|object| may(object, t, master, act))
}

/// Whether a master may do this by at least one of the objects.
pub fn some_may(objects: &[Object], t: &Topology, master: NodeId, act: Act) -> bool
    ensures { result ≡ spec.some_may objects.now t.now master act }
{
    any_may(objects, t, master, act)
}
