//! Which master leads to which, by what one of several objects permits.

ghost use Rattle.std.specs.Prelude.{◌≡◌, ◌<◌, length};
ghost use Rattle.pm_perms.specs.Several as perms;
ghost use Rattle.pm_reach.specs.Leads as spec;

use crate::members::Why;
use pm_base::NodeId;
use pm_object::Object;
use pm_perms::owner::has_processor;
use pm_perms::{Act, masters_of, some_may};
use pm_topology::{LineDef, PowerDef, Topology};

/// The six reasons for which a master leads to another, in their order.
const REASONS: [Why; 6] = [
    Why::Suspend,
    Why::Wake,
    Why::Force,
    Why::Reset,
    Why::Shutdown,
    Why::Config,
];

/// How many masters the objects have.
pub fn master_count(objects: &[Object]) -> usize
    ensures { result ≡ length (perms.masters_of objects.now) }
{
    masters_of(objects).len()
}

/// The number of the master at a place, and 0 if there is none.
pub fn node_at(objects: &[Object], place: usize) -> NodeId
    ensures { result ≡ spec.node_at objects.now place }
{
    match masters_of(objects).get(place) {
        Some(master) => NodeId(master.node),
        None => NodeId(0),
    }
}

/// Whether the master at a place has a processor in the chip's table. More than one may have it.
pub fn has_processor_at(objects: &[Object], t: &Topology, place: usize, proc: NodeId) -> bool
    ensures { result ≡ spec.has_processor_at objects.now t.now place proc }
{
    match masters_of(objects).get(place) {
        Some(master) => has_processor(t, master.node, proc),
        None => false,
    }
}

/// Whether the power node at place `w` is above a node, and a master may force it.
fn forces_at(
    objects: &[Object],
    t: &Topology,
    master: NodeId,
    node: NodeId,
    w: usize,
    power: &PowerDef,
) -> bool
    requires { w < length t.now.powers }
    ensures { result ≡ spec.forces_at objects.now t.now master node w power.now }
{
    t.below(w, node) && some_may(objects, t, master, Act::Force(power.node))
}

/// Whether a master may force a power node above a node, at any height.
pub fn forces_above(objects: &[Object], t: &Topology, master: NodeId, node: NodeId) -> bool
    ensures { result ≡ spec.forces_above objects.now t.now master node }
{
    for (w, power) in t.powers.as_slice().iter().enumerate() {
        if forces_at(objects, t, master, node, w, power) {
            return true;
        }
    }
    false
}

/// Whether a master may force a processor, or a power node above it.
fn forces_proc(objects: &[Object], t: &Topology, master: NodeId, proc: NodeId) -> bool
    ensures { result ≡ spec.forces_proc objects.now t.now master proc }
{
    some_may(objects, t, master, Act::Force(proc)) || forces_above(objects, t, master, proc)
}

/// Whether a master may force a processor of the one at place `b`, or a power node above one.
fn forces_a_proc(objects: &[Object], t: &Topology, master: NodeId, b: usize) -> bool
    ensures { result ≡ spec.forces_a_proc objects.now t.now master b }
{
    t.procs.as_slice().iter().any(|proc| has_processor_at(objects, t, b, proc.node)
        && forces_proc(objects, t, master, proc.node))
}

/// Whether a master may force a power node above a slave that another may use.
fn forces_a_slave(objects: &[Object], t: &Topology, master: NodeId, user: NodeId) -> bool
    ensures { result ≡ spec.forces_a_slave objects.now t.now master user }
{
    t.slaves.as_slice().iter().any(|slave| some_may(objects, t, user, Act::Use(slave.node))
        && forces_above(objects, t, master, slave.node))
}

/// Whether a master may reset a line whose target is a processor of the one at place `b`.
fn resets_a_proc(objects: &[Object], t: &Topology, master: NodeId, b: usize) -> bool
    ensures { result ≡ spec.resets_a_proc objects.now t.now master b }
{
    t.lines.as_slice().iter().any(|line| {
        targets(objects, t, line, b) && some_may(objects, t, master, Act::Reset(line.line))
    })
}

/// Whether the target of a line is a processor of the master at a place.
fn targets(objects: &[Object], t: &Topology, line: &LineDef, b: usize) -> bool
    ensures { result ≡ spec.targets objects.now t.now line.now b }
{
    match line.target {
        Some(target) => has_processor_at(objects, t, b, target),
        None => false,
    }
}

/// Whether the master at place `a` leads to the one at `b` for a reason.
fn leads_for(objects: &[Object], t: &Topology, a: usize, b: usize, why: Why) -> bool
    ensures { result ≡ spec.leads_for objects.now t.now a b why }
{
    let from = node_at(objects, a);
    let to = node_at(objects, b);
    match why {
        Why::Suspend => some_may(objects, t, from, Act::Suspend(to)),
        Why::Wake => some_may(objects, t, from, Act::Wake(to)),
        Why::Force => forces_a_proc(objects, t, from, b) || forces_a_slave(objects, t, from, to),
        Why::Reset => resets_a_proc(objects, t, from, b),
        Why::Shutdown => some_may(objects, t, from, Act::Shut(1))
            || some_may(objects, t, from, Act::Shut(2)),
        Why::Config => some_may(objects, t, from, Act::Configure),
        Why::Myself | Why::Uses | Why::Above => false,
    }
}

/// The first reason for which the master at place `a` leads to the one at `b`: `None` if it doesn't.
pub fn lead(objects: &[Object], t: &Topology, a: usize, b: usize) -> Option<Why>
    ensures { result ≡ spec.lead objects.now t.now a b }
{
    REASONS
        .iter()
        .copied()
        .find(|why| leads_for(objects, t, a, b, *why))
}
