//! What a master brings into a reach.

ghost use Rattle.std.specs.Prelude.{◌≡◌, ◌<◌, length};
ghost use Rattle.pm_base.specs.declared.names.Unit.TheVariants.{Node};
ghost use Rattle.pm_topology.specs.declared.places.Kind.TheVariants.{Power};
ghost use Rattle.pm_reach.specs.Brings as spec;

use crate::leads::{forces_above, has_processor_at, node_at};
use crate::members::{MemberKind, Why};
use pm_base::{NodeId, Unit};
use pm_object::Object;
use pm_perms::{Act, some_may};
use pm_topology::{Kind, LineDef, Topology};

/// The three reasons for which a master brings in a slave, in their order.
const REASONS: [Why; 3] = [Why::Uses, Why::Force, Why::Reset];

/// Whether the target of a line is this slave.
fn is_line_of(slave: NodeId, line: &LineDef) -> bool
    ensures { result ≡ spec.is_line_of slave line.now }
{
    match line.target {
        Some(target) => target.0 == slave.0,
        None => false,
    }
}

/// Whether a master may reset a line whose target is this slave.
fn resets_slave(objects: &[Object], t: &Topology, master: NodeId, slave: NodeId) -> bool
    ensures { result ≡ spec.resets_slave objects.now t.now master slave }
{
    t.lines.as_slice().iter().any(|line| is_line_of(slave, line)
        && some_may(objects, t, master, Act::Reset(line.line)))
}

/// Whether the master at place `a` brings in a slave for a reason.
fn brings_slave_for(objects: &[Object], t: &Topology, a: usize, slave: NodeId, why: Why) -> bool
    ensures { result ≡ spec.brings_slave_for objects.now t.now a slave why }
{
    let master = node_at(objects, a);
    match why {
        Why::Uses => some_may(objects, t, master, Act::Use(slave)),
        Why::Force => forces_above(objects, t, master, slave),
        Why::Reset => resets_slave(objects, t, master, slave),
        _ => false,
    }
}

/// The first reason for which the master at place `a` brings in a slave: `None` if it doesn't.
fn brings_slave(objects: &[Object], t: &Topology, a: usize, slave: NodeId) -> Option<Why>
    ensures { result ≡ spec.brings_slave objects.now t.now a slave }
{
    REASONS
        .iter()
        .copied()
        .find(|why| brings_slave_for(objects, t, a, slave, *why))
}

/// Whether the power node at place `w` is above a processor of the master at place `a`.
fn is_above_proc(objects: &[Object], t: &Topology, a: usize, w: usize) -> bool
    requires { w < length t.now.powers }
    ensures { result ≡ spec.is_above_proc objects.now t.now a w }
{
    t.procs.as_slice().iter().any(|proc| has_processor_at(objects, t, a, proc.node)
        && t.below(w, proc.node))
}

/// Whether the power node at place `w` is above a slave that the master at place `a` brings in.
fn is_above_slave(objects: &[Object], t: &Topology, a: usize, w: usize) -> bool
    requires { w < length t.now.powers }
    ensures { result ≡ spec.is_above_slave objects.now t.now a w }
{
    t.slaves.as_slice().iter().any(|slave| brings_slave(objects, t, a, slave.node).is_some()
        && t.below(w, slave.node))
}

/// Why the master at place `a` brings in a node as a member of a kind.
fn brings_node(
    objects: &[Object],
    t: &Topology,
    kind: MemberKind,
    node: NodeId,
    a: usize,
) -> Option<Why>
    ensures { result ≡ spec.brings objects.now t.now kind (Node node) a }
{
    match (kind, t.kind(node)) {
        (MemberKind::Slave, Kind::Slave(_)) => brings_slave(objects, t, a, node),
        (MemberKind::Power, Kind::Power(w)) => brings_power(objects, t, a, w),
        _ => None,
    }
}

/// Why the master at place `a` brings in the power node at place `w`.
fn brings_power(objects: &[Object], t: &Topology, a: usize, w: usize) -> Option<Why>
    requires { w < length t.now.powers }
    ensures { result ≡ spec.brings_as_power objects.now t.now a (Power w) }
{
    if is_above_proc(objects, t, a, w) || is_above_slave(objects, t, a, w) {
        Some(Why::Above)
    } else {
        None
    }
}

/// Why the master at place `a` brings in a unit as a member of a kind: `None` if it doesn't, or where
/// the unit is of another kind.
pub fn brings(
    objects: &[Object],
    t: &Topology,
    kind: MemberKind,
    unit: Unit,
    a: usize,
) -> Option<Why>
    ensures { result ≡ spec.brings objects.now t.now kind unit a }
{
    match (kind, unit) {
        (_, Unit::Node(node)) => brings_node(objects, t, kind, node, a),
        (MemberKind::Line, Unit::Line(line)) => {
            if some_may(objects, t, node_at(objects, a), Act::Reset(line)) {
                Some(Why::Reset)
            } else {
                None
            }
        }
        _ => None,
    }
}
