//! The border of a master's reach, by the paths that lead from the master.

ghost use Rattle.std.specs.Prelude.{◌≡◌, ◌<◌, ◌==◌, ℕ, Bool, IfOk, IfSome, List, Option, is_some, length};
ghost use Rattle.std.specs.List.{list_any};
ghost use Rattle.pm_object.specs.declared.object.Object.{Object};
ghost use Rattle.pm_topology.specs.declared.topology.Topology.{Topology};
ghost use Rattle.pm_topology.specs.Places.{line_place};
ghost use Rattle.pm_perms.specs.Several.{masters_of};
ghost use Rattle.pm_reach.specs.Brings.{brings};
ghost use Rattle.pm_laws.specs.Answers.{named_beyond, names_beyond};
ghost use Rattle.pm_laws.specs.Border.{line_beyond, none_within, unit_beyond};
ghost use Rattle.pm_laws.specs.ReachBorder.{brings_in, configured_place, master_beyond, reaches, unit_border};
ghost use Rattle.pm_state.specs.Members.{owner_at};
ghost use Rattle.pm_beyond.specs.Found.{ArePaths, number_by};

use pm_base::{LineId, List, NoMemory, NodeId, Unit};
use pm_ipi::{Call, Named};
use pm_object::Object;
use pm_perms::owner_of;
use pm_reach::brings::brings;
use pm_reach::leads::master_count;
use pm_reach::routes::{Route, least_routes};
use pm_reach::{MemberKind, reach_is_decided};
use pm_topology::{Kind, Topology};
use std::alloc::Global;

/// The place of a configured master; None for another number.
pub(crate) fn configured_place(object: &Object, m: NodeId) -> Option<usize>
    ensures { result ≡ configured_place object.now m }
{
    object
        .masters
        .as_slice()
        .iter()
        .position(|master| master.node == m.0)
}

/// The paths from the master at a place, over the permissions of at least one of the objects. Without a place there
/// are none.
///
/// # Errors
///
/// `NoMemory` if there is not enough memory.
pub(crate) fn paths_from(
    alloc: Global,
    objects: &[Object],
    t: &Topology,
    from: Option<usize>,
) -> Result<List<Route>, NoMemory>
    requires { IfSome from (λ k. k < length (masters_of objects.now)) }
    ensures { IfOk result (ArePaths objects.now t.now from) }
{
    match from {
        Some(from) => least_routes(alloc, objects, t, from),
        None => Ok(List::new(alloc)),
    }
}

/// Whether one of the paths ends at the master at this place.
fn end_at(routes: &[Route], place: usize) -> bool
    ensures { result ≡ list_any (λ route. route.end == place) routes.now }
{
    routes.iter().any(|route| route.end == place)
}

/// Whether a path leads to the master at a place. The paths have to be those that `paths_from` finds.
fn reaches(routes: &[Route], place: usize) -> bool
    ensures { (objects : List Object) (t : Topology) (from : Option ℕ) → ArePaths objects t from routes.now
        → result ≡ reaches objects t from place }
{
    reach_is_decided();
    end_at(routes, place)
}

/// Whether a master at the end of one of the paths brings in a unit as a member of this kind.
fn bring_in(
    objects: &[Object],
    t: &Topology,
    routes: &[Route],
    kind: MemberKind,
    unit: Unit,
) -> bool
    ensures { result ≡ list_any (λ route. is_some (brings objects.now t.now kind unit route.end)) routes.now }
{
    routes.iter().any(|route| brings(objects, t, kind, unit, route.end).is_some())
}

/// Whether a unit is within as a member of this kind. The paths have to be those that `paths_from` finds.
fn brings_in(
    objects: &[Object],
    t: &Topology,
    routes: &[Route],
    kind: MemberKind,
    unit: Unit,
) -> bool
    ensures { (from : Option ℕ) → ArePaths objects.now t.now from routes.now
        → result ≡ brings_in objects.now t.now from kind unit }
{
    reach_is_decided();
    bring_in(objects, t, routes, kind, unit)
}

/// Whether the master at a place is beyond: no path ends there.
fn master_beyond(objects: &[Object], routes: &[Route], place: usize) -> bool
    ensures { (t : Topology) (from : Option ℕ) → ArePaths objects.now t from routes.now
        → result ≡ master_beyond objects.now t from place }
{
    place < master_count(objects) && !reaches(routes, place)
}

/// Whether the master at a place is beyond, or there is none.
pub(crate) fn none_within(objects: &[Object], routes: &[Route], place: Option<usize>) -> bool
    ensures { (t : Topology) (from : Option ℕ) (nodes : ℕ → Bool) → ArePaths objects.now t from routes.now
        → result ≡ none_within (unit_border objects.now t from nodes) place }
{
    match place {
        Some(m) => master_beyond(objects, routes, m),
        None => true,
    }
}

/// The place of the configured master that has the processor at a place.
fn owner_at(object: &Object, t: &Topology, p: usize) -> Option<usize>
    ensures { result ≡ owner_at object.now t.now p }
{
    match t.procs.as_slice().get(p) {
        Some(proc) => owner_of(object, t, proc.node),
        None => None,
    }
}

/// Whether the unit of this kind and place is beyond, or there is none. A processor is beyond if its owner is; the
/// loaded object says who that is.
fn unit_beyond(
    loaded: &Object,
    objects: &[Object],
    t: &Topology,
    routes: &[Route],
    kind: Kind,
) -> bool
    ensures { (from : Option ℕ) (nodes : ℕ → Bool) → ArePaths objects.now t.now from routes.now
        → result ≡ unit_beyond loaded.now t.now (unit_border objects.now t.now from nodes) kind }
{
    match kind {
        Kind::Proc(p) => none_within(objects, routes, owner_at(loaded, t, p)),
        Kind::Slave(s) => slave_beyond(objects, t, routes, s),
        Kind::Power(w) => power_beyond(objects, t, routes, w),
        Kind::Unknown => true,
    }
}

/// Whether the slave at a place is beyond, or there is none.
fn slave_beyond(objects: &[Object], t: &Topology, routes: &[Route], s: usize) -> bool
    ensures { (from : Option ℕ) (nodes : ℕ → Bool) → ArePaths objects.now t.now from routes.now
        → result ≡ (unit_border objects.now t.now from nodes).slave s }
{
    match t.slaves.as_slice().get(s) {
        Some(slave) => !brings_in(
            objects,
            t,
            routes,
            MemberKind::Slave,
            Unit::Node(slave.node),
        ),
        None => true,
    }
}

/// Whether the power node at a place is beyond, or there is none.
fn power_beyond(objects: &[Object], t: &Topology, routes: &[Route], w: usize) -> bool
    ensures { (from : Option ℕ) (nodes : ℕ → Bool) → ArePaths objects.now t.now from routes.now
        → result ≡ (unit_border objects.now t.now from nodes).power w }
{
    match t.powers.as_slice().get(w) {
        Some(power) => !brings_in(
            objects,
            t,
            routes,
            MemberKind::Power,
            Unit::Node(power.node),
        ),
        None => true,
    }
}

/// Whether the number of a node is beyond: its unit is, and so is the configured master of this number, if there is
/// one.
fn node_beyond(
    loaded: &Object,
    objects: &[Object],
    t: &Topology,
    routes: &[Route],
    node: NodeId,
) -> bool
    ensures { (from : Option ℕ) → ArePaths objects.now t.now from routes.now
        → result ≡ number_by loaded.now objects.now t.now from node.0 }
{
    unit_beyond(loaded, objects, t, routes, t.kind(node))
        && none_within(objects, routes, configured_place(loaded, node))
}

/// Whether a reset line is beyond, or the chip has none of this number.
fn line_beyond(objects: &[Object], t: &Topology, routes: &[Route], line: LineId) -> bool
    ensures { (from : Option ℕ) (nodes : ℕ → Bool) → ArePaths objects.now t.now from routes.now
        → result ≡ line_beyond (unit_border objects.now t.now from nodes) (line_place t.now.lines line.0) }
{
    match line_place(t, line) {
        Some(l) => reset_beyond(objects, t, routes, l),
        None => true,
    }
}

/// The place of a reset line; None if the chip doesn't have it.
fn line_place(t: &Topology, line: LineId) -> Option<usize>
    ensures { result ≡ line_place t.now.lines line.0 }
{
    t.lines
        .as_slice()
        .iter()
        .position(|other| other.line.0 == line.0)
}

/// Whether the reset line at a place is beyond, or there is none.
fn reset_beyond(objects: &[Object], t: &Topology, routes: &[Route], l: usize) -> bool
    ensures { (from : Option ℕ) (nodes : ℕ → Bool) → ArePaths objects.now t.now from routes.now
        → result ≡ (unit_border objects.now t.now from nodes).line l }
{
    match t.lines.as_slice().get(l) {
        Some(line) => !brings_in(objects, t, routes, MemberKind::Line, Unit::Line(line.line)),
        None => true,
    }
}

/// Whether a node that a call names, or the reset line whose value it asks for, is beyond.
fn named_beyond(
    loaded: &Object,
    objects: &[Object],
    t: &Topology,
    routes: &[Route],
    unit: Unit,
) -> bool
    ensures { (from : Option ℕ) → ArePaths objects.now t.now from routes.now
        → result ≡ named_beyond t.now
        (unit_border objects.now t.now from (number_by loaded.now objects.now t.now from)) unit }
{
    match unit {
        Unit::Node(node) => node_beyond(loaded, objects, t, routes, node),
        Unit::Line(line) => line_beyond(objects, t, routes, line),
    }
}

/// Whether all that a call names is beyond: its nodes, and the reset line whose value it asks for.
pub(crate) fn names_beyond(
    loaded: &Object,
    objects: &[Object],
    t: &Topology,
    routes: &[Route],
    call: Call,
) -> bool
    ensures { (from : Option ℕ) → ArePaths objects.now t.now from routes.now
        → result ≡ names_beyond t.now
        (unit_border objects.now t.now from (number_by loaded.now objects.now t.now from)) call }
{
    match call.names() {
        Named::Nothing => true,
        Named::One(unit) => named_beyond(loaded, objects, t, routes, unit),
        Named::Two(first, second) => {
            named_beyond(loaded, objects, t, routes, first)
                && named_beyond(loaded, objects, t, routes, second)
        }
    }
}
