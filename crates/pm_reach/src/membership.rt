//! The reach of a master.

ghost use Rattle.std.specs.Prelude.{◌≡◌, ◌∷◌, [], ◌++◌, ◌==◌, position, IfOk, OnOk, IsTrue};
ghost use Rattle.std.specs.List.{list_any};
ghost use Rattle.pm_base.specs.Names.{unit_number};
ghost use Rattle.pm_perms.specs.Several.{masters_of};
ghost use Rattle.pm_reach.specs.Membership as spec;

use crate::brings::brings;
use crate::leads::{master_count, node_at};
use crate::members::{Member, MemberKind, Reach, Why};
use crate::routes::{Route, least_routes};
use pm_base::{List, NoMemory, NodeId, Unit};
use pm_object::Object;
use pm_perms::masters_of;
use pm_topology::{Topology, units_of};
use std::alloc::Global;
use std::slice;

/// What the master `m` of these objects can reach, where each permission is given by at least one of them: so one
/// may permit a step of which another permits the rest. Its members are the masters to which a path leads from it,
/// each with the least path, and the slaves, power nodes and reset lines that these bring in, each with the
/// path of the first of them that does. That `m` is a master of the objects is tested by `has_key`.
///
/// # Errors
///
/// `NoMemory` if there is not enough memory.
pub fn reach(alloc: Global, objects: &[Object], t: &Topology, m: NodeId) -> Result<Reach, NoMemory>
    requires { IsTrue (list_any (λ r. r.node == m.0) (masters_of objects.now)) }
    ensures { IfOk result (λ found. spec.IsReach objects.now t.now m found.members) }
{
    match place_of(objects, m) {
        Some(from) => {
            let routes = least_routes(alloc, objects, t, from)?;
            let members = members_of(alloc, objects, t, routes.as_slice())?;
            Ok(Reach { members })
        }
        None => Ok(Reach {
            members: List::new(alloc),
        }),
    }
}

/// What the master `m` of an object can reach, where that object alone permits.
///
/// # Errors
///
/// `NoMemory` if there is not enough memory.
pub fn reach_by_one(
    alloc: Global,
    object: &Object,
    t: &Topology,
    m: NodeId,
) -> Result<Reach, NoMemory>
    requires { IsTrue (list_any (λ r. r.node == m.0) object.now.masters) }
    ensures { IfOk result (λ found. spec.IsReach (object.now ∷ []) t.now m found.members) }
{
    reach(alloc, slice::from_ref(object), t, m)
}

/// What these paths bring into a reach.
fn members_of(
    alloc: Global,
    objects: &[Object],
    t: &Topology,
    routes: &[Route],
) -> Result<List<Member>, NoMemory>
    ensures { IfOk result (λ members. members ≡ spec.members_of objects.now t.now routes.now) }
{
    let units = units_of(alloc, t)?;
    let mut members = List::new(alloc);
    push_masters(alloc, objects, routes, &mut members)?;
    push_parts(alloc, objects, t, units.as_slice(), routes, &mut members)?;
    Ok(members)
}

/// Puts the slaves, then the power nodes, and then the reset lines that paths bring in after the members.
fn push_parts(
    alloc: Global,
    objects: &[Object],
    t: &Topology,
    units: &[Unit],
    routes: &[Route],
    members: &mut List<Member>,
) -> Result<(), NoMemory>
    ensures { OnOk result (members.new ≡ members.old ++ spec.part_members objects.now t.now routes.now units.now) }
{
    push_units(alloc, objects, t, MemberKind::Slave, units, routes, members)?;
    push_units(alloc, objects, t, MemberKind::Power, units, routes, members)?;
    push_units(alloc, objects, t, MemberKind::Line, units, routes, members)
}

/// The place of a master among those of the objects.
fn place_of(objects: &[Object], m: NodeId) -> Option<usize>
    ensures { result ≡ position (λ r. r.node == m.0) (masters_of objects.now) }
{
    masters_of(objects)
        .iter()
        .position(|master| master.node == m.0)
}

/// The numbers of the masters of a path.
fn nodes_of(alloc: Global, objects: &[Object], path: &[usize]) -> Result<List<NodeId>, NoMemory>
    ensures { IfOk result (λ nodes. nodes ≡ spec.nodes_of objects.now path.now) }
{
    let mut nodes = List::new(alloc);
    for place in path {
        nodes.push(node_at(objects, *place))?;
    }
    Ok(nodes)
}

/// A member, with the path that leads to it.
fn member_by(
    alloc: Global,
    objects: &[Object],
    kind: MemberKind,
    number: u32,
    why: Why,
    route: &Route,
) -> Result<Member, NoMemory>
    ensures { IfOk result (λ member. member ≡ spec.member_by objects.now kind number why route.now) }
{
    Ok(Member {
        kind,
        number,
        why,
        path: nodes_of(alloc, objects, route.path.as_slice())?,
    })
}

/// The member for the master at a place, if a path leads to it.
fn master_member(
    alloc: Global,
    objects: &[Object],
    routes: &[Route],
    place: usize,
) -> Result<Option<Member>, NoMemory>
    ensures { IfOk result (λ member. member ≡ spec.master_member objects.now routes.now place) }
{
    for route in routes {
        if route.end == place {
            let number = node_at(objects, place).0;
            return Ok(Some(member_by(
                alloc,
                objects,
                MemberKind::Master,
                number,
                route.why,
                route,
            )?));
        }
    }
    Ok(None)
}

/// Puts in the masters.
fn push_masters(
    alloc: Global,
    objects: &[Object],
    routes: &[Route],
    members: &mut List<Member>,
) -> Result<(), NoMemory>
    ensures { OnOk result (members.new ≡ members.old ++ spec.master_members objects.now routes.now) }
{
    for place in 0..master_count(objects) {
        if let Some(member) = master_member(alloc, objects, routes, place)? {
            members.push(member)?;
        }
    }
    Ok(())
}

/// The number of a node or a reset line.
fn unit_number(unit: Unit) -> u32
    ensures { result ≡ unit_number unit }
{
    match unit {
        Unit::Node(node) => node.0,
        Unit::Line(line) => line.0,
    }
}

/// The member for a unit, if a master of the reach brings it in.
fn unit_member(
    alloc: Global,
    objects: &[Object],
    t: &Topology,
    kind: MemberKind,
    unit: Unit,
    routes: &[Route],
) -> Result<Option<Member>, NoMemory>
    ensures { IfOk result (λ member. member ≡ spec.unit_member objects.now t.now kind unit routes.now) }
{
    for route in routes {
        if let Some(why) = brings(objects, t, kind, unit, route.end) {
            return Ok(Some(member_by(alloc, objects, kind, unit_number(unit), why, route)?));
        }
    }
    Ok(None)
}

/// Puts in the members of a kind.
fn push_units(
    alloc: Global,
    objects: &[Object],
    t: &Topology,
    kind: MemberKind,
    units: &[Unit],
    routes: &[Route],
    members: &mut List<Member>,
) -> Result<(), NoMemory>
    ensures { OnOk result (members.new ≡ members.old ++ spec.unit_members objects.now t.now kind routes.now units.now) }
{
    for unit in units {
        if let Some(member) = unit_member(alloc, objects, t, kind, *unit, routes)? {
            members.push(member)?;
        }
    }
    Ok(())
}
