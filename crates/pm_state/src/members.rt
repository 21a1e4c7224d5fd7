//! The processors of the configured masters.

ghost use Rattle.std.specs.Prelude.{◌≡◌, ◌++◌, IfOk, OnOk, length, option_to_list, slice_get};
ghost use Rattle.pm_topology.specs.Masters.{procs_of};
ghost use Rattle.pm_topology.specs.Places.{proc_place};
ghost use Rattle.pm_state.specs.Members.{member_at, members_among, members_of, owner_at};

use pm_base::{List, NoMemory, NodeId};
use pm_object::Object;
use pm_perms::owner_of;
use pm_topology::{ProcDef, Topology};
use std::alloc::Global;

/// The processor at a place, if there is one.
fn proc_at(procs: &[ProcDef], p: usize) -> Option<ProcDef>
    ensures { result ≡ slice_get procs.now p }
{
    procs.get(p).copied()
}

/// The place of the configured master that has the processor at a place.
pub(crate) fn owner_at(object: &Object, t: &Topology, p: usize) -> Option<usize>
    ensures { result ≡ owner_at object.now t.now p }
{
    match proc_at(t.procs.as_slice(), p) {
        Some(proc) => owner_of(object, t, proc.node),
        None => None,
    }
}

/// The place of a processor, if the chip has it.
fn proc_place(procs: &[ProcDef], node: NodeId) -> Option<usize>
    ensures { result ≡ proc_place procs.now node.0 }
{
    procs.iter().position(|proc| proc.node.0 == node.0)
}

/// The place of a processor, where it is that of the master at place `m`.
fn member_of(object: &Object, t: &Topology, m: usize, node: NodeId) -> Option<usize>
    ensures { option_to_list result ≡ member_at object.now t.now m (proc_place t.now.procs node.0) }
{
    let p = proc_place(t.procs.as_slice(), node)?;
    if owner_at(object, t, p) == Some(m) {
        Some(p)
    } else {
        None
    }
}

/// The places of those of these processors that are the master's.
fn members_among(
    alloc: Global,
    object: &Object,
    t: &Topology,
    m: usize,
    nodes: &[NodeId],
) -> Result<List<usize>, NoMemory>
    ensures { IfOk result (λ members. members ≡ members_among object.now t.now m nodes.now) }
{
    let mut members = List::new(alloc);
    for node in nodes {
        push_if(&mut members, member_of(object, t, m, *node))?;
    }
    Ok(members)
}

/// Puts a place at the end, if there is one.
fn push_if(members: &mut List<usize>, place: Option<usize>) -> Result<(), NoMemory>
    ensures { OnOk result (members.new ≡ members.old ++ option_to_list place) }
{
    if let Some(p) = place {
        members.push(p)?;
    }
    Ok(())
}

/// The places of each master's processors, the first one first.
pub(crate) fn members_of(
    alloc: Global,
    object: &Object,
    t: &Topology,
) -> Result<List<List<usize>>, NoMemory>
    ensures members { IfOk result (λ members. members ≡ members_of object.now t.now) }
    ensures count { IfOk result (λ members. length members ≡ length object.now.masters) }
{
    let mut members = List::new(alloc);
    for (m, master) in object.masters.as_slice().iter().enumerate() {
        members.push(members_among(alloc, object, t, m, t.procs_of(NodeId(master.node)))?)?;
    }
    Ok(members)
}
