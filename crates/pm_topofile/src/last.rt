//! The last slave and the last master of a topology while its text is read: further lines add to them.

ghost use Rattle.std.specs.Prelude.{◌≡◌, ◌++◌, ◌∷◌, [], map, OnOk, IfOk, List as Sequence};
ghost use Rattle.pm_base.specs.declared.names.NodeId.{NodeId};
ghost use Rattle.pm_topofile.specs.Taking.{with_state, with_members};

use pm_base::{List, NoMemory, NodeId};
use pm_topology::{MasterDef, SlaveDef, SlaveState};
use std::alloc::Global;

/// Puts a state at the end of the last slave's.
pub fn add_state(slaves: &mut Vec<SlaveDef>, state: SlaveState) -> Result<(), NoMemory>
    ensures { OnOk result (slaves.new.items ≡ with_state state slaves.old.items) }
{
    if let Some(mut slave) = slaves.pop() {
        slave.states.push(state)?;
        slaves.push(slave).map_err(|_| NoMemory)?;
    }
    Ok(())
}

/// Puts processors at the end of the last master's, or a new master with them at the end, where the last one has
/// another number.
pub fn add_members(
    alloc: Global,
    masters: &mut Vec<MasterDef>,
    node: NodeId,
    procs: &[u32],
) -> Result<(), NoMemory>
    ensures { OnOk result (masters.new.items
        ≡ with_members node (map (λ n. record { 0 = n }) procs.now) masters.old.items) }
{
    let mut last = take_last(alloc, masters, node)?;
    append(&mut last.procs, procs)?;
    masters.push(last).map_err(|_| NoMemory)
}

/// Takes the last master off its list, where it has this number; else it makes a new one.
fn take_last(
    alloc: Global,
    masters: &mut Vec<MasterDef>,
    node: NodeId,
) -> Result<MasterDef, NoMemory>
    ensures { IfOk result (λ m. (procs : Sequence NodeId) → with_members node procs masters.old.items
        ≡ masters.new.items ++ record m { procs = m.procs ++ procs } ∷ []) }
{
    let Some(master) = masters.pop() else {
        return Ok(new_master(alloc, node));
    };
    if master.node == node {
        return Ok(master);
    }
    masters.push(master).map_err(|_| NoMemory)?;
    Ok(new_master(alloc, node))
}

/// A master without processors.
fn new_master(alloc: Global, node: NodeId) -> MasterDef
    ensures { result ≡ record { node = node; procs = [] } }
{
    MasterDef {
        node,
        procs: List::new(alloc),
    }
}

/// Puts the nodes of these numbers at the end.
fn append(list: &mut List<NodeId>, numbers: &[u32]) -> Result<(), NoMemory>
    ensures { OnOk result (list.new ≡ list.old ++ map (λ n. record { 0 = n }) numbers.now) }
{
    for number in numbers {
        list.push(NodeId(*number))?;
    }
    Ok(())
}
