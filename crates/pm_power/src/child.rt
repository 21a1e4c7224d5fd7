//! The processors and slaves below the power nodes, and whether they need them.

ghost use Rattle.std.specs.Prelude.{◌≡◌, ◌<◌, ◌++◌, ◌∷◌, [], ◌==◌, IfOk, Some, false, length, map, find, slice_get};
ghost use Rattle.std.specs.Option.{option_map};
ghost use Rattle.pm_power.specs.Needs.{child, child_need, children_of};

use pm_base::{NoMemory, NodeId};
use pm_topology::{ProcDef, SlaveDef, Topology};
use std::alloc::Global;

/// A processor or slave: its number, the place of its power node, and whether it needs it.
#[derive(Clone, Copy, Debug, PartialEq, Eq)]
pub struct Child {
    pub node: NodeId,
    pub parent: usize,
    pub needs: bool,
}

/// The slaves and then the processors of a chip, none of which needs its power node.
pub(crate) fn idle_children(alloc: Global, t: &Topology) -> Result<Vec<Child>, NoMemory>
    ensures { IfOk result (λ children. children.items ≡ children_of t.now (λ _. false)) }
{
    let mut children = Vec::new(alloc);
    push_slaves(&mut children, t.slaves.as_slice())?;
    push_procs(&mut children, t.procs.as_slice())?;
    Ok(children)
}

/// Puts the slaves at the end, as units below their power nodes that need no power.
fn push_slaves(children: &mut Vec<Child>, slaves: &[SlaveDef]) -> Result<(), NoMemory>
    ensures { IfOk result
        (λ _. children.new.items ≡ children.old.items ++ map (λ s. child s.node s.parent false) slaves.now) }
{
    for slave in slaves {
        push(children, idle(slave.node, slave.parent))?;
    }
    Ok(())
}

/// Puts the processors at the end, as units below their power nodes that need no power.
fn push_procs(children: &mut Vec<Child>, procs: &[ProcDef]) -> Result<(), NoMemory>
    ensures { IfOk result
        (λ _. children.new.items ≡ children.old.items ++ map (λ p. child p.node p.parent false) procs.now) }
{
    for proc in procs {
        push(children, idle(proc.node, proc.parent))?;
    }
    Ok(())
}

/// A child that doesn't need its power node.
fn idle(node: NodeId, parent: usize) -> Child
    ensures { result ≡ child node parent false }
{
    Child {
        node,
        parent,
        needs: false,
    }
}

/// Puts a unit at the end.
fn push(children: &mut Vec<Child>, child: Child) -> Result<(), NoMemory>
    ensures { IfOk result (λ _. children.new.items ≡ children.old.items ++ child ∷ []) }
{
    children.push(child).map_err(|_| NoMemory)
}

/// The child at a place.
pub(crate) fn child_at(children: &[Child], k: usize) -> Child
    requires { k < length children.now }
    ensures { slice_get children.now k ≡ Some result }
{
    children[k]
}

/// Whether the child with this number needs its power node.
pub(crate) fn child_need(children: &[Child], node: NodeId) -> Option<bool>
    ensures { result ≡ child_need children.now node }
{
    children
        .iter()
        .find(|child| child.node == node)
        .map(|child| child.needs)
}
