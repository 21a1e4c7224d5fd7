//! What is below each power node of a chip, found once.

ghost use Rattle.std.specs.Prelude.{◌≡◌, ◌<◌, ◌↔◌, ◌++◌, ◌∷◌, [], if◌then◌else◌, IfOk, IsTrue, OnOk, Some, length, slice_get};
ghost use Rattle.pm_topology.specs.Places.{IsAtOrAbove, is_below};
ghost use Rattle.pm_topology.specs.WellFormed.{IsWellFormed};
ghost use Rattle.pm_topology.specs.declared.topology.ProcDef.{ProcDef};
ghost use Rattle.pm_topology.specs.declared.topology.SlaveDef.{SlaveDef};
ghost use Rattle.pm_state.specs.Below as spec;

use pm_base::{List, NoMemory};
use pm_topology::{Topology, kinds_are_exact};
use std::alloc::Global;

/// The places of the slaves and of the processors below a power node, at any depth, each list in order.
#[derive(Debug, Drop)]
pub struct Below {
    pub(crate) slaves: List<usize>,
    pub(crate) procs: List<usize>,
}

/// For each power node, by its place, what is below it.
pub(crate) fn all_below(alloc: Global, t: &Topology) -> Result<List<Below>, NoMemory>
    requires { IsWellFormed t.now }
    ensures { IfOk result (λ all. spec.AreBelow t.now all) }
{
    let mut all = List::new(alloc);
    for w in 0..t.powers.len() {
        all.push(below_of(alloc, t, w)?)?;
    }
    Ok(all)
}

/// What is below the power node at place `w`.
fn below_of(alloc: Global, t: &Topology, w: usize) -> Result<Below, NoMemory>
    requires well_formed { IsWellFormed t.now }
    requires place { w < length t.now.powers }
    ensures { IfOk result (λ below. below ≡ spec.below_of t.now w) }
{
    Ok(Below {
        slaves: slaves_below(alloc, t, w)?,
        procs: procs_below(alloc, t, w)?,
    })
}

/// The places of the slaves below the power node at place `w`.
fn slaves_below(alloc: Global, t: &Topology, w: usize) -> Result<List<usize>, NoMemory>
    requires well_formed { IsWellFormed t.now }
    requires place { w < length t.now.powers }
    ensures { IfOk result (λ places. places ≡ spec.slaves_below t.now w) }
{
    let mut places = List::new(alloc);
    for s in 0..t.slaves.len() {
        push_if(&mut places, is_slave_below(t, w, s), s)?;
    }
    Ok(places)
}

/// The places of the processors below the power node at place `w`.
fn procs_below(alloc: Global, t: &Topology, w: usize) -> Result<List<usize>, NoMemory>
    requires well_formed { IsWellFormed t.now }
    requires place { w < length t.now.powers }
    ensures { IfOk result (λ places. places ≡ spec.procs_below t.now w) }
{
    let mut places = List::new(alloc);
    for p in 0..t.procs.len() {
        push_if(&mut places, is_proc_below(t, w, p), p)?;
    }
    Ok(places)
}

/// Puts a place at the end, if it passes.
fn push_if(places: &mut List<usize>, passes: bool, place: usize) -> Result<(), NoMemory>
    ensures { OnOk result (places.new ≡ places.old ++ (if passes then place ∷ [] else [])) }
{
    if passes {
        places.push(place)?;
    }
    Ok(())
}

/// Whether the slave at place `s` is below the power node at place `w`.
fn is_slave_below(t: &Topology, w: usize, s: usize) -> bool
    requires well_formed { IsWellFormed t.now }
    requires power { w < length t.now.powers }
    requires place { s < length t.now.slaves }
    ensures { (slave : SlaveDef) → slice_get t.now.slaves s ≡ Some slave → result ≡ is_below t.now w slave.node }
{
    kinds_are_exact();
    is_at_or_below(t, w, t.slaves.get(s).parent)
}

/// Whether the processor at place `p` is below the power node at place `w`.
fn is_proc_below(t: &Topology, w: usize, p: usize) -> bool
    requires well_formed { IsWellFormed t.now }
    requires power { w < length t.now.powers }
    requires place { p < length t.now.procs }
    ensures { (proc : ProcDef) → slice_get t.now.procs p ≡ Some proc → result ≡ is_below t.now w proc.node }
{
    kinds_are_exact();
    is_at_or_below(t, w, t.procs.get(p).parent)
}

/// Whether the power node at place `v` is the one at place `w` or is below it.
fn is_at_or_below(t: &Topology, w: usize, v: usize) -> bool
    requires well_formed { IsWellFormed t.now }
    requires power { w < length t.now.powers }
    requires place { v < length t.now.powers }
    ensures { IsTrue result ↔ IsAtOrAbove t.now.powers w v }
{
    kinds_are_exact();
    v == w || t.below(w, t.powers.get(v).node)
}
