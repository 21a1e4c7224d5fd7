//! The power nodes of a chip, and which of them are up.

ghost use Rattle.std.specs.Prelude.{replicate, length, ◌≡◌, ◌+◌, ◌-◌, ◌<◌, ◌≤◌, ◌^◌, ◌⊎◌, ◌↔◌, ◌++◌, IfOk, IsTrue, None, false, map, true};
ghost use Rattle.pm_topology.specs.Places.{power_place};
ghost use Rattle.pm_topology.specs.WellFormed.{IsWellFormed};
ghost use Rattle.pm_power.specs.Forest.{AreAfterParents, ChildNeeds, IsHeld, PowerNeeds, is_up, ups};
ghost use Rattle.pm_power.specs.Needs.{does_need, needs_of, power_need, set_child, set_need, with_need_at, with_needs, with_needs_in};
ghost use Rattle.pm_power.specs.Uses.{AreSettledFrom, IsForest, levels_above, need_cost_at, needs_cost, needs_cost_in};

use crate::child::{self, Child, child_at};
use crate::climb::put_need;
use crate::settle::settle;
use pm_base::{List, NoMemory, NodeId, Steps, at_or};
use pm_cells::Counts;
use pm_topology::{PowerDef, Topology};
use std::alloc::Global;
use std::marker::{Brand, Model};
use std::sync::ledger::{Blank, Ledger};

/// The power nodes of a chip, by the needs of its processors and slaves, with a use count for each: how
/// many processors, slaves and power nodes directly below need it. Contracts see the needs that were set.
#[derive(Drop)]
pub struct Power {
    powers: List<PowerDef>,
    children: Vec<Child>,
    counts: Counts,
    ups: Vec<bool>,
}

impl Model for Power {
    ghost use Rattle.pm_power.specs.Forest.{Needs};
    ghost use Rattle.pm_power.specs.Uses.{IsForest};

    ghost Value = { Needs };

    ghost view = { λ power. record { powers = power.powers; children = power.children.items } };

    ghost invariant = { λ power. IsForest power.children.items power.powers power.counts power.ups.items };
}

impl Power {
    /// The forest of a chip. No processor or slave needs its power node, so exactly the held nodes
    /// and those above them are up.
    ///
    /// # Errors
    ///
    /// `NoMemory` if there is not enough memory.
    pub fn load(alloc: Global, t: &Topology) -> Result<Power, NoMemory>
        requires { IsWellFormed t.now }
        ensures { IfOk result (λ power. power ≡ needs_of t.now (λ _. false)) }
    {
        let children = child::idle_children(alloc, t)?;
        let powers = copied(alloc, t.powers.as_slice())?;
        let mut counts = Counts::load(alloc, powers.len())?;
        let mut ups = downs(alloc, powers.len())?;
        settle_uncounted::<Brand>(powers.as_slice(), &mut counts, &mut ups, Blank::new(1));
        Ok(Power {
            powers,
            children,
            counts,
            ups,
        })
    }

    /// Sets whether a processor or slave needs its power node. For another node nothing changes. At most
    /// one count changes for each power node above it.
    pub fn need<L: Ledger>(&mut self, child: NodeId, on: bool, steps: &mut Steps<L>)
        ensures needs { self.new ≡ set_need child on self.old }
        ensures cost { steps.new ≤ steps.old + levels_above self.old.powers child self.old.children }
    {
        set_needs(
            self.powers.as_slice(),
            &mut self.children,
            &mut self.counts,
            &mut self.ups,
            child,
            on,
            steps,
        );
    }

    /// Sets the needs of all slaves and of all processors, each in their order in the table. Those past
    /// the last need don't need their power node. For each need that isn't as before at most one count changes for each
    /// power node above it, and none for any other.
    pub fn recompute<L: Ledger>(&mut self, slaves: &[bool], procs: &[bool], steps: &mut Steps<L>)
        ensures needs { self.new
            ≡ record self.old { children = with_needs (slaves.now ++ procs.now) self.old.children } }
        ensures cost { steps.new
            ≤ steps.old + needs_cost self.old.powers (slaves.now ++ procs.now) self.old.children }
    {
        put_all_needs(
            self.powers.as_slice(),
            &mut self.children,
            &mut self.counts,
            &mut self.ups,
            slaves,
            procs,
            steps,
        );
    }

    /// Sets whether the processor or slave at a place needs its power node: the slaves come first, in the order of
    /// their table, and then the processors. Past the last one nothing changes. At most one count changes for each power
    /// node above it, and none if the need is as before.
    pub fn put<L: Ledger>(&mut self, place: usize, on: bool, steps: &mut Steps<L>)
        ensures needs { self.new ≡ record self.old { children = with_need_at place on self.old.children } }
        ensures cost { steps.new ≤ steps.old + need_cost_at self.old.powers place on self.old.children }
    {
        put_at(
            self.powers.as_slice(),
            &mut self.children,
            &mut self.counts,
            &mut self.ups,
            place,
            on,
            steps,
        );
    }

    /// Whether each power node is up, by its place.
    pub fn ups(&self) -> &[bool]
        ensures { result.now ≡ ups self.now }
    {
        &self.ups
    }

    /// Whether a node needs its power node: a processor or slave as it was set, a power node while
    /// it is up, and any other node never.
    pub fn needs(&self, child: NodeId) -> bool
        ensures { result ≡ does_need self.now child }
    {
        match child::child_need(&self.children, child) {
            Some(needs) => needs,
            None => self.has_up(child),
        }
    }

    /// Whether a number is that of a power node that is up.
    fn has_up(&self, node: NodeId) -> bool
        ensures { result ≡ power_need self.now (power_place self.now.powers node.0) }
    {
        match power_place(self.powers.as_slice(), node) {
            Some(w) => self.kept_up(w),
            None => false,
        }
    }

    /// What is kept of the power node at place `w`: whether it is up, and false if none stands there.
    fn kept_up(&self, w: usize) -> bool
        ensures up { result ≡ is_up self.now w }
        ensures after { AreAfterParents self.now.powers }
    {
        at_or(&self.ups, w, false)
    }

    /// Whether the power node at place `w` is up: exactly if it is held or a processor, slave or
    /// power node directly below needs it.
    pub fn up(&self, w: usize) -> bool
        requires { w < length self.now.powers }
        ensures up { result ≡ is_up self.now w }
        ensures exactly { IsTrue result ↔ (IsHeld self.now w ⊎ (ChildNeeds self.now w ⊎ PowerNeeds self.now w)) }
    {
        self.kept_up(w)
    }
}

/// The place of a power node, if there is one of this number.
fn power_place(powers: &[PowerDef], node: NodeId) -> Option<usize>
    ensures { result ≡ power_place powers.now node.0 }
{
    powers.iter().position(|power| power.node == node)
}

/// A list of these power nodes.
fn copied(alloc: Global, powers: &[PowerDef]) -> Result<List<PowerDef>, NoMemory>
    ensures { IfOk result (λ list. list ≡ powers.now) }
{
    let mut list = List::new(alloc);
    for power in powers {
        list.push(*power)?;
    }
    Ok(list)
}

/// So many power nodes, none of which is up.
fn downs(alloc: Global, count: usize) -> Result<Vec<bool>, NoMemory>
    ensures { IfOk result (λ ups. ups.items ≡ replicate count false) }
{
    vec![in alloc; false; count].map_err(|_| NoMemory)
}

/// The power nodes that are up by the held ones alone, found with a counter that is thrown away.
fn settle_uncounted<L: Ledger>(
    powers: &[PowerDef],
    counts: &mut Counts,
    ups: &mut [bool],
    blank: Blank,
)
    requires after { AreAfterParents powers.now }
    requires few { length powers.now < 2 ^ 31 }
    requires counts { counts.old ≡ replicate (length powers.now) 0 }
    requires ups { ups.old ≡ replicate (length powers.now) false }
    requires name { blank.name ≡ L.name }
    requires parts { blank.parts ≡ L.parts }
    requires some { 0 < blank.parts }
    ensures { AreSettledFrom 0 powers.now counts.new ups.new }
{
    settle(powers, counts, ups, &mut Steps::<L>::new(blank));
}

/// Sets the need of each child with this number.
fn set_needs<L: Ledger>(
    powers: &[PowerDef],
    children: &mut [Child],
    counts: &mut Counts,
    ups: &mut [bool],
    node: NodeId,
    on: bool,
    steps: &mut Steps<L>,
)
    requires { IsForest children.old powers.now counts.old ups.old }
    ensures children { children.new ≡ map (set_child node on) children.old }
    ensures forest { IsForest children.new powers.now counts.new ups.new }
    ensures cost { steps.new ≤ steps.old + levels_above powers.now node children.old }
{
    for k in 0..children.len() {
        let child = child_at(children, k);
        if child.node == node {
            put_need(powers, children, counts, ups, k, on, steps);
        }
    }
}

/// Sets the needs of the children from one place up to another, in their order. Those past the last need don't need
/// their power node.
fn put_needs<L: Ledger>(
    powers: &[PowerDef],
    children: &mut [Child],
    counts: &mut Counts,
    ups: &mut [bool],
    from: usize,
    to: usize,
    needs: &[bool],
    steps: &mut Steps<L>,
)
    requires forest { IsForest children.old powers.now counts.old ups.old }
    requires end { to ≤ length children.old }
    ensures children { children.new ≡ with_needs_in from (to - from) needs.now children.old }
    ensures forest { IsForest children.new powers.now counts.new ups.new }
    ensures cost { steps.new ≤ steps.old + needs_cost_in powers.now from (to - from) needs.now children.old }
{
    for k in from..to {
        let need = at_or(needs, k - from, false);
        put_need(powers, children, counts, ups, k, need, steps);
    }
}

/// Sets the needs of the slaves, which come first, and of the processors.
fn put_all_needs<L: Ledger>(
    powers: &[PowerDef],
    children: &mut [Child],
    counts: &mut Counts,
    ups: &mut [bool],
    slaves: &[bool],
    procs: &[bool],
    steps: &mut Steps<L>,
)
    requires { IsForest children.old powers.now counts.old ups.old }
    ensures children { children.new ≡ with_needs (slaves.now ++ procs.now) children.old }
    ensures forest { IsForest children.new powers.now counts.new ups.new }
    ensures cost { steps.new ≤ steps.old + needs_cost powers.now (slaves.now ++ procs.now) children.old }
{
    let end = children.len();
    let first = slaves.len().min(end);
    put_needs(powers, children, counts, ups, 0, first, slaves, steps);
    put_needs(powers, children, counts, ups, first, end, procs, steps);
}

/// Sets the need of the child at a place.
fn put_at<L: Ledger>(
    powers: &[PowerDef],
    children: &mut [Child],
    counts: &mut Counts,
    ups: &mut [bool],
    place: usize,
    on: bool,
    steps: &mut Steps<L>,
)
    requires { IsForest children.old powers.now counts.old ups.old }
    ensures children { children.new ≡ with_need_at place on children.old }
    ensures forest { IsForest children.new powers.now counts.new ups.new }
    ensures cost { steps.new ≤ steps.old + need_cost_at powers.now place on children.old }
{
    if place < children.len() {
        put_need(powers, children, counts, ups, place, on, steps);
    }
}
