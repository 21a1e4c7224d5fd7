//! A master and the clocks that it enables.

ghost use Rattle.std.specs.Prelude.{◌≡◌, ◌&&◌, IfOk, false, true, length};
ghost use Rattle.pm_clock_tree.specs.Followed.{emptied, permitted, reviewed, settled_holder};
ghost use Rattle.pm_clock_tree.specs.Served.{with_enable};
ghost use Rattle.pm_clock_tree.specs.Tree as spec;
ghost use Rattle.pm_clock_tree.specs.Tree.{idle_holder};

use crate::scene::Scene;
use crate::table::{ClockDef, all_clocks};
use pm_base::{NoMemory, NodeId, at_or};
use std::alloc::Global;
use std::marker::Model;

/// A master, and of each clock that is no root, by its place, whether the master enables it. It also keeps whether
/// there may be an enable, so that a master without one costs nothing.
#[derive(Drop)]
pub struct Holder {
    node: NodeId,
    enables: Vec<bool>,
    busy: bool,
}

impl Model for Holder {
    ghost use Rattle.std.specs.Prelude.{◌≡◌, false, length};
    ghost use Rattle.std.specs.List.{list_any};
    ghost use Rattle.pm_clock_tree.specs.Table.{clock_count};
    ghost use Rattle.pm_clock_tree.specs.Tree as spec;

    ghost Value = { spec.Holder };

    ghost view = { λ holder. record { node = holder.node; enables = holder.enables.items } };

    ghost invariant = { λ holder. (holder.busy ≡ false → list_any (λ on. on) holder.enables.items ≡ false)
        × (length holder.enables.items ≡ clock_count) };
}

impl Holder {
    /// A master that enables nothing.
    ///
    /// # Errors
    ///
    /// `NoMemory` if there is not enough memory.
    pub(crate) fn load(alloc: Global, node: NodeId) -> Result<Holder, NoMemory>
        ensures { IfOk result (λ holder. holder ≡ idle_holder node) }
    {
        Ok(Holder {
            node,
            enables: vec![in alloc; false; all_clocks().len()].map_err(|_| NoMemory)?,
            busy: false,
        })
    }

    /// The number of the master.
    pub(crate) fn node(&self) -> NodeId
        ensures { result ≡ self.now.node }
    {
        self.node
    }

    /// Whether it enables the clock at a place.
    pub(crate) fn has(&self, k: usize) -> bool
        ensures { result ≡ spec.has k self.now }
    {
        at_or(&self.enables, k, false)
    }

    /// If it is this master, it enables the clock at a place from now on, or doesn't any more.
    pub(crate) fn put(&mut self, master: NodeId, k: usize, on: bool)
        ensures { self.new ≡ with_enable master k on self.old }
    {
        if self.node.0 == master.0 && k < self.enables.len() {
            self.enables[k] = on;
            self.busy = true;
        }
    }

    /// It enables nothing any more if it is off, and else, unless it is known that it may use all, only what it may.
    /// Answers whether anything may have changed.
    #[tactic(auto, using(crate::proofs::HolderLemmas::idle_settled))]
    pub(crate) fn settle<S: Scene>(&mut self, scene: &S, kept: bool) -> bool
        requires kept { kept ≡ true → reviewed (S.seen scene.now) self.old ≡ self.old }
        ensures holder { self.new ≡ settled_holder (S.seen scene.now) self.old }
        ensures same { result ≡ false → self.new ≡ self.old }
    {
        if !self.busy {
            return false;
        }
        if scene.is_off(self.node) {
            self.empty();
            return true;
        }
        if kept {
            return false;
        }
        self.review(scene);
        true
    }

    /// It enables nothing any more.
    fn empty(&mut self)
        ensures { self.new ≡ emptied self.old }
    {
        self.enables.fill(false);
        self.busy = false;
    }

    /// It enables nothing any more that it may not.
    fn review<S: Scene>(&mut self, scene: &S)
        ensures { self.new ≡ reviewed (S.seen scene.now) self.old }
    {
        review(self.node, all_clocks(), &mut self.enables, scene);
        self.busy = true;
    }
}

/// Of the enables of a master, by the places of the clocks, those stay whose slaves it may use.
fn review<S: Scene>(master: NodeId, defs: &[ClockDef], enables: &mut [bool], scene: &S)
    requires places { length enables.old ≡ length defs.now }
    ensures { enables.new ≡ permitted (S.seen scene.now) master defs.now enables.old }
{
    for (k, def) in defs.iter().enumerate() {
        enables[k] = keeps(enables[k], master, def.node, scene);
    }
}

/// Whether an enable stays.
fn keeps<S: Scene>(on: bool, master: NodeId, slave: NodeId, scene: &S) -> bool
    ensures { result ≡ (on && (S.seen scene.now).may_use master slave) }
{
    on && scene.may_use(master, slave)
}
