//! The clock tree: who enables which clock, and the dividers and parents that were chosen.

ghost use Rattle.std.specs.Prelude.{◌≡◌, ◌≤◌, ◌||◌, IfOk, Some, false, length, map, replicate, true};
ghost use Rattle.pm_base.specs.declared.names.Unit.{Unit as Part};
ghost use Rattle.pm_clock_tree.specs.Followed.{AreHoldersPermitted, ArePermitted, RootsStand, is_source, has_source, rooted, settled, settled_holder};
ghost use Rattle.pm_clock_tree.specs.Served.{changed, changed_at, may_change, is_in_range, is_missing, is_rival, refused, rival, rival_at, with_divider, with_enable, with_index, with_setting};
ghost use Rattle.pm_clock_tree.specs.Table.{clock_count, clock_place, root_count};
ghost use Rattle.pm_clock_tree.specs.Tree as spec;
ghost use Rattle.pm_clock_tree.specs.Tree.{HasAllPlaces, first_setting, idle_holder, is_enabled, loaded, roots_seen};

use crate::calls::{ClockAct, ClockCall};
use crate::checks::{is_in_range, is_missing, is_setting, may_change};
use crate::holders::Holder;
use crate::scene::Scene;
use crate::table::{all_clocks, clock_place, roots};
use pm_base::{BoundedList, NoMemory, NodeId, Unit};
use pm_ipi::Response;
use pm_ipi::status::{INVALID_NODE, INVALID_PARAMETER, NO_ACCESS};
use std::alloc::Global;
use std::marker::Model;

/// What was chosen for a clock that is no root: what it divides by, and the index of its parent.
#[derive(Clone, Copy, Debug, PartialEq, Eq)]
pub struct Setting {
    pub divider: u32,
    pub index: u32,
}

/// The masters with what they enable, the settings of the clocks that are no roots, and which roots run. It also keeps
/// whether there may be an enable, so that if none was made no master is looked at.
#[derive(Drop)]
pub struct Tree {
    holders: Vec<Holder>,
    settings: Vec<Setting>,
    roots: BoundedList<bool>,
    used: bool,
}

impl Model for Tree {
    ghost use Rattle.std.specs.Prelude.{◌≡◌, ◌≤◌, false};
    ghost use Rattle.std.specs.List.{list_any};
    ghost use Rattle.pm_clock_tree.specs.Table.{root_count};
    ghost use Rattle.pm_clock_tree.specs.Tree as spec;

    ghost Value = { spec.Tree };

    ghost view = { λ tree. record {
      holders = tree.holders.items;
      settings = tree.settings.items;
      roots = tree.roots.items;
    } };

    ghost invariant = { λ tree. spec.HasAllPlaces (record {
      holders = tree.holders.items;
      settings = tree.settings.items;
      roots = tree.roots.items;
    })
        × (root_count ≤ tree.roots.room)
        × (tree.used ≡ false
        → list_any (λ (holder : spec.Holder). list_any (λ on. on) holder.enables) tree.holders.items ≡ false) };
}

impl Tree {
    /// The tree of these masters at load: nobody enables anything.
    ///
    /// # Errors
    ///
    /// `NoMemory` if there is not enough memory.
    pub(crate) fn load<S: Scene>(
        alloc: Global,
        masters: &[NodeId],
        scene: &S,
    ) -> Result<Tree, NoMemory>
        ensures { IfOk result (λ tree. tree ≡ loaded masters.now (S.seen scene.now)) }
    {
        let mut seen = BoundedList::with_room(alloc, roots().len())?;
        see_roots(&mut seen, scene);
        Ok(Tree {
            holders: holders_of(alloc, masters)?,
            settings: first_settings(alloc)?,
            roots: seen,
            used: false,
        })
    }

    /// There is a setting for each clock that is no root, and a value for each root.
    pub(crate) fn has_all_places(&self)
        ensures { HasAllPlaces self.now }
    {
        let _settings = self.settings.as_slice();
    }

    /// The setting of a clock.
    fn setting(&self, number: u32) -> Option<Setting>
        ensures { result ≡ spec.setting_of number self.now }
    {
        let place = clock_place(number)?;
        self.settings.get(place).copied()
    }

    /// What a clock divides by, and 0 of a root or if there is no such clock.
    pub(crate) fn divider(&self, number: u32) -> u32
        ensures { result ≡ spec.divider number self.now }
    {
        self.setting(number).map_or(0, |setting| setting.divider)
    }

    /// The index of the parent of a clock, and 0 of a root or if there is no such clock.
    pub(crate) fn index(&self, number: u32) -> u32
        ensures { result ≡ spec.index number self.now }
    {
        self.setting(number).map_or(0, |setting| setting.index)
    }

    /// Whether some master enables the clock at a place.
    pub(crate) fn is_enabled(&self, k: usize) -> bool
        ensures { result ≡ is_enabled k self.now.holders }
    {
        self.holders.as_slice().iter().any(|holder| holder.has(k))
    }

    /// The settings of the clocks that are no roots, by their places.
    pub(crate) fn settings(&self) -> &[Setting]
        ensures settings { result.now ≡ self.now.settings }
        ensures count { length self.now.settings ≡ clock_count }
    {
        self.settings.as_slice()
    }

    /// Which roots run, by their numbers.
    pub(crate) fn roots(&self) -> &[bool]
        ensures roots { result.now ≡ self.now.roots }
        ensures count { length self.now.roots ≡ root_count }
    {
        self.roots.as_slice()
    }

    /// The first other master that enables the clock at a place.
    fn rival_at(&self, master: NodeId, k: usize) -> Option<NodeId>
        ensures { result ≡ rival_at master (Some k) self.now.holders }
    {
        first_rival(self.holders.as_slice(), master, k)
    }

    /// The first other master that enables the clock of a call, if the call sets how the clock runs.
    fn rival(&self, master: NodeId, call: &ClockCall) -> Option<NodeId>
        ensures { result ≡ rival master call.now self.now }
    {
        if !is_setting(call.act) {
            return None;
        }
        match clock_place(call.clock) {
            Some(k) => self.rival_at(master, k),
            None => None,
        }
    }

    /// The refusal of the first check that fails, if one does.
    pub(crate) fn refusal<S: Scene>(
        &self,
        scene: &S,
        master: NodeId,
        call: &ClockCall,
    ) -> Option<Response>
        ensures { result ≡ refused (S.seen scene.now) master call.now self.now }
    {
        if is_missing(call) {
            return Some(Response::refusal(INVALID_NODE));
        }
        if !is_in_range(call) {
            return Some(Response::refusal(INVALID_PARAMETER));
        }
        if !may_change(scene, master, call) {
            return Some(Response::refusal(NO_ACCESS));
        }
        match self.rival(master, call) {
            Some(rival) => Some(Response::used_by(rival)),
            None => None,
        }
    }

    /// What a call of a master does, that passed its checks.
    pub(crate) fn change(&mut self, master: NodeId, call: &ClockCall)
        ensures { self.new ≡ changed_at master call.now.act (clock_place call.now.clock) self.old }
    {
        if let Some(k) = clock_place(call.clock) {
            self.change_at(master, call.act, k);
        }
    }

    /// Does what an accepted call of a master does to the clock at a place.
    fn change_at(&mut self, master: NodeId, act: ClockAct, k: usize)
        ensures { self.new ≡ changed master act k self.old }
    {
        self.used = true;
        match act {
            ClockAct::Enable => put_enables(&mut self.holders, master, k, true),
            ClockAct::Disable => put_enables(&mut self.holders, master, k, false),
            ClockAct::SetDivider(divider) => self.set_divider(k, divider),
            ClockAct::SetParent(index) => self.set_index(k, index),
            ClockAct::State | ClockAct::Divider | ClockAct::Parent => {}
        }
    }

    /// Sets the divider of the clock at a place.
    fn set_divider(&mut self, k: usize, divider: u32)
        ensures { self.new ≡ record self.old { settings = with_setting (with_divider divider) k self.old.settings } }
    {
        if k < self.settings.len() {
            self.settings[k].divider = divider;
        }
    }

    /// Sets which parent feeds the clock at a place.
    fn set_index(&mut self, k: usize, index: u32)
        ensures { self.new ≡ record self.old { settings = with_setting (with_index index) k self.old.settings } }
    {
        if k < self.settings.len() {
            self.settings[k].index = index;
        }
    }

    /// Drops the enables of masters that are off, and those that the object in force doesn't permit any more. Answers
    /// whether anything may have changed.
    pub(crate) fn settle<S: Scene>(&mut self, scene: &S, kept: bool) -> bool
        requires kept { kept ≡ true → ArePermitted (S.seen scene.now) self.old }
        ensures tree { self.new ≡ settled (S.seen scene.now) self.old }
        ensures same { result ≡ false → self.new ≡ self.old }
    {
        if !self.used {
            return false;
        }
        settle_holders(&mut self.holders, scene, kept)
    }

    /// The roots follow their slaves, of which those that may have changed moved. Answers whether one moved.
    pub(crate) fn root<S: Scene>(&mut self, scene: &S, moved: &[Unit]) -> bool
        requires stand { RootsStand (S.seen scene.now) moved.now self.old }
        ensures tree { self.new ≡ rooted (S.seen scene.now) self.old }
        ensures same { result ≡ false → self.new ≡ self.old }
    {
        if !has_source(moved) {
            return false;
        }
        see_roots(&mut self.roots, scene);
        true
    }
}

/// These masters, who enable nothing.
fn holders_of(alloc: Global, masters: &[NodeId]) -> Result<Vec<Holder>, NoMemory>
    ensures { IfOk result (λ holders. holders.items ≡ map idle_holder masters.now) }
{
    let mut holders = Vec::new(alloc);
    for master in masters {
        let holder = Holder::load(alloc, *master)?;
        holders.push(holder).map_err(|_| NoMemory)?;
    }
    Ok(holders)
}

/// The settings at load.
fn first_settings(alloc: Global) -> Result<Vec<Setting>, NoMemory>
    ensures { IfOk result (λ settings. settings.items ≡ replicate (clock_count) first_setting) }
{
    let setting = Setting {
        divider: 1,
        index: 0,
    };
    vec![in alloc; setting; all_clocks().len()].map_err(|_| NoMemory)
}

/// Which roots run as their slaves stand.
#[inline(never)]
fn see_roots<S: Scene>(seen: &mut BoundedList<bool>, scene: &S)
    requires room { root_count ≤ seen.old.room }
    ensures { seen.new ≡ record seen.old { items = roots_seen (S.seen scene.now) } }
{
    seen.clear();
    for node in roots() {
        seen.push(scene.is_on(*node));
    }
}

/// The first of these masters, other than this one, that enables the clock at a place.
fn first_rival(holders: &[Holder], master: NodeId, k: usize) -> Option<NodeId>
    ensures { result ≡ rival_at master (Some k) holders.now }
{
    holders
        .iter()
        .find(|holder| is_rival(holder, master, k))
        .map(|holder| holder.node())
}

/// Whether this is another master, which enables the clock at a place.
fn is_rival(holder: &Holder, master: NodeId, k: usize) -> bool
    ensures { result ≡ is_rival master k holder.now }
{
    holder.node().0 != master.0 && holder.has(k)
}

/// A master among these enables the clock at a place from now on, or doesn't any more.
fn put_enables(holders: &mut [Holder], master: NodeId, k: usize, on: bool)
    ensures { holders.new ≡ map (with_enable master k on) holders.old }
{
    for holder in holders.iter_mut() {
        holder.put(master, k, on);
    }
}

/// Drops the enables that masters lose: those of one that is off, or that may not use the clock's slave. With `kept`
/// no permission was lost. Answers whether any may have been dropped.
#[inline(never)]
fn settle_holders<S: Scene>(holders: &mut [Holder], scene: &S, kept: bool) -> bool
    requires kept { kept ≡ true → AreHoldersPermitted (S.seen scene.now) holders.old }
    ensures holders { holders.new ≡ map (settled_holder (S.seen scene.now)) holders.old }
    ensures same { result ≡ false → holders.new ≡ holders.old }
{
    let mut changed = false;
    for holder in holders.iter_mut() {
        let one = holder.settle(scene, kept);
        changed = either(changed, one);
    }
    changed
}

/// Whether one of both holds, in a loop that the prover reads.
fn either(one: bool, other: bool) -> bool
    ensures { result ≡ (one || other) }
{
    one || other
}

/// Whether the slave of a root is among these units.
fn has_source(moved: &[Unit]) -> bool
    ensures { result ≡ has_source moved.now }
{
    moved.iter().any(|unit| is_source(*unit))
}

/// Whether a unit is the slave of a root, a PLL.
fn is_source(unit: Unit) -> bool
    ensures { result ≡ is_source unit }
{
    match unit {
        Unit::Node(node) => roots().iter().any(|root| root.0 == node.0),
        Unit::Line(_) => false,
    }
}
