//! The clocks: what is asked of them, and which of them run.

ghost use Rattle.std.specs.Prelude.{◌≡◌, ◌+◌, ◌≤◌, ◌↔◌, IfOk, IsTrue, [], false, length, true};
ghost use Rattle.pm_clock_tree.specs.Followed.{ArePermitted, RootsStand, followed};
ghost use Rattle.pm_clock_tree.specs.Served.{response, served, told_word};
ghost use Rattle.pm_clock_tree.specs.Table.{clock_count, clocks, root_count};
ghost use Rattle.pm_clock_tree.specs.Told.{change_at, changes, end_at, loaded_clocks, told};
ghost use Rattle.pm_clock_tree.specs.Tree as spec;
ghost use Rattle.pm_clock_tree.specs.Tree.{Runs, running_from};

use crate::calls::{ClockAct, ClockCall};
use crate::checks::is_change;
use crate::laws::clocks_run_by_their_parents;
use crate::scene::Scene;
use crate::table::{ClockDef, all_clocks, clock_place, roots};
use crate::tree::{Setting, Tree};
use pm_base::{BoundedList, NoMemory, NodeId, Unit, at_or};
use pm_ipi::Response;
use std::alloc::Global;
use std::marker::Model;

/// A clock that began or ceased to run.
#[derive(Clone, Copy, Debug, PartialEq, Eq)]
pub struct ClockChange {
    pub clock: u32,
    pub from: bool,
    pub to: bool,
}

/// A clock that runs, with what it divides by and the index of its parent.
#[derive(Clone, Copy, Debug, PartialEq, Eq)]
pub struct ClockEnd {
    pub clock: u32,
    pub divider: u32,
    pub index: u32,
}

/// The clocks of the chip over a book. Contracts see the clock tree, and which clocks ran when they were told of last.
/// It also keeps which clocks run, so that this is found anew only if an enable, a parent or a root changed.
#[derive(Drop)]
pub struct ClockTree {
    tree: Tree,
    running: BoundedList<bool>,
    told: BoundedList<bool>,
    news: bool,
}

impl Model for ClockTree {
    ghost use Rattle.std.specs.Prelude.{◌≡◌, ◌+◌, ◌≤◌, false, length};
    ghost use Rattle.pm_clock_tree.specs.Table.{clock_count, root_count};
    ghost use Rattle.pm_clock_tree.specs.Told.{Clocked};
    ghost use Rattle.pm_clock_tree.specs.Tree as spec;

    ghost Value = { Clocked };

    ghost view = { λ clocks. record { tree = clocks.tree; told = clocks.told.items } };

    ghost invariant = { λ it. (it.running.items ≡ spec.running it.tree)
        × (it.news ≡ false → it.told.items ≡ it.running.items)
        × (length it.running.items ≡ root_count + clock_count)
        × (root_count + clock_count ≤ it.running.room) × (root_count + clock_count ≤ it.told.room) };
}

impl ClockTree {
    /// The clocks of a book at load, with its masters in object order: nobody enables anything, each divider is 1 and
    /// each index 0.
    ///
    /// # Errors
    ///
    /// `NoMemory` if there is not enough memory.
    pub fn load<S: Scene>(
        alloc: Global,
        masters: &[NodeId],
        scene: &S,
    ) -> Result<ClockTree, NoMemory>
        ensures { IfOk result (λ clocks. clocks ≡ loaded_clocks masters.now (S.seen scene.now)) }
    {
        let tree = Tree::load(alloc, masters, scene)?;
        let mut running = BoundedList::with_room(alloc, roots().len() + all_clocks().len())?;
        find_running(&tree, &mut running);
        let mut told = BoundedList::with_room(alloc, roots().len() + all_clocks().len())?;
        copy(&running, &mut told);
        Ok(ClockTree {
            tree,
            running,
            told,
            news: false,
        })
    }

    /// A call by a master on a clock, over the book in which it was made. The checks come in this order. There is no
    /// such clock, or it is a root and the call isn't CLOCK_GETSTATE: 2003. A divider isn't from 1 to 63, or an index
    /// isn't that of a parent: 15. The call isn't one that only asks, and the object in force doesn't let the caller
    /// use the clock's slave: 2002. The call sets the divider or the parent, and another master enables the clock:
    /// 2007, with the first such master in object order. A refused call changes nothing.
    pub fn serve<S: Scene>(&mut self, scene: &S, master: NodeId, call: &ClockCall) -> Response
        ensures response { result ≡ response (S.seen scene.now) master call.now self.old.tree }
        ensures clocks { self.new ≡ record self.old { tree = served (S.seen scene.now) master call.now self.old.tree } }
    {
        if let Some(refusal) = self.tree.refusal(scene, master, call) {
            return refusal;
        }
        let word = self.word(call);
        if is_change(call.act) {
            self.tree.change(master, call);
            find_running(&self.tree, &mut self.running);
            self.news = true;
        }
        Response::success([word, 0, 0])
    }

    /// A step of the book was made, after which it is seen so, and in which these units moved. The enables of masters
    /// that are off are dropped, and those that the object in force doesn't permit any more; `kept` says that there
    /// are none of the latter. The roots follow their slaves. If no master that enables a clock is off and no slave
    /// of a root moved, no clock is looked at.
    pub fn follow<S: Scene>(&mut self, scene: &S, moved: &[Unit], kept: bool)
        requires kept { kept ≡ true → ArePermitted (S.seen scene.now) self.old.tree }
        requires stand { RootsStand (S.seen scene.now) moved.now self.old.tree }
        ensures { self.new ≡ record self.old { tree = followed (S.seen scene.now) self.old.tree } }
    {
        let dropped = self.tree.settle(scene, kept);
        let turned = self.tree.root(scene, moved);
        if dropped || turned {
            find_running(&self.tree, &mut self.running);
            self.news = true;
        }
    }

    /// Whether a clock runs: false if there is no such clock.
    pub fn runs(&self, number: u32) -> bool
        ensures runs { result ≡ spec.runs number self.now.tree }
        ensures by_parents { IsTrue result ↔ Runs self.now.tree number }
    {
        clocks_run_by_their_parents();
        self.tree.has_all_places();
        at_or(self.running.as_slice(), number as usize, false)
    }

    /// What a clock divides by, and 0 of a root or if there is no such clock.
    pub fn divider(&self, number: u32) -> u32
        ensures { result ≡ spec.divider number self.now.tree }
    {
        self.tree.divider(number)
    }

    /// The index of the parent of a clock, and 0 of a root or if there is no such clock.
    pub fn index(&self, number: u32) -> u32
        ensures { result ≡ spec.index number self.now.tree }
    {
        self.tree.index(number)
    }

    /// Whether a clock may have begun or ceased to run since they were told of.
    pub fn has_changes(&self) -> bool
        ensures changes { result ≡ false → changes self.now ≡ [] }
        ensures still { result ≡ false → told self.now ≡ self.now }
    {
        self.news
    }

    /// The change of a clock since they were told of, if it changed. A root is never told of.
    pub fn change(&self, number: u32) -> Option<ClockChange>
        ensures { result ≡ change_at number self.now }
    {
        clock_place(number)?;
        let from = at_or(self.told.as_slice(), number as usize, false);
        let to = at_or(self.running.as_slice(), number as usize, false);
        if from == to {
            return None;
        }
        Some(ClockChange {
            clock: number,
            from,
            to,
        })
    }

    /// A clock with what was chosen for it, if it is no root and runs.
    pub fn end(&self, number: u32) -> Option<ClockEnd>
        ensures { result ≡ end_at number self.now.tree }
    {
        clock_place(number)?;
        if !self.runs(number) {
            return None;
        }
        Some(ClockEnd {
            clock: number,
            divider: self.divider(number),
            index: self.index(number),
        })
    }

    /// All clocks are told of as they are.
    pub fn tell(&mut self)
        ensures { self.new ≡ told self.old }
    {
        copy(&self.running, &mut self.told);
        self.news = false;
    }

    /// What a call is told.
    fn word(&self, call: &ClockCall) -> u32
        ensures { result ≡ told_word call.now self.now.tree }
    {
        match call.act {
            ClockAct::State => { if self.runs(call.clock) { 1 } else { 0 } }
            ClockAct::Divider => self.divider(call.clock),
            ClockAct::Parent => self.index(call.clock),
            _ => 0,
        }
    }
}

/// Finds which clocks run: the roots, and then each other clock by its parent, which has a lower number.
#[inline(never)]
fn find_running(tree: &Tree, running: &mut BoundedList<bool>)
    requires room { root_count + clock_count ≤ running.old.room }
    ensures running { running.new ≡ record running.old { items = spec.running tree.now } }
    ensures count { length running.new.items ≡ root_count + clock_count }
{
    running.clear();
    for root in tree.roots() {
        running.push(*root);
    }
    find_driven(tree, all_clocks(), tree.settings(), running);
}

/// Finds which of these clocks run, after those before them.
fn find_driven(
    tree: &Tree,
    defs: &[ClockDef],
    settings: &[Setting],
    running: &mut BoundedList<bool>,
)
    requires places { length defs.now ≡ length settings.now }
    requires room { length running.old.items + length defs.now ≤ running.old.room }
    ensures running { running.new ≡ record running.old {
      items = running_from running.old.items tree.now.holders 0 defs.now settings.now;
    } }
    ensures count { length running.new.items ≡ length running.old.items + length defs.now }
{
    for (k, def) in defs.iter().enumerate() {
        let on = runs_by(running.as_slice(), tree, k, def, &settings[k]);
        running.push(on);
    }
}

/// Whether the clock at a place runs, by those before it.
fn runs_by(running: &[bool], tree: &Tree, k: usize, def: &ClockDef, setting: &Setting) -> bool
    ensures { result ≡ spec.runs_by running.now tree.now.holders k def.now setting.now }
{
    tree.is_enabled(k) && is_running(running, def.parent(setting.index))
}

/// Whether a clock, if there is one, is among these and runs.
fn is_running(running: &[bool], clock: Option<u32>) -> bool
    ensures { result ≡ spec.is_running running.now clock }
{
    match clock {
        Some(number) => at_or(running, number as usize, false),
        None => false,
    }
}

/// Copies a list over another.
fn copy(from: &BoundedList<bool>, to: &mut BoundedList<bool>)
    requires room { length from.now.items ≤ to.old.room }
    ensures { to.new ≡ record to.old { items = from.now.items } }
{
    to.clear();
    for on in from.as_slice() {
        to.push(*on);
    }
}
