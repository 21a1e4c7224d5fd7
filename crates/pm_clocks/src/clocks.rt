//! The clocks of a book, brought up to date after each of its steps.

ghost use Rattle.std.specs.Prelude.{◌≡◌, ◌↔◌, IfOk, IsTrue, [], false, map};
ghost use Rattle.pm_clocks.specs.Clocked.{HasStepped, StandsOver, clock_answer, clocks_of, made, masters_of, node_of, tree_after, view_of, with_response};
ghost use Rattle.pm_clock_tree.specs.Followed.{served_by};
ghost use Rattle.pm_clock_tree.specs.Served.{response, served};
ghost use Rattle.pm_clock_tree.specs.Told.{change_at, changes, end_at, told};
ghost use Rattle.pm_clock_tree.specs.Tree as spec;
ghost use Rattle.pm_clock_tree.specs.Tree.{Runs};

use crate::replies::{made, with_response};
use crate::scene::BookScene;
use pm_base::{Event, List, NoMemory, NodeId};
use pm_clock_tree::{
    ClockCall, ClockChange, ClockEnd, ClockTree, clocks_stand_after_steps, enables_stay_permitted,
};
use pm_core::{Answer, Book, Outbox, configures, only_one_call_configures};
use pm_object::MasterRec;
use pm_topology::{kinds_are_exact, units_stand_in_order};
use std::alloc::Global;
use std::marker::Model;

/// The clocks of a book: which master enables which clock, the divider and the parent that were set, and which clocks
/// run. Contracts see the clock tree, and the clocks that ran when changes were last told.
#[derive(Drop)]
pub struct Clocks {
    tree: ClockTree,
}

impl Model for Clocks {
    ghost use Rattle.pm_clock_tree.specs.Told.{Clocked};

    ghost Value = { Clocked };

    ghost view = { λ clocks. clocks.tree };
}

impl Clocks {
    /// The clocks of a book at load: nobody enables anything, each divider is 1 and each index 0.
    ///
    /// # Errors
    ///
    /// `NoMemory` if there is not enough memory.
    pub fn load(alloc: Global, book: &Book) -> Result<Clocks, NoMemory>
        ensures clocks { IfOk result (λ clocks. clocks ≡ clocks_of book.now) }
        ensures stands { IfOk result (λ clocks. StandsOver book.now clocks.tree) }
    {
        clocks_stand_after_steps();
        let masters = nodes(alloc, book.loaded().masters.as_slice())?;
        let tree = ClockTree::load(alloc, masters.as_slice(), &BookScene { book })?;
        Ok(Clocks { tree })
    }

    /// Brings the clocks up to date after the book's step. If the event is a call on a clock to which the book
    /// replied, the clocks serve it, and their response replaces the book's in the outbox. These are its checks, in
    /// their order:
    ///
    /// - There is such a clock, and it is no root unless the call is CLOCK_GETSTATE; else 2003.
    /// - A divider is from 1 to 63, and an index that of a parent; else 15.
    /// - The object in force lets the caller use the clock's slave, unless the call only asks; else 2002.
    /// - No other master enables the clock, if the call sets the divider or the parent; else 2007, with the first
    ///   such master in object order.
    ///
    /// A refused call changes nothing. After that the enables of masters that are off are dropped. After
    /// SET_CONFIGURATION so are those that the new object doesn't permit. At last the roots follow their slaves: a
    /// root runs if its slave is in a state other than 0. An event without any effect costs no look at a clock.
    #[inline(always)]
    pub fn answer(&mut self, book: &Book, event: &Event, out: &mut Outbox)
        requires stepped { HasStepped event.now out.old.moved.items self.old.tree book.now }
        ensures clocks { self.new
            ≡ record self.old { tree = tree_after event.now out.old.answer book.now self.old.tree } }
        ensures out { out.new
            ≡ record out.old { answer = clock_answer event.now out.old.answer book.now self.old.tree } }
        ensures stands { StandsOver book.now self.new.tree }
    {
        units_stand_in_order();
        kinds_are_exact();
        clocks_stand_after_steps();
        enables_stay_permitted();
        only_one_call_configures();
        if let Event::Pass = event {
            return;
        }
        let scene = BookScene { book };
        self.serve(&scene, event, &mut out.answer);
        self.tree
            .follow(&scene, out.moved.as_slice(), !configures(event));
    }

    /// Serves the call on a clock that the event makes, if the book replied to it. The clocks' response replaces the
    /// book's.
    #[inline]
    fn serve(&mut self, scene: &BookScene, event: &Event, answer: &mut Answer)
        ensures clocks { self.new
            ≡ record self.old {
              tree = served_by (view_of scene.now.book.now) (made event.now answer.old) self.old.tree;
            } }
        ensures answer { answer.new ≡ clock_answer event.now answer.old scene.now.book.now self.old.tree }
    {
        if let Some((master, call)) = made(event, answer) {
            self.serve_call(scene, master, &call, answer);
        }
    }

    /// Serves a master's call on a clock. The clocks' response replaces the book's in `answer`.
    #[inline(never)]
    fn serve_call(
        &mut self,
        scene: &BookScene,
        master: NodeId,
        call: &ClockCall,
        answer: &mut Answer,
    )
        ensures clocks { self.new
            ≡ record self.old { tree = served (view_of scene.now.book.now) master call.now self.old.tree } }
        ensures answer { answer.new
            ≡ with_response (response (view_of scene.now.book.now) master call.now self.old.tree) answer.old }
    {
        let response = self.tree.serve(scene, master, call);
        *answer = with_response(response, *answer);
    }

    /// Whether a clock runs, as of the last `load` or `answer`; false if there is no such clock.
    pub fn runs(&self, number: u32) -> bool
        ensures runs { result ≡ spec.runs number self.now.tree }
        ensures by_parents { IsTrue result ↔ Runs self.now.tree number }
    {
        self.tree.runs(number)
    }

    /// The divider of a clock, 1 to 63; 0 for a root, or if there is no such clock.
    pub fn divider(&self, number: u32) -> u32
        ensures { result ≡ spec.divider number self.now.tree }
    {
        self.tree.divider(number)
    }

    /// The index of a clock's parent; 0 for a root, or if there is no such clock.
    pub fn index(&self, number: u32) -> u32
        ensures { result ≡ spec.index number self.now.tree }
    {
        self.tree.index(number)
    }

    /// Whether a clock may have started or stopped since the last `tell`. If not, `change` has nothing to tell.
    pub fn has_changes(&self) -> bool
        ensures changes { result ≡ false → changes self.now ≡ [] }
        ensures still { result ≡ false → told self.now ≡ self.now }
    {
        self.tree.has_changes()
    }

    /// The start or stop of a clock since the last `tell`, if there was one. Roots are never told.
    pub fn change(&self, number: u32) -> Option<ClockChange>
        ensures { result ≡ change_at number self.now }
    {
        self.tree.change(number)
    }

    /// A clock with its divider and parent for the end of a run, if it runs and is no root.
    pub fn end(&self, number: u32) -> Option<ClockEnd>
        ensures { result ≡ end_at number self.now.tree }
    {
        self.tree.end(number)
    }

    /// Marks all changes as told: `change` speaks of later ones from now on.
    pub fn tell(&mut self)
        ensures { self.new ≡ told self.old }
    {
        self.tree.tell();
    }
}

/// The nodes of these masters, in order. Fails with `NoMemory` if there is not enough memory.
fn nodes(alloc: Global, masters: &[MasterRec]) -> Result<List<NodeId>, NoMemory>
    ensures { IfOk result (λ nodes. nodes ≡ map node_of masters.now) }
{
    let mut nodes = List::new(alloc);
    for master in masters {
        nodes.push(NodeId(master.node))?;
    }
    Ok(nodes)
}
