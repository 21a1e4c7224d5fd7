//! What changes of what is pending on the masters and of their notes, one change at a time.

ghost use Rattle.std.specs.Prelude.{◌≡◌, ◌∷◌, [], option_to_list, map, slice_get};
ghost use Rattle.pm_state.specs.Talk.{talked, End, Wait, Ask, Forget, Lower, Renew, Unwatch, take_of};
ghost use Rattle.pm_state.specs.Talk as changes;
ghost use Rattle.pm_notify.specs.MasterNotes.{waiting_in};
ghost use Rattle.pm_notify.specs.Notify.{IsInOrder, notes_for};

use crate::tables::Tables;
use pm_base::NodeId;
use pm_notify::{NodeEvent, Waiting};
use pm_procs::Pending;

impl Tables {
    /// The request that is pending on the master at a place ends.
    pub fn end_request(&mut self, m: usize)
        ensures { self.new ≡ talked (End m ∷ []) self.old }
    {
        self.procs.end(m);
    }

    /// A note waits for the master at a place.
    pub fn wait_note(&mut self, m: usize, waiting: Waiting)
        ensures { self.new ≡ talked (Wait m waiting.node waiting.note ∷ []) self.old }
    {
        self.notify.wait(m, waiting.node, waiting.note);
    }

    /// Takes out the first note that waits for a master.
    pub fn take_note(&mut self, k: usize) -> Option<Waiting>
        ensures first { result ≡ slice_get (waiting_in (notes_for k self.old.now.talk.notes)) 0 }
        ensures rest { self.new ≡ talked (map (take_of k) (option_to_list result)) self.old }
        ensures order { IsInOrder k self.old.now.talk.notes }
    {
        self.notify.take(k)
    }

    /// The master at a place is asked to suspend.
    pub fn ask(&mut self, m: usize, request: Pending)
        ensures { self.new ≡ talked (Ask m request ∷ []) self.old }
    {
        self.procs.ask(m, request);
    }

    /// Time passes for each request that is pending.
    pub fn lower(&mut self, count: u32)
        ensures { self.new ≡ talked (Lower count ∷ []) self.old }
    {
        self.procs.tick(count);
    }

    /// The master at a place forgets what it asked for, and what waits for it is lost.
    pub fn forget_notes(&mut self, m: usize)
        ensures { self.new ≡ talked (Forget m ∷ []) self.old }
    {
        self.notify.clear(m);
    }

    /// The master at a place is told of an event of a node from now on, or not any more.
    pub fn register(&mut self, m: usize, node: NodeId, event: NodeEvent, on: bool)
        ensures { self.new ≡ talked (changes.Notify m node event on ∷ []) self.old }
    {
        self.notify.put(m, node, event, on);
    }

    /// No request is pending any more, no master has asked to be told of anything, and nothing waits.
    pub fn renew_talk(&mut self)
        ensures { self.new ≡ talked (Renew ∷ []) self.old }
    {
        self.procs.end_all();
        self.notify.restart();
    }

    /// No master has asked to be told of anything any more. What waits stays.
    pub fn unwatch(&mut self)
        ensures { self.new ≡ talked (Unwatch ∷ []) self.old }
    {
        self.notify.forget();
    }
}
