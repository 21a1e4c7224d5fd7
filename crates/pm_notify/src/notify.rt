//! What all masters have asked for and what waits for each of them.

ghost use Rattle.std.specs.Prelude.{◌≡◌, IfOk, false, map};
ghost use Rattle.pm_notify.specs.MasterNotes.{forgotten, without_notifiers};
ghost use Rattle.pm_notify.specs.Notify.{IsInOrder, NoneAsks, all_forgotten, asks_of, dropped, first_for, loaded, none_asked, noted, registered, taken_out, without_notes};

use crate::laws::{none_asks_after_all_forget, notifiers_are_kept};
use crate::master_notes::MasterNotes;
use crate::notes::{NodeEvent, Note, Waiting};
use pm_base::{NoMemory, NodeId};
use pm_topology::Topology;
use std::alloc::Global;
use std::marker::Model;

/// For each master by its place in the object, and for each node of the chip, of which events the master
/// asked to be told (UG1200, PM_REGISTER_NOTIFIER), and the notes that wait for it until it wakes, in one slot
/// for each kind.
///
/// About a node that the chip doesn't have, and for a master that isn't there, nothing is asked for and
/// nothing waits. Beside the notes stands whether any master may have asked for anything, so that if none has, that
/// is seen at once.
#[derive(Drop)]
pub struct Notify {
    notes: Vec<MasterNotes>,
    may_ask: bool,
}

impl Model for Notify {
    ghost use Rattle.std.specs.Prelude.{◌≡◌, List, false};
    ghost use Rattle.pm_base.specs.declared.names.Unit.{Unit};
    ghost use Rattle.pm_notify.specs.declared.node_notes.NodeNotes.{NodeNotes};
    ghost use Rattle.pm_notify.specs.Notify.{NoneAsks};

    ghost Value = { List (List (Unit × NodeNotes)) };

    ghost view = { λ notify. notify.notes.items };

    ghost invariant = { λ notify. (notify.may_ask ≡ false → NoneAsks notify.notes.items) };
}

impl Notify {
    /// This many masters that have asked for nothing and for which nothing waits. No later call takes
    /// memory.
    ///
    /// # Errors
    ///
    /// `NoMemory` if there is not enough memory.
    pub fn load(alloc: Global, t: &Topology, masters: usize) -> Result<Notify, NoMemory>
        ensures { IfOk result (λ notify. notify ≡ loaded t.now masters) }
    {
        notifiers_are_kept();
        let notes = notes_of_none(alloc, t, masters)?;
        Ok(Notify {
            notes,
            may_ask: false,
        })
    }

    /// Whether any master may have asked to be told of anything.
    pub fn may_ask(&self) -> bool
        ensures { result ≡ false → NoneAsks self.now }
    {
        self.may_ask
    }

    /// Whether a master has asked to be told of an event of a node.
    pub fn asked(&self, m: usize, n: NodeId, event: NodeEvent) -> bool
        ensures { result ≡ asks_of m n event self.now }
    {
        match self.notes.get(m) {
            Some(notes) => notes.asks(n, event),
            None => false,
        }
    }

    /// A master is told of an event of a node from now on, or isn't any more. Nothing changes if the
    /// master or the node isn't there.
    pub fn put(&mut self, m: usize, n: NodeId, event: NodeEvent, on: bool)
        ensures { self.new ≡ registered m n event on self.old }
    {
        if m < self.notes.len() {
            self.notes[m].put(n, event, on);
            self.may_ask = true;
        }
    }

    /// A note about a node waits for a master from now on, in the slot of that master, node and kind: what
    /// waited there is replaced. Nothing changes if the master or the node isn't there.
    pub fn wait(&mut self, m: usize, n: NodeId, note: Note)
        ensures { self.new ≡ noted m n note self.old }
    {
        notifiers_are_kept();
        if m < self.notes.len() {
            self.notes[m].wait(n, note);
        }
    }

    /// Takes out the first note that waits for a master: by the number of its node, and then an
    /// acknowledgement before a change before no users any more. `None` if nothing waits. It looks
    /// at most once at each unit in the notes of this master, and in no other notes.
    pub fn take(&mut self, m: usize) -> Option<Waiting>
        ensures first { result ≡ first_for m self.old }
        ensures rest { self.new ≡ taken_out m result self.old }
        ensures order { IsInOrder m self.old }
    {
        let first = self.first(m);
        if let Some(waiting) = first {
            self.drop_note(m, waiting.node, waiting.note);
        }
        first
    }

    /// The first note that waits for a master.
    fn first(&mut self, m: usize) -> Option<Waiting>
        ensures first { result ≡ first_for m self.old }
        ensures order { IsInOrder m self.old }
        ensures notes { self.new ≡ self.old }
    {
        if m < self.notes.len() {
            self.notes[m].first()
        } else {
            None
        }
    }

    /// No note of this one's kind waits for a master about a node any more.
    fn drop_note(&mut self, m: usize, n: NodeId, note: Note)
        ensures { self.new ≡ dropped m n note self.old }
    {
        notifiers_are_kept();
        if m < self.notes.len() {
            self.notes[m].drop_note(n, note);
        }
    }

    /// Each master forgets what it asked for, and what waits for it is lost: all is as at load.
    pub fn restart(&mut self)
        ensures { self.new ≡ all_forgotten self.old }
    {
        none_asks_after_all_forget();
        clear_notes(&mut self.notes);
        self.may_ask = false;
    }

    /// No master is told of any event of a node any more. What waits in the slots stays.
    pub fn forget(&mut self)
        ensures { self.new ≡ none_asked self.old }
    {
        notifiers_are_kept();
        forget_notes(&mut self.notes);
        self.may_ask = false;
    }

    /// A master forgets what it asked for, and what waits for it is lost.
    pub fn clear(&mut self, m: usize)
        ensures { self.new ≡ without_notes m self.old }
    {
        notifiers_are_kept();
        if m < self.notes.len() {
            self.notes[m].clear();
        }
    }
}

/// The notes of this many masters: each has asked for nothing, and nothing waits for it.
fn notes_of_none(alloc: Global, t: &Topology, masters: usize) -> Result<Vec<MasterNotes>, NoMemory>
    ensures { IfOk result (λ notes. notes.items ≡ loaded t.now masters) }
{
    let mut notes = Vec::new(alloc);
    for _master in 0..masters {
        let master_notes = MasterNotes::load(alloc, t)?;
        notes.push(master_notes).map_err(|_| NoMemory)?;
    }
    Ok(notes)
}

/// Each of these masters has asked for nothing, and nothing waits for it.
fn clear_notes(notes: &mut [MasterNotes])
    ensures { notes.new ≡ map forgotten notes.old }
{
    for master_notes in notes.iter_mut() {
        master_notes.clear();
    }
}

/// Each of these masters has asked for nothing any more, and what waits for it stays.
fn forget_notes(notes: &mut [MasterNotes])
    ensures { notes.new ≡ map without_notifiers notes.old }
{
    for master_notes in notes.iter_mut() {
        master_notes.forget();
    }
}
