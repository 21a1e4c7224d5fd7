//! What one master has asked for and what waits for it, about each node of a chip.

ghost use Rattle.std.specs.Prelude.{◌≡◌, [], IfOk, slice_get, true, false};
ghost use Rattle.pm_topology.specs.UnitMap.{all_at, units_in};
ghost use Rattle.pm_topology.specs.Units.{rises, units_of};
ghost use Rattle.pm_notify.specs.MasterNotes as spec;
ghost use Rattle.pm_notify.specs.MasterNotes.{asks_about, forgotten, notes_at, waiting_about, waiting_in, with_note, with_notes, with_notifier, without_note, without_notifiers};
ghost use Rattle.pm_notify.specs.NodeNotes.{no_notes};

use crate::node_notes::{NodeNotes, Slots};
use crate::notes::{NodeEvent, Note, Waiting};
use pm_base::{NoMemory, NodeId, Unit};
use pm_topology::{Topology, UnitMap, unit_map_places};
use std::alloc::Global;
use std::marker::Model;

/// What a master has asked for and what waits for it about each unit of a chip, in the order of units.
/// About a reset line nothing is ever asked for, and nothing waits. Beside it stands whether a note may wait, so that a
/// master for which none does is seen at once, and whether anything was kept since all was forgotten: if nothing was, no
/// unit is looked at to forget it.
#[derive(Drop)]
pub struct MasterNotes {
    notes: UnitMap<NodeNotes>,
    may_wait: bool,
    may_hold: bool,
}

impl Model for MasterNotes {
    ghost use Rattle.std.specs.Prelude.{◌≡◌, [], List, false};
    ghost use Rattle.pm_base.specs.declared.names.Unit.{Unit};
    ghost use Rattle.pm_notify.specs.declared.node_notes.NodeNotes.{NodeNotes};
    ghost use Rattle.pm_notify.specs.MasterNotes.{forgotten, waiting_in};

    ghost Value = { List (Unit × NodeNotes) };

    ghost view = { λ master_notes. master_notes.notes };

    ghost invariant = { λ master_notes. (master_notes.may_wait ≡ false → waiting_in master_notes.notes ≡ [])
        × (master_notes.may_hold ≡ false → forgotten master_notes.notes ≡ master_notes.notes) };
}

impl MasterNotes {
    /// A master that has asked for nothing and for which nothing waits, about each unit of the chip.
    ///
    /// # Errors
    ///
    /// `NoMemory` if there is not enough memory.
    pub fn load(alloc: Global, t: &Topology) -> Result<MasterNotes, NoMemory>
        ensures { IfOk result (λ notes. notes ≡ all_at no_notes (units_of t.now)) }
    {
        let notes = UnitMap::load(alloc, t, NodeNotes::none())?;
        Ok(MasterNotes {
            notes,
            may_wait: false,
            may_hold: false,
        })
    }

    /// What was asked for and what waits about a node: nothing if the chip doesn't have it.
    fn about(&self, node: NodeId) -> NodeNotes
        ensures { result ≡ notes_at node self.now }
    {
        self.notes
            .get(Unit::Node(node))
            .unwrap_or(NodeNotes::none())
    }

    /// Keeps this about a node. Nothing changes if the chip doesn't have it.
    fn set(&mut self, node: NodeId, notes: NodeNotes)
        ensures { self.new ≡ with_notes node notes self.old }
    {
        self.notes.set(Unit::Node(node), notes);
        self.may_wait = true;
        self.may_hold = true;
    }

    /// Whether an event of a node is asked for.
    pub fn asks(&self, node: NodeId, event: NodeEvent) -> bool
        ensures { result ≡ asks_about node event self.now }
    {
        self.about(node).notifiers.asks(event)
    }

    /// An event of a node is asked for from now on, or isn't any more.
    pub fn put(&mut self, node: NodeId, event: NodeEvent, on: bool)
        ensures { self.new ≡ with_notifier node event on self.old }
    {
        let notes = self.about(node);
        self.set(
            node,
            NodeNotes {
                notifiers: notes.notifiers.with_asked(event, on),
                slots: notes.slots,
            },
        );
    }

    /// A note about a node waits from now on, in the slot of its kind.
    pub fn wait(&mut self, node: NodeId, note: Note)
        ensures { self.new ≡ with_note node note self.old }
    {
        let notes = self.about(node);
        self.set(
            node,
            NodeNotes {
                notifiers: notes.notifiers,
                slots: notes.slots.filled(note),
            },
        );
    }

    /// No note of this one's kind waits about a node any more.
    pub fn drop_note(&mut self, node: NodeId, note: Note)
        ensures { self.new ≡ without_note node note self.old }
    {
        let notes = self.about(node);
        self.set(
            node,
            NodeNotes {
                notifiers: notes.notifiers,
                slots: notes.slots.emptied(note),
            },
        );
    }

    /// The first note that waits: by the number of its node, and then by its kind. No unit is looked at if none was
    /// found before, and nothing was kept since.
    pub fn first(&mut self) -> Option<Waiting>
        ensures first { result ≡ slice_get (waiting_in self.old) 0 }
        ensures rising { rises (units_in self.old) ≡ true }
        ensures notes { self.new ≡ self.old }
    {
        let first = first_in(&self.notes, self.may_wait);
        self.may_wait = first.is_some();
        first
    }

    /// Nothing is asked for any more, and nothing waits.
    pub fn clear(&mut self)
        ensures { self.new ≡ forgotten self.old }
    {
        clear_if(&mut self.notes, self.may_hold);
        self.may_wait = false;
        self.may_hold = false;
    }

    /// Nothing is asked for any more, and what waits stays.
    pub fn forget(&mut self)
        ensures { self.new ≡ without_notifiers self.old }
    {
        drop_notifiers_if(&mut self.notes, self.may_hold);
        self.may_wait = true;
    }
}

/// The first note that waits about a unit.
fn first_about(unit: Unit, slots: Slots) -> Option<Waiting>
    ensures { result ≡ slice_get (waiting_about unit slots) 0 }
{
    match unit {
        Unit::Node(node) => match slots.first() {
            Some(note) => Some(Waiting { node, note }),
            None => None,
        },
        Unit::Line(_) => None,
    }
}

/// The first note that waits about the unit at a place.
fn first_waiting_at(notes: &UnitMap<NodeNotes>, place: usize) -> Option<Waiting>
    ensures { result ≡ spec.first_waiting_at notes.now place }
{
    match notes.entry(place) {
        Some((unit, notes)) => first_about(unit, notes.slots),
        None => None,
    }
}

/// The first note that waits about any unit, in the order of units, if any may.
fn first_in(notes: &UnitMap<NodeNotes>, may_wait: bool) -> Option<Waiting>
    requires none { may_wait ≡ false → waiting_in notes.now ≡ [] }
    ensures first { result ≡ slice_get (waiting_in notes.now) 0 }
    ensures rising { rises (units_in notes.now) ≡ true }
{
    let units = notes.len();
    if !may_wait {
        return None;
    }
    for place in 0..units {
        if let Some(waiting) = first_waiting_at(notes, place) {
            return Some(waiting);
        }
    }
    None
}

/// About each unit nothing is asked for any more, and nothing waits. No unit is looked at if nothing is held.
fn clear_if(notes: &mut UnitMap<NodeNotes>, may_hold: bool)
    requires { may_hold ≡ false → forgotten notes.old ≡ notes.old }
    ensures { notes.new ≡ forgotten notes.old }
{
    if may_hold {
        clear_all(notes);
    }
}

/// About each unit nothing is asked for any more, and nothing waits.
fn clear_all(notes: &mut UnitMap<NodeNotes>)
    ensures { notes.new ≡ forgotten notes.old }
{
    unit_map_places::<NodeNotes>();
    for place in 0..notes.len() {
        notes.set_at(place, NodeNotes::none());
    }
}

/// About each unit nothing is asked for any more, and what waits stays. No unit is looked at if nothing is held.
fn drop_notifiers_if(notes: &mut UnitMap<NodeNotes>, may_hold: bool)
    requires { may_hold ≡ false → forgotten notes.old ≡ notes.old }
    ensures { notes.new ≡ without_notifiers notes.old }
{
    if may_hold {
        drop_notifiers(notes);
    }
}

/// About each unit nothing is asked for any more, and what waits stays.
fn drop_notifiers(notes: &mut UnitMap<NodeNotes>)
    ensures { notes.new ≡ without_notifiers notes.old }
{
    unit_map_places::<NodeNotes>();
    for place in 0..notes.len() {
        if let Some((_, of_node)) = notes.entry(place) {
            notes.set_at(place, of_node.unasked());
        }
    }
}
