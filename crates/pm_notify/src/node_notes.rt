//! What one master has asked for and what waits for it about one node.

ghost use Rattle.std.specs.Prelude.{◌≡◌, slice_get};
ghost use Rattle.pm_notify.specs.NodeNotes as spec;
ghost use Rattle.pm_notify.specs.NodeNotes.{asks, emptied, filled, no_notes, no_notifiers, no_slots, unasked, with_asked};

use crate::notes::{NodeEvent, Note};

/// The notifiers of a master on a node: of which events it is told.
#[derive(Clone, Copy, Debug, PartialEq, Eq)]
pub struct Notifiers {
    pub change: bool,
    pub zero_users: bool,
}

/// The notes that wait for a master about a node, one slot for each kind: the status of an
/// acknowledgement, whether the node changed, and whether it has no users any more.
#[derive(Clone, Copy, Debug, PartialEq, Eq)]
pub struct Slots {
    pub ack: Option<u32>,
    pub change: bool,
    pub zero_users: bool,
}

/// The notifiers and the slots of a master about a node.
#[derive(Clone, Copy, Debug, PartialEq, Eq)]
pub struct NodeNotes {
    pub notifiers: Notifiers,
    pub slots: Slots,
}

impl Notifiers {
    /// No event is asked for.
    pub fn none() -> Notifiers
        ensures { result ≡ no_notifiers }
    {
        Notifiers {
            change: false,
            zero_users: false,
        }
    }

    /// Whether the event is asked for.
    pub fn asks(self, event: NodeEvent) -> bool
        ensures { result ≡ asks event self }
    {
        match event {
            NodeEvent::Change => self.change,
            NodeEvent::ZeroUsers => self.zero_users,
        }
    }

    /// The notifiers with that of an event on or off.
    pub fn with_asked(self, event: NodeEvent, on: bool) -> Notifiers
        ensures { result ≡ with_asked event on self }
    {
        match event {
            NodeEvent::Change => Notifiers { change: on, ..self },
            NodeEvent::ZeroUsers => Notifiers {
                zero_users: on,
                ..self
            },
        }
    }
}

impl Slots {
    /// Nothing waits.
    pub fn none() -> Slots
        ensures { result ≡ no_slots }
    {
        Slots {
            ack: None,
            change: false,
            zero_users: false,
        }
    }

    /// The slots with a note in that of its kind, in place of what was there.
    pub fn filled(self, note: Note) -> Slots
        ensures { result ≡ filled note self }
    {
        match note {
            Note::Ack { status } => Slots {
                ack: Some(status),
                ..self
            },
            Note::Change => Slots {
                change: true,
                ..self
            },
            Note::ZeroUsers => Slots {
                zero_users: true,
                ..self
            },
        }
    }

    /// The slots with nothing in that of the note's kind.
    pub fn emptied(self, note: Note) -> Slots
        ensures { result ≡ emptied note self }
    {
        match note {
            Note::Ack { .. } => Slots { ack: None, ..self },
            Note::Change => Slots {
                change: false,
                ..self
            },
            Note::ZeroUsers => Slots {
                zero_users: false,
                ..self
            },
        }
    }

    /// The first note that waits, by its kind.
    pub fn first(self) -> Option<Note>
        ensures { result ≡ slice_get (spec.notes_in self) 0 }
    {
        if let Some(status) = self.ack {
            Some(Note::Ack { status })
        } else if self.change {
            Some(Note::Change)
        } else if self.zero_users {
            Some(Note::ZeroUsers)
        } else {
            None
        }
    }
}

impl NodeNotes {
    /// No event is asked for, and nothing waits.
    pub fn none() -> NodeNotes
        ensures { result ≡ no_notes }
    {
        NodeNotes {
            notifiers: Notifiers::none(),
            slots: Slots::none(),
        }
    }

    /// Nothing is asked for any more, and what waits stays.
    pub fn unasked(self) -> NodeNotes
        ensures { result ≡ unasked self }
    {
        NodeNotes {
            notifiers: Notifiers::none(),
            ..self
        }
    }
}
