//! What a master is told about a node, and what it can ask to be told.

ghost use Rattle.std.specs.Prelude.{◌≡◌};
ghost use Rattle.pm_notify.specs.Notes as spec;
ghost use Rattle.pm_notify.specs.Notes.{event_number, note_of};

use pm_base::NodeId;

/// What can happen to a node, of which a master can ask to be told (UG1200, PM_REGISTER_NOTIFIER).
#[derive(Clone, Copy, Debug, PartialEq, Eq)]
pub enum NodeEvent {
    /// Its value changed.
    Change,
    /// Its last user doesn't use it any more.
    ZeroUsers,
}

/// A note to a master about a node: the acknowledgement of a call, or that an event came.
#[derive(Clone, Copy, Debug, PartialEq, Eq)]
pub enum Note {
    Ack { status: u32 },
    Change,
    ZeroUsers,
}

/// A note that waits, and the node that it is about.
#[derive(Clone, Copy, Debug, PartialEq, Eq)]
pub struct Waiting {
    pub node: NodeId,
    pub note: Note,
}

impl NodeEvent {
    /// The event of a number: 1 a change, 2 no users any more.
    pub fn from_number(number: u32) -> Option<NodeEvent>
        ensures { result ≡ spec.event_of number }
    {
        match number {
            1 => Some(NodeEvent::Change),
            2 => Some(NodeEvent::ZeroUsers),
            _ => None,
        }
    }

    /// The number of an event, as messages have it.
    pub fn number(self) -> u32
        ensures { result ≡ event_number self }
    {
        match self {
            NodeEvent::Change => 1,
            NodeEvent::ZeroUsers => 2,
        }
    }

    /// The note that the event came.
    pub fn note(self) -> Note
        ensures { result ≡ note_of self }
    {
        match self {
            NodeEvent::Change => Note::Change,
            NodeEvent::ZeroUsers => Note::ZeroUsers,
        }
    }
}
