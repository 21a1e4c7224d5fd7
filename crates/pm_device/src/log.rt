//! The acts on a device in memory. They exist only in proofs: a log takes no memory, and its methods
//! do nothing at run time.

ghost use Rattle.std.specs.Prelude.{◌≡◌, List, [], ◌∷◌, ◌++◌};
ghost use Rattle.std.specs.Borrow.{ftrue};
ghost use Rattle.pm_device.specs.Act.{Act, Fit};

use pm_base::{Command, NodeId};
use pm_topology::Topology;
use std::marker::Model;

/// An order, and whether it was carried out; or a node that is broken, or mended if the flag is false.
#[derive(Clone, Copy)]
pub(crate) enum Entry {
    Order(Command, bool),
    Rig(NodeId, bool),
}

/// The acts since a device was new, in their order.
#[derive(Drop)]
pub struct Log {
    pub ghost acts: { List Act },
}

impl Model for Log {
    ghost also_owns = { λ _. ftrue };
}

impl Log {
    ghost use Rattle.pm_device.specs.Logged.{act_of};

    /// The log of a new device.
    pub(crate) fn new() -> Log
        ensures { result.acts ≡ [] }
    {
        Log {}
    }

    /// Adds an act at the end.
    pub(crate) fn push(&mut self, _entry: &Entry)
        ensures { self.new.acts ≡ self.old.acts ++ act_of _entry.now ∷ [] }
    {}

    /// Adds a fit to a chip at the end.
    pub(crate) fn push_fit(&mut self, _chip: &Topology)
        ensures { self.new.acts ≡ self.old.acts ++ Fit _chip.now ∷ [] }
    {}
}
