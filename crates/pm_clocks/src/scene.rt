//! The part of a book that clocks read.

ghost use Rattle.std.specs.Prelude.{◌≡◌};
ghost use Rattle.pm_clocks.specs.Clocked.{is_slave};

use pm_base::{Mode, NodeId, Unit};
use pm_clock_tree::Scene;
use pm_core::Book;
use pm_procs::same_mode;
use pm_topology::Kind;

/// A book as the clocks read it.
#[derive(Drop)]
pub(crate) struct BookScene<'b> {
    pub(crate) book: &'b Book,
}

impl<'b> Scene for BookScene<'b> {
    ghost use Rattle.pm_clocks.specs.Clocked.{view_of};

    ghost seen = { λ scene. view_of scene.book.now };

    /// Whether a master is off in the book.
    fn is_off(&self, master: NodeId) -> bool {
        same_mode(self.book.master_mode(master), Mode::Off)
    }

    /// Whether the object in force lets a master use a slave: the master then has a row on it.
    fn may_use(&self, master: NodeId, slave: NodeId) -> bool {
        self.book.row(master, slave).is_some()
    }

    /// Whether a node is a slave in a state other than 0.
    fn is_on(&self, slave: NodeId) -> bool {
        is_slave(self.book.topology().kind(slave)) && self.book.value(Unit::Node(slave)) != 0
    }
}

/// Whether a node is a slave.
fn is_slave(kind: Kind) -> bool
    ensures { result ≡ is_slave kind }
{
    matches!(kind, Kind::Slave(_))
}
