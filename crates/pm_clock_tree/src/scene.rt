//! What clocks look at in a book.

ghost use Rattle.std.specs.Prelude.{◌≡◌};
ghost use Rattle.pm_clock_tree.specs.Tree.{Seen};

use pm_base::NodeId;

/// What clocks look at in a book: its masters and its slaves as they stand. Its meaning says what is seen.
pub trait Scene {
    ghost seen: { Self → Seen };

    /// Whether the master with a number is off.
    fn is_off(&self, master: NodeId) -> bool
        ensures { result ≡ (seen self.now).is_off master };

    /// Whether the object in force lets a master use a slave.
    fn may_use(&self, master: NodeId, slave: NodeId) -> bool
        ensures { result ≡ (seen self.now).may_use master slave };

    /// Whether a slave of the chip stands in a state other than 0.
    fn is_on(&self, slave: NodeId) -> bool
        ensures { result ≡ (seen self.now).is_on slave };
}
