//! The trait of devices.

use pm_base::{Command, Failed, NoMemory, NodeId};
use pm_topology::Topology;
use std::alloc::Global;

/// A device of units: nodes and reset lines. What it shows, if it does: the value of each unit,
/// and the units that it has with the list of its broken nodes in rising order.
pub trait Device {
    ghost use Rattle.std.specs.Prelude.{◌≡◌, IfErr, IfOk, is_ok};
    ghost use Rattle.pm_base.specs.Faults.{HasCause};
    ghost use Rattle.pm_base.specs.declared.names.Unit.{Unit};
    ghost use Rattle.pm_device.specs.Act.{Act, Fit, Order, Rig, Shows};
    ghost use Rattle.pm_device.specs.Device.{DeviceMoment};

    /// Whether its values are observable.
    ghost values_observable: { Type 0 } = { ⊥ };

    /// Whether the units that it has and its broken nodes are observable.
    ghost nodes_observable: { Type 0 } = { ⊥ };

    /// What it shows at a moment, and how often an order was refused. The count is a `u64` that never
    /// falls and stands still at its last value.
    ghost state: { Self → DeviceMoment };

    /// One act leads from a device to a device. Generic code knows no way to it but `command`, `rig` and
    /// `fit`, so who shows a chain of these has done just these acts, in this order, and nothing else.
    ghost Does: { Act → Self → Self → Type 0 };

    /// Sets a unit to a value.
    ///
    /// # Errors
    ///
    /// `Failed` only if the count of faults rose. No value changed. A device whose broken nodes are
    /// observable fails exactly at those, and at units that it doesn't have.
    fn command(&mut self, command: Command) -> Result<(), Failed>
        ensures cause { HasCause (state self.old).faults (state self.new).faults result }
        ensures does { Does (Order command (is_ok result)) self.old self.new };

    /// Breaks or mends a node. Nothing changes for a node that the device doesn't have.
    fn rig(&mut self, node: NodeId, broken: bool)
        ensures does { Does (Rig node broken) self.old self.new };

    /// Gives the device the units of a chip: it then has exactly these, each stands at 0, and none is broken. Before,
    /// it stands at 0 if its values are observable. The count of faults stays.
    ///
    /// # Errors
    ///
    /// `NoMemory` if there is not enough memory. Nothing changed.
    fn fit(&mut self, alloc: Global, t: &Topology) -> Result<(), NoMemory>
        requires idle { values_observable → (unit : Unit) → (state self.old).value unit ≡ 0 }
        ensures does { IfOk result (λ _. Does (Fit t.now) self.old self.new) }
        ensures refused { IfErr result (λ _. self.new ≡ self.old) };

    /// What an act leads to is what it shows.
    ghost shows: { (act : Act) (old new : Self) → Does act old new
        → Shows values_observable nodes_observable act (state old) (state new) };
}
