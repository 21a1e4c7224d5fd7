//! The devices of runs.

ghost use Rattle.std.specs.Prelude.{◌≡◌, IfOk};
ghost use Rattle.pm_base.specs.declared.names.Unit.{Unit};
ghost use Rattle.pm_device.specs.Listed.{listed_moment};
ghost use Rattle.pm_device.specs.Model.{moment_of};

use pm_base::{NoMemory, NodeId, Unit};
use pm_chip::zynqmp;
use pm_device::{ListedDevice, ModelDevice};
use pm_topology::Topology;
use std::alloc::Global;

/// Puts a large value into a box. Its holder then drops one box at each exit, and not each field of the value.
/// Without enough memory the value is dropped here, where its type is generic: that costs less to prove.
fn boxed<T: Drop>(alloc: Global, value: T) -> Result<Box<T>, NoMemory>
    ensures { IfOk result (λ held. held.value ≡ value) }
{
    Box::new(alloc, value).map_err(|_| NoMemory)
}

/// The chip's topology, without a contract: the tests need none.
fn chip(alloc: Global) -> Result<Box<Topology>, NoMemory> {
    boxed(alloc, zynqmp(alloc)?)
}

/// A device that doesn't fail, with all units at 0.
pub fn model(alloc: Global) -> Result<Box<ModelDevice>, NoMemory>
    ensures { IfOk result (λ device. (unit : Unit) → (moment_of device.value).value unit ≡ 0) }
{
    let chip = chip(alloc)?;
    boxed(alloc, ModelDevice::new(alloc, &chip)?)
}

/// A device that fails the commands with these numbers, with all units at 0.
pub fn listed(alloc: Global, failing: &[u32]) -> Result<Box<ListedDevice>, NoMemory>
    ensures { IfOk result (λ device. (unit : Unit) → (listed_moment device.value).value unit ≡ 0) }
{
    let chip = chip(alloc)?;
    boxed(alloc, ListedDevice::new(alloc, &chip, failing)?)
}

/// A node as a unit.
pub fn node(number: u32) -> Unit {
    Unit::Node(NodeId(number))
}
