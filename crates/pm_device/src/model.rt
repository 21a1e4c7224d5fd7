//! A device that fails on broken nodes.

ghost use Rattle.std.specs.Prelude.{◌≡◌, ◌||◌, IfOk, [], is_ok, not, true, false};
ghost use Rattle.pm_base.specs.Faults.{HasCause};
ghost use Rattle.pm_base.specs.declared.names.Unit.{Unit as Part};
ghost use Rattle.pm_device.specs.Act.{Order, Rig, broken_by, value_by};
ghost use Rattle.pm_device.specs.Cells.{broken_of, is_broken_cell, is_there};
ghost use Rattle.pm_device.specs.Device.{fails, is_broken, rises};
ghost use Rattle.pm_device.specs.Fresh.{IsFresh, IsWhole};
ghost use Rattle.pm_device.specs.Model.{bench_after, bench_rigged, does_fail, moment_of};

use crate::cells::{self, Cell};
use crate::device::Device;
use crate::log::{Entry, Log};
use pm_base::{Command, Failed, NoMemory, NodeId, Unit};
use pm_topology::{Topology, UnitMap};
use std::alloc::Global;
use std::marker::Model;

/// A device in memory. It fails exactly on nodes that were broken by `rig`, and on units that the
/// chip doesn't have. Its log has each act on it, in their order.
#[derive(Drop)]
pub struct ModelDevice {
    cells: UnitMap<Cell>,
    faults: u64,
    log: Log,
}

impl Model for ModelDevice {
    ghost use Rattle.pm_device.specs.Model.{Bench};

    ghost Value = { Bench };

    ghost view = { λ device. record { cells = device.cells; faults = device.faults; log = device.log.acts } };
}

impl ModelDevice {
    /// The device of a chip. All its units stand at 0, nothing is broken, and it refuses no order on
    /// a unit of the chip until a node is broken.
    ///
    /// # Errors
    ///
    /// `NoMemory` if there is not enough memory.
    pub fn new(alloc: Global, t: &Topology) -> Result<ModelDevice, NoMemory>
        ensures fresh { IfOk result (λ device. IsFresh t.now (moment_of device)) }
        ensures whole { IfOk result (λ device. IsWhole t.now (moment_of device)) }
        ensures log { IfOk result (λ device. device.log ≡ []) }
    {
        let cells = cells::idle_cells(alloc, t)?;
        Ok(ModelDevice {
            cells,
            faults: 0,
            log: Log::new(),
        })
    }

    /// The value of a unit, and 0 of an unknown one.
    pub fn value(&self, unit: Unit) -> u32
        ensures { result ≡ (moment_of self.now).value unit }
    {
        cells::cell_of(&self.cells, unit).value
    }

    /// Carries a command out, or counts a fault.
    fn carry_out(&mut self, command: Command) -> Result<(), Failed>
        ensures answer { is_ok result ≡ not (does_fail self.old command.unit) }
        ensures after { self.new ≡ bench_after command (is_ok result) self.old }
        ensures cause { HasCause self.old.faults self.new.faults result }
        ensures values { (unit : Part) → (moment_of self.new).value unit
            ≡ value_by (Order command (is_ok result)) (moment_of self.old).value unit }
        ensures units { (unit : Part) → (moment_of self.new).has unit ≡ (moment_of self.old).has unit }
        ensures broken { broken_of self.new.cells ≡ broken_of self.old.cells }
        ensures listed { does_fail self.old command.unit ≡ fails (moment_of self.old) command.unit }
        ensures rising { rises (broken_of self.old.cells) ≡ true }
    {
        if !cells::set_value(&mut self.cells, command.unit, command.value) {
            self.faults = self.faults.saturating_add(1);
            return Err(Failed);
        }
        Ok(())
    }

    /// Breaks or mends a node.
    fn set_broken(&mut self, node: NodeId, broken: bool)
        ensures after { self.new ≡ bench_rigged node broken self.old }
        ensures values { (unit : Part) → (moment_of self.new).value unit ≡ (moment_of self.old).value unit }
        ensures units { (unit : Part) → (moment_of self.new).has unit ≡ (moment_of self.old).has unit }
        ensures broken { broken_of self.new.cells ≡ broken_by (Rig node broken) (moment_of self.old) }
        ensures rising { rises (broken_of self.new.cells) ≡ true }
    {
        cells::set_broken(&mut self.cells, node, broken);
    }
}

impl Device for ModelDevice {
    ghost use Rattle.std.specs.Prelude.{⊤, IfErr};
    ghost use Rattle.pm_device.specs.Act.{Fit, Order, Rig};
    ghost use Rattle.pm_device.specs.Model.{BenchDoes, bench_by, does_fail, moment_of};

    ghost values_observable = { ⊤ };

    ghost nodes_observable = { ⊤ };

    ghost state = { moment_of };

    ghost Does = { BenchDoes };

    ghost shows = { λ _ _ _ does. does.shows };

    /// Takes a command, or fails it if the unit isn't there or is broken.
    fn command(&mut self, command: Command) -> Result<(), Failed>
        ensures cause { HasCause self.old.faults self.new.faults result }
        ensures does { BenchDoes (Order command (is_ok result)) self.old self.new }
        ensures answer { is_ok result ≡ not (does_fail self.old command.unit) }
        ensures after { self.new ≡ bench_by (Order command (is_ok result)) self.old }
    {
        let result = self.carry_out(command);
        self.log.push(&Entry::Order(command, result.is_ok()));
        result
    }

    /// Breaks a node, or mends it.
    fn rig(&mut self, node: NodeId, broken: bool)
        ensures does { BenchDoes (Rig node broken) self.old self.new }
        ensures after { self.new ≡ bench_by (Rig node broken) self.old }
    {
        self.set_broken(node, broken);
        self.log.push(&Entry::Rig(node, broken));
    }

    /// Gives the device the units of a topology, at 0 and whole. `NoMemory` leaves it as it is.
    fn fit(&mut self, alloc: Global, t: &Topology) -> Result<(), NoMemory>
        ensures does { IfOk result (λ _. BenchDoes (Fit t.now) self.old self.new) }
        ensures refused { IfErr result (λ _. self.new ≡ self.old) }
        ensures after { IfOk result (λ _. self.new ≡ bench_by (Fit t.now) self.old) }
    {
        let cells = cells::idle_cells(alloc, t)?;
        self.cells = cells;
        self.log.push_fit(t);
        Ok(())
    }
}
