//! A device that fails at listed commands.

ghost use Rattle.std.specs.Prelude.{◌≡◌, ◌==◌, IfOk, [], is_ok, not};
ghost use Rattle.std.specs.List.{list_any};
ghost use Rattle.pm_base.specs.Faults.{HasCause};
ghost use Rattle.pm_base.specs.declared.names.Unit.{Unit as Part};
ghost use Rattle.pm_device.specs.Act.{Order, value_by};
ghost use Rattle.pm_device.specs.Fresh.{IsFresh};
ghost use Rattle.pm_device.specs.Listed.{listed_after, listed_moment, next_fails};

use crate::cells::is_there;
use crate::device::Device;
use crate::log::{Entry, Log};
use pm_base::{Command, Failed, NoMemory, NodeId, Unit};
use pm_topology::{Topology, UnitMap};
use std::alloc::Global;
use std::marker::Model;

/// A device in memory. It fails exactly the commands with listed numbers, counted from 1, and those
/// on units that the chip doesn't have. Its log has each act on it, in their order.
#[derive(Drop)]
pub struct ListedDevice {
    values: UnitMap<u32>,
    failing: Vec<u32>,
    commands: u64,
    faults: u64,
    log: Log,
}

impl Model for ListedDevice {
    ghost use Rattle.pm_device.specs.Listed.{Listed};

    ghost Value = { Listed };

    ghost view = { λ device. record {
      values = device.values;
      failing = device.failing.items;
      commands = device.commands;
      faults = device.faults;
      log = device.log.acts;
    } };
}

impl ListedDevice {
    /// The device of a chip, all of whose units stand at 0. It fails the commands with these
    /// numbers; a command after number `2^32 - 1` is none of them.
    ///
    /// # Errors
    ///
    /// `NoMemory` if there is not enough memory.
    pub fn new(alloc: Global, t: &Topology, failing: &[u32]) -> Result<ListedDevice, NoMemory>
        ensures fresh { IfOk result (λ device. IsFresh t.now (listed_moment device)) }
        ensures failing { IfOk result (λ device. device.failing ≡ failing.now) }
        ensures first { IfOk result (λ device. device.commands ≡ 0) }
        ensures log { IfOk result (λ device. device.log ≡ []) }
    {
        let values = UnitMap::load(alloc, t, 0)?;
        Ok(ListedDevice {
            values,
            failing: Vec::from_slice(alloc, failing).map_err(|_| NoMemory)?,
            commands: 0,
            faults: 0,
            log: Log::new(),
        })
    }

    /// The value of a unit, and 0 of an unknown one.
    pub fn value(&self, unit: Unit) -> u32
        ensures { result ≡ (listed_moment self.now).value unit }
    {
        self.values.get(unit).unwrap_or(0)
    }

    /// Carries a command out, or counts a fault.
    fn carry_out(&mut self, command: Command) -> Result<(), Failed>
        ensures answer { is_ok result ≡ not (next_fails self.old command.unit) }
        ensures after { self.new ≡ listed_after command (is_ok result) self.old }
        ensures cause { HasCause self.old.faults self.new.faults result }
        ensures values { (unit : Part) → (listed_moment self.new).value unit
            ≡ value_by (Order command (is_ok result)) (listed_moment self.old).value unit }
    {
        self.commands = self.commands.saturating_add(1);
        if is_listed(&self.failing, self.commands) || !is_there(&self.values, command.unit) {
            self.faults = self.faults.saturating_add(1);
            return Err(Failed);
        }
        self.values.set(command.unit, command.value);
        Ok(())
    }
}

impl Device for ListedDevice {
    ghost use Rattle.std.specs.Prelude.{⊤, IfErr};
    ghost use Rattle.pm_base.specs.Faults.{raised};
    ghost use Rattle.pm_device.specs.Act.{Fit, Order, Rig};
    ghost use Rattle.pm_device.specs.Listed.{ListedDoes, listed_by, listed_moment, next_fails};

    ghost values_observable = { ⊤ };

    ghost state = { listed_moment };

    ghost Does = { ListedDoes };

    ghost shows = { λ _ _ _ does. does.shows };

    /// Takes a command, or fails it if its number is listed or the unit isn't there, and counts it.
    fn command(&mut self, command: Command) -> Result<(), Failed>
        ensures cause { HasCause self.old.faults self.new.faults result }
        ensures does { ListedDoes (Order command (is_ok result)) self.old self.new }
        ensures listed { is_ok result ≡ not (next_fails self.old command.unit) }
        ensures number { self.new.commands ≡ raised self.old.commands }
        ensures failing { self.new.failing ≡ self.old.failing }
        ensures after { self.new ≡ listed_by (Order command (is_ok result)) self.old }
    {
        let result = self.carry_out(command);
        self.log.push(&Entry::Order(command, result.is_ok()));
        result
    }

    /// Logs that a node breaks or is mended: which commands fail is listed, so nothing else changes.
    fn rig(&mut self, node: NodeId, broken: bool)
        ensures does { ListedDoes (Rig node broken) self.old self.new }
        ensures after { self.new ≡ listed_by (Rig node broken) self.old }
    {
        self.log.push(&Entry::Rig(node, broken));
    }

    /// Gives the device the units of a topology, at 0. `NoMemory` leaves it as it is.
    fn fit(&mut self, alloc: Global, t: &Topology) -> Result<(), NoMemory>
        ensures does { IfOk result (λ _. ListedDoes (Fit t.now) self.old self.new) }
        ensures refused { IfErr result (λ _. self.new ≡ self.old) }
        ensures number { self.new.commands ≡ self.old.commands }
        ensures failing { self.new.failing ≡ self.old.failing }
        ensures after { IfOk result (λ _. self.new ≡ listed_by (Fit t.now) self.old) }
    {
        let values = UnitMap::load(alloc, t, 0)?;
        self.values = values;
        self.log.push_fit(t);
        Ok(())
    }
}

/// Whether a command of this number is to fail.
fn is_listed(failing: &[u32], number: u64) -> bool
    ensures { result ≡ list_any (λ listed. listed == number) failing.now }
{
    failing.iter().any(|listed| *listed as u64 == number)
}
