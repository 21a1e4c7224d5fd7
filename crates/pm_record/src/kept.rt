//! The record: the value that a device last took for each unit, and which units lag.

ghost use Rattle.std.specs.Prelude.{◌≡◌, ℕ, ◌<◌, ◌≤◌, ◌==◌, ◌&&◌, [], ◌∷◌, false, IfNone, IfOk, IfSome, length, slice_get, Some};
ghost use Rattle.pm_base.specs.declared.names.Unit.{Unit as Part};
ghost use Rattle.pm_base.specs.declared.names.Unit.TheVariants.{Line};
ghost use Rattle.pm_topology.specs.Places.{kind_of};
ghost use Rattle.pm_topology.specs.UnitMap.{units_in};
ghost use Rattle.pm_topology.specs.WellFormed.{IsWellFormed};
ghost use Rattle.pm_record.specs.Kinds.{is_power};
ghost use Rattle.pm_record.specs.Marks.{LagsNotAt, Marks, NoPowerLags, StandsElsewhere, pulsed};
ghost use Rattle.pm_record.specs.Record.{IsAtZero, IsRecordOf, after_answer, at_zero, kept_of, kept_value, lags_in, marked};

use crate::entries::{has_lagging, idle, keep, keep_at, kept_of};
use crate::kinds::Kinds;
use crate::laws::at_zero_is_a_record;
use crate::marks::{Wanted, mark_all, set_mark};
use crate::places::Places;
use pm_base::{Command, LineId, NoMemory, NodeId, Unit, with};
use pm_topology::{
    Kind, Topology, UnitMap, kinds_are_exact, unit_map_places, unit_maps, units_stand_in_order,
};
use std::alloc::Global;
use std::marker::Model;
use std::mem::swap;

/// The value that the device last took for a unit, and whether that differs from the book's.
#[derive(Clone, Copy, Debug, PartialEq, Eq)]
pub struct KeptValue {
    pub value: u32,
    pub lags: bool,
}

/// The value that a device last took for each unit. Contracts see the list of the units.
#[derive(Drop)]
pub struct Kept {
    values: UnitMap<KeptValue>,
    /// The places of the units that are marked.
    marked: Places,
    /// Room for the places of those that stay so after a step.
    spare: Places,
    /// Of which kind the units are.
    kinds: Kinds,
}

impl Model for Kept {
    ghost use Rattle.std.specs.Prelude.{List};
    ghost use Rattle.pm_base.specs.declared.names.Unit.{Unit};
    ghost use Rattle.pm_record.specs.declared.kept.KeptValue.{KeptValue};
    ghost use Rattle.pm_record.specs.Marks.{ListsMarks};

    ghost Value = { List (Unit × KeptValue) };

    ghost view = { λ kept. kept.values };

    ghost invariant = { λ kept. record {
      marks : ListsMarks kept.values kept.marked kept.spare;
    } };
}

impl Kept {
    /// The record of a device that took nothing yet: each unit of the chip stands at 0, and none lags.
    ///
    /// # Errors
    ///
    /// `NoMemory` if there is not enough memory.
    pub fn load(alloc: Global, t: &Topology) -> Result<Kept, NoMemory>
        ensures first { IfOk result (λ kept. kept ≡ at_zero t.now) }
        ensures record { IfOk result (IsRecordOf t.now) }
        ensures idle { IfOk result IsAtZero }
    {
        at_zero_is_a_record();
        let values = first_values(alloc, t)?;
        let parts = parts_of(alloc, &values, t);
        let (values, (marked, spare, kinds)) = with(values, parts)?;
        Ok(Kept {
            values,
            marked,
            spare,
            kinds,
        })
    }

    /// The value that the device last took for a unit, and 0 for a unit that isn't there.
    pub fn value(&self, unit: Unit) -> u32
        ensures { result ≡ kept_value self.now unit }
    {
        kept_of(&self.values, unit).value
    }

    /// Whether the value that the device last took for a unit wasn't the book's after the last step,
    /// and false for a unit that isn't there.
    pub fn lags(&self, unit: Unit) -> bool
        ensures { result ≡ lags_in self.now unit }
    {
        kept_of(&self.values, unit).lags
    }

    /// The place of the first unit from this one on that is marked, and the number of units if there is none. None
    /// that is marked stands before it.
    pub fn next_marked(&self, from: usize) -> usize
        requires { from ≤ length self.now }
        ensures from { from ≤ result }
        ensures end { result ≤ length self.now }
        ensures idle { (k : ℕ) → from ≤ k → k < result → LagsNotAt k self.now }
    {
        self.marked.next(from)
    }

    /// The place of the first unit behind this one that is marked, and the number of units if there is none. It is
    /// known at once where this place is the `i`-th of those that are marked, and is searched for else.
    #[inline(always)]
    pub fn next_behind(&self, i: usize, place: usize) -> usize
        requires { place < length self.now }
        ensures from { place < result }
        ensures end { result ≤ length self.now }
        ensures idle { (k : ℕ) → place < k → k < result → LagsNotAt k self.now }
    {
        self.marked.next_behind(i, place)
    }

    /// Whether some unit may be marked: none is where this is false.
    pub fn has_marks(&self) -> bool
        ensures { result ≡ false → (k : ℕ) → k < length self.now → LagsNotAt k self.now }
    {
        !self.marked.is_empty()
    }

    /// Whether some power node of a chip may be marked: none is where this is false. The units that are marked are looked at.
    pub fn has_power_marks(&self, t: &Topology) -> bool
        requires { IsWellFormed t.now }
        ensures { result ≡ false → NoPowerLags t.now self.now }
    {
        units_stand_in_order();
        kinds_are_exact();
        unit_maps::<KeptValue>();
        let places = self.marked.as_slice();
        for place in places {
            if self.has_power_at(*place, t) {
                return true;
            }
        }
        false
    }

    /// Whether there is a unit at a place, and it is a power node of a chip.
    fn has_power_at(&self, place: usize, t: &Topology) -> bool
        requires { IsWellFormed t.now }
        ensures { result ≡ false → (e : Part × KeptValue) → slice_get self.now place ≡ Some e
            → is_power t.now e.0 ≡ false }
    {
        match self.values.entry(place) {
            Some((unit, _)) => self.kinds.is_power(place, unit, t),
            None => false,
        }
    }

    /// The kind of a node of a chip, which is the unit at a place as a rule: it is searched for else.
    #[inline(always)]
    pub fn kind(&self, place: usize, node: NodeId, t: &Topology) -> Kind
        requires { IsWellFormed t.now }
        ensures { result ≡ kind_of t.now node }
    {
        self.kinds.kind(place, node, t)
    }

    /// The place of a unit that lags and has this value in the record. Nothing comes out for one that doesn't lag, or has
    /// another value.
    #[inline(always)]
    pub fn lagging(&self, unit: Unit, value: u32) -> Option<usize>
        ensures none { IfNone result ((lags_in self.now unit && (kept_value self.now unit == value)) ≡ false) }
        ensures there { IfSome result (λ place. slice_get (units_in self.now) place ≡ Some unit) }
        ensures value { IfSome result (λ _. kept_value self.now unit ≡ value) }
    {
        units_stand_in_order();
        let Some(place) = self.values.place(unit) else {
            return None;
        };
        let Some((_, kept)) = self.values.entry(place) else {
            return None;
        };
        if has_lagging(kept, value) {
            Some(place)
        } else {
            None
        }
    }

    /// The unit at a place and what is kept of it, if there is one.
    pub fn entry(&self, place: usize) -> Option<(Unit, KeptValue)>
        ensures { result ≡ slice_get self.now place }
    {
        self.values.entry(place)
    }

    /// Whether the unit at a place lags, and true past the last one.
    pub fn lags_at(&self, place: usize) -> bool
        ensures { result ≡ false → LagsNotAt place self.now }
    {
        match self.values.entry(place) {
            Some((_, kept)) => kept.lags,
            None => true,
        }
    }

    /// Marks these units, which may lag from now on.
    pub fn mark_moved(&mut self, units: &[Unit])
        ensures { Marks units.now self.old self.new }
    {
        units_stand_in_order();
        kinds_are_exact();
        unit_maps::<KeptValue>();
        for unit in units {
            self.mark_one(*unit);
        }
    }

    /// Marks each unit.
    #[inline(never)]
    pub fn mark_each(&mut self)
        ensures { Marks (units_in self.old) self.old self.new }
    {
        units_stand_in_order();
        kinds_are_exact();
        unit_maps::<KeptValue>();
        for place in 0..self.values.len() {
            self.mark_place(place);
        }
    }

    /// Marks the unit at a place, if there is one.
    fn mark_place(&mut self, place: usize)
        ensures { (e : Part × KeptValue) → slice_get self.old place ≡ Some e → Marks (e.0 ∷ []) self.old self.new }
    {
        if let Some((unit, _)) = self.values.entry(place) {
            self.mark_one(unit);
        }
    }

    /// Marks a reset line, if there is one.
    pub fn mark_pulsed(&mut self, line: Option<LineId>)
        ensures { Marks (pulsed line) self.old self.new }
    {
        if let Some(line) = line {
            self.mark_line(line);
        }
    }

    /// Marks a reset line. It stands apart, since few steps pulse one.
    #[inline(never)]
    fn mark_line(&mut self, line: LineId)
        ensures { Marks (Line line ∷ []) self.old self.new }
    {
        self.mark_one(Unit::Line(line));
    }

    /// Marks a unit, if the chip has it.
    #[inline(always)]
    fn mark_one(&mut self, unit: Unit)
        ensures { Marks (unit ∷ []) self.old self.new }
    {
        units_stand_in_order();
        kinds_are_exact();
        unit_maps::<KeptValue>();
        unit_map_places::<KeptValue>();
        let Some(place) = self.values.place(unit) else {
            return;
        };
        set_mark(&mut self.values, unit, place);
        self.marked.insert(place);
    }

    /// Takes down what a device answered to a command. The value before it comes out.
    pub fn log(&mut self, command: Command, ok: bool) -> u32
        ensures kept { self.new ≡ after_answer command ok self.old }
        ensures before { result ≡ kept_value self.old command.unit }
    {
        units_stand_in_order();
        kinds_are_exact();
        unit_maps::<KeptValue>();
        if !ok {
            return self.value(command.unit);
        }
        keep(&mut self.values, command)
    }

    /// Takes down what a device answered to a command on the unit at a place. The value before it comes out.
    #[inline(always)]
    pub fn log_at(&mut self, place: usize, command: Command, ok: bool) -> u32
        requires { slice_get (units_in self.old) place ≡ Some command.unit }
        ensures kept { self.new ≡ after_answer command ok self.old }
        ensures before { result ≡ kept_value self.old command.unit }
    {
        units_stand_in_order();
        kinds_are_exact();
        unit_maps::<KeptValue>();
        let _units = self.values.len();
        if !ok {
            return self.value(command.unit);
        }
        keep_at(&mut self.values, command, place)
    }

    /// Marks exactly the units whose value isn't the one that is wanted. Each unit that isn't marked has that value, and
    /// isn't looked at: where none is marked, nothing changes.
    pub fn mark<W: Wanted>(&mut self, wanted: &W)
        requires stands { StandsElsewhere (W.value wanted.now) self.old }
        requires known { (place : ℕ) (unit : Part) → slice_get (units_in self.old) place ≡ Some unit
            → W.IsAt wanted.now place unit }
        ensures { self.new ≡ marked (W.value wanted.now) self.old }
    {
        units_stand_in_order();
        let _units = self.values.len();
        if !self.has_marks() {
            return;
        }
        swap(&mut self.marked, &mut self.spare);
        self.marked.clear();
        mark_all(
            &mut self.values,
            self.spare.as_slice(),
            &mut self.marked,
            wanted,
        );
    }
}

/// The values at first: each unit of the chip stands at 0.
fn first_values(alloc: Global, t: &Topology) -> Result<UnitMap<KeptValue>, NoMemory>
    ensures { IfOk result (λ values. values ≡ at_zero t.now) }
{
    UnitMap::load(alloc, t, idle())
}

/// What is kept beside the values: the lists of the marked places, which are empty, and the kinds.
fn parts_of(
    alloc: Global,
    values: &UnitMap<KeptValue>,
    t: &Topology,
) -> Result<(Places, Places, Kinds), NoMemory>
    ensures marked { IfOk result (λ parts. parts.0 ≡ record { items = []; room = length values.now }) }
    ensures spare { IfOk result (λ parts. parts.1 ≡ record { items = []; room = length values.now }) }
{
    let end = values.len();
    let marked = Places::load(alloc, end)?;
    let spare = Places::load(alloc, end)?;
    let kinds = Kinds::load(alloc, values, t)?;
    Ok((marked, spare, kinds))
}
