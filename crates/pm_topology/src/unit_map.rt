//! A table of units.

ghost use Rattle.std.specs.Prelude.{◌≡◌, ◌&&◌, ◌++◌, ◌∷◌, [], length, slice_get, true, false, if◌then◌else◌, is_some, Some, None, IfOk, IfSome, OnOk};
ghost use Rattle.pm_base.specs.declared.names.Unit.{Unit as Part};
ghost use Rattle.pm_topology.specs.UnitMap.{AreNodePlaces, Sets, all_at, place_of, units_in, value_of, with_value, with_value_at};
ghost use Rattle.pm_topology.specs.Units.{has_in, has_unit, rises, same_unit, units_of};

use crate::topology::Topology;
use crate::units::units_of;
use indexmap::IndexMap;
use pm_base::{List, NoMemory, NodeId, Unit, at_or};
use std::alloc::Global;
use std::marker::Model;

/// The number from which on a node's place isn't kept by number.
const NUMBERED: u32 = 1024;

/// One value for each unit, in the order of units: nodes by number, and then reset lines by number.
/// A look-up by unit or by place takes constant time: nodes with low numbers, which is as a rule all of
/// them, are found by number, and other units by hash.
#[derive(Drop)]
pub struct UnitMap<T> {
    entries: IndexMap<Unit, T>,
    /// The places of nodes by number.
    places: List<Option<usize>>,
}

impl<T> Model for UnitMap<T> {
    ghost use Rattle.std.specs.Prelude.{◌≡◌, true, List};
    ghost use Rattle.pm_base.specs.declared.names.Unit.{Unit};
    ghost use Rattle.pm_topology.specs.UnitMap.{AreNodePlaces, units_in};
    ghost use Rattle.pm_topology.specs.Units.{rises};

    ghost Value = { List (Unit × T) };

    ghost view = { λ map. map.entries.entries };

    ghost invariant = { λ map. (rises (units_in map.entries.entries) ≡ true)
        × AreNodePlaces map.entries.entries map.places };
}

impl<T> UnitMap<T> {
    /// The number of units.
    pub fn len(&self) -> usize
        ensures len { result ≡ length self.now }
        ensures rising { rises (units_in self.now) ≡ true }
    {
        self.entries.len()
    }

    /// The place of a unit, counted from 0, if it is there.
    #[inline]
    pub fn place(&self, unit: Unit) -> Option<usize>
        ensures place { result ≡ place_of self.now unit }
        ensures rising { rises (units_in self.now) ≡ true }
    {
        match self.kept_place(unit) {
            Some(place) => Some(place),
            None => searched_place(&self.entries, unit),
        }
    }

    /// The place that is kept for a unit, if one is.
    #[inline]
    fn kept_place(&self, unit: Unit) -> Option<usize>
        ensures { IfSome result (λ place. place_of self.now unit ≡ Some place) }
    {
        match unit {
            Unit::Node(node) => at_or(self.places.as_slice(), node.0 as usize, None),
            Unit::Line(_) => None,
        }
    }
}

/// The place of a unit by hash. It stands apart, so that the look-up of a unit whose place is kept needs no call.
#[inline(never)]
fn searched_place<T>(entries: &IndexMap<Unit, T>, unit: Unit) -> Option<usize>
    ensures { result ≡ place_of entries.now.entries unit }
{
    entries.get_index_of(&unit)
}

impl<T: Copy + Drop> UnitMap<T> {
    /// The table of the units of a chip, each with the same value.
    ///
    /// # Errors
    ///
    /// `NoMemory` if there is not enough memory.
    pub fn load(alloc: Global, t: &Topology, value: T) -> Result<UnitMap<T>, NoMemory>
        ensures entries { IfOk result (λ map. map ≡ all_at value (units_of t.now)) }
        ensures values { IfOk result (λ map. (unit : Part)
            → value_of map unit ≡ (if has_unit t.now unit then Some value else None)) }
    {
        let units = units_of(alloc, t)?;
        let map = filled(alloc, units.as_slice(), value)?;
        Ok(map)
    }

    /// The value of a unit, if it is there.
    pub fn get(&self, unit: Unit) -> Option<T>
        ensures value { result ≡ value_of self.now unit }
        ensures rising { rises (units_in self.now) ≡ true }
    {
        let place = self.place(unit)?;
        let (_, value) = self.entry(place)?;
        Some(value)
    }

    /// The unit at a place and its value, if there is one.
    pub fn entry(&self, place: usize) -> Option<(Unit, T)>
        ensures { result ≡ slice_get self.now place }
    {
        match self.entries.get_index(place) {
            Some((unit, value)) => Some((*unit, *value)),
            None => None,
        }
    }

    /// Sets the value of a unit. Nothing changes if the unit isn't there.
    pub fn set(&mut self, unit: Unit, value: T)
        ensures entries { self.new ≡ with_value unit value self.old }
        ensures values { (other : Part) → value_of self.new other
            ≡ (if same_unit unit other && is_some (value_of self.old unit) then Some value
            else value_of self.old other) }
        ensures there { (other : Part) → is_some (value_of self.new other) ≡ is_some (value_of self.old other) }
        ensures one { is_some (value_of self.old unit) ≡ true → Sets unit value self.old self.new }
        ensures same { is_some (value_of self.old unit) ≡ false → self.new ≡ self.old }
        ensures units { units_in self.new ≡ units_in self.old }
    {
        if let Some(place) = self.place(unit) {
            self.set_at(place, value);
        }
    }

    /// Sets the value at a place. Nothing changes past the last one.
    pub fn set_at(&mut self, place: usize, value: T)
        ensures entries { self.new ≡ with_value_at place value self.old }
        ensures units { units_in self.new ≡ units_in self.old }
    {
        if place < self.entries.len() {
            self.entries[place] = value;
        }
    }
}

/// A table of these units, which come in rising order, each with the same value.
fn filled<T: Copy + Drop>(alloc: Global, units: &[Unit], value: T) -> Result<UnitMap<T>, NoMemory>
    requires { rises units.now ≡ true }
    ensures { IfOk result (λ map. map ≡ all_at value units.now) }
{
    let entries = filled_entries(alloc, units, value)?;
    let places = node_places(alloc, &entries, end_of_numbers(units))?;
    Ok(UnitMap { entries, places })
}

/// The length of the list of places by number: one past the highest number of a node that is below `NUMBERED`, or 0.
fn end_of_numbers(units: &[Unit]) -> u32 {
    units.iter().map(end_of_number).max().unwrap_or(0)
}

/// One past the number of a node, if that is below `NUMBERED`; 0 of any other unit.
fn end_of_number(unit: &Unit) -> u32 {
    match unit {
        Unit::Node(node) if node.0 < NUMBERED => node.0 + 1,
        _ => 0,
    }
}

/// The places of the nodes with numbers below this one, by number.
fn node_places<T>(
    alloc: Global,
    entries: &IndexMap<Unit, T>,
    end: u32,
) -> Result<List<Option<usize>>, NoMemory>
    ensures { IfOk result (λ places. AreNodePlaces entries.now.entries places) }
{
    let mut places = List::new(alloc);
    for number in 0..end {
        let place = entries.get_index_of(&Unit::Node(NodeId(number)));
        places.push(place)?;
    }
    Ok(places)
}

/// An entry for each of these units, with this value.
fn filled_entries<T: Copy + Drop>(
    alloc: Global,
    units: &[Unit],
    value: T,
) -> Result<IndexMap<Unit, T>, NoMemory>
    requires { rises units.now ≡ true }
    ensures { IfOk result (λ entries. entries.entries ≡ all_at value units.now) }
{
    let mut entries = IndexMap::new(alloc);
    for unit in units {
        put_last(&mut entries, *unit, value)?;
    }
    Ok(entries)
}

/// Puts a unit that isn't there yet after the others.
fn put_last<T: Copy + Drop>(
    entries: &mut IndexMap<Unit, T>,
    unit: Unit,
    value: T,
) -> Result<(), NoMemory>
    requires { has_in (units_in entries.old.entries) unit ≡ false }
    ensures { OnOk result (entries.new.entries ≡ entries.old.entries ++ (unit, value) ∷ []) }
{
    match entries.insert(unit, value) {
        Ok(_) => Ok(()),
        Err(_) => Err(NoMemory),
    }
}
