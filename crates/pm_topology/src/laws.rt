//! Laws of the units and nodes of a chip, and of tables of units. Each is a record of facts, which
//! stands beside what it speaks of.

ghost use Rattle.pm_topology.specs.Places.{KindLaws};
ghost use Rattle.pm_topology.specs.UnitMap.{TableLaws, TablePlaceLaws};
ghost use Rattle.pm_topology.specs.Units.{UnitLaws};

/// The units of a chip stand in order, each once, and they are exactly those that the chip has.
pub fn units_stand_in_order()
    ensures { UnitLaws }
{}

/// The kind of a node is that of an entry with its number, and in a well-formed topology of the one
/// entry that has it.
pub fn kinds_are_exact()
    ensures { KindLaws }
{}

/// What a table of units holds: a value for exactly its units, also once all have the same value, one
/// was set, or each was made anew from the one before.
pub fn unit_maps<T>()
    ensures { TableLaws T }
{}

/// In a table whose units rise, to set the value at the place of a unit is to set that of the unit.
pub fn unit_map_places<T>()
    ensures { TablePlaceLaws T }
{}
