//! The value and the operating point of a node, as they are kept.

ghost use Rattle.std.specs.Prelude.{◌≡◌, None, Some, slice_get};
ghost use Rattle.pm_base.specs.declared.names.Unit.{Unit as Part};
ghost use Rattle.pm_topology.specs.Units.{units_of};
ghost use Rattle.pm_values.specs.Caches.{AreKept};
ghost use Rattle.pm_state.specs.Values.{value, point};

use crate::caches::Caches;
use pm_base::{NodeId, Unit};
use pm_procs::{Proc, mode_number};
use pm_state::Tables;
use pm_topology::{Kind, kinds_are_exact, units_stand_in_order};

/// The value of a unit, as it is kept.
pub fn value(tables: &Tables, caches: &Caches, unit: Unit) -> u32
    requires { AreKept tables.now caches.now }
    ensures { result ≡ value unit tables.now }
{
    units_stand_in_order();
    kinds_are_exact();
    caches.value(unit)
}

/// The value of the unit at a place, as it is kept, and 0 past the last one. No unit is looked up.
pub fn value_at(tables: &Tables, caches: &Caches, place: usize) -> u32
    requires { AreKept tables.now caches.now }
    ensures value { (unit : Part) → slice_get (units_of tables.now.fixed.topology) place ≡ Some unit
        → result ≡ value unit tables.now }
    ensures past { slice_get (units_of tables.now.fixed.topology) place ≡ None → result ≡ 0 }
{
    caches.value_at(place)
}

/// The operating point of a node: of a processor the number of its mode, and of any other its value.
pub fn point(tables: &Tables, caches: &Caches, node: NodeId) -> u32
    requires { AreKept tables.now caches.now }
    ensures { result ≡ point node tables.now }
{
    match tables.kind(node) {
        Kind::Proc(p) => mode_number(tables.procs().mode(p)),
        Kind::Slave(_) | Kind::Power(_) | Kind::Unknown => {
            value(tables, caches, Unit::Node(node))
        }
    }
}
