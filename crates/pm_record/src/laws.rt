//! The law of the record at first.

ghost use Rattle.std.specs.Prelude.{◌≡◌};
ghost use Rattle.pm_base.specs.declared.names.Unit.{Unit};
ghost use Rattle.pm_topology.specs.declared.topology.Topology.{Topology};
ghost use Rattle.pm_record.specs.Record.{IsAtZero, IsRecordOf, at_zero, kept_value};

use crate::kept::KeptValue;
use pm_topology::{kinds_are_exact, unit_maps, units_stand_in_order};

/// The record at first is one of the chip, each of its values is 0, and no unit lags.
pub fn at_zero_is_a_record()
    ensures record { (t : Topology) → IsRecordOf t (at_zero t) }
    ensures values { (t : Topology) (unit : Unit) → kept_value (at_zero t) unit ≡ 0 }
    ensures idle { (t : Topology) → IsAtZero (at_zero t) }
{
    units_stand_in_order();
    kinds_are_exact();
    unit_maps::<KeptValue>();
}
