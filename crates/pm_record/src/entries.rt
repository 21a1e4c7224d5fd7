//! What is kept of a unit, and the value that it took.

ghost use Rattle.std.specs.Prelude.{◌≡◌, ◌==◌, ◌&&◌, Some, true};
ghost use Rattle.pm_topology.specs.UnitMap.{place_of, units_in};
ghost use Rattle.pm_topology.specs.Units.{rises};
ghost use Rattle.pm_record.specs.Record.{idle, keep, kept_of, kept_value};

use crate::kept::KeptValue;
use pm_base::{Command, Unit};
use pm_topology::{UnitMap, unit_map_places, units_stand_in_order};

/// A unit that stands at 0 and doesn't lag.
pub(crate) fn idle() -> KeptValue
    ensures { result ≡ idle }
{
    KeptValue {
        value: 0,
        lags: false,
    }
}

/// The record's entry of a unit; an idle one if the unit isn't in the table.
pub(crate) fn kept_of(values: &UnitMap<KeptValue>, unit: Unit) -> KeptValue
    ensures kept { result ≡ kept_of values.now unit }
    ensures rising { rises (units_in values.now) ≡ true }
{
    values.get(unit).unwrap_or(idle())
}

/// Keeps the value of a command for its unit. Nothing changes if the unit isn't there. The value before it comes out.
pub(crate) fn keep(values: &mut UnitMap<KeptValue>, command: Command) -> u32
    ensures entries { values.new ≡ keep command.unit command.value values.old }
    ensures before { result ≡ kept_value values.old command.unit }
    ensures rising { rises (units_in values.old) ≡ true }
{
    let Some(place) = values.place(command.unit) else {
        return kept_of(values, command.unit).value;
    };
    keep_at(values, command, place)
}

/// Keeps the value of a command at the place of its unit. The value before it comes out.
#[inline(always)]
pub(crate) fn keep_at(values: &mut UnitMap<KeptValue>, command: Command, place: usize) -> u32
    requires { place_of values.old command.unit ≡ Some place }
    ensures entries { values.new ≡ keep command.unit command.value values.old }
    ensures before { result ≡ kept_value values.old command.unit }
{
    units_stand_in_order();
    unit_map_places::<KeptValue>();
    let _units = values.len();
    let Some(found) = values.entry(place) else {
        return 0;
    };
    let kept = KeptValue {
        value: command.value,
        ..found.1
    };
    values.set_at(place, kept);
    found.1.value
}

/// Whether a unit lags that has this value in the record.
#[inline(always)]
pub(crate) fn has_lagging(kept: KeptValue, value: u32) -> bool
    ensures { result ≡ (kept.lags && (kept.value == value)) }
{
    kept.lags && kept.value == value
}
