//! The marks of a record: at exactly the units whose value isn't the one that is wanted.

ghost use Rattle.std.specs.Prelude.{◌≡◌, ℕ, ◌==◌, not, length, slice_get, true, Some};
ghost use Rattle.pm_base.specs.declared.names.Unit.{Unit as Part};
ghost use Rattle.pm_topology.specs.UnitMap.{place_of, units_in};
ghost use Rattle.pm_topology.specs.Units.{rises};
ghost use Rattle.pm_record.specs.Marks.{LagsWithin, Remakes, StandsElsewhere, with_mark};
ghost use Rattle.pm_base.specs.Places.{has_place};
ghost use Rattle.pm_record.specs.Record.{marked};

use crate::kept::KeptValue;
use crate::places::Places;
use pm_base::Unit;
use pm_topology::{UnitMap, kinds_are_exact, unit_map_places, unit_maps, units_stand_in_order};

/// The values that units are to have: those of a book, say.
pub trait Wanted {
    ghost use Rattle.std.specs.Prelude.{◌≡◌, ℕ};
    ghost use Rattle.pm_base.specs.declared.names.Unit.{Unit};

    /// The value of each unit.
    ghost value: { Self → Unit → ℕ };

    /// Whether the value of a unit may be asked for as that of the unit at this place.
    ghost IsAt: { Self → ℕ → Unit → Type 0 };

    /// The value of the unit at a place of the record, which is this one.
    fn value_at(&self, place: usize, unit: Unit) -> u32
        requires { IsAt self.now place unit }
        ensures { result ≡ value self.now unit };
}

/// Marks the unit at a place, which is this one.
pub(crate) fn set_mark(values: &mut UnitMap<KeptValue>, unit: Unit, place: usize)
    requires { place_of values.old unit ≡ Some place }
    ensures entries { values.new ≡ with_mark unit values.old }
    ensures rising { rises (units_in values.old) ≡ true }
{
    units_stand_in_order();
    unit_map_places::<KeptValue>();
    let _units = values.len();
    let Some(found) = values.entry(place) else {
        return;
    };
    values.set_at(
        place,
        KeptValue {
            lags: true,
            ..found.1
        },
    );
}

/// Of the units at these places marks exactly those whose value isn't the one that is wanted, and lists their places.
/// Each other unit isn't marked, and has that value.
pub(crate) fn mark_all<W: Wanted>(
    values: &mut UnitMap<KeptValue>,
    places: &[usize],
    listed: &mut Places,
    wanted: &W,
)
    requires stands { StandsElsewhere (W.value wanted.now) values.old }
    requires known { (place : ℕ) (unit : Part) → slice_get (units_in values.old) place ≡ Some unit
        → W.IsAt wanted.now place unit }
    requires lags { LagsWithin places.now values.old }
    requires room { listed.old.room ≡ length values.old }
    ensures marked { values.new ≡ marked (W.value wanted.now) values.old }
    ensures lags { LagsWithin listed.new.items values.new }
    ensures room { listed.new.room ≡ listed.old.room }
{
    unit_map_places::<KeptValue>();
    units_stand_in_order();
    kinds_are_exact();
    unit_maps::<KeptValue>();
    let _units = values.len();
    for place in places {
        mark_at(values, *place, listed, wanted);
    }
}

/// Marks the unit at a place exactly if its value isn't the one that is wanted, and lists the place then.
fn mark_at<W: Wanted>(
    values: &mut UnitMap<KeptValue>,
    place: usize,
    listed: &mut Places,
    wanted: &W,
)
    requires known { (unit : Part) → slice_get (units_in values.old) place ≡ Some unit → W.IsAt wanted.now place unit }
    requires room { listed.old.room ≡ length values.old }
    ensures made { Remakes (W.value wanted.now) place values.old values.new }
    ensures lags { (e : Part × KeptValue) → slice_get values.new place ≡ Some e → e.1.lags ≡ true
        → has_place listed.new.items place ≡ true }
    ensures kept { (k : ℕ) → has_place listed.old.items k ≡ true → has_place listed.new.items k ≡ true }
    ensures room { listed.new.room ≡ listed.old.room }
{
    unit_map_places::<KeptValue>();
    let Some((unit, kept)) = values.entry(place) else {
        return;
    };
    let kept = mark(kept, wanted.value_at(place, unit));
    values.set_at(place, kept);
    if !kept.lags {
        return;
    }
    listed.insert(place);
}

/// What is kept of a unit, with a mark exactly if its value isn't this one.
fn mark(kept: KeptValue, value: u32) -> KeptValue
    ensures { result ≡ record kept { lags = not (kept.value == value) } }
{
    KeptValue {
        lags: kept.value != value,
        ..kept
    }
}
