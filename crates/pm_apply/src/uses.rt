//! Whether a power node is used by the record: by the units that are marked, since no other one can use it.

ghost use Rattle.std.specs.Prelude.{◌≡◌, ℕ, ◌&&◌, slice_get, Some};
ghost use Rattle.pm_base.specs.declared.names.Unit.{Unit as Part};
ghost use Rattle.pm_base.specs.declared.names.Unit.TheVariants.{Node};
ghost use Rattle.pm_topology.specs.Places.{parent_at};
ghost use Rattle.pm_topology.specs.UnitMap.{units_in};
ghost use Rattle.pm_topology.specs.Units.{kind_needs_power, units_of};
ghost use Rattle.pm_topology.specs.WellFormed.{IsWellFormed};
ghost use Rattle.pm_base.specs.Places.{is_place};
ghost use Rattle.pm_state.specs.Values.{value};
ghost use Rattle.pm_record.specs.declared.kept.KeptValue.{KeptValue as Entry};
ghost use Rattle.pm_record.specs.Marks.{StandsElsewhere};
ghost use Rattle.pm_apply.specs.Plan.{is_used, uses};

use pm_base::Unit;
use pm_core::Book;
use pm_record::{Kept, KeptValue};
use pm_topology::{
    Kind, PowerDef, Topology, kind_needs_power, kinds_are_exact, unit_maps, units_stand_in_order,
};

/// Whether some unit directly below the power node at a place, which is down in the book, needs power by the record. Only
/// the units that are marked are looked at: each other one has its value in the book, in which it needs no power from a
/// power node that is down.
pub(crate) fn is_used(power: &PowerDef, place: usize, book: &Book, kept: &Kept) -> bool
    requires there { slice_get book.now.fixed.topology.powers place ≡ Some power.now }
    requires down { value (Node power.now.node) book.now ≡ 0 }
    requires units { units_in kept.now ≡ units_of book.now.fixed.topology }
    requires stands { StandsElsewhere (λ u. value u book.now) kept.now }
    ensures { result ≡ is_used book.now.fixed.topology kept.now place }
{
    units_stand_in_order();
    kinds_are_exact();
    unit_maps::<KeptValue>();
    book.stays_sound();
    let units = book.units();
    let mut at = kept.next_marked(0);
    // the `i`-th marked unit stands at `at`
    let mut i = 0;
    'units: while at < units {
        if uses_at(at, place, book.topology(), kept) {
            return true;
        }
        at = kept.next_behind(i, at);
        i += 1;
    }
    false
}

/// Whether the unit at a place of the record stands directly below the power node at a place, and needs power by the
/// record.
fn uses_at(at: usize, place: usize, t: &Topology, kept: &Kept) -> bool
    requires { IsWellFormed t.now }
    ensures { (e : Part × Entry) → slice_get kept.now at ≡ Some e → result ≡ uses t.now place e.0 e.1.value }
{
    match kept.entry(at) {
        Some((Unit::Node(node), entry)) => uses_by(kept.kind(at, node, t), place, entry.value, t),
        _ => false,
    }
}

/// Whether a node of this kind stands directly below the power node at a place, and needs power in a value.
fn uses_by(kind: Kind, place: usize, value: u32, t: &Topology) -> bool
    ensures { result ≡ (is_place place (parent_at t.now kind) && kind_needs_power t.now kind value) }
{
    t.parent_by(kind) == Some(place) && kind_needs_power(t, kind, value)
}
