//! Power nodes that go up or down, by their places in the record.

ghost use Rattle.std.specs.Prelude.{◌≡◌, ◌==◌, ◌&&◌, not, IfNone, IfSome, None, slice_get, Some};
ghost use Rattle.pm_base.specs.declared.names.Unit.TheVariants.{Node};
ghost use Rattle.pm_topology.specs.UnitMap.{units_in};
ghost use Rattle.pm_topology.specs.Units.{units_of};
ghost use Rattle.pm_state.specs.Values.{value};
ghost use Rattle.pm_record.specs.Marks.{StandsElsewhere};
ghost use Rattle.pm_apply.specs.Left.{IsFollowed};
ghost use Rattle.pm_apply.specs.Plan.{due, is_fed, is_used};

use crate::turns::{Turn, is_fed, power_at};
use crate::uses::is_used;
use pm_base::{Command, LineId, Unit};
use pm_core::Book;
use pm_record::{Kept, KeptValue};
use pm_topology::{PowerDef, kinds_are_exact, unit_maps, units_stand_in_order};

/// The place in the record of the power node at a place that goes up, and its command. Nothing comes out if it has
/// no command: it isn't marked, or isn't down in the record, or stays so.
#[inline(always)]
pub(crate) fn raised(
    place: usize,
    pulse: Option<LineId>,
    book: &Book,
    kept: &Kept,
) -> Option<(usize, Command)>
    requires { IsFollowed book.now.fixed.topology (λ u. value u book.now) pulse kept.now }
    ensures none { IfNone result
        (due book.now.fixed.topology (λ u. value u book.now) kept.now (Turn.PowerOn place) ≡ None) }
    ensures some { IfSome result (λ found.
        due book.now.fixed.topology (λ u. value u book.now) kept.now (Turn.PowerOn place) ≡ Some found.1) }
    ensures there { IfSome result (λ found. slice_get (units_in kept.now) found.0 ≡ Some found.1.unit) }
{
    units_stand_in_order();
    kinds_are_exact();
    unit_maps::<KeptValue>();
    book.stays_sound();
    let Some(power) = power_at(book.topology(), place) else {
        return None;
    };
    let unit = Unit::Node(power.node);
    let Some(at) = kept.lagging(unit, 0) else {
        return None;
    };
    if rises(at, unit, power.parent, book, kept) {
        Some((at, Command { unit, value: 1 }))
    } else {
        None
    }
}

/// Whether a unit, which stands at this place of the record and has this parent, is up in the book, and its parent
/// isn't down in the record.
#[inline(always)]
fn rises(at: usize, unit: Unit, parent: Option<usize>, book: &Book, kept: &Kept) -> bool
    requires { slice_get (units_of book.now.fixed.topology) at ≡ Some unit }
    ensures { result ≡ ((value unit book.now == 1) && is_fed book.now.fixed.topology kept.now parent) }
{
    book.value_at(at) == 1 && is_fed(book.topology(), kept, parent)
}

/// The place in the record of the power node at a place that goes down, and its command. Nothing comes out if it has
/// no command: it isn't marked, or isn't up in the record, or stays so.
#[inline(always)]
pub(crate) fn lowered(
    place: usize,
    pulse: Option<LineId>,
    book: &Book,
    kept: &Kept,
) -> Option<(usize, Command)>
    requires { IsFollowed book.now.fixed.topology (λ u. value u book.now) pulse kept.now }
    ensures none { IfNone result
        (due book.now.fixed.topology (λ u. value u book.now) kept.now (Turn.PowerOff place) ≡ None) }
    ensures some { IfSome result (λ found.
        due book.now.fixed.topology (λ u. value u book.now) kept.now (Turn.PowerOff place) ≡ Some found.1) }
    ensures there { IfSome result (λ found. slice_get (units_in kept.now) found.0 ≡ Some found.1.unit) }
{
    units_stand_in_order();
    kinds_are_exact();
    unit_maps::<KeptValue>();
    book.stays_sound();
    let Some(power) = power_at(book.topology(), place) else {
        return None;
    };
    let unit = Unit::Node(power.node);
    let Some(at) = kept.lagging(unit, 1) else {
        return None;
    };
    if falls(at, &power, place, book, kept) {
        Some((at, Command { unit, value: 0 }))
    } else {
        None
    }
}

/// Whether the power node at a place, which stands at this place of the record, is down in the book, and nothing directly
/// below it needs power by the record.
#[inline(always)]
fn falls(at: usize, power: &PowerDef, place: usize, book: &Book, kept: &Kept) -> bool
    requires at { slice_get (units_of book.now.fixed.topology) at ≡ Some (Node power.now.node) }
    requires there { slice_get book.now.fixed.topology.powers place ≡ Some power.now }
    requires units { units_in kept.now ≡ units_of book.now.fixed.topology }
    requires stands { StandsElsewhere (λ u. value u book.now) kept.now }
    ensures { result ≡ ((value (Node power.now.node) book.now == 0)
        && not (is_used book.now.fixed.topology kept.now place)) }
{
    book.value_at(at) == 0 && !is_used(power, place, book, kept)
}
