//! The turns of a step: each may issue one command.

ghost use Rattle.std.specs.Prelude.{◌≡◌, ℕ, ◌<◌, ◌≤◌, ◌==◌, ◌&&◌, ◌||◌, false, not, length, option_to_list, slice_get, Some};
ghost use Rattle.pm_base.specs.declared.names.Unit.TheVariants.{Node};
ghost use Rattle.pm_topology.specs.WellFormed.{IsWellFormed};
ghost use Rattle.pm_topology.specs.UnitMap.{units_in};
ghost use Rattle.pm_topology.specs.Places.{parent_at};
ghost use Rattle.pm_topology.specs.Units.{kind_needs_power, needs_power, parent_of_unit, units_of};
ghost use Rattle.pm_state.specs.Fed.{IsFed};
ghost use Rattle.pm_state.specs.Values.{value};
ghost use Rattle.pm_record.specs.Kinds.{is_power, is_power_kind};
ghost use Rattle.pm_record.specs.Marks.{StandsElsewhere};
ghost use Rattle.pm_apply.specs.Plan.{due, is_fed, is_used, power_off, power_value, power_on, apply, pulse, pulse_before, pulse_turn, unit_turns, where_due};
ghost use Rattle.pm_record.specs.Record.{kept_value};
ghost use Rattle.pm_apply.specs.Visits.{IsIdleAt, power_lags};

use crate::uses::is_used;
use pm_base::{Command, LineId, Unit};
use pm_core::Book;
use pm_record::{Kept, KeptValue, is_power_kind};
use pm_topology::{
    Kind, PowerDef, Topology, kind_needs_power, kinds_are_exact, same_unit, unit_maps,
    units_stand_in_order,
};

/// A turn of a step: the power node at a place goes up, a reset line is pulsed, a unit that is no power
/// node takes its value, or the power node at a place goes down.
#[derive(Clone, Copy, Debug, PartialEq, Eq)]
pub enum Turn {
    PowerOn(usize),
    Pulse(LineId),
    Apply(Unit),
    PowerOff(usize),
}

/// The number of turns of the units of a step.
pub(crate) fn turn_count(book: &Book) -> usize
    ensures count { result ≡ length (unit_turns book.now.fixed.topology) }
    ensures formed { IsWellFormed book.now.fixed.topology }
    ensures fed { IsFed book.now.fixed.topology (λ u. value u book.now) }
{
    units_stand_in_order();
    book.stays_sound();
    let powers = book.topology().powers.len();
    powers + book.units() + powers
}

/// The turn of a unit at a place, counted from 0: power nodes go up, parents first; then the other units take
/// their values; then power nodes go down, parents last.
pub(crate) fn turn_at(k: usize, book: &Book) -> Turn
    requires { k < length (unit_turns book.now.fixed.topology) }
    ensures { slice_get (unit_turns book.now.fixed.topology) k ≡ Some result }
{
    let powers = book.topology().powers.len();
    let units = book.units();
    if k < powers {
        Turn::PowerOn(k)
    } else if k - powers < units {
        Turn::Apply(book.unit(k - powers))
    } else {
        Turn::PowerOff(powers - 1 - (k - powers - units))
    }
}

/// The first place from this one on whose turn is taken. The turns before it are those of units that don't lag, and have
/// no command. It is past the last turn if none is left, and if no unit is marked no turn is looked at.
pub(crate) fn next_visited(from: usize, book: &Book, kept: &Kept) -> usize
    requires { units_in kept.now ≡ units_of book.now.fixed.topology }
    ensures from { from ≤ result }
    ensures idle { (k : ℕ) → from ≤ k → k < result → IsIdleAt book.now.fixed.topology kept.now k }
{
    units_stand_in_order();
    kinds_are_exact();
    unit_maps::<KeptValue>();
    let powers = book.topology().powers.len();
    let turns = turn_count(book);
    if from < turns && !kept.has_marks() {
        return turns;
    }
    let up = next_power(from, powers, book, kept);
    let unit = next_unit(up, book, kept);
    next_power(unit, turns, book, kept)
}

/// The first place before an end, from this one on, whose turn is taken. The mark of each turn's unit is looked at.
fn next_power(from: usize, end: usize, book: &Book, kept: &Kept) -> usize
    requires within { end ≤ length (unit_turns book.now.fixed.topology) }
    requires units { units_in kept.now ≡ units_of book.now.fixed.topology }
    ensures from { from ≤ result }
    ensures idle { (k : ℕ) → from ≤ k → k < result → IsIdleAt book.now.fixed.topology kept.now k }
{
    if from >= end {
        return from;
    }
    for k in from..end {
        if is_visited(k, book, kept) {
            return k;
        }
    }
    end
}

/// The first place of a unit's own turn, from this one on, that is taken, by the list of the units that are marked.
fn next_unit(from: usize, book: &Book, kept: &Kept) -> usize
    requires { units_in kept.now ≡ units_of book.now.fixed.topology }
    ensures from { from ≤ result }
    ensures idle { (k : ℕ) → from ≤ k → k < result → IsIdleAt book.now.fixed.topology kept.now k }
{
    units_stand_in_order();
    book.stays_sound();
    let powers = book.topology().powers.len();
    if from < powers || from - powers >= book.units() {
        return from;
    }
    let place = kept.next_marked(from - powers);
    from + (place - (from - powers))
}

/// Whether the turn at a place is taken: that of a unit that lags is.
fn is_visited(k: usize, book: &Book, kept: &Kept) -> bool
    requires within { k < length (unit_turns book.now.fixed.topology) }
    requires units { units_in kept.now ≡ units_of book.now.fixed.topology }
    ensures { result ≡ false → IsIdleAt book.now.fixed.topology kept.now k }
{
    units_stand_in_order();
    kinds_are_exact();
    unit_maps::<KeptValue>();
    book.stays_sound();
    let t = book.topology();
    let powers = t.powers.len();
    if k >= powers && k - powers < book.units() {
        return kept.lags_at(k - powers);
    }
    match turn_at(k, book) {
        Turn::PowerOn(place) | Turn::PowerOff(place) => power_lags(place, t, kept),
        Turn::Apply(_) | Turn::Pulse(_) => true,
    }
}

/// Whether the power node at a place lags.
fn power_lags(place: usize, t: &Topology, kept: &Kept) -> bool
    ensures { result ≡ power_lags t.now kept.now place }
{
    match power_at(t, place) {
        Some(power) => kept.lags(Unit::Node(power.node)),
        None => false,
    }
}

/// The pulse that stands before a turn: before that of a reset line that is pulsed.
pub(crate) fn pulse_before(pulse: Option<LineId>, turn: Turn) -> Option<Turn>
    ensures { option_to_list result ≡ pulse_before pulse turn }
{
    match turn {
        Turn::Apply(unit) => pulse_turn(pulse, unit),
        Turn::PowerOn(_) | Turn::Pulse(_) | Turn::PowerOff(_) => None,
    }
}

/// The turn in which a unit is pulsed, if it is the reset line that is pulsed.
pub(crate) fn pulse_turn(pulse: Option<LineId>, unit: Unit) -> Option<Turn>
    ensures { option_to_list result ≡ pulse_turn pulse unit }
{
    let line = pulse?;
    if same_unit(Unit::Line(line), unit) {
        Some(Turn::Pulse(line))
    } else {
        None
    }
}

/// The command of a turn, if there is one: from the book's values and the record.
pub(crate) fn due(turn: Turn, book: &Book, kept: &Kept) -> Option<Command>
    requires units { units_in kept.now ≡ units_of book.now.fixed.topology }
    requires stands { StandsElsewhere (λ u. value u book.now) kept.now }
    ensures { result ≡ due book.now.fixed.topology (λ u. value u book.now) kept.now turn }
{
    match turn {
        Turn::PowerOn(place) => power_on(place, book, kept),
        Turn::Pulse(line) => pulse(line, kept),
        Turn::Apply(unit) => apply(unit, book, kept),
        Turn::PowerOff(place) => power_off(place, book, kept),
    }
}

/// The command, if it is due.
fn where_due(is_due: bool, command: Command) -> Option<Command>
    ensures { result ≡ where_due is_due command }
{
    if is_due { Some(command) } else { None }
}

// ---- a power node goes up

/// The command that takes up the power node at a place: due if it is up in the book and down in the record, whose
/// parent is up.
fn power_on(place: usize, book: &Book, kept: &Kept) -> Option<Command>
    ensures { result ≡ power_on book.now.fixed.topology (λ u. value u book.now) kept.now
        (slice_get book.now.fixed.topology.powers place) }
{
    let power = power_at(book.topology(), place)?;
    let command = Command {
        unit: Unit::Node(power.node),
        value: 1,
    };
    where_due(goes_up(&power, book, kept), command)
}

/// Whether a power node is up in the book and down in the record, and its parent isn't down in the
/// record.
fn goes_up(power: &PowerDef, book: &Book, kept: &Kept) -> bool
    ensures { result ≡ ((value (Node power.now.node) book.now == 1) && ((kept_value kept.now (Node power.now.node) == 0)
        && is_fed book.now.fixed.topology kept.now power.now.parent)) }
{
    let unit = Unit::Node(power.node);
    book.value(unit) == 1 && kept.value(unit) == 0 && is_fed(book.topology(), kept, power.parent)
}

/// Whether the power node above is up by the record, or there is none above.
pub(crate) fn is_fed(t: &Topology, kept: &Kept, parent: Option<usize>) -> bool
    ensures { result ≡ is_fed t.now kept.now parent }
{
    match parent {
        Some(place) => power_value(t, kept, place) != 0,
        None => true,
    }
}

/// The kept value of the power node at a place.
fn power_value(t: &Topology, kept: &Kept, place: usize) -> u32
    ensures { result ≡ power_value t.now kept.now place }
{
    match power_at(t, place) {
        Some(power) => kept.value(Unit::Node(power.node)),
        None => 0,
    }
}

// ---- a reset line is pulsed

/// The first command of a pulse of a reset line: 1, unless the line is asserted already (UG1200,
/// PM_RESET_ACTION_PULSE).
fn pulse(line: LineId, kept: &Kept) -> Option<Command>
    ensures { result ≡ pulse kept.now line }
{
    let unit = Unit::Line(line);
    where_due(kept.value(unit) != 1, Command { unit, value: 1 })
}

// ---- a unit that is no power node takes its value

/// The command that sets a slave, a processor or a reset line to its value in the book, if the record has another and
/// the value has power.
fn apply(unit: Unit, book: &Book, kept: &Kept) -> Option<Command>
    ensures { result ≡ apply book.now.fixed.topology (λ u. value u book.now) kept.now unit }
{
    let value = book.value(unit);
    where_due(
        takes(unit, value, book.topology(), kept),
        Command { unit, value },
    )
}

/// The command of the turn of the unit at a place of the record, by its entry there.
pub(crate) fn apply_at(place: usize, unit: Unit, book: &Book, kept: &Kept) -> Option<Command>
    requires units { units_in kept.now ≡ units_of book.now.fixed.topology }
    requires there { slice_get (units_in kept.now) place ≡ Some unit }
    ensures { result ≡ apply book.now.fixed.topology (λ u. value u book.now) kept.now unit }
{
    units_stand_in_order();
    kinds_are_exact();
    unit_maps::<KeptValue>();
    book.stays_sound();
    let Some((_, entry)) = kept.entry(place) else {
        return None;
    };
    let value = book.value_at(place);
    where_due(
        takes_at(place, unit, entry.value, value, book.topology(), kept),
        Command { unit, value },
    )
}

/// Whether the unit at a place of the record, which has this value there, is no power node, and its new value is another
/// one that doesn't need power, or the power node above isn't down in the record.
fn takes_at(place: usize, unit: Unit, from: u32, value: u32, t: &Topology, kept: &Kept) -> bool
    requires { IsWellFormed t.now }
    ensures { result ≡ (not (is_power t.now unit) && (not (from == value)
        && (not (needs_power t.now unit value) || is_fed t.now kept.now (parent_of_unit t.now unit)))) }
{
    match unit {
        Unit::Node(node) => takes_by(kept.kind(place, node, t), from, value, t, kept),
        Unit::Line(_) => takes_by(Kind::Unknown, from, value, t, kept),
    }
}

/// Whether a unit is no power node, the record has another value for it, and the value doesn't need
/// power or the power node above isn't down in the record.
fn takes(unit: Unit, value: u32, t: &Topology, kept: &Kept) -> bool
    ensures { result ≡ (not (is_power t.now unit) && (not (kept_value kept.now unit == value)
        && (not (needs_power t.now unit value) || is_fed t.now kept.now (parent_of_unit t.now unit)))) }
{
    let from = kept.value(unit);
    match unit {
        Unit::Node(node) => takes_by(t.kind(node), from, value, t, kept),
        Unit::Line(_) => takes_by(Kind::Unknown, from, value, t, kept),
    }
}

/// Whether a unit of this kind, which has the first value in the record, is no power node, and its new value is another
/// one that doesn't need power, or the power node above isn't down in the record. A reset line is of none of the nodes'
/// kinds.
fn takes_by(kind: Kind, from: u32, value: u32, t: &Topology, kept: &Kept) -> bool
    ensures { result ≡ (not (is_power_kind kind) && (not (from == value)
        && (not (kind_needs_power t.now kind value) || is_fed t.now kept.now (parent_at t.now kind)))) }
{
    !is_power_kind(kind)
        && from != value
        && (!kind_needs_power(t, kind, value) || is_fed(t, kept, t.parent_by(kind)))
}

// ---- a power node goes down

/// The command that takes down the power node at a place: due if it is down in the book and up in the record, and
/// nothing directly below needs it by the record.
fn power_off(place: usize, book: &Book, kept: &Kept) -> Option<Command>
    requires units { units_in kept.now ≡ units_of book.now.fixed.topology }
    requires stands { StandsElsewhere (λ u. value u book.now) kept.now }
    ensures { result ≡ power_off book.now.fixed.topology (λ u. value u book.now) kept.now place
        (slice_get book.now.fixed.topology.powers place) }
{
    let power = power_at(book.topology(), place)?;
    let command = Command {
        unit: Unit::Node(power.node),
        value: 0,
    };
    where_due(goes_down(&power, place, book, kept), command)
}

/// Whether the power node at a place is down in the book and up in the record, and nothing directly
/// below needs power by the record.
fn goes_down(power: &PowerDef, place: usize, book: &Book, kept: &Kept) -> bool
    requires there { slice_get book.now.fixed.topology.powers place ≡ Some power.now }
    requires units { units_in kept.now ≡ units_of book.now.fixed.topology }
    requires stands { StandsElsewhere (λ u. value u book.now) kept.now }
    ensures { result ≡ ((value (Node power.now.node) book.now == 0) && ((kept_value kept.now (Node power.now.node) == 1)
        && not (is_used book.now.fixed.topology kept.now place))) }
{
    let unit = Unit::Node(power.node);
    if book.value(unit) != 0 || kept.value(unit) != 1 {
        return false;
    }
    !is_used(power, place, book, kept)
}

// ---- power nodes

/// The power node at a place.
pub(crate) fn power_at(t: &Topology, place: usize) -> Option<PowerDef>
    ensures { result ≡ slice_get t.now.powers place }
{
    t.powers.as_slice().get(place).copied()
}
