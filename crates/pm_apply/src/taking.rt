//! The turns of a step are taken, one after another.

ghost use Rattle.std.specs.Prelude.{◌≡◌, ℕ, ◌+◌, ◌<◌, ◌≤◌, [], ◌∷◌, ◌++◌, false, length, map, reverse, slice_get, Some};
ghost use Rattle.std.specs.Prelude.{flat_map};
ghost use Rattle.pm_base.specs.declared.names.Unit.{Unit as Part};
ghost use Rattle.pm_topology.specs.declared.topology.Topology.{Topology};
ghost use Rattle.pm_topology.specs.UnitMap.{units_in};
ghost use Rattle.pm_topology.specs.Units.{units_of};
ghost use Rattle.pm_topology.specs.WellFormed.{IsWellFormed};
ghost use Rattle.pm_state.specs.Fed.{IsFed};
ghost use Rattle.pm_state.specs.Values.{value};
ghost use Rattle.pm_core.specs.Outbox.{HasRoomFor};
ghost use Rattle.pm_apply.specs.Carried.{KeepsRest, Takes};
ghost use Rattle.pm_apply.specs.Left.{IsFollowed};
ghost use Rattle.pm_apply.specs.Plan.{due, power_places, pulse_turn, turns_of, with_pulse};
ghost use Rattle.pm_record.specs.Record.{IsRecordOf};
ghost use Rattle.pm_apply.specs.Room.{most, most_of};
ghost use Rattle.pm_record.specs.Marks.{NoPowerLags, StandsElsewhere};
ghost use Rattle.pm_apply.specs.Visits.{IsReady};

use crate::powers::{lowered, raised};
use crate::turns::{Turn, apply_at, due, pulse_turn};
use pm_base::{Command, Unit};
use pm_core::{Book, Done, Outbox};
use pm_device::Device;
use pm_record::{Kept, KeptValue};
use pm_topology::{kinds_are_exact, unit_maps, units_stand_in_order};

/// Takes the turns of a step, one after another: power nodes go up, then the other units take their values, then
/// power nodes go down. Power nodes have turns if one of them is marked, and each other unit where it is: what is
/// left has no command.
pub(crate) fn take_turns<D: Device>(dev: &mut D, kept: &mut Kept, book: &Book, out: &mut Outbox)
    requires room { HasRoomFor book.now out.old }
    requires fresh { out.old.done.items ≡ [] }
    requires record { IsRecordOf book.now.fixed.topology kept.old }
    requires ready { IsReady (λ u. value u book.now) out.old.pulse kept.old }
    ensures formed { IsWellFormed book.now.fixed.topology }
    ensures fed { IsFed book.now.fixed.topology (λ u. value u book.now) }
    ensures takes { Takes D.Does book.now.fixed.topology (λ u. value u book.now)
        (turns_of book.now.fixed.topology out.old.pulse) kept.old kept.new out.old.done.items out.new.done.items
        dev.old dev.new }
    ensures followed { IsFollowed book.now.fixed.topology (λ u. value u book.now) out.old.pulse kept.new }
    ensures rest { KeepsRest out.old out.new }
{
    units_stand_in_order();
    kinds_are_exact();
    unit_maps::<KeptValue>();
    book.stays_sound();
    let lagging = kept.has_power_marks(book.topology());
    raise(dev, kept, book, out, lagging);
    settle(dev, kept, book, out);
    lower(dev, kept, book, out, lagging);
}

/// The power nodes go up that are up in the book, parents first. If none lags, none does.
fn raise<D: Device>(dev: &mut D, kept: &mut Kept, book: &Book, out: &mut Outbox, lagging: bool)
    requires followed { IsFollowed book.now.fixed.topology (λ u. value u book.now) out.old.pulse kept.old }
    requires room { length out.old.done.items + most_of book.now.fixed.topology (λ u. value u book.now)
        (flat_map (with_pulse out.old.pulse) (map Turn.PowerOn (power_places book.now.fixed.topology)))
        ≤ out.old.done.room }
    requires rests { lagging ≡ false → NoPowerLags book.now.fixed.topology kept.old }
    ensures takes { Takes D.Does book.now.fixed.topology (λ u. value u book.now)
        (flat_map (with_pulse out.old.pulse) (map Turn.PowerOn (power_places book.now.fixed.topology)))
        kept.old kept.new out.old.done.items out.new.done.items dev.old dev.new }
    ensures rest { KeepsRest out.old out.new }
{
    units_stand_in_order();
    kinds_are_exact();
    unit_maps::<KeptValue>();
    book.stays_sound();
    if !lagging {
        return;
    }
    for place in 0..book.topology().powers.len() {
        raise_one(dev, kept, book, out, place);
    }
}

/// The power node at a place goes up, if it has to. One that doesn't lag, or isn't down in the record, is passed over.
#[inline(always)]
fn raise_one<D: Device>(dev: &mut D, kept: &mut Kept, book: &Book, out: &mut Outbox, place: usize)
    requires followed { IsFollowed book.now.fixed.topology (λ u. value u book.now) out.old.pulse kept.old }
    requires room { length out.old.done.items
        + most book.now.fixed.topology (λ u. value u book.now) (Turn.PowerOn place) ≤ out.old.done.room }
    ensures takes { Takes D.Does book.now.fixed.topology (λ u. value u book.now) (Turn.PowerOn place ∷ [])
        kept.old kept.new out.old.done.items out.new.done.items dev.old dev.new }
    ensures rest { KeepsRest out.old out.new }
{
    let Some((at, command)) = raised(place, out.pulse, book, kept) else {
        return;
    };
    issue_at(dev, kept, out, at, command);
}

/// The power nodes go down that are down in the book, parents last. If none lags, none does.
fn lower<D: Device>(dev: &mut D, kept: &mut Kept, book: &Book, out: &mut Outbox, lagging: bool)
    requires followed { IsFollowed book.now.fixed.topology (λ u. value u book.now) out.old.pulse kept.old }
    requires room { length out.old.done.items + most_of book.now.fixed.topology (λ u. value u book.now)
        (flat_map (with_pulse out.old.pulse) (map Turn.PowerOff (reverse (power_places book.now.fixed.topology))))
        ≤ out.old.done.room }
    requires rests { lagging ≡ false → NoPowerLags book.now.fixed.topology kept.old }
    ensures takes { Takes D.Does book.now.fixed.topology (λ u. value u book.now)
        (flat_map (with_pulse out.old.pulse) (map Turn.PowerOff (reverse (power_places book.now.fixed.topology))))
        kept.old kept.new out.old.done.items out.new.done.items dev.old dev.new }
    ensures rest { KeepsRest out.old out.new }
{
    units_stand_in_order();
    kinds_are_exact();
    unit_maps::<KeptValue>();
    book.stays_sound();
    if !lagging {
        return;
    }
    let powers = book.topology().powers.len();
    for k in 0..powers {
        lower_one(dev, kept, book, out, powers - 1 - k);
    }
}

/// The power node at a place goes down, if it has to. One that doesn't lag, or isn't up in the record, is passed over.
#[inline(always)]
fn lower_one<D: Device>(dev: &mut D, kept: &mut Kept, book: &Book, out: &mut Outbox, place: usize)
    requires followed { IsFollowed book.now.fixed.topology (λ u. value u book.now) out.old.pulse kept.old }
    requires room { length out.old.done.items
        + most book.now.fixed.topology (λ u. value u book.now) (Turn.PowerOff place) ≤ out.old.done.room }
    ensures takes { Takes D.Does book.now.fixed.topology (λ u. value u book.now) (Turn.PowerOff place ∷ [])
        kept.old kept.new out.old.done.items out.new.done.items dev.old dev.new }
    ensures rest { KeepsRest out.old out.new }
{
    let Some((at, command)) = lowered(place, out.pulse, book, kept) else {
        return;
    };
    issue_at(dev, kept, out, at, command);
}

/// The units that are no power nodes take their values, in order, a reset line that is pulsed after it went to 1. Only
/// those that are marked are looked at.
fn settle<D: Device>(dev: &mut D, kept: &mut Kept, book: &Book, out: &mut Outbox)
    requires followed { IsFollowed book.now.fixed.topology (λ u. value u book.now) out.old.pulse kept.old }
    requires room { length out.old.done.items + most_of book.now.fixed.topology (λ u. value u book.now)
        (flat_map (with_pulse out.old.pulse) (map Turn.Apply (units_of book.now.fixed.topology))) ≤ out.old.done.room }
    ensures takes { Takes D.Does book.now.fixed.topology (λ u. value u book.now)
        (flat_map (with_pulse out.old.pulse) (map Turn.Apply (units_of book.now.fixed.topology))) kept.old kept.new
        out.old.done.items out.new.done.items dev.old dev.new }
    ensures rest { KeepsRest out.old out.new }
{
    units_stand_in_order();
    kinds_are_exact();
    unit_maps::<KeptValue>();
    book.stays_sound();
    let units = book.units();
    let mut place = kept.next_marked(0);
    // the `i`-th marked unit stands at `place`, as long as no unit lost its mark; else the next one is searched for
    let mut i = 0;
    'units: while place < units {
        take_unit(dev, kept, book, out, place);
        place = kept.next_behind(i, place);
        i += 1;
    }
}

/// The turn of the unit at a place, with its pulse before it, if it has one.
fn take_unit<D: Device>(dev: &mut D, kept: &mut Kept, book: &Book, out: &mut Outbox, place: usize)
    requires followed { IsFollowed book.now.fixed.topology (λ u. value u book.now) out.old.pulse kept.old }
    requires room { (unit : Part) → slice_get (units_of book.now.fixed.topology) place ≡ Some unit
        → length out.old.done.items + most_of book.now.fixed.topology (λ u. value u book.now)
        (with_pulse out.old.pulse (Turn.Apply unit)) ≤ out.old.done.room }
    ensures takes { (unit : Part) → slice_get (units_of book.now.fixed.topology) place ≡ Some unit
        → Takes D.Does book.now.fixed.topology (λ u. value u book.now) (with_pulse out.old.pulse (Turn.Apply unit))
        kept.old kept.new out.old.done.items out.new.done.items dev.old dev.new }
    ensures rest { KeepsRest out.old out.new }
{
    units_stand_in_order();
    kinds_are_exact();
    unit_maps::<KeptValue>();
    let Some((unit, _)) = kept.entry(place) else {
        return;
    };
    take_pulse(dev, kept, book, out, unit);
    take_value(dev, kept, book, out, place, unit);
}

/// The pulse of a unit, if it is the line that is pulsed.
fn take_pulse<D: Device>(dev: &mut D, kept: &mut Kept, book: &Book, out: &mut Outbox, unit: Unit)
    requires units { units_in kept.old ≡ units_of book.now.fixed.topology }
    requires stands { StandsElsewhere (λ u. value u book.now) kept.old }
    requires room { length out.old.done.items + most_of book.now.fixed.topology (λ u. value u book.now)
        (pulse_turn out.old.pulse unit) ≤ out.old.done.room }
    ensures takes { Takes D.Does book.now.fixed.topology (λ u. value u book.now) (pulse_turn out.old.pulse unit)
        kept.old kept.new out.old.done.items out.new.done.items dev.old dev.new }
    ensures rest { KeepsRest out.old out.new }
{
    if let Some(turn) = pulse_turn(out.pulse, unit) {
        take_turn(dev, kept, book, out, turn);
    }
}

/// The unit at a place, which is this one, takes its value.
fn take_value<D: Device>(
    dev: &mut D,
    kept: &mut Kept,
    book: &Book,
    out: &mut Outbox,
    place: usize,
    unit: Unit,
)
    requires units { units_in kept.old ≡ units_of book.now.fixed.topology }
    requires there { slice_get (units_in kept.old) place ≡ Some unit }
    requires room { length out.old.done.items < out.old.done.room }
    ensures takes { Takes D.Does book.now.fixed.topology (λ u. value u book.now) (Turn.Apply unit ∷ [])
        kept.old kept.new out.old.done.items out.new.done.items dev.old dev.new }
    ensures rest { KeepsRest out.old out.new }
{
    let Some(command) = apply_at(place, unit, book, kept) else {
        return;
    };
    issue_at(dev, kept, out, place, command);
}

/// Takes a turn: its command is issued, if it has one.
fn take_turn<D: Device>(dev: &mut D, kept: &mut Kept, book: &Book, out: &mut Outbox, turn: Turn)
    requires units { units_in kept.old ≡ units_of book.now.fixed.topology }
    requires stands { StandsElsewhere (λ u. value u book.now) kept.old }
    requires room { length out.old.done.items + most book.now.fixed.topology (λ u. value u book.now) turn
        ≤ out.old.done.room }
    ensures takes { Takes D.Does book.now.fixed.topology (λ u. value u book.now) (turn ∷ []) kept.old kept.new
        out.old.done.items out.new.done.items dev.old dev.new }
    ensures rest { KeepsRest out.old out.new }
{
    let Some(command) = due(turn, book, kept) else {
        return;
    };
    issue(dev, kept, out, command);
}

/// Issues a command, and takes down the value before it and the answer.
fn issue<D: Device>(dev: &mut D, kept: &mut Kept, out: &mut Outbox, command: Command)
    requires { length out.old.done.items < out.old.done.room }
    ensures takes { (t : Topology) (values : Part → ℕ) (turn : Turn) → due t values kept.old turn ≡ Some command
        → Takes D.Does t values (turn ∷ []) kept.old kept.new out.old.done.items out.new.done.items dev.old dev.new }
    ensures rest { KeepsRest out.old out.new }
{
    let ok = dev.command(command).is_ok();
    let from = kept.log(command, ok);
    out.done.push(Done { command, from, ok });
}

/// Issues a command on the unit at a place of the record, and takes down the value before it and the answer.
#[inline(always)]
fn issue_at<D: Device>(
    dev: &mut D,
    kept: &mut Kept,
    out: &mut Outbox,
    place: usize,
    command: Command,
)
    requires there { slice_get (units_in kept.old) place ≡ Some command.unit }
    requires room { length out.old.done.items < out.old.done.room }
    ensures takes { (t : Topology) (values : Part → ℕ) (turn : Turn) → due t values kept.old turn ≡ Some command
        → Takes D.Does t values (turn ∷ []) kept.old kept.new out.old.done.items out.new.done.items dev.old dev.new }
    ensures rest { KeepsRest out.old out.new }
{
    let ok = dev.command(command).is_ok();
    let from = kept.log_at(place, command, ok);
    out.done.push(Done { command, from, ok });
}
