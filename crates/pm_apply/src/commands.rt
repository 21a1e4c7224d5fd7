//! A device is made to follow the book.

ghost use Rattle.std.specs.Prelude.{◌≡◌, ℕ, ◌<◌, [], true, None, length};
ghost use Rattle.pm_core.specs.Outbox.{HasRoomFor, KeepsRoom, outputs_in};
ghost use Rattle.pm_state.specs.Values.{value};
ghost use Rattle.pm_device.specs.Act.{AreHarmless, Chain, ShowsAll};
ghost use Rattle.pm_apply.specs.Carried.{AreMarked, DifferencesAreMarked, HasCarried, StandsAs};
ghost use Rattle.pm_apply.specs.Order.{IsOrdered, LagsAreExplained};
ghost use Rattle.pm_apply.specs.Part.{answers_in, orders_in, part_in, part_of};
ghost use Rattle.pm_record.specs.Record.{IsRecordOf, kept_value};
ghost use Rattle.pm_record.specs.Marks.{LagsNotAt};

use crate::carrying::Carrying;
use crate::laws::{each_part_is_safe, orders_join};
use crate::taking::take_turns;
use pm_core::{Book, Outbox};
use pm_device::{Device, chain_shows};
use pm_record::{Kept, KeptValue};
use pm_topology::{kinds_are_exact, unit_maps, units_stand_in_order};

/// Issues the commands that make the device follow the book, in order, and puts each into `out.done`
/// with the value before it and its answer. Power nodes go up first, parents before children; then
/// the other units take their values, a reset line that the step pulses after it went to 1; then power
/// nodes go down, children before parents. A command is
/// skipped where its unit would stand without power, or others below it would; a unit that differs is
/// tried again at the next call. An answer that tells success becomes an internal error if the device didn't
/// follow the step. No memory is taken.
///
/// The outbox was loaded for the book's topology and holds no command yet, and the record is one of
/// that topology. Each unit whose value in the record isn't the book's moved in the step, or lags: turns are
/// taken for units that moved or lag and for the line that is pulsed alone, by the list of their places, and for all
/// power nodes if one of them is marked. If no unit moved or lags and no line is pulsed, nothing is done.
pub fn carry<D: Device>(dev: &mut D, kept: &mut Kept, book: &Book, out: &mut Outbox)
    requires room { HasRoomFor book.now out.old }
    requires fresh { out.old.done.items ≡ [] }
    requires record { IsRecordOf book.now.fixed.topology kept.old }
    requires marked { DifferencesAreMarked book.now.fixed.topology
        (λ u. value u book.now) out.old.moved.items kept.old }
    // Exactly the step's plan under the answers that the device gave, its record, and its answer, which is an internal
    // error in place of success if the device didn't follow the step.
    ensures part { part_in kept.new out.new ≡ part_of kept.old (answers_in out.new) book.now (outputs_in out.old) }
    // The device was given these commands with these answers, in this order, and nothing else.
    ensures given { Chain D.Does (orders_in out.new) dev.old dev.new }
    // So its count of faults rose with each that failed, and if its broken nodes are observable the
    // failed ones are exactly those on broken nodes.
    ensures shown { ShowsAll D.values_observable D.nodes_observable (orders_in out.new) (D.state dev.old)
        (D.state dev.new) }
    // A device whose values are observable, and were those of the record, has those of the record.
    ensures stands { D.values_observable → StandsAs kept.old (D.state dev.old) → StandsAs kept.new (D.state dev.new) }
    // The record marks exactly the units that aren't at the book's value.
    ensures marks { AreMarked book.now.fixed.topology (λ u. value u book.now) kept.new }
    // Nothing is used without power, and no domain goes down under its users, whatever fails.
    ensures ordered { IsOrdered book.now.fixed.topology (kept_value kept.old) (orders_in out.new) }
    // A unit lags only if a command failed in this step: on it, above it or below it.
    ensures explained { LagsAreExplained book.now.fixed.topology (λ u. value u book.now) kept.new out.new.done.items }
    // Each command is on a unit of the chip.
    ensures known { AreHarmless book.now.fixed.topology (orders_in out.new) }
    ensures record { IsRecordOf book.now.fixed.topology kept.new }
    // The outbox keeps its room, which is that of the book.
    ensures room { KeepsRoom out.old out.new }
    ensures ready { HasRoomFor book.now out.new }
    ensures moved { out.new.moved ≡ out.old.moved }
    ensures pulse { out.new.pulse ≡ out.old.pulse }
    ensures starts { out.new.starts ≡ out.old.starts }
    ensures late { out.new.late ≡ out.old.late }
    ensures callbacks { out.new.callbacks ≡ out.old.callbacks }
{
    each_part_is_safe();
    units_stand_in_order();
    kinds_are_exact();
    unit_maps::<KeptValue>();
    chain_shows::<D>();
    book.stays_sound();
    if is_at_rest(kept, out) {
        return;
    }
    carry_on(dev, kept, book, out);
}

/// Issues the commands that make the device follow the book, as `carry` does, whatever the record marks: each unit of
/// the chip is visited. This is for the first step, and for a record of which the caller doesn't know whether its marks
/// are those of the last step.
pub fn carry_all<D: Device>(dev: &mut D, kept: &mut Kept, book: &Book, out: &mut Outbox)
    requires room { HasRoomFor book.now out.old }
    requires fresh { out.old.done.items ≡ [] }
    requires record { IsRecordOf book.now.fixed.topology kept.old }
    ensures part { part_in kept.new out.new ≡ part_of kept.old (answers_in out.new) book.now (outputs_in out.old) }
    ensures given { Chain D.Does (orders_in out.new) dev.old dev.new }
    ensures shown { ShowsAll D.values_observable D.nodes_observable (orders_in out.new) (D.state dev.old)
        (D.state dev.new) }
    ensures stands { D.values_observable → StandsAs kept.old (D.state dev.old) → StandsAs kept.new (D.state dev.new) }
    ensures marks { AreMarked book.now.fixed.topology (λ u. value u book.now) kept.new }
    ensures ordered { IsOrdered book.now.fixed.topology (kept_value kept.old) (orders_in out.new) }
    ensures explained { LagsAreExplained book.now.fixed.topology (λ u. value u book.now) kept.new out.new.done.items }
    ensures known { AreHarmless book.now.fixed.topology (orders_in out.new) }
    ensures record { IsRecordOf book.now.fixed.topology kept.new }
    ensures room { KeepsRoom out.old out.new }
    ensures ready { HasRoomFor book.now out.new }
    ensures moved { out.new.moved ≡ out.old.moved }
    ensures pulse { out.new.pulse ≡ out.old.pulse }
    ensures starts { out.new.starts ≡ out.old.starts }
    ensures late { out.new.late ≡ out.old.late }
    ensures callbacks { out.new.callbacks ≡ out.old.callbacks }
{
    units_stand_in_order();
    kinds_are_exact();
    unit_maps::<KeptValue>();
    orders_join();
    kept.mark_each();
    carry(dev, kept, book, out);
}

/// Whether a step has nothing to do with the device: no unit moved in it, it pulses no line, and no unit is marked.
fn is_at_rest(kept: &Kept, out: &Outbox) -> bool
    ensures moved { result ≡ true → out.now.moved.items ≡ [] }
    ensures pulse { result ≡ true → out.now.pulse ≡ None }
    ensures marks { result ≡ true → (k : ℕ) → k < length kept.now → LagsNotAt k kept.now }
{
    out.moved.as_slice().is_empty() && out.pulse.is_none() && !kept.has_marks()
}

/// Marks the units that moved and the line that is pulsed, takes the turns of the step, and ends it.
#[inline(never)]
fn carry_on<D: Device>(dev: &mut D, kept: &mut Kept, book: &Book, out: &mut Outbox)
    requires room { HasRoomFor book.now out.old }
    requires fresh { out.old.done.items ≡ [] }
    requires record { IsRecordOf book.now.fixed.topology kept.old }
    requires marked { DifferencesAreMarked book.now.fixed.topology
        (λ u. value u book.now) out.old.moved.items kept.old }
    ensures { HasCarried D.Does book.now kept.old kept.new out.old out.new dev.old dev.new }
{
    units_stand_in_order();
    kinds_are_exact();
    unit_maps::<KeptValue>();
    let _left = Carrying::begin(kept, book, out);
    take_turns(dev, kept, book, out);
    out.answer = Carrying::end_at_places(kept, book, out);
}
