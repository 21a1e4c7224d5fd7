//! The commands of a step, given out one by one.

ghost use Rattle.std.specs.Prelude.{◌≡◌, ℕ, ◌<◌, [], IfNone, IfSome, length};
ghost use Rattle.pm_base.specs.declared.names.Unit.{Unit as Part};
ghost use Rattle.pm_topology.specs.UnitMap.{units_in};
ghost use Rattle.pm_topology.specs.Units.{units_of};
ghost use Rattle.pm_state.specs.Values.{value};
ghost use Rattle.pm_apply.specs.Carried.{DifferencesAreMarked, KeepsRest};
ghost use Rattle.pm_apply.specs.Failing.{falls_short, told_answer};
ghost use Rattle.pm_apply.specs.Left.{Answers, Begins, HaveNone, IsFollowed, Passes, Waits, turns_left};
ghost use Rattle.pm_apply.specs.Plan.{turns_of};
ghost use Rattle.pm_record.specs.Record.{IsRecordOf, marked};
ghost use Rattle.pm_record.specs.Marks.{StandsElsewhere};

use crate::failing::told_answer;
use crate::turns::{Turn, due, next_visited, pulse_before, turn_at, turn_count};
use crate::wanted::{PlaceValues, UnitValues};
use pm_base::{Command, LineId};
use pm_core::{Answer, Book, Done, Outbox};
use pm_record::{Kept, KeptValue};
use pm_topology::{kinds_are_exact, unit_maps, units_stand_in_order};

/// Which turns of a step are left.
#[derive(Clone, Copy, Debug, PartialEq, Eq)]
pub struct Carrying {
    place: usize,
    /// Whether the pulse before the turn at this place is behind.
    pulsed: bool,
}

impl Carrying {
    /// Begins to give out the commands of a step: the units that moved in it and the line that it pulses are marked, and
    /// all its turns are left.
    pub fn begin(kept: &mut Kept, book: &Book, out: &Outbox) -> Carrying
        requires record { IsRecordOf book.now.fixed.topology kept.old }
        requires marked { DifferencesAreMarked book.now.fixed.topology (λ u. value u book.now) out.now.moved.items
            kept.old }
        ensures left { turns_left book.now.fixed.topology out.now.pulse result
            ≡ turns_of book.now.fixed.topology out.now.pulse }
        ensures alike { (values : Part → ℕ) → marked values kept.new ≡ marked values kept.old }
        ensures record { IsRecordOf book.now.fixed.topology kept.new }
        ensures followed { IsFollowed book.now.fixed.topology (λ u. value u book.now) out.now.pulse kept.new }
    {
        units_stand_in_order();
        kinds_are_exact();
        unit_maps::<KeptValue>();
        kept.mark_moved(out.moved.as_slice());
        kept.mark_pulsed(out.pulse);
        Carrying::start(book, out.pulse)
    }

    /// Begins to give out the commands of a step whatever the record marks: each unit of the chip is marked.
    pub fn begin_all(kept: &mut Kept, book: &Book, out: &Outbox) -> Carrying
        requires record { IsRecordOf book.now.fixed.topology kept.old }
        ensures left { turns_left book.now.fixed.topology out.now.pulse result
            ≡ turns_of book.now.fixed.topology out.now.pulse }
        ensures alike { (values : Part → ℕ) → marked values kept.new ≡ marked values kept.old }
        ensures record { IsRecordOf book.now.fixed.topology kept.new }
        ensures followed { IsFollowed book.now.fixed.topology (λ u. value u book.now) out.now.pulse kept.new }
    {
        units_stand_in_order();
        kinds_are_exact();
        unit_maps::<KeptValue>();
        kept.mark_each();
        Carrying::begin(kept, book, out)
    }

    /// Ends a step once no turn is left: exactly the units are marked whose value isn't the book's. The answer of the step
    /// comes out, in which success becomes an internal error if the device didn't follow the step.
    pub fn end(kept: &mut Kept, book: &Book, out: &Outbox) -> Answer
        requires { StandsElsewhere (λ u. value u book.now) kept.old }
        ensures kept { kept.new ≡ marked (λ u. value u book.now) kept.old }
        ensures answer { result ≡ told_answer (falls_short (λ u. value u book.now) out.now.moved.items out.now.pulse
            out.now.done.items kept.new) out.now.answer }
    {
        kept.mark(&UnitValues { book });
        told_answer(kept, book, out)
    }

    /// Ends a step over a record of the book's units, whose values are read at their places.
    pub(crate) fn end_at_places(kept: &mut Kept, book: &Book, out: &Outbox) -> Answer
        requires stands { StandsElsewhere (λ u. value u book.now) kept.old }
        requires units { units_in kept.old ≡ units_of book.now.fixed.topology }
        ensures kept { kept.new ≡ marked (λ u. value u book.now) kept.old }
        ensures answer { result ≡ told_answer (falls_short (λ u. value u book.now) out.now.moved.items out.now.pulse
            out.now.done.items kept.new) out.now.answer }
    {
        kept.mark(&PlaceValues { book });
        told_answer(kept, book, out)
    }

    /// All turns of a step are left, in which this line is pulsed.
    fn start(book: &Book, pulse: Option<LineId>) -> Carrying
        ensures { turns_left book.now.fixed.topology pulse result ≡ turns_of book.now.fixed.topology pulse }
    {
        book.stays_sound();
        Carrying {
            place: 0,
            pulsed: false,
        }
    }

    /// The next command: that of the first turn that is left and has one. It is the same until it is answered.
    pub fn next_command(
        &mut self,
        kept: &Kept,
        book: &Book,
        pulse: Option<LineId>,
    ) -> Option<Command>
        requires { IsFollowed book.now.fixed.topology (λ u. value u book.now) pulse kept.now }
        ensures passes { Passes book.now.fixed.topology (λ u. value u book.now) pulse kept.now self.old self.new }
        ensures none { IfNone result (turns_left book.now.fixed.topology pulse self.new ≡ []) }
        ensures some { IfSome result
            (Waits book.now.fixed.topology (λ u. value u book.now) pulse kept.now self.new) }
    {
        self.skip(kept, book, pulse);
        'turns: while let Some(turn) = self.first(book, pulse) {
            let command = due(turn, book, kept);
            if command.is_some() {
                return command;
            }
            self.pass(book, pulse);
            self.skip(kept, book, pulse);
        }
        None
    }

    /// Takes down the answer to the command of the first turn that is left.
    pub fn command_done(
        &mut self,
        command: Command,
        ok: bool,
        kept: &mut Kept,
        book: &Book,
        out: &mut Outbox,
    )
        requires { length out.old.done.items < out.old.done.room }
        ensures answers { Answers book.now.fixed.topology out.old.pulse command ok self.old self.new kept.old kept.new
            out.old.done.items out.new.done.items }
        ensures rest { KeepsRest out.old out.new }
    {
        let from = kept.log(command, ok);
        out.done.push(Done { command, from, ok });
        self.pass(book, out.pulse);
    }

    /// The first turn that is left.
    fn first(&self, book: &Book, pulse: Option<LineId>) -> Option<Turn>
        ensures none { IfNone result (turns_left book.now.fixed.topology pulse self.now ≡ []) }
        ensures some { IfSome result (λ turn. Begins turn (turns_left book.now.fixed.topology pulse self.now)) }
    {
        if self.place >= turn_count(book) {
            return None;
        }
        let turn = turn_at(self.place, book);
        if self.pulsed {
            return Some(turn);
        }
        let pulse = pulse_before(pulse, turn);
        Some(pulse.unwrap_or(turn))
    }

    /// Leaves the first turn behind.
    fn pass(&mut self, book: &Book, pulse: Option<LineId>)
        ensures { (turn : Turn) (first : Begins turn (turns_left book.now.fixed.topology pulse self.old))
            → turns_left book.now.fixed.topology pulse self.new ≡ first.later }
    {
        if self.place >= turn_count(book) {
            return;
        }
        let turn = turn_at(self.place, book);
        if !self.pulsed && pulse_before(pulse, turn).is_some() {
            self.pulsed = true;
        } else {
            self.place += 1;
            self.pulsed = false;
        }
    }

    /// Passes over the turns of units that aren't marked.
    fn skip(&mut self, kept: &Kept, book: &Book, pulse: Option<LineId>)
        requires { IsFollowed book.now.fixed.topology (λ u. value u book.now) pulse kept.now }
        ensures { Passes book.now.fixed.topology (λ u. value u book.now) pulse kept.now self.old self.new }
    {
        units_stand_in_order();
        kinds_are_exact();
        unit_maps::<KeptValue>();
        if !self.pulsed {
            self.place = next_visited(self.place, book, kept);
        }
    }
}
