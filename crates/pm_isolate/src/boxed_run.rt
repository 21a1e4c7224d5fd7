//! A runner on the heap.

ghost use Rattle.std.specs.Prelude.{◌≡◌, ◌∷◌, [], None, IfOk, MatchOption};
ghost use Rattle.pm_topology.specs.WellFormed.{IsWellFormed};
ghost use Rattle.pm_core.specs.Step.{effect};
ghost use Rattle.pm_split.specs.Left.{boxes_left, core_event, events_left};
ghost use Rattle.pm_run.specs.Run.{loaded, setup, setup_of, split, stand_at};
ghost use Rattle.pm_isolate.specs.Moves.{with_step};

use crate::moves::Moves;
use pm_base::{Event, List, NoMemory};
use pm_core::Book;
use pm_object::{Attached, Object};
use pm_run::{CoreEvents, Runner, Source, Split};
use pm_topology::{Topology, UnitMap};
use std::alloc::Global;
use std::marker::Model;

/// A runner on the heap, since the struct is large. Contracts see the state of its run: the book and the boxes.
#[derive(Drop)]
pub struct BoxedRun {
    runner: Box<Runner>,
}

impl Model for BoxedRun {
    ghost use Rattle.pm_run.specs.Run.{Stand, stand_at};

    ghost Value = { Stand };

    ghost view = { λ run. stand_at run.runner.value.book run.runner.value.boxes };
}

impl BoxedRun {
    /// A runner at load, for an object, the attached objects and a chip.
    ///
    /// # Errors
    ///
    /// `NoMemory` if there is not enough memory.
    pub fn load(
        alloc: Global,
        object: Object,
        attached: List<Attached>,
        topology: Topology,
    ) -> Result<BoxedRun, NoMemory>
        requires formed { IsWellFormed topology }
        ensures { IfOk result (λ run. run ≡ loaded (setup object attached topology)) }
    {
        let runner = runner_of(alloc, object, attached, topology)?;
        Ok(BoxedRun { runner })
    }

    /// The book as it is now.
    pub fn book(&self) -> &Book
        ensures { result.now ≡ self.now.book }
    {
        &self.runner.book
    }

    /// Splits the event of a script line into core events. `next` takes these one after another.
    pub fn split<'e>(&mut self, event: &'e Event) -> Split<'e>
        ensures book { self.new.book ≡ self.old.book }
        ensures events { events_left self.old.book.fixed.object self.old.book.fixed.topology self.new.boxes result.cores
            ≡ (split (setup_of self.old.book) event.now self.old).events }
        ensures boxes { boxes_left self.new.boxes result.cores
            ≡ (split (setup_of self.old.book) event.now self.old).boxes }
    {
        self.runner.split(event)
    }

    /// The next core event of a line, or None at its end. An event that isn't the line's own is left in `made`.
    pub fn next<'e>(&mut self, cores: &mut CoreEvents<'e>, made: &mut Event) -> Option<Source<'e>>
        ensures book { self.new.book ≡ self.old.book }
        ensures events { MatchOption result
            ((events_left self.old.book.fixed.object self.old.book.fixed.topology self.old.boxes cores.old ≡ [])
            × (events_left self.old.book.fixed.object self.old.book.fixed.topology self.new.boxes cores.new ≡ []))
            (λ source. events_left self.old.book.fixed.object self.old.book.fixed.topology self.old.boxes cores.old
            ≡ core_event source made.new
            ∷ events_left self.old.book.fixed.object self.old.book.fixed.topology self.new.boxes cores.new) }
        ensures boxes { boxes_left self.new.boxes cores.new ≡ boxes_left self.old.boxes cores.old }
        ensures end { result ≡ None → self.new.boxes ≡ boxes_left self.old.boxes cores.old }
    {
        self.runner.next(cores, made)
    }

    /// Steps the book by one core event. The places of the units whose values change are logged in `moves`, and so is
    /// whether a processor went to a mode.
    pub fn step(&mut self, event: &Event, marks: &UnitMap<bool>, moves: &mut Moves)
        ensures book { self.new.book ≡ effect event.now self.old.book }
        ensures boxes { self.new.boxes ≡ self.old.boxes }
        ensures moves { moves.new
            ≡ with_step marks.now event.now self.old.book (effect event.now self.old.book) moves.old }
    {
        self.runner.step(event);
        moves.add_turn(self.runner.outbox.turned);
        moves.add_units(marks, self.runner.outbox.moved.as_slice());
    }
}

/// A runner at load, in a box. Fails with `NoMemory` if there is not enough memory.
fn runner_of(
    alloc: Global,
    object: Object,
    attached: List<Attached>,
    topology: Topology,
) -> Result<Box<Runner>, NoMemory>
    requires formed { IsWellFormed topology }
    ensures { IfOk result (λ runner. stand_at runner.value.book runner.value.boxes
        ≡ loaded (setup object attached topology)) }
{
    let runner = Runner::load(alloc, object, attached, topology)?;
    boxed(alloc, runner)
}

/// A value on the heap. Without enough memory it is dropped here, where its type is generic: that costs less to
/// prove.
fn boxed<T: Drop>(alloc: Global, value: T) -> Result<Box<T>, NoMemory>
    ensures { IfOk result (λ held. held.value ≡ value) }
{
    Box::new(alloc, value).map_err(|_| NoMemory)
}
