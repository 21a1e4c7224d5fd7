//! A runner, the clocks of its book, and the values that its device last took.

ghost use Rattle.std.specs.Prelude.{◌≡◌, ◌∷◌, [], None, Ok, true, IfOk, MatchOption};
ghost use Rattle.pm_device.specs.Act.{Chain};
ghost use Rattle.pm_topology.specs.WellFormed.{IsWellFormed};
ghost use Rattle.pm_state.specs.Load.{load_of};
ghost use Rattle.pm_state.specs.Values.{value};
ghost use Rattle.pm_core.specs.Outbox.{Holds, outputs_in};
ghost use Rattle.pm_core.specs.Step.{effect, outputs, outputs_at_load};
ghost use Rattle.pm_clock_tree.specs.Told.{told};
ghost use Rattle.pm_clocks.specs.Clocked.{HasStepped};
ghost use Rattle.pm_apply.specs.Part.{answers_in, orders_in, part_in, part_of};
ghost use Rattle.pm_apply.specs.Carried.{AreMarked, DifferencesAreMarked};
ghost use Rattle.pm_record.specs.Record.{IsRecordOf, at_zero};
ghost use Rattle.pm_split.specs.Left.{boxes_left, core_event, events_left};
ghost use Rattle.pm_split.specs.Split.{noted};
ghost use Rattle.pm_run.specs.Run.{loaded, setup, setup_of, split};
ghost use Rattle.pm_trace.specs.Step.{notices_in, notices_of};
ghost use Rattle.pm_engine.specs.Progress.{AreOf, Follow, HasGoneOn, stand_in};

use pm_apply::{carry, carry_all, marks_suffice};
use pm_base::{Event, List, NoMemory, with};
use pm_clocks::Clocks;
use pm_core::{Book, Outbox};
use pm_device::Device;
use pm_object::{Attached, Object};
use pm_record::Kept;
use pm_run::{CoreEvents, Runner, Source, Split};
use pm_topology::Topology;
use std::alloc::Global;
use std::marker::Model;

/// The book, what its last step put out, the boxes of the masters, the clocks, and the values that the device last took.
/// Contracts see these five. The clocks stand over the book.
#[derive(Drop)]
pub struct Engine {
    runner: Runner,
    kept: Kept,
    clocks: Clocks,
    /// Set once the device was made to follow the book. From then on the record marks each unit that lags.
    follows: bool,
}

impl Model for Engine {
    ghost use Rattle.std.specs.Prelude.{◌≡◌, true};
    ghost use Rattle.pm_state.specs.Values.{value};
    ghost use Rattle.pm_apply.specs.Carried.{AreMarked};
    ghost use Rattle.pm_record.specs.Record.{IsRecordOf};
    ghost use Rattle.pm_engine.specs.Progress.{Progress, IsOver};

    ghost Value = { Progress };

    ghost view = { λ c. record {
      book = c.runner.book;
      kept = c.kept;
      outbox = c.runner.outbox;
      boxes = c.runner.boxes;
      clocks = c.clocks;
    } };

    ghost invariant = { λ c. IsRecordOf c.runner.book.fixed.topology c.kept
        × (c.follows ≡ true → AreMarked c.runner.book.fixed.topology (λ u. value u c.runner.book) c.kept)
        × IsOver c.runner.book c.clocks.tree };
}

impl Engine {
    /// The book of an object at load, with what is attached. The device took nothing yet.
    ///
    /// # Errors
    ///
    /// `NoMemory` if there is not enough memory.
    pub fn load(
        alloc: Global,
        object: Object,
        attached: List<Attached>,
        topology: Topology,
    ) -> Result<Engine, NoMemory>
        requires formed { IsWellFormed topology }
        ensures book { IfOk result (λ c. c.book ≡ load_of object attached topology) }
        ensures kept { IfOk result (λ c. c.kept ≡ at_zero topology) }
        ensures boxes { IfOk result (λ c. c.boxes ≡ (loaded (setup object attached topology)).boxes) }
        ensures clocks { IfOk result (λ c. AreOf c.book c.clocks) }
        ensures out { IfOk result (λ c. Holds (outputs_at_load c.book) c.outbox) }
    {
        let kept = Kept::load(alloc, &topology);
        let ((topology, (object, attached)), kept) = with((topology, (object, attached)), kept)?;
        let runner = Runner::load(alloc, object, attached, topology);
        let (kept, runner) = with(kept, runner)?;
        let clocks = clocks_of(alloc, &runner);
        let ((runner, kept), clocks) = with((runner, kept), clocks)?;
        Ok(Engine {
            runner,
            kept,
            clocks,
            follows: false,
        })
    }

    /// The book.
    pub fn book(&self) -> &Book
        ensures { result.now ≡ self.now.book }
    {
        &self.runner.book
    }

    /// The values that the device last took.
    pub(crate) fn kept(&self) -> &Kept
        ensures { result.now ≡ self.now.kept }
    {
        &self.kept
    }

    /// What the last step put out.
    pub fn outbox(&self) -> &Outbox
        ensures { result.now ≡ self.now.outbox }
    {
        &self.runner.outbox
    }

    /// The clocks.
    pub(crate) fn clocks(&self) -> &Clocks
        ensures { result.now ≡ self.now.clocks }
    {
        &self.clocks
    }

    /// All clocks are told of as they are.
    pub(crate) fn tell_clocks(&mut self)
        ensures { self.new ≡ record self.old { clocks = told self.old.clocks } }
    {
        self.clocks.tell();
    }

    /// Step 0: the device is made to follow the book at load.
    pub fn start<D: Device>(&mut self, dev: &mut D)
        requires out { Holds (outputs_at_load self.old.book) self.old.outbox }
        ensures book { self.new.book ≡ self.old.book }
        ensures boxes { self.new.boxes ≡ self.old.boxes }
        ensures clocks { self.new.clocks ≡ self.old.clocks }
        ensures part { part_in self.new.kept self.new.outbox
            ≡ part_of self.old.kept (answers_in self.new.outbox) self.old.book (outputs_at_load self.old.book) }
        ensures notices { notices_in self.new.outbox ≡ notices_of (outputs_at_load self.old.book) }
        ensures given { Chain D.Does (orders_in self.new.outbox) dev.old dev.new }
    {
        follow(dev, &mut self.kept, &mut self.runner, false);
        self.follows = true;
    }

    /// Splits the event of a script line. Its core events are taken by `next`.
    pub fn split<'e>(&mut self, event: &'e Event) -> Split<'e>
        ensures book { self.new.book ≡ self.old.book }
        ensures kept { self.new.kept ≡ self.old.kept }
        ensures clocks { self.new.clocks ≡ self.old.clocks }
        ensures events { events_left self.old.book.fixed.object self.old.book.fixed.topology self.new.boxes result.cores
            ≡ (split (setup_of self.old.book) event.now (stand_in self.old)).events }
        ensures boxes { boxes_left self.new.boxes result.cores
            ≡ (split (setup_of self.old.book) event.now (stand_in self.old)).boxes }
        ensures notes { noted result.note ≡ (split (setup_of self.old.book) event.now (stand_in self.old)).notes }
    {
        self.runner.split(event)
    }

    /// Takes the next core event of a line off, if there is one; one that is made is left in `made`.
    #[inline]
    pub fn next<'e>(&mut self, cores: &mut CoreEvents<'e>, made: &mut Event) -> Option<Source<'e>>
        ensures book { self.new.book ≡ self.old.book }
        ensures kept { self.new.kept ≡ self.old.kept }
        ensures clocks { self.new.clocks ≡ self.old.clocks }
        ensures events { MatchOption result
            ((events_left self.old.book.fixed.object self.old.book.fixed.topology self.old.boxes cores.old ≡ [])
            × (events_left self.old.book.fixed.object self.old.book.fixed.topology self.new.boxes cores.new ≡ []))
            (λ source. events_left self.old.book.fixed.object self.old.book.fixed.topology self.old.boxes cores.old
            ≡ core_event source made.new
            ∷ events_left self.old.book.fixed.object self.old.book.fixed.topology self.new.boxes cores.new) }
        ensures boxes { boxes_left self.new.boxes cores.new ≡ boxes_left self.old.boxes cores.old }
        ensures end { result ≡ None → self.new.boxes ≡ boxes_left self.old.boxes cores.old }
    {
        self.runner.next(cores, made)
    }

    /// One core event, the commands that make the device follow the book, and what it does to the clocks. If the book
    /// replies to a call on a clock, the clocks' reply stands in place of it.
    #[inline(always)]
    pub fn step<D: Device>(&mut self, event: &Event, dev: &mut D)
        ensures book { self.new.book ≡ effect event.now self.old.book }
        ensures boxes { self.new.boxes ≡ self.old.boxes }
        ensures goes { HasGoneOn event.now self.old self.new }
        ensures notices { notices_in self.new.outbox ≡ notices_of (outputs event.now self.old.book) }
        ensures given { Chain D.Does (orders_in self.new.outbox) dev.old dev.new }
    {
        marks_suffice();
        self.runner.step(event);
        follow(dev, &mut self.kept, &mut self.runner, self.follows);
        answer(&mut self.clocks, event, &mut self.runner);
        self.follows = true;
    }
}

/// The clocks of a book at load.
///
/// # Errors
///
/// `NoMemory` if there is not enough memory.
fn clocks_of(alloc: Global, runner: &Runner) -> Result<Clocks, NoMemory>
    ensures { IfOk result (λ clocks. AreOf runner.now.book clocks) }
{
    Clocks::load(alloc, &runner.book)
}

/// The clocks serve the message that the book has just stepped over, if it is a call on a clock and the book replied to
/// it, and follow the book.
#[inline(always)]
fn answer(clocks: &mut Clocks, event: &Event, runner: &mut Runner)
    requires stepped { HasStepped event.now runner.old.outbox.moved.items clocks.old.tree runner.old.book }
    ensures book { runner.new.book ≡ runner.old.book }
    ensures boxes { runner.new.boxes ≡ runner.old.boxes }
    ensures follow { Follow event.now runner.old.book runner.old.outbox runner.new.outbox clocks.old clocks.new }
{
    clocks.answer(&runner.book, event, &mut runner.outbox);
}

/// Makes the device follow the book. If it isn't known that the record marks each unit that lags, each unit is
/// visited.
#[inline]
fn follow<D: Device>(dev: &mut D, kept: &mut Kept, runner: &mut Runner, is_marked: bool)
    requires record { IsRecordOf runner.old.book.fixed.topology kept.old }
    requires fresh { runner.old.outbox.done.items ≡ [] }
    requires marked { is_marked ≡ true → DifferencesAreMarked runner.old.book.fixed.topology
        (λ u. value u runner.old.book) runner.old.outbox.moved.items kept.old }
    ensures book { runner.new.book ≡ runner.old.book }
    ensures boxes { runner.new.boxes ≡ runner.old.boxes }
    ensures record { IsRecordOf runner.new.book.fixed.topology kept.new }
    ensures marks { AreMarked runner.new.book.fixed.topology (λ u. value u runner.new.book) kept.new }
    ensures part { part_in kept.new runner.new.outbox
        ≡ part_of kept.old (answers_in runner.new.outbox) runner.old.book (outputs_in runner.old.outbox) }
    ensures given { Chain D.Does (orders_in runner.new.outbox) dev.old dev.new }
    ensures moved { runner.new.outbox.moved ≡ runner.old.outbox.moved }
    ensures starts { runner.new.outbox.starts ≡ runner.old.outbox.starts }
    ensures late { runner.new.outbox.late ≡ runner.old.outbox.late }
    ensures callbacks { runner.new.outbox.callbacks ≡ runner.old.outbox.callbacks }
{
    if is_marked {
        carry(dev, kept, &runner.book, &mut runner.outbox);
    } else {
        carry_all(dev, kept, &runner.book, &mut runner.outbox);
    }
}
