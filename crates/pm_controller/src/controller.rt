//! A controller: events go in, commands come out, and each is answered.

ghost use Rattle.std.specs.Prelude.{◌≡◌, ◌<◌, ◌∷◌, ◌++◌, ℕ, Bool, List, [], false, true, IfOk, IfSome, None, Option, Some, is_none, is_some, length, map, slice_get};
ghost use Rattle.std.specs.List.{list_all};
ghost use Rattle.pm_topology.specs.WellFormed.{IsWellFormed};
ghost use Rattle.pm_state.specs.Units.{units};
ghost use Rattle.pm_state.specs.Values.{master_place, value};
ghost use Rattle.pm_core.specs.Outbox.{HasRoom, HasRoomFor, Holds, outputs_in};
ghost use Rattle.pm_core.specs.Step.{outputs_at_load};
ghost use Rattle.pm_apply.specs.Carried.{KeepsRest};
ghost use Rattle.pm_apply.specs.Left.{turns_left};
ghost use Rattle.pm_apply.specs.Plan.{done_as, plan};
ghost use Rattle.pm_record.specs.Record.{IsRecordOf, at_zero};
ghost use Rattle.pm_trace.specs.Step.{core_lines, notices_in};
ghost use Rattle.pm_controller.specs.Beyond.{is_beyond};
ghost use Rattle.pm_controller.specs.Controls.{Controls, coming_where, is_settled, mode_of, mode_where, part_with, stands_at, value_of};
ghost use Rattle.pm_controller.specs.Stands.{IsAsking, IsUnderWay, Stands};
ghost use Rattle.pm_controller.specs.Status.{Tells, status_of};
ghost use Rattle.pm_controller.specs.Steps.{IsLoaded, IsNext, StepBegins, TakesAnswer, TakesEvent};

use crate::status::{NodeStatus, status_of};
use pm_apply::{Carrying, each_part_is_safe, marks_suffice};
use pm_base::{Command, Event, List, Message, Mode, NoMemory, NodeId, Unit, with};
use pm_beyond::is_message_beyond;
use pm_core::{Book, Outbox};
use pm_object::Object;
use pm_record::{Kept, KeptValue};
use pm_topology::{Kind, Topology, has_unit, kinds_are_exact, unit_maps, units_stand_in_order};
use pm_trace::{TextLine, entries, entry};
use std::alloc::Global;
use std::marker::Model;

/// The book, the values that the device last took, and what the last step put out. A step is an event, its commands one by
/// one, each with its answer, and then what it tells. Contracts see `Controls`.
#[derive(Drop)]
pub struct Controller {
    book: Book,
    kept: Kept,
    outbox: Outbox,
    left: Carrying,
    waits: Option<Command>,
}

impl Model for Controller {
    ghost use Rattle.pm_core.specs.Outbox.{HasRoomFor};
    ghost use Rattle.pm_controller.specs.Controls.{Controls};
    ghost use Rattle.pm_controller.specs.Stands.{Stands};

    ghost Value = { Controls };

    ghost view = { λ c. record { book = c.book; kept = c.kept; outbox = c.outbox; left = c.left; waits = c.waits } };

    ghost invariant = { λ c. HasRoomFor c.book c.outbox × Stands c.waits c.book c.kept c.outbox c.left };
}

impl Controller {
    /// The book of an object at load, over a device of which each unit stands at 0. Step 0 has begun: its commands bring the
    /// device to the book. All memory that a controller takes is taken here.
    ///
    /// # Errors
    ///
    /// `NoMemory` if there is not enough memory.
    pub fn load(alloc: Global, object: Object, topology: Topology) -> Result<Controller, NoMemory>
        requires formed { IsWellFormed topology }
        ensures loaded { IfOk result (IsLoaded object topology) }
    {
        let beside = beside_of(alloc, &topology, object.masters.len());
        let ((object, topology), (kept, mut outbox)) = with((object, topology), beside)?;
        let book = Book::load(alloc, object, List::new(alloc), topology, &mut outbox);
        let ((kept, outbox), book) = with((kept, outbox), book)?;
        Ok(begun(book, kept, outbox))
    }

    /// One core event: a message of a master, a boot, a wait, an interrupt, or time that passes. Its step begins. No memory is
    /// taken. Answers false, and nothing changes, while a command of the last step waits for its answer.
    pub fn event(&mut self, event: &Event) -> bool
        ensures taken { result ≡ is_none self.old.waits }
        ensures begun { result ≡ true → TakesEvent event.now self.old self.new }
        ensures kept { result ≡ false → self.new ≡ self.old }
    {
        if self.waits.is_some() {
            return false;
        }
        units_stand_in_order();
        kinds_are_exact();
        unit_maps::<KeptValue>();
        marks_suffice();
        self.book.step(event, &mut self.outbox);
        self.left = Carrying::begin(&mut self.kept, &self.book, &self.outbox);
        self.waits = find(&mut self.left, &mut self.kept, &self.book, &mut self.outbox);
        true
    }

    /// The command that waits for its answer: the next one of the step, and the same one until it is answered. `None` if
    /// the step is over.
    pub fn next_command(&self) -> Option<Command>
        ensures waits { result ≡ self.now.waits }
        ensures next { IfSome result (λ command. (answers : List Bool) → IsNext command self.now answers) }
    {
        self.waits
    }

    /// What became of the command that waits: the device took it, or it failed. Then the next one waits; if there is none
    /// the step is over. Answers false, and nothing changes, if no command waits.
    pub fn command_done(&mut self, ok: bool) -> bool
        ensures waited { result ≡ is_some self.old.waits }
        ensures answered { result ≡ true → TakesAnswer ok self.old self.new }
        ensures kept { result ≡ false → self.new ≡ self.old }
    {
        let Some(command) = self.waits else {
            return false;
        };
        answer(
            command,
            ok,
            &mut self.left,
            &mut self.kept,
            &self.book,
            &mut self.outbox,
        );
        self.waits = find(&mut self.left, &mut self.kept, &self.book, &mut self.outbox);
        true
    }

    /// What the last step put out, with its commands that were answered.
    pub fn outbox(&self) -> &Outbox
        ensures { result.now ≡ self.now.outbox }
    {
        &self.outbox
    }

    /// The book.
    pub fn book(&self) -> &Book
        ensures { result.now ≡ self.now.book }
    {
        &self.book
    }

    /// The values that the device last took.
    pub fn kept(&self) -> &Kept
        ensures { result.now ≡ self.now.kept }
    {
        &self.kept
    }

    /// The value of a node in the book: the state of a slave, 1 for a processor that is active or suspending and for a power
    /// node that is up, and else 0. `None` if the chip has no such node.
    pub fn value(&self, node: NodeId) -> Option<u32>
        ensures { result ≡ value_of node self.now }
    {
        let unit = Unit::Node(node);
        if has_unit(self.book.topology(), unit) {
            Some(self.book.value(unit))
        } else {
            None
        }
    }

    /// The mode of a processor. `None` if the chip has no such processor.
    pub fn mode(&self, proc: NodeId) -> Option<Mode>
        ensures { result ≡ mode_of proc self.now }
    {
        match self.book.topology().kind(proc) {
            Kind::Proc(_) => Some(self.book.mode(proc)),
            _ => None,
        }
    }

    /// The three words that GET_NODE_STATUS (UG1200) tells a master of a node, without a message: its state, the capabilities
    /// that the master requires of it, and who uses it. `None` if the chip has no such node, or the object no such master.
    pub fn status(&self, master: NodeId, node: NodeId) -> Option<NodeStatus>
        ensures status { result ≡ status_of master node self.now.book }
        ensures told { IfSome result (Tells (master_place master self.now.book) node self.now.book) }
    {
        status_of(&self.book, master, node)
    }

    /// Whether a message of `sender` is beyond the reach of the master `of`: the sender is beyond, or is no configured master,
    /// and so is each node that the message names, or the reset line whose value it asks for. What such a message is answered
    /// doesn't depend on the messages of `of`.
    ///
    /// # Errors
    ///
    /// `NoMemory` if there is not enough memory.
    pub fn is_beyond(
        &self,
        alloc: Global,
        of: NodeId,
        sender: NodeId,
        message: &Message,
    ) -> Result<bool, NoMemory>
        ensures { IfOk result (λ beyond. beyond ≡ is_beyond of sender message.now self.now) }
    {
        is_message_beyond(
            alloc,
            self.book.objects().as_slice(),
            self.book.topology(),
            of,
            sender,
            message,
        )
    }

    /// Whether the step is over, and the device took the book's value for each unit of the chip.
    pub fn is_settled(&self) -> bool
        ensures { result ≡ is_settled self.now }
    {
        self.waits.is_none() && all_stand(&self.kept, &self.book)
    }

    /// How many lines the last step has.
    pub fn lines(&self) -> usize
        ensures { (n : ℕ) → result ≡ length (core_lines n self.now.outbox.done.items (notices_in self.now.outbox)
            self.now.outbox.answer) }
    {
        entries(&self.outbox, &self.outbox.answer)
    }

    /// Leaves in `line` the `k`-th line of the last step, counted from 0, after the number `n`, with its line feed.
    pub fn line(&self, n: u32, k: usize, line: &mut TextLine)
        requires { k < length (core_lines n self.now.outbox.done.items (notices_in self.now.outbox)
            self.now.outbox.answer) }
        ensures { slice_get (core_lines n self.now.outbox.done.items
            (notices_in self.now.outbox) self.now.outbox.answer) k
            ≡ Some line.new.items }
    {
        entry(n, &self.outbox, &self.outbox.answer, k, line);
    }
}

/// Whether a unit has the book's value in the record.
fn stands(kept: &Kept, book: &Book, unit: Unit) -> bool
    ensures { result ≡ stands_at book.now kept.now unit }
{
    kept.value(unit) == book.value(unit)
}

/// Whether each unit of the chip has it.
fn all_stand(kept: &Kept, book: &Book) -> bool
    ensures { result ≡ list_all (stands_at book.now kept.now) (units book.now) }
{
    for k in 0..book.units() {
        if !stands(kept, book, book.unit(k)) {
            return false;
        }
    }
    true
}

/// The record of a device that took nothing yet, and an outbox, for a chip and so many masters.
fn beside_of(alloc: Global, t: &Topology, masters: usize) -> Result<(Kept, Outbox), NoMemory>
    requires formed { IsWellFormed t.now }
    ensures first { IfOk result (λ beside. beside.0 ≡ at_zero t.now) }
    ensures known { IfOk result (λ beside. IsRecordOf t.now beside.0) }
    ensures room { IfOk result (λ beside. HasRoom t.now masters beside.1) }
{
    let kept = Kept::load(alloc, t)?;
    let outbox = Outbox::load(alloc, t, masters);
    with(kept, outbox)
}

/// The controller of a book at load, whose step 0 begins.
fn begun(book: Book, mut kept: Kept, mut outbox: Outbox) -> Controller
    requires known { IsRecordOf book.fixed.topology kept }
    requires out { Holds (outputs_at_load book) outbox }
    requires ready { HasRoomFor book outbox }
    ensures book { result.book ≡ book }
    ensures step { StepBegins kept (outputs_at_load result.book) result }
{
    units_stand_in_order();
    kinds_are_exact();
    unit_maps::<KeptValue>();
    let mut left = Carrying::begin_all(&mut kept, &book, &outbox);
    let waits = find(&mut left, &mut kept, &book, &mut outbox);
    Controller {
        book,
        kept,
        outbox,
        left,
        waits,
    }
}

/// Finds the next command of a step. If none is left the step ends.
fn find(left: &mut Carrying, kept: &mut Kept, book: &Book, out: &mut Outbox) -> Option<Command>
    requires { IsUnderWay book.now kept.old out.old.pulse out.old.done.items left.old }
    ensures stands { Stands result book.now kept.new out.new left.new }
    ensures comes { (answers : List Bool) → coming_where (record {
      book = book.now;
      kept = kept.new;
      outbox = out.new;
      left = left.new;
      waits = result;
    }) result answers
        ≡ part_with book.now (outputs_in out.old) out.old.done.items (plan book.now.fixed.topology
        (λ u. value u book.now)
        (turns_left book.now.fixed.topology out.old.pulse left.old) kept.old answers) }
    ensures rest { out.new ≡ record out.old { answer = out.new.answer } }
{
    units_stand_in_order();
    kinds_are_exact();
    unit_maps::<KeptValue>();
    each_part_is_safe();
    book.stays_sound();
    match left.next_command(kept, book, out.pulse) {
        Some(command) => Some(command),
        None => {
            out.answer = Carrying::end(kept, book, out);
            None
        }
    }
}

/// Takes down the answer to the command that waits.
fn answer(
    command: Command,
    ok: bool,
    left: &mut Carrying,
    kept: &mut Kept,
    book: &Book,
    out: &mut Outbox,
)
    requires room { HasRoomFor book.now out.old }
    requires asking { IsAsking book.now kept.old out.old.pulse out.old.done.items left.old command }
    ensures way { IsUnderWay book.now kept.new out.new.pulse out.new.done.items left.new }
    ensures comes { (answers : List Bool) → part_with book.now (outputs_in out.new) out.new.done.items
        (plan book.now.fixed.topology
        (λ u. value u book.now) (turns_left book.now.fixed.topology out.new.pulse left.new)
        kept.new answers)
        ≡ part_with book.now (outputs_in out.old) out.old.done.items (plan book.now.fixed.topology
        (λ u. value u book.now)
        (turns_left book.now.fixed.topology out.old.pulse left.old) kept.old (ok ∷ answers)) }
    ensures done { out.new.done.items ≡ out.old.done.items ++ done_as command kept.old ok ∷ [] }
    ensures rest { KeepsRest out.old out.new }
{
    units_stand_in_order();
    left.command_done(command, ok, kept, book, out);
}
