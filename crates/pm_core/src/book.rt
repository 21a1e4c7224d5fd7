//! The book of requirements: its load, its step and what is read of it.

ghost use Rattle.std.specs.Prelude.{◌≡◌, ◌<◌, IsTrue, IfOk, IfErr, Ok, None, Some, is_some, length, slice_get};
ghost use Rattle.pm_base.specs.declared.names.Unit.{Unit as Part};
ghost use Rattle.pm_topology.specs.Units.{units_of};
ghost use Rattle.pm_topology.specs.WellFormed.{IsWellFormed};
ghost use Rattle.pm_state.specs.Changes.{HasPlaces as HasPlacesToWrite};
ghost use Rattle.pm_state.specs.Fed.{IsFed};
ghost use Rattle.pm_state.specs.Load.{load_of};
ghost use Rattle.pm_core.specs.Begun.{IsBegun};
ghost use Rattle.pm_core.specs.Outbox.{HasRoom, HasRoomFor, Holds, IsEmpty, KeepsRoom};
ghost use Rattle.pm_perms.specs.Permits.{may_use};
ghost use Rattle.pm_core.specs.Step.{effect, outputs, outputs_at_load, is_refused, turns_proc};
ghost use Rattle.pm_core.specs.Usage.{usage};
ghost use Rattle.pm_state.specs.State.{in_force, objects_of};
ghost use Rattle.pm_state.specs.Sound.{IsSound, StandsAsWanted, MeetsRequirements};
ghost use Rattle.pm_state.specs.Units.{units};
ghost use Rattle.pm_state.specs.Values.{point, shown, value};
ghost use Rattle.pm_state.specs.Nodes.{master_mode, mode, row};

use crate::answers::answer;
use crate::outbox::Outbox;
use pm_base::{Event, List, Mode, NoMemory, NodeId, Unit, with};
use pm_object::{Attached, Object};
use pm_rows::Row;
use pm_state::{Changes, Tables};
use pm_step::{advance, begin, begin_after, books_stay_sound, time_of};
use pm_tell::{Served, Telling, pulse_in, tell};
use pm_topology::{Topology, kinds_are_exact, units_stand_in_order};
use pm_values::{Caches, point, value, value_at, values_meet};
use std::alloc::Global;
use std::marker::Model;

/// The book of requirements. It keeps the object, the parts of the chip, a row for each permitted pair
/// of a master and a slave, the mode and resume address of each processor, whether each reset line is
/// asserted, whether all is halted, and for each master the request to suspend that is pending on it and
/// its notes about each unit of the chip. These contracts see. It also keeps what is found of the values,
/// what is logged of a step until the masters are told of it, what the step writes down of what it touches, and
/// the place for the message of an event and the verdict on it, which is used again by the next one.
#[derive(Drop)]
pub struct Book {
    pub(crate) tables: Tables,
    pub(crate) caches: Caches,
    pub(crate) telling: Telling,
    pub(crate) changes: Changes,
    pub(crate) served: Option<Served>,
}

impl Model for Book {
    ghost use Rattle.std.specs.Prelude.{length};
    ghost use Rattle.pm_values.specs.Caches.{AreKept};
    ghost use Rattle.pm_state.specs.Changes.{HasPlaces as HasPlacesToWrite};
    ghost use Rattle.pm_state.specs.Sound.{IsBook};
    ghost use Rattle.pm_state.specs.State.{State};
    ghost use Rattle.pm_tell.specs.Telling.{HasPlaces, IsFresh};

    ghost Value = { State };

    ghost view = { λ book. book.tables };

    ghost invariant = { λ book. IsBook book.tables × AreKept book.tables book.caches
        × HasPlaces book.tables.fixed.topology (length book.tables.fixed.object.masters) book.telling
        × IsFresh book.tables book.telling
        × HasPlacesToWrite book.tables.fixed book.changes };
}

impl Book {
    /// The book of an object at load: a row for each permitted pair, with what the object preallocates
    /// for it, and the first processor of the first master is active. Beside the object stands what is attached, of
    /// which a message can put an object in force. The topology passes its check, and
    /// the outbox was loaded for it and for the number of masters of the object. The outbox then holds
    /// the units that aren't 0 at load, and the start of that processor. It has the room that it had,
    /// which is that of the book's chip and masters.
    ///
    /// # Errors
    ///
    /// `NoMemory` if there is not enough memory: the object and the topology are dropped, and
    /// nothing is in the outbox.
    pub fn load(
        alloc: Global,
        object: Object,
        attached: List<Attached>,
        topology: Topology,
        out: &mut Outbox,
    ) -> Result<Book, NoMemory>
        requires formed { IsWellFormed topology }
        requires room { HasRoom topology (length object.masters) out.old }
        ensures book { IfOk result (λ book. book ≡ load_of object attached topology) }
        ensures out { IfOk result (λ book. Holds (outputs_at_load book) out.new) }
        ensures nothing { IfErr result (λ _. IsEmpty out.new) }
        ensures room { KeepsRoom out.old out.new }
        ensures ready { IfOk result (λ book. HasRoomFor book out.new) }

        // What holds of every book (`stays_sound`).
        ensures sound { IfOk result IsSound }
        ensures met { IfOk result (λ book. MeetsRequirements book (λ u. value u book)) }
    {
        units_stand_in_order();
        values_meet();
        out.clear();
        let tables = Tables::load(alloc, object, attached, topology)?;
        let kept = kept_of(alloc, &tables);
        let (tables, kept) = with(tables, kept)?;
        let ((mut caches, mut telling), changes) = kept;
        caches.update(
            &tables,
            &telling.along,
            &mut out.moved,
            &mut out.starts,
            &mut telling.notices,
        );
        begin(&tables, &mut telling);
        Ok(Book {
            tables,
            caches,
            telling,
            changes,
            served: None,
        })
    }

    /// One event. A message of a configured master that is active or suspending is a call, which is
    /// checked, changes the book if all checks pass, and is answered as its acknowledge kind says. A
    /// boot loader starts a processor that is off and that a configured master has, and a suspending one
    /// that waits for an interrupt sleeps. An interrupt wakes a processor that is asleep or suspending: one at
    /// the processor itself, or that of a slave on which a row is armed with the processor. With a tick time
    /// passes for each request to suspend. Such a request ends if its target becomes asleep or off, goes
    /// on in place of suspending or aborts, or if its time is over. No other event changes the book. The
    /// outbox, which was loaded for the book's topology and masters, then holds what this step puts out, in the
    /// room that it had. No memory is taken.
    #[tactic(auto, using(pm_step::proofs::Refused::refused_stays))]
    pub fn step(&mut self, event: &Event, out: &mut Outbox)
        requires room { HasRoomFor self.old out.old }
        ensures book { self.new ≡ effect event.now self.old }
        ensures fixed { self.new.fixed ≡ self.old.fixed }
        ensures out { Holds (outputs event.now self.old) out.new }
        ensures turned { out.new.turned ≡ turns_proc event.now self.old }
        ensures room { KeepsRoom out.old out.new }
        ensures ready { HasRoomFor self.new out.new }
        // A message that is dropped, or whose status isn't 0, changes nothing.
        ensures refused { IsTrue (is_refused event.now self.old) → self.new ≡ self.old }
        // What holds of every book (`stays_sound`).
        ensures sound { IsSound self.new }
        ensures met { MeetsRequirements self.new (λ u. value u self.new) }
    {
        out.clear();
        self.proceed(event, out);
        self.stays_sound();
    }

    /// Steps an event with an empty outbox: it is taken, the values are brought up to date by what was written down of it,
    /// the masters are told, and its sender is answered.
    fn proceed(&mut self, event: &Event, out: &mut Outbox)
        requires room { HasRoomFor self.old out.old }
        requires empty { IsEmpty out.old }
        ensures book { self.new ≡ effect event.now self.old }
        ensures out { Holds (outputs event.now self.old) out.new }
        ensures turned { out.new.turned ≡ turns_proc event.now self.old }
        ensures room { KeepsRoom out.old out.new }
    {
        units_stand_in_order();
        kinds_are_exact();
        books_stay_sound();
        let count = time_of(&self.tables, event);
        self.changes.clear();
        advance(
            &mut self.tables,
            &mut self.changes,
            &self.caches,
            event,
            &mut self.telling,
            &mut self.served,
        );
        out.turned = self.telling.moved;
        self.caches.bring(
            &self.changes,
            &self.tables,
            &self.telling.along,
            &mut out.moved,
            &mut out.starts,
            &mut self.telling.notices,
        );
        tell(
            &mut self.tables,
            &self.caches,
            &mut self.telling,
            count,
            &self.served,
            &mut out.late,
            &mut out.callbacks,
        );
        begin_after(&self.tables, &mut self.telling);
        out.pulse = pulse_in(&self.served);
        answer(&self.tables, &self.caches, &self.served, &mut out.answer);
    }

    /// The configuration object in force.
    pub fn object(&self) -> &Object
        ensures { result.now ≡ in_force self.now }
    {
        self.tables.in_force()
    }

    /// The configuration object that was loaded. The masters, their places and their processors are read of it.
    pub fn loaded(&self) -> &Object
        ensures { result.now ≡ self.now.fixed.object }
    {
        self.tables.object()
    }

    /// The objects of the run: the loaded one, and each attached one that can be put in force, which has the masters of
    /// the loaded one.
    pub fn objects(&self) -> &List<Object>
        ensures { result.now ≡ objects_of self.now.fixed }
    {
        self.tables.objects()
    }

    /// The parts of the chip, which have passed their check.
    pub fn topology(&self) -> &Topology
        ensures topology { result.now ≡ self.now.fixed.topology }
    {
        self.tables.topology()
    }

    /// What holds of every book: its chip has passed its check, the book is sound and meets its requirements, and each
    /// node that needs power in its value stands directly below a power node that is up.
    ///
    /// That it is sound: the object in force is one of the run's, exactly the pairs that it permits have a row, a slave
    /// that can't be shared has one user at most, the rows know the modes of the masters, nothing is scheduled while a
    /// master is active, one that is off uses nothing, a processor that no configured master has is off, a reset line
    /// that no object of the run lets any master reset is released, a row that is armed names a processor of its own
    /// master, the node of a request to suspend names the master on which it is pending, and each master has notes
    /// about each unit of the chip.
    ///
    /// That it meets its requirements: each slave stands in the first of its states that meets all that is required of
    /// it, each processor is at 1 exactly if it is active or suspending, and each power node is up exactly if it
    /// is held or something directly below needs power in its value.
    pub fn stays_sound(&self)
        ensures formed { IsWellFormed self.now.fixed.topology }
        ensures sound { IsSound self.now }
        ensures met { MeetsRequirements self.now (λ u. value u self.now) }
        ensures fed { IsFed self.now.fixed.topology (λ u. value u self.now) }
    {
        values_meet();
        self.tables.stays_well_formed();
    }

    /// The number of units.
    pub fn units(&self) -> usize
        ensures { result ≡ length (units self.now) }
    {
        self.caches.units()
    }

    /// The `k`-th unit, counted from 0: all nodes by number, and then all reset lines by number.
    pub fn unit(&self, k: usize) -> Unit
        requires place { k < length (units self.now) }
        ensures { slice_get (units self.now) k ≡ Some result }
    {
        match self.caches.unit(k) {
            Some(unit) => unit,
            None => unreachable!(),
        }
    }

    /// The value of a unit: the state of a slave, 1 for a processor that is active or suspending and for a
    /// power node that is up, and else 0, as for a unit that isn't there; of a reset line 1 while it is asserted. The
    /// state of a slave is its first one that has what is wanted of it.
    pub fn value(&self, unit: Unit) -> u32
        ensures value { result ≡ value unit self.now }
        ensures meets { StandsAsWanted unit result self.now }
    {
        values_meet();
        value(&self.tables, &self.caches, unit)
    }

    /// The value of the unit at a place, counted from 0, in the order of `unit`, and 0 past the last one. No unit is
    /// looked up.
    pub fn value_at(&self, place: usize) -> u32
        ensures value { (unit : Part) → slice_get (units_of self.now.fixed.topology) place ≡ Some unit
            → result ≡ value unit self.now }
        ensures past { slice_get (units_of self.now.fixed.topology) place ≡ None → result ≡ 0 }
    {
        value_at(&self.tables, &self.caches, place)
    }

    /// The operating point of a node (UG1200): of a processor the number of its mode, and of any other
    /// node its value.
    pub fn point(&self, node: NodeId) -> u32
        ensures { result ≡ point node self.now }
    {
        point(&self.tables, &self.caches, node)
    }

    /// What is shown of a unit: of a node its operating point, and of a reset line its value.
    pub fn shown(&self, unit: Unit) -> u32
        ensures { result ≡ shown unit self.now }
    {
        match unit {
            Unit::Node(node) => self.point(node),
            Unit::Line(_) => self.value(unit),
        }
    }

    /// The mode of a processor, and Off for any other node.
    pub fn mode(&self, proc: NodeId) -> Mode
        ensures { result ≡ mode proc self.now }
    {
        self.tables.mode(proc)
    }

    /// The mode of a configured master, and Off for any other node.
    pub fn master_mode(&self, master: NodeId) -> Mode
        ensures { result ≡ master_mode master self.now }
    {
        self.tables.master_mode(master)
    }

    /// The row of a master on a slave. There is none exactly if the object in force doesn't permit the
    /// pair: the master isn't configured, the slave isn't in the table, or the mask of the object's
    /// record of the slave lacks the master's bit.
    pub fn row(&self, master: NodeId, slave: NodeId) -> Option<Row>
        ensures row { result ≡ row master slave self.now }
        ensures permitted { is_some result
            ≡ may_use (in_force self.now) self.now.fixed.topology master slave }
    {
        books_stay_sound();
        self.tables.row(master, slave)
    }

    /// Who uses a slave, as a configured master is told: 0 nobody, 1 that master alone, 2 others alone, 3 both. There
    /// is no answer where the master isn't configured, or the slave isn't in the table.
    pub fn usage(&self, master: NodeId, slave: NodeId) -> Option<u32>
        ensures { result ≡ usage master slave self.now }
    {
        let master = self.tables.master_place(master)?;
        let slave = self.tables.slave_place(slave)?;
        Some(self.tables.rows().usage(master, slave))
    }
}

/// What is kept of the values of tables, before anything is found, what is logged of a step, and what it writes down.
fn kept_of(alloc: Global, tables: &Tables) -> Result<((Caches, Telling), Changes), NoMemory>
    ensures begun { IfOk result (λ kept. IsBegun tables.now kept.0.0 kept.0.1) }
    ensures places { IfOk result (λ kept. HasPlacesToWrite tables.now.fixed kept.1) }
{
    let kept = begun(alloc, tables)?;
    let t = tables.topology();
    let changes = Changes::load(
        alloc,
        t.slaves.len(),
        t.procs.len(),
        t.lines.len(),
        tables.masters(),
    );
    with(kept, changes)
}

/// What is kept of the values of tables, before anything is found, and what is logged of a step.
fn begun(alloc: Global, tables: &Tables) -> Result<(Caches, Telling), NoMemory>
    ensures { IfOk result (λ kept. IsBegun tables.now kept.0 kept.1) }
{
    let caches = Caches::load(alloc, tables)?;
    let procs = tables.topology().procs.len();
    let telling = Telling::load(alloc, caches.units(), tables.masters(), procs);
    with(caches, telling)
}
