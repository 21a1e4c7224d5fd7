//! Two runs side by side, one of them without the messages of a master.

ghost use Rattle.std.specs.Prelude.{◌≡◌, ◌<◌, IfOk, Some, false, length, slice_get};
ghost use Rattle.pm_topology.specs.WellFormed.{IsWellFormed};
ghost use Rattle.pm_topology.specs.UnitMap.{all_at};
ghost use Rattle.pm_topology.specs.Units.{units_of};
ghost use Rattle.pm_state.specs.State.{objects_of};
ghost use Rattle.pm_run.specs.Run.{loaded, setup};
ghost use Rattle.pm_isolate.specs.Marks.{proc_places};
ghost use Rattle.pm_isolate.specs.Moves.{line_moves};
ghost use Rattle.pm_isolate.specs.Within.{begun, is_own, line_after, stepped};

use crate::boxed_run::BoxedRun;
use crate::marks::{log, mark_at, proc_places};
use crate::moves::Moves;
use pm_base::{Event, List, NoMemory, NodeId, Unit, with};
use pm_laws::quiet_event;
use pm_object::{Attached, Object};
use pm_topology::{Topology, UnitMap, unit_map_places, units_of, units_stand_in_order};
use std::alloc::Global;
use std::marker::Model;

/// The run with all messages, the quiet run without those of a master, and for each unit whether it ever showed
/// different values in the two: contracts see these. A unit that moved in neither book shows what it showed before,
/// unless it is a processor: what it shows is its mode, which may change without its value. So after a line only the
/// units that moved are looked at, and the processors if a mode may have changed.
#[derive(Drop)]
pub struct Worlds {
    loud: BoxedRun,
    quiet: BoxedRun,
    differs: UnitMap<bool>,
    procs: Vec<usize>,
    moves: Moves,
    /// The room for a core event that isn't its line's own.
    made: Event,
    /// An event in which nothing happens.
    pass: Event,
}

impl Model for Worlds {
    ghost use Rattle.std.specs.Prelude.{◌≡◌};
    ghost use Rattle.pm_base.specs.declared.events.Event.TheVariants.{Pass};
    ghost use Rattle.pm_state.specs.Units.{units};
    ghost use Rattle.pm_isolate.specs.Marks.{proc_places};
    ghost use Rattle.pm_isolate.specs.Sides.{AreMarked, Sides};

    ghost Value = { Sides };

    ghost view = { λ w. record { loud = w.loud; quiet = w.quiet; differs = w.differs } };

    ghost invariant = { λ w. AreMarked w.loud.book w.quiet.book w.differs
        × (w.procs.items ≡ proc_places w.loud.book.fixed.topology 0 (units w.loud.book))
        × (w.pass ≡ Pass) };
}

impl Worlds {
    /// Both runs at load.
    ///
    /// # Errors
    ///
    /// `NoMemory` if there is not enough memory.
    pub fn load(
        alloc: Global,
        object: Object,
        attached: List<Attached>,
        topology: Topology,
    ) -> Result<Worlds, NoMemory>
        requires formed { IsWellFormed topology }
        ensures { IfOk result (λ worlds. worlds ≡ begun (setup object attached topology)) }
    {
        let beside = beside_of(alloc, &object, attached.as_slice(), &topology);
        let (given, (looked, quiet)) = with((object, attached, topology), beside)?;
        let (object, attached, topology) = given;
        let loud = BoxedRun::load(alloc, object, attached, topology);
        let ((looked, quiet), loud) = with((looked, quiet), loud)?;
        Ok(Worlds {
            loud,
            quiet,
            differs: looked.differs,
            procs: looked.procs,
            moves: looked.moves,
            made: Event::Pass,
            pass: Event::Pass,
        })
    }

    /// Runs one line in both books, and marks each unit that then shows different values. In place of a message of
    /// the master `m` nothing happens in the quiet book.
    pub fn step(&mut self, m: NodeId, event: &Event)
        ensures { self.new ≡ stepped m event.now self.old }
    {
        units_stand_in_order();
        unit_map_places::<bool>();
        let other = quiet_event(m, event, &self.pass);
        self.moves.clear();
        step_line(
            &mut self.loud,
            event,
            &self.differs,
            &mut self.moves,
            &mut self.made,
        );
        step_line(
            &mut self.quiet,
            other,
            &self.differs,
            &mut self.moves,
            &mut self.made,
        );
        log(
            self.loud.book(),
            self.quiet.book(),
            &self.moves,
            self.procs.as_slice(),
            &mut self.differs,
        );
    }

    /// The objects of the run: the loaded one, and each attached one that can be put in force.
    pub fn objects(&self) -> &List<Object>
        ensures { result.now ≡ objects_of self.now.loud.book.fixed }
    {
        self.loud.book().objects()
    }

    /// The chip of both books.
    pub fn topology(&self) -> &Topology
        ensures { result.now ≡ self.now.loud.book.fixed.topology }
    {
        self.loud.book().topology()
    }

    /// The number of units.
    pub fn units(&self) -> usize
        ensures { result ≡ length self.now.differs }
    {
        self.differs.len()
    }

    /// The `k`-th unit, counted from 0, and whether it was found to differ.
    pub fn mark(&self, k: usize) -> (Unit, bool)
        requires place { k < length self.now.differs }
        ensures { slice_get self.now.differs k ≡ Some result }
    {
        mark_at(&self.differs, k)
    }
}

/// The parts for looking at units after a line: the mark of each unit, the places of the processors, and a log of
/// moves.
#[derive(Drop)]
struct Looked {
    differs: UnitMap<bool>,
    procs: Vec<usize>,
    moves: Moves,
}

/// The parts beside the run with all messages at load: those for looking at units, and the quiet run. Fails with
/// `NoMemory`.
fn beside_of(
    alloc: Global,
    object: &Object,
    attached: &[Attached],
    t: &Topology,
) -> Result<(Looked, BoxedRun), NoMemory>
    requires formed { IsWellFormed t.now }
    ensures differs { IfOk result (λ beside. beside.0.differs ≡ all_at false (units_of t.now)) }
    ensures procs { IfOk result (λ beside. beside.0.procs.items ≡ proc_places t.now 0 (units_of t.now)) }
    ensures quiet { IfOk result (λ beside. beside.1 ≡ loaded (setup object.now attached.now t.now)) }
{
    let looked = looked_of(alloc, t)?;
    let quiet = copy_of(alloc, object, attached, t);
    with(looked, quiet)
}

/// The parts for looking at units before the first line: no unit is marked. Fails with `NoMemory`.
fn looked_of(alloc: Global, t: &Topology) -> Result<Looked, NoMemory>
    ensures differs { IfOk result (λ looked. looked.differs ≡ all_at false (units_of t.now)) }
    ensures procs { IfOk result (λ looked. looked.procs.items ≡ proc_places t.now 0 (units_of t.now)) }
{
    let procs = procs_of(alloc, t)?;
    let differs = UnitMap::load(alloc, t, false)?;
    let moves = Moves::load(alloc, differs.len())?;
    Ok(Looked {
        differs,
        procs,
        moves,
    })
}

/// The places of the processors among the units of a chip. Fails with `NoMemory`.
fn procs_of(alloc: Global, t: &Topology) -> Result<Vec<usize>, NoMemory>
    ensures { IfOk result (λ procs. procs.items ≡ proc_places t.now 0 (units_of t.now)) }
{
    let units = units_of(alloc, t)?;
    proc_places(alloc, t, units.as_slice())
}

/// A run at load, over copies of these in memory of their own. Fails with `NoMemory`.
fn copy_of(
    alloc: Global,
    object: &Object,
    attached: &[Attached],
    t: &Topology,
) -> Result<BoxedRun, NoMemory>
    requires formed { IsWellFormed t.now }
    ensures { IfOk result (λ run. run ≡ loaded (setup object.now attached.now t.now)) }
{
    let attached = copy_attached(alloc, attached)?;
    let (attached, object) = with(attached, object.copy(alloc))?;
    let ((attached, object), topology) = with((attached, object), t.copy(alloc))?;
    BoxedRun::load(alloc, object, attached, topology)
}

/// A copy of attached objects. Fails with `NoMemory`.
fn copy_attached(alloc: Global, attached: &[Attached]) -> Result<List<Attached>, NoMemory>
    ensures { IfOk result (λ copied. copied ≡ attached.now) }
{
    let mut copied = List::new(alloc);
    for one in attached {
        copied.push(one.copy(alloc)?)?;
    }
    Ok(copied)
}

/// Carries out the core events of a script line, and logs the places of the units that they move. A core event that
/// isn't the line's own is left in `made`.
fn step_line(
    runner: &mut BoxedRun,
    event: &Event,
    marks: &UnitMap<bool>,
    moves: &mut Moves,
    made: &mut Event,
)
    ensures stand { runner.new ≡ line_after event.now runner.old }
    ensures moves { moves.new ≡ line_moves marks.now event.now runner.old moves.old }
{
    // Pass has no effect.
    if let Event::Pass = event {
        return;
    }
    if is_own(event) {
        runner.step(event, marks, moves);
    } else {
        step_more(runner, event, marks, moves, made);
    }
}

/// Whether an event is the only core event of its line.
fn is_own(event: &Event) -> bool
    ensures { result ≡ is_own event.now }
{
    !matches!(event, Event::Post { .. } | Event::Serve | Event::Smc { .. })
}

/// Carries out the core events of any line, and logs the places of the units that they move. Most lines have only
/// their own event, and need no such loop.
#[inline(never)]
fn step_more(
    runner: &mut BoxedRun,
    event: &Event,
    marks: &UnitMap<bool>,
    moves: &mut Moves,
    made: &mut Event,
)
    ensures stand { runner.new ≡ line_after event.now runner.old }
    ensures moves { moves.new ≡ line_moves marks.now event.now runner.old moves.old }
{
    let parts = runner.split(event);
    let mut left = parts.cores;
    while let Some(core) = runner.next(&mut left, made) {
        let taken = core.event(made);
        runner.step(taken, marks, moves);
    }
}
