//! The run of a script over a configuration object and a device.

ghost use Rattle.std.specs.Prelude.{◌≡◌, ◌≢◌, ◌⊎◌, IfOk};
ghost use Rattle.pm_base.specs.declared.names.Unit.{Unit};
ghost use Rattle.pm_base.specs.Faults.{Rose};
ghost use Rattle.pm_io.specs.Inputs.{MayFail};
ghost use Rattle.pm_io.specs.Sink.{HasFailed, IsUnfailed};
ghost use Rattle.pm_io.specs.declared.prefix.StopReason.TheVariants.{Unbegun};
ghost use Rattle.pm_script.specs.Named.{script_in};
ghost use Rattle.pm_script.specs.Script.{script_limit, stop_of};
ghost use Rattle.pm_io.specs.Readings.{Meanwhile};
ghost use Rattle.pm_reader.specs.Follow.{IsBrokenOff};
ghost use Rattle.pm_reader.specs.Front.{Ahead, Attaches, WasReadAhead, ahead_of, ran};
ghost use Rattle.pm_reader.specs.Shown.{OfRead};
ghost use Rattle.pm_topology.specs.WellFormed.{IsWellFormed};
ghost use Rattle.pm_block.specs.Block.{attached_by};
ghost use Rattle.pm_object.specs.Grammar.{IsObject};
ghost use Rattle.pm_board.specs.Standing.{standing};
ghost use Rattle.pm_replay.specs.Within.{AreTold, IsLoaded, RanRest, RanScript, closing_report};
ghost use Rattle.pm_trace.specs.Exits.{EndsWith, IsStarved};
ghost use Rattle.pm_trace.specs.declared.faults.Fault.TheVariants.{Memory};
ghost use Rattle.pm_trace.specs.Report.{Reports, refusal};
ghost use Rattle.pm_trace.specs.Scripts.{ReadsBegun, ReadsScript, script_exit, script_named, script_or_fault};
ghost use Rattle.pm_replay.specs.Replayed.{AnswersHaveCauses, ClocksFollow, IsRun, LinesServe, LowersCalls, Replayed, ReplayedGiven, RunsKeepApart, TellsCalls};
ghost use Rattle.pm_run.specs.Run.{Setup, setup, setup_for, setup_of};
ghost use Rattle.pm_replay.specs.Safe.{IsSafe};
ghost use Rattle.pm_io.specs.World.{world};

use crate::lines::run_lines;
use pm_apart::driven_runs_keep_apart;
use pm_base::{Event, Exit, Failed, List, NoMemory, with};
use pm_block::{Block, attached_objects_are_formed};
use pm_board::{Board, happen};
use pm_causes::runs_have_causes;
use pm_device::Device;
use pm_drive::{
    calls_are_told, clocks_are_followed, driven_follows, power_calls_are_their_events,
    scripts_are_lowered,
};
use pm_engine::{Engine, write_closing, write_step};
use pm_io::{Inputs, Sink, StopReason};
use pm_modules::{ModulesOf, Responder};
use pm_object::{Attached, Object};
use pm_reader::{Front, LineStop};
use pm_run::boxes_of_a_run;
use pm_tasks::{Handler, TasksOf};
use pm_topology::Topology;
use pm_trace::{Fault, StepText, refuse};
use std::alloc::Global;
use std::mem::replace;

/// Runs the named script over an object and a device, and writes the text of the run. Step 0 makes the device follow
/// the book at load. Then each line is carried out: a node of the device is broken or mended if the line says so,
/// commands are given, clocks start or stop, and due tasks are called. A line's text is written before the next line
/// is read. Last comes the closing table, or the fault line of the exit.
///
/// The clocks' reply replaces the book's for a call on a clock, and a module's response for an API word of the
/// module. If the script can't be opened, no command is given and no task is called. Nothing takes memory after the
/// load, so that want of memory comes before the first command and the first byte of output.
///
/// Returns Done, BadLine, ReadFault, WriteFault, Memory or TooLarge.
pub fn replay<I: Inputs, O: Sink, D: Device, H: Responder, T: Handler>(
    alloc: Global,
    object: Object,
    topology: Topology,
    inputs: &mut I,
    script: &str,
    out: &mut O,
    dev: &mut D,
    modules: &ModulesOf<H>,
    tasks: &mut TasksOf<T>,
) -> Exit
    requires object { IsObject object }
    requires formed { IsWellFormed topology }
    requires idle { D.values_observable → (unit : Unit) → (D.state dev.old).value unit ≡ 0 }
    // On Done the input held a script under the name, and the whole text of its run was written, with the responses
    // of modules and the calls of tasks. The device was driven through that run.
    ensures done { I.observable → O.observable → result ≡ Exit.Done
        → IsRun I.Inputs O.Sink D.Device object topology
        (standing H.Responder T.Handler modules.now tasks.old)
        (standing H.Responder T.Handler modules.now tasks.new) script.now
        (world inputs.old out.old dev.old) (world inputs.new out.new dev.new) }
    // The exit follows from what the input holds, unless memory runs out or the sink fails.
    ensures decided { I.observable
        → EndsWith O.Sink (script_exit
        (script_or_fault (script_in (I.state inputs.old) script.now))) out.old out.new result }
    // For any input, it follows from what the reads of the script gave: on Done they gave a whole script, which was
    // run.
    ensures given { Meanwhile (I.state inputs.old) (I.state inputs.new) (λ calls. ReplayedGiven O.Sink D.Device object topology
        (standing H.Responder T.Handler modules.now tasks.old)
        (standing H.Responder T.Handler modules.now tasks.new) script.now calls
        (world (I.state inputs.old) out.old dev.old) (world (I.state inputs.new) out.new dev.new) result) }
    // On every exit: nothing was used without power, and no domain went down under its users.
    ensures safe { IsSafe D.Device topology dev.old dev.new }
    // On every exit: what was asked for, how much of it was written, what was done to the device, and the state of
    // the tasks.
    ensures ran { Replayed I.Inputs O.Sink D.Device object topology
        (standing H.Responder T.Handler modules.now tasks.old)
        (standing H.Responder T.Handler modules.now tasks.new) script.now
        (world inputs.old out.old dev.old) (world inputs.new out.new dev.new) result }
    // On every exit, for the run that the device was driven through: nothing that a master sends changes what is
    // beyond its reach.
    ensures keeps { RunsKeepApart D.Device object topology dev.old dev.new }
    // Each answer in a run has its causes in the book before its step.
    ensures causes { AnswersHaveCauses object topology }
    // Each line of a run that serves the boxes sends the message of each full box once, by rising mask of the
    // masters, and leaves all boxes empty.
    ensures boxes { LinesServe object topology }
    // The line of a power call is the run of the events that it becomes by the chip and the call alone, and then its
    // answer. So a script with power calls is the script with a line for each of these events.
    ensures calls { LowersCalls object topology }
    // Each line of a run tells exactly the calls of tasks that are due in it. A task that is stored before and after
    // was called as often as the lines tell, modulo 2 ^ 32.
    ensures tasks { TellsCalls object topology (standing H.Responder T.Handler modules.now tasks.old) }
    // In each run, at its load and after each core step, the clocks are as the accepted calls left them, without the
    // enables of masters that are off or may not use the clock's slave any more. A root runs if its slave is in a
    // state other than 0. Any other clock runs if a master enables it and its selected parent runs.
    ensures clocks { ClocksFollow object topology }
    // On every exit, for any inputs: the script is opened once, and read to its end, or to one byte past the limit,
    // or to a call that failed, or to where the run ends. Nothing else is opened or read.
    ensures begun { Meanwhile (I.state inputs.old) (I.state inputs.new) (ReadsScript result (script_named script.now)) }
    // On Memory nothing was written but the fault line, as far as the sink took it.
    ensures memory { result ≡ Exit.Memory → IsStarved O.Sink out.old out.new }
    // On Memory the device is as before.
    ensures untouched { result ≡ Exit.Memory → dev.old ≡ dev.new }
    // ReadFault comes only if the inputs' count of faults rose.
    ensures read_fault { result ≡ Exit.ReadFault → Rose (I.state inputs.old).faults (I.state inputs.new).faults }
    // If the inputs are observable, ReadFault comes only if the name isn't there, has a failing byte within the
    // limit, or no more inputs can be opened.
    ensures read_cause { I.observable → result ≡ Exit.ReadFault
        → MayFail script.now script_limit (I.state inputs.old) }
    // WriteFault comes only if a write failed, or took 0 bytes of a piece that isn't empty.
    ensures write_fault { result ≡ Exit.WriteFault → HasFailed (O.state out.old) (O.state out.new) }
    // Done comes only if no write failed, and none took 0 bytes of a piece that isn't empty.
    ensures unfailed { result ≡ Exit.Done → IsUnfailed (O.state out.old) (O.state out.new) }
{
    driven_runs_keep_apart::<D>();
    runs_have_causes();
    attached_objects_are_formed();
    boxes_of_a_run();
    power_calls_are_their_events();
    scripts_are_lowered();
    calls_are_told();
    clocks_are_followed();
    let mut board = Board {
        modules,
        tasks: replace(tasks, TasksOf::without_room(alloc)),
    };
    let exit = run_named(
        alloc, object, topology, inputs, script, out, dev, &mut board,
    );
    *tasks = board.tasks;
    exit
}

/// Opens the named script and runs it from the load of the object. Refuses with Read if it can't be opened.
fn run_named<I: Inputs, O: Sink, D: Device, H: Responder, T: Handler>(
    alloc: Global,
    object: Object,
    topology: Topology,
    inputs: &mut I,
    script: &str,
    out: &mut O,
    dev: &mut D,
    board: &mut Board<H, T>,
) -> Exit
    requires formed { IsWellFormed topology }
    requires idle { D.values_observable → (unit : Unit) → (D.state dev.old).value unit ≡ 0 }
    ensures ran { Replayed I.Inputs O.Sink D.Device object topology
        (standing H.Responder T.Handler board.old.modules.now board.old.tasks)
        (standing H.Responder T.Handler board.old.modules.now board.new.tasks) script.now
        (world inputs.old out.old dev.old) (world inputs.new out.new dev.new) result }
    ensures given { Meanwhile (I.state inputs.old) (I.state inputs.new) (λ calls. ReplayedGiven O.Sink D.Device object topology
        (standing H.Responder T.Handler board.old.modules.now board.old.tasks)
        (standing H.Responder T.Handler board.old.modules.now board.new.tasks) script.now calls
        (world (I.state inputs.old) out.old dev.old) (world (I.state inputs.new) out.new dev.new) result) }
    ensures begun { Meanwhile (I.state inputs.old) (I.state inputs.new) (ReadsScript result (script_named script.now)) }
{
    driven_follows::<D>();
    match inputs.begin(script) {
        Ok(id) => run_begun(alloc, object, topology, inputs, id, out, dev, board),
        Err(Failed) => {
            // Dropped here, where their types are generic: that costs less to prove.
            drop((object, topology));
            refuse(Fault::Read, out)
        }
    }
}

/// An engine at load, with what the script's block attaches, before the device gets any command; and the script,
/// whose block was read.
#[derive(Drop)]
struct Loaded {
    engine: Engine,
    front: Front,
}

/// Reads the block of an input that was just opened, and loads the book with what it attaches: all that takes memory.
/// Fails with `NoMemory`.
fn load<I: Inputs>(
    alloc: Global,
    object: Object,
    topology: Topology,
    inputs: &mut I,
    id: u32,
) -> Result<Loaded, NoMemory>
    requires formed { IsWellFormed topology }
    ensures loaded { IfOk result (λ found. IsLoaded found.engine) }
    ensures setup { IfOk result (λ found. setup_of found.engine.book
        ≡ setup object found.engine.book.fixed.attached topology) }
    ensures front { IfOk result (λ found. Attaches I.observable id
        (ahead_of (I.state inputs.old) found.engine.book.fixed.attached) (I.state inputs.new) found.front) }
    ensures reads { Meanwhile (I.state inputs.old) (I.state inputs.new) (IsBrokenOff id) }
{
    let read = read_block(alloc, inputs, id);
    let ((object, topology), (front, attached)) = with((object, topology), read)?;
    let engine = Engine::load(alloc, object, attached, topology);
    let (front, engine) = with(front, engine)?;
    Ok(Loaded { engine, front })
}

/// Reads the block of an input that was just opened: returns the script behind it, and what it attaches. Fails with
/// `NoMemory`.
fn read_block<I: Inputs>(
    alloc: Global,
    inputs: &mut I,
    id: u32,
) -> Result<(Front, List<Attached>), NoMemory>
    ensures front { IfOk result (λ read. Attaches I.observable id (ahead_of (I.state inputs.old) read.1)
        (I.state inputs.new) read.0) }
    ensures reads { Meanwhile (I.state inputs.old) (I.state inputs.new) (IsBrokenOff id) }
{
    let mut block = Block::new(alloc);
    let front = Front::read(alloc, inputs, id, &mut block)?;
    let attached = block.attached(alloc)?;
    Ok((front, attached))
}

/// Runs the script in an input that was just opened, from the load of the object with what its block attaches.
/// Without enough memory the exit is Memory, and the device and the tasks stay as they were.
fn run_begun<I: Inputs, O: Sink, D: Device, H: Responder, T: Handler>(
    alloc: Global,
    object: Object,
    topology: Topology,
    inputs: &mut I,
    id: u32,
    out: &mut O,
    dev: &mut D,
    board: &mut Board<H, T>,
) -> Exit
    requires formed { IsWellFormed topology }
    ensures ran { (Reports O.Sink (refusal Memory) out.old out.new result × (dev.old ≡ dev.new)
        × (board.old.tasks ≡ board.new.tasks))
        ⊎ OfRead I.observable id (I.state inputs.old) (I.state inputs.new)
        (λ s. RanScript O.Sink D.Device (setup_for object topology s.events) (ran s) out.old out.new dev.old dev.new
        (standing H.Responder T.Handler board.old.modules.now board.old.tasks)
        (standing H.Responder T.Handler board.old.modules.now board.new.tasks) result) }
    ensures fault { result ≡ Exit.ReadFault → Rose (I.state inputs.old).faults (I.state inputs.new).faults }
    ensures reads { Meanwhile (I.state inputs.old) (I.state inputs.new) (ReadsBegun result id) }
{
    match load(alloc, object, topology, inputs, id) {
        Ok(mut loaded) => {
            let exit = run(
                &mut loaded.engine,
                &mut loaded.front,
                inputs,
                id,
                out,
                dev,
                board,
            );
            drop(loaded);
            exit
        }
        Err(NoMemory) => refuse(Fault::Memory, out),
    }
}

/// Runs a script from its load, and writes its text. To tasks step 0 is a line in which nothing happens: calls that
/// were left before are made.
fn run<I: Inputs, O: Sink, D: Device, H: Responder, T: Handler>(
    engine: &mut Engine,
    front: &mut Front,
    inputs: &mut I,
    id: u32,
    out: &mut O,
    dev: &mut D,
    board: &mut Board<H, T>,
) -> Exit
    requires front { WasReadAhead I.observable id (I.state inputs.old) front.old }
    requires loaded { IsLoaded engine.old }
    ensures ran { (ahead : Ahead) → Attaches I.observable id ahead (I.state inputs.old) front.old
        → OfRead I.observable id ahead.first (I.state inputs.new)
        (λ s. (attached_by s.events ≡ ahead.attached)
        × RanScript O.Sink D.Device (setup_of engine.old.book) (ran s) out.old out.new dev.old dev.new
        (standing H.Responder T.Handler board.old.modules.now board.old.tasks)
        (standing H.Responder T.Handler board.old.modules.now board.new.tasks) result) }
    ensures fault { (ahead : Ahead) → Attaches I.observable id ahead (I.state inputs.old) front.old
        → result ≡ Exit.ReadFault → Rose ahead.first.faults (I.state inputs.new).faults }
    ensures reads { (ahead : Ahead) → Attaches I.observable id ahead (I.state inputs.old) front.old
        → Meanwhile ahead.first (I.state inputs.new) (ReadsBegun result id) }
{
    engine.start(dev);
    happen(&mut board.tasks, &Event::Pass);
    let outbox = engine.outbox();
    let mut text = StepText::new();
    match write_step(0, outbox, &outbox.answer, &mut text, out) {
        Ok(()) => run_rest(engine, front, inputs, id, out, dev, board),
        Err(Failed) => Exit::WriteFault,
    }
}

/// Runs the lines of a script, and writes what follows them: the closing table, or a fault line.
fn run_rest<I: Inputs, O: Sink, D: Device, H: Responder, T: Handler>(
    engine: &mut Engine,
    front: &mut Front,
    inputs: &mut I,
    id: u32,
    out: &mut O,
    dev: &mut D,
    board: &mut Board<H, T>,
) -> Exit
    requires front { WasReadAhead I.observable id (I.state inputs.old) front.old }
    ensures ran { (ahead : Ahead) → Attaches I.observable id ahead (I.state inputs.old) front.old
        → (c : Setup) → setup_of engine.old.book ≡ c → AreTold engine.old.clocks
        → OfRead I.observable id ahead.first (I.state inputs.new)
        (λ s. (attached_by s.events ≡ ahead.attached)
        × RanRest O.Sink D.Device c 1 (ran s) engine.old out.old out.new dev.old dev.new
        (standing H.Responder T.Handler board.old.modules.now board.old.tasks)
        (standing H.Responder T.Handler board.old.modules.now board.new.tasks) result) }
    ensures fault { (ahead : Ahead) → Attaches I.observable id ahead (I.state inputs.old) front.old
        → result ≡ Exit.ReadFault → Rose ahead.first.faults (I.state inputs.new).faults }
    ensures reads { (ahead : Ahead) → Attaches I.observable id ahead (I.state inputs.old) front.old
        → Meanwhile ahead.first (I.state inputs.new) (ReadsBegun result id) }
{
    match run_lines(engine, front, inputs, id, out, dev, board) {
        Ok(end) => finish(engine, end.stop, out),
        Err(LineStop::Bad(number, cause)) => refuse(Fault::Line(number, cause), out),
        Err(LineStop::Broken) => Exit::WriteFault,
    }
}

/// Writes what follows the last line: the closing table, or the fault line if the script can't be read on.
fn finish<O: Sink>(engine: &Engine, stop: StopReason, out: &mut O) -> Exit
    requires begins { stop ≢ Unbegun }
    ensures { Reports O.Sink (closing_report
        (stop_of stop) engine.now.book engine.now.kept engine.now.clocks.tree)
        out.old out.new result }
{
    match stop {
        StopReason::End => match write_closing(engine, out) {
            Ok(()) => Exit::Done,
            Err(Failed) => Exit::WriteFault,
        },
        StopReason::Limit => refuse(Fault::Size, out),
        StopReason::Failure | StopReason::Unbegun => refuse(Fault::Read, out),
    }
}
