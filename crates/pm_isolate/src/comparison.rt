//! The comparison of a script's run with the run without the messages of a master.

ghost use Rattle.std.specs.Prelude.{◌≡◌, ◌≢◌, ◌==◌, ◌⊎◌, List as Sequence, IfErr, IfOk, IsTrue};
ghost use Rattle.std.specs.List.{list_any};
ghost use Rattle.pm_base.specs.Faults.{Rose};
ghost use Rattle.pm_io.specs.Inputs.{MayFail};
ghost use Rattle.pm_io.specs.Sink.{HasFailed, IsUnfailed};
ghost use Rattle.pm_io.specs.declared.prefix.StopReason.TheVariants.{Unbegun};
ghost use Rattle.pm_object.specs.declared.attached.Attached.{Attached};
ghost use Rattle.pm_block.specs.Block.{attached_by};
ghost use Rattle.pm_object.specs.Grammar.{IsObject};
ghost use Rattle.pm_perms.specs.Several.{masters_of};
ghost use Rattle.pm_topology.specs.WellFormed.{IsWellFormed};
ghost use Rattle.pm_reach.specs.declared.members.Member.{Member};
ghost use Rattle.pm_reach.specs.Membership.{IsReach};
ghost use Rattle.pm_state.specs.State.{objects_in};
ghost use Rattle.pm_script.specs.Named.{script_in};
ghost use Rattle.pm_script.specs.Script.{script_limit, stop_of};
ghost use Rattle.pm_io.specs.Readings.{Meanwhile};
ghost use Rattle.pm_reader.specs.Follow.{IsBrokenOff};
ghost use Rattle.pm_reader.specs.Front.{Ahead, Attaches, WasReadAhead, ahead_of, ran};
ghost use Rattle.pm_reader.specs.Shown.{OfRead};
ghost use Rattle.pm_trace.specs.Exits.{EndsWith, IsStarved};
ghost use Rattle.pm_trace.specs.declared.faults.Fault.TheVariants.{Memory};
ghost use Rattle.pm_trace.specs.Report.{Reports, refusal};
ghost use Rattle.pm_trace.specs.Scripts.{ReadsBegun, ReadsScript, script_exit, script_named, script_or_fault};
ghost use Rattle.pm_run.specs.Run.{setup, setup_for};
ghost use Rattle.pm_isolate.specs.Compared.{Compared, ComparedGiven, IsCompared};
ghost use Rattle.pm_isolate.specs.Differences.{isolate_report};
ghost use Rattle.pm_isolate.specs.Within.{IsPrepared, IsReachText, RanGiven, end_report, report_behind, rest_report};

use crate::laws::what_differs_is_reached;
use crate::lines::run_lines;
use crate::worlds::Worlds;
use crate::writing::write_end;
use pm_base::{Exit, Failed, List, NoMemory, NodeId, with};
use pm_block::{Block, attached_objects_are_formed};
use pm_io::{Inputs, Sink, StopReason, write_all};
use pm_object::{Attached, Object};
use pm_reach::reach;
use pm_reader::{Front, LineStop};
use pm_topology::Topology;
use pm_trace::{Fault, reach_text, refuse};
use std::alloc::Global;
use std::mem::drop;

/// Compares the run of the named script over an object with the run without the messages of the master `m`. In the
/// second run nothing happens in place of each such message. No device is involved.
///
/// First the reach of the master is written. Then each line is run in both books. Last come a line for each unit
/// whose transitions differ, and the number of script lines; or the fault line of the exit. If the script can't be
/// opened there is only the fault line. Nothing takes memory after both loads, so that want of memory comes before
/// the first byte of output. `m` has to be a master of the object, which `has_key` tests.
///
/// Returns Done, BadLine, ReadFault, WriteFault, Memory or TooLarge.
pub fn compare<I: Inputs, O: Sink>(
    alloc: Global,
    object: Object,
    topology: Topology,
    m: NodeId,
    inputs: &mut I,
    script: &str,
    out: &mut O,
) -> Exit
    requires object { IsObject object }
    requires formed { IsWellFormed topology }
    requires named { IsTrue (list_any (λ r. r.node == m.0) object.masters) }
    // On Done the input held a script under the name, and the whole text was written: the reach of the master, the
    // units whose transitions differ in the two runs, and the number of script lines. Each of these units is in that
    // reach, or is a processor of a master that is.
    ensures done { I.observable → O.observable → result ≡ Exit.Done
        → IsCompared I.Inputs O.Sink object topology m script.now inputs.old out.old out.new }
    // The exit follows from what the input holds, unless memory runs out or the sink fails.
    ensures decided { I.observable
        → EndsWith O.Sink (script_exit (script_or_fault
        (script_in (I.state inputs.old) script.now))) out.old out.new result }
    // For any input, it follows from what the reads of the script gave: on Done they gave a whole script, which was
    // compared.
    ensures given { Meanwhile (I.state inputs.old) (I.state inputs.new) (λ calls. ComparedGiven O.Sink object topology m
        script.now calls (I.state inputs.old) (I.state inputs.new) out.old out.new result) }
    // On every exit: what was asked for, and how much of it was written.
    ensures ran { Compared I.Inputs O.Sink object topology m script.now
        inputs.old inputs.new out.old out.new result }
    // On every exit, for any inputs: the script is opened once, and read to its end, or to one byte past the limit,
    // or to a call that failed, or to where the run ends. Nothing else is opened or read.
    ensures begun { Meanwhile (I.state inputs.old) (I.state inputs.new) (ReadsScript result (script_named script.now)) }
    // On Memory nothing was written but the fault line, as far as the sink took it.
    ensures memory { result ≡ Exit.Memory → IsStarved O.Sink out.old out.new }
    // ReadFault comes only if the inputs' count of faults rose.
    ensures read_fault { result ≡ Exit.ReadFault → Rose (I.state inputs.old).faults (I.state inputs.new).faults }
    // If the inputs are observable, ReadFault comes only if the name isn't there, has a failing byte within the
    // limit, or no more inputs can be opened.
    ensures read_cause { I.observable → result ≡ Exit.ReadFault
        → MayFail script.now script_limit (I.state inputs.old) }
    // WriteFault comes only if a write failed, or took 0 bytes of a piece that isn't empty.
    ensures write_fault { result ≡ Exit.WriteFault → HasFailed (O.state out.old) (O.state out.new) }
    // Done comes only if no write failed, and none took 0 bytes of a piece that isn't empty.
    ensures unfailed { result ≡ Exit.Done → IsUnfailed (O.state out.old) (O.state out.new) }
{
    what_differs_is_reached();
    attached_objects_are_formed();
    compare_named(alloc, object, topology, m, inputs, script, out)
}

/// Opens the named script and compares its two runs. Refuses with Read if it can't be opened.
fn compare_named<I: Inputs, O: Sink>(
    alloc: Global,
    object: Object,
    topology: Topology,
    m: NodeId,
    inputs: &mut I,
    script: &str,
    out: &mut O,
) -> Exit
    requires formed { IsWellFormed topology }
    requires named { IsTrue (list_any (λ r. r.node == m.0) object.masters) }
    ensures ran { Compared I.Inputs O.Sink object topology m script.now inputs.old inputs.new out.old out.new result }
    ensures given { Meanwhile (I.state inputs.old) (I.state inputs.new)
        (RanGiven O.Sink object topology m script.now (I.state inputs.old) (I.state inputs.new) out.old out.new result) }
    ensures begun { Meanwhile (I.state inputs.old) (I.state inputs.new) (ReadsScript result (script_named script.now)) }
{
    match inputs.begin(script) {
        Ok(id) => compare_begun(alloc, object, topology, m, inputs, id, out),
        Err(Failed) => refuse(Fault::Read, out),
    }
}

/// All that is ready before the first line: the text of the reach, both books at load with what the block attaches,
/// and the script, whose block was read.
#[derive(Drop)]
pub(crate) struct Prepared {
    pub reach: Vec<u8>,
    pub worlds: Worlds,
    pub front: Front,
}

/// Reads the block of an input that was just opened, loads both books with what it attaches, and finds the reach: all
/// that takes memory. Fails with `NoMemory`.
fn prepare<I: Inputs>(
    alloc: Global,
    object: Object,
    topology: Topology,
    m: NodeId,
    inputs: &mut I,
    id: u32,
) -> Result<Prepared, NoMemory>
    requires formed { IsWellFormed topology }
    requires named { IsTrue (list_any (λ r. r.node == m.0) object.masters) }
    ensures prepared { IfOk result (λ found. (attached : Sequence Attached)
        × IsPrepared I.observable id (ahead_of (I.state inputs.old) attached) (I.state inputs.new)
        (setup object attached topology) m found) }
    ensures reads { IfErr result (λ _. Meanwhile (I.state inputs.old) (I.state inputs.new) (IsBrokenOff id)) }
{
    let ahead = read_ahead(alloc, inputs, id);
    let ((object, topology), (front, attached)) = with((object, topology), ahead)?;
    let worlds = Worlds::load(alloc, object, attached, topology);
    let (front, worlds) = with(front, worlds)?;
    let reach = text_of(alloc, worlds.objects().as_slice(), worlds.topology(), m);
    let ((front, worlds), reach) = with((front, worlds), reach)?;
    Ok(Prepared {
        reach,
        worlds,
        front,
    })
}

/// Reads the block of an input that was just opened: returns the script behind it, and what it attaches. Fails with
/// `NoMemory`.
fn read_ahead<I: Inputs>(
    alloc: Global,
    inputs: &mut I,
    id: u32,
) -> Result<(Front, List<Attached>), NoMemory>
    ensures ahead { IfOk result (λ read. Attaches I.observable id (ahead_of (I.state inputs.old) read.1)
        (I.state inputs.new) read.0) }
    ensures reads { Meanwhile (I.state inputs.old) (I.state inputs.new) (IsBrokenOff id) }
{
    let mut block = Block::new(alloc);
    let front = Front::read(alloc, inputs, id, &mut block)?;
    let attached = block.attached(alloc);
    with(front, attached)
}

/// The text of the reach of a master, which one of the objects has. Fails with `NoMemory`.
fn text_of(alloc: Global, objects: &[Object], t: &Topology, m: NodeId) -> Result<Vec<u8>, NoMemory>
    requires { IsTrue (list_any (λ r. r.node == m.0) (masters_of objects.now)) }
    ensures { IfOk result (λ text. IsReachText objects.now t.now m text.items) }
{
    let found = reach(alloc, objects, t, m)?;
    reach_text(alloc, &found)
}

/// Compares the two runs of the script in an input that was just opened, from the load with what its block attaches.
/// Without enough memory the exit is Memory, and nothing else is written.
fn compare_begun<I: Inputs, O: Sink>(
    alloc: Global,
    object: Object,
    topology: Topology,
    m: NodeId,
    inputs: &mut I,
    id: u32,
    out: &mut O,
) -> Exit
    requires formed { IsWellFormed topology }
    requires named { IsTrue (list_any (λ r. r.node == m.0) object.masters) }
    ensures ran { Reports O.Sink (refusal Memory) out.old out.new result
        ⊎ OfRead I.observable id (I.state inputs.old) (I.state inputs.new) (λ s. (members : Sequence Member)
        × IsReach (objects_in object (attached_by s.events)) topology m members
        × Reports O.Sink (isolate_report (setup_for object topology s.events) m members
        (ran s)) out.old out.new result) }
    ensures fault { result ≡ Exit.ReadFault → Rose (I.state inputs.old).faults (I.state inputs.new).faults }
    ensures reads { Meanwhile (I.state inputs.old) (I.state inputs.new) (ReadsBegun result id) }
{
    match prepare(alloc, object, topology, m, inputs, id) {
        Ok(mut prepared) => {
            let exit = run(&mut prepared, m, inputs, id, out);
            drop(prepared);
            exit
        }
        Err(NoMemory) => refuse(Fault::Memory, out),
    }
}

/// Writes the text of the reach, and compares the two runs of the rest of the script.
fn run<I: Inputs, O: Sink>(
    prepared: &mut Prepared,
    m: NodeId,
    inputs: &mut I,
    id: u32,
    out: &mut O,
) -> Exit
    requires front { WasReadAhead I.observable id (I.state inputs.old) prepared.old.front }
    ensures ran { (ahead : Ahead) → Attaches I.observable id ahead (I.state inputs.old) prepared.old.front
        → OfRead I.observable id ahead.first (I.state inputs.new) (λ s. (attached_by s.events ≡ ahead.attached)
        × Reports O.Sink (report_behind prepared.old.reach.items
        (rest_report m (ran s) prepared.old.worlds)) out.old out.new result) }
    ensures fault { (ahead : Ahead) → Attaches I.observable id ahead (I.state inputs.old) prepared.old.front
        → result ≡ Exit.ReadFault → Rose ahead.first.faults (I.state inputs.new).faults }
    ensures reads { (ahead : Ahead) → Attaches I.observable id ahead (I.state inputs.old) prepared.old.front
        → Meanwhile ahead.first (I.state inputs.new) (ReadsBegun result id) }
{
    match write_all(out, prepared.reach.as_slice()) {
        Ok(()) => run_rest(
            &mut prepared.worlds,
            &mut prepared.front,
            m,
            inputs,
            id,
            out,
        ),
        Err(Failed) => Exit::WriteFault,
    }
}

/// Runs the lines of a script in both books, and writes what follows them: the differences, or a fault line.
fn run_rest<I: Inputs, O: Sink>(
    worlds: &mut Worlds,
    front: &mut Front,
    m: NodeId,
    inputs: &mut I,
    id: u32,
    out: &mut O,
) -> Exit
    requires front { WasReadAhead I.observable id (I.state inputs.old) front.old }
    ensures ran { (ahead : Ahead) → Attaches I.observable id ahead (I.state inputs.old) front.old
        → OfRead I.observable id ahead.first (I.state inputs.new) (λ s. (attached_by s.events ≡ ahead.attached)
        × Reports O.Sink (rest_report m (ran s) worlds.old) out.old out.new result) }
    ensures fault { (ahead : Ahead) → Attaches I.observable id ahead (I.state inputs.old) front.old
        → result ≡ Exit.ReadFault → Rose ahead.first.faults (I.state inputs.new).faults }
    ensures reads { (ahead : Ahead) → Attaches I.observable id ahead (I.state inputs.old) front.old
        → Meanwhile ahead.first (I.state inputs.new) (ReadsBegun result id) }
{
    match run_lines(worlds, front, m, inputs, id) {
        Ok(end) => finish(worlds, end.stop, end.count, out),
        Err(LineStop::Bad(number, cause)) => refuse(Fault::Line(number, cause), out),
        Err(LineStop::Broken) => unreachable!(),
    }
}

/// Writes what follows the last line: the differences, or the fault line if the script can't be read on.
fn finish<O: Sink>(worlds: &Worlds, stop: StopReason, count: u32, out: &mut O) -> Exit
    requires begins { stop ≢ Unbegun }
    ensures { Reports O.Sink (end_report (stop_of stop) worlds.now count) out.old out.new result }
{
    match stop {
        StopReason::End => match write_end(worlds, count, out) {
            Ok(()) => Exit::Done,
            Err(Failed) => Exit::WriteFault,
        },
        StopReason::Limit => refuse(Fault::Size, out),
        StopReason::Failure | StopReason::Unbegun => refuse(Fault::Read, out),
    }
}
