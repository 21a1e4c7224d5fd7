//! The top call: a run of the program.

ghost use Rattle.std.specs.Prelude.{◌≡◌, ◌↔◌, ℕ, Option, None, Some, map, string_bytes};
ghost use Rattle.pm_base.specs.declared.names.Unit.{Unit};
ghost use Rattle.pm_base.specs.Faults.{Rose};
ghost use Rattle.pm_io.specs.Readings.{Meanwhile};
ghost use Rattle.pm_io.specs.Sink.{HasFailed, IsUnfailed};
ghost use Rattle.pm_trace.specs.Exits.{IsStarved};
ghost use Rattle.pm_io.specs.World.{world};
ghost use Rattle.pm_board.specs.Standing.{standing};
ghost use Rattle.pm_top.specs.Complete.{IsComplete};
ghost use Rattle.pm_top.specs.Done.{DoneBy, IsDone, WorkDone, WorkDoneBy};
ghost use Rattle.pm_top.specs.declared.works.Work.TheVariants.{Replay};
ghost use Rattle.pm_top.specs.Fit.{IsSafeRun};
ghost use Rattle.pm_top.specs.Given.{GaveEach, HoldsEach};
ghost use Rattle.pm_top.specs.Headline.{Headline};
ghost use Rattle.pm_top.specs.Outcome.{Outcome};
ghost use Rattle.pm_top.specs.Form.{form, form_of, over, request_of, topology_in};
ghost use Rattle.pm_top.specs.Reads.{FormReads};
ghost use Rattle.pm_top.specs.Ran.{Decides, DroveRun, EachEmptiesBoxes, EachFollowsClocks, EachHasCauses, EachKeepsApart, EachLowersCalls, EachTellsCalls, InputsMayFail, IsBeforeRun, Ran, RanForm, RanGiven};

use crate::reading::{read_subject, script_word};
use crate::works::{Request, do_work, form_of, request_of};
use pm_base::Exit;
use pm_block::attached_objects_are_formed;
use pm_board::Board;
use pm_causes::runs_have_causes;
use pm_device::Device;
use pm_drive::{
    calls_are_told, clocks_are_followed, power_calls_are_their_events, scripts_are_lowered,
};
use pm_io::{Inputs, Sink};
use pm_isolate::what_differs_is_reached;
use pm_laws::reach_is_closed;
use pm_modules::{ModulesOf, Responder};
use pm_object::one_reading;
use pm_objtext::one_meaning;
use pm_replay::driven_runs_keep_apart;
use pm_run::boxes_of_a_run;
use pm_tasks::{Handler, TasksOf};
use pm_topology::kinds_are_exact;
use pm_trace::{Fault, exits_say, refuse};
use std::alloc::Global;
use std::mem::replace;

/// Does all that the program does, by the words after its own name, and returns the exit.
///
/// - `replay OBJ SCRIPT` runs a script over an object.
/// - `reach OBJ NODE` writes what a master of an object can reach.
/// - `isolate OBJ SCRIPT NODE` writes that, and the differences between the run of the script and the run without the
///   messages of the master.
/// - `print OBJ` writes the text of an object, and `build TEXT` the bytes of the object that a text says.
/// - `make N` writes the summary of the run of a generated script of N lines.
/// - `table` writes the text of the chip's topology.
///
/// OBJ, SCRIPT, TEXT and TOPO are names of the inputs. A `TOPO` behind the words of the first three names the text of
/// a topology, which replaces the chip's. Any other words end with Usage.
///
/// `replay` and `make` drive the device, which is at 0 everywhere before, as the book requires; a `replay` with a
/// `TOPO` fits it to that topology first. In both, modules answer messages with their words, and timed tasks are
/// started, taken out and called. Nothing else touches the device and the tasks.
pub fn pm_main<I: Inputs, O: Sink, D: Device, H: Responder, T: Handler>(
    alloc: Global,
    words: &[String],
    inputs: &mut I,
    out: &mut O,
    dev: &mut D,
    modules: &ModulesOf<H>,
    tasks: &mut TasksOf<T>,
) -> Exit
    requires idle { D.values_observable → (unit : Unit) → (D.state dev.old).value unit ≡ 0 }
    // On Done the inputs held what the words name, and all that the words ask for was written; `replay` and `make`
    // drove the device through the run of the script over the object.
    ensures done { I.observable → O.observable → result ≡ Exit.Done
        → IsDone I.Inputs O.Sink D.Device (map string_bytes words.now)
        (standing H.Responder T.Handler modules.now tasks.old)
        (standing H.Responder T.Handler modules.now tasks.new)
        (world inputs.old out.old dev.old) (world inputs.new out.new dev.new) }
    // On Done of `replay` the headline holds for the bytes that the inputs held.
    ensures headline { I.observable → O.observable → (named : Option ℕ) → result ≡ Exit.Done
        → request_of (map string_bytes words.now) ≡ Some (over named Replay)
        → Headline O.Sink D.Device (HoldsEach (I.state inputs.old)) named (map string_bytes words.now)
        (standing H.Responder T.Handler modules.now tasks.old) out.old out.new dev.old dev.new }
    // On every exit, for any inputs: the result of the run by what all their calls gave. That decides the exit; on Done
    // it is right and the whole text was written; and on Done of `replay` the headline holds for it.
    ensures given { Meanwhile (I.state inputs.old) (I.state inputs.new) (λ calls.
        Outcome O.Sink D.Device (map string_bytes words.now)
        (standing H.Responder T.Handler modules.now tasks.old)
        (standing H.Responder T.Handler modules.now tasks.new) calls out.old out.new dev.old dev.new result) }
    // Usage comes exactly if the words have no form.
    ensures usage { (result ≡ Exit.Usage) ↔ (form (map string_bytes words.now) ≡ None) }
    // On Done of `replay`, whatever the inputs and the sink show, the device was driven through the whole run of a
    // script over an object and the chip, or, if the words name a topology, over one to which it was fitted first.
    ensures driven { (named : Option ℕ) → result ≡ Exit.Done
        → request_of (map string_bytes words.now) ≡ Some (over named Replay) → DroveRun D.Device named dev.old dev.new }
    // The exit follows from what the inputs hold, unless memory runs out or the sink fails.
    ensures decided { I.observable
        → Decides O.Sink (map string_bytes words.now) (I.state inputs.old) out.old out.new result }
    // If all that the words ask for is right, the inputs show no cause of a fault, and the sink doesn't fail, then
    // the exit is Done, or memory ran out.
    ensures complete { IsComplete I.Inputs O.Sink D.Device (map string_bytes words.now)
        (standing H.Responder T.Handler modules.now tasks.old)
        (standing H.Responder T.Handler modules.now tasks.new)
        (world inputs.old out.old dev.old) (world inputs.new out.new dev.new) result }
    // On every exit: what was asked for, how much of it was written, what was done to the device, and the state of
    // the tasks.
    ensures ran { Ran I.Inputs O.Sink D.Device (map string_bytes words.now)
        (standing H.Responder T.Handler modules.now tasks.old)
        (standing H.Responder T.Handler modules.now tasks.new)
        (world inputs.old out.old dev.old) (world inputs.new out.new dev.new) result }
    // On every exit: nothing was used without power, and no domain went down under its users.
    ensures safe { IsSafeRun D.Device (topology_in (map string_bytes words.now)) dev.old dev.new }
    // On every exit, for a run of any object and topology that the device was driven through: nothing that a master
    // sends changes what is beyond its reach.
    ensures keeps { EachKeepsApart D.Device dev.new }
    // Each answer in a run of any object and topology has its causes in the book before its step.
    ensures causes { EachHasCauses }
    // Each line that serves the boxes, in a run of any object and topology, sends the message of each full box once,
    // by rising mask of the masters, and leaves all boxes empty.
    ensures boxes { EachEmptiesBoxes }
    // The line of a power call, in a run of any object and topology, is the run of the events that it becomes by the
    // topology and the call alone, and then its answer. So a script with power calls is the script with a line for
    // each of these events.
    ensures calls { EachLowersCalls }
    // Each line in a run of any object and topology tells exactly the calls of timed tasks that are due in it. A task
    // that is stored before and after was called as often as the lines tell.
    ensures tasks { EachTellsCalls (standing H.Responder T.Handler modules.now tasks.old) }
    // At the load of a run of any object and topology, and after each of its core steps, the clocks are as the
    // accepted calls left them, without the enables of masters that are off or may not use the clock's slave by the
    // object in force. A root runs if its slave is in a state other than 0. Any other clock runs if a master enables
    // it and its selected parent runs.
    ensures clocks { EachFollowsClocks }
    // On every exit, for any inputs: the names of the words are opened in the order of the work, each once, and read
    // to their end, or to one byte past the limit, or to where the run ends. Nothing else is opened or read.
    ensures begun { Meanwhile (I.state inputs.old) (I.state inputs.new)
        (FormReads (form (map string_bytes words.now)) (map string_bytes words.now) result) }
    // Before a script is run nothing is done to the device, except that it may be fitted before memory runs out.
    ensures untouched { IsBeforeRun (form (map string_bytes words.now)) result → dev.old ≡ dev.new }
    // And no task is started, taken out or called before.
    ensures still { IsBeforeRun (form (map string_bytes words.now)) result
        → standing H.Responder T.Handler modules.now tasks.old ≡ standing H.Responder T.Handler modules.now tasks.new }
    // On Memory nothing was written but the fault line, as far as the sink took it.
    ensures memory { result ≡ Exit.Memory → IsStarved O.Sink out.old out.new }
    // ReadFault comes only if the inputs' count of faults rose. (Here and below, a count at its greatest value, which
    // can't rise, counts as risen.)
    ensures read_fault { result ≡ Exit.ReadFault → Rose (I.state inputs.old).faults (I.state inputs.new).faults }
    // If the inputs are observable, ReadFault comes only if a name isn't there, one has a failing byte, or fewer
    // inputs can be opened than are named.
    ensures read_cause { I.observable → result ≡ Exit.ReadFault
        → InputsMayFail (map string_bytes words.now) (I.state inputs.old) }
    // WriteFault comes only if a write failed, or took 0 bytes of a piece that isn't empty.
    ensures write_fault { result ≡ Exit.WriteFault → HasFailed (O.state out.old) (O.state out.new) }
    // Done comes only if no write failed, and none took 0 bytes of a piece that isn't empty.
    ensures unfailed { result ≡ Exit.Done → IsUnfailed (O.state out.old) (O.state out.new) }
{
    exits_say::<O>();
    driven_runs_keep_apart::<D>();
    runs_have_causes();
    attached_objects_are_formed();
    boxes_of_a_run();
    power_calls_are_their_events();
    scripts_are_lowered();
    calls_are_told();
    clocks_are_followed();
    one_reading();
    one_meaning();
    reach_is_closed();
    what_differs_is_reached();
    kinds_are_exact();
    run_board(alloc, words, inputs, out, dev, modules, tasks)
}

/// Runs the words with the caller's modules and tasks as a board, and gives the tasks back.
fn run_board<I: Inputs, O: Sink, D: Device, H: Responder, T: Handler>(
    alloc: Global,
    words: &[String],
    inputs: &mut I,
    out: &mut O,
    dev: &mut D,
    modules: &ModulesOf<H>,
    tasks: &mut TasksOf<T>,
) -> Exit
    requires idle { D.values_observable → (unit : Unit) → (D.state dev.old).value unit ≡ 0 }
    ensures done { I.observable → O.observable → result ≡ Exit.Done
        → IsDone I.Inputs O.Sink D.Device (map string_bytes words.now)
        (standing H.Responder T.Handler modules.now tasks.old)
        (standing H.Responder T.Handler modules.now tasks.new)
        (world inputs.old out.old dev.old) (world inputs.new out.new dev.new) }
    ensures gave { O.observable → result ≡ Exit.Done
        → Meanwhile (I.state inputs.old) (I.state inputs.new) (λ calls.
        DoneBy O.Sink D.Device (GaveEach calls) (request_of (map string_bytes words.now)) (map string_bytes words.now)
        (standing H.Responder T.Handler modules.now tasks.old)
        (standing H.Responder T.Handler modules.now tasks.new) out.old out.new dev.old dev.new) }
    ensures given { Meanwhile (I.state inputs.old) (I.state inputs.new) (λ calls.
        RanGiven O.Sink D.Device (form (map string_bytes words.now)) (map string_bytes words.now)
        (standing H.Responder T.Handler modules.now tasks.old)
        (standing H.Responder T.Handler modules.now tasks.new) calls out.old out.new dev.old dev.new result) }
    ensures safe { IsSafeRun D.Device (topology_in (map string_bytes words.now)) dev.old dev.new }
    ensures ran { Ran I.Inputs O.Sink D.Device (map string_bytes words.now)
        (standing H.Responder T.Handler modules.now tasks.old)
        (standing H.Responder T.Handler modules.now tasks.new)
        (world inputs.old out.old dev.old) (world inputs.new out.new dev.new) result }
    ensures begun { Meanwhile (I.state inputs.old) (I.state inputs.new)
        (FormReads (form (map string_bytes words.now)) (map string_bytes words.now) result) }
{
    let mut board = Board {
        modules,
        tasks: replace(tasks, TasksOf::without_room(alloc)),
    };
    let exit = run_words(alloc, words, inputs, out, dev, &mut board);
    *tasks = board.tasks;
    exit
}

/// Runs the words: refuses them with Usage if they have no form.
fn run_words<I: Inputs, O: Sink, D: Device, H: Responder, T: Handler>(
    alloc: Global,
    words: &[String],
    inputs: &mut I,
    out: &mut O,
    dev: &mut D,
    board: &mut Board<H, T>,
) -> Exit
    requires idle { D.values_observable → (unit : Unit) → (D.state dev.old).value unit ≡ 0 }
    ensures done { I.observable → O.observable → result ≡ Exit.Done
        → IsDone I.Inputs O.Sink D.Device (map string_bytes words.now)
        (standing H.Responder T.Handler board.old.modules.now board.old.tasks)
        (standing H.Responder T.Handler board.old.modules.now board.new.tasks)
        (world inputs.old out.old dev.old) (world inputs.new out.new dev.new) }
    ensures gave { O.observable → result ≡ Exit.Done
        → Meanwhile (I.state inputs.old) (I.state inputs.new) (λ calls.
        DoneBy O.Sink D.Device (GaveEach calls) (request_of (map string_bytes words.now)) (map string_bytes words.now)
        (standing H.Responder T.Handler board.old.modules.now board.old.tasks)
        (standing H.Responder T.Handler board.old.modules.now board.new.tasks) out.old out.new dev.old dev.new) }
    ensures given { Meanwhile (I.state inputs.old) (I.state inputs.new) (λ calls.
        RanGiven O.Sink D.Device (form (map string_bytes words.now)) (map string_bytes words.now)
        (standing H.Responder T.Handler board.old.modules.now board.old.tasks)
        (standing H.Responder T.Handler board.old.modules.now board.new.tasks)
        calls out.old out.new dev.old dev.new result) }
    ensures safe { IsSafeRun D.Device (topology_in (map string_bytes words.now)) dev.old dev.new }
    ensures ran { Ran I.Inputs O.Sink D.Device (map string_bytes words.now)
        (standing H.Responder T.Handler board.old.modules.now board.old.tasks)
        (standing H.Responder T.Handler board.old.modules.now board.new.tasks)
        (world inputs.old out.old dev.old) (world inputs.new out.new dev.new) result }
    ensures begun { Meanwhile (I.state inputs.old) (I.state inputs.new)
        (FormReads (form (map string_bytes words.now)) (map string_bytes words.now) result) }
{
    match request_of(words) {
        Some(request) => run_request(alloc, request, words, inputs, out, dev, board),
        None => refuse(Fault::Usage, out),
    }
}

/// Reads the inputs of a request, and does its work.
fn run_request<I: Inputs, O: Sink, D: Device, H: Responder, T: Handler>(
    alloc: Global,
    request: Request,
    words: &[String],
    inputs: &mut I,
    out: &mut O,
    dev: &mut D,
    board: &mut Board<H, T>,
) -> Exit
    requires idle { D.values_observable → (unit : Unit) → (D.state dev.old).value unit ≡ 0 }
    ensures done { I.observable → O.observable → result ≡ Exit.Done
        → WorkDone I.Inputs O.Sink D.Device request.work request.topology (map string_bytes words.now)
        (standing H.Responder T.Handler board.old.modules.now board.old.tasks)
        (standing H.Responder T.Handler board.old.modules.now board.new.tasks)
        (world inputs.old out.old dev.old) (world inputs.new out.new dev.new) }
    ensures gave { O.observable → result ≡ Exit.Done
        → Meanwhile (I.state inputs.old) (I.state inputs.new) (λ calls.
        WorkDoneBy O.Sink D.Device (GaveEach calls) request.work request.topology (map string_bytes words.now)
        (standing H.Responder T.Handler board.old.modules.now board.old.tasks)
        (standing H.Responder T.Handler board.old.modules.now board.new.tasks) out.old out.new dev.old dev.new) }
    ensures given { Meanwhile (I.state inputs.old) (I.state inputs.new) (λ calls.
        RanGiven O.Sink D.Device (Some (form_of request.work request.topology)) (map string_bytes words.now)
        (standing H.Responder T.Handler board.old.modules.now board.old.tasks)
        (standing H.Responder T.Handler board.old.modules.now board.new.tasks)
        calls out.old out.new dev.old dev.new result) }
    ensures safe { IsSafeRun D.Device request.topology dev.old dev.new }
    ensures ran { RanForm I.Inputs O.Sink D.Device (Some (form_of request.work request.topology))
        (map string_bytes words.now)
        (standing H.Responder T.Handler board.old.modules.now board.old.tasks)
        (standing H.Responder T.Handler board.old.modules.now board.new.tasks)
        (world inputs.old out.old dev.old) (world inputs.new out.new dev.new) result }
    ensures begun { Meanwhile (I.state inputs.old) (I.state inputs.new)
        (FormReads (Some (form_of request.work request.topology)) (map string_bytes words.now) result) }
{
    let form = form_of(request);
    match read_subject(alloc, form, words, inputs) {
        Ok(subject) => do_work(
            alloc,
            request,
            subject,
            inputs,
            script_word(form, words),
            out,
            dev,
            board,
        ),
        Err(fault) => refuse(fault, out),
    }
}
