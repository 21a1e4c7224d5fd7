//! Running the lines of a script, one after another.

ghost use Rattle.std.specs.Prelude.{◌≡◌, ◌≢◌, true, unwrap_or, IfOk};
ghost use Rattle.pm_base.specs.Faults.{Rose};
ghost use Rattle.pm_io.specs.declared.prefix.StopReason.TheVariants.{Failure, Unbegun};
ghost use Rattle.pm_io.specs.Readings.{Meanwhile};
ghost use Rattle.pm_block.specs.Block.{attached_by};
ghost use Rattle.pm_reader.specs.Follow.{ReadsLines};
ghost use Rattle.pm_reader.specs.Front.{Ahead, Attaches, WasReadAhead, ran};
ghost use Rattle.pm_reader.specs.Shown.{OfRead};
ghost use Rattle.pm_run.specs.Run.{Setup, setup_of};
ghost use Rattle.pm_modules.specs.Modules.{ranges};
ghost use Rattle.pm_board.specs.Standing.{standing};
ghost use Rattle.pm_drive.specs.Completed.{completed};
ghost use Rattle.pm_drive.specs.Text.{later_reply};
ghost use Rattle.pm_trace.specs.Step.{notices_in, step_text};
ghost use Rattle.pm_engine.specs.Writes.{Writes};
ghost use Rattle.pm_replay.specs.Within.{AreTold, RanLine, RanLines, is_alone};

use pm_base::{Event, Failed};
use pm_board::Board;
use pm_core::{Answer, Outbox};
use pm_device::Device;
use pm_drive::rig;
use pm_engine::{Engine, call_on, clocks_on, note_on, tasks_on, write_on, write_step};
use pm_io::{Inputs, Sink};
use pm_ipi::Response;
use pm_modules::{ModulesOf, Responder};
use pm_reader::{Follower, Front, LineStop, LinesEnd};
use pm_run::call_answer;
use pm_tasks::{Handler, TasksOf};
use pm_trace::StepText;

/// Carries out each line of a script, makes the device follow it, and writes its text.
#[derive(Drop)]
pub(crate) struct Player<'e, 'o, 'd, 'm, 't, O: Sink, D: Device, H: Drop, T: Drop> {
    engine: &'e mut Engine,
    out: &'o mut O,
    dev: &'d mut D,
    modules: &'m ModulesOf<H>,
    tasks: &'t mut TasksOf<T>,
    /// The room for a core event that isn't its line's own.
    made: Event,
    /// The room for the text of a core step before it is written.
    text: StepText,
}

impl<'e, 'o, 'd, 'm, 't, O: Sink, D: Device, H: Responder, T: Handler> Follower
    for Player<'e, 'o, 'd, 'm, 't, O, D, H, T> {
    ghost use Rattle.pm_replay.specs.Plays.{Plays};

    ghost Follows = { Plays O.Sink D.Device H.Responder T.Handler };

    /// Runs a line of the script.
    #[inline(always)]
    fn line(&mut self, number: u32, event: &Event) -> Result<(), Failed> {
        run_line(
            number,
            event,
            self.engine,
            self.out,
            self.dev,
            self.modules,
            self.tasks,
            &mut self.made,
            &mut self.text,
        )
    }
}

/// Runs the lines of an opened input up to the first one that can't be read. Each line is read after the text of the
/// one before was written. Its block was read before.
pub(crate) fn run_lines<I: Inputs, O: Sink, D: Device, H: Responder, T: Handler>(
    engine: &mut Engine,
    front: &mut Front,
    inputs: &mut I,
    id: u32,
    out: &mut O,
    dev: &mut D,
    board: &mut Board<H, T>,
) -> Result<LinesEnd, LineStop>
    requires front { WasReadAhead I.observable id (I.state inputs.old) front.old }
    ensures ran { (ahead : Ahead) → Attaches I.observable id ahead (I.state inputs.old) front.old
        → (c : Setup) → setup_of engine.old.book ≡ c → AreTold engine.old.clocks
        → OfRead I.observable id ahead.first (I.state inputs.new)
        (λ s. (attached_by s.events ≡ ahead.attached)
        × RanLines O.Sink D.Device c 1 (ran s) engine.old engine.new out.old out.new dev.old dev.new
        (standing H.Responder T.Handler board.old.modules.now board.old.tasks)
        (standing H.Responder T.Handler board.old.modules.now board.new.tasks) result) }
    ensures ends { IfOk result (λ end. end.stop ≢ Unbegun) }
    ensures fault { (ahead : Ahead) → Attaches I.observable id ahead (I.state inputs.old) front.old
        → IfOk result (λ end. end.stop ≡ Failure → Rose ahead.first.faults (I.state inputs.new).faults) }
    ensures reads { (ahead : Ahead) → Attaches I.observable id ahead (I.state inputs.old) front.old
        → Meanwhile ahead.first (I.state inputs.new) (ReadsLines id result) }
{
    let mut player = Player {
        engine,
        out,
        dev,
        modules: board.modules,
        tasks: &mut board.tasks,
        made: Event::Pass,
        text: StepText::new(),
    };
    front.follow(inputs, id, &mut player)
}

/// Carries a line out to its end, and writes its text as long as the sink takes it. Fails if the sink does.
#[inline(always)]
fn run_line<O: Sink, D: Device, H: Responder, T: Handler>(
    number: u32,
    event: &Event,
    engine: &mut Engine,
    out: &mut O,
    dev: &mut D,
    modules: &ModulesOf<H>,
    tasks: &mut TasksOf<T>,
    made: &mut Event,
    text: &mut StepText,
) -> Result<(), Failed>
    ensures { (c : Setup) → setup_of engine.old.book ≡ c → AreTold engine.old.clocks
        → RanLine O.Sink D.Device c number event.now engine.old engine.new out.old out.new dev.old dev.new
        (standing H.Responder T.Handler modules.now tasks.old)
        (standing H.Responder T.Handler modules.now tasks.new) result }
{
    if is_alone(event) {
        run_alone(number, event, engine, out, dev, modules, tasks, text)
    } else {
        run_split(number, event, engine, out, dev, modules, tasks, made, text)
    }
}

/// Whether a line has only its own core event: no other one and no note of its own, no act on the device besides its
/// commands, and no answer to a power call.
fn is_alone(event: &Event) -> bool
    ensures { result ≡ is_alone event.now }
{
    !matches!(
        event,
        Event::Post { .. }
            | Event::Serve
            | Event::Smc { .. }
            | Event::Attach { .. }
            | Event::Break { .. }
            | Event::Mend { .. }
    )
}

/// Carries out a line that has only its own core event, as most lines do, and writes its text. Fails if the sink
/// does.
#[inline(always)]
fn run_alone<O: Sink, D: Device, H: Responder, T: Handler>(
    number: u32,
    event: &Event,
    engine: &mut Engine,
    out: &mut O,
    dev: &mut D,
    modules: &ModulesOf<H>,
    tasks: &mut TasksOf<T>,
    text: &mut StepText,
) -> Result<(), Failed>
    requires { is_alone event.now ≡ true }
    ensures { (c : Setup) → setup_of engine.old.book ≡ c → AreTold engine.old.clocks
        → RanLine O.Sink D.Device c number event.now engine.old engine.new out.old out.new dev.old dev.new
        (standing H.Responder T.Handler modules.now tasks.old)
        (standing H.Responder T.Handler modules.now tasks.new) result }
{
    engine.step(event, dev);
    let written = write_completed(number, event, engine.outbox(), modules, text, out);
    let clocked = clocks_on(written, number, engine, out);
    tasks_on(clocked, number, event, tasks, out)
}

/// Writes the lines of an event's core step, with the answer that is told. Fails if the sink does.
#[inline(always)]
fn write_completed<O: Sink, H: Responder>(
    number: u32,
    event: &Event,
    outbox: &Outbox,
    modules: &ModulesOf<H>,
    text: &mut StepText,
    out: &mut O,
) -> Result<(), Failed>
    ensures { Writes O.Sink (step_text number outbox.now.done.items (notices_in outbox.now)
        (completed (ranges H.Responder modules.now) event.now outbox.now.answer)) out.old out.new result }
{
    match said(modules, event, &outbox.answer) {
        None => write_step(number, outbox, &outbox.answer, text, out),
        Some(answer) => write_step(number, outbox, &answer, text, out),
    }
}

/// Carries any line out to its end, and writes its text as long as the sink takes it. First a node of the device is
/// broken or mended, if the line says so. Then come the core events, each with its text. Last come the lines of the
/// line's own notes, of clocks, of tasks, and of the answer to a power call. The clocks' reply replaces the book's
/// for a call on a clock, and a module's response for an API word of the module. Fails if the sink does.
#[inline(never)]
fn run_split<O: Sink, D: Device, H: Responder, T: Handler>(
    number: u32,
    event: &Event,
    engine: &mut Engine,
    out: &mut O,
    dev: &mut D,
    modules: &ModulesOf<H>,
    tasks: &mut TasksOf<T>,
    made: &mut Event,
    text: &mut StepText,
) -> Result<(), Failed>
    ensures { (c : Setup) → setup_of engine.old.book ≡ c → AreTold engine.old.clocks
        → RanLine O.Sink D.Device c number event.now engine.old engine.new out.old out.new dev.old dev.new
        (standing H.Responder T.Handler modules.now tasks.old)
        (standing H.Responder T.Handler modules.now tasks.new) result }
{
    rig(event, dev);
    let parts = engine.split(event);
    let mut left = parts.cores;
    let mut written = Ok(());
    let mut reply = None;
    while let Some(core) = engine.next(&mut left, made) {
        let taken = core.event(made);
        engine.step(taken, dev);
        let outbox = engine.outbox();
        let answer = completed(modules, taken, &outbox.answer);
        written = write_on(written, number, outbox, &answer, text, out);
        reply = later_reply(reply, &answer);
    }
    let noted = note_on(written, number, parts.note, out);
    let clocked = clocks_on(noted, number, engine, out);
    let fired = tasks_on(clocked, number, event, tasks, out);
    let called = call_answer(engine.book().topology(), event, reply);
    call_on(fired, number, called, out)
}

/// The answer that is told for a core event. A module's response replaces the book's reply to a message with an API
/// word of the module.
fn completed<H: Responder>(modules: &ModulesOf<H>, event: &Event, answer: &Answer) -> Answer
    ensures { result ≡ completed (ranges H.Responder modules.now) event.now answer.now }
{
    said(modules, event, answer).unwrap_or(*answer)
}

/// The answer of a module to a core event, if a module answers it.
fn said<H: Responder>(modules: &ModulesOf<H>, event: &Event, answer: &Answer) -> Option<Answer>
    ensures { completed (ranges H.Responder modules.now) event.now answer.now ≡ unwrap_or result answer.now }
{
    match (event, answer) {
        (Event::Ipi { message, .. }, Answer::Reply { master, .. }) => {
            let response = modules.answer(message)?;
            Some(Answer::Reply {
                master: *master,
                response,
            })
        }
        _ => None,
    }
}

/// The last reply of a line that is told: that of this core step, if it has one, else the one before.
fn later_reply(reply: Option<Response>, answer: &Answer) -> Option<Response>
    ensures { result ≡ later_reply reply answer.now }
{
    match *answer {
        Answer::Reply { response, .. } => Some(response),
        _ => reply,
    }
}
