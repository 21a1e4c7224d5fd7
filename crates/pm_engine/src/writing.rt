//! The text of a run is written: the lines of a step, and the closing table.

ghost use Rattle.std.specs.Prelude.{◌≡◌, ◌<◌, ◌∷◌, [], Some, flat_map, length, map, slice_get, option_to_list};
ghost use Rattle.pm_apply.specs.Part.{part_in};
ghost use Rattle.pm_state.specs.Units.{units};
ghost use Rattle.pm_split.specs.Split.{noted, noted_call};
ghost use Rattle.pm_split.specs.Split.Note.{NoTask};
ghost use Rattle.pm_drive.specs.Clocks.{clock_note, end_line, ends_text, table_text};
ghost use Rattle.pm_drive.specs.Tasks.{fired_note};
ghost use Rattle.pm_trace.specs.Notes.{notes_text};
ghost use Rattle.pm_trace.specs.Closing.{closing_lines, closing_text};
ghost use Rattle.pm_trace.specs.Step.{notices_in, output_words, step_text};
ghost use Rattle.pm_engine.specs.Writes.{Writes, WritesOn};

use crate::engine::Engine;
use pm_base::{Failed, NodeId};
use pm_clocks::{ClockChange, ClockEnd, Clocks, all_clocks};
use pm_core::{Answer, Outbox};
use pm_io::{Sink, write_all};
use pm_run::OwnNote;
use pm_tasks::Fired;
use pm_trace::{
    StepText, TextLine, answer_entry, busy_line, call_line, clock_closing, clock_line, closing,
    command_entry, entries, entry, is_told, late_line, no_task_line, task_line,
};

/// Writes the lines of a step that is answered so.
#[inline]
pub fn write_step<O: Sink>(
    number: u32,
    outbox: &Outbox,
    answer: &Answer,
    text: &mut StepText,
    out: &mut O,
) -> Result<(), Failed>
    ensures { Writes O.Sink (step_text number outbox.now.done.items
        (notices_in outbox.now) answer.now) out.old out.new result }
{
    match entries(outbox, answer) {
        0 => Ok(()),
        count => write_nonempty(number, outbox, answer, count, text, out),
    }
}

/// Writes the lines of a step that is answered so, of which there are so many: at once, if they are few.
#[inline(never)]
fn write_nonempty<O: Sink>(
    number: u32,
    outbox: &Outbox,
    answer: &Answer,
    count: usize,
    text: &mut StepText,
    out: &mut O,
) -> Result<(), Failed>
    requires { count ≡ length (output_words outbox.now.done.items (notices_in outbox.now) answer.now) }
    ensures { Writes O.Sink (step_text number outbox.now.done.items
        (notices_in outbox.now) answer.now) out.old out.new result }
{
    if text.fill(number, outbox, answer) {
        write_all(out, text.as_slice())
    } else {
        write_entries(number, outbox, answer, count, out)
    }
}

/// Writes the lines of a step that is answered so, of which there are so many, one after another.
#[inline(never)]
fn write_entries<O: Sink>(
    number: u32,
    outbox: &Outbox,
    answer: &Answer,
    count: usize,
    out: &mut O,
) -> Result<(), Failed>
    requires { count ≡ length (output_words outbox.now.done.items (notices_in outbox.now) answer.now) }
    ensures { Writes O.Sink (step_text number outbox.now.done.items
        (notices_in outbox.now) answer.now) out.old out.new result }
{
    let commands = outbox.done.as_slice();
    let told = is_told(answer);
    let mut line = TextLine::new();
    for done in commands {
        command_entry(number, done, &mut line);
        write_all(out, line.as_slice())?;
    }
    for k in commands.len()..count - usize::from(told) {
        entry(number, outbox, answer, k, &mut line);
        write_all(out, line.as_slice())?;
    }
    if told {
        answer_entry(number, answer, &mut line);
        return write_all(out, line.as_slice());
    }
    Ok(())
}

/// Writes the lines of a core step that is answered so. A sink that has failed before within the line is given nothing
/// more.
pub fn write_on<O: Sink>(
    written: Result<(), Failed>,
    number: u32,
    outbox: &Outbox,
    answer: &Answer,
    text: &mut StepText,
    out: &mut O,
) -> Result<(), Failed>
    ensures { WritesOn O.Sink (step_text number outbox.now.done.items (notices_in outbox.now) answer.now)
        written result out.old out.new }
{
    match written {
        Ok(()) => write_step(number, outbox, answer, text, out),
        Err(Failed) => Err(Failed),
    }
}

/// Writes what a line says of itself, if it has something to say: that its post found a full box, or that the words that
/// it attaches come too late. A sink that has failed before within the line is given nothing more.
pub fn note_on<O: Sink>(
    written: Result<(), Failed>,
    number: u32,
    note: Option<OwnNote>,
    out: &mut O,
) -> Result<(), Failed>
    ensures { WritesOn O.Sink (notes_text number (noted note)) written result out.old out.new }
{
    match note {
        None => written,
        Some(note) => match written {
            Ok(()) => write_note(number, note, out),
            Err(failed) => Err(failed),
        },
    }
}

/// Writes the line of what a script line says of itself.
fn write_note<O: Sink>(number: u32, note: OwnNote, out: &mut O) -> Result<(), Failed>
    ensures { Writes O.Sink (notes_text number (noted (Some note))) out.old out.new result }
{
    let mut line = TextLine::new();
    own_line(number, note, &mut line);
    write_all(out, line.as_slice())
}

/// Leaves in `line` the line of what a script line says of itself.
fn own_line(number: u32, note: OwnNote, line: &mut TextLine)
    ensures { line.new.items ≡ notes_text number (noted (Some note)) }
{
    match note {
        OwnNote::Busy(master) => busy_line(number, master, line),
        OwnNote::Late(address) => late_line(number, address, line),
    }
}

/// Writes the line of the answer to a power call, if there is one. A sink that has failed before within the line is
/// given nothing more.
pub fn call_on<O: Sink>(
    written: Result<(), Failed>,
    number: u32,
    called: Option<(NodeId, i32)>,
    out: &mut O,
) -> Result<(), Failed>
    ensures { WritesOn O.Sink (notes_text number (noted_call called)) written result out.old out.new }
{
    match called {
        None => written,
        Some((proc, code)) => match written {
            Ok(()) => write_call(number, proc, code, out),
            Err(failed) => Err(failed),
        },
    }
}

/// Writes the line of the answer to a power call.
fn write_call<O: Sink>(number: u32, proc: NodeId, code: i32, out: &mut O) -> Result<(), Failed>
    ensures { Writes O.Sink (notes_text number (noted_call (Some (proc, code)))) out.old out.new result }
{
    let mut line = TextLine::new();
    call_line(number, proc, code, &mut line);
    write_all(out, line.as_slice())
}

/// Writes the line of a script line that finds no task under a key.
pub(crate) fn write_no_task<O: Sink>(number: u32, key: u32, out: &mut O) -> Result<(), Failed>
    ensures { Writes O.Sink (notes_text number (NoTask key ∷ [])) out.old out.new result }
{
    let mut line = TextLine::new();
    no_task_line(number, key, &mut line);
    write_all(out, line.as_slice())
}

/// Writes the line of the call of a task.
pub(crate) fn write_task<O: Sink>(number: u32, fired: Fired, out: &mut O) -> Result<(), Failed>
    ensures { Writes O.Sink (notes_text number (fired_note fired ∷ [])) out.old out.new result }
{
    let mut line = TextLine::new();
    task_line(number, fired.key as u64, fired.at, fired.word, &mut line);
    write_all(out, line.as_slice())
}

/// Writes the line of a clock that began or ceased to run.
pub(crate) fn write_clock<O: Sink>(
    number: u32,
    change: ClockChange,
    out: &mut O,
) -> Result<(), Failed>
    ensures { Writes O.Sink (notes_text number (clock_note change ∷ [])) out.old out.new result }
{
    let mut line = TextLine::new();
    clock_line(number, change.clock, change.from, change.to, &mut line);
    write_all(out, line.as_slice())
}

/// Writes the closing table: the units, and then the clocks that run.
pub fn write_closing<O: Sink>(engine: &Engine, out: &mut O) -> Result<(), Failed>
    ensures { Writes O.Sink (table_text engine.now.book engine.now.kept engine.now.clocks.tree)
        out.old out.new result }
{
    let units = write_units(engine, out);
    ends_on(units, engine.clocks(), out)
}

/// Writes the closing lines of clocks that run. A sink that has failed before is given nothing more.
fn ends_on<O: Sink>(written: Result<(), Failed>, clocks: &Clocks, out: &mut O) -> Result<(), Failed>
    ensures { WritesOn O.Sink (ends_text clocks.now.tree) written result out.old out.new }
{
    let mut so_far = written;
    for def in all_clocks() {
        so_far = end_on(so_far, clocks.end(def.number), out);
    }
    so_far
}

/// Writes the closing line of a clock, if it runs. A sink that has failed before is given nothing more.
fn end_on<O: Sink>(
    written: Result<(), Failed>,
    end: Option<ClockEnd>,
    out: &mut O,
) -> Result<(), Failed>
    ensures { WritesOn O.Sink (flat_map end_line (option_to_list end)) written result out.old out.new }
{
    match end {
        None => written,
        Some(end) => match written {
            Ok(()) => write_end(end, out),
            Err(failed) => Err(failed),
        },
    }
}

/// Writes the closing line of a clock that runs.
fn write_end<O: Sink>(end: ClockEnd, out: &mut O) -> Result<(), Failed>
    ensures { Writes O.Sink (flat_map end_line (end ∷ [])) out.old out.new result }
{
    let mut line = TextLine::new();
    clock_closing(end.clock, end.divider, end.index, &mut line);
    write_all(out, line.as_slice())
}

/// Writes the closing lines of all units.
fn write_units<O: Sink>(engine: &Engine, out: &mut O) -> Result<(), Failed>
    ensures { Writes O.Sink (closing_text engine.now.book engine.now.kept) out.old out.new result }
{
    let mut line = TextLine::new();
    for k in 0..engine.book().units() {
        // The line of a unit that isn't shown is empty.
        closing_line(engine, k, &mut line);
        write_all(out, line.as_slice())?;
    }
    Ok(())
}

/// Leaves in `line` the closing line of the `k`-th unit, counted from 0.
fn closing_line(engine: &Engine, k: usize, line: &mut TextLine)
    requires place { k < length (units engine.now.book) }
    ensures { slice_get (closing_lines engine.now.book engine.now.kept) k ≡ Some line.new.items }
{
    let book = engine.book();
    let kept = engine.kept().value(book.unit(k));
    closing(book, k, kept, line);
}
