//! What a script line does to tasks is carried out, and the lines of it are written.

ghost use Rattle.std.specs.Prelude.{◌≡◌, ◌∷◌, [], if◌then◌else◌, map};
ghost use Rattle.pm_split.specs.Split.Note.{NoTask};
ghost use Rattle.pm_tasks.specs.Stored.{timetable};
ghost use Rattle.pm_board.specs.Board.{begun, settled};
ghost use Rattle.pm_drive.specs.Tasks.{fired_note, key_notes, task_notes};
ghost use Rattle.pm_trace.specs.Notes.{notes_text};
ghost use Rattle.pm_engine.specs.Writes.{WritesOn};

use crate::writing::{write_no_task, write_task};
use pm_base::{Event, Failed};
use pm_board::happen;
use pm_io::Sink;
use pm_tasks::{Fired, Handler, TasksOf};

/// Carries out what a line does to tasks, to its end, and writes the lines of it. A sink that has failed before within
/// the line is given nothing more. Most lines do nothing to tasks.
#[inline]
pub fn tasks_on<O: Sink, T: Handler>(
    written: Result<(), Failed>,
    number: u32,
    event: &Event,
    tasks: &mut TasksOf<T>,
    out: &mut O,
) -> Result<(), Failed>
    ensures tasks { timetable T.Handler tasks.new
        ≡ settled (begun event.now (settled (timetable T.Handler tasks.old))) }
    ensures writes { WritesOn O.Sink (notes_text number (task_notes event.now (timetable T.Handler tasks.old)))
        written result out.old out.new }
{
    match event {
        Event::Task { .. } | Event::Cancel { .. } | Event::Tick { .. } => {
            timed_on(written, number, event, tasks, out)
        }
        _ => {
            settle(tasks);
            written
        }
    }
}

/// Makes the calls that are left from an earlier line, if there are any.
fn settle<T: Handler>(tasks: &mut TasksOf<T>)
    ensures { timetable T.Handler tasks.new ≡ settled (timetable T.Handler tasks.old) }
{
    'calls: while let Some(_) = tasks.take() {}
}

/// What `tasks_on` does, for any line.
#[inline(never)]
fn timed_on<O: Sink, T: Handler>(
    written: Result<(), Failed>,
    number: u32,
    event: &Event,
    tasks: &mut TasksOf<T>,
    out: &mut O,
) -> Result<(), Failed>
    ensures tasks { timetable T.Handler tasks.new
        ≡ settled (begun event.now (settled (timetable T.Handler tasks.old))) }
    ensures writes { WritesOn O.Sink (notes_text number (task_notes event.now (timetable T.Handler tasks.old)))
        written result out.old out.new }
{
    let is_found = happen(tasks, event);
    let refused = refusal_on(written, number, is_found, event, out);
    calls_on(refused, number, tasks, out)
}

/// Writes that there is no task under the key of a line, if it has one and none was found. A sink that has failed
/// before within the line is given nothing more.
fn refusal_on<O: Sink>(
    written: Result<(), Failed>,
    number: u32,
    is_found: bool,
    event: &Event,
    out: &mut O,
) -> Result<(), Failed>
    ensures { WritesOn O.Sink (notes_text number (if is_found then [] else key_notes event.now))
        written result out.old out.new }
{
    if is_found {
        return written;
    }
    match event {
        Event::Task { key, .. } => no_task_on(written, number, *key, out),
        Event::Cancel { key } => no_task_on(written, number, *key, out),
        _ => written,
    }
}

/// Writes that there is no task under a key. A sink that has failed before within the line is given nothing more.
fn no_task_on<O: Sink>(
    written: Result<(), Failed>,
    number: u32,
    key: u32,
    out: &mut O,
) -> Result<(), Failed>
    ensures { WritesOn O.Sink (notes_text number (NoTask key ∷ [])) written result out.old out.new }
{
    match written {
        Ok(()) => write_no_task(number, key, out),
        Err(Failed) => Err(Failed),
    }
}

/// Makes the calls of tasks that are left, to the last one, and writes the line of each. A sink that has failed before
/// within the line is given nothing more.
fn calls_on<O: Sink, T: Handler>(
    written: Result<(), Failed>,
    number: u32,
    tasks: &mut TasksOf<T>,
    out: &mut O,
) -> Result<(), Failed>
    ensures tasks { timetable T.Handler tasks.new ≡ settled (timetable T.Handler tasks.old) }
    ensures writes { WritesOn O.Sink (notes_text number (map fired_note (timetable T.Handler tasks.old).left))
        written result out.old out.new }
{
    let mut so_far = written;
    'calls: while let Some(fired) = tasks.take() {
        so_far = task_on(so_far, number, fired, out);
    }
    so_far
}

/// Writes the line of the call of a task. A sink that has failed before within the line is given nothing more.
fn task_on<O: Sink>(
    written: Result<(), Failed>,
    number: u32,
    fired: Fired,
    out: &mut O,
) -> Result<(), Failed>
    ensures { WritesOn O.Sink (notes_text number (fired_note fired ∷ [])) written result out.old out.new }
{
    match written {
        Ok(()) => write_task(number, fired, out),
        Err(Failed) => Err(Failed),
    }
}
