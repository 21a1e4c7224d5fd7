//! Lists of events: what is written of tasks over a whole list.

ghost use Rattle.std.specs.Prelude.{◌≡◌, ◌++◌, [], map, OnOk};
ghost use Rattle.pm_tasks.specs.Stored.{timetable};
ghost use Rattle.pm_tasks.specs.declared.history.Line.TheVariants.{Task};
ghost use Rattle.pm_tasks.specs.History.{after, after_all, history, lines};

use crate::handler::Handler;
use crate::tasks::{Fired, TasksOf};
use std::alloc::AllocError;

/// What happens to tasks.
#[derive(Clone, Copy, Debug, PartialEq, Eq)]
pub enum Happening {
    /// The task under a key is started at this interval, or started again.
    Start(usize, u32),
    /// The task under a key is taken out.
    Cancel(usize),
    /// Units of time pass.
    Tick(u32),
}

/// What is written of tasks.
#[derive(Clone, Copy, Debug, PartialEq, Eq)]
pub enum Line {
    /// A task that was due was called.
    Task(Fired),
    /// No task has this key, or the interval is 0.
    NoTask(usize),
}

/// Makes the calls that are due, and writes each.
fn take_all<H: Handler>(tasks: &mut TasksOf<H>, out: &mut Vec<Line>) -> Result<(), AllocError>
    ensures left { OnOk result ((timetable H.Handler tasks.new).left ≡ []) }
    ensures rest { timetable H.Handler tasks.new
        ≡ record (timetable H.Handler tasks.old) {
          left = (timetable H.Handler tasks.new).left;
        } }
    ensures told { OnOk result (out.new.items
        ≡ out.old.items ++ map Task (timetable H.Handler tasks.old).left) }
{
    'calls: while let Some(fired) = tasks.take() {
        out.push(Line::Task(fired))?;
    }
    Ok(())
}

/// Carries one event out, and writes its lines.
fn serve<H: Handler>(
    tasks: &mut TasksOf<H>,
    event: &Happening,
    out: &mut Vec<Line>,
) -> Result<(), AllocError>
    requires settled { (timetable H.Handler tasks.old).left ≡ [] }
    ensures table { OnOk result (timetable H.Handler tasks.new
        ≡ after event.now (timetable H.Handler tasks.old)) }
    ensures told { OnOk result (out.new.items
        ≡ out.old.items ++ lines event.now (timetable H.Handler tasks.old)) }
{
    match *event {
        Happening::Start(key, interval) => {
            if !tasks.start(key, interval) {
                out.push(Line::NoTask(key))?;
            }
        }
        Happening::Cancel(key) => {
            if !tasks.drop_task(key) {
                out.push(Line::NoTask(key))?;
            }
        }
        Happening::Tick(count) => {
            tasks.pass(count);
            take_all(tasks, out)?;
        }
    }
    Ok(())
}

/// Carries events out, and writes the lines of all: exactly the calls of the tasks that are due, each at its time and
/// with the answer of its handler, and the starts and cancellations of no task.
///
/// # Errors
///
/// `AllocError` if there is not enough memory for the lines.
pub fn run<H: Handler>(
    tasks: &mut TasksOf<H>,
    events: &[Happening],
    out: &mut Vec<Line>,
) -> Result<(), AllocError>
    requires settled { (timetable H.Handler tasks.old).left ≡ [] }
    ensures settled { OnOk result ((timetable H.Handler tasks.new).left ≡ []) }
    ensures table { OnOk result (timetable H.Handler tasks.new
        ≡ after_all events.now (timetable H.Handler tasks.old)) }
    ensures lines { OnOk result (out.new.items
        ≡ out.old.items ++ history events.now (timetable H.Handler tasks.old)) }
{
    for event in events {
        serve(tasks, event, out)?;
    }
    Ok(())
}
