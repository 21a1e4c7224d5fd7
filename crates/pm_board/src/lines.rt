//! What the lines of a script do to timed tasks.

ghost use Rattle.std.specs.Prelude.{◌≡◌};
ghost use Rattle.pm_board.specs.Board.{begun, is_done, settled};
ghost use Rattle.pm_tasks.specs.Stored.{timetable};

use pm_base::Event;
use pm_tasks::{Handler, TasksOf};

/// What the event of a script line does to tasks: one is started or taken out, or time passes. The calls that are due
/// then are made by `take`. Answers whether there was a task to start or to take out, if the line asks for that.
pub fn happen<T: Handler>(tasks: &mut TasksOf<T>, event: &Event) -> bool
    ensures answer { result ≡ is_done event.now (timetable T.Handler tasks.old) }
    ensures tasks { timetable T.Handler tasks.new ≡ begun event.now (settled (timetable T.Handler tasks.old)) }
{
    settle(tasks);
    match event {
        Event::Task { key, interval } => tasks.start(*key as usize, *interval),
        Event::Cancel { key } => tasks.drop_task(*key as usize),
        Event::Tick { count } => {
            tasks.pass(*count);
            true
        }
        _ => true,
    }
}

/// Makes the calls that are left, if there are any.
fn settle<T: Handler>(tasks: &mut TasksOf<T>)
    ensures { timetable T.Handler tasks.new ≡ settled (timetable T.Handler tasks.old) }
{
    'calls: while let Some(_) = tasks.take() {}
}
