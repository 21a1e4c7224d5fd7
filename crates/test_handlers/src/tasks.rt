//! Timed tasks over lists of events.

ghost use Rattle.std.specs.Prelude.{◌≡◌, ◌<◌, ◌^◌, [], length, IfOk, Some};
ghost use Rattle.pm_tasks.specs.Stored.{timetable};

use pm_base::NoMemory;
use pm_tasks::{Counter, Fired, Handler, Happening, Line, Tasks, run};
use std::alloc::Global;
use std::test::Fail;

/// So many tasks whose handlers count their calls, all stopped. Their keys are 0 and up.
fn counting(alloc: Global, count: usize) -> Result<Tasks, NoMemory>
    ensures settled { IfOk result (λ tasks. (timetable ⟦<Box<dyn Handler> as Handler>⟧ tasks).left ≡ []) }
    ensures start { IfOk result (λ tasks. (timetable ⟦<Box<dyn Handler> as Handler>⟧ tasks).now ≡ 0) }
{
    let mut tasks = Tasks::new(alloc, count)?;
    for _added in 0..count {
        let handler = Box::new(alloc, Counter { calls: 0 }).map_err(|_| NoMemory)?;
        let _ = tasks.add(handler);
    }
    Ok(tasks)
}

/// A handler of the tests. It keeps the time of its last call, and its count wraps around at the end of a word.
#[derive(Drop)]
struct Noting {
    calls: u32,
    last: u64,
}

impl Handler for Noting {
    ghost calls = { λ noting. noting.calls };

    ghost last = { λ noting. Some noting.last };

    fn fire(&mut self, at: u64) -> u32 {
        self.last = at;
        self.calls = self.calls.wrapping_add(1);
        self.calls
    }
}

/// A counting task under key 0, and one with the tests' own handler under key 1, which was called so often before.
fn with_noting(alloc: Global, calls: u32) -> Result<Tasks, NoMemory>
    ensures settled { IfOk result (λ tasks. (timetable ⟦<Box<dyn Handler> as Handler>⟧ tasks).left ≡ []) }
    ensures start { IfOk result (λ tasks. (timetable ⟦<Box<dyn Handler> as Handler>⟧ tasks).now ≡ 0) }
{
    let mut tasks = Tasks::new(alloc, 2)?;
    let counter = Box::new(alloc, Counter { calls: 0 }).map_err(|_| NoMemory)?;
    let noting = Box::new(alloc, Noting { calls, last: 0 }).map_err(|_| NoMemory)?;
    let _ = tasks.add(counter);
    let _ = tasks.add(noting);
    Ok(tasks)
}

/// The lines of these events over so many counting tasks.
fn lines_of(alloc: Global, count: usize, events: &[Happening]) -> Result<Vec<Line>, NoMemory>
    requires { length events.now < 2 ^ 31 }
{
    let mut tasks = counting(alloc, count)?;
    let mut lines = Vec::new(alloc);
    match run(&mut tasks, events, &mut lines) {
        Ok(()) => Ok(lines),
        Err(_) => Err(NoMemory),
    }
}

const fn fired(key: usize, at: u64, word: u32) -> Line {
    Line::Task(Fired { key, at, word })
}

#[test]
fn a_task_is_due_once_in_a_tick(rt: HostRuntime) -> Result<(), Fail> {
    let events = [
        Happening::Start(0, 100),
        Happening::Tick(99),
        Happening::Tick(1),
        Happening::Tick(250),
        Happening::Tick(49),
        Happening::Cancel(0),
        Happening::Tick(100),
        Happening::Start(0, 5),
    ];
    let lines = lines_of(rt.alloc(), 2, &events)?;
    let expected = [fired(0, 100, 1), fired(0, 350, 2), Line::NoTask(0)];
    assert_eq!(rt; lines.as_slice(), expected.as_slice());
    Ok(())
}

/// The calls of tasks with the intervals 1, 9, 10, 11 and the greatest.
fn of_intervals() -> [Line; 25] {
    [
        Line::NoTask(5),
        Line::NoTask(6),
        fired(0, 10, 1),
        fired(1, 10, 1),
        fired(2, 10, 1),
        fired(0, 11, 2),
        fired(3, 11, 1),
        fired(0, 20, 3),
        fired(1, 20, 2),
        fired(2, 20, 2),
        fired(0, 0xFFFF_FFFE, 4),
        fired(1, 0xFFFF_FFFE, 3),
        fired(2, 0xFFFF_FFFE, 3),
        fired(3, 0xFFFF_FFFE, 2),
        fired(0, 0xFFFF_FFFF, 5),
        fired(4, 0xFFFF_FFFF, 1),
        fired(0, 0x1_FFFF_FFFD, 6),
        fired(1, 0x1_FFFF_FFFD, 4),
        fired(2, 0x1_FFFF_FFFD, 4),
        fired(3, 0x1_FFFF_FFFD, 3),
        fired(0, 0x2_FFFF_FFFC, 7),
        fired(1, 0x2_FFFF_FFFC, 5),
        fired(2, 0x2_FFFF_FFFC, 5),
        fired(3, 0x2_FFFF_FFFC, 4),
        fired(4, 0x2_FFFF_FFFC, 2),
    ]
}

#[test]
fn intervals_of_one_and_about_the_tick(rt: HostRuntime) -> Result<(), Fail> {
    let events = [
        Happening::Start(0, 1),
        Happening::Start(1, 9),
        Happening::Start(2, 10),
        Happening::Start(3, 11),
        Happening::Start(4, 0xFFFF_FFFF),
        Happening::Start(5, 0),
        Happening::Start(6, 1),
        Happening::Tick(0),
        Happening::Tick(10),
        Happening::Tick(1),
        Happening::Tick(9),
        Happening::Tick(0xFFFF_FFEA),
        Happening::Tick(1),
        Happening::Tick(0xFFFF_FFFE),
        Happening::Tick(0xFFFF_FFFF),
    ];
    let lines = lines_of(rt.alloc(), 6, &events)?;
    let expected = of_intervals();
    assert_eq!(rt; lines.as_slice(), expected.as_slice());
    Ok(())
}

#[test]
fn a_task_that_is_started_again_counts_from_there(rt: HostRuntime) -> Result<(), Fail> {
    let events = [
        Happening::Tick(7),
        Happening::Start(0, 10),
        Happening::Tick(9),
        Happening::Start(0, 10),
        Happening::Tick(9),
        Happening::Start(0, 0),
        Happening::Tick(1),
        Happening::Start(0, 3),
        Happening::Tick(2),
        Happening::Tick(8),
        Happening::Tick(2),
    ];
    let lines = lines_of(rt.alloc(), 1, &events)?;
    let expected = [
        Line::NoTask(0),
        fired(0, 26, 1),
        fired(0, 36, 2),
        fired(0, 38, 3),
    ];
    assert_eq!(rt; lines.as_slice(), expected.as_slice());
    Ok(())
}

#[test]
fn a_task_that_is_cancelled_between_two_ticks_is_not_called(rt: HostRuntime) -> Result<(), Fail> {
    let events = [
        Happening::Start(0, 4),
        Happening::Start(1, 4),
        Happening::Tick(3),
        Happening::Cancel(0),
        Happening::Tick(1),
        Happening::Cancel(0),
        Happening::Cancel(2),
        Happening::Cancel(usize::MAX),
        Happening::Tick(4),
        Happening::Cancel(1),
        Happening::Tick(4),
    ];
    let lines = lines_of(rt.alloc(), 2, &events)?;
    let expected = [
        fired(1, 4, 1),
        Line::NoTask(0),
        Line::NoTask(2),
        Line::NoTask(usize::MAX),
        fired(1, 8, 2),
    ];
    assert_eq!(rt; lines.as_slice(), expected.as_slice());
    Ok(())
}

#[test]
fn a_handler_of_the_test_is_called_beside_a_counting_one(rt: HostRuntime) -> Result<(), Fail> {
    let events = [
        Happening::Start(1, 3),
        Happening::Start(0, 2),
        Happening::Tick(6),
        Happening::Tick(3),
        Happening::Cancel(0),
        Happening::Tick(3),
    ];
    let mut tasks = with_noting(rt.alloc(), 0xFFFF_FFFE)?;
    let mut lines = Vec::new(rt.alloc());
    run(&mut tasks, &events, &mut lines).map_err(|_| NoMemory)?;
    let expected = [
        fired(0, 6, 1),
        fired(1, 6, 0xFFFF_FFFF),
        fired(0, 9, 2),
        fired(1, 9, 0),
        fired(1, 12, 1),
    ];
    assert_eq!(rt; lines.as_slice(), expected.as_slice());
    Ok(())
}

/// Whether these are the first calls of thirty tasks at this time, by rising key.
fn are_thirty_calls(lines: &[Line], at: u64) -> bool {
    for (key, line) in lines.iter().enumerate() {
        if *line != fired(key, at, 1) {
            return false;
        }
    }
    lines.len() == 30
}

#[test]
fn thirty_tasks_are_called_in_the_order_of_their_keys(rt: HostRuntime) -> Result<(), Fail> {
    let mut events = [Happening::Tick(5); 31];
    let mut key = 0usize;
    for event in events.iter_mut() {
        if key < 30 {
            *event = Happening::Start(29 - key, 5);
            key += 1;
        }
    }
    let lines = lines_of(rt.alloc(), 30, &events)?;
    assert_eq!(rt; are_thirty_calls(lines.as_slice(), 5), true);
    Ok(())
}

#[test]
fn a_task_too_many_is_handed_back(rt: HostRuntime) -> Result<(), Fail> {
    let mut tasks = Tasks::new(rt.alloc(), 1)?;
    let first = Box::new(rt.alloc(), Counter { calls: 0 }).map_err(|_| NoMemory)?;
    let second = Box::new(rt.alloc(), Counter { calls: 8 }).map_err(|_| NoMemory)?;
    assert_eq!(rt; tasks.add(first).ok(), Some(0));
    match tasks.add(second) {
        Ok(_) => assert_eq!(rt; true, false),
        Err(mut back) => assert_eq!(rt; back.fire(3), 9),
    }
    let Some(mut handler) = tasks.cancel(0) else {
        return Ok(());
    };
    assert_eq!(rt; handler.fire(3), 1);
    let third = Box::new(rt.alloc(), Counter { calls: 0 }).map_err(|_| NoMemory)?;
    assert_eq!(rt; tasks.add(third).ok(), Some(0));
    Ok(())
}

#[test]
fn no_task_has_room_where_there_is_none(rt: HostRuntime) -> Result<(), Fail> {
    let mut tasks = Tasks::new(rt.alloc(), 0)?;
    let handler = Box::new(rt.alloc(), Counter { calls: 0xFFFF_FFFF }).map_err(|_| NoMemory)?;
    match tasks.add(handler) {
        Ok(_) => assert_eq!(rt; true, false),
        Err(mut back) => assert_eq!(rt; back.fire(0), 0),
    }
    Ok(())
}
