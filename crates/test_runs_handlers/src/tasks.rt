//! Runs with timed tasks whose handlers are a type of the tests.

use super::checks::check_with;
use pm_base::{Exit, NoMemory};
use pm_modules::Modules;
use pm_tasks::{Handler, Tasks};
use std::alloc::Global;
use std::process::Abort;
use std::test::Fail;
use test_fixtures::{
    BOXES, BOXES_CLOSED, BOXES_SETTLED, LABORATORY, LABORATORY_LOADED, LABORATORY_SETTLED, joined,
    replay_of,
};

/// A handler that keeps the time of its last call; its count wraps around at the end of a word.
#[derive(Drop)]
struct Noting {
    calls: u32,
    last: u64,
}

impl Handler for Noting {
    ghost use Rattle.std.specs.Prelude.{Some};

    ghost calls = { λ noting. noting.calls };

    ghost last = { λ noting. Some noting.last };

    fn fire(&mut self, at: u64) -> u32 {
        self.last = at;
        self.calls = self.calls.wrapping_add(1);
        self.calls
    }
}

/// Adds a task under the next key.
fn add(tasks: &mut Tasks, handler: Box<dyn Handler>) {
    // no call is left, as `add` requires
    if tasks.take().is_none() {
        let _key = tasks.add(handler);
    }
}

/// Adds a task under the next key, whose handler was called so often before.
fn add_called(alloc: Global, tasks: &mut Tasks, calls: u32) -> Result<(), NoMemory> {
    let handler = Box::new(alloc, Noting { calls, last: 0 }).map_err(|_| NoMemory)?;
    add(tasks, handler);
    Ok(())
}

/// Tasks under keys from 0, whose handlers were called so often before.
fn tasks_called(alloc: Global, calls: &[u32]) -> Result<Tasks, NoMemory> {
    let mut tasks = Tasks::new(alloc, calls.len())?;
    for called in calls {
        add_called(alloc, &mut tasks, *called)?;
    }
    Ok(tasks)
}

/// Compares the run of a script after its first line `ipi 1 21` with its text, which comes in pieces.
fn check_tasks(
    rt: &(impl Abort + AllocGlobal),
    calls: &[u32],
    object: &[u32],
    script: &str,
    text: &[&str],
) -> Result<(), Fail> {
    let script = joined(rt.alloc(), &["ipi 1 21\n", script])?;
    let asked = replay_of(object, script.as_slice());
    let whole = joined(rt.alloc(), text)?;
    let modules = Modules::new(rt.alloc())?;
    let mut tasks = tasks_called(rt.alloc(), calls)?;
    check_with(rt, &asked, &modules, &mut tasks, None, &whole, Exit::Done)
}

/// A script after its first line, and its text after that line's, with five tasks that were never called.
static ROWS: [(&str, &str); 4] = [
    // intervals of 1, of the tick's length and its neighbours, and the longest
    (
        "task 0 1\ntask 1 99\ntask 2 100\ntask 3 101\ntask 4 4294967295\ntick 100\ntick 1\ntick 97\ntick 4294967097\n",
        "7 task 0 100 1\n7 task 1 100 1\n7 task 2 100 1\n8 task 0 101 2\n8 task 3 101 1\n9 task 0 198 3\n9 task 1 198 2
10 task 0 4294967295 4\n10 task 1 4294967295 3\n10 task 2 4294967295 2
10 task 3 4294967295 2\n10 task 4 4294967295 1\n",
    ),
    // a task that is started again near its end is due a whole interval later; one that can't be started again goes on
    (
        "task 0 10\ntick 9\ntask 0 10\ntask 1 10\ntick 9\ntask 1 0\ntick 1\n",
        "7 notask 1\n8 task 0 19 1\n8 task 1 19 1\n",
    ),
    // one that is taken out between two ticks isn't called, nor found again
    (
        "task 3 10\ntask 2 10\ntick 9\ncancel 3\ntick 1\ncancel 3\ntask 3 1\ntick 1\n",
        "6 task 2 10 1\n7 notask 3\n8 notask 3\n",
    ),
    // a tick of 0 calls nothing, and one over many intervals calls each task once; no task has these keys
    (
        "task 0 1\ntick 0\ntick 4294967295\ntick 0\ntask 5 1\ntask 4294967295 1\ncancel 4294967295\n",
        "4 task 0 4294967295 1\n6 notask 5\n7 notask 4294967295\n8 notask 4294967295\n",
    ),
];

#[test]
fn a_task_is_due_after_each_whole_interval(rt: HostRuntime) -> Result<(), Fail> {
    for (script, text) in &ROWS {
        check_tasks(
            &rt,
            &[0; 5],
            BOXES,
            script,
            &[BOXES_SETTLED, *text, BOXES_CLOSED],
        )?;
    }
    Ok(())
}

#[test]
fn the_count_of_a_handler_goes_on_past_the_end_of_a_word(rt: HostRuntime) -> Result<(), Fail> {
    check_tasks(
        &rt,
        &[4294967294, 7],
        BOXES,
        "task 1 2\ntask 0 1\ntick 1\ntick 1\ntick 1\n",
        &[
            BOXES_SETTLED,
            "4 task 0 1 4294967295\n5 task 0 2 0\n5 task 1 2 8\n6 task 0 3 1\n",
            BOXES_CLOSED,
        ],
    )
}

/// Thirty tasks are started by falling key, and are due in one tick.
const THIRTY: &str = "task 29 7
task 28 7
task 27 7
task 26 7
task 25 7
task 24 7
task 23 7
task 22 7
task 21 7
task 20 7
task 19 7
task 18 7
task 17 7
task 16 7
task 15 7
task 14 7
task 13 7
task 12 7
task 11 7
task 10 7
task 9 7
task 8 7
task 7 7
task 6 7
task 5 7
task 4 7
task 3 7
task 2 7
task 1 7
task 0 7
tick 7
";

/// The lines of their calls, by rising key. Each handler was called as often before as its key says.
const THIRTY_TOLD: &str = "32 task 0 7 1
32 task 1 7 2
32 task 2 7 3
32 task 3 7 4
32 task 4 7 5
32 task 5 7 6
32 task 6 7 7
32 task 7 7 8
32 task 8 7 9
32 task 9 7 10
32 task 10 7 11
32 task 11 7 12
32 task 12 7 13
32 task 13 7 14
32 task 14 7 15
32 task 15 7 16
32 task 16 7 17
32 task 17 7 18
32 task 18 7 19
32 task 19 7 20
32 task 20 7 21
32 task 21 7 22
32 task 22 7 23
32 task 23 7 24
32 task 24 7 25
32 task 25 7 26
32 task 26 7 27
32 task 27 7 28
32 task 28 7 29
32 task 29 7 30
";

#[test]
fn thirty_tasks_that_are_due_are_called_by_rising_key(rt: HostRuntime) -> Result<(), Fail> {
    let mut calls = [0u32; 30];
    let mut called = 0u32;
    for place in calls.iter_mut() {
        *place = called;
        called = called.wrapping_add(1);
    }
    check_tasks(
        &rt,
        &calls,
        BOXES,
        THIRTY,
        &[BOXES_SETTLED, THIRTY_TOLD, BOXES_CLOSED],
    )
}

#[test]
fn tasks_are_called_in_a_halted_book(rt: HostRuntime) -> Result<(), Fail> {
    check_tasks(
        &rt,
        &[0],
        BOXES,
        "boot 7 0\ntask 0 2\ntick 1\nipi 7 12 0 1\ntick 1\nipi 1 256\n",
        &[
            BOXES_SETTLED,
            "2 set 6 0 1\n2 set 7 0 1\n2 run 7 0\n5 set 2 1 0\n5 set 7 1 0\n5 set 6 1 0\n5 set 1 1 0\n5 set 10 1 0\n",
            "5 reply 7 0 0 0 0\n6 task 0 2 1\n7 drop 1\nend power 62 1 1\n",
        ],
    )
}

/// The closing table of the laboratory with masters 1 and 7.
const LABORATORY_CLOSED: &str = "end power 1 1 1
end proc 2 1 1
end power 6 1 1
end proc 7 1 1
end power 10 1 1
end power 62 1 1
";

#[test]
fn the_calls_of_a_tick_come_after_its_other_lines(rt: HostRuntime) -> Result<(), Fail> {
    check_tasks(
        &rt,
        &[0, 0],
        LABORATORY,
        "boot 7 0\ntask 0 50\ntask 1 100\nipi 1 6 7 2 50 0\ntick 99\ntick 1\n",
        &[
            LABORATORY_LOADED,
            LABORATORY_SETTLED,
            "2 set 6 0 1\n2 set 7 0 1\n2 run 7 0\n5 call 7 30 201 50 0 100\n6 task 0 99 1\n",
            "7 reply 1 2006 0 0 0\n7 task 0 100 2\n7 task 1 100 1\n",
            LABORATORY_CLOSED,
        ],
    )
}
