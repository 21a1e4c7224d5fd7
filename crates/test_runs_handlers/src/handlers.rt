//! Runs with the modules and the timed tasks of the program.

use super::checks::check_with;
use pm_base::{Exit, NoMemory};
use pm_modules::{Echo, Masked, Module, Modules, Responder};
use pm_tasks::{Counter, Handler, Tasks};
use std::alloc::Global;
use std::process::Abort;
use std::test::Fail;
use test_fixtures::{Asked, BOXES, BOXES_CLOSED, BOXES_SETTLED, joined, replay_of};

/// A module for words 256 to 259, and one for words 260 to 263.
fn modules_of(
    alloc: Global,
    first: Box<dyn Responder>,
    second: Box<dyn Responder>,
) -> Result<Modules, NoMemory> {
    let mut modules = Modules::new(alloc)?;
    let _first = modules.add(Module::new(256, 259, first));
    let _second = modules.add(Module::new(260, 263, second));
    Ok(modules)
}

/// Tasks under keys 0 and 1.
fn tasks_of(
    alloc: Global,
    first: Box<dyn Handler>,
    second: Box<dyn Handler>,
) -> Result<Tasks, NoMemory> {
    let mut tasks = Tasks::new(alloc, 2)?;
    let _first = tasks.add(first);
    let _second = tasks.add(second);
    Ok(tasks)
}

/// Compares a run over a sink with this room with its text and exit.
fn check_program(
    rt: &(impl Abort + AllocGlobal),
    asked: &Asked,
    room: Option<u32>,
    text: &[u8],
    exit: Exit,
) -> Result<(), Fail> {
    let alloc = rt.alloc();
    let echo = Box::new(alloc, Echo).map_err(|_| NoMemory)?;
    let masked = Box::new(alloc, Masked { mask: 255 }).map_err(|_| NoMemory)?;
    let modules = modules_of(alloc, echo, masked)?;
    let first = Box::new(alloc, Counter { calls: 0 }).map_err(|_| NoMemory)?;
    let second = Box::new(alloc, Counter { calls: 0 }).map_err(|_| NoMemory)?;
    let mut tasks = tasks_of(alloc, first, second)?;
    check_with(rt, asked, &modules, &mut tasks, room, text, exit)
}

/// Compares the run of a script after its first line `ipi 1 21` with its text after that line's.
fn check_row(rt: &(impl Abort + AllocGlobal), script: &str, text: &str) -> Result<(), Fail> {
    let script = joined(rt.alloc(), &["ipi 1 21\n", script])?;
    let asked = replay_of(BOXES, script.as_slice());
    let whole = joined(rt.alloc(), &[BOXES_SETTLED, text, BOXES_CLOSED])?;
    check_program(rt, &asked, None, &whole, Exit::Done)
}

/// A script after its first line `ipi 1 21`, and its text after that line's.
static ROWS: [(&str, &str); 5] = [
    // words of both modules, a word of none, and a dropped message
    (
        "ipi 1 256 7 8 9\nipi 1 260 511\nipi 1 264\nipi 8 256 1\n",
        "2 reply 1 0 7 8 9\n3 reply 1 0 255 0 0\n4 reply 1 19 0 0 0\n5 drop 8\n",
    ),
    // a message that is served is answered by the module too
    ("post 1 256 1 2 3\nserve\n", "3 reply 1 0 1 2 3\n"),
    // due after each whole interval, called once in a tick, and gone when it is taken out
    (
        "task 0 100\ntick 99\ntick 1\ntick 250\ntick 49\ncancel 0\ntick 100\ntask 0 5\n",
        "4 task 0 100 1\n5 task 0 350 2\n9 notask 0\n",
    ),
    // by rising key; an interval of 0 leaves a task as it was; one that is started again counts from then
    (
        "task 1 2\ntask 0 4\ntick 4\ntask 1 0\ntick 1\ntask 1 2\ntick 1\ntick 1\n",
        "4 task 0 4 1\n4 task 1 4 1\n5 notask 1\n9 task 1 7 2\n",
    ),
    // no task has the key; the longest interval
    (
        "task 2 1\ncancel 2\ntask 0 4294967295\ntick 4294967294\ntick 1\n",
        "2 notask 2\n3 notask 2\n6 task 0 4294967295 1\n",
    ),
];

#[test]
fn modules_answer_and_tasks_are_called(rt: HostRuntime) -> Result<(), Fail> {
    for (script, text) in &ROWS {
        check_row(&rt, script, text)?;
    }
    Ok(())
}

/// Compares a run whose sink has room for so many bytes with so many bytes of the whole text.
fn check_front(
    rt: &(impl Abort + AllocGlobal),
    asked: &Asked,
    length: usize,
    whole: &[u8],
) -> Result<(), Fail> {
    let front = whole.get(..length).ok_or("a front")?;
    check_program(
        rt,
        asked,
        u32::try_from(length).ok(),
        front,
        Exit::WriteFault,
    )
}

#[test]
fn the_text_breaks_off_at_each_byte_of_tasks(rt: HostRuntime) -> Result<(), Fail> {
    let asked = replay_of(BOXES, b"ipi 1 21\ntask 0 1\ntask 1 1\ntask 2 1\ntick 3\n");
    let told = "4 notask 2\n5 task 0 3 1\n5 task 1 3 1\n";
    let whole = joined(rt.alloc(), &[BOXES_SETTLED, told, BOXES_CLOSED])?;
    check_program(&rt, &asked, None, &whole, Exit::Done)?;
    let before = BOXES_SETTLED.len();
    for length in before..before.saturating_add(told.len()) {
        check_front(&rt, &asked, length, &whole)?;
    }
    Ok(())
}
