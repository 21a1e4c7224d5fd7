//! Rows of modules and of timed tasks.

use crate::checks::judge;
use crate::running::run_on;
use pm_base::{Exit, Message, NoMemory};
use pm_io::MemSink;
use pm_ipi::Response;
use pm_modules::{Echo, Masked, Module, Modules, Responder};
use pm_tasks::{Counter, Handler, Tasks};
use std::alloc::Global;
use std::process::Abort;
use std::test::Fail;
use test_fixtures::{LABORATORY, LABORATORY_LOADED, LABORATORY_SETTLED, joined, model, replay_of};

/// A handler with one response: status 0 and the words 5, 0, 0.
#[derive(Drop)]
struct Five;

impl Responder for Five {
    ghost use Rattle.test_worked.specs.Handlers.{five};

    ghost says = { λ _. five };

    fn serve(&self, _message: &Message) -> Response {
        Response {
            status: 0,
            words: [5, 0, 0],
        }
    }
}

/// The modules of the program: an echo at words 256 to 259, and a mask at words 260 to 263.
fn programs_modules(
    alloc: Global,
    echo: Box<dyn Responder>,
    masked: Box<dyn Responder>,
) -> Result<Modules, NoMemory> {
    let mut modules = Modules::new(alloc)?;
    let _first = modules.add(Module::new(256, 259, echo));
    let _second = modules.add(Module::new(260, 263, masked));
    Ok(modules)
}

/// One module, at one word.
fn module_at_300(alloc: Global, handler: Box<dyn Responder>) -> Result<Modules, NoMemory> {
    let mut modules = Modules::new(alloc)?;
    let _added = modules.add(Module::new(300, 300, handler));
    Ok(modules)
}

/// The tasks of the program: two that count their calls, under keys 0 and 1.
fn programs_tasks(
    alloc: Global,
    first: Box<dyn Handler>,
    second: Box<dyn Handler>,
) -> Result<Tasks, NoMemory> {
    let mut tasks = Tasks::new(alloc, 2)?;
    let _first = tasks.add(first);
    let _second = tasks.add(second);
    Ok(tasks)
}

/// Compares the run of a script after its first line `ipi 1 21`, with these modules and the program's tasks, with its
/// text after that line's.
fn check_handled(
    rt: &(impl Abort + AllocGlobal),
    modules: &Modules,
    script: &str,
    text: &str,
) -> Result<(), Fail> {
    let alloc = rt.alloc();
    let first = Box::new(alloc, Counter { calls: 0 }).map_err(|_| NoMemory)?;
    let second = Box::new(alloc, Counter { calls: 0 }).map_err(|_| NoMemory)?;
    let mut tasks = programs_tasks(alloc, first, second)?;
    let script = joined(alloc, &["ipi 1 21\n", script])?;
    let whole = joined(alloc, &[LABORATORY_LOADED, LABORATORY_SETTLED, text])?;
    let mut device = model(alloc)?;
    let mut out = MemSink::new(alloc, None)?;
    let asked = replay_of(LABORATORY, &script);
    let found = run_on(alloc, &asked, &mut out, &mut *device, modules, &mut tasks)?;
    judge(rt, asked.words, found, Exit::Done, out.bytes(), &whole);
    Ok(())
}

/// A script after its first line, `ipi 1 21`, and its text after that line's.
static ROWS: [(&str, &str); 2] = [
    // modules of the program: an echo, a mask, a word of neither, and a master that the object lacks
    (
        "ipi 1 256 7 8 9
ipi 1 260 511
ipi 1 264
ipi 8 256 1
",
        "2 reply 1 0 7 8 9
3 reply 1 0 255 0 0
4 reply 1 19 0 0 0
5 drop 8
end power 1 1 1
end proc 2 1 1
end power 10 1 1
end power 62 1 1
",
    ),
    // a task is started, comes due, is taken out, and isn't there
    (
        "task 0 100
tick 99
tick 1
tick 250
tick 49
cancel 0
tick 100
task 0 5
",
        "4 task 0 100 1
5 task 0 350 2
9 notask 0
end power 1 1 1
end proc 2 1 1
end power 10 1 1
end power 62 1 1
",
    ),
];

#[test]
fn the_programs_modules_answer_and_its_tasks_are_called(rt: HostRuntime) -> Result<(), Fail> {
    let echo = Box::new(rt.alloc(), Echo).map_err(|_| NoMemory)?;
    let masked = Box::new(rt.alloc(), Masked { mask: 255 }).map_err(|_| NoMemory)?;
    let modules = programs_modules(rt.alloc(), echo, masked)?;
    for (script, text) in &ROWS {
        check_handled(&rt, &modules, script, text)?;
    }
    Ok(())
}

#[test]
fn a_module_of_the_caller_answers_its_word(rt: HostRuntime) -> Result<(), Fail> {
    let handler = Box::new(rt.alloc(), Five).map_err(|_| NoMemory)?;
    let modules = module_at_300(rt.alloc(), handler)?;
    let text = "2 reply 1 0 5 0 0
end power 1 1 1
end proc 2 1 1
end power 10 1 1
end power 62 1 1
";
    check_handled(&rt, &modules, "ipi 1 300\n", text)
}
