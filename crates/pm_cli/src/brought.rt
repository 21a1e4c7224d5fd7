//! The modules and the timed tasks that the program gives to a run.

ghost use Rattle.std.specs.Prelude.{◌≡◌, ◌≢◌, ◌∷◌, ◌++◌, [], IfOk, None};
ghost use Rattle.pm_modules.specs.Modules.{ranged, ranges, refusal};
ghost use Rattle.pm_modules.specs.Responders.{echoed, masked};
ghost use Rattle.pm_tasks.specs.Stored.{timetable};
ghost use Rattle.pm_tasks.specs.Timetable.{Adds, stored_count};
ghost use Rattle.pm_cli.specs.Brought.{AreTwoCounters, programs_modules};

use pm_base::NoMemory;
use pm_modules::{ModuleOf, ModulesOf, Responder};
use pm_tasks::{Handler, TasksOf};
use std::alloc::Global;

/// Two modules: the first handler answers words 256 to 259, and the second one words 260 to 263. Fails with
/// `NoMemory` if there is not enough memory.
pub fn modules<H: Responder>(alloc: Global, first: H, second: H) -> Result<ModulesOf<H>, NoMemory>
    requires first { H.says first ≡ echoed }
    requires second { H.says second ≡ masked 255 }
    ensures { IfOk result (λ modules. ranges H.Responder modules ≡ programs_modules) }
{
    let mut modules = ModulesOf::new(alloc)?;
    add(&mut modules, ModuleOf::new(256, 259, first));
    add(&mut modules, ModuleOf::new(260, 263, second));
    Ok(modules)
}

/// Adds a module. It must have no word in common with those that are there.
fn add<H: Responder>(modules: &mut ModulesOf<H>, added: ModuleOf<H>)
    requires { refusal H.Responder added modules.old ≡ None }
    ensures { ranges H.Responder modules.new
        ≡ ranges H.Responder modules.old ++ ranged H.Responder added ∷ [] }
{
    let _added = modules.add(added);
}

/// Two stored tasks with these handlers, both stopped. Fails with `NoMemory` if there is not enough memory.
pub fn tasks<H: Handler>(alloc: Global, first: H, second: H) -> Result<TasksOf<H>, NoMemory>
    requires first { H.calls first ≡ 0 }
    requires second { H.calls second ≡ 0 }
    ensures { IfOk result (λ tasks. AreTwoCounters (timetable H.Handler tasks)) }
{
    let mut tasks = TasksOf::new(alloc, 2)?;
    let _first = store(&mut tasks, first);
    let _second = store(&mut tasks, second);
    Ok(tasks)
}

/// Stores a task, stopped, and returns its key. There has to be room for it.
fn store<H: Handler>(tasks: &mut TasksOf<H>, handler: H) -> usize
    requires settled { (timetable H.Handler tasks.old).left ≡ [] }
    requires room { stored_count (timetable H.Handler tasks.old)
        ≢ (timetable H.Handler tasks.old).limit }
    ensures { Adds (timetable H.Handler tasks.old) (timetable H.Handler tasks.new) result (H.calls handler) }
{
    match tasks.add(handler) {
        Ok(key) => key,
        Err(_) => unreachable!(),
    }
}

/// A value in a box. Fails with `NoMemory` if there is not enough memory.
pub fn boxed<T: Drop>(alloc: Global, value: T) -> Result<Box<T>, NoMemory>
    ensures { IfOk result (λ held. held.value ≡ value) }
{
    Box::new(alloc, value).map_err(|_| NoMemory)
}
