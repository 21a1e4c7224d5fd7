//! Runs with modules whose handlers are types of the tests.

use super::checks::check_with;
use pm_base::{Exit, Message, NoMemory};
use pm_ipi::Response;
use pm_modules::{Module, Modules, Responder};
use pm_tasks::Tasks;
use std::alloc::Global;
use std::process::Abort;
use std::test::Fail;
use test_fixtures::{BOXES, BOXES_CLOSED, BOXES_SETTLED, joined, replay_of};

/// A handler with another response to each word: status 7, the word, its double and the fifth argument.
#[derive(Drop)]
struct Telling;

impl Responder for Telling {
    ghost use Rattle.test_runs_handlers.specs.Handlers.{told};

    ghost says = { λ _. told };

    fn serve(&self, message: &Message) -> Response {
        let double = message.api.wrapping_add(message.api);
        Response {
            status: 7,
            words: [message.api, double, message.args[4]],
        }
    }
}

/// A handler with one response to all: status 0 and a word.
#[derive(Drop)]
struct Constant {
    word: u32,
}

impl Responder for Constant {
    ghost use Rattle.test_runs_handlers.specs.Handlers.{constant};

    ghost says = { λ responder. constant responder.word };

    fn serve(&self, _message: &Message) -> Response {
        Response {
            status: 0,
            words: [self.word, 0, 0],
        }
    }
}

/// Adds a module of these words, if it can be added.
fn add(modules: &mut Modules, range: (u32, u32), handler: Box<dyn Responder>) {
    let (first, last) = range;
    if 256 <= first && first <= last && last <= 65535 {
        let _added = modules.add(Module::new(first, last, handler));
    }
}

/// Adds a module that responds to these words with this word, if it can be added.
fn add_constant(
    alloc: Global,
    modules: &mut Modules,
    range: (u32, u32),
    word: u32,
) -> Result<(), NoMemory> {
    let handler = Box::new(alloc, Constant { word }).map_err(|_| NoMemory)?;
    add(modules, range, handler);
    Ok(())
}

/// Compares the run of a script after its first line, `ipi 1 21`, with its text after that line's.
fn check_modules(
    rt: &(impl Abort + AllocGlobal),
    modules: &Modules,
    script: &str,
    text: &str,
) -> Result<(), Fail> {
    let script = joined(rt.alloc(), &["ipi 1 21\n", script])?;
    let asked = replay_of(BOXES, script.as_slice());
    let whole = joined(rt.alloc(), &[BOXES_SETTLED, text, BOXES_CLOSED])?;
    let mut tasks = Tasks::new(rt.alloc(), 0)?;
    check_with(rt, &asked, modules, &mut tasks, None, &whole, Exit::Done)
}

#[test]
fn a_handler_may_say_something_else_to_each_word(rt: HostRuntime) -> Result<(), Fail> {
    let handler = Box::new(rt.alloc(), Telling).map_err(|_| NoMemory)?;
    let mut modules = Modules::new(rt.alloc())?;
    add(&mut modules, (300, 302), handler);
    check_modules(
        &rt,
        &modules,
        "ipi 1 299\nipi 1 300 1 2 3 4 5\nipi 1 301 0 0 0 0 9\npost 1 302 1\nserve\nipi 1 303\n",
        "2 reply 1 19 0 0 0\n3 reply 1 7 300 600 5\n4 reply 1 7 301 602 9\n6 reply 1 7 302 604 0\n7 reply 1 19 0 0 0\n",
    )
}

#[test]
fn a_handler_may_have_one_word(rt: HostRuntime) -> Result<(), Fail> {
    let mut modules = Modules::new(rt.alloc())?;
    add_constant(rt.alloc(), &mut modules, (300, 300), 5)?;
    check_modules(&rt, &modules, "ipi 1 300\n", "2 reply 1 0 5 0 0\n")
}

/// Ranges that are added one after another. Each responds with its index. Those with a word in common with an earlier
/// one aren't added: one within it, and two that share one word with it.
static RANGES: [(u32, u32); 6] = [
    (300, 310),
    (311, 320),
    (305, 306),
    (320, 330),
    (290, 300),
    (290, 299),
];

fn modules_of_ranges(alloc: Global) -> Result<Modules, NoMemory> {
    let mut modules = Modules::new(alloc)?;
    let mut word = 0u32;
    for range in &RANGES {
        add_constant(alloc, &mut modules, *range, word)?;
        word = word.wrapping_add(1);
    }
    Ok(modules)
}

#[test]
fn ranges_that_touch_have_their_own_words(rt: HostRuntime) -> Result<(), Fail> {
    check_modules(
        &rt,
        &modules_of_ranges(rt.alloc())?,
        "ipi 1 289\nipi 1 290\nipi 1 299\nipi 1 300\nipi 1 305\nipi 1 310\nipi 1 311\nipi 1 320\nipi 1 321\n",
        "2 reply 1 19 0 0 0\n3 reply 1 0 5 0 0\n4 reply 1 0 5 0 0\n5 reply 1 0 0 0 0\n6 reply 1 0 0 0 0
7 reply 1 0 0 0 0\n8 reply 1 0 1 0 0\n9 reply 1 0 1 0 0\n10 reply 1 19 0 0 0\n",
    )
}
