//! Makes a run of words over inputs, a sink and a device in memory, and writes its outcome. `cases/refuse-memory`
//! uses it under a toolchain that refuses one allocation of the process: so it sees the outcome of each refusal
//! within a run.
//!
//! The standard input has three lines: the words, the number of allocations before the run, and the number after it.
//! The first number chooses which allocation of the run is refused; the allocations after the run find out whether
//! one was refused before. The output is one line:
//!
//! | Line | Meaning |
//! |---|---|
//! | `before N` | after N of the allocations before the run the next one was refused |
//! | `memory` | the run ended with Memory, and wrote nothing but `fault memory` |
//! | `whole` | the run ended with Done, and wrote what the same run writes when it is made again |
//! | `after N` | after N of the allocations after the run the next one was refused |
//! | `wrong EXIT` | the run had another outcome |
//!
//! The exit status is 1 if there was no memory for what a run needs.
#![tactic(auto)]

mod asked;
mod stage;

use asked::{Asked, read_asked};
use pm_base::{Exit, NoMemory};
use stage::{new_shared, new_stage, run_words};
use std::alloc::Global;
use std::io;
use std::process::ExitCode;

/// The text of a run for want of memory.
const REFUSAL: &[u8] = b"fault memory\n";

/// The outcome of a run, or of the allocations before or after it: how many were made.
#[derive(Clone, Copy, Debug, PartialEq, Eq)]
enum Verdict {
    Before(u32),
    Memory,
    Whole,
    After(u32),
    Wrong(Exit),
}

fn main(rt: HostRuntime) -> ExitCode {
    match run(&rt) {
        Ok(()) => ExitCode::SUCCESS,
        Err(_) => ExitCode::FAILURE,
    }
}

/// Does what the standard input asks for, and returns the outcome.
fn run<R: Input + Print + AllocGlobal>(rt: &R) -> io::Result<()> {
    let asked = read_asked(rt)?;
    match judge(rt.alloc(), &asked) {
        Ok(Verdict::Before(made)) => println!(rt; "before {made}"),
        Ok(Verdict::Memory) => println!(rt; "memory"),
        Ok(Verdict::Whole) => println!(rt; "whole"),
        Ok(Verdict::After(made)) => println!(rt; "after {made}"),
        Ok(Verdict::Wrong(exit)) => println!(rt; "wrong {exit:?}"),
        Err(NoMemory) => Err(io::Error::from(io::ErrorKind::OutOfMemory)),
    }
}

/// Makes the allocations before the run, the run, those after it, and the same run again.
fn judge(alloc: Global, asked: &Asked) -> Result<Verdict, NoMemory> {
    let mut shared = new_shared(alloc)?;
    let mut first = new_stage(alloc)?;
    let mut again = new_stage(alloc)?;
    let made = allocations(alloc, asked.before);
    if made < asked.before {
        return Ok(Verdict::Before(made));
    }
    let exit = run_words(alloc, &asked.words, &mut shared, &mut first);
    let made = allocations(alloc, asked.after);
    if made < asked.after {
        return Ok(Verdict::After(made));
    }
    let whole = run_words(alloc, &asked.words, &mut shared, &mut again);
    Ok(verdict_of((exit, first.text()), (whole, again.text())))
}

/// Makes so many allocations, or stops at a refused one. Returns the number of those that were made.
fn allocations(alloc: Global, count: u32) -> u32 {
    for made in 0..count {
        if Box::new(alloc, 0u8).is_err() {
            return made;
        }
    }
    count
}

/// The outcome of a run, by its exit and text, and those of the same run again.
fn verdict_of(ran: (Exit, &[u8]), again: (Exit, &[u8])) -> Verdict {
    match ran {
        (Exit::Memory, text) if text == REFUSAL => Verdict::Memory,
        (Exit::Done, text) if again == (Exit::Done, text) => Verdict::Whole,
        (exit, _) => Verdict::Wrong(exit),
    }
}
