//! A run in which each command fails alone, written as a table of its steps.

use super::checks::check_listed;
use std::alloc::{AllocError, Global};
use std::process::Abort;
use std::test::Fail;
use test_fixtures::{Asked, replay_of};

/// The kind of a command: on a node; on a reset line; the 1 of a pulse, which isn't given again if it fails; or the 0
/// after it, whose failure the answer doesn't tell, since the line doesn't move in the book.
#[derive(Clone, Copy)]
pub(crate) enum On {
    Node,
    Line,
    Pulse,
    Release,
}

/// A command: its kind, its unit with the value before and after, and the places of the commands of its step that are
/// skipped if it fails.
pub(crate) type Command = (On, &'static str, &'static [usize]);

/// A line of the script, the commands of its step, and the lines after them. The first entry is step 0. In the script
/// an empty line follows each.
pub(crate) type Step = (&'static str, &'static [Command], &'static [&'static str]);

/// An object, the steps, the closing table, and the values of the device at the end.
#[derive(Clone, Copy)]
pub(crate) struct Course {
    pub(crate) object: &'static [u32],
    pub(crate) steps: &'static [Step],
    pub(crate) closing: &'static str,
    pub(crate) values: &'static [(u32, u32)],
}

/// Appends a line: the number of a step and then words. The first word may be left out with its space.
fn push_line(
    alloc: Global,
    text: &mut String,
    number: u64,
    name: &str,
    words: &str,
) -> Result<(), AllocError> {
    let line = format!(in alloc; "{number} {name}{words}\n")?;
    text.push_str(line.as_str())
}

/// Appends a line of a script, if it isn't empty, and then an empty line.
fn push_step(script: &mut String, line: &str) -> Result<(), AllocError> {
    if !line.is_empty() {
        script.push_str(line)?;
        script.push_str("\n")?;
    }
    script.push_str("\n")
}

fn script_of_steps(alloc: Global, steps: &[Step]) -> Result<String, AllocError> {
    let mut script = String::new(alloc);
    for (line, _, _) in steps {
        push_step(&mut script, line)?;
    }
    Ok(script)
}

/// The text of a command that the device took, or that failed.
fn set_name(on: On) -> &'static str {
    match on {
        On::Node => "set ",
        On::Line | On::Pulse | On::Release => "line ",
    }
}

fn fail_name(on: On) -> &'static str {
    match on {
        On::Node => "fail ",
        On::Line | On::Pulse | On::Release => "linefail ",
    }
}

fn has(places: &[usize], place: usize) -> bool {
    for other in places {
        if *other == place {
            return true;
        }
    }
    false
}

/// The places of the commands that wait for the one at place `failing`.
fn waiting_for(commands: &[Command], failing: Option<usize>) -> &'static [usize] {
    match failing {
        Some(place) => match commands.get(place) {
            Some((_, _, skipped)) => *skipped,
            None => &[],
        },
        None => &[],
    }
}

/// The commands of the step with this number if the one at place `failing` fails: those that wait for it aren't
/// given.
fn push_commands(
    alloc: Global,
    text: &mut String,
    number: u64,
    commands: &[Command],
    failing: Option<usize>,
) -> Result<(), AllocError> {
    let skipped = waiting_for(commands, failing);
    for (place, (on, words, _)) in commands.iter().enumerate() {
        if failing == Some(place) {
            push_line(alloc, text, number, fail_name(*on), words)?;
        } else if !has(skipped, place) {
            push_line(alloc, text, number, set_name(*on), words)?;
        }
    }
    Ok(())
}

/// The commands of the next step, with this number: the one that failed, and those that waited for it.
fn push_again(
    alloc: Global,
    text: &mut String,
    number: u64,
    commands: &[Command],
    failing: usize,
) -> Result<(), AllocError> {
    if let Some((On::Pulse, _, _)) = commands.get(failing) {
        return Ok(());
    }
    let skipped = waiting_for(commands, Some(failing));
    for (place, (on, words, _)) in commands.iter().enumerate() {
        if place == failing || has(skipped, place) {
            push_line(alloc, text, number, set_name(*on), words)?;
        }
    }
    Ok(())
}

/// A line that follows the commands of a step in which the one at place `k` failed.
fn failed_line(line: &'static str, commands: &[Command], k: usize) -> &'static str {
    match (line, commands.get(k)) {
        (_, Some((On::Release, _, _))) => line,
        ("reply 1 0 0 0 0", _) => "reply 1 2000 0 0 0",
        ("reply 7 0 0 0 0", _) => "reply 7 2000 0 0 0",
        ("call 7 31 55 0 2 0", _) => "call 7 31 55 2000 2 0",
        _ => line,
    }
}

/// The lines of a step without a failure.
fn push_done(
    alloc: Global,
    text: &mut String,
    number: u64,
    commands: &[Command],
    lines: &[&str],
) -> Result<(), AllocError> {
    push_commands(alloc, text, number, commands, None)?;
    for line in lines {
        push_line(alloc, text, number, "", line)?;
    }
    Ok(())
}

/// The lines of a step in which the command at place `k` fails, and of the next one, in which it is given again.
fn push_failed(
    alloc: Global,
    text: &mut String,
    number: u64,
    commands: &[Command],
    lines: &[&'static str],
    k: usize,
) -> Result<(), AllocError> {
    push_commands(alloc, text, number, commands, Some(k))?;
    for line in lines {
        push_line(alloc, text, number, "", failed_line(line, commands, k))?;
    }
    push_again(alloc, text, number.saturating_add(1), commands, k)
}

/// The text of the steps if the command at place `k` of the step at place `failing` fails alone.
fn text_of_steps(
    alloc: Global,
    course: &Course,
    failing: usize,
    k: usize,
) -> Result<String, AllocError> {
    let mut text = String::new(alloc);
    for (place, (_, commands, lines)) in course.steps.iter().enumerate() {
        let number = (place as u64).saturating_mul(2);
        if place == failing {
            push_failed(alloc, &mut text, number, commands, lines, k)?;
        } else {
            push_done(alloc, &mut text, number, commands, lines)?;
        }
    }
    text.push_str(course.closing)?;
    Ok(text)
}

/// The run in which the command with this number fails alone: the one at place `k` of the step at a place.
fn check_command(
    rt: &(impl Abort + AllocGlobal),
    course: &Course,
    asked: &Asked,
    number: u32,
    place: usize,
    k: usize,
) -> Result<(), Fail> {
    let text = text_of_steps(rt.alloc(), course, place, k)?;
    check_listed(rt, &[number], asked, text.as_str(), course.values)
}

/// Runs the steps once for each command, which fails alone. There have to be so many commands.
pub(crate) fn check_course(
    rt: &(impl Abort + AllocGlobal),
    course: &Course,
    commands: u32,
) -> Result<(), Fail> {
    let script = script_of_steps(rt.alloc(), course.steps)?;
    let asked = replay_of(course.object, script.as_bytes());
    let mut number = 0u32;
    for (place, (_, commands, _)) in course.steps.iter().enumerate() {
        for k in 0..commands.len() {
            number = number.saturating_add(1);
            check_command(rt, course, &asked, number, place, k)?;
        }
    }
    assert_eq!(rt; number, commands);
    Ok(())
}
