//! Runs in which each command fails alone: the book stays the same.

use super::running::run_with;
use pm_base::Exit;
use pm_gen::make;
use pm_io::MemSink;
use std::alloc::{AllocError, Global};
use std::process::Abort;
use std::test::Fail;
use test_fixtures::{LABORATORY, listed, replay_of};

/// The sleep of another master switches a domain off: 21 commands over a device that doesn't fail.
const SLEEPING: &str = "ipi 1 21
boot 7 0
ipi 7 13 28 1 0 2
ipi 1 7 2 0 0 0 0
wfi 2
ipi 7 14 28
";

/// The part of a run's text that is compared: the book's columns of the closing table, the number of commands, and
/// the number of those that failed.
#[derive(Drop)]
struct Seen {
    book: String,
    given: u32,
    failed: u32,
}

fn push_word(book: &mut String, word: &str) -> Result<(), AllocError> {
    book.push_str(word)?;
    book.push_str(" ")
}

fn push_book(line: &str, book: &mut String) -> Result<(), AllocError> {
    let mut words = line.split_whitespace();
    if words.next() != Some("end") {
        return Ok(());
    }
    let (Some(kind), Some(number), Some(value)) = (words.next(), words.next(), words.next()) else {
        return Ok(());
    };
    if value != "0" {
        push_word(book, kind)?;
        push_word(book, number)?;
        push_word(book, value)?;
    }
    Ok(())
}

/// Counts the command of a line, if the line is a command on a node.
fn count_command(line: &str, seen: &mut Seen) {
    match line.split_whitespace().nth(1) {
        Some("set") => seen.given = seen.given.saturating_add(1),
        Some("fail") => {
            seen.given = seen.given.saturating_add(1);
            seen.failed = seen.failed.saturating_add(1);
        }
        _ => {}
    }
}

/// A run of a script over a sink in which these commands fail.
fn run_listed(
    alloc: Global,
    script: &[u8],
    failing: &[u32],
    out: &mut MemSink,
) -> Result<Exit, Fail> {
    let mut device = listed(alloc, failing)?;
    run_with(alloc, &replay_of(LABORATORY, script), out, &mut *device)
}

/// The compared part of a run's text.
fn seen_in(alloc: Global, text: &str) -> Result<Seen, AllocError> {
    let mut seen = Seen {
        book: String::new(alloc),
        given: 0,
        failed: 0,
    };
    for line in text.lines() {
        push_book(line, &mut seen.book)?;
        count_command(line, &mut seen);
    }
    Ok(seen)
}

/// The compared part of the run of a script in which these commands fail.
fn seen_with(
    rt: &(impl Abort + AllocGlobal),
    script: &[u8],
    failing: &[u32],
) -> Result<Seen, Fail> {
    let mut out = MemSink::new(rt.alloc(), None)?;
    let exit = run_listed(rt.alloc(), script, failing, &mut out)?;
    assert_eq!(rt; exit, Exit::Done, "{failing:?}");
    let text = std::str::from_utf8(out.bytes()).unwrap_or("");
    Ok(seen_in(rt.alloc(), text)?)
}

/// Whether exactly this command failed, and the book's columns are those of the run without a failure.
fn check_seen(rt: &impl Abort, command: u32, seen: &Seen, whole: &Seen) {
    let wanted = (1, whole.book.as_str());
    assert_eq!(rt;
        (seen.failed, seen.book.as_str()),
        wanted,
        "command {command}"
    );
}

/// Runs a script once for each command that a device gets if it doesn't fail, with that command failing alone. Fails
/// the test if another number of commands fails, or the book's columns differ from those of the run without a
/// failure.
fn check_each_command(
    rt: &(impl Abort + AllocGlobal),
    script: &[u8],
    whole: &Seen,
) -> Result<(), Fail> {
    for command in 1..=whole.given {
        let seen = seen_with(rt, script, &[command])?;
        check_seen(rt, command, &seen, whole);
    }
    Ok(())
}

#[test]
fn the_book_is_the_same_whichever_command_fails(rt: HostRuntime) -> Result<(), Fail> {
    let whole = seen_with(&rt, SLEEPING.as_bytes(), &[])?;
    let wanted = (21, 0, "proc 2 2 power 6 1 proc 7 1 power 62 1 ");
    assert_eq!(rt; (whole.given, whole.failed, whole.book.as_str()), wanted);
    check_each_command(&rt, SLEEPING.as_bytes(), &whole)
}

/// Numbers of lines, and how many commands the device gets in the run of each generated script.
static MADE: [(u32, u32); 3] = [(8, 18), (50, 30), (60, 26)];

/// Checks each command of the generated script of so many lines, in whose run the device gets so many commands.
fn check_made(rt: &(impl Abort + AllocGlobal), number: u32, commands: u32) -> Result<(), Fail> {
    let script = make(rt.alloc(), number)?;
    let whole = seen_with(rt, &script, &[])?;
    assert_eq!(rt;
        (whole.given, whole.failed),
        (commands, 0),
        "script {number}"
    );
    check_each_command(rt, &script, &whole)
}

#[test]
fn the_book_of_a_made_script_is_the_same_whichever_command_fails(
    rt: HostRuntime,
) -> Result<(), Fail> {
    for (number, commands) in &MADE {
        check_made(&rt, *number, *commands)?;
    }
    Ok(())
}
