//! The lines of a script line's own notes, each with the line's number `n` in front and a line feed at the end.

ghost use Rattle.std.specs.Prelude.{◌≡◌};
ghost use Rattle.pm_split.specs.Split.Note.{Busy, Called, Clock, Fired, Late, NoTask};
ghost use Rattle.pm_trace.specs.Notes.{bit, note_line};

use crate::line::{TextLine, Word, name, write_line};
use pm_base::NodeId;

/// Writes into `line` that the box of a master is full, so that the message of script line `n` wasn't put there.
pub fn busy_line(n: u32, master: NodeId, line: &mut TextLine)
    ensures { line.new.items ≡ note_line n (Busy master) }
{
    write_line(
        line,
        Word::Number(n),
        &[name(b"busy"), Word::Number(master.0)],
    );
}

/// Writes into `line` the answer to the power call of a processor in script line `n`.
pub fn call_line(n: u32, proc: NodeId, code: i32, line: &mut TextLine)
    ensures { line.new.items ≡ note_line n (Called proc code) }
{
    write_line(
        line,
        Word::Number(n),
        &[name(b"smc"), Word::Number(proc.0), Word::Signed(code)],
    );
}

/// Writes into `line` that script line `n` finds no task with this key to start or to take out.
pub fn no_task_line(n: u32, key: u32, line: &mut TextLine)
    ensures { line.new.items ≡ note_line n (NoTask key) }
{
    write_line(line, Word::Number(n), &[name(b"notask"), Word::Number(key)]);
}

/// Writes into `line` a call of a task in script line `n`: its key, the time, and the word that it returns.
pub fn task_line(n: u32, key: u64, at: u64, told: u32, line: &mut TextLine)
    ensures { line.new.items ≡ note_line n (Fired key at told) }
{
    write_line(
        line,
        Word::Number(n),
        &[
            name(b"task"),
            Word::Address(key),
            Word::Address(at),
            Word::Number(told),
        ],
    );
}

/// Writes into `line` that script line `n` attaches words at this address too late: after the first other line.
pub fn late_line(n: u32, address: u32, line: &mut TextLine)
    ensures { line.new.items ≡ note_line n (Late address) }
{
    write_line(
        line,
        Word::Number(n),
        &[name(b"late"), Word::Number(address)],
    );
}

/// Writes into `line` that a clock started or stopped in script line `n`.
pub fn clock_line(n: u32, number: u32, from: bool, to: bool, line: &mut TextLine)
    ensures { line.new.items ≡ note_line n (Clock number from to) }
{
    write_line(
        line,
        Word::Number(n),
        &[
            name(b"clock"),
            Word::Number(number),
            Word::Number(bit(from)),
            Word::Number(bit(to)),
        ],
    );
}

/// 1 if a clock runs, else 0, as the line of a clock has it.
fn bit(on: bool) -> u32
    ensures { result ≡ bit on }
{
    if on { 1 } else { 0 }
}
