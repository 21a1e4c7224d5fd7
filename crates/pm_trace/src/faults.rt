//! The line with which a failed command ends, and its exit.

ghost use Rattle.std.specs.Prelude.{◌≡◌, ◌≤◌, ◌∷◌, [], codes, length};
ghost use Rattle.pm_trace.specs.declared.line.Word.TheVariants as word;
ghost use Rattle.pm_trace.specs.Line.{line_text};
ghost use Rattle.pm_trace.specs.Faults.{fault_text, text_cause, topology_text_cause, topology_cause, line_cause, exit_by};

use crate::line::{TextLine, Word, name, write_line};
use pm_base::Exit;
use pm_object::ObjectFault;
use pm_objtext::{TextCause, TextFault};
use pm_script::LineFault;
use pm_topofile::{TopoTextCause, TopoTextFault};
use pm_topology::{TopoCause, TopoFault};

/// The reason why a command failed, as its last line has it.
#[derive(Clone, Copy, Debug, PartialEq, Eq)]
pub enum Fault {
    /// The words of the command line fit no form.
    Usage,
    /// The object can't be read: its first fault.
    Object(ObjectFault),
    /// The text of an object can't be read: its first bad line.
    Text(TextFault),
    /// The text of a topology can't be read: its first bad line.
    TopologyText(TopoTextFault),
    /// A topology breaks a rule: its first fault.
    Topology(TopoFault),
    /// A script line can't be read: its number, counted from 1, and its first fault.
    Line(u32, LineFault),
    /// An input couldn't be opened or read.
    Read,
    /// There was not enough memory.
    Memory,
    /// The script is too large.
    Size,
    /// A word names no master of the object.
    Node,
    /// A word isn't a number of lines for a generated script.
    Number,
}

/// Writes into `line` the line of a fault, with its line feed.
pub fn write_fault(fault: Fault, line: &mut TextLine)
    ensures { line.new.items ≡ fault_text fault }
{
    match fault {
        Fault::Usage => write_named(b"usage", line),
        Fault::Object(fault) => write_placed(b"object", fault.cause.number(), fault.offset, line),
        Fault::Text(fault) => write_placed(b"text", fault.line, text_cause(fault.cause), line),
        Fault::TopologyText(fault) => {
            write_placed(b"text", fault.line, topology_text_cause(fault.cause), line);
        }
        Fault::Topology(fault) => write_line(
            line,
            name(b"fault"),
            &[
                name(b"topology"),
                Word::Number(topology_cause(fault.cause)),
                Word::Address(fault.place as u64),
            ],
        ),
        Fault::Line(n, cause) => write_placed(b"line", n, line_cause(cause), line),
        Fault::Read => write_named(b"read", line),
        Fault::Memory => write_named(b"memory", line),
        Fault::Size => write_named(b"size", line),
        Fault::Node => write_named(b"node", line),
        Fault::Number => write_named(b"number", line),
    }
}

/// Writes into `line` the line of a fault that has only a name, of at most 8 bytes.
fn write_named(kind: &'static [u8], line: &mut TextLine)
    requires short { length kind.now ≤ 8 }
    ensures { line.new.items ≡ line_text (word.Name (codes "fault") ∷ word.Name kind.now ∷ []) }
{
    write_line(line, name(b"fault"), &[name(kind)]);
}

/// Writes into `line` the line of a fault that has a name, of at most 8 bytes, and two numbers.
fn write_placed(kind: &'static [u8], first: u32, second: u32, line: &mut TextLine)
    requires short { length kind.now ≤ 8 }
    ensures { line.new.items
        ≡ line_text (word.Name (codes "fault") ∷ word.Name kind.now ∷ word.Number first ∷ word.Number second ∷ []) }
{
    write_line(
        line,
        name(b"fault"),
        &[name(kind), Word::Number(first), Word::Number(second)],
    );
}

/// The number of a cause in the line of a fault of an object's text.
fn text_cause(cause: TextCause) -> u32
    ensures { result ≡ text_cause cause }
{
    cause as u32
}

/// The number of a cause in the line of a fault of a topology's text.
fn topology_text_cause(cause: TopoTextCause) -> u32
    ensures { result ≡ topology_text_cause cause }
{
    cause as u32
}

/// The number of a broken rule in the line of a topology's fault.
fn topology_cause(cause: TopoCause) -> u32
    ensures { result ≡ topology_cause cause }
{
    cause as u32
}

/// The number of a cause in the line of a script line's fault.
fn line_cause(cause: LineFault) -> u32
    ensures { result ≡ line_cause cause }
{
    cause as u32
}

/// The exit of a command that this fault stops.
pub fn exit(fault: Fault) -> Exit
    ensures { result ≡ exit_by fault }
{
    match fault {
        Fault::Usage => Exit::Usage,
        Fault::Object(_) => Exit::BadObject,
        Fault::Text(_)
        | Fault::TopologyText(_)
        | Fault::Topology(_)
        | Fault::Node
        | Fault::Number => Exit::BadText,
        Fault::Line(_, _) => Exit::BadLine,
        Fault::Read => Exit::ReadFault,
        Fault::Memory => Exit::Memory,
        Fault::Size => Exit::TooLarge,
    }
}
