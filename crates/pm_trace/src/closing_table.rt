//! The lines of the closing table, which follows the last step.

ghost use Rattle.std.specs.Prelude.{◌≡◌, ◌<◌, ◌≤◌, ◌↔◌, ◌∷◌, [], Some, IsTrue, length, slice_get};
ghost use Rattle.std.specs.Bool.{OnFalse};
ghost use Rattle.pm_state.specs.Units.{units};
ghost use Rattle.pm_base.specs.declared.names.Unit.{Unit};
ghost use Rattle.pm_trace.specs.declared.line.Word.TheVariants as word;
ghost use Rattle.pm_state.specs.Values.{shown};
ghost use Rattle.pm_trace.specs.Closing.{clock_end_line, unit_line, unit_name, kind_name};
ghost use Rattle.pm_trace.specs.Line.{width};

use crate::line::{TextLine, Word, name, write_line};
use pm_base::Unit;
use pm_core::Book;
use pm_topology::{Kind, Topology};

/// Writes into `line` the closing line of the `k`-th unit of the book, counted from 0, with its line feed. It has the
/// unit's value, or the mode of a processor, and then `kept`, the value that the device took last. If both are 0 the
/// unit isn't shown: `line` is empty and the result is false.
pub fn closing(book: &Book, k: usize, kept: u32, line: &mut TextLine) -> bool
    requires place { k < length (units book.now) }
    ensures text { (unit : Unit) → slice_get (units book.now) k ≡ Some unit →
        line.new.items ≡ unit_line book.now.fixed.topology unit (shown unit book.now) kept }
    ensures shown { (unit : Unit) → slice_get (units book.now) k ≡ Some unit →
        IsTrue result ↔ ((shown unit book.now ≡ 0) × (kept ≡ 0) → ⊥) }
    ensures hidden { OnFalse result (line.new.items ≡ []) }
{
    let unit = book.unit(k);
    write_unit(book.topology(), unit, book.shown(unit), kept, line)
}

/// Writes into `line` the closing line of a unit with these two numbers. If both are 0 `line` is empty and the result
/// is false.
fn write_unit(t: &Topology, unit: Unit, value: u32, kept: u32, line: &mut TextLine) -> bool
    ensures text { line.new.items ≡ unit_line t.now unit value kept }
    ensures shown { IsTrue result ↔ ((value ≡ 0) × (kept ≡ 0) → ⊥) }
    ensures hidden { OnFalse result (line.new.items ≡ []) }
{
    if value == 0 && kept == 0 {
        line.clear();
        return false;
    }
    let (kind, number) = unit_name(t, unit);
    write_line(
        line,
        name(b"end"),
        &[
            kind,
            Word::Number(number),
            Word::Number(value),
            Word::Number(kept),
        ],
    );
    true
}

/// The name of a unit's sort in a line of output (`proc`, `slave`, `power` or `line`), and its number.
pub fn unit_name(t: &Topology, unit: Unit) -> (Word, u32)
    ensures words { unit_name t.now unit ≡ result.0 ∷ word.Number result.1 ∷ [] }
    ensures short { width result.0 ≤ 5 }
{
    match unit {
        Unit::Node(node) => (kind_name(t.kind(node)), node.0),
        Unit::Line(reset) => (name(b"line"), reset.0),
    }
}

/// The name of a node's kind in a line of output; `slave` for an unknown node.
fn kind_name(kind: Kind) -> Word
    ensures name { result ≡ kind_name kind }
    ensures short { width result ≤ 5 }
{
    match kind {
        Kind::Proc(_) => name(b"proc"),
        Kind::Slave(_) | Kind::Unknown => name(b"slave"),
        Kind::Power(_) => name(b"power"),
    }
}

/// Writes into `line` the closing line of a clock that runs: its number, its divider and the index of its parent.
pub fn clock_closing(number: u32, divider: u32, index: u32, line: &mut TextLine)
    ensures { line.new.items ≡ clock_end_line number divider index }
{
    write_line(
        line,
        name(b"end"),
        &[
            name(b"clock"),
            Word::Number(number),
            Word::Number(divider),
            Word::Number(index),
        ],
    );
}
