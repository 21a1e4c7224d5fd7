//! Writing the differences between two runs: a line for each unit that differs, and the number of script lines.

ghost use Rattle.std.specs.Prelude.{◌≡◌, ◌≤◌, ◌∷◌, length};
ghost use Rattle.std.specs.List.{concat};
ghost use Rattle.pm_trace.specs.Line.{line_text, widths};
ghost use Rattle.pm_isolate.specs.Differences.{difference_line};
ghost use Rattle.pm_isolate.specs.Within.{Writes, end_text, mark_line, mark_lines};

use crate::worlds::Worlds;
use pm_base::{Failed, Unit};
use pm_io::{Sink, write_all};
use pm_topology::Topology;
use pm_trace::{TextLine, Word, name, unit_name, write_line};

/// Writes what follows the last script line, after `count` lines. Fails if the sink does.
pub fn write_end<O: Sink>(worlds: &Worlds, count: u32, out: &mut O) -> Result<(), Failed>
    ensures { Writes O.Sink (end_text worlds.now count) out.old out.new result }
{
    write_marks(worlds, out)?;
    write_words(name(b"steps"), &[Word::Number(count)], out)
}

/// Writes a line for each unit that was found to differ. Fails if the sink does.
fn write_marks<O: Sink>(worlds: &Worlds, out: &mut O) -> Result<(), Failed>
    ensures { Writes O.Sink (concat (mark_lines worlds.now)) out.old out.new result }
{
    let t = worlds.topology();
    for place in 0..worlds.units() {
        let (unit, differs) = worlds.mark(place);
        write_mark(t, unit, differs, out)?;
    }
    Ok(())
}

/// Writes the line of a unit, if it was found to differ. Fails if the sink does.
fn write_mark<O: Sink>(t: &Topology, unit: Unit, differs: bool, out: &mut O) -> Result<(), Failed>
    ensures { Writes O.Sink (mark_line t.now (unit, differs)) out.old out.new result }
{
    if differs {
        write_unit(t, unit, out)
    } else {
        Ok(())
    }
}

/// Writes the line of a unit that differs. Fails if the sink does.
fn write_unit<O: Sink>(t: &Topology, unit: Unit, out: &mut O) -> Result<(), Failed>
    ensures { Writes O.Sink (difference_line t.now unit) out.old out.new result }
{
    let (kind, number) = unit_name(t, unit);
    write_words(name(b"differ"), &[kind, Word::Number(number)], out)
}

/// Writes a line of these words. Fails if the sink does.
fn write_words<O: Sink>(first: Word, rest: &[Word], out: &mut O) -> Result<(), Failed>
    requires room { widths (first ∷ rest.now) ≤ 127 }
    ensures { Writes O.Sink (line_text (first ∷ rest.now)) out.old out.new result }
{
    let mut line = TextLine::new();
    write_line(&mut line, first, rest);
    write_all(out, line.as_slice())
}
