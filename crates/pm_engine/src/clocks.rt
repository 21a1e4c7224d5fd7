//! The lines of clocks that began or ceased to run in a script line are written.

ghost use Rattle.std.specs.Prelude.{◌≡◌, map, option_to_list};
ghost use Rattle.pm_clock_tree.specs.Told.{changes, told};
ghost use Rattle.pm_drive.specs.Clocks.{clock_note};
ghost use Rattle.pm_trace.specs.Notes.{notes_text};
ghost use Rattle.pm_engine.specs.Writes.{WritesOn};

use crate::engine::Engine;
use crate::writing::write_clock;
use pm_base::Failed;
use pm_clocks::{ClockChange, Clocks, all_clocks};
use pm_io::Sink;

/// Writes the lines of the clocks that began or ceased to run in a script line, all core steps of which were carried out.
/// They are told of then. A sink that has failed before within the line is given nothing more. In a line that can't have
/// changed a clock none is looked at.
#[inline]
pub fn clocks_on<O: Sink>(
    written: Result<(), Failed>,
    number: u32,
    engine: &mut Engine,
    out: &mut O,
) -> Result<(), Failed>
    ensures clocks { engine.new ≡ record engine.old { clocks = told engine.old.clocks } }
    ensures writes { WritesOn O.Sink (notes_text number (map clock_note (changes engine.old.clocks)))
        written result out.old out.new }
{
    if !engine.clocks().has_changes() {
        return written;
    }
    told_on(written, number, engine, out)
}

/// Writes the lines of the clocks that began or ceased to run, of any script line.
#[inline(never)]
fn told_on<O: Sink>(
    written: Result<(), Failed>,
    number: u32,
    engine: &mut Engine,
    out: &mut O,
) -> Result<(), Failed>
    ensures clocks { engine.new ≡ record engine.old { clocks = told engine.old.clocks } }
    ensures writes { WritesOn O.Sink (notes_text number (map clock_note (changes engine.old.clocks)))
        written result out.old out.new }
{
    let result = changes_on(written, number, engine.clocks(), out);
    engine.tell_clocks();
    result
}

/// Writes the lines of the clocks that changed since they were told of, by number. A sink that has failed before within
/// the line is given nothing more.
fn changes_on<O: Sink>(
    written: Result<(), Failed>,
    number: u32,
    clocks: &Clocks,
    out: &mut O,
) -> Result<(), Failed>
    ensures { WritesOn O.Sink (notes_text number (map clock_note (changes clocks.now))) written result out.old out.new }
{
    let mut so_far = written;
    for def in all_clocks() {
        so_far = change_on(so_far, number, clocks.change(def.number), out);
    }
    so_far
}

/// Writes the line of the change of a clock, if it changed. A sink that has failed before within the line is given
/// nothing more.
fn change_on<O: Sink>(
    written: Result<(), Failed>,
    number: u32,
    change: Option<ClockChange>,
    out: &mut O,
) -> Result<(), Failed>
    ensures { WritesOn O.Sink (notes_text number (map clock_note (option_to_list change))) written result out.old out.new }
{
    match change {
        None => written,
        Some(change) => match written {
            Ok(()) => write_clock(number, change, out),
            Err(failed) => Err(failed),
        },
    }
}
