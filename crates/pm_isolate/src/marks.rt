//! The marks of the units: for each unit whether it was found to differ between the two books.

ghost use Rattle.std.specs.Prelude.{◌≡◌, ◌<◌, IfOk, Some, length, slice_get};
ghost use Rattle.pm_isolate.specs.Marks.{is_proc, proc_places, renewed_at};
ghost use Rattle.pm_isolate.specs.Within.{compared, compared_along, has_differed, looked};

use crate::moves::Moves;
use pm_base::{NoMemory, Unit};
use pm_core::Book;
use pm_topology::{Kind, Topology, UnitMap, unit_map_places};
use std::alloc::Global;

/// Marks each unit that shows different values in two books. Only the units at the logged places are looked at, and,
/// if a mode may have changed, those at the places `procs` of the processors.
pub fn log(loud: &Book, quiet: &Book, moves: &Moves, procs: &[usize], marks: &mut UnitMap<bool>)
    ensures { marks.new ≡ looked loud.now quiet.now moves.now procs.now marks.old }
{
    if moves.all() {
        log_all(loud, quiet, marks);
    } else {
        log_along(loud, quiet, moves.places(), marks);
        if moves.modes() {
            log_along(loud, quiet, procs, marks);
        }
    }
}

/// Marks each unit that shows different values in two books.
fn log_all(loud: &Book, quiet: &Book, marks: &mut UnitMap<bool>)
    ensures { marks.new ≡ compared loud.now quiet.now marks.old }
{
    unit_map_places::<bool>();
    for place in 0..marks.len() {
        log_at(loud, quiet, place, marks);
    }
}

/// Marks each unit that shows different values in two books, among those at these places.
fn log_along(loud: &Book, quiet: &Book, places: &[usize], marks: &mut UnitMap<bool>)
    ensures { marks.new ≡ compared_along loud.now quiet.now places.now marks.old }
{
    for place in places {
        log_at(loud, quiet, *place, marks);
    }
}

/// Marks the unit at a place, if it shows different values in two books.
fn log_at(loud: &Book, quiet: &Book, place: usize, marks: &mut UnitMap<bool>)
    ensures { marks.new ≡ renewed_at (has_differed loud.now quiet.now) marks.old place }
{
    if let Some((unit, before)) = marks.entry(place) {
        marks.set_at(place, has_differed(loud, quiet, unit, before));
    }
}

/// Whether a unit differs: it did before, or the two books show different values of it.
fn has_differed(loud: &Book, quiet: &Book, unit: Unit, before: bool) -> bool
    ensures { result ≡ has_differed loud.now quiet.now unit before }
{
    before || loud.shown(unit) != quiet.shown(unit)
}

/// The unit at a place, and whether it was found to differ.
pub fn mark_at(marks: &UnitMap<bool>, place: usize) -> (Unit, bool)
    requires place { place < length marks.now }
    ensures { slice_get marks.now place ≡ Some result }
{
    match marks.entry(place) {
        Some(mark) => mark,
        None => unreachable!(),
    }
}

/// The places of the processors among the units of a chip.
///
/// # Errors
///
/// `NoMemory` if there is not enough memory.
pub fn proc_places(alloc: Global, t: &Topology, units: &[Unit]) -> Result<Vec<usize>, NoMemory>
    ensures { IfOk result (λ places. places.items ≡ proc_places t.now 0 units.now) }
{
    let mut places = Vec::new(alloc);
    for (place, unit) in units.iter().enumerate() {
        if is_proc(t, *unit) {
            places.push(place).map_err(|_| NoMemory)?;
        }
    }
    Ok(places)
}

/// Whether a unit is a processor.
fn is_proc(t: &Topology, unit: Unit) -> bool
    ensures { result ≡ is_proc t.now unit }
{
    match unit {
        Unit::Node(node) => match t.kind(node) {
            Kind::Proc(_) => true,
            Kind::Slave(_) | Kind::Power(_) | Kind::Unknown => false,
        },
        Unit::Line(_) => false,
    }
}
