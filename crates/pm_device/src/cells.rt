//! The units of a device in memory: the value of each, and whether it is a broken node.

ghost use Rattle.std.specs.Prelude.{◌≡◌, ◌||◌, ◌&&◌, [], List, Some, if◌then◌else◌, is_some, not, true, IfOk, IfSome};
ghost use Rattle.pm_base.specs.declared.names.Unit.{Unit as Part};
ghost use Rattle.pm_topology.specs.UnitMap.{all_at, place_of, units_in, value_of};
ghost use Rattle.pm_topology.specs.Units.{has_unit, same_unit, units_of};
ghost use Rattle.pm_topology.specs.Units as units;
ghost use Rattle.pm_device.specs.Cells.{broken_of, cell_of, idle, is_broken_cell, is_there, set_broken, set_value};
ghost use Rattle.pm_device.specs.Device.{is_broken, rigged, rises};

use pm_base::{NoMemory, NodeId, Unit};
use pm_topology::{Topology, UnitMap};
use std::alloc::Global;

/// The value of a unit, and whether it is a broken node.
#[derive(Clone, Copy, Debug, PartialEq, Eq)]
pub struct Cell {
    pub value: u32,
    pub broken: bool,
}

/// A unit at 0 that isn't broken.
pub(crate) fn idle() -> Cell
    ensures { result ≡ idle }
{
    Cell {
        value: 0,
        broken: false,
    }
}

/// The units of a chip, each idle.
///
/// # Errors
///
/// `NoMemory` if there is not enough memory.
pub(crate) fn idle_cells(alloc: Global, t: &Topology) -> Result<UnitMap<Cell>, NoMemory>
    ensures entries { IfOk result (λ cells. cells ≡ all_at idle (units_of t.now)) }
    ensures values { IfOk result (λ cells. (unit : Part) → (cell_of cells unit).value ≡ 0) }
    ensures units { IfOk result (λ cells. (unit : Part) → is_there cells unit ≡ has_unit t.now unit) }
    ensures broken { IfOk result (λ cells. broken_of cells ≡ []) }
{
    let cells = UnitMap::load(alloc, t, idle())?;
    Ok(cells)
}

/// The cell of a unit, and an idle one of a unit that isn't there.
pub(crate) fn cell_of(cells: &UnitMap<Cell>, unit: Unit) -> Cell
    ensures { result ≡ cell_of cells.now unit }
{
    cells.get(unit).unwrap_or(idle())
}

/// Whether a unit is there.
pub(crate) fn is_there<T: Copy + Drop>(entries: &UnitMap<T>, unit: Unit) -> bool
    ensures { result ≡ is_there entries.now unit }
{
    entries.get(unit).is_some()
}

/// The place of a unit and its cell, where a command on it doesn't fail: it is there, and is no broken node.
fn working(cells: &UnitMap<Cell>, unit: Unit) -> Option<(usize, Cell)>
    ensures exact { is_some result ≡ not (not (is_there cells.now unit) || is_broken_cell cells.now unit) }
    ensures place { IfSome result (λ found. place_of cells.now unit ≡ Some found.0) }
    ensures cell { IfSome result (λ found. value_of cells.now unit ≡ Some found.1) }
    ensures ordered { units.rises (units_in cells.now) ≡ true }
{
    let place = cells.place(unit)?;
    let (_, cell) = cells.entry(place)?;
    if is_broken(unit, cell) {
        return None;
    }
    Some((place, cell))
}

/// Whether a unit with this cell is a broken node.
fn is_broken(unit: Unit, cell: Cell) -> bool
    ensures { (cells : List (Part × Cell)) → value_of cells unit ≡ Some cell → result ≡ is_broken_cell cells unit }
{
    match unit {
        Unit::Node(_) => cell.broken,
        Unit::Line(_) => false,
    }
}

/// Sets a unit to a value, unless a command on it fails. Answers whether it was set.
pub(crate) fn set_value(cells: &mut UnitMap<Cell>, unit: Unit, value: u32) -> bool
    ensures answer { result ≡ not (not (is_there cells.old unit) || is_broken_cell cells.old unit) }
    ensures after { cells.new ≡ (if result then set_value unit value cells.old else cells.old) }
    ensures values { (other : Part) → (cell_of cells.new other).value
        ≡ (if result && same_unit unit other then value else (cell_of cells.old other).value) }
    ensures units { (other : Part) → is_there cells.new other ≡ is_there cells.old other }
    ensures broken { broken_of cells.new ≡ broken_of cells.old }
    ensures listed { is_broken_cell cells.old unit ≡ is_broken (broken_of cells.old) unit }
    ensures rising { rises (broken_of cells.old) ≡ true }
{
    let Some((place, cell)) = working(cells, unit) else {
        return false;
    };
    cells.set_at(place, Cell { value, ..cell });
    true
}

/// Breaks or mends a node. Nothing changes if it isn't there.
pub(crate) fn set_broken(cells: &mut UnitMap<Cell>, node: NodeId, broken: bool)
    ensures after { cells.new ≡ set_broken node broken cells.old }
    ensures values { (other : Part) → (cell_of cells.new other).value ≡ (cell_of cells.old other).value }
    ensures units { (other : Part) → is_there cells.new other ≡ is_there cells.old other }
    ensures broken { broken_of cells.new
        ≡ (if is_there cells.old (Part.Node node) then rigged node.0 broken (broken_of cells.old)
        else broken_of cells.old) }
    ensures rising { rises (broken_of cells.new) ≡ true }
{
    let cell = cells.get(Unit::Node(node)).unwrap_or(idle());
    cells.set(Unit::Node(node), Cell { broken, ..cell });
}
