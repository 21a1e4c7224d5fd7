//! Cells, whose reads are counted.

ghost use Rattle.std.specs.Prelude.{◌≡◌, ◌+◌, ◌<◌, IfOk, length, replicate};

use crate::rows::all_right;
use pm_base::{NoMemory, Steps};
use pm_cells::Cells;
use std::alloc::Global;
use std::marker::Brand;
use std::process::Abort;
use std::sync::ledger::{Blank, Ledger};
use std::test::Fail;

/// The number of cells of a table.
const CELLS: usize = 3;

/// A row: the index of a cell, the value written there, and the values of all cells after it.
static WRITES: [(usize, u32, [u32; CELLS]); 7] = [
    (1, 9, [7, 9, 7]),
    (0, 4, [4, 9, 7]),
    (2, u32::MAX, [4, 9, u32::MAX]),
    (1, 9, [4, 9, u32::MAX]),
    (1, 0, [4, 0, u32::MAX]),
    (2, 7, [4, 0, 7]),
    (0, 7, [7, 0, 7]),
];

/// Three cells, each with the value 7.
fn sevens(rt: &(impl Abort + AllocGlobal)) -> Result<Cells<u32>, NoMemory>
    ensures { IfOk result (λ cells. cells ≡ replicate 3 7) }
{
    Cells::load(rt.alloc(), CELLS, 7)
}

/// The values of all cells, read from the last one to the first. Each read counts one step.
fn read_all<L: Ledger>(cells: &Cells<u32>, steps: &mut Steps<L>) -> [u32; CELLS]
    requires { length cells.now ≡ 3 }
    ensures { steps.new ≡ steps.old + 3 }
{
    let last = cells.read(2, steps);
    let middle = cells.read(1, steps);
    let first = cells.read(0, steps);
    [first, middle, last]
}

/// The index of the first write after which other values are read.
fn wrong_write<L: Ledger>(cells: &mut Cells<u32>, blank: Blank) -> Option<usize>
    requires cells { length cells.old ≡ 3 }
    requires name { blank.name ≡ L.name }
    requires parts { blank.parts ≡ L.parts }
    requires some { 0 < blank.parts }
{
    let mut steps = Steps::<L>::new(blank);
    'writes: for (row, (place, value, wanted)) in WRITES.iter().enumerate() {
        if *place < CELLS {
            cells.write(*place, *value);
        }
        if read_all(cells, &mut steps) != *wanted {
            return Some(row);
        }
    }
    None
}

#[test]
fn a_cell_holds_what_was_written_last(rt: HostRuntime) -> Result<(), Fail> {
    let mut cells = sevens(&rt)?;
    let wrong = wrong_write::<Brand>(&mut cells, Blank::new(1));
    all_right(&rt, wrong);
    Ok(())
}

/// The values of all cells before any write.
fn first_values<L: Ledger>(cells: &Cells<u32>, blank: Blank) -> [u32; CELLS]
    requires cells { length cells.now ≡ 3 }
    requires name { blank.name ≡ L.name }
    requires parts { blank.parts ≡ L.parts }
    requires some { 0 < blank.parts }
{
    read_all(cells, &mut Steps::<L>::new(blank))
}

#[test]
fn each_cell_has_the_first_value(rt: HostRuntime) -> Result<(), Fail> {
    let cells = sevens(&rt)?;
    assert_eq!(rt; first_values::<Brand>(&cells, Blank::new(1)), [7, 7, 7]);
    Ok(())
}
