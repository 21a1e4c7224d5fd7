//! The calls of the rows, each with a counter of its own: no call of a book says what it costs.

ghost use Rattle.std.specs.Prelude.{◌≡◌, ◌<◌, ◌≤◌, IfOk, IsTrue, length};
ghost use Rattle.std.specs.List.{list_all};
ghost use Rattle.pm_rows.specs.Counted.{is_placed_seed};
ghost use Rattle.pm_rows.specs.Rows.{all_cleared, loaded_rows, remade, row_changed, settled, slave_dropped};
ghost use Rattle.pm_rows.specs.Shift.{shifted};

use pm_base::{Mode, NoMemory, Steps};
use pm_rows::{Change, RowSeed, Rows};
use std::alloc::Global;
use std::marker::Brand;
use std::sync::ledger::{Blank, Ledger};

/// The rows at load, as `Rows::load` makes them.
pub(crate) fn load(
    alloc: Global,
    masters: usize,
    slaves: usize,
    boot: usize,
    pairs: usize,
    seeds: &[RowSeed],
) -> Result<Rows, NoMemory>
    requires room { length seeds.now ≤ pairs }
    requires placed { IsTrue (list_all (is_placed_seed slaves) seeds.now) }
    ensures { IfOk result (λ rows. rows ≡ loaded_rows masters slaves boot pairs seeds.now) }
{
    load_by::<Brand>(alloc, masters, slaves, boot, pairs, seeds, Blank::new(1))
}

/// The rows at load. All functions here take the steps of a counter that their caller names, and keep no count.
fn load_by<L: Ledger>(
    alloc: Global,
    masters: usize,
    slaves: usize,
    boot: usize,
    pairs: usize,
    seeds: &[RowSeed],
    blank: Blank,
) -> Result<Rows, NoMemory>
    requires room { length seeds.now ≤ pairs }
    requires placed { IsTrue (list_all (is_placed_seed slaves) seeds.now) }
    requires name { blank.name ≡ L.name }
    requires parts { blank.parts ≡ L.parts }
    requires some { 0 < blank.parts }
    ensures { IfOk result (λ rows. rows ≡ loaded_rows masters slaves boot pairs seeds.now) }
{
    Rows::load(
        alloc,
        masters,
        slaves,
        boot,
        pairs,
        seeds,
        &mut Steps::<L>::new(blank),
    )
}

/// The row of a pair changes.
pub(crate) fn change(rows: &mut Rows, master: usize, slave: usize, by: Change)
    ensures { rows.new ≡ row_changed master slave by rows.old }
{
    change_by::<Brand>(rows, master, slave, by, Blank::new(1));
}

/// Makes a change of the row of a pair.
fn change_by<L: Ledger>(rows: &mut Rows, master: usize, slave: usize, by: Change, blank: Blank)
    requires name { blank.name ≡ L.name }
    requires parts { blank.parts ≡ L.parts }
    requires some { 0 < blank.parts }
    ensures { rows.new ≡ row_changed master slave by rows.old }
{
    rows.change(master, slave, by, &mut Steps::<L>::new(blank));
}

/// The rows of a master follow a change of its mode.
pub(crate) fn shift(rows: &mut Rows, master: usize, to: Mode)
    ensures { rows.new ≡ shifted master to rows.old }
{
    shift_by::<Brand>(rows, master, to, Blank::new(1));
}

/// Has the rows of a master follow it into a mode.
fn shift_by<L: Ledger>(rows: &mut Rows, master: usize, to: Mode, blank: Blank)
    requires name { blank.name ≡ L.name }
    requires parts { blank.parts ≡ L.parts }
    requires some { 0 < blank.parts }
    ensures { rows.new ≡ shifted master to rows.old }
{
    rows.shift(master, to, &mut Steps::<L>::new(blank));
}

/// A master drops its holds.
pub(crate) fn settle(rows: &mut Rows, master: usize)
    ensures { rows.new ≡ settled master rows.old }
{
    settle_by::<Brand>(rows, master, Blank::new(1));
}

/// Ends the holds of a master.
fn settle_by<L: Ledger>(rows: &mut Rows, master: usize, blank: Blank)
    requires name { blank.name ≡ L.name }
    requires parts { blank.parts ≡ L.parts }
    requires some { 0 < blank.parts }
    ensures { rows.new ≡ settled master rows.old }
{
    rows.settle(master, &mut Steps::<L>::new(blank));
}

/// All rows on a slave are cleared but for their presets.
pub(crate) fn drop_slave(rows: &mut Rows, slave: usize)
    ensures { rows.new ≡ slave_dropped slave rows.old }
{
    drop_slave_by::<Brand>(rows, slave, Blank::new(1));
}

/// Clears the rows on a slave, but for presets.
fn drop_slave_by<L: Ledger>(rows: &mut Rows, slave: usize, blank: Blank)
    requires name { blank.name ≡ L.name }
    requires parts { blank.parts ≡ L.parts }
    requires some { 0 < blank.parts }
    ensures { rows.new ≡ slave_dropped slave rows.old }
{
    rows.drop_slave(slave, &mut Steps::<L>::new(blank));
}

/// All rows are cleared but for their presets.
pub(crate) fn clear(rows: &mut Rows)
    ensures { rows.new ≡ all_cleared rows.old }
{
    clear_by::<Brand>(rows, Blank::new(1));
}

/// Clears all rows, but for presets.
fn clear_by<L: Ledger>(rows: &mut Rows, blank: Blank)
    requires name { blank.name ≡ L.name }
    requires parts { blank.parts ≡ L.parts }
    requires some { 0 < blank.parts }
    ensures { rows.new ≡ all_cleared rows.old }
{
    rows.clear(&mut Steps::<L>::new(blank));
}

/// All rows are made anew.
pub(crate) fn reload(rows: &mut Rows, seeds: &[RowSeed])
    requires room { length seeds.now ≤ rows.old.room }
    requires placed { IsTrue (list_all (is_placed_seed rows.old.slaves) seeds.now) }
    ensures { rows.new ≡ remade seeds.now rows.old }
{
    reload_by::<Brand>(rows, seeds, Blank::new(1));
}

/// Makes all rows anew, of another object.
fn reload_by<L: Ledger>(rows: &mut Rows, seeds: &[RowSeed], blank: Blank)
    requires room { length seeds.now ≤ rows.old.room }
    requires placed { IsTrue (list_all (is_placed_seed rows.old.slaves) seeds.now) }
    requires name { blank.name ≡ L.name }
    requires parts { blank.parts ≡ L.parts }
    requires some { 0 < blank.parts }
    ensures { rows.new ≡ remade seeds.now rows.old }
{
    rows.reload(seeds, &mut Steps::<L>::new(blank));
}
