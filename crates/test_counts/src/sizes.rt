//! The cost of changing one row, however many slaves there are.

ghost use Rattle.std.specs.Prelude.{◌≡◌, ◌+◌, ◌≤◌, ◌<◌, count_by};
ghost use Rattle.pm_rows.specs.Counted.{permitted_on};
ghost use Rattle.pm_rows.specs.Rows.{is_at};

use crate::requirements::{Told, told};
use crate::rows::all_right;
use pm_base::{Caps, Mode, NoMemory, NodeId, Steps};
use pm_rows::{Change, Entry, RowSeed, Rows, are_placed};
use std::alloc::Global;
use std::marker::Brand;
use std::process::Abort;
use std::sync::ledger::{Blank, Ledger};
use std::test::Fail;

/// The number of masters, each of which may use each slave.
const MASTERS: usize = 4;

/// The numbers of slaves.
static SIZES: [usize; 3] = [58, 256, 512];

/// A pair of a master and a slave, without anything at load.
fn pair(master: usize, slave: usize) -> RowSeed {
    RowSeed {
        master,
        slave,
        shareable: true,
        all: Caps(7),
        preset: Caps(0),
        start: None,
        hold: false,
    }
}

/// Appends the pairs of a slave with each master.
fn push_slave(pairs: &mut Vec<RowSeed>, slave: usize) -> Result<(), NoMemory> {
    for master in 0..MASTERS {
        pairs.push(pair(master, slave)).map_err(|_| NoMemory)?;
    }
    Ok(())
}

/// Rows of so many slaves, none of which is used.
fn filled<L: Ledger>(alloc: Global, slaves: usize, steps: &mut Steps<L>) -> Result<Rows, NoMemory> {
    let mut pairs = Vec::new(alloc);
    for slave in 0..slaves {
        push_slave(&mut pairs, slave)?;
    }
    if !are_placed(slaves, &pairs) {
        return Err(NoMemory);
    }
    Rows::load(alloc, MASTERS, slaves, 0, pairs.len(), &pairs, steps)
}

fn is_at(entry: &Entry, master: usize, slave: usize) -> bool
    ensures { result ≡ is_at master slave entry.now }
{
    entry.seed.master == master && entry.seed.slave == slave
}

/// The number of rows of a pair, and the number of rows on its slave.
fn rows_of(rows: &Rows, master: usize, slave: usize) -> (usize, usize)
    ensures own { result.0 ≡ count_by (is_at master slave) rows.now.entries }
    ensures all { result.1 ≡ permitted_on slave rows.now.entries }
{
    let mut own = 0;
    let mut all = 0;
    for k in 0..rows.len() {
        let entry = rows.entry(k);
        own += usize::from(is_at(&entry, master, slave));
        all += usize::from(entry.seed.slave == slave);
    }
    (own, all)
}

/// Changes the row of a pair, if it is the only one of the pair and one of four on its slave: at most 12 steps,
/// whatever else there is. Returns whether it is so.
fn change<L: Ledger>(
    rows: &mut Rows,
    master: usize,
    slave: usize,
    by: Change,
    steps: &mut Steps<L>,
) -> bool
    ensures { steps.new ≤ steps.old + 12 }
{
    let (own, all) = rows_of(rows, master, slave);
    if own != 1 || all != MASTERS {
        return false;
    }
    match by {
        Change::Request(caps) => rows.request(master, slave, caps, steps),
        Change::Release => rows.release(master, slave, steps),
        Change::Set(_, caps) => rows.set(master, slave, caps, steps),
        Change::Limit(latency) => rows.limit(master, slave, latency, steps),
        Change::Arm(target) => rows.arm(master, slave, target, steps),
    }
    true
}

/// A row: the place of a master, a change of its row on one slave, and what is in force on the slave after it.
static CHANGES: [(usize, Change, Told); 10] = [
    (0, Change::Request(Caps(1)), (1, None, 1)),
    (3, Change::Request(Caps(4)), (5, None, 2)),
    (3, Change::Limit(9), (5, Some(9), 2)),
    (0, Change::Limit(5), (5, Some(5), 2)),
    (0, Change::Set(Mode::Active, Caps(2)), (6, Some(5), 2)),
    (1, Change::Arm(Some(NodeId(2))), (6, Some(5), 2)),
    (2, Change::Release, (6, Some(5), 2)),
    (0, Change::Release, (4, Some(9), 1)),
    (3, Change::Request(Caps(7)), (7, None, 1)),
    (3, Change::Release, (0, None, 0)),
];

/// The index of the first change after which something else is found on its slave, or anything on the slave before
/// it.
fn wrong_change<L: Ledger>(rows: &mut Rows, slave: usize, steps: &mut Steps<L>) -> Option<usize>
    requires slave { 0 < slave }
{
    for (place, (master, by, wanted)) in CHANGES.iter().enumerate() {
        if !change(rows, *master, slave, *by, steps)
            || told(rows, slave) != *wanted
            || told(rows, slave - 1) != (0, None, 0)
        {
            return Some(place);
        }
    }
    None
}

/// Makes the changes over each number of slaves. Fails the test if something else is found after one.
fn change_each<L: Ledger>(rt: &(impl Abort + AllocGlobal), blank: Blank) -> Result<(), NoMemory>
    requires name { blank.name ≡ L.name }
    requires parts { blank.parts ≡ L.parts }
    requires some { 0 < blank.parts }
{
    let mut steps = Steps::<L>::new(blank);
    for slaves in SIZES.iter() {
        let mut rows = filled(rt.alloc(), *slaves, &mut steps)?;
        let wrong = wrong_change(&mut rows, slaves - 1, &mut steps);
        all_right(rt, wrong);
        assert_eq!(rt; rows.users(slaves - 1), 0);
    }
    Ok(())
}

#[test]
fn a_change_costs_the_same_over_any_number_of_slaves(rt: HostRuntime) -> Result<(), Fail> {
    change_each::<Brand>(&rt, Blank::new(1))?;
    Ok(())
}
