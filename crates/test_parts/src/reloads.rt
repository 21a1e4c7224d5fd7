//! The requirement rows at load: after each was changed by its own call, and after they were made anew.

ghost use Rattle.std.specs.Prelude.{◌≡◌, ◌<◌, ◌≤◌, IfOk};

use crate::rows::{boxed, same};
use pm_base::{Caps, Mode, NoMemory, NodeId, Steps};
use pm_rows::{Row, RowSeed, Rows};
use std::alloc::Global;
use std::marker::Brand;
use std::process::Abort;
use std::sync::ledger::{Blank, Ledger};
use std::test::Fail;

/// A master that is active at load, with a slave in use and held, and one with a preset.
static SEEDS: [RowSeed; 2] = [
    RowSeed {
        master: 0,
        slave: 0,
        shareable: true,
        all: Caps(7),
        preset: Caps(2),
        start: Some(Caps(3)),
        hold: true,
    },
    RowSeed {
        master: 1,
        slave: 0,
        shareable: true,
        all: Caps(7),
        preset: Caps(1),
        start: None,
        hold: false,
    },
];

/// The rows of these masters, with room for so many.
fn loaded(alloc: Global, room: usize) -> Result<Box<Rows>, NoMemory>
    requires { 2 ≤ room }
    ensures room { IfOk result (λ rows. rows.value.room ≡ room) }
    ensures slaves { IfOk result (λ rows. rows.value.slaves ≡ 1) }
{
    loaded_by::<Brand>(alloc, room, Blank::new(1))
}

fn loaded_by<L: Ledger>(alloc: Global, room: usize, blank: Blank) -> Result<Box<Rows>, NoMemory>
    requires two { 2 ≤ room }
    requires name { blank.name ≡ L.name }
    requires parts { blank.parts ≡ L.parts }
    requires some { 0 < blank.parts }
    ensures room { IfOk result (λ rows. rows.value.room ≡ room) }
    ensures slaves { IfOk result (λ rows. rows.value.slaves ≡ 1) }
{
    let mut steps = Steps::<L>::new(blank);
    boxed(alloc, Rows::load(alloc, 2, 1, 0, room, &SEEDS, &mut steps)?)
}

fn row(used: bool, now: u32, next: u32, preset: u32) -> Row {
    Row {
        used,
        now: Caps(now),
        next: Caps(next),
        preset: Caps(preset),
        hold: false,
        armed: None,
        latency: None,
    }
}

fn modes(rows: &Rows) -> [Mode; 3] {
    [rows.mode(0), rows.mode(1), rows.mode(2)]
}

/// Changes the rows, and makes them anew for the same pairs. Fails the test if a row is wrong then.
fn change_and_reload<L: Ledger>(rt: &impl Abort, rows: &mut Rows, blank: Blank)
    requires room { rows.old.room ≡ 2 }
    requires slaves { rows.old.slaves ≡ 1 }
    requires name { blank.name ≡ L.name }
    requires parts { blank.parts ≡ L.parts }
    requires some { 0 < blank.parts }
{
    let mut steps = Steps::<L>::new(blank);
    let first = Row {
        hold: true,
        ..row(true, 3, 3, 2)
    };
    same(
        rt,
        (rows.row(0, 0), rows.row(1, 0)),
        (Some(first), Some(row(false, 0, 0, 1))),
    );
    same(rt, modes(rows), [Mode::Active, Mode::Off, Mode::Off]);
    same(rt, (rows.row(1, 1), rows.row(2, 0)), (None, None));
    rows.settle(1, &mut steps);
    same(rt, rows.row(0, 0), Some(first));
    rows.settle(0, &mut steps);
    same(rt, rows.row(0, 0), Some(row(true, 3, 3, 2)));
    rows.shift(1, Mode::Active, &mut steps);
    rows.drop_slave(1, &mut steps);
    same(rt, rows.row(1, 0), Some(row(true, 1, 1, 1)));
    rows.arm(1, 0, Some(NodeId(7)), &mut steps);
    rows.drop_slave(0, &mut steps);
    same(rt, rows.row(0, 0), Some(row(false, 0, 0, 2)));
    same(rt, rows.row(1, 0), Some(row(false, 0, 0, 1)));
    rows.shift(0, Mode::Asleep, &mut steps);
    rows.shift(1, Mode::Off, &mut steps);
    rows.shift(0, Mode::Off, &mut steps);
    rows.shift(0, Mode::Active, &mut steps);
    rows.reload(&SEEDS, &mut steps);
    same(
        rt,
        (rows.row(0, 0), rows.row(1, 0)),
        (Some(first), Some(row(false, 0, 0, 1))),
    );
    same(rt, modes(rows), [Mode::Active, Mode::Off, Mode::Off]);
}

#[test]
fn rows_made_anew_are_those_at_load(rt: HostRuntime) -> Result<(), Fail> {
    let mut rows = loaded(rt.alloc(), 2)?;
    change_and_reload::<Brand>(&rt, &mut rows, Blank::new(1));
    Ok(())
}

/// Makes each change of a row by its own call. Fails the test if a row is wrong then.
fn change_each<L: Ledger>(rt: &impl Abort, rows: &mut Rows, blank: Blank)
    requires name { blank.name ≡ L.name }
    requires parts { blank.parts ≡ L.parts }
    requires some { 0 < blank.parts }
{
    let mut steps = Steps::<L>::new(blank);
    rows.release(0, 0, &mut steps);
    rows.settle(0, &mut steps);
    same(rt, rows.row(0, 0), Some(row(false, 0, 0, 2)));
    rows.request(0, 0, Caps(5), &mut steps);
    same(rt, rows.row(0, 0), Some(row(true, 5, 5, 2)));
    rows.set(0, 0, Caps(1), &mut steps);
    same(rt, rows.row(0, 0), Some(row(true, 1, 1, 2)));
    rows.shift(0, Mode::Suspending, &mut steps);
    rows.set(0, 0, Caps(4), &mut steps);
    same(rt, rows.row(0, 0), Some(row(true, 1, 4, 2)));
    rows.shift(0, Mode::Asleep, &mut steps);
    rows.set(0, 0, Caps(7), &mut steps);
    same(rt, rows.row(0, 0), Some(row(true, 4, 1, 2)));
    rows.shift(0, Mode::Active, &mut steps);
    same(rt, rows.row(0, 0), Some(row(true, 1, 1, 2)));
    rows.limit(0, 0, 10, &mut steps);
    let limited = Row {
        latency: Some(10),
        ..row(true, 1, 1, 2)
    };
    same(rt, rows.row(0, 0), Some(limited));
    rows.release(0, 0, &mut steps);
    same(rt, rows.row(0, 0), Some(row(false, 0, 0, 2)));
}

#[test]
fn a_row_is_changed_by_its_calls(rt: HostRuntime) -> Result<(), Fail> {
    let mut rows = loaded(rt.alloc(), 2)?;
    change_each::<Brand>(&rt, &mut rows, Blank::new(1));
    Ok(())
}

/// A pair of the second master, which uses the slave from its start on.
static ANEW_USED: [RowSeed; 1] = [RowSeed {
    master: 1,
    slave: 0,
    shareable: false,
    all: Caps(7),
    preset: Caps(4),
    start: Some(Caps(5)),
    hold: false,
}];

/// That pair, made anew for a slave that nobody uses.
static ANEW: [RowSeed; 1] = [RowSeed {
    master: 1,
    slave: 0,
    shareable: false,
    all: Caps(7),
    preset: Caps(4),
    start: None,
    hold: false,
}];

/// Makes the rows anew for other pairs, for none, and for the first ones. Fails the test if a row is wrong then.
fn reload_others<L: Ledger>(rt: &impl Abort, rows: &mut Rows, blank: Blank)
    requires room { rows.old.room ≡ 3 }
    requires slaves { rows.old.slaves ≡ 1 }
    requires name { blank.name ≡ L.name }
    requires parts { blank.parts ≡ L.parts }
    requires some { 0 < blank.parts }
{
    let mut steps = Steps::<L>::new(blank);
    rows.shift(1, Mode::Active, &mut steps);
    rows.shift(1, Mode::Suspending, &mut steps);
    rows.reload(&ANEW_USED, &mut steps);
    same(rt, rows.len(), 1);
    same(
        rt,
        (rows.row(0, 0), rows.row(1, 0)),
        (None, Some(row(true, 5, 5, 4))),
    );
    same(
        rt,
        (rows.mode(0), rows.mode(1)),
        (Mode::Active, Mode::Suspending),
    );
    same(rt, (rows.users(0), rows.wanted(0).caps), (1, Caps(5)));
    rows.reload(&ANEW, &mut steps);
    same(rt, rows.row(1, 0), Some(row(false, 0, 0, 4)));
    same(rt, (rows.users(0), rows.wanted(0).caps), (0, Caps(0)));
    rows.reload(&[], &mut steps);
    same(rt, rows.len(), 0);
    rows.reload(&SEEDS, &mut steps);
    same(rt, rows.len(), 2);
}

#[test]
fn rows_are_made_anew_for_other_pairs(rt: HostRuntime) -> Result<(), Fail> {
    let mut rows = loaded(rt.alloc(), 3)?;
    reload_others::<Brand>(&rt, &mut rows, Blank::new(1));
    Ok(())
}
