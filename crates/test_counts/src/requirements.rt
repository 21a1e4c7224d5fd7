//! The rows of the book by their counts: the requirements in force on a slave, and the number of its users, after
//! each call.

ghost use Rattle.std.specs.Prelude.{◌≡◌, ◌<◌};

use crate::rows::all_right;
use pm_base::{Caps, Mode, NoMemory, NodeId, Steps};
use pm_rows::{Change, RowSeed, Rows, Wanted, are_placed};
use std::alloc::Global;
use std::marker::Brand;
use std::process::Abort;
use std::sync::ledger::{Blank, Ledger};
use std::test::Fail;

/// A call, by a master or on a slave.
#[derive(Clone, Copy, Debug)]
enum Call {
    Request(usize, usize, u32),
    Release(usize, usize),
    Set(usize, usize, u32),
    Limit(usize, usize, u32),
    Arm(usize, usize),
    Settle(usize),
    Shift(usize, Mode),
    DropSlave(usize),
    Clear,
}

/// A pair that has these capabilities at the start of its master, held or not.
fn pair(master: usize, slave: usize, preset: u32, hold: bool) -> RowSeed
    ensures { result.slave ≡ slave }
{
    RowSeed {
        master,
        slave,
        shareable: true,
        all: Caps(7),
        preset: Caps(preset),
        start: if master == 0 {
            Some(Caps(preset))
        } else {
            None
        },
        hold,
    }
}

/// Rows of three masters and two slaves. The first master is active from the load on, uses both slaves, and holds the
/// second one. The pairs aren't ordered by slave.
fn loaded<L: Ledger>(alloc: Global, steps: &mut Steps<L>) -> Result<Rows, NoMemory> {
    let pairs = [
        pair(0, 0, 1, false),
        pair(0, 1, 2, true),
        pair(1, 0, 4, false),
        pair(2, 1, 1, false),
        pair(2, 0, 3, false),
    ];
    Rows::load(alloc, 3, 2, 0, pairs.len(), &pairs, steps)
}

fn carry_out<L: Ledger>(rows: &mut Rows, by: Call, steps: &mut Steps<L>) {
    match by {
        Call::Request(m, s, caps) => rows.request(m, s, Caps(caps), steps),
        Call::Release(m, s) => rows.release(m, s, steps),
        Call::Set(m, s, caps) => rows.set(m, s, Caps(caps), steps),
        Call::Limit(m, s, latency) => rows.limit(m, s, latency, steps),
        Call::Arm(m, s) => rows.arm(m, s, Some(NodeId(2)), steps),
        Call::Settle(m) => rows.settle(m, steps),
        Call::Shift(m, to) => rows.shift(m, to, steps),
        Call::DropSlave(s) => rows.drop_slave(s, steps),
        Call::Clear => rows.clear(steps),
    }
}

/// The requirements in force on a slave: the capabilities and the greatest latency that is allowed; and the number of
/// its users.
pub(crate) type Told = (u32, Option<u32>, u32);

pub(crate) fn told(rows: &Rows, slave: usize) -> Told {
    let wanted: Wanted = rows.wanted(slave);
    (wanted.caps.0, wanted.limit, rows.users(slave))
}

/// A row: a call, and the requirements and users of each of the two slaves after it.
static CALLS: [(Call, Told, Told); 21] = [
    (Call::Settle(0), (1, None, 1), (2, None, 1)),
    (Call::Shift(1, Mode::Active), (5, None, 2), (2, None, 1)),
    (Call::Limit(1, 0, 9), (5, Some(9), 2), (2, None, 1)),
    (Call::Limit(0, 0, 5), (5, Some(5), 2), (2, None, 1)),
    (Call::Release(0, 0), (4, Some(9), 1), (2, None, 1)),
    (Call::Limit(0, 0, 1), (4, Some(9), 1), (2, None, 1)),
    (Call::Set(1, 0, 2), (2, Some(9), 1), (2, None, 1)),
    (Call::Request(0, 0, 1), (3, Some(9), 2), (2, None, 1)),
    (Call::Shift(2, Mode::Active), (3, Some(9), 3), (3, None, 2)),
    (
        Call::Shift(1, Mode::Suspending),
        (3, Some(9), 3),
        (3, None, 2),
    ),
    (Call::Set(1, 0, 4), (3, Some(9), 3), (3, None, 2)),
    (Call::Arm(1, 0), (3, Some(9), 3), (3, None, 2)),
    (Call::Shift(1, Mode::Asleep), (7, Some(9), 3), (3, None, 2)),
    (Call::Set(1, 0, 0), (7, Some(9), 3), (3, None, 2)),
    (Call::Release(1, 0), (7, None, 2), (3, None, 2)),
    (Call::Shift(1, Mode::Active), (3, None, 2), (3, None, 2)),
    (Call::Shift(2, Mode::Off), (1, None, 1), (2, None, 1)),
    (Call::DropSlave(0), (0, None, 0), (2, None, 1)),
    (Call::Request(1, 1, 7), (0, None, 0), (2, None, 1)),
    (Call::Request(2, 1, 8), (0, None, 0), (10, None, 2)),
    (Call::Clear, (0, None, 0), (0, None, 0)),
];

/// The index of the first call after which something else is found.
fn wrong_call<L: Ledger>(rows: &mut Rows, steps: &mut Steps<L>) -> Option<usize> {
    for (place, (by, first, second)) in CALLS.iter().enumerate() {
        carry_out(rows, *by, steps);
        if told(rows, 0) != *first || told(rows, 1) != *second {
            return Some(place);
        }
    }
    None
}

/// Loads the rows and makes each call. Fails the test if something else is found after one.
fn call_each<L: Ledger>(rt: &(impl Abort + AllocGlobal), blank: Blank) -> Result<(), NoMemory>
    requires name { blank.name ≡ L.name }
    requires parts { blank.parts ≡ L.parts }
    requires some { 0 < blank.parts }
{
    let mut steps = Steps::<L>::new(blank);
    let mut rows = loaded(rt.alloc(), &mut steps)?;
    assert_eq!(rt;
        (told(&rows, 0), told(&rows, 1)),
        ((1, None, 1), (7, None, 1))
    );
    let wrong = wrong_call(&mut rows, &mut steps);
    all_right(rt, wrong);
    assert_eq!(rt; told(&rows, 2), (0, None, 0));
    Ok(())
}

#[test]
fn the_counts_tell_what_the_rows_come_to(rt: HostRuntime) -> Result<(), Fail> {
    call_each::<Brand>(&rt, Blank::new(1))?;
    Ok(())
}

#[test]
fn a_pair_past_the_slaves_is_not_placed(rt: HostRuntime) -> Result<(), Fail> {
    assert!(rt; are_placed(2, &[pair(0, 1, 0, false)]));
    assert!(rt; !are_placed(1, &[pair(0, 1, 0, false)]));
    Ok(())
}

#[test]
fn two_rows_of_a_pair_change_together(rt: HostRuntime) -> Result<(), Fail> {
    change_twice::<Brand>(&rt, Blank::new(1))?;
    Ok(())
}

/// Loads two rows of one pair, sets a requirement of both, and releases them.
fn change_twice<L: Ledger>(rt: &(impl Abort + AllocGlobal), blank: Blank) -> Result<(), NoMemory>
    requires name { blank.name ≡ L.name }
    requires parts { blank.parts ≡ L.parts }
    requires some { 0 < blank.parts }
{
    let mut steps = Steps::<L>::new(blank);
    let pairs = [pair(0, 0, 1, false), pair(0, 0, 1, false)];
    let mut rows = Rows::load(rt.alloc(), 1, 1, 0, 2, &pairs, &mut steps)?;
    rows.change(0, 0, Change::Set(Mode::Active, Caps(6)), &mut steps);
    assert_eq!(rt; told(&rows, 0), (6, None, 2));
    rows.change(0, 0, Change::Release, &mut steps);
    assert_eq!(rt; told(&rows, 0), (0, None, 0));
    Ok(())
}
