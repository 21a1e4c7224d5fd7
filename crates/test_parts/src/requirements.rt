//! The requirement rows: changes of a master's mode, and the requirements in force on a slave.

ghost use Rattle.std.specs.Prelude.{◌≡◌, ◌<◌};

use crate::rows::{all_right, boxed, same};
use pm_base::{Caps, Mode, NoMemory, NodeId, Steps};
use pm_rows::{Change, Row, RowSeed, Rows, Wanted};
use std::alloc::Global;
use std::marker::Brand;
use std::process::Abort;
use std::sync::ledger::{Blank, Ledger};
use std::test::Fail;

/// The row of a master on the one slave, with a preset.
fn seed(master: usize, shareable: bool, preset: u32, hold: bool) -> RowSeed
    ensures { result.slave ≡ 0 }
{
    RowSeed {
        master,
        slave: 0,
        shareable,
        all: Caps(7),
        preset: Caps(preset),
        start: None,
        hold,
    }
}

/// The rest of a row, besides use and preset: whether the slave is held, and the processor with which it is armed.
static BESIDES: [(bool, Option<NodeId>); 4] = [
    (false, None),
    (true, None),
    (false, Some(NodeId(2))),
    (true, Some(NodeId(2))),
];

/// The rows of two masters. The first is in this mode, and may use the slave. A used row has ACCESS now, CONTEXT
/// next, and a latency of 9.
fn prepared<L: Ledger>(
    alloc: Global,
    mode: Mode,
    used: bool,
    from: RowSeed,
    steps: &mut Steps<L>,
) -> Result<Box<Rows>, NoMemory>
    requires { from.slave < 1 }
{
    let boot = if mode == Mode::Active { 0 } else { 1 };
    let mut rows = boxed(alloc, Rows::load(alloc, 2, 1, boot, 1, &[from], steps)?)?;
    rows.shift(0, mode, steps);
    if used {
        change_all(&mut rows, &TO_USED, steps);
    }
    Ok(rows)
}

/// The changes that make a row such a used one.
static TO_USED: [(usize, Change); 3] = [
    (0, Change::Request(Caps(1))),
    (0, Change::Set(Mode::Suspending, Caps(2))),
    (0, Change::Limit(9)),
];

/// Makes these masters' changes of their rows on the one slave, one after another.
fn change_all<L: Ledger>(rows: &mut Rows, changes: &[(usize, Change)], steps: &mut Steps<L>) {
    for (master, by) in changes {
        rows.change(*master, 0, *by, steps);
    }
}

/// The capabilities now and next of a row that is used.
type Use = Option<(u32, u32)>;

const USED: Use = Some((1, 2));

const UNUSED: Use = None;

const ALL_UNUSED: &[Use] = &[UNUSED, UNUSED, UNUSED, UNUSED];

const AS_BEFORE: &[Use] = &[USED, USED, UNUSED, UNUSED];

/// The sixteen pairs of modes. For each: a used row without a preset, one with a preset of WAKEUP and ACCESS, an
/// unused row without a preset, and one with that preset, after the change of mode; and whether the row keeps its
/// hold, its arming and its latency.
static SHIFTS: [(Mode, Mode, &[Use], bool); 16] = [
    (Mode::Off, Mode::Off, AS_BEFORE, true),
    (
        Mode::Off,
        Mode::Active,
        &[USED, Some((5, 5)), UNUSED, Some((5, 5))],
        true,
    ),
    (Mode::Off, Mode::Asleep, AS_BEFORE, true),
    (Mode::Off, Mode::Suspending, AS_BEFORE, true),
    (Mode::Active, Mode::Off, ALL_UNUSED, false),
    (Mode::Active, Mode::Active, AS_BEFORE, true),
    (
        Mode::Active,
        Mode::Asleep,
        &[Some((2, 1)), Some((2, 1)), UNUSED, UNUSED],
        true,
    ),
    (
        Mode::Active,
        Mode::Suspending,
        &[Some((1, 1)), Some((1, 1)), UNUSED, UNUSED],
        true,
    ),
    (Mode::Asleep, Mode::Off, ALL_UNUSED, false),
    (
        Mode::Asleep,
        Mode::Active,
        &[Some((2, 2)), Some((2, 2)), UNUSED, UNUSED],
        true,
    ),
    (Mode::Asleep, Mode::Asleep, AS_BEFORE, true),
    (Mode::Asleep, Mode::Suspending, AS_BEFORE, true),
    (Mode::Suspending, Mode::Off, ALL_UNUSED, false),
    (
        Mode::Suspending,
        Mode::Active,
        &[Some((1, 1)), Some((1, 1)), UNUSED, UNUSED],
        true,
    ),
    (
        Mode::Suspending,
        Mode::Asleep,
        &[Some((2, 1)), Some((2, 1)), UNUSED, UNUSED],
        true,
    ),
    (Mode::Suspending, Mode::Suspending, AS_BEFORE, true),
];

/// The row after a shift of one that was armed and held like this.
fn shifted(wanted: Use, was_used: bool, preset: u32, hold: bool, armed: Option<NodeId>) -> Row {
    let (now, next) = wanted.unwrap_or((0, 0));
    Row {
        used: wanted.is_some(),
        now: Caps(now),
        next: Caps(next),
        preset: Caps(preset),
        hold,
        armed,
        latency: if was_used { Some(9) } else { None },
    }
}

/// Whether a shift changes a row of one of the four forms as expected, held and armed or not.
fn is_shifted<L: Ledger>(
    alloc: Global,
    shift: &(Mode, Mode, &[Use], bool),
    form: usize,
    wanted: Use,
    steps: &mut Steps<L>,
) -> Result<bool, NoMemory> {
    let (from, to, _, keeps) = *shift;
    let used = form < 2;
    let preset = if form % 2 == 1 { 5 } else { 0 };
    for (hold, armed) in BESIDES.iter() {
        let mut rows = prepared(alloc, from, used, seed(0, false, preset, *hold), steps)?;
        rows.arm(0, 0, *armed, steps);
        rows.shift(0, to, steps);
        let row = if keeps {
            shifted(wanted, used, preset, *hold, *armed)
        } else {
            shifted(wanted, false, preset, false, None)
        };
        if rows.row(0, 0) != Some(row) || rows.mode(0) != to {
            return Ok(false);
        }
    }
    Ok(true)
}

/// Whether a shift changes a row of each of the four forms as expected.
fn is_right<L: Ledger>(
    alloc: Global,
    shift: &(Mode, Mode, &[Use], bool),
    steps: &mut Steps<L>,
) -> Result<bool, NoMemory> {
    for (form, wanted) in shift.2.iter().enumerate() {
        if !is_shifted(alloc, shift, form, *wanted, steps)? {
            return Ok(false);
        }
    }
    Ok(true)
}

fn wrong_shift<L: Ledger>(alloc: Global, blank: Blank) -> Result<Option<usize>, NoMemory>
    requires name { blank.name ≡ L.name }
    requires parts { blank.parts ≡ L.parts }
    requires some { 0 < blank.parts }
{
    let mut steps = Steps::<L>::new(blank);
    for (place, shift) in SHIFTS.iter().enumerate() {
        if !is_right(alloc, shift, &mut steps)? {
            return Ok(Some(place));
        }
    }
    Ok(None)
}

#[test]
fn each_change_of_a_mode_changes_the_rows_by_its_table(rt: HostRuntime) -> Result<(), Fail> {
    all_right(&rt, wrong_shift::<Brand>(rt.alloc(), Blank::new(1))?);
    Ok(())
}

/// The users of the slave: masters 1 and 2, their number, and the rival of each.
type Users = (bool, bool, u32, Option<usize>, Option<usize>);

fn is_used(rows: &Rows, master: usize) -> bool {
    match rows.row(master, 0) {
        Some(row) => row.used,
        None => false,
    }
}

fn users(rows: &Rows) -> Users {
    (
        is_used(rows, 1),
        is_used(rows, 2),
        rows.users(0),
        rows.rival(1, 0),
        rows.rival(2, 0),
    )
}

/// A row: whether the slave can be shared, the masters with presets that start one after another, and the users of
/// the slave then.
static STARTS: [(bool, &[usize], Users); 6] = [
    (false, &[1], (true, false, 1, None, Some(1))),
    (false, &[1, 2], (true, false, 1, None, Some(1))),
    (false, &[2, 1], (false, true, 1, Some(2), None)),
    (false, &[1, 1, 2], (true, false, 1, None, Some(1))),
    (true, &[1, 2], (true, true, 2, None, None)),
    (true, &[2], (false, true, 1, None, None)),
];

/// Three masters, of which the last two have presets for the slave. They start in this order.
fn started<L: Ledger>(
    alloc: Global,
    shareable: bool,
    order: &[usize],
    steps: &mut Steps<L>,
) -> Result<Box<Rows>, NoMemory> {
    let seeds = [seed(1, shareable, 1, false), seed(2, shareable, 4, false)];
    let mut rows = boxed(alloc, Rows::load(alloc, 3, 1, 0, 2, &seeds, steps)?)?;
    for master in order {
        rows.shift(*master, Mode::Active, steps);
    }
    Ok(rows)
}

fn wrong_start<L: Ledger>(alloc: Global, steps: &mut Steps<L>) -> Result<Option<usize>, NoMemory> {
    for (place, (shareable, order, wanted)) in STARTS.iter().enumerate() {
        let rows = started(alloc, *shareable, order, steps)?;
        if users(&rows) != *wanted {
            return Ok(Some(place));
        }
    }
    Ok(None)
}

/// Starts masters in each of these orders. Fails the test if the slave has other users than expected; then switches
/// the first one off.
fn start_each<L: Ledger>(rt: &(impl Abort + AllocGlobal), blank: Blank) -> Result<(), NoMemory>
    requires name { blank.name ≡ L.name }
    requires parts { blank.parts ≡ L.parts }
    requires some { 0 < blank.parts }
{
    let mut steps = Steps::<L>::new(blank);
    all_right(rt, wrong_start(rt.alloc(), &mut steps)?);
    let mut rows = started(rt.alloc(), false, &[1, 2], &mut steps)?;
    rows.shift(1, Mode::Off, &mut steps);
    same(rt, users(&rows), (false, false, 0, None, None));
    rows.shift(2, Mode::Asleep, &mut steps);
    rows.shift(2, Mode::Active, &mut steps);
    same(rt, users(&rows), (false, false, 0, None, None));
    rows.shift(2, Mode::Off, &mut steps);
    rows.shift(2, Mode::Active, &mut steps);
    same(rt, users(&rows), (false, true, 1, Some(2), None));
    Ok(())
}

#[test]
fn the_first_to_start_gets_a_slave_that_cannot_be_shared(rt: HostRuntime) -> Result<(), Fail> {
    start_each::<Brand>(&rt, Blank::new(1))?;
    Ok(())
}

/// A row: the mode of a master, whether it uses the slave, whether its row is armed and held, and the capabilities in
/// force on the slave. ACCESS is 1, CONTEXT 2, WAKEUP 4.
static WANTS: [(Mode, bool, bool, bool, u32); 14] = [
    (Mode::Active, false, false, false, 0),
    (Mode::Active, true, false, false, 1),
    (Mode::Suspending, true, false, false, 1),
    (Mode::Asleep, true, false, false, 1),
    (Mode::Off, true, false, false, 1),
    (Mode::Active, false, true, false, 0),
    (Mode::Suspending, false, true, false, 0),
    (Mode::Asleep, false, true, false, 4),
    (Mode::Off, false, true, false, 0),
    (Mode::Asleep, true, true, false, 5),
    (Mode::Active, true, true, false, 1),
    (Mode::Active, false, false, true, 7),
    (Mode::Off, false, false, true, 7),
    (Mode::Asleep, true, true, true, 7),
];

/// Whether the expected capabilities are in force on a slave that has these.
fn is_wanted<L: Ledger>(
    alloc: Global,
    row: &(Mode, bool, bool, bool, u32),
    all: u32,
    steps: &mut Steps<L>,
) -> Result<bool, NoMemory> {
    let (mode, used, armed, hold, caps) = *row;
    let own = RowSeed {
        all: Caps(all),
        ..seed(0, true, 0, hold)
    };
    let mut rows = prepared(alloc, mode, used, own, steps)?;
    if armed {
        rows.arm(0, 0, Some(NodeId(2)), steps);
    }
    let wanted = Wanted {
        caps: Caps(caps & all),
        limit: if used { Some(9) } else { None },
    };
    let none = Wanted {
        caps: Caps(0),
        limit: None,
    };
    Ok(rows.wanted(0) == wanted && rows.wanted(1) == none)
}

fn wrong_want<L: Ledger>(alloc: Global, blank: Blank) -> Result<Option<usize>, NoMemory>
    requires name { blank.name ≡ L.name }
    requires parts { blank.parts ≡ L.parts }
    requires some { 0 < blank.parts }
{
    let mut steps = Steps::<L>::new(blank);
    for (place, row) in WANTS.iter().enumerate() {
        if !is_wanted(alloc, row, 7, &mut steps)? || !is_wanted(alloc, row, 3, &mut steps)? {
            return Ok(Some(place));
        }
    }
    Ok(None)
}

#[test]
fn what_is_wanted_has_three_parts(rt: HostRuntime) -> Result<(), Fail> {
    all_right(&rt, wrong_want::<Brand>(rt.alloc(), Blank::new(1))?);
    Ok(())
}

fn wanted_in_all(caps: u32, limit: Option<u32>) -> Wanted {
    Wanted {
        caps: Caps(caps),
        limit,
    }
}

/// Limits and releases by two masters that use a slave, and the requirements in force after each.
fn join<L: Ledger>(rt: &(impl Abort + AllocGlobal), blank: Blank) -> Result<(), NoMemory>
    requires name { blank.name ≡ L.name }
    requires parts { blank.parts ≡ L.parts }
    requires some { 0 < blank.parts }
{
    let mut steps = Steps::<L>::new(blank);
    let mut rows = started(rt.alloc(), true, &[1, 2], &mut steps)?;
    same(rt, rows.wanted(0), wanted_in_all(5, None));
    let limits = [(1, Change::Limit(300)), (2, Change::Limit(299))];
    change_all(&mut rows, &limits, &mut steps);
    same(rt, rows.wanted(0), wanted_in_all(5, Some(299)));
    same(
        rt,
        [rows.usage(0, 0), rows.usage(1, 0), rows.usage(2, 0)],
        [2, 3, 3],
    );
    let releases = [(2, Change::Release), (2, Change::Limit(7))];
    change_all(&mut rows, &releases, &mut steps);
    same(rt, rows.wanted(0), wanted_in_all(1, Some(300)));
    same(
        rt,
        [rows.usage(0, 0), rows.usage(1, 0), rows.usage(2, 0)],
        [2, 1, 2],
    );
    Ok(())
}

#[test]
fn rows_of_several_masters_are_joined(rt: HostRuntime) -> Result<(), Fail> {
    join::<Brand>(&rt, Blank::new(1))?;
    Ok(())
}
