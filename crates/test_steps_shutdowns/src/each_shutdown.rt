//! Each type and subtype of a shutdown, with the permission and without it, while requests are pending, a callback
//! waits, and a reset line is asserted.

use crate::rows::all_right;
use pm_base::{LineId, Unit};
use std::alloc::Global;
use std::test::Fail;
use test_books::{
    Call, Case, Desk, Notice, Reply, Trigger, Want, event_of, have_called, have_replied, settled,
    wrong_answer, wrong_notice, wrong_value,
};

/// Masters 1, 7 and 8, which may use slaves 11 and 46. The first may suspend the others and reset line 33, and 7 may
/// suspend the first. The two words that are left have the masters that may shut down by subtype 1, and by subtype 2.
static MASTERS: [u32; 34] = [
    2, 4, 1, 0x101, 3, 1, 0x1, 100, 0x300, 0, 7, 0x100, 40, 0x1, 0, 8, 0x200, 50, 0, 0, 0x102, 2,
    11, 1, 0x301, 46, 1, 0x301, 0x105, 1, 33, 0x1, 0x106, 2,
];

/// The events before the shutdown. Master 8 sleeps; its slave 46 wakes it, and a change of slave 11 waits for it.
/// Line 33 is asserted. Master 1 waits for a late reply when 7 is suspended, and 7 for an acknowledgement when 1 is.
static BEFORE: [Trigger; 12] = [
    Trigger::Boot(3, 0),
    Trigger::Boot(8, 0),
    Trigger::Call(8, 5, [11, 1, 0, 1]),
    Trigger::Call(1, 5, [46, 1, 0, 1]),
    Trigger::Call(7, 5, [46, 1, 0, 1]),
    Trigger::Call(8, 11, [8, 46, 1, 0]),
    Trigger::Call(8, 7, [8, 0, 0, 0]),
    Trigger::Wfi(8),
    Trigger::Call(1, 13, [11, 1, 0, 2]),
    Trigger::Call(1, 17, [33, 1, 0, 0]),
    Trigger::Call(1, 6, [7, 2, 0, 0]),
    Trigger::Call(7, 6, [1, 3, 0, 0]),
];

/// The effects of the shutdown: the status, the late replies, the callbacks, the values of nodes and of the line
/// after it, and the notices later on.
type Expected = (
    u32,
    &'static [Reply],
    &'static [Call],
    &'static [(u32, u32)],
    u32,
    &'static [Notice],
);

/// The shutdown has no effect: later both requests time out, and master 8 is told of slave 11 when it wakes.
const UNCHANGED: Expected = (0, &[], &[], STANDS, 1, GOES_ON);

const REFUSED: Expected = (2002, &[], &[], STANDS, 1, GOES_ON);

const STANDS: &[(u32, u32)] = &[
    (1, 1),
    (2, 1),
    (3, 1),
    (6, 1),
    (7, 1),
    (8, 0),
    (10, 1),
    (11, 2),
    (46, 1),
    (62, 1),
];

const GOES_ON: &[Notice] = &[
    (Trigger::Tick(40), &[(1, 2006)], &[]),
    (
        Trigger::Gic(8),
        &[],
        &[
            (1, 32, [46, 1, 0, 0]),
            (7, 32, [46, 1, 0, 0]),
            (8, 32, [11, 1, 2, 0]),
        ],
    ),
    (Trigger::Tick(60), &[], &[(7, 31, [1, 2006, 1, 0])]),
];

/// Master 1 is off: the request to it has ended, its own one is still pending, and it is told nothing any more.
const OFF: Expected = (
    0,
    &[],
    &[(7, 31, [1, 0, 0, 0])],
    &[
        (1, 0),
        (2, 0),
        (3, 0),
        (6, 1),
        (7, 1),
        (8, 0),
        (10, 0),
        (11, 0),
        (46, 1),
        (62, 1),
    ],
    1,
    WITHOUT_THE_FIRST,
);

/// Master 1 was off, and runs again with its first processor.
const AGAIN: Expected = (
    0,
    &[],
    &[(7, 31, [1, 0, 1, 0])],
    &[
        (1, 1),
        (2, 1),
        (3, 0),
        (6, 1),
        (7, 1),
        (8, 0),
        (10, 1),
        (11, 0),
        (46, 1),
        (62, 1),
    ],
    1,
    WITHOUT_THE_FIRST,
);

const WITHOUT_THE_FIRST: &[Notice] = &[
    (Trigger::Tick(40), &[(1, 2006)], &[]),
    (
        Trigger::Gic(8),
        &[],
        &[(7, 32, [46, 1, 0, 0]), (8, 32, [11, 1, 0, 0])],
    ),
    (Trigger::Tick(60), &[], &[]),
    (Trigger::Boot(2, 0), &[], &[]),
    (
        Trigger::Call(7, 13, [46, 4, 0, 2]),
        &[],
        &[(7, 32, [46, 1, 1, 0])],
    ),
];

/// All are off: both requests have ended, only a late reply tells it, and nothing happens any more.
const HALTED: Expected = (
    0,
    &[(1, 0)],
    &[],
    &[
        (1, 0),
        (2, 0),
        (3, 0),
        (6, 0),
        (7, 0),
        (8, 0),
        (10, 0),
        (11, 0),
        (46, 0),
        (62, 1),
    ],
    1,
    &[
        (Trigger::Tick(100), &[], &[]),
        (Trigger::Gic(8), &[], &[]),
        (Trigger::Irq(46), &[], &[]),
        (Trigger::Boot(2, 0), &[], &[]),
        (Trigger::Call(1, 6, [7, 2, 0, 0]), &[], &[]),
    ],
);

/// All is as at load: the slaves of the first master are held, the line is released, and nobody is told anything.
const ANEW: Expected = (
    0,
    &[(1, 0)],
    &[],
    &[
        (1, 1),
        (2, 1),
        (3, 0),
        (6, 0),
        (7, 0),
        (8, 0),
        (10, 1),
        (11, 2),
        (46, 1),
        (62, 1),
    ],
    0,
    &[
        (Trigger::Tick(100), &[], &[]),
        (Trigger::Gic(8), &[], &[]),
        (Trigger::Boot(7, 0), &[], &[]),
        (Trigger::Boot(8, 0), &[], &[]),
        (Trigger::Irq(46), &[], &[]),
        (Trigger::Call(1, 21, [0; 4]), &[], &[]),
    ],
);

/// A row: the masters that may shut down by subtypes 1 and 2, the type and the subtype of a shutdown by master 1, and
/// its effects.
type Shutdown = (u32, u32, u32, u32, Expected);

static SHUTDOWNS: [Shutdown; 20] = [
    // the caller's own shutdown needs no permission
    (0x1, 0x1, 0, 0, OFF),
    (0x100, 0x100, 0, 0, OFF),
    (0x1, 0x1, 1, 0, AGAIN),
    (0x100, 0x100, 1, 0, AGAIN),
    // a shutdown of everything needs it, for each of the two subtypes
    (0x1, 0x1, 0, 1, HALTED),
    (0x1, 0x100, 0, 1, HALTED),
    (0x100, 0x1, 0, 1, REFUSED),
    (0x1, 0x1, 0, 2, HALTED),
    (0x100, 0x1, 0, 2, HALTED),
    (0x1, 0x100, 0, 2, REFUSED),
    (0x1, 0x100, 1, 1, ANEW),
    (0x100, 0x1, 1, 1, REFUSED),
    (0x100, 0x1, 1, 2, ANEW),
    (0x1, 0x100, 1, 2, REFUSED),
    // a scope needs no permission
    (0x1, 0x1, 2, 0, UNCHANGED),
    (0x100, 0x100, 2, 0, UNCHANGED),
    (0x1, 0x1, 2, 1, UNCHANGED),
    (0x100, 0x100, 2, 1, UNCHANGED),
    (0x1, 0x1, 2, 2, UNCHANGED),
    (0x100, 0x100, 2, 2, UNCHANGED),
];

/// The book before the shutdown.
fn prepared(alloc: Global, first: u32, second: u32) -> Result<Box<Desk>, Fail> {
    let mut words = Vec::new(alloc);
    words.extend_from_slice(&MASTERS)?;
    words.extend_from_slice(&[1, first, 2, second])?;
    let mut desk = settled(alloc, &words)?;
    for trigger in &BEFORE {
        desk.take(&event_of(*trigger));
    }
    Ok(desk)
}

fn is_wrong(desk: &mut Desk, kind: u32, subtype: u32, expected: &Expected) -> bool {
    let (status, late, calls, values, line, later) = *expected;
    let case: Case = (1, 12, [kind, subtype, 0, 0], Want::Reply(status, [0; 3]));
    wrong_answer(desk, &[case]).is_some()
        || !have_replied(&desk.out, late)
        || !have_called(&desk.out, calls)
        || wrong_value(&desk.book, values).is_some()
        || desk.book.value(Unit::Line(LineId(33))) != line
        || wrong_notice(desk, later).is_some()
}

fn wrong_shutdown(alloc: Global) -> Result<Option<usize>, Fail> {
    for (place, (first, second, kind, subtype, expected)) in SHUTDOWNS.iter().enumerate() {
        let mut desk = prepared(alloc, *first, *second)?;
        if is_wrong(&mut desk, *kind, *subtype, expected) {
            return Ok(Some(place));
        }
    }
    Ok(None)
}

#[test]
fn each_shutdown_ends_what_it_takes_down_and_nothing_else(rt: HostRuntime) -> Result<(), Fail> {
    all_right(&rt, wrong_shutdown(rt.alloc())?);
    Ok(())
}
