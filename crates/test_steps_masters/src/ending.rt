//! The ends of requests to suspend: what the asking master is told, by the way in which the request ends, by the
//! master's own mode, and by the acknowledge kind.

use crate::asking::ASKING;
use crate::rows::all_right;
use pm_core::Outbox;
use std::alloc::Global;
use std::test::Fail;
use test_books::{Desk, Trigger, event_of, have_called, have_replied, settled};

/// The ways in which a request to master 7 ends: it sleeps; an interrupt wakes it before the sleep; it aborts its
/// suspend; it aborts before it suspends; its timeout is over.
#[derive(Clone, Copy)]
enum Way {
    Sleep,
    Interrupt,
    Abort,
    Refusal,
    Time,
}

static SLEEP: [Trigger; 2] = [Trigger::Call(7, 7, [7, 0, 0, 0]), Trigger::Wfi(7)];

static INTERRUPT: [Trigger; 2] = [Trigger::Call(7, 7, [7, 0, 0, 0]), Trigger::Gic(7)];

static ABORT: [Trigger; 2] = [
    Trigger::Call(7, 7, [7, 0, 0, 0]),
    Trigger::Call(7, 9, [100, 7, 0, 0]),
];

static REFUSAL: [Trigger; 1] = [Trigger::Call(7, 9, [101, 7, 0, 0])];

static TIME: [Trigger; 2] = [Trigger::Tick(39), Trigger::Tick(1)];

/// The events of this way. The last one ends the request.
fn steps_of(way: Way) -> &'static [Trigger] {
    match way {
        Way::Sleep => &SLEEP,
        Way::Interrupt => &INTERRUPT,
        Way::Abort => &ABORT,
        Way::Refusal => &REFUSAL,
        Way::Time => &TIME,
    }
}

/// The mode of master 1 after it asked: it stays active, suspends, or sleeps.
#[derive(Clone, Copy)]
enum Asker {
    Active,
    Suspending,
    Asleep,
}

static STAYS: [Trigger; 0] = [];

static SUSPENDS: [Trigger; 1] = [Trigger::Call(1, 7, [2, 0, 0, 0])];

static SLEEPS: [Trigger; 2] = [Trigger::Call(1, 7, [2, 0, 0, 0]), Trigger::Wfi(2)];

fn steps_by(asker: Asker) -> &'static [Trigger] {
    match asker {
        Asker::Active => &STAYS,
        Asker::Suspending => &SUSPENDS,
        Asker::Asleep => &SLEEPS,
    }
}

/// The expected notice to master 1: none, a late reply with a status, or a callback with a status and an operating
/// point.
#[derive(Clone, Copy)]
enum Told {
    Nothing,
    Late(u32),
    Callback(u32, u32),
}

/// A row: the way in which the request ends, the mode of the asking master, the acknowledge kind, and the expected
/// notice.
type End = (Way, Asker, u32, Told);

static ENDS: [End; 45] = [
    (Way::Sleep, Asker::Active, 1, Told::Nothing),
    (Way::Sleep, Asker::Active, 2, Told::Late(0)),
    (Way::Sleep, Asker::Active, 3, Told::Callback(0, 2)),
    (Way::Sleep, Asker::Suspending, 1, Told::Nothing),
    (Way::Sleep, Asker::Suspending, 2, Told::Late(0)),
    (Way::Sleep, Asker::Suspending, 3, Told::Callback(0, 2)),
    (Way::Sleep, Asker::Asleep, 1, Told::Nothing),
    (Way::Sleep, Asker::Asleep, 2, Told::Late(0)),
    (Way::Sleep, Asker::Asleep, 3, Told::Nothing),
    (Way::Interrupt, Asker::Active, 1, Told::Nothing),
    (Way::Interrupt, Asker::Active, 2, Told::Late(2005)),
    (Way::Interrupt, Asker::Active, 3, Told::Callback(2005, 1)),
    (Way::Interrupt, Asker::Suspending, 1, Told::Nothing),
    (Way::Interrupt, Asker::Suspending, 2, Told::Late(2005)),
    (
        Way::Interrupt,
        Asker::Suspending,
        3,
        Told::Callback(2005, 1),
    ),
    (Way::Interrupt, Asker::Asleep, 1, Told::Nothing),
    (Way::Interrupt, Asker::Asleep, 2, Told::Late(2005)),
    (Way::Interrupt, Asker::Asleep, 3, Told::Nothing),
    // the master goes on, and aborts: one end
    (Way::Abort, Asker::Active, 1, Told::Nothing),
    (Way::Abort, Asker::Active, 2, Told::Late(2005)),
    (Way::Abort, Asker::Active, 3, Told::Callback(2005, 1)),
    (Way::Abort, Asker::Suspending, 1, Told::Nothing),
    (Way::Abort, Asker::Suspending, 2, Told::Late(2005)),
    (Way::Abort, Asker::Suspending, 3, Told::Callback(2005, 1)),
    (Way::Abort, Asker::Asleep, 1, Told::Nothing),
    (Way::Abort, Asker::Asleep, 2, Told::Late(2005)),
    (Way::Abort, Asker::Asleep, 3, Told::Nothing),
    (Way::Refusal, Asker::Active, 1, Told::Nothing),
    (Way::Refusal, Asker::Active, 2, Told::Late(2005)),
    (Way::Refusal, Asker::Active, 3, Told::Callback(2005, 1)),
    (Way::Refusal, Asker::Suspending, 1, Told::Nothing),
    (Way::Refusal, Asker::Suspending, 2, Told::Late(2005)),
    (Way::Refusal, Asker::Suspending, 3, Told::Callback(2005, 1)),
    (Way::Refusal, Asker::Asleep, 1, Told::Nothing),
    (Way::Refusal, Asker::Asleep, 2, Told::Late(2005)),
    (Way::Refusal, Asker::Asleep, 3, Told::Nothing),
    (Way::Time, Asker::Active, 1, Told::Nothing),
    (Way::Time, Asker::Active, 2, Told::Late(2006)),
    (Way::Time, Asker::Active, 3, Told::Callback(2006, 1)),
    (Way::Time, Asker::Suspending, 1, Told::Nothing),
    (Way::Time, Asker::Suspending, 2, Told::Late(2006)),
    (Way::Time, Asker::Suspending, 3, Told::Callback(2006, 1)),
    (Way::Time, Asker::Asleep, 1, Told::Nothing),
    (Way::Time, Asker::Asleep, 2, Told::Late(2006)),
    (Way::Time, Asker::Asleep, 3, Told::Nothing),
];

/// Whether the last step told exactly this.
fn has_told(out: &Outbox, told: Told) -> bool {
    match told {
        Told::Nothing => have_replied(out, &[]) && have_called(out, &[]),
        Told::Late(status) => have_replied(out, &[(1, status)]) && have_called(out, &[]),
        Told::Callback(status, point) => {
            have_replied(out, &[]) && have_called(out, &[(1, 31, [7, status, point, 0])])
        }
    }
}

fn take_all(desk: &mut Desk, triggers: &[Trigger]) {
    for trigger in triggers {
        desk.take(&event_of(*trigger));
    }
}

/// Whether a request ends so: exactly this is told, and once, since nothing is due later.
fn ends_so(alloc: Global, end: &End) -> Result<bool, Fail> {
    let (way, asker, ack, told) = *end;
    let mut desk = settled(alloc, &ASKING)?;
    desk.take(&event_of(Trigger::Call(1, 6, [7, ack, 0, 0])));
    take_all(&mut desk, steps_by(asker));
    take_all(&mut desk, steps_of(way));
    let right = has_told(&desk.out, told);
    desk.take(&event_of(Trigger::Tick(100)));
    Ok(right && has_told(&desk.out, Told::Nothing))
}

fn wrong_end(alloc: Global, ends: &[End]) -> Result<Option<usize>, Fail> {
    for (place, end) in ends.iter().enumerate() {
        if !ends_so(alloc, end)? {
            return Ok(Some(place));
        }
    }
    Ok(None)
}

#[test]
fn the_asking_master_hears_how_its_request_ends(rt: HostRuntime) -> Result<(), Fail> {
    all_right(&rt, wrong_end(rt.alloc(), &ENDS)?);
    Ok(())
}
