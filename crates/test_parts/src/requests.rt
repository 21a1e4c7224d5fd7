//! The pending requests to suspend.

use crate::chip::chip;
use crate::rows::{all_right, boxed, same};
use pm_base::{List, NodeId};
use pm_ipi::AckKind;
use pm_procs::{NEVER, Pending, Procs};
use std::alloc::Global;
use std::test::Fail;

/// A row: the timeout of a request, the time that passes, the rest of its timeout, and whether it is due.
static TIMES: [(u32, u32, Option<u32>, bool); 12] = [
    (100, 0, Some(100), false),
    (100, 99, Some(1), false),
    (100, 100, Some(0), true),
    (100, 101, Some(0), true),
    (100, u32::MAX, Some(0), true),
    (1, 0, Some(1), false),
    (0, 0, Some(0), true),
    (0, 1, Some(0), true),
    (NEVER - 1, NEVER - 2, Some(1), false),
    (NEVER - 1, NEVER - 1, Some(0), true),
    (NEVER, 0, None, false),
    (NEVER, NEVER, None, false),
];

/// A request of the master at place 2 for node 7.
fn request(timeout: u32) -> Pending {
    Pending::new(2, AckKind::Blocking, NodeId(7), timeout)
}

/// A chip with three masters, which have no processors.
fn masters(alloc: Global) -> Result<Box<Procs>, Fail> {
    let chip = chip(alloc)?;
    let mut members = List::new(alloc);
    members.push(List::new(alloc))?;
    members.push(List::new(alloc))?;
    members.push(List::new(alloc))?;
    let procs = Procs::load(alloc, &chip, members)?;
    Ok(boxed(alloc, procs)?)
}

/// The index of the first row in which time passes otherwise, for a request alone or among others.
fn wrong_time(procs: &mut Procs) -> Option<usize> {
    for (place, (timeout, count, left, is_due)) in TIMES.iter().enumerate() {
        let made = request(*timeout);
        let later = Pending {
            by: 2,
            ack: AckKind::Blocking,
            node: NodeId(7),
            left: *left,
        };
        procs.ask(1, made);
        procs.tick(*count);
        let found = (made.is_due(*count), made.lowered(*count), procs.pending(1));
        if found != (*is_due, later, Some(later)) {
            return Some(place);
        }
    }
    None
}

#[test]
fn time_passes_for_what_is_pending(rt: HostRuntime) -> Result<(), Fail> {
    let mut procs = masters(rt.alloc())?;
    all_right(&rt, wrong_time(&mut procs));
    Ok(())
}

/// The pending requests to three masters, and to one that isn't there.
fn pending(procs: &Procs) -> [Option<Pending>; 4] {
    [
        procs.pending(0),
        procs.pending(1),
        procs.pending(2),
        procs.pending(3),
    ]
}

#[test]
fn each_master_has_one_request(rt: HostRuntime) -> Result<(), Fail> {
    let mut procs = masters(rt.alloc())?;
    same(&rt, pending(&procs), [None; 4]);
    procs.ask(0, request(5));
    procs.ask(2, request(9));
    procs.ask(3, request(1));
    same(
        &rt,
        pending(&procs),
        [Some(request(5)), None, Some(request(9)), None],
    );
    procs.ask(0, request(6));
    procs.tick(4);
    same(
        &rt,
        pending(&procs),
        [Some(request(2)), None, Some(request(5)), None],
    );
    procs.end(3);
    procs.end(0);
    same(&rt, pending(&procs), [None, None, Some(request(5)), None]);
    Ok(())
}
