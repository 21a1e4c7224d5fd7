//! Each node of the chip is forced down while all processors run and each master uses all its slaves.

use crate::rows::all_right;
use pm_base::{Mode, NodeId};
use pm_core::Book;
use std::alloc::Global;
use std::test::Fail;
use test_books::{Case, Desk, Trigger, Want, event_of, have_moved, settled, wrong_answer};

/// Masters 1, 7 and 8, each of which may force any node. There are slaves of each class below each power node: 11,
/// 33, 46, 49 and 53 below LPD, 15 and 17 in the RPU's domain, 19, 20, 28 and 55 below FPD, and 63 and 69 below PLD.
static GRID: [u32; 85] = [
    2, 3, 1, 0x101, 3, 1, 0x1, 100, 0, 0, 7, 0x100, 100, 0, 0, 8, 0x200, 100, 0, 0, 0x102, 13, 11,
    1, 0x301, 15, 1, 0x300, 17, 0, 0x200, 19, 1, 0x101, 20, 0, 0x1, 28, 1, 0x301, 33, 0, 0x100, 46,
    1, 0x201, 49, 1, 0x301, 53, 0, 0x200, 55, 1, 0x301, 63, 1, 0x101, 69, 0, 0x200, 0x104, 11, 1,
    0x301, 2, 0x301, 3, 0x301, 4, 0x301, 5, 0x301, 6, 0x301, 7, 0x301, 8, 0x301, 9, 0x301, 10,
    0x301, 62, 0x301,
];

static MASTERS: [u32; 3] = [1, 7, 8];

static PROCS: [u32; 6] = [2, 3, 4, 5, 7, 8];

/// Each master with each slave that it may use.
static USES: [(u32, u32); 25] = [
    (1, 11),
    (7, 11),
    (8, 11),
    (7, 15),
    (8, 15),
    (8, 17),
    (1, 19),
    (7, 19),
    (1, 20),
    (1, 28),
    (7, 28),
    (8, 28),
    (7, 33),
    (1, 46),
    (8, 46),
    (1, 49),
    (7, 49),
    (8, 49),
    (8, 53),
    (1, 55),
    (7, 55),
    (8, 55),
    (1, 63),
    (7, 63),
    (8, 69),
];

/// A row: a node that can be forced; the processors that go off; the masters that go off with them; the slaves below
/// the node, whose rows are cleared; and the nodes that move.
type Fall = (
    u32,
    &'static [u32],
    &'static [u32],
    &'static [u32],
    &'static [u32],
);

/// The forces. A slave that another master still uses keeps its state, and a domain in which something still needs
/// power stays up. LPD is held, and slave 49 needs only its first state.
static FALLS: [Fall; 11] = [
    (1, &[2, 3, 4, 5], &[1], &[], &[1, 2, 3, 4, 5, 20]),
    (2, &[2], &[], &[], &[2]),
    (3, &[3], &[], &[], &[3]),
    (4, &[4], &[], &[], &[4]),
    (5, &[5], &[], &[], &[5]),
    (
        6,
        &[7, 8],
        &[7, 8],
        &[15, 17],
        &[6, 7, 8, 15, 17, 33, 53, 69],
    ),
    (7, &[7], &[7], &[], &[7, 33]),
    (8, &[8], &[8], &[], &[8, 17, 53, 69]),
    (9, &[], &[], &[63, 69], &[9, 63, 69]),
    (
        10,
        &[2, 3, 4, 5],
        &[1],
        &[19, 20, 28, 55],
        &[1, 2, 3, 4, 5, 10, 19, 20, 28, 55],
    ),
    (
        62,
        &[7, 8],
        &[7, 8],
        &[11, 15, 17, 33, 46, 49, 53],
        &[6, 7, 8, 11, 15, 17, 33, 46, 53, 69],
    ),
];

/// The state that no force has changed.
const UNCHANGED: Fall = (0, &[], &[], &[], &[]);

/// The book while all processors run and each master uses all its slaves.
fn busy(alloc: Global) -> Result<Box<Desk>, Fail> {
    let mut desk = settled(alloc, &GRID)?;
    for proc in &PROCS {
        desk.take(&event_of(Trigger::Boot(*proc, 0)));
    }
    for (master, slave) in &USES {
        desk.take(&event_of(Trigger::Call(*master, 13, [*slave, 1, 0, 2])));
    }
    Ok(desk)
}

fn has(numbers: &[u32], number: u32) -> bool {
    for other in numbers {
        if *other == number {
            return true;
        }
    }
    false
}

fn is_off(book: &Book, proc: u32) -> bool {
    matches!(book.mode(NodeId(proc)), Mode::Off)
}

/// Whether exactly the processors of the row are off.
fn procs_stand(book: &Book, fall: &Fall) -> bool {
    let (_, procs, _, _, _) = *fall;
    for proc in &PROCS {
        if is_off(book, *proc) != has(procs, *proc) {
            return false;
        }
    }
    true
}

fn is_used(book: &Book, master: u32, slave: u32) -> bool {
    match book.row(NodeId(master), NodeId(slave)) {
        Some(row) => row.used,
        None => false,
    }
}

/// Whether each master that isn't off uses the same slaves as before, except those below the node.
fn rows_stand(book: &Book, fall: &Fall) -> bool {
    let (_, _, masters, slaves, _) = *fall;
    for (master, slave) in &USES {
        let stays = !has(masters, *master) && !has(slaves, *slave);
        if is_used(book, *master, *slave) != stays {
            return false;
        }
    }
    true
}

/// Whether a force by a master has the effects of the row.
fn is_wrong(desk: &mut Desk, caller: u32, status: u32, fall: &Fall) -> bool {
    let (node, _, _, _, moved) = *fall;
    let case: Case = (caller, 8, [node, 2, 0, 0], Want::Reply(status, [0; 3]));
    wrong_answer(desk, &[case]).is_some()
        || !have_moved(&desk.out, moved)
        || !procs_stand(&desk.book, fall)
        || !rows_stand(&desk.book, fall)
}

fn wrong_fall(alloc: Global, caller: u32) -> Result<Option<usize>, Fail> {
    for (place, fall) in FALLS.iter().enumerate() {
        let mut desk = busy(alloc)?;
        if is_wrong(&mut desk, caller, 0, fall) {
            return Ok(Some(place));
        }
    }
    Ok(None)
}

#[test]
fn each_node_that_can_be_forced_falls_with_all_below_it(rt: HostRuntime) -> Result<(), Fail> {
    for caller in &MASTERS {
        all_right(&rt, wrong_fall(rt.alloc(), *caller)?);
    }
    Ok(())
}

fn can_be_forced(node: u32) -> bool {
    for (forced, _, _, _, _) in &FALLS {
        if *forced == node {
            return true;
        }
    }
    false
}

/// The first of all other numbers whose force isn't refused, or changes anything.
fn wrong_refusal(desk: &mut Desk, caller: u32) -> Option<usize> {
    for node in 0..71u32 {
        let (_, procs, masters, slaves, moved) = UNCHANGED;
        let fall = (node, procs, masters, slaves, moved);
        if !can_be_forced(node) && is_wrong(desk, caller, 2003, &fall) {
            return Some(node as usize);
        }
    }
    None
}

#[test]
fn no_other_node_can_be_forced(rt: HostRuntime) -> Result<(), Fail> {
    let mut desk = busy(rt.alloc())?;
    for caller in &MASTERS {
        all_right(&rt, wrong_refusal(&mut desk, *caller));
    }
    Ok(())
}
