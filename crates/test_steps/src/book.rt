//! The book over whole messages: the answers, the moves, and the values of units after them.

use crate::rows::all_right;
use pm_base::{LineId, NodeId, Unit};
use pm_core::Book;
use std::test::Fail;
use test_books::{
    Case, Desk, Want, desk_of, have_moved, message, settled, wrong_answer, wrong_value,
};

/// Masters 1 and 7. Both may use slave 11 at a time; only the first one may use slave 33.
pub(crate) static SHARED_AND_OWN: [u32; 23] = [
    2, 2, 1, 0x101, 2, 1, 0x1, 100, 0, 0, 7, 0x100, 100, 0, 0, 0x102, 2, 11, 1, 0x101, 33, 0, 0x1,
];

pub(crate) static TWO_MASTERS: [Case; 7] = [
    (7, 13, [11, 2, 0, 2], Want::Reply(0, [0, 0, 0])),
    (1, 13, [11, 1, 0, 2], Want::Reply(0, [0, 0, 0])),
    (1, 3, [11, 0, 0, 0], Want::Reply(0, [2, 1, 3])),
    (1, 14, [11, 0, 0, 0], Want::Reply(0, [0, 0, 0])),
    (7, 13, [33, 1, 0, 2], Want::Reply(2002, [0, 0, 0])),
    (8, 3, [11, 0, 0, 0], Want::Drop),
    (1, 13, [33, 8, 0, 3], Want::Ack(33, 19, 0)),
];

#[test]
fn request_release_and_status_of_two_masters(rt: HostRuntime) -> Result<(), Fail> {
    let mut desk = settled(rt.alloc(), &SHARED_AND_OWN)?;
    all_right(&rt, wrong_answer(&mut desk, &TWO_MASTERS));
    all_right(&rt, wrong_value(&desk.book, &[(11, 1), (12, 0), (33, 0)]));
    assert_eq!(rt; desk.book.object().masters.len(), 2);
    Ok(())
}

/// Slaves below FPD (28, 42, 55), the RPU's domain (15) and PLD (63), all of which master 7 may use. Master 8 runs.
static BELOW: [u32; 32] = [
    2, 2, 1, 0x101, 2, 8, 0x200, 100, 0, 0, 7, 0x100, 100, 0, 0, 0x102, 5, 28, 0, 0x100, 15, 0,
    0x100, 42, 0, 0x100, 55, 0, 0x100, 63, 0, 0x100,
];

/// Calls of master 7, and the nodes that move: the number of the call, the node, the capabilities, and the nodes in
/// order.
static MOVES: [(u32, u32, u32, &[u32]); 13] = [
    // FPD goes up with the first slave that needs it, and down with the last
    (13, 28, 1, &[10, 28]),
    (13, 42, 4, &[42]),
    (14, 28, 0, &[28]),
    (14, 42, 0, &[10, 42]),
    // the DDR keeps its content without its power node, but gives access only with it
    (13, 55, 2, &[55]),
    (14, 55, 0, &[55]),
    (13, 55, 3, &[10, 55]),
    (14, 55, 0, &[10, 55]),
    // the RPU's domain is up for the processors
    (13, 15, 2, &[15]),
    (13, 63, 1, &[9, 63]),
    // refused calls, and one without a requirement
    (13, 63, 1, &[]),
    (13, 28, 0, &[]),
    (14, 63, 0, &[9, 63]),
];

fn wrong_move(desk: &mut Desk) -> Option<usize> {
    for (place, (api, node, caps, moved)) in MOVES.iter().enumerate() {
        desk.take(&message(7, *api, [*node, *caps, 0, 2]));
        if !have_moved(&desk.out, moved) {
            return Some(place);
        }
    }
    None
}

#[test]
fn slaves_take_their_power_nodes_with_them(rt: HostRuntime) -> Result<(), Fail> {
    let mut desk = settled(rt.alloc(), &BELOW)?;
    all_right(&rt, wrong_move(&mut desk));
    let wrong = wrong_value(&desk.book, &[(6, 1), (9, 0), (10, 0), (15, 1), (62, 1)]);
    all_right(&rt, wrong);
    Ok(())
}

/// The status of a slave, of its power node, of one that is held, of one that is down, and of processors
/// that are off, active and suspending.
static UP: [Case; 9] = [
    (7, 13, [28, 1, 0, 2], Want::Reply(0, [0, 0, 0])),
    (7, 3, [28, 0, 0, 0], Want::Reply(0, [1, 1, 1])),
    (7, 3, [10, 0, 0, 0], Want::Reply(0, [1, 0, 0])),
    (7, 3, [62, 0, 0, 0], Want::Reply(0, [1, 0, 0])),
    (7, 3, [9, 0, 0, 0], Want::Reply(0, [0, 0, 0])),
    (7, 3, [2, 0, 0, 0], Want::Reply(0, [0, 0, 0])),
    (7, 3, [8, 0, 0, 0], Want::Reply(0, [1, 0, 0])),
    (7, 7, [7, 0, 0, 0], Want::Reply(0, [0, 0, 0])),
    (7, 3, [7, 0, 0, 0], Want::Reply(0, [3, 0, 0])),
];

#[test]
fn each_node_has_a_status(rt: HostRuntime) -> Result<(), Fail> {
    let mut desk = settled(rt.alloc(), &BELOW)?;
    all_right(&rt, wrong_answer(&mut desk, &UP));
    assert!(rt; have_moved(&desk.out, &[]));
    Ok(())
}

/// Indexes and the units there: the ends of all nodes, and of each run of lines with consecutive numbers. No line
/// resets a power node.
static PLACES: [(usize, Option<Unit>); 11] = [
    (0, Some(Unit::Node(NodeId(1)))),
    (68, Some(Unit::Node(NodeId(69)))),
    (69, Some(Unit::Line(LineId(2)))),
    (72, Some(Unit::Line(LineId(5)))),
    (73, Some(Unit::Line(LineId(7)))),
    (74, Some(Unit::Line(LineId(8)))),
    (75, Some(Unit::Line(LineId(11)))),
    (125, Some(Unit::Line(LineId(61)))),
    (126, Some(Unit::Line(LineId(63)))),
    (132, Some(Unit::Line(LineId(69)))),
    (133, None),
];

/// The unit at an index, if there is one.
fn unit_at(book: &Book, place: usize) -> Option<Unit> {
    if place < book.units() {
        Some(book.unit(place))
    } else {
        None
    }
}

fn wrong_unit(book: &Book) -> Option<usize> {
    for (place, (k, unit)) in PLACES.iter().enumerate() {
        if unit_at(book, *k) != *unit {
            return Some(place);
        }
    }
    None
}

#[test]
fn units_stand_by_number(rt: HostRuntime) -> Result<(), Fail> {
    let desk = desk_of(rt.alloc(), &BELOW)?;
    all_right(&rt, wrong_unit(&desk.book));
    Ok(())
}
