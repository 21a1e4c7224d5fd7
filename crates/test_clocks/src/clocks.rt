//! Clocks over a small book, row by row.

use pm_base::{Message, NoMemory, NodeId, Unit};
use pm_clock_tree::{ClockTree, Scene, decode_clock_call};
use std::alloc::Global;
use std::process::Abort;
use std::test::Fail;

/// A book in which the master `off` is off, nobody may use the slave `barred`, and the slave `down` is in state 0. A
/// 0 stands for none.
#[derive(Drop)]
struct Sight {
    off: u32,
    barred: u32,
    down: u32,
}

impl Scene for Sight {
    ghost use Rattle.test_clocks.specs.Sight.{sight};

    ghost seen = { λ book. sight book.off book.barred book.down };

    fn is_off(&self, master: NodeId) -> bool {
        master.0 == self.off
    }

    fn may_use(&self, _master: NodeId, slave: NodeId) -> bool {
        slave.0 != self.barred
    }

    fn is_on(&self, slave: NodeId) -> bool {
        slave.0 != self.down
    }
}

/// A book as the numbers `off`, `barred` and `down`.
type Book = (u32, u32, u32);

/// A row: the book after the step; the sender, and its message's number and first two arguments; the expected status
/// and first word, if it is a call on a clock; and up to three clocks that started or stopped, by number, filled up
/// with 0.
type Row = (Book, u32, [u32; 3], Option<(u32, u32)>, [u32; 3]);

/// Serves the message of a row, if it is a call on a clock, and follows its step. Returns the status and the first
/// word of the answer.
fn play(clocks: &mut ClockTree, row: &Row) -> Option<(u32, u32)> {
    let ((off, barred, down), master, [api, first, second], _, _) = *row;
    let book = Sight { off, barred, down };
    let message = Message {
        api,
        args: [first, second, 0, 0, 0],
    };
    let answer = answer_to(clocks, &book, NodeId(master), &message);
    let roots = [Unit::Node(NodeId(50))];
    clocks.follow(&book, &roots, false);
    answer
}

fn answer_to(
    clocks: &mut ClockTree,
    book: &Sight,
    master: NodeId,
    message: &Message,
) -> Option<(u32, u32)> {
    let call = decode_clock_call(message)?;
    let response = clocks.serve(book, master, &call);
    Some((response.status, response.words[0]))
}

/// The first three clocks that started or stopped, filled up with 0.
fn changed(clocks: &mut ClockTree) -> [u32; 3] {
    let mut changed = [0; 3];
    let mut count = 0;
    if clocks.has_changes() {
        for number in 0..20 {
            if let Some(change) = clocks.change(number) {
                if count < 3 && change.to == clocks.runs(number) && change.from != change.to {
                    changed[count] = change.clock;
                    count += 1;
                }
            }
        }
    }
    clocks.tell();
    changed
}

/// Fails the test if a row is wrong; `wrong` is the index of the first one.
fn all_right(rt: &impl Abort, wrong: Option<usize>) {
    assert_eq!(rt; wrong, None);
}

/// The index of the first wrong row. The masters of the book are 7, 1 and 6, in this order.
fn first_wrong(alloc: Global, book: Book, rows: &[Row]) -> Result<Option<usize>, NoMemory> {
    let (off, barred, down) = book;
    let book = Sight { off, barred, down };
    let mut clocks = ClockTree::load(alloc, &[NodeId(7), NodeId(1), NodeId(6)], &book)?;
    for (k, row) in rows.iter().enumerate() {
        let answer = play(&mut clocks, row);
        if answer != row.3 || changed(&mut clocks) != row.4 {
            return Ok(Some(k));
        }
    }
    Ok(None)
}

/// A book without exceptions.
const WELL: Book = (0, 0, 0);

static ONE_CLOCK: [Row; 11] = [
    (WELL, 1, [36, 5, 0], Some((0, 0)), [5, 0, 0]),
    (WELL, 1, [38, 5, 0], Some((0, 1)), [0; 3]),
    (WELL, 1, [39, 5, 64], Some((15, 0)), [0; 3]),
    (WELL, 1, [36, 4, 0], Some((2003, 0)), [0; 3]),
    (WELL, 1, [38, 4, 0], Some((0, 1)), [0; 3]),
    (WELL, 1, [36, 5, 0], Some((0, 0)), [0; 3]),
    (WELL, 1, [37, 6, 0], Some((0, 0)), [0; 3]),
    (WELL, 1, [37, 5, 0], Some((0, 0)), [5, 0, 0]),
    (WELL, 1, [38, 5, 0], Some((0, 0)), [0; 3]),
    (WELL, 1, [41, 5, 0], None, [0; 3]),
    (WELL, 1, [35, 5, 0], None, [0; 3]),
];

#[test]
fn a_clock_runs_while_it_is_enabled(rt: HostRuntime) -> Result<(), Fail> {
    all_right(&rt, first_wrong(rt.alloc(), WELL, &ONE_CLOCK)?);
    Ok(())
}

/// Clock 15 comes from 14, that from 5, and 5 from the root of slave 54.
static LEVELS: [Row; 10] = [
    (WELL, 1, [36, 15, 0], Some((0, 0)), [0; 3]),
    (WELL, 1, [36, 14, 0], Some((0, 0)), [0; 3]),
    (WELL, 1, [36, 5, 0], Some((0, 0)), [5, 14, 15]),
    ((0, 0, 54), 1, [21, 0, 0], None, [5, 14, 15]),
    (WELL, 1, [3, 54, 0], None, [5, 14, 15]),
    (WELL, 1, [37, 14, 0], Some((0, 0)), [14, 15, 0]),
    (WELL, 1, [43, 15, 1], Some((0, 0)), [15, 0, 0]),
    ((0, 0, 53), 1, [0, 0, 0], None, [0; 3]),
    ((0, 0, 53), 1, [43, 5, 1], Some((0, 0)), [5, 0, 0]),
    (WELL, 1, [0, 0, 0], None, [5, 0, 0]),
];

#[test]
fn a_root_that_ceases_takes_the_clocks_below_it(rt: HostRuntime) -> Result<(), Fail> {
    all_right(&rt, first_wrong(rt.alloc(), WELL, &LEVELS)?);
    Ok(())
}

/// Each check fails alone, and before each later one. In some books nobody may use slave 40, that of clock 9.
static CHECKS: [Row; 34] = [
    // no such clock, or a root
    (WELL, 1, [36, 16, 0], Some((2003, 0)), [0; 3]),
    (WELL, 1, [37, 0, 0], Some((2003, 0)), [0; 3]),
    (WELL, 1, [38, 16, 0], Some((2003, 0)), [0; 3]),
    (WELL, 1, [38, 0xFFFF_FFFF, 0], Some((2003, 0)), [0; 3]),
    (WELL, 1, [39, 3, 5], Some((2003, 0)), [0; 3]),
    (WELL, 1, [39, 3, 64], Some((2003, 0)), [0; 3]),
    (WELL, 1, [40, 4, 0], Some((2003, 0)), [0; 3]),
    (WELL, 1, [43, 1, 9], Some((2003, 0)), [0; 3]),
    (WELL, 1, [44, 2, 0], Some((2003, 0)), [0; 3]),
    // an argument out of range
    (WELL, 1, [39, 9, 0], Some((15, 0)), [0; 3]),
    (WELL, 1, [39, 9, 63], Some((0, 0)), [0; 3]),
    (WELL, 1, [40, 9, 0], Some((0, 63)), [0; 3]),
    ((0, 40, 0), 1, [39, 9, 64], Some((15, 0)), [0; 3]),
    ((0, 40, 0), 1, [43, 9, 2], Some((15, 0)), [0; 3]),
    (WELL, 1, [43, 7, 3], Some((15, 0)), [0; 3]),
    (WELL, 1, [43, 7, 2], Some((0, 0)), [0; 3]),
    (WELL, 1, [44, 7, 0], Some((0, 2)), [0; 3]),
    // the caller may not use the slave
    ((0, 40, 0), 1, [36, 9, 0], Some((2002, 0)), [0; 3]),
    ((0, 40, 0), 1, [37, 9, 0], Some((2002, 0)), [0; 3]),
    ((0, 40, 0), 1, [39, 9, 1], Some((2002, 0)), [0; 3]),
    ((0, 40, 0), 1, [43, 9, 1], Some((2002, 0)), [0; 3]),
    ((0, 40, 0), 1, [38, 9, 0], Some((0, 0)), [0; 3]),
    ((0, 40, 0), 1, [40, 9, 0], Some((0, 63)), [0; 3]),
    ((0, 40, 0), 1, [44, 9, 0], Some((0, 0)), [0; 3]),
    (WELL, 7, [36, 9, 0], Some((0, 0)), [9, 0, 0]),
    ((0, 40, 0), 1, [39, 9, 1], Some((2002, 0)), [9, 0, 0]),
    // another master enables the clock
    (WELL, 6, [36, 8, 0], Some((0, 0)), [8, 0, 0]),
    (WELL, 7, [36, 8, 0], Some((0, 0)), [0; 3]),
    (WELL, 1, [39, 8, 5], Some((2007, 7)), [0; 3]),
    (WELL, 7, [43, 8, 1], Some((2007, 6)), [0; 3]),
    (WELL, 6, [37, 8, 0], Some((0, 0)), [0; 3]),
    (WELL, 7, [39, 8, 5], Some((0, 0)), [0; 3]),
    (WELL, 6, [40, 8, 0], Some((0, 5)), [0; 3]),
    (WELL, 1, [44, 8, 0], Some((0, 0)), [0; 3]),
];

#[test]
fn the_first_check_that_fails_is_answered(rt: HostRuntime) -> Result<(), Fail> {
    all_right(&rt, first_wrong(rt.alloc(), WELL, &CHECKS)?);
    Ok(())
}

/// Enables are dropped if the master is off, or may not use the slave any more. Dividers and indexes stay.
static DROPS: [Row; 17] = [
    (WELL, 6, [36, 10, 0], Some((0, 0)), [10, 0, 0]),
    (WELL, 7, [36, 10, 0], Some((0, 0)), [0; 3]),
    ((6, 0, 0), 7, [0, 0, 0], None, [0; 3]),
    ((7, 0, 0), 1, [0, 0, 0], None, [10, 0, 0]),
    (WELL, 1, [38, 10, 0], Some((0, 0)), [0; 3]),
    (WELL, 1, [39, 10, 7], Some((0, 0)), [0; 3]),
    (WELL, 1, [36, 10, 0], Some((0, 0)), [10, 0, 0]),
    (WELL, 1, [36, 13, 0], Some((0, 0)), [13, 0, 0]),
    ((0, 29, 0), 1, [0, 0, 0], None, [10, 0, 0]),
    (WELL, 1, [0, 0, 0], None, [0; 3]),
    (WELL, 1, [43, 13, 1], Some((0, 0)), [0; 3]),
    ((1, 0, 0), 1, [0, 0, 0], None, [13, 0, 0]),
    (WELL, 6, [40, 10, 0], Some((0, 7)), [0; 3]),
    (WELL, 6, [44, 13, 0], Some((0, 1)), [0; 3]),
    // a master that was off within the step, but isn't after it, keeps its enables
    (WELL, 1, [36, 13, 0], Some((0, 0)), [13, 0, 0]),
    (WELL, 1, [12, 1, 0], None, [0; 3]),
    ((0, 0, 51), 1, [0, 0, 0], None, [13, 0, 0]),
];

#[test]
fn enables_end_with_their_masters_and_their_permissions(rt: HostRuntime) -> Result<(), Fail> {
    all_right(&rt, first_wrong(rt.alloc(), WELL, &DROPS)?);
    Ok(())
}

/// A root whose slave isn't on, as if the chip lacked it.
static WITHOUT_ROOT: [Row; 5] = [
    ((0, 0, 54), 1, [36, 5, 0], Some((0, 0)), [0; 3]),
    ((0, 0, 54), 1, [38, 4, 0], Some((0, 0)), [0; 3]),
    ((0, 0, 54), 1, [38, 3, 0], Some((0, 1)), [0; 3]),
    ((0, 0, 54), 1, [43, 5, 1], Some((0, 0)), [5, 0, 0]),
    ((0, 0, 53), 1, [0, 0, 0], None, [5, 0, 0]),
];

#[test]
fn a_root_without_its_slave_never_runs(rt: HostRuntime) -> Result<(), Fail> {
    all_right(&rt, first_wrong(rt.alloc(), (0, 0, 54), &WITHOUT_ROOT)?);
    Ok(())
}
