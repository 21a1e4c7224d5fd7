//! Two books side by side, one of them without the messages of a master: the outputs of each step in both.

ghost use Rattle.test_two_runs.specs.Sides.{AreSides};

use crate::rows::same;
use crate::sides::{configured_sides, sides_of, step_line, wait_alone, writes};
use pm_base::{NodeId, Unit};
use pm_core::Book;
use std::alloc::Global;
use std::test::Fail;
use test_books::Desk;

/// A row: a script line by its number; the outputs of its step in the book with all messages, and in the other book.
pub(crate) type Turn = (u32, &'static str, &'static str, &'static str);

/// Without the messages of master 8, the request of 1 to suspend it is accepted and times out, and 1 is told that
/// when it wakes; with them, the request is refused. Node 8, of which 1 is told, is within reach as the master's.
pub(crate) static ASKED: [Turn; 9] = [
    (1, "ipi 1 21", "1 reply 1 0 0 0 0\n", "1 reply 1 0 0 0 0\n"),
    (2, "boot 108 0", "2 run 108 0\n", "2 run 108 0\n"),
    // master 8 asks itself
    (3, "ipi 8 6 8 3 0 0", "3 call 8 30 201 0 0 100\n", ""),
    // refused, since a request is pending; and accepted
    (
        4,
        "ipi 1 6 8 3 0 0",
        "4 call 1 31 8 2004 0 0\n",
        "4 call 8 30 201 0 0 100\n",
    ),
    (
        5,
        "ipi 1 11 2 46 1",
        "5 reply 1 0 0 0 0\n",
        "5 reply 1 0 0 0 0\n",
    ),
    (
        6,
        "ipi 1 7 2 0 0 0 0",
        "6 reply 1 0 0 0 0\n",
        "6 reply 1 0 0 0 0\n",
    ),
    (7, "wfi 2", "", ""),
    // master 8 is told of its own request; master 1, which is asleep, is told nothing yet
    (8, "tick 100", "8 call 8 31 8 2006 0 0\n", ""),
    (
        9,
        "irq 46",
        "9 run 2 0\n",
        "9 run 2 0\n9 call 1 31 8 2006 0 0\n",
    ),
];

/// Both books tell master 1 the same of slave 46, which is beyond: that nobody uses it any more.
static WATCHED: [Turn; 14] = [
    (1, "ipi 1 21", "1 reply 1 0 0 0 0\n", "1 reply 1 0 0 0 0\n"),
    (2, "boot 108 0", "2 run 108 0\n", "2 run 108 0\n"),
    (
        3,
        "ipi 1 5 46 2 0 1",
        "3 reply 1 0 0 0 0\n",
        "3 reply 1 0 0 0 0\n",
    ),
    (
        4,
        "ipi 1 13 46 1 0 2",
        "4 reply 1 0 0 0 0\n",
        "4 reply 1 0 0 0 0\n",
    ),
    (5, "ipi 8 6 8 3 0 0", "5 call 8 30 201 0 0 100\n", ""),
    (
        6,
        "ipi 1 14 46",
        "6 call 1 32 46 2 0 0\n6 reply 1 0 0 0 0\n",
        "6 call 1 32 46 2 0 0\n6 reply 1 0 0 0 0\n",
    ),
    // the notices about node 8 differ
    (
        7,
        "ipi 1 6 8 3 0 0",
        "7 call 1 31 8 2004 0 0\n",
        "7 call 8 30 201 0 0 100\n",
    ),
    (8, "ipi 8 7 108 0 0 0 0", "8 reply 8 0 0 0 0\n", ""),
    (
        9,
        "ipi 1 13 46 1 0 2",
        "9 reply 1 0 0 0 0\n",
        "9 reply 1 0 0 0 0\n",
    ),
    // master 8 ends its own request by its sleep
    (10, "wfi 108", "", ""),
    (
        11,
        "ipi 1 14 46",
        "11 call 1 32 46 2 0 0\n11 reply 1 0 0 0 0\n",
        "11 call 1 32 46 2 0 0\n11 reply 1 0 0 0 0\n",
    ),
    // a book has no boxes
    (12, "post 8 7 108 0 0 0 0", "", ""),
    (13, "post 1 13 46 1 0 2", "", ""),
    (14, "serve", "", ""),
];

/// The nodes beyond the reach of master 8, with the power node of its number.
const BEYOND: &[u32] = &[2, 8, 46, 107];

/// Whether a node has the same value and operating point in both books.
fn is_alike(loud: &Book, quiet: &Book, number: u32) -> bool {
    let node = NodeId(number);
    let unit = Unit::Node(node);
    (loud.value(unit), loud.point(node)) == (quiet.value(unit), quiet.point(node))
}

/// Whether these nodes are alike in both books.
fn are_alike(loud: &Book, quiet: &Book, nodes: &[u32]) -> bool {
    for number in nodes {
        if !is_alike(loud, quiet, *number) {
            return false;
        }
    }
    true
}

/// Whether a line has its outputs in each book, and all that is beyond is alike after it.
fn is_right(
    alloc: Global,
    loud: &mut Desk,
    quiet: &mut Desk,
    m: NodeId,
    turn: &Turn,
    beyond: &[u32],
) -> Result<bool, Fail>
    requires { AreSides m loud.old.book quiet.old.book }
    ensures { AreSides m loud.new.book quiet.new.book }
{
    let (number, line, of_loud, of_quiet) = turn;
    step_line(loud, quiet, m, line)?;
    let is_told = writes(alloc, *number, &loud.out, of_loud)?
        && writes(alloc, *number, &quiet.out, of_quiet)?;
    Ok(is_told && are_alike(&loud.book, &quiet.book, beyond))
}

/// The first of these lines that has other outputs, or after which not all that is beyond is alike.
fn wrong_turn(
    alloc: Global,
    loud: &mut Desk,
    quiet: &mut Desk,
    m: NodeId,
    turns: &[Turn],
    beyond: &[u32],
) -> Result<Option<u32>, Fail>
    requires { AreSides m loud.old.book quiet.old.book }
    ensures { AreSides m loud.new.book quiet.new.book }
{
    for turn in turns {
        if !is_right(alloc, loud, quiet, m, turn, beyond)? {
            return Ok(Some(turn.0));
        }
    }
    Ok(None)
}

/// The first of these lines that has other outputs; and whether processor 108 of master 8, which is within, is alike
/// in both books after them.
fn compared(alloc: Global, turns: &[Turn]) -> Result<(Option<u32>, bool), Fail> {
    let m = NodeId(8);
    let mut sides = sides_of(alloc, m)?;
    let wrong = wrong_turn(alloc, &mut sides.loud, &mut sides.quiet, m, turns, BEYOND);
    let alike = is_alike(&sides.loud.book, &sides.quiet.book, 108);
    drop(sides);
    Ok((wrong?, alike))
}

#[test]
fn what_is_beyond_is_told_the_same(rt: HostRuntime) -> Result<(), Fail> {
    same(&rt, compared(rt.alloc(), &ASKED)?, (None, true));
    same(&rt, compared(rt.alloc(), &WATCHED)?, (None, false));
    Ok(())
}

/// Master 8 starts its suspend in one book only.
static SUSPENDED: [Turn; 3] = [
    (1, "ipi 1 21", "1 reply 1 0 0 0 0\n", "1 reply 1 0 0 0 0\n"),
    (2, "boot 108 0", "2 run 108 0\n", "2 run 108 0\n"),
    (3, "ipi 8 7 108 0 0 0 0", "3 reply 8 0 0 0 0\n", ""),
];

/// The first of these lines that has other outputs. After them a processor of master 8 waits in one book only:
/// whether it could wait so, and whether all that is beyond the reach of 8, and that processor, are alike in both
/// books.
fn waited(alloc: Global, proc: u32) -> Result<(Option<u32>, bool, bool, bool), Fail> {
    let m = NodeId(8);
    let mut sides = sides_of(alloc, m)?;
    let wrong = wrong_turn(
        alloc,
        &mut sides.loud,
        &mut sides.quiet,
        m,
        &SUSPENDED,
        BEYOND,
    );
    let waits = wait_alone(&mut sides.loud, &mut sides.quiet, m, NodeId(proc));
    let beyond = are_alike(&sides.loud.book, &sides.quiet.book, BEYOND);
    let alike = is_alike(&sides.loud.book, &sides.quiet.book, proc);
    drop(sides);
    Ok((wrong?, waits, beyond, alike))
}

#[test]
fn the_wait_of_a_processor_stays_within(rt: HostRuntime) -> Result<(), Fail> {
    let own = waited(rt.alloc(), 108)?;
    same(&rt, own, (None, true, true, false));
    let other = waited(rt.alloc(), 2)?;
    same(&rt, other, (None, false, true, true));
    Ok(())
}

/// Master 1, which is beyond the reach of 8, puts the attached object in force in both books. Slave 46, which 8 may
/// use by that object, is within the reach of 8 from the load on.
static ENFORCED: [Turn; 6] = [
    (1, "boot 108 0", "1 run 108 0\n", "1 run 108 0\n"),
    (2, "ipi 8 13 46 1 0 2", "2 reply 8 2002 0 0 0\n", ""),
    (
        3,
        "ipi 1 2 4096",
        "3 reply 1 0 0 0 0\n",
        "3 reply 1 0 0 0 0\n",
    ),
    (4, "ipi 8 13 46 1 0 2", "4 reply 8 0 0 0 0\n", ""),
    (
        5,
        "ipi 1 13 46 1 0 2",
        "5 reply 1 2002 0 0 0\n",
        "5 reply 1 2002 0 0 0\n",
    ),
    (
        6,
        "ipi 1 2 4096",
        "6 reply 1 2002 0 0 0\n",
        "6 reply 1 2002 0 0 0\n",
    ),
];

/// Without the messages of master 1 no object is put in force. A master that may set the configuration reaches all
/// masters, so that all differences are within its reach.
static HIDDEN: [Turn; 5] = [
    (1, "boot 108 0", "1 run 108 0\n", "1 run 108 0\n"),
    (2, "ipi 1 13 46 1 0 2", "2 reply 1 0 0 0 0\n", ""),
    (3, "ipi 1 2 4096", "3 reply 1 0 0 0 0\n", ""),
    (
        4,
        "ipi 8 13 46 1 0 2",
        "4 reply 8 0 0 0 0\n",
        "4 reply 8 2002 0 0 0\n",
    ),
    (5, "ipi 1 2 4096", "5 reply 1 2002 0 0 0\n", ""),
];

/// The first of these lines, without this master's messages, that has other outputs, or after which not all that is
/// beyond is alike; and the users of slave 46 in each book after them, as master 8 is told.
fn configured(
    alloc: Global,
    m: u32,
    turns: &[Turn],
    beyond: &[u32],
) -> Result<(Option<u32>, Option<u32>, Option<u32>), Fail> {
    let m = NodeId(m);
    let mut sides = configured_sides(alloc, m)?;
    let wrong = wrong_turn(alloc, &mut sides.loud, &mut sides.quiet, m, turns, beyond);
    let loud = sides.loud.book.usage(NodeId(8), NodeId(46));
    let quiet = sides.quiet.book.usage(NodeId(8), NodeId(46));
    drop(sides);
    Ok((wrong?, loud, quiet))
}

#[test]
fn an_object_is_put_in_force_in_both_books_or_in_one(rt: HostRuntime) -> Result<(), Fail> {
    let both = configured(rt.alloc(), 8, &ENFORCED, &[2, 8, 107])?;
    same(&rt, both, (None, Some(1), Some(0)));
    let one = configured(rt.alloc(), 1, &HIDDEN, &[8, 107])?;
    same(&rt, one, (None, Some(1), Some(0)));
    Ok(())
}
