//! The row of each permitted pair: at load, and after masters were started and made requests.

use crate::book::{SHARED_AND_OWN, TWO_MASTERS};
use crate::rows::all_right;
use pm_base::Caps;
use pm_rows::Row;
use std::test::Fail;
use test_books::{RowCase, UNUSED, desk_of, settled, wrong_answer, wrong_row};

/// A row that is used, one that isn't, and rows that aren't there.
static ROWS: [RowCase; 4] = [
    (
        7,
        11,
        Some(Row {
            used: true,
            now: Caps(2),
            next: Caps(2),
            ..UNUSED
        }),
    ),
    (1, 33, Some(UNUSED)),
    (7, 33, None),
    (8, 11, None),
];

#[test]
fn each_permitted_pair_has_a_row(rt: HostRuntime) -> Result<(), Fail> {
    let mut desk = settled(rt.alloc(), &SHARED_AND_OWN)?;
    all_right(&rt, wrong_answer(&mut desk, &TWO_MASTERS));
    all_right(&rt, wrong_row(&desk.book, &ROWS));
    Ok(())
}

/// Masters 1, 7 and 8. Slave 12 can't be shared. Preallocations of slave 11 are in a group of 1, in one of 7, neither
/// of which is in use, and in one of all three. One of slave 12, with a capability that it lacks, is in the last
/// group.
static PREALLOCATED: [u32; 52] = [
    2, 3, 1, 0x101, 3, 1, 0x1, 100, 0, 0, 7, 0x100, 100, 0, 0, 8, 0x200, 100, 0, 0, 0x102, 2, 11,
    1, 0x301, 12, 0, 0x301, 0x103, 3, 0x1, 1, 11, 0, 1, 2, 0x100, 1, 11, 0, 1, 2, 0x301, 2, 11, 2,
    1, 1, 12, 2, 7, 7,
];

/// Rows at load: the first preallocation counts, even if it isn't in use.
static LOADED_ROWS: [RowCase; 7] = [
    (
        1,
        11,
        Some(Row {
            preset: Caps(2),
            hold: true,
            ..UNUSED
        }),
    ),
    (
        1,
        12,
        Some(Row {
            used: true,
            now: Caps(3),
            next: Caps(3),
            preset: Caps(3),
            hold: true,
            ..UNUSED
        }),
    ),
    (
        7,
        11,
        Some(Row {
            preset: Caps(2),
            ..UNUSED
        }),
    ),
    (
        7,
        12,
        Some(Row {
            preset: Caps(3),
            ..UNUSED
        }),
    ),
    (
        8,
        11,
        Some(Row {
            preset: Caps(1),
            ..UNUSED
        }),
    ),
    (
        8,
        12,
        Some(Row {
            preset: Caps(3),
            ..UNUSED
        }),
    ),
    (6, 11, None),
];

/// Rows after master 7 was started: its preset of slave 12 isn't applied, since master 1 uses the slave.
static STARTED_ROWS: [RowCase; 3] = [
    (
        1,
        11,
        Some(Row {
            preset: Caps(2),
            ..UNUSED
        }),
    ),
    (
        7,
        11,
        Some(Row {
            used: true,
            now: Caps(2),
            next: Caps(2),
            preset: Caps(2),
            ..UNUSED
        }),
    ),
    (
        7,
        12,
        Some(Row {
            preset: Caps(3),
            ..UNUSED
        }),
    ),
];

#[test]
fn the_first_preallocation_of_a_pair_counts(rt: HostRuntime) -> Result<(), Fail> {
    let desk = desk_of(rt.alloc(), &PREALLOCATED)?;
    all_right(&rt, wrong_row(&desk.book, &LOADED_ROWS));
    drop(desk);
    let desk = settled(rt.alloc(), &PREALLOCATED)?;
    all_right(&rt, wrong_row(&desk.book, &STARTED_ROWS));
    Ok(())
}
