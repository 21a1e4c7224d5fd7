//! The values of the reset lines.

use crate::rows::{all_right, same};
use pm_resets::Resets;
use std::test::Fail;

/// A row: a line that is put, whether it is asserted, and the values of all five lines after it.
static PUTS: [(usize, bool, [u32; 5]); 9] = [
    (0, true, [1, 0, 0, 0, 0]),
    (4, true, [1, 0, 0, 0, 1]),
    (4, true, [1, 0, 0, 0, 1]),
    (2, false, [1, 0, 0, 0, 1]),
    (0, false, [0, 0, 0, 0, 1]),
    (5, true, [0, 0, 0, 0, 1]),
    (1, true, [0, 1, 0, 0, 1]),
    (4, false, [0, 1, 0, 0, 0]),
    (usize::MAX, true, [0, 1, 0, 0, 0]),
];

fn values(resets: &Resets) -> [u32; 5] {
    [
        resets.value(0),
        resets.value(1),
        resets.value(2),
        resets.value(3),
        resets.value(4),
    ]
}

/// The index of the first row after which a line has another value.
fn wrong_put(resets: &mut Resets) -> Option<usize> {
    for (place, (line, asserted, expected)) in PUTS.iter().enumerate() {
        resets.put(*line, *asserted);
        if values(resets) != *expected {
            return Some(place);
        }
    }
    None
}

#[test]
fn a_line_has_the_value_that_was_put_last(rt: HostRuntime) -> Result<(), Fail> {
    let mut resets = Resets::load(rt.alloc(), 5)?;
    same(&rt, values(&resets), [0; 5]);
    all_right(&rt, wrong_put(&mut resets));
    Ok(())
}

#[test]
fn all_lines_are_released_by_a_restart(rt: HostRuntime) -> Result<(), Fail> {
    let mut resets = Resets::load(rt.alloc(), 5)?;
    resets.put(1, true);
    resets.put(4, true);
    resets.restart();
    same(&rt, values(&resets), [0; 5]);
    resets.put(3, true);
    same(&rt, values(&resets), [0, 0, 0, 1, 0]);
    Ok(())
}

#[test]
fn a_line_that_is_not_there_is_released(rt: HostRuntime) -> Result<(), Fail> {
    let mut resets = Resets::load(rt.alloc(), 0)?;
    resets.put(0, true);
    same(&rt, (resets.value(0), resets.value(usize::MAX)), (0, 0));
    Ok(())
}
