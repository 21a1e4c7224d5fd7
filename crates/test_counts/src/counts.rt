//! Counts, whose changes are counted.

ghost use Rattle.std.specs.Prelude.{◌≡◌, ◌+◌, ◌<◌, ◌∷◌, [], replicate};

use crate::rows::all_right;
use pm_base::Steps;
use pm_cells::Counts;
use std::marker::Brand;
use std::sync::ledger::{Blank, Ledger};
use std::test::Fail;

/// A row: the index of a count, whether one is added or taken away, and all counts after it.
static CHANGES: [(usize, bool, [u32; 3]); 10] = [
    (1, true, [0, 1, 0]),
    (1, true, [0, 2, 0]),
    (0, true, [1, 2, 0]),
    (1, false, [1, 1, 0]),
    (2, true, [1, 1, 1]),
    (0, false, [0, 1, 1]),
    (0, true, [1, 1, 1]),
    (1, false, [1, 0, 1]),
    (0, false, [0, 0, 1]),
    (2, false, [0, 0, 0]),
];

/// Adds one to a count or takes one away, if the count has room for it.
fn change<L: Ledger>(counts: &mut Counts, place: usize, on: bool, steps: &mut Steps<L>) {
    if place < counts.len() {
        if on && counts.value(place) < u32::MAX {
            counts.add(place, steps);
        } else if !on && counts.value(place) > 0 {
            counts.sub(place, steps);
        }
    }
}

/// Whether the counts are exactly these.
fn are(counts: &Counts, wanted: [u32; 3]) -> bool {
    counts.len() == 3
        && counts.value(0) == wanted[0]
        && counts.value(1) == wanted[1]
        && counts.value(2) == wanted[2]
}

/// The index of the first change after which the counts are others.
fn wrong_change<L: Ledger>(counts: &mut Counts, blank: Blank) -> Option<usize>
    requires name { blank.name ≡ L.name }
    requires parts { blank.parts ≡ L.parts }
    requires some { 0 < blank.parts }
{
    let mut steps = Steps::<L>::new(blank);
    for (row, (place, on, wanted)) in CHANGES.iter().enumerate() {
        change(counts, *place, *on, &mut steps);
        if !are(counts, *wanted) {
            return Some(row);
        }
    }
    None
}

#[test]
fn a_count_follows_what_is_added_and_taken_away(rt: HostRuntime) -> Result<(), Fail> {
    let mut counts = Counts::load(rt.alloc(), 3)?;
    assert!(rt; are(&counts, [0, 0, 0]));
    let wrong = wrong_change::<Brand>(&mut counts, Blank::new(1));
    all_right(&rt, wrong);
    Ok(())
}

/// Adds two to the middle one of three counts, and takes one away again: three steps.
fn up_and_down<L: Ledger>(counts: &mut Counts, steps: &mut Steps<L>)
    requires { counts.old ≡ replicate 3 0 }
    ensures counts { counts.new ≡ 0 ∷ 1 ∷ 0 ∷ [] }
    ensures steps { steps.new ≡ steps.old + 3 }
{
    counts.add(1, steps);
    counts.add(1, steps);
    counts.sub(1, steps);
}

/// Does `up_and_down` with a counter of its own.
fn turned<L: Ledger>(counts: &mut Counts, blank: Blank)
    requires counts { counts.old ≡ replicate 3 0 }
    requires name { blank.name ≡ L.name }
    requires parts { blank.parts ≡ L.parts }
    requires some { 0 < blank.parts }
{
    up_and_down(counts, &mut Steps::<L>::new(blank));
}

#[test]
fn each_change_counts_one_step(rt: HostRuntime) -> Result<(), Fail> {
    let mut counts = Counts::load(rt.alloc(), 3)?;
    turned::<Brand>(&mut counts, Blank::new(1));
    assert!(rt; are(&counts, [0, 1, 0]));
    Ok(())
}
