//! The counts of a forest in which no processor or slave needs its power node.

ghost use Rattle.std.specs.Prelude.{◌≡◌, ◌+◌, ◌-◌, ◌<◌, ◌^◌, IfSome, length, replicate, slice_index, slice_set, false, true};
ghost use Rattle.pm_power.specs.Forest.{AreAfterParents};
ghost use Rattle.pm_power.specs.Uses.{AreSettledFrom, used_by};

use crate::climb::{count, is_up, power_at};
use pm_base::Steps;
use pm_cells::Counts;
use pm_topology::PowerDef;
use std::sync::ledger::Ledger;

/// A power node goes up, and is counted at its parent.
fn turn_up<L: Ledger>(
    counts: &mut Counts,
    ups: &mut [bool],
    w: usize,
    parent: Option<usize>,
    steps: &mut Steps<L>,
)
    requires place { w < length ups.old }
    requires parent { IfSome parent (λ v. v < length counts.old) }
    requires few { IfSome parent (λ v. slice_index counts.old v < 2 ^ 32 - 1) }
    ensures ups { ups.new ≡ slice_set ups.old w true }
    ensures counts { counts.new ≡ used_by parent counts.old }
{
    ups[w] = true;
    if let Some(v) = parent {
        count(counts, v, true, steps);
    }
}

/// Finds whether the power node at a place is up, where it is known of all later ones.
fn settle_at<L: Ledger>(
    powers: &[PowerDef],
    counts: &mut Counts,
    ups: &mut [bool],
    w: usize,
    steps: &mut Steps<L>,
)
    requires place { w < length powers.now }
    requires after { AreAfterParents powers.now }
    requires few { length powers.now < 2 ^ 31 }
    requires later { AreSettledFrom (w + 1) powers.now counts.old ups.old }
    ensures { AreSettledFrom w powers.now counts.new ups.new }
{
    let power = power_at(powers, w);
    if is_up(power, counts.value(w)) {
        turn_up(counts, ups, w, power.parent, steps);
    }
}

/// Finds which power nodes are up by the held ones alone, from the last to the first: children stand
/// after parents.
pub(crate) fn settle<L: Ledger>(
    powers: &[PowerDef],
    counts: &mut Counts,
    ups: &mut [bool],
    steps: &mut Steps<L>,
)
    requires after { AreAfterParents powers.now }
    requires few { length powers.now < 2 ^ 31 }
    requires counts { counts.old ≡ replicate (length powers.now) 0 }
    requires ups { ups.old ≡ replicate (length powers.now) false }
    ensures { AreSettledFrom 0 powers.now counts.new ups.new }
{
    let mut w = powers.len();
    while w > 0 {
        w -= 1;
        settle_at(powers, counts, ups, w, steps);
    }
}
