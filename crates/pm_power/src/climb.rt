//! One need is set, and the counts of the power nodes above follow it.

ghost use Rattle.std.specs.Prelude.{◌≡◌, ◌+◌, ◌-◌, ◌<◌, ◌^◌, ◌||◌, ◌⊎◌, IsTrue, length, slice_get, slice_index, nat_lt, Some, None, true};
ghost use Rattle.pm_power.specs.Forest.{AreAfterParents};
ghost use Rattle.pm_power.specs.Uses.{AreCounted, AreWithin, WasPut, counted_by};

use crate::child::{Child, child_at};
use pm_base::Steps;
use pm_cells::Counts;
use pm_topology::PowerDef;
use std::sync::ledger::Ledger;

/// The power node at a place.
pub(crate) fn power_at(powers: &[PowerDef], w: usize) -> PowerDef
    requires { w < length powers.now }
    ensures { slice_get powers.now w ≡ Some result }
{
    powers[w]
}

/// Whether a power node with so many uses is up.
pub(crate) fn is_up(power: PowerDef, count: u32) -> bool
    ensures { result ≡ (power.held || nat_lt 0 count) }
{
    power.held || count > 0
}

/// Counts one use more or less of the power node at a place.
pub(crate) fn count<L: Ledger>(counts: &mut Counts, w: usize, on: bool, steps: &mut Steps<L>)
    requires place { w < length counts.old }
    requires few { slice_index counts.old w < 2 ^ 32 - 1 }
    requires some { IsTrue on ⊎ (0 < slice_index counts.old w) }
    ensures count { counts.new ≡ counted_by on w counts.old }
    ensures steps { steps.new ≡ steps.old + 1 }
{
    if on {
        counts.add(w, steps);
    } else {
        counts.sub(w, steps);
    }
}

/// Sets whether the child at a place needs its power node, and counts it there; if that power node
/// goes up or down, it is counted at its own parent in turn. So at most one count a level changes, and a
/// power node that stays as it is ends the climb.
pub(crate) fn put_need<L: Ledger>(
    powers: &[PowerDef],
    children: &mut [Child],
    counts: &mut Counts,
    ups: &mut [bool],
    k: usize,
    on: bool,
    steps: &mut Steps<L>,
)
    requires place { k < length children.old }
    requires counted { AreCounted children.old powers.now counts.old ups.old true None }
    requires within { AreWithin children.old powers.now }
    requires after { AreAfterParents powers.now }
    ensures children { WasPut k on children.old children.new powers.now steps.old steps.new }
    ensures counted { AreCounted children.new powers.now counts.new ups.new true None }
    ensures within { AreWithin children.new powers.now }
{
    let child = child_at(children, k);
    if child.needs == on {
        return;
    }
    children[k] = Child { needs: on, ..child };
    let mut at = Some(child.parent);
    'levels: while let Some(w) = at {
        count(counts, w, on, steps);
        let power = power_at(powers, w);
        let up = is_up(power, counts.value(w));
        if up == ups[w] {
            at = None;
        } else {
            ups[w] = up;
            at = power.parent;
        }
    }
}
