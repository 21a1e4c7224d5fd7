//! A calm change of a master's mode, which leaves the rows that rest.

ghost use Rattle.std.specs.Prelude.{◌≡◌, ◌<◌, length, map, slice_set, true};
ghost use Rattle.pm_rows.specs.declared.passes.Pass.TheVariants.{Shift};
ghost use Rattle.pm_rows.specs.Modes.{mode_in};
ghost use Rattle.pm_rows.specs.Shift.{is_calm};
ghost use Rattle.pm_rows.specs.Counted.{AreTallied, counted};
ghost use Rattle.pm_rows.specs.Passes.{passed};
ghost use Rattle.pm_rows.specs.Passing.{MayPutAt, PutsAt, Turns, Visits};

use crate::passes::Pass;
use crate::passing::{next_for, pass_over};
use crate::shift::{is_calm, turned_row};
use crate::table::Table;
use crate::wanted::arming_differs;
use pm_base::{Mode, Steps};
use std::sync::ledger::Ledger;

/// Puts the row at a place as the calm change of its master's mode asks, and counts it in the mode that its master has
/// afterwards. A row that rests is left.
#[inline(always)]
fn turn_at<L: Ledger>(
    table: &mut Table,
    k: usize,
    known: &[Mode],
    m: usize,
    from: Mode,
    to: Mode,
    steps: &mut Steps<L>,
)
    requires calm { is_calm from to ≡ true }
    requires within { k < length table.old.entries }
    requires ready { MayPutAt known.now k table.old }
    requires turns { Turns known.now m from to k table.old }
    ensures { PutsAt (Shift m from to) known.now k table.old steps.old table.new steps.new }
{
    let entry = table.entry(k, steps);
    if !entry.rests(arming_differs(from, to)) {
        let row = turned_row(from, to, entry.row);
        table.put_alike(k, entry, from, row, to, steps);
    }
}

/// Puts the row at a place so, if it is the master's.
#[inline(always)]
fn turn_own<L: Ledger>(
    table: &mut Table,
    k: usize,
    known: &[Mode],
    m: usize,
    from: Mode,
    to: Mode,
    steps: &mut Steps<L>,
)
    requires calm { is_calm from to ≡ true }
    requires there { m < length known.now }
    requires mode { mode_in m known.now ≡ from }
    requires within { k < length table.old.entries }
    requires ready { MayPutAt known.now k table.old }
    ensures { Visits (Shift m from to) known.now k table.old steps.old table.new steps.new }
{
    let seed = table.seed(k);
    if seed.master == m {
        turn_at(table, k, known, m, from, to, steps);
    }
}

/// Changes the rows of a master whose mode changes calmly, one after another, and counts them in that mode.
#[inline(always)]
fn turn_over<L: Ledger>(
    table: &mut Table,
    known: &[Mode],
    m: usize,
    from: Mode,
    to: Mode,
    steps: &mut Steps<L>,
)
    requires tallied { AreTallied (map (counted known.now) table.old.entries) table.old.tally }
    requires calm { is_calm from to ≡ true }
    requires there { m < length known.now }
    requires mode { mode_in m known.now ≡ from }
    ensures rows { table.new.entries ≡ map (passed (Shift m from to) table.old.entries) table.old.entries }
    ensures counted { AreTallied (map (counted (slice_set known.now m to)) table.new.entries) table.new.tally }
    ensures slaves { table.new.slaves ≡ table.old.slaves }
    ensures room { table.new.room ≡ table.old.room }
{
    let end = table.len();
    let mut k = next_for(table, Pass::Shift(m, from, to), 0, end);
    'rows: while k < end {
        turn_own(table, k, known, m, from, to, steps);
        k = next_for(table, Pass::Shift(m, from, to), k + 1, end);
    }
}

/// The rows of a master follow a change of its mode, which is calm or not.
#[inline(always)]
pub(crate) fn shift_all<L: Ledger>(
    table: &mut Table,
    known: &[Mode],
    m: usize,
    from: Mode,
    to: Mode,
    steps: &mut Steps<L>,
)
    requires tallied { AreTallied (map (counted known.now) table.old.entries) table.old.tally }
    requires mode { mode_in m known.now ≡ from }
    ensures rows { table.new.entries ≡ map (passed (Shift m from to) table.old.entries) table.old.entries }
    ensures counted { AreTallied (map (counted (slice_set known.now m to)) table.new.entries) table.new.tally }
    ensures slaves { table.new.slaves ≡ table.old.slaves }
    ensures room { table.new.room ≡ table.old.room }
{
    if m < known.len() && is_calm(from, to) {
        turn_over(table, known, m, from, to, steps);
    } else {
        pass_over(table, known, Pass::Shift(m, from, to), steps);
    }
}
