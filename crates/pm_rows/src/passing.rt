//! A pass over all rows, which keeps the counts.

ghost use Rattle.std.specs.Prelude.{◌≡◌, ℕ, ◌+◌, ◌<◌, ◌≤◌, ◌^◌, Some, length, map, slice_get, slice_set, sum_by};
ghost use Rattle.pm_rows.specs.declared.passes.Pass.TheVariants.{One};
ghost use Rattle.pm_rows.specs.declared.row.Change.TheVariants.{Arm, Limit, Release, Request, Set};
ghost use Rattle.pm_rows.specs.Modes.{mode_in};
ghost use Rattle.pm_rows.specs.Shift.{is_taken, shifted_row};
ghost use Rattle.pm_rows.specs.Counted.{AreTallied, counted};
ghost use Rattle.pm_rows.specs.Passes.{cost_of, is_left, known_after, passed, row_after};
ghost use Rattle.pm_rows.specs.Passing.{MayPutAt, PutsAt, Visits};
ghost use Rattle.pm_rows.specs.Links.{IsNextFor};
ghost use Rattle.pm_rows.specs.Spans.{IsCover};

use crate::modes::mode_in;
use crate::passes::Pass;
use crate::row::{Change, Entry, Row};
use crate::seeking::{Sought, is_found};
use crate::shift::{is_start, shifted_row};
use crate::table::Table;
use pm_base::{Caps, Mode, NodeId, Steps};
use std::sync::ledger::Ledger;

/// The mode of a master where the one at place `m` is set to a mode.
fn mode_set(known: &[Mode], m: usize, to: Mode, master: usize) -> Mode
    ensures { result ≡ mode_in master (slice_set known.now m to) }
{
    if master == m && m < known.len() {
        to
    } else {
        mode_in(known, master)
    }
}

/// The mode of a master after a pass.
fn mode_after(known: &[Mode], pass: Pass, master: usize) -> Mode
    ensures { result ≡ mode_in master (known_after pass known.now) }
{
    match pass {
        Pass::Shift(m, _, to) => mode_set(known, m, to, master),
        Pass::One(_, _, _) | Pass::Settle(_) | Pass::DropSlave(_) | Pass::Clear => {
            mode_in(known, master)
        }
    }
}

/// Whether another master uses the slave of a row, and the slave can't be shared.
fn is_taken(table: &Table, entry: &Entry) -> bool
    ensures { result ≡ is_taken table.now.entries entry.now }
{
    is_found(table, Sought::Rival(entry.seed.master, entry.seed.slave))
}

/// The row of a master whose mode changes, as it is afterwards. Who uses its slave is asked for a master that
/// starts alone.
fn row_shifted(table: &Table, entry: &Entry, from: Mode, to: Mode) -> Row
    ensures { result ≡ shifted_row from to (is_taken table.now.entries entry.now) entry.now.row }
{
    if is_start(from, to) {
        shifted_row(entry.row, from, to, is_taken(table, entry))
    } else {
        shifted_row(entry.row, from, to, false)
    }
}

/// A row that a pass changes, as it is afterwards.
fn row_after(table: &Table, entry: Entry, pass: Pass) -> Row
    ensures { result ≡ row_after pass table.now.entries entry }
{
    match pass {
        Pass::One(_, _, by) => entry.row.changed(by),
        Pass::Settle(_) => entry.row.settled(),
        Pass::Shift(_, from, to) => row_shifted(table, &entry, from, to),
        Pass::DropSlave(_) | Pass::Clear => entry.row.cleared(),
    }
}

/// Whether a pass leaves a row as it is, and it is counted as before.
fn is_left(pass: Pass, entry: &Entry) -> bool
    ensures { result ≡ is_left pass entry.now.row }
{
    match pass {
        Pass::One(_, _, _) => false,
        Pass::Settle(_) => !entry.row.hold,
        Pass::Shift(_, from, to) => {
            entry.is_idle() && (!is_start(from, to) || entry.row.preset.0 == 0)
        }
        Pass::DropSlave(_) | Pass::Clear => entry.is_idle(),
    }
}

/// Puts a row that was read as a pass asks, and counts it in the mode that its master has afterwards.
#[inline(never)]
fn put_read<L: Ledger>(
    table: &mut Table,
    k: usize,
    entry: Entry,
    known: &[Mode],
    pass: Pass,
    steps: &mut Steps<L>,
)
    requires here { slice_get table.old.entries k ≡ Some entry }
    requires placed { entry.seed.slave < length table.old.tally.users }
    requires few { length table.old.entries < 2 ^ 31 }
    requires ready { MayPutAt known.now k table.old }
    ensures { (start : ℕ) → steps.old ≡ start + 1 → PutsAt pass known.now k table.old start table.new steps.new }
{
    let row = row_after(table, entry, pass);
    let from = mode_in(known, entry.seed.master);
    let to = mode_after(known, pass, entry.seed.master);
    table.put(k, entry, from, row, to, steps);
}

/// Puts the row at a place as a pass asks, and counts it in the mode that its master has afterwards. A row that
/// the pass leaves as it is costs its reading alone.
#[inline(always)]
fn put_at<L: Ledger>(table: &mut Table, k: usize, known: &[Mode], pass: Pass, steps: &mut Steps<L>)
    requires within { k < length table.old.entries }
    requires ready { MayPutAt known.now k table.old }
    ensures { PutsAt pass known.now k table.old steps.old table.new steps.new }
{
    let entry = table.entry(k, steps);
    if !is_left(pass, &entry) {
        put_read(table, k, entry, known, pass, steps);
    }
}

/// Sets the requirement of the row at a place, by its master's mode, and counts it.
#[inline(always)]
fn set_at<L: Ledger>(
    table: &mut Table,
    k: usize,
    known: &[Mode],
    mode: Mode,
    caps: Caps,
    steps: &mut Steps<L>,
)
    requires within { k < length table.old.entries }
    requires ready { MayPutAt known.now k table.old }
    ensures { (master slave : ℕ) →
        PutsAt (One master slave (Set mode caps)) known.now k table.old steps.old table.new steps.new }
{
    let entry = table.entry(k, steps);
    let row = entry.row.set_in(mode, caps);
    let is = mode_in(known, entry.seed.master);
    table.put_alike(k, entry, is, row, is, steps);
}

/// Arms the row at a place with a processor, or disarms it, and counts it.
#[inline(always)]
fn arm_at<L: Ledger>(
    table: &mut Table,
    k: usize,
    known: &[Mode],
    target: Option<NodeId>,
    steps: &mut Steps<L>,
)
    requires within { k < length table.old.entries }
    requires ready { MayPutAt known.now k table.old }
    ensures { (master slave : ℕ) →
        PutsAt (One master slave (Arm target)) known.now k table.old steps.old table.new steps.new }
{
    let entry = table.entry(k, steps);
    let row = entry.row.armed_by(target);
    let is = mode_in(known, entry.seed.master);
    table.put_alike(k, entry, is, row, is, steps);
}

/// Uses the row at a place from now on, with these capabilities, and counts it.
#[inline(always)]
fn request_at<L: Ledger>(
    table: &mut Table,
    k: usize,
    known: &[Mode],
    caps: Caps,
    steps: &mut Steps<L>,
)
    requires within { k < length table.old.entries }
    requires ready { MayPutAt known.now k table.old }
    ensures { (master slave : ℕ) →
        PutsAt (One master slave (Request caps)) known.now k table.old steps.old table.new steps.new }
{
    let entry = table.entry(k, steps);
    let row = entry.row.requested(caps);
    let is = mode_in(known, entry.seed.master);
    table.put(k, entry, is, row, is, steps);
}

/// Ends the use of the row at a place, and counts it.
#[inline(always)]
fn release_at<L: Ledger>(table: &mut Table, k: usize, known: &[Mode], steps: &mut Steps<L>)
    requires within { k < length table.old.entries }
    requires ready { MayPutAt known.now k table.old }
    ensures { (master slave : ℕ) →
        PutsAt (One master slave Release) known.now k table.old steps.old table.new steps.new }
{
    let entry = table.entry(k, steps);
    let row = entry.row.released();
    let is = mode_in(known, entry.seed.master);
    table.put(k, entry, is, row, is, steps);
}

/// Sets the greatest latency that the row at a place allows, and counts it.
#[inline(always)]
fn limit_at<L: Ledger>(
    table: &mut Table,
    k: usize,
    known: &[Mode],
    latency: u32,
    steps: &mut Steps<L>,
)
    requires within { k < length table.old.entries }
    requires ready { MayPutAt known.now k table.old }
    ensures { (master slave : ℕ) →
        PutsAt (One master slave (Limit latency)) known.now k table.old steps.old table.new steps.new }
{
    let entry = table.entry(k, steps);
    let row = entry.row.limited(latency);
    let is = mode_in(known, entry.seed.master);
    table.put(k, entry, is, row, is, steps);
}

/// Makes a change of the row of a pair, which is at a place, and counts it.
#[inline(always)]
fn change_at<L: Ledger>(
    table: &mut Table,
    k: usize,
    known: &[Mode],
    master: usize,
    slave: usize,
    by: Change,
    steps: &mut Steps<L>,
)
    requires within { k < length table.old.entries }
    requires ready { MayPutAt known.now k table.old }
    ensures { PutsAt (One master slave by) known.now k table.old steps.old table.new steps.new }
{
    match by {
        Change::Set(mode, caps) => set_at(table, k, known, mode, caps, steps),
        Change::Arm(target) => arm_at(table, k, known, target, steps),
        Change::Request(caps) => request_at(table, k, known, caps, steps),
        Change::Release => release_at(table, k, known, steps),
        Change::Limit(latency) => limit_at(table, k, known, latency, steps),
    }
}

/// Changes the row at a place as a pass asks, and counts it.
#[inline(always)]
fn pass_at<L: Ledger>(table: &mut Table, k: usize, known: &[Mode], pass: Pass, steps: &mut Steps<L>)
    requires within { k < length table.old.entries }
    requires ready { MayPutAt known.now k table.old }
    ensures { PutsAt pass known.now k table.old steps.old table.new steps.new }
{
    match pass {
        Pass::One(master, slave, by) => change_at(table, k, known, master, slave, by, steps),
        Pass::Settle(_) | Pass::Shift(_, _, _) | Pass::DropSlave(_) | Pass::Clear => {
            put_at(table, k, known, pass, steps)
        }
    }
}

/// Changes the row at a place, if a pass touches it, and counts it.
#[inline(always)]
fn visit<L: Ledger>(table: &mut Table, k: usize, known: &[Mode], pass: Pass, steps: &mut Steps<L>)
    requires within { k < length table.old.entries }
    requires ready { MayPutAt known.now k table.old }
    ensures { Visits pass known.now k table.old steps.old table.new steps.new }
{
    let seed = table.seed(k);
    if pass.touches(seed) {
        pass_at(table, k, known, pass, steps);
    }
}

/// Between which places the rows stand that a pass touches.
fn cover(table: &Table, pass: Pass) -> (usize, usize)
    ensures { IsCover pass result.0 result.1 table.now.entries }
{
    match pass {
        Pass::One(_, slave, _) | Pass::DropSlave(slave) => table.span(slave),
        Pass::Settle(_) | Pass::Shift(_, _, _) | Pass::Clear => (0, table.len()),
    }
}

/// A place from this one on before which no row stands that a pass touches, the end at most.
#[inline(always)]
#[tactic(auto, using(crate::proofs::Linked::next_settle, crate::proofs::Linked::next_shift, crate::proofs::Linked::next_here))]
pub(crate) fn next_for(table: &Table, pass: Pass, from: usize, end: usize) -> usize
    requires { from ≤ end }
    ensures { IsNextFor pass from result end table.now.entries }
{
    match pass {
        Pass::Settle(m) | Pass::Shift(m, _, _) => table.next_of(m, from).min(end),
        Pass::One(_, _, _) | Pass::DropSlave(_) | Pass::Clear => from,
    }
}

/// Changes the rows that a pass touches, one after another, and counts them in the modes that their masters
/// have afterwards. Each caller names its pass. This is compiled into each caller, where only its own pass is left.
#[inline(always)]
pub(crate) fn pass_over<L: Ledger>(
    table: &mut Table,
    known: &[Mode],
    pass: Pass,
    steps: &mut Steps<L>,
)
    requires { AreTallied (map (counted known.now) table.old.entries) table.old.tally }
    ensures rows { table.new.entries ≡ map (passed pass table.old.entries) table.old.entries }
    ensures counted { AreTallied (map (counted (known_after pass known.now)) table.new.entries) table.new.tally }
    ensures slaves { table.new.slaves ≡ table.old.slaves }
    ensures room { table.new.room ≡ table.old.room }
    ensures cost { steps.new ≡ steps.old + sum_by (cost_of pass known.now table.old.entries) table.old.entries }
{
    let (first, past) = cover(table, pass);
    let mut k = next_for(table, pass, first, past);
    'rows: while k < past {
        visit(table, k, known, pass, steps);
        k = next_for(table, pass, k + 1, past);
    }
}
