//! One count that follows whether a row passes a test.

ghost use Rattle.std.specs.Prelude.{◌≡◌, ◌+◌, ◌≤◌, ◌==◌, ◌&&◌, ◌<◌, false, is_some, length, true};
ghost use Rattle.std.specs.Int.{bit_at};
ghost use Rattle.pm_rows.specs.Cost.{caps_cost, moves};
ghost use Rattle.pm_rows.specs.Counted.{IsReady, flag, has, moved_count};
ghost use Rattle.pm_rows.specs.Wanted.{arming_differs, required_by};

use crate::row::Entry;
use crate::wanted::arming_differs;
use pm_base::{Caps, Mode, Steps};
use pm_cells::Counts;
use std::sync::ledger::Ledger;

/// Whether a set has the capability of a bit.
pub(crate) fn has(caps: Caps, bit: u32) -> bool
    requires { bit < 32 }
    ensures { result ≡ has bit caps }
{
    (caps.0 >> bit) & 1 == 1
}

/// Counts a row that passed a test before or not, and passes it from now on or not.
pub(crate) fn follow<L: Ledger>(
    counts: &mut Counts,
    place: usize,
    before: bool,
    after: bool,
    steps: &mut Steps<L>,
)
    requires { IsReady place before counts.old }
    ensures count { counts.new ≡ moved_count place before after counts.old }
    ensures places { length counts.new ≡ length counts.old }
    ensures steps { steps.new ≡ steps.old + moves before after }
{
    match (before, after) {
        (true, false) => counts.sub(place, steps),
        (false, true) => counts.add(place, steps),
        (true, true) | (false, false) => {}
    }
}

/// Counts a row that wanted some capabilities before, and wants others from now on, by the capability of a
/// bit.
pub(crate) fn follow_capability<L: Ledger>(
    counts: &mut Counts,
    place: usize,
    bit: u32,
    before: Caps,
    after: Caps,
    steps: &mut Steps<L>,
)
    requires bit { bit < 32 }
    requires ready { IsReady place (has bit before) counts.old }
    ensures count { counts.new ≡ moved_count place (has bit before) (has bit after) counts.old }
    ensures places { length counts.new ≡ length counts.old }
    ensures steps { steps.new ≡ steps.old + moves (has bit before) (has bit after) }
{
    follow(counts, place, has(before, bit), has(after, bit), steps);
}

/// Counts a row that wanted some capabilities before, and wants others from now on, by each capability. If these are
/// the same no count moves.
pub(crate) fn follow_wants<L: Ledger>(
    access: &mut Counts,
    context: &mut Counts,
    wakeup: &mut Counts,
    place: usize,
    before: Caps,
    after: Caps,
    steps: &mut Steps<L>,
)
    requires access { IsReady place (has 0 before) access.old }
    requires context { IsReady place (has 1 before) context.old }
    requires wakeup { IsReady place (has 2 before) wakeup.old }
    ensures access { access.new ≡ moved_count place (has 0 before) (has 0 after) access.old }
    ensures context { context.new ≡ moved_count place (has 1 before) (has 1 after) context.old }
    ensures wakeup { wakeup.new ≡ moved_count place (has 2 before) (has 2 after) wakeup.old }
    ensures steps { steps.new ≡ steps.old + caps_cost before after }
{
    if before.0 != after.0 {
        follow_capability(access, place, 0, before, after, steps);
        follow_capability(context, place, 1, before, after, steps);
        follow_capability(wakeup, place, 2, before, after, steps);
    }
}

/// Whether a row that is put in place of another is used as that one, wants the same now, and is held as that one.
fn uses_alike(before: Entry, after: Entry) -> bool
    ensures { result ≡ true → (after.row.used ≡ before.row.used)
        × (after.row.now ≡ before.row.now) × (after.row.hold ≡ before.row.hold) }
{
    before.row.used == after.row.used
        && before.row.now.0 == after.row.now.0
        && before.row.hold == after.row.hold
}

/// Whether it is armed as that one, and what an armed row requires doesn't differ in the two modes.
fn arms_alike(before: Entry, from: Mode, after: Entry, to: Mode) -> bool
    ensures { result ≡ true → (is_some after.row.armed ≡ is_some before.row.armed)
        × ((is_some before.row.armed && arming_differs from to) ≡ false) }
{
    before.row.armed.is_some() == after.row.armed.is_some()
        && !(before.row.armed.is_some() && arming_differs(from, to))
}

/// Whether a row that is put in place of another plainly requires what that one did.
fn needs_alike(before: Entry, from: Mode, after: Entry, to: Mode) -> bool
    requires { after.seed ≡ before.seed }
    ensures { result ≡ true → required_by to after ≡ required_by from before }
{
    uses_alike(before, after) && arms_alike(before, from, after, to)
}

/// Counts a row that is put in place of another, by each capability that is counted. What they require is found where
/// it may differ.
#[inline(always)]
pub(crate) fn follow_needs<L: Ledger>(
    access: &mut Counts,
    context: &mut Counts,
    wakeup: &mut Counts,
    before: Entry,
    from: Mode,
    after: Entry,
    to: Mode,
    steps: &mut Steps<L>,
)
    requires same { after.seed ≡ before.seed }
    requires access { IsReady before.seed.slave (has 0 (required_by from before)) access.old }
    requires context { IsReady before.seed.slave (has 1 (required_by from before)) context.old }
    requires wakeup { IsReady before.seed.slave (has 2 (required_by from before)) wakeup.old }
    ensures access { access.new
        ≡ moved_count before.seed.slave (has 0 (required_by from before)) (has 0 (required_by to after)) access.old }
    ensures context { context.new
        ≡ moved_count before.seed.slave (has 1 (required_by from before)) (has 1 (required_by to after)) context.old }
    ensures wakeup { wakeup.new
        ≡ moved_count before.seed.slave (has 2 (required_by from before)) (has 2 (required_by to after)) wakeup.old }
    ensures steps { steps.new ≡ steps.old + caps_cost (required_by from before) (required_by to after) }
{
    if !needs_alike(before, from, after, to) {
        let needed = before.required_by(from);
        let needs = after.required_by(to);
        follow_wants(
            access,
            context,
            wakeup,
            before.seed.slave,
            needed,
            needs,
            steps,
        );
    }
}

/// A value if a count isn't 0.
pub(crate) fn flag(count: u32, value: u32) -> u32
    ensures value { result ≡ flag count value }
    ensures bound { result ≤ value }
{
    if count == 0 { 0 } else { value }
}
