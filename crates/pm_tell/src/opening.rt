//! The changes that come before any master is told of a step.

ghost use Rattle.std.specs.Prelude.{◌≡◌};
ghost use Rattle.pm_tell.specs.Opening.{ends, forget_at, forgets_from, lower_by, sweep_by, say_by};
ghost use Rattle.pm_tell.specs.Served.{says_in};
ghost use Rattle.pm_state.specs.Talk.{talked};
ghost use Rattle.pm_tell.specs.Telling.{opening_in, turns_in};

use crate::ended::Ended;
use crate::served::{Served, says_in};
use crate::telling::Telling;
use pm_calls::Say;
use pm_state::Tables;

/// Makes the changes that come before any master is told: all is as at load, if all is restarted, or no notifier is
/// left, if another object is in force; masters that became off forget what they asked for, a notifier is put or a
/// master is asked, time passes, and requests end.
pub(crate) fn open(
    tables: &mut Tables,
    telling: &Telling,
    served: &Option<Served>,
    count: Option<u32>,
)
    ensures { tables.new ≡ talked (opening_in telling.now (says_in served.now) count tables.old) tables.old }
{
    renew(tables, says_in(served));
    forget(tables, telling);
    say(tables, says_in(served));
    pass_time(tables, count);
    end_requests(tables, telling.ended());
}

/// What the masters are told is as at load, if all is restarted; and none is told of anything any more, if another
/// object is in force.
fn renew(tables: &mut Tables, says: Option<Say>)
    ensures { tables.new ≡ talked (sweep_by says) tables.old }
{
    match says {
        Some(Say::Renew) => tables.renew_talk(),
        Some(Say::Unwatch) => tables.unwatch(),
        Some(Say::Ask(_) | Say::Abort(_) | Say::Register(_)) | None => {}
    }
}

/// Each master that became off along the step forgets what it asked for, and what waits for it is lost.
fn forget(tables: &mut Tables, telling: &Telling)
    ensures { tables.new ≡ talked (forgets_from (turns_in telling.now) 0 tables.old.fixed.object.masters) tables.old }
{
    for m in 0..tables.masters() {
        forget_master(tables, telling, m);
    }
}

/// Drops the notifiers and notes of the master at a place, if it becomes off in this step.
fn forget_master(tables: &mut Tables, telling: &Telling, m: usize)
    ensures { tables.new ≡ talked (forget_at (turns_in telling.now m) m) tables.old }
{
    if telling.turns(m).off {
        tables.forget_notes(m);
    }
}

/// A master is asked, or a notifier is put.
fn say(tables: &mut Tables, says: Option<Say>)
    ensures { tables.new ≡ talked (say_by says) tables.old }
{
    match says {
        Some(Say::Ask(asked)) => tables.ask(asked.target, asked.request),
        Some(Say::Register(put)) => { tables.register(put.master, put.node, put.event, put.on) }
        Some(Say::Abort(_) | Say::Renew | Say::Unwatch) | None => {}
    }
}

/// Takes the units of time that pass off each pending request to suspend.
fn pass_time(tables: &mut Tables, count: Option<u32>)
    ensures { tables.new ≡ talked (lower_by count) tables.old }
{
    if let Some(count) = count {
        tables.lower(count);
    }
}

/// These requests end.
fn end_requests(tables: &mut Tables, ended: &[Ended])
    ensures { tables.new ≡ talked (ends ended.now) tables.old }
{
    for end in ended {
        tables.end_request(end.target);
    }
}
