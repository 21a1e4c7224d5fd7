//! Telling the masters of a step: their notifiers, the requests that are pending on them and their notes change.

ghost use Rattle.std.specs.Prelude.{◌≡◌, ◌≤◌, false, length};
ghost use Rattle.pm_state.specs.Talk.{talked};
ghost use Rattle.pm_tell.specs.Served.{says_in};
ghost use Rattle.pm_tell.specs.Talk.{MayTell, TellsMasters};
ghost use Rattle.pm_tell.specs.Telling.{IsFresh, opening_in, with_news};

use crate::callbacks::{Callback, tell_masters};
use crate::late::{Late, tell_late};
use crate::opening::open;
use crate::served::{Served, keep_own, says_in};
use crate::telling::Telling;
use pm_base::BoundedList;
use pm_notify::notes_stand_in_order;
use pm_state::Tables;
use pm_values::Caches;

/// Tells the masters of a step after its stages, by late replies and callbacks: of the one that is asked to suspend, of
/// the requests that end, and of the events of nodes.
pub fn tell(
    tables: &mut Tables,
    caches: &Caches,
    telling: &mut Telling,
    count: Option<u32>,
    served: &Option<Served>,
    late: &mut BoundedList<Late>,
    callbacks: &mut BoundedList<Callback>,
)
    requires may { MayTell tables.old caches.now telling.old late.old callbacks.old }
    requires fresh { telling.old.moved ≡ false → IsFresh tables.old telling.old }
    ensures { TellsMasters served.now count tables.old tables.new telling.old telling.new late.old late.new
        callbacks.old callbacks.new }
{
    notes_stand_in_order();
    open_step(tables, telling, served, count);
    tell_masters(tables, caches, telling, callbacks);
    keep_own(tables, served);
    tell_late(tables, telling.ended(), late);
}

/// Logs which master is asked to suspend and which requests end, and makes the changes that come before any master is
/// told.
fn open_step(
    tables: &mut Tables,
    telling: &mut Telling,
    served: &Option<Served>,
    count: Option<u32>,
)
    requires each { length tables.old.now.talk.pending ≡ length tables.old.fixed.object.masters }
    requires room { length tables.old.fixed.object.masters ≤ telling.old.ended.room }
    requires fresh { telling.old.moved ≡ false → IsFresh tables.old telling.old }
    ensures news { telling.new ≡ with_news (says_in served.now) count tables.old telling.old }
    ensures few { length telling.new.ended.items ≤ length tables.old.fixed.object.masters }
    ensures book { tables.new ≡ talked (opening_in telling.new (says_in served.now) count tables.old) tables.old }
{
    let says = says_in(served);
    // In most steps no processor moves, the message has no master told anything, and no time passes: no request ends.
    if !telling.moved && says.is_none() && count.is_none() {
        telling.clear_news();
        return;
    }
    telling.log_ended(tables, says, count);
    open(tables, telling, served, count);
}
