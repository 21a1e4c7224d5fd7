//! PM_SYSTEM_SHUTDOWN (UG1200).

ghost use Rattle.std.specs.Prelude.{◌≡◌, [], length};
ghost use Rattle.pm_state.specs.Changes.{written_along, written_by};
ghost use Rattle.pm_grants.specs.Grants.{permits_shut};
ghost use Rattle.pm_values.specs.Along.{Completes, trail_from};
ghost use Rattle.pm_calls.specs.Verdict.{stages_of, verdict_of};
ghost use Rattle.pm_state.specs.Prims.{changed};
ghost use Rattle.pm_state.specs.Stages.{after_stages, path_from};
ghost use Rattle.pm_state.specs.State.{grants_in};
ghost use Rattle.pm_state.specs.Members.{first_own};
ghost use Rattle.pm_calls.specs.calls.SystemShutdown.{own_stages, restart_all, starting, stop_all, system_shutdown};

use crate::between::log_between;
use crate::verdict::{Say, Verdict};
use pm_base::Mode;
use pm_ipi::status::{INVALID_PARAMETER, NO_ACCESS};
use pm_state::{Changes, Scope, Tables};
use pm_values::Along;

/// The types that are no plain shutdown (0): a restart, and a scope, which says what a later shutdown is to mean and
/// does nothing.
const RESTART: u32 = 1;

const SCOPE: u32 = 2;

/// Shuts down (type 0) or restarts (1) the caller's processors (subtype 0), or everything (1 and 2). All these
/// processors go off. A restart then starts the caller's first processor, or puts the book back as it was at load. A
/// shutdown of everything halts the book. The type 2 is accepted and does nothing.
/// Refused with INVALID_PARAMETER if the type or subtype is unknown, and NO_ACCESS if the caller may not shut so much
/// down.
pub fn serve(
    tables: &mut Tables,
    changes: &mut Changes,
    master: usize,
    shutdown_type: u32,
    subtype: u32,
    along: &mut Along,
    verdict: &mut Verdict,
)
    requires along { along.old ≡ trail_from tables.old }
    requires places { changes.old.procs.count ≡ length tables.old.now.core.procs }
    ensures verdict { verdict.new
        ≡ verdict_of (system_shutdown (grants_in tables.old) tables.old.fixed master shutdown_type subtype) }
    ensures book { tables.new ≡ after_stages
        (stages_of (system_shutdown (grants_in tables.old) tables.old.fixed master shutdown_type subtype)) tables.old }
    ensures written { changes.new ≡ written_along
        (stages_of (system_shutdown (grants_in tables.old) tables.old.fixed master shutdown_type subtype))
        tables.old changes.old }
    ensures along { Completes tables.old
        (path_from (stages_of (system_shutdown (grants_in tables.old) tables.old.fixed master shutdown_type subtype))
        tables.old) tables.new along.new }
    ensures still { changes.new.procs.list ≡ [] → along.new ≡ along.old }
{
    if shutdown_type > 2 || subtype > 2 {
        return verdict.refuse(INVALID_PARAMETER);
    }
    if shutdown_type == SCOPE {
        return verdict.finish();
    }
    if !permits_shutdown(tables, master, subtype) {
        return verdict.refuse(NO_ACCESS);
    }
    if subtype == 0 {
        shut_own(tables, changes, master, shutdown_type == RESTART, along);
        return verdict.finish();
    }
    if shutdown_type == RESTART {
        restart_all(tables, changes, along);
        return verdict.say(Say::Renew);
    }
    stop_all(tables, changes, along);
    verdict.finish()
}

/// Whether the object permits a master a shutdown of this subtype: 0 its own processors, 1 and 2 everything.
fn permits_shutdown(tables: &Tables, master: usize, subtype: u32) -> bool
    ensures { result ≡ permits_shut (grants_in tables.now) master subtype }
{
    tables.grants().permits_shut(master, subtype)
}

/// Switches off a master's processors, and starts the first of them if it restarts. The modes are logged between the
/// two stages, if a processor is written down by then.
fn shut_own(tables: &mut Tables, changes: &mut Changes, m: usize, restarts: bool, along: &mut Along)
    requires along { along.old ≡ trail_from tables.old }
    requires places { changes.old.procs.count ≡ length tables.old.now.core.procs }
    ensures book { tables.new ≡ after_stages (own_stages tables.old.fixed m restarts) tables.old }
    ensures written { changes.new ≡ written_along (own_stages tables.old.fixed m restarts) tables.old changes.old }
    ensures along { Completes tables.old (path_from (own_stages tables.old.fixed m restarts) tables.old) tables.new
        along.new }
    ensures still { changes.new.procs.list ≡ [] → along.new ≡ along.old }
{
    tables.take_off(Scope::Own(m), changes);
    tables.follow(changes);
    if restarts {
        log_between(tables, changes, along);
        start_own(tables, changes, m);
        tables.follow(changes);
    }
}

/// Starts the first processor of a master at address 0.
fn start_own(tables: &mut Tables, changes: &mut Changes, m: usize)
    ensures book { tables.new ≡ changed (starting m (first_own tables.old.fixed m)) tables.old }
    ensures written { changes.new ≡ written_by (starting m (first_own tables.old.fixed m)) tables.old changes.old }
{
    if let Some(p) = tables.first_proc(m) {
        tables.put_proc(m, p, Mode::Active, 0, changes);
    }
}

/// Switches off all processors, and then halts the book. The modes are logged between the two stages, if a
/// processor is written down by then.
fn stop_all(tables: &mut Tables, changes: &mut Changes, along: &mut Along)
    requires along { along.old ≡ trail_from tables.old }
    requires places { changes.old.procs.count ≡ length tables.old.now.core.procs }
    ensures book { tables.new ≡ after_stages (stop_all tables.old.fixed) tables.old }
    ensures written { changes.new ≡ written_along (stop_all tables.old.fixed) tables.old changes.old }
    ensures along { Completes tables.old (path_from (stop_all tables.old.fixed) tables.old) tables.new along.new }
    ensures still { changes.new.procs.list ≡ [] → along.new ≡ along.old }
{
    tables.take_off(Scope::All, changes);
    tables.follow(changes);
    log_between(tables, changes, along);
    tables.halt(changes);
    tables.follow(changes);
}

/// Switches off all processors, and then puts the book back as it was at load. The modes are logged between the two
/// stages, if a processor is written down by then.
fn restart_all(tables: &mut Tables, changes: &mut Changes, along: &mut Along)
    requires along { along.old ≡ trail_from tables.old }
    requires places { changes.old.procs.count ≡ length tables.old.now.core.procs }
    ensures book { tables.new ≡ after_stages (restart_all tables.old.fixed) tables.old }
    ensures written { changes.new ≡ written_along (restart_all tables.old.fixed) tables.old changes.old }
    ensures along { Completes tables.old (path_from (restart_all tables.old.fixed) tables.old) tables.new along.new }
    ensures still { changes.new.procs.list ≡ [] → along.new ≡ along.old }
{
    tables.take_off(Scope::All, changes);
    tables.follow(changes);
    log_between(tables, changes, along);
    tables.reload(changes);
    tables.follow(changes);
}
