//! PM_FORCE_POWERDOWN (UG1200).

ghost use Rattle.std.specs.Prelude.{◌≡◌, [], length};
ghost use Rattle.pm_state.specs.Changes.{written_along};
ghost use Rattle.pm_perms.specs.Permits.{can_be_forced};
ghost use Rattle.pm_topology.specs.Places.{kind_of};
ghost use Rattle.pm_grants.specs.Grants.{permits_force};
ghost use Rattle.pm_values.specs.Along.{Completes, trail_from};
ghost use Rattle.pm_calls.specs.Verdict.{stages_of, verdict_of};
ghost use Rattle.pm_state.specs.Stages.{after_stages, path_from};
ghost use Rattle.pm_state.specs.State.{grants_in};
ghost use Rattle.pm_calls.specs.calls.ForcePowerdown.{force_powerdown, force_stages};

use crate::between::log_between;
use crate::verdict::Verdict;
use pm_base::NodeId;
use pm_ipi::ack_kind;
use pm_ipi::status::{INVALID_NODE, INVALID_PARAMETER, NO_ACCESS};
use pm_state::{Changes, Scope, Tables};
use pm_topology::Kind;
use pm_values::Along;

/// Switches off the processor that the node is, or each processor below it. After that it clears all rows on the
/// slaves below the node, but keeps their presets.
/// Refused with INVALID_PARAMETER if the acknowledge kind is unknown, INVALID_NODE if the node is neither a processor
/// nor a power node, and NO_ACCESS if the object doesn't permit it.
pub fn serve(
    tables: &mut Tables,
    changes: &mut Changes,
    master: usize,
    node: NodeId,
    ack: u32,
    along: &mut Along,
    verdict: &mut Verdict,
)
    requires along { along.old ≡ trail_from tables.old }
    requires places { changes.old.procs.count ≡ length tables.old.now.core.procs }
    ensures verdict { verdict.new
        ≡ verdict_of (force_powerdown (grants_in tables.old) tables.old.fixed master node ack) }
    ensures book { tables.new
        ≡ after_stages (stages_of
        (force_powerdown (grants_in tables.old) tables.old.fixed master node ack)) tables.old }
    ensures written { changes.new ≡ written_along
        (stages_of (force_powerdown (grants_in tables.old) tables.old.fixed master node ack))
        tables.old changes.old }
    ensures along { Completes tables.old
        (path_from (stages_of (force_powerdown (grants_in tables.old) tables.old.fixed master node ack)) tables.old)
        tables.new along.new }
    ensures still { changes.new.procs.list ≡ [] → along.new ≡ along.old }
{
    if ack_kind(ack).is_none() {
        return verdict.refuse(INVALID_PARAMETER);
    }
    if !can_be_forced(tables.kind(node)) {
        return verdict.refuse(INVALID_NODE);
    }
    if !permits_force(tables, master, node) {
        return verdict.refuse(NO_ACCESS);
    }
    force(tables, changes, node, along);
    verdict.finish()
}

/// Whether the object permits a master to force a node.
fn permits_force(tables: &Tables, master: usize, node: NodeId) -> bool
    ensures { result ≡ permits_force (grants_in tables.now) master (kind_of tables.now.fixed.topology node) }
{
    tables.grants().permits_force(master, tables.kind(node))
}

/// Carries out the two stages of a force. The modes are logged between them, if a processor is written down by then.
fn force(tables: &mut Tables, changes: &mut Changes, node: NodeId, along: &mut Along)
    requires along { along.old ≡ trail_from tables.old }
    requires places { changes.old.procs.count ≡ length tables.old.now.core.procs }
    ensures book { tables.new ≡ after_stages (force_stages tables.old.fixed node) tables.old }
    ensures written { changes.new ≡ written_along (force_stages tables.old.fixed node) tables.old changes.old }
    ensures along { Completes tables.old (path_from (force_stages tables.old.fixed node) tables.old) tables.new
        along.new }
    ensures still { changes.new.procs.list ≡ [] → along.new ≡ along.old }
{
    tables.take_off(Scope::Under(node), changes);
    tables.follow(changes);
    log_between(tables, changes, along);
    tables.clear_below(node, changes);
    tables.follow(changes);
}

/// Whether a node is of a kind that can be forced down: a processor or a power node (UG1200, PM_FORCE_POWERDOWN).
fn can_be_forced(kind: Kind) -> bool
    ensures { result ≡ can_be_forced kind }
{
    match kind {
        Kind::Proc(_) | Kind::Power(_) => true,
        Kind::Slave(_) | Kind::Unknown => false,
    }
}
