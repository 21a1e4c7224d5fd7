//! PM_SET_REQUIREMENT (UG1200).

ghost use Rattle.std.specs.Prelude.{◌≡◌};
ghost use Rattle.pm_state.specs.Changes.{written_along};
ghost use Rattle.pm_calls.specs.Verdict.{stages_of, verdict_of};
ghost use Rattle.pm_state.specs.Members.{mode_of_master};
ghost use Rattle.pm_state.specs.Stages.{after_stages};
ghost use Rattle.pm_calls.specs.Views.{row_view};
ghost use Rattle.pm_calls.specs.calls.SetRequirement.{set_requirement};

use crate::verdict::Verdict;
use bitflags::Flags;
use pm_base::{Caps, NodeId};
use pm_ipi::ack_kind;
use pm_ipi::status::{INVALID_NODE, INVALID_PARAMETER, NO_ACCESS, NO_FEATURE};
use pm_rows::Change;
use pm_state::{Changes, Tables};

/// Requires these capabilities of a slave that the caller uses: at once if the caller is active, and from its sleep
/// on if it is suspending.
/// Refused with INVALID_PARAMETER if the acknowledge kind is unknown, INVALID_NODE if the node is no slave, NO_ACCESS
/// if the caller may not use it or doesn't use it, and NO_FEATURE if the slave lacks a capability.
pub fn serve(
    tables: &mut Tables,
    changes: &mut Changes,
    master: usize,
    node: NodeId,
    caps: Caps,
    ack: u32,
    verdict: &mut Verdict,
)
    ensures verdict { verdict.new
        ≡ verdict_of (set_requirement (mode_of_master tables.old.fixed tables.old.now.core master) caps ack
        (row_view master node tables.old)) }
    ensures book { tables.new
        ≡ after_stages (stages_of
        (set_requirement (mode_of_master tables.old.fixed tables.old.now.core master) caps ack
        (row_view master node tables.old))) tables.old }
    ensures written { changes.new ≡ written_along
        (stages_of (set_requirement (mode_of_master tables.old.fixed tables.old.now.core master) caps ack (row_view master node tables.old)))
        tables.old changes.old }
{
    if ack_kind(ack).is_none() {
        return verdict.refuse(INVALID_PARAMETER);
    }
    let Some(slave) = tables.slave_place(node) else {
        return verdict.refuse(INVALID_NODE);
    };
    let Some(entry) = tables.rows().entry_at(master, slave) else {
        return verdict.refuse(NO_ACCESS);
    };
    if !entry.seed.all.contains(caps) {
        return verdict.refuse(NO_FEATURE);
    }
    if !entry.row.used {
        return verdict.refuse(NO_ACCESS);
    }
    let mode = tables.mode_of_master(master);
    tables.row_stage(
        entry.seed.master,
        entry.seed.slave,
        Change::Set(mode, caps),
        changes,
    );
    verdict.finish()
}
