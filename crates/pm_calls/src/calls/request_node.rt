//! PM_REQUEST_NODE (UG1200).

ghost use Rattle.std.specs.Prelude.{◌≡◌};
ghost use Rattle.pm_state.specs.Changes.{written_along};
ghost use Rattle.pm_calls.specs.Verdict.{stages_of, verdict_of};
ghost use Rattle.pm_calls.specs.calls.RequestNode.{request_node};
ghost use Rattle.pm_state.specs.Stages.{after_stages};
ghost use Rattle.pm_calls.specs.Views.{row_view};

use crate::verdict::Verdict;
use crate::views::rival_node;
use bitflags::Flags;
use pm_base::{Caps, NodeId};
use pm_ipi::status::{DOUBLE_REQUEST, INVALID_NODE, INVALID_PARAMETER, NO_ACCESS, NO_FEATURE};
use pm_ipi::{Response, ack_kind};
use pm_rows::Change;
use pm_state::{Changes, Tables};

/// Begins the caller's use of a slave, and requires these capabilities of it.
/// Refused with INVALID_PARAMETER if the acknowledge kind is unknown, INVALID_NODE if the node is no slave, NO_ACCESS
/// if the caller may not use it, NO_FEATURE if the slave lacks a capability, DOUBLE_REQUEST if the caller uses it
/// already, and NODE_USED if another master does and it can't be shared.
pub fn serve(
    tables: &mut Tables,
    changes: &mut Changes,
    master: usize,
    node: NodeId,
    caps: Caps,
    ack: u32,
    verdict: &mut Verdict,
)
    ensures verdict { verdict.new ≡ verdict_of (request_node caps ack (row_view master node tables.old)) }
    ensures book { tables.new
        ≡ after_stages (stages_of (request_node caps ack (row_view master node tables.old))) tables.old }
    ensures written { changes.new
        ≡ written_along (stages_of (request_node caps ack (row_view master node tables.old))) tables.old changes.old }
{
    if ack_kind(ack).is_none() {
        return verdict.refuse(INVALID_PARAMETER);
    }
    let Some(slave) = tables.slave_place(node) else {
        return verdict.refuse(INVALID_NODE);
    };
    let Some(entry) = tables.rows().entry_at(master, slave) else {
        return verdict.refuse(NO_ACCESS);
    };
    if !entry.seed.all.contains(caps) {
        return verdict.refuse(NO_FEATURE);
    }
    if entry.row.used {
        return verdict.refuse(DOUBLE_REQUEST);
    }
    if let Some(rival) = rival_node(tables, master, slave) {
        return verdict.refuse_by(Response::used_by(rival));
    }
    tables.row_stage(
        entry.seed.master,
        entry.seed.slave,
        Change::Request(caps),
        changes,
    );
    verdict.finish()
}
