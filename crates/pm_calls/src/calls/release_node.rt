//! PM_RELEASE_NODE (UG1200).

ghost use Rattle.std.specs.Prelude.{◌≡◌};
ghost use Rattle.pm_state.specs.Changes.{written_along};
ghost use Rattle.pm_calls.specs.Verdict.{stages_of, verdict_of};
ghost use Rattle.pm_calls.specs.calls.ReleaseNode.{release_node};
ghost use Rattle.pm_state.specs.Stages.{after_stages};
ghost use Rattle.pm_calls.specs.Views.{row_view};

use crate::verdict::Verdict;
use pm_base::NodeId;
use pm_ipi::status::{INVALID_NODE, NO_ACCESS};
use pm_rows::Change;
use pm_state::{Changes, Tables};

/// Ends the caller's use of a slave: its row requires nothing.
/// Refused with INVALID_NODE if the node is no slave, and NO_ACCESS if the caller may not use it or doesn't use it.
pub fn serve(
    tables: &mut Tables,
    changes: &mut Changes,
    master: usize,
    node: NodeId,
    verdict: &mut Verdict,
)
    ensures verdict { verdict.new ≡ verdict_of (release_node (row_view master node tables.old)) }
    ensures book { tables.new ≡ after_stages (stages_of (release_node (row_view master node tables.old))) tables.old }
    ensures written { changes.new
        ≡ written_along (stages_of (release_node (row_view master node tables.old))) tables.old changes.old }
{
    let Some(slave) = tables.slave_place(node) else {
        return verdict.refuse(INVALID_NODE);
    };
    let Some(entry) = tables.rows().entry_at(master, slave) else {
        return verdict.refuse(NO_ACCESS);
    };
    if !entry.row.used {
        return verdict.refuse(NO_ACCESS);
    }
    tables.row_stage(
        entry.seed.master,
        entry.seed.slave,
        Change::Release,
        changes,
    );
    verdict.finish()
}
