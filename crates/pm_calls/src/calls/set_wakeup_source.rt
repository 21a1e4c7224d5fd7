//! PM_SET_WAKEUP_SOURCE (UG1200).

ghost use Rattle.std.specs.Prelude.{◌≡◌};
ghost use Rattle.pm_state.specs.Changes.{written_along};
ghost use Rattle.pm_calls.specs.Verdict.{stages_of, verdict_of};
ghost use Rattle.pm_state.specs.Stages.{after_stages};
ghost use Rattle.pm_calls.specs.Views.{proc_view, row_view};
ghost use Rattle.pm_calls.specs.calls.SetWakeupSource.{arming, set_wakeup_source};

use crate::verdict::Verdict;
use crate::views::proc_view;
use bitflags::Flags;
use pm_base::{Caps, NodeId};
use pm_ipi::status::{INVALID_NODE, INVALID_PARAMETER, NO_ACCESS, NO_FEATURE};
use pm_rows::Change;
use pm_state::{Changes, Tables};

/// The change of a row: it is armed with this processor if `enable` is 1, else it is disarmed.
fn arming(node: NodeId, enable: u32) -> Change
    ensures { result ≡ arming node enable }
{
    Change::Arm(if enable == 1 { Some(node) } else { None })
}

/// Arms (`enable` 1) or disarms (0) a slave: while it is armed, its interrupt wakes this processor of the caller. The
/// caller has to be permitted to use the slave, but needn't use it.
/// Refused with INVALID_NODE if the target is no processor or the source no slave, INVALID_PARAMETER if `enable` is
/// another word, NO_ACCESS if the processor isn't the caller's or the caller may not use the slave, and NO_FEATURE if
/// the slave can't wake.
pub fn serve(
    tables: &mut Tables,
    changes: &mut Changes,
    master: usize,
    node: NodeId,
    slave: NodeId,
    enable: u32,
    verdict: &mut Verdict,
)
    ensures verdict { verdict.new
        ≡ verdict_of (set_wakeup_source node enable (proc_view master node tables.old)
        (row_view master slave tables.old)) }
    ensures book { tables.new
        ≡ after_stages (stages_of
        (set_wakeup_source node enable (proc_view master node tables.old) (row_view master slave tables.old)))
        tables.old }
    ensures written { changes.new ≡ written_along
        (stages_of (set_wakeup_source node enable (proc_view master node tables.old) (row_view master slave tables.old)))
        tables.old changes.old }
{
    let target = proc_view(tables, master, node);
    let (Some(_), Some(source)) = (target.place, tables.slave_place(slave)) else {
        return verdict.refuse(INVALID_NODE);
    };
    if enable > 1 {
        return verdict.refuse(INVALID_PARAMETER);
    }
    if target.own.is_none() {
        return verdict.refuse(NO_ACCESS);
    }
    let Some(entry) = tables.rows().entry_at(master, source) else {
        return verdict.refuse(NO_ACCESS);
    };
    if !entry.seed.all.contains(Caps::WAKEUP) {
        return verdict.refuse(NO_FEATURE);
    }
    tables.row_stage(
        entry.seed.master,
        entry.seed.slave,
        arming(node, enable),
        changes,
    );
    verdict.finish()
}
