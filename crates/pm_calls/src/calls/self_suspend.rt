//! PM_SELF_SUSPEND (UG1200).

ghost use Rattle.std.specs.Prelude.{◌≡◌};
ghost use Rattle.pm_state.specs.Changes.{written_along};
ghost use Rattle.pm_calls.specs.Verdict.{stages_of, verdict_of};
ghost use Rattle.pm_state.specs.Stages.{after_stages};
ghost use Rattle.pm_calls.specs.Views.{proc_view};
ghost use Rattle.pm_calls.specs.calls.SelfSuspend.{self_suspend};

use crate::verdict::Verdict;
use crate::views::proc_view;
use pm_base::{Mode, NodeId};
use pm_ipi::status::{DOUBLE_REQUEST, FAILURE, INVALID_NODE, NO_ACCESS};
use pm_state::{Changes, Tables};

/// Starts the suspend of a processor of the caller: it is suspending, and will resume at `address`.
/// Refused with INVALID_NODE if the node is no processor, NO_ACCESS if it isn't the caller's, DOUBLE_REQUEST if it is
/// suspending already, and FAILURE if it is asleep or off.
pub fn serve(
    tables: &mut Tables,
    changes: &mut Changes,
    master: usize,
    node: NodeId,
    address: u64,
    verdict: &mut Verdict,
)
    ensures verdict { verdict.new ≡ verdict_of (self_suspend master address (proc_view master node tables.old)) }
    ensures book { tables.new
        ≡ after_stages (stages_of (self_suspend master address (proc_view master node tables.old))) tables.old }
    ensures written { changes.new ≡ written_along
        (stages_of (self_suspend master address (proc_view master node tables.old)))
        tables.old changes.old }
{
    let view = proc_view(tables, master, node);
    let Some(p) = view.place else {
        return verdict.refuse(INVALID_NODE);
    };
    let Some(proc) = view.own else {
        return verdict.refuse(NO_ACCESS);
    };
    match proc.mode {
        Mode::Suspending => verdict.refuse(DOUBLE_REQUEST),
        Mode::Off | Mode::Asleep => verdict.refuse(FAILURE),
        Mode::Active => {
            tables.proc_stage(master, p, Mode::Suspending, address, changes);
            verdict.finish()
        }
    }
}
