//! PM_REQUEST_WAKEUP (UG1200).

ghost use Rattle.std.specs.Prelude.{◌≡◌};
ghost use Rattle.pm_state.specs.Changes.{written_along};
ghost use Rattle.pm_calls.specs.Verdict.{stages_of, verdict_of};
ghost use Rattle.pm_state.specs.Stages.{after_stages};
ghost use Rattle.pm_calls.specs.Views.{wake_view};
ghost use Rattle.pm_calls.specs.calls.RequestWakeup.{request_wakeup};

use crate::verdict::Verdict;
use crate::views::wake_view;
use pm_base::{Mode, NodeId};
use pm_ipi::ack_kind;
use pm_ipi::status::{FAILURE, INVALID_NODE, INVALID_PARAMETER, NO_ACCESS};
use pm_state::{Changes, Tables};

/// Wakes a processor of the caller, or of a master that the caller may wake: it is active. It resumes at `address`;
/// without one at its own resume address, which is 0 after it was off.
/// Refused with INVALID_PARAMETER if the acknowledge kind is unknown, INVALID_NODE if the node is no processor,
/// NO_ACCESS if the caller may not wake it, and FAILURE if it is active already.
pub fn serve(
    tables: &mut Tables,
    changes: &mut Changes,
    master: usize,
    node: NodeId,
    address: Option<u64>,
    ack: u32,
    verdict: &mut Verdict,
)
    ensures verdict { verdict.new ≡ verdict_of (request_wakeup address ack (wake_view master node tables.old)) }
    ensures book { tables.new
        ≡ after_stages (stages_of (request_wakeup address ack (wake_view master node tables.old))) tables.old }
    ensures written { changes.new ≡ written_along
        (stages_of (request_wakeup address ack (wake_view master node tables.old)))
        tables.old changes.old }
{
    let view = wake_view(tables, master, node);
    if ack_kind(ack).is_none() {
        return verdict.refuse(INVALID_PARAMETER);
    }
    let Some(p) = view.place else {
        return verdict.refuse(INVALID_NODE);
    };
    let Some(target) = view.target else {
        return verdict.refuse(NO_ACCESS);
    };
    match target.proc.mode {
        Mode::Active => verdict.refuse(FAILURE),
        Mode::Off | Mode::Asleep | Mode::Suspending => {
            let address = address.unwrap_or(target.proc.address);
            tables.proc_stage(target.owner, p, Mode::Active, address, changes);
            verdict.finish()
        }
    }
}
