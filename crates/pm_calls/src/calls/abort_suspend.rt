//! PM_ABORT_SUSPEND (UG1200).

ghost use Rattle.std.specs.Prelude.{◌≡◌};
ghost use Rattle.pm_state.specs.Changes.{written_along};
ghost use Rattle.pm_calls.specs.Verdict.{stages_of, verdict_of};
ghost use Rattle.pm_state.specs.Stages.{after_stages};
ghost use Rattle.pm_calls.specs.Views.{is_asked, proc_view};
ghost use Rattle.pm_calls.specs.calls.AbortSuspend.{abort_suspend, is_reason};

use crate::verdict::{Say, Verdict};
use crate::views::{is_asked, proc_view};
use pm_base::{Mode, NodeId};
use pm_ipi::status::{FAILURE, INVALID_NODE, INVALID_PARAMETER, NO_ACCESS};
use pm_state::{Changes, Tables};

/// Whether a word is a reason for an abort: 100 to 103.
fn is_reason(reason: u32) -> bool
    ensures { result ≡ is_reason reason }
{
    (100..=103).contains(&reason)
}

/// Aborts a suspend of the caller. If its processor is suspending, that is active again and keeps its resume address.
/// A request to suspend that is pending on the caller ends.
/// Refused with INVALID_NODE if the node is no processor, INVALID_PARAMETER if the reason is unknown, NO_ACCESS if
/// the processor isn't the caller's, and FAILURE if there is nothing to abort: the processor is off or asleep, or it
/// is active and no request is pending.
pub fn serve(
    tables: &mut Tables,
    changes: &mut Changes,
    master: usize,
    node: NodeId,
    reason: u32,
    verdict: &mut Verdict,
)
    ensures verdict { verdict.new
        ≡ verdict_of (abort_suspend master reason (is_asked master tables.old) (proc_view master node tables.old)) }
    ensures book { tables.new
        ≡ after_stages (stages_of
        (abort_suspend master reason (is_asked master tables.old) (proc_view master node tables.old))) tables.old }
    ensures written { changes.new ≡ written_along
        (stages_of (abort_suspend master reason (is_asked master tables.old) (proc_view master node tables.old)))
        tables.old changes.old }
{
    let view = proc_view(tables, master, node);
    let pending = is_asked(tables, master);
    let Some(p) = view.place else {
        return verdict.refuse(INVALID_NODE);
    };
    if !is_reason(reason) {
        return verdict.refuse(INVALID_PARAMETER);
    }
    let Some(proc) = view.own else {
        return verdict.refuse(NO_ACCESS);
    };
    match proc.mode {
        Mode::Suspending => tables.proc_stage(master, p, Mode::Active, proc.address, changes),
        Mode::Active if pending => tables.follow(changes),
        Mode::Active | Mode::Off | Mode::Asleep => return verdict.refuse(FAILURE),
    }
    verdict.say(Say::Abort(master))
}
