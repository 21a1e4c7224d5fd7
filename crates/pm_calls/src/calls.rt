//! The calls, one file each, and which of these files serves a call.

ghost use Rattle.std.specs.Prelude.{◌≡◌, [], length, true, false};
ghost use Rattle.pm_state.specs.Changes.{written_along};
ghost use Rattle.pm_calls.specs.Verdict.{stages_of, verdict_of};
ghost use Rattle.pm_calls.specs.Shapes.{is_once, is_suspending, only_reads};
ghost use Rattle.pm_calls.specs.calls.{called, shape_of};
ghost use Rattle.pm_state.specs.Stages.{after_stages, path_from};
ghost use Rattle.pm_values.specs.Along.{Completes, trail_from};
ghost use Rattle.pm_values.specs.Caches.{AreKept};

mod abort_suspend;
mod force_powerdown;
mod get_api_version;
mod get_node_status;
mod get_op_characteristic;
mod init_finalize;
mod register_notifier;
mod release_node;
mod request_node;
mod request_suspend;
mod request_wakeup;
mod reset_assert;
mod reset_get_status;
mod self_suspend;
mod set_configuration;
mod set_max_latency;
mod set_requirement;
mod set_wakeup_source;
mod system_shutdown;

use crate::verdict::Verdict;
use pm_ipi::Call;
use pm_ipi::status::NO_FEATURE;
use pm_state::{Changes, Tables};
use pm_values::{Along, Caches};

/// Judges a call of the master at place `master`, and leaves the verdict in `verdict`. An accepted call changes the
/// book, and its changes are written down in `changes`. `along` has the modes before the call. Those between two stages
/// are logged in it, if a processor is written down by then. Each call's file says when it is refused.
#[inline(never)]
pub fn serve(
    tables: &mut Tables,
    changes: &mut Changes,
    caches: &Caches,
    master: usize,
    call: &Call,
    along: &mut Along,
    verdict: &mut Verdict,
)
    requires kept { AreKept tables.old caches.now }
    requires along { along.old ≡ trail_from tables.old }
    requires places { changes.old.procs.count ≡ length tables.old.now.core.procs }
    ensures verdict { verdict.new ≡ verdict_of (called master call.now tables.old) }
    ensures book { tables.new ≡ after_stages (stages_of (called master call.now tables.old)) tables.old }
    ensures written { changes.new
        ≡ written_along (stages_of (called master call.now tables.old)) tables.old changes.old }
    ensures along { Completes tables.old
        (path_from (stages_of (called master call.now tables.old)) tables.old) tables.new along.new }
    ensures still { changes.new.procs.list ≡ [] → along.new ≡ along.old }
{
    match call {
        Call::ForcePowerdown { node, ack } => {
            force_powerdown::serve(tables, changes, master, *node, *ack, along, verdict);
        }
        Call::SystemShutdown {
            shutdown_type,
            subtype,
        } => system_shutdown::serve(
            tables,
            changes,
            master,
            *shutdown_type,
            *subtype,
            along,
            verdict,
        ),
        _ => serve_once(tables, changes, caches, master, call, verdict),
    }
}

/// Serves the calls of one stage at most. Those that tell what they read of the book are here, and those that suspend or
/// wake a processor or a master, or abort a suspend. The others are in `serve_changing`.
fn serve_once(
    tables: &mut Tables,
    changes: &mut Changes,
    caches: &Caches,
    master: usize,
    call: &Call,
    verdict: &mut Verdict,
)
    requires kept { AreKept tables.old caches.now }
    requires once { is_once (shape_of call.now) ≡ true }
    ensures verdict { verdict.new ≡ verdict_of (called master call.now tables.old) }
    ensures book { tables.new ≡ after_stages (stages_of (called master call.now tables.old)) tables.old }
    ensures written { changes.new
        ≡ written_along (stages_of (called master call.now tables.old)) tables.old changes.old }
{
    match call {
        Call::GetNodeStatus { node } => {
            get_node_status::serve(tables, caches, master, *node, verdict);
        }
        Call::GetOpCharacteristic {
            node,
            characteristic,
        } => get_op_characteristic::serve(tables, caches, *node, *characteristic, verdict),
        Call::ResetGetStatus { line } => reset_get_status::serve(tables, *line, verdict),
        Call::RequestSuspend {
            node,
            ack,
            latency,
            state,
        } => request_suspend::serve(tables, master, *node, *ack, *latency, *state, verdict),
        Call::SelfSuspend { node, address } => {
            self_suspend::serve(tables, changes, master, *node, *address, verdict);
        }
        Call::AbortSuspend { node, reason } => {
            abort_suspend::serve(tables, changes, master, *node, *reason, verdict);
        }
        Call::RequestWakeup { node, address, ack } => {
            request_wakeup::serve(tables, changes, master, *node, *address, *ack, verdict);
        }
        _ => serve_changing(tables, changes, master, call, verdict),
    }
}

/// Serves the other calls of one stage at most. GET_API_VERSION reads nothing of the book. Each other one changes the
/// caller's rows or its holds, a notifier, a reset line and the processor that it resets, or the object in force. A call
/// of unknown number is refused with NO_FEATURE.
fn serve_changing(
    tables: &mut Tables,
    changes: &mut Changes,
    master: usize,
    call: &Call,
    verdict: &mut Verdict,
)
    requires once { is_once (shape_of call.now) ≡ true }
    requires changes { only_reads (shape_of call.now) ≡ false }
    requires stays { is_suspending (shape_of call.now) ≡ false }
    ensures verdict { verdict.new ≡ verdict_of (called master call.now tables.old) }
    ensures book { tables.new ≡ after_stages (stages_of (called master call.now tables.old)) tables.old }
    ensures written { changes.new
        ≡ written_along (stages_of (called master call.now tables.old)) tables.old changes.old }
{
    match call {
        Call::GetApiVersion => get_api_version::serve(verdict),
        Call::SetConfiguration(address) => {
            set_configuration::serve(tables, changes, master, *address, verdict);
        }
        Call::RegisterNotifier {
            node,
            event,
            enable,
            ..
        } => register_notifier::serve(tables, master, *node, *event, *enable, verdict),
        Call::SetWakeupSource {
            target,
            source,
            enable,
        } => set_wakeup_source::serve(tables, changes, master, *target, *source, *enable, verdict),
        Call::RequestNode { node, caps, ack } => {
            request_node::serve(tables, changes, master, *node, *caps, *ack, verdict);
        }
        Call::ReleaseNode { node } => release_node::serve(tables, changes, master, *node, verdict),
        Call::SetRequirement { node, caps, ack } => {
            set_requirement::serve(tables, changes, master, *node, *caps, *ack, verdict);
        }
        Call::SetMaxLatency { node, latency } => {
            set_max_latency::serve(tables, changes, master, *node, *latency, verdict);
        }
        Call::ResetAssert { line, action } => {
            reset_assert::serve(tables, changes, master, *line, *action, verdict);
        }
        Call::InitFinalize => init_finalize::serve(tables, changes, master, verdict),
        _ => verdict.refuse(NO_FEATURE),
    }
}
