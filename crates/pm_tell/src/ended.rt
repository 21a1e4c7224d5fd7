//! How requests to suspend end.

ghost use Rattle.std.specs.Prelude.{◌≡◌, Some, option_to_list};
ghost use Rattle.pm_tell.specs.Ended as spec;

use pm_ipi::status::{ABORT_SUSPEND, SUCCESS, TIMEOUT};
use pm_procs::Pending;
use pm_values::Turns;

/// A request to suspend that ended: the place of the master that was asked, the request, and the status
/// of its end.
#[derive(Clone, Copy, Debug, PartialEq, Eq)]
pub struct Ended {
    pub target: usize,
    pub request: Pending,
    pub status: u32,
}

/// How a request ends, by the first that holds: well if its target becomes asleep or off, as an
/// aborted suspend, and as timed out.
fn ends_with(down: bool, on: bool, due: bool) -> Option<u32>
    ensures { result ≡ spec.ends_with down on due }
{
    if down {
        Some(SUCCESS)
    } else if on {
        Some(ABORT_SUSPEND)
    } else if due {
        Some(TIMEOUT)
    } else {
        None
    }
}

/// Whether a request is due where this time passes, if any does.
fn due_after(count: Option<u32>, request: &Pending) -> bool
    ensures { result ≡ spec.due_after count request.now }
{
    match count {
        Some(count) => request.is_due(count),
        None => false,
    }
}

/// The end of the request that is pending on a master, by what becomes of its mode, by the master that aborts its
/// suspend, and by the time that passes.
pub(crate) fn ended_at(
    turns: Turns,
    aborts: Option<usize>,
    count: Option<u32>,
    m: usize,
    request: Pending,
) -> Option<Ended>
    ensures { option_to_list result ≡ spec.ended_at turns aborts count m (Some request) }
{
    let on = turns.on || aborts == Some(m);
    let status = ends_with(turns.down, on, due_after(count, &request))?;
    Some(Ended {
        target: m,
        request,
        status,
    })
}
