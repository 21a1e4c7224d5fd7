//! A message with the verdict on it, and the note that waits for its sender.

ghost use Rattle.std.specs.Prelude.{◌≡◌, Some, option_to_list};
ghost use Rattle.pm_ipi.specs.Calls.{ack_of, node_of};
ghost use Rattle.pm_tell.specs.Served.{pulse_in, says_in, kept_at, kept_of, own_note};
ghost use Rattle.pm_state.specs.Talk.{talked};

use pm_base::{LineId, Mode, NodeId};
use pm_calls::{Say, Verdict};
use pm_ipi::{AckKind, Call, Response};
use pm_notify::{Note, Waiting};
use pm_procs::same_mode;
use pm_state::Tables;

/// A message with the verdict on it.
#[derive(Clone, Copy, Debug, PartialEq, Eq)]
pub struct Served {
    pub master: NodeId,
    pub call: Call,
    pub verdict: Verdict,
}

/// What the masters are told by a message, if there is one.
pub(crate) fn says_in(served: &Option<Served>) -> Option<Say>
    ensures { result ≡ says_in served.now }
{
    match served {
        Some(served) => served.verdict.says(),
        None => None,
    }
}

/// The reset line that is pulsed by it.
pub fn pulse_in(served: &Option<Served>) -> Option<LineId>
    ensures { result ≡ pulse_in served.now }
{
    match served {
        Some(served) => served.verdict.pulse(),
        None => None,
    }
}

/// Lets the acknowledgement of a call wait for the sender of its message, if that is asleep after it.
pub(crate) fn keep_own(tables: &mut Tables, served: &Option<Served>)
    ensures { tables.new ≡ talked (kept_of served.now tables.old) tables.old }
{
    let Some(served) = served else {
        return;
    };
    if let Some(m) = tables.master_place(served.master) {
        keep_at(tables, m, own_note(served.verdict.response(), &served.call));
    }
}

/// Keeps an acknowledgement for the master at a place, if it is asleep.
fn keep_at(tables: &mut Tables, m: usize, note: Option<Waiting>)
    ensures { tables.new ≡ talked (kept_at (Some m) (option_to_list note) tables.old) tables.old }
{
    if let Some(waiting) = note {
        if same_mode(tables.mode_of_master(m), Mode::Asleep) {
            tables.wait_note(m, waiting);
        }
    }
}

/// The acknowledgement of a call as a note, if its caller wants the callback and is answered now.
fn own_note(response: Option<Response>, call: &Call) -> Option<Waiting>
    ensures { option_to_list result ≡ own_note response (ack_of call.now) (node_of call.now) }
{
    match (response, call.ack()) {
        (Some(response), AckKind::NonBlocking) => Some(Waiting {
            node: call.node(),
            note: Note::Ack {
                status: response.status,
            },
        }),
        _ => None,
    }
}
