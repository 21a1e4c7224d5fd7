//! The answer of a step that a device didn't follow: an internal error in place of success (UG1200, error codes
//! of the power management API).

ghost use Rattle.std.specs.Prelude.{◌≡◌, unwrap_or};
ghost use Rattle.std.specs.List.{list_any};
ghost use Rattle.pm_state.specs.Values.{value};
ghost use Rattle.pm_apply.specs.Failing.{failed_answer, failed_response, falls_short, is_failed_pulse, pulse_failed, some_differ, told_answer};

use pm_base::{LineId, Unit};
use pm_core::{Answer, Book, Done, Outbox};
use pm_ipi::Response;
use pm_ipi::status::{INTERNAL, SUCCESS};
use pm_record::Kept;
use pm_topology::same_unit;

/// The answer of a step whose commands were done: an internal error in place of success if the device didn't
/// follow the step, and else the book's answer. If that is no success that is written, nothing else is looked at.
pub(crate) fn told_answer(kept: &Kept, book: &Book, out: &Outbox) -> Answer
    ensures { result ≡ told_answer (falls_short (λ u. value u book.now) out.now.moved.items out.now.pulse
        out.now.done.items kept.now) out.now.answer }
{
    let Some(failed) = failed_answer(out.answer) else {
        return out.answer;
    };
    if falls_short(kept, book, out) {
        failed
    } else {
        out.answer
    }
}

/// The answer in place of a success that is written, and nothing for each other answer, which stays. A reply
/// tells nothing else then, and an acknowledgement keeps its operating point.
fn failed_answer(answer: Answer) -> Option<Answer>
    ensures { unwrap_or result answer ≡ failed_answer answer }
{
    match answer {
        Answer::Silent | Answer::Drop { .. } => None,
        Answer::Reply { master, response } => {
            let response = failed_response(response)?;
            Some(Answer::Reply { master, response })
        }
        Answer::Ack {
            master,
            node,
            status,
            point,
            shown,
        } => {
            if !shown || status != SUCCESS {
                return None;
            }
            Some(Answer::Ack {
                master,
                node,
                status: INTERNAL,
                point,
                shown,
            })
        }
    }
}

/// The response in place of success, and nothing for a refusal.
fn failed_response(response: Response) -> Option<Response>
    ensures { unwrap_or result response ≡ failed_response response }
{
    if response.status != SUCCESS {
        return None;
    }
    Some(Response::refusal(INTERNAL))
}

/// Whether the device didn't follow a step: after its commands a unit that moved in it has another value in the
/// record than in the book, or the line that it pulses couldn't be set to 1.
fn falls_short(kept: &Kept, book: &Book, out: &Outbox) -> bool
    ensures { result ≡ falls_short (λ u. value u book.now) out.now.moved.items out.now.pulse
        out.now.done.items kept.now }
{
    some_differ(out.moved.as_slice(), kept, book) || pulse_failed(out.pulse, out.done.as_slice())
}

/// Whether one of these units has another value in the record than in the book.
fn some_differ(units: &[Unit], kept: &Kept, book: &Book) -> bool
    ensures { result ≡ some_differ (λ u. value u book.now) units.now kept.now }
{
    units
        .iter()
        .any(|unit| kept.value(*unit) != book.value(*unit))
}

/// Whether the line that is pulsed, if one is, couldn't be set to 1.
fn pulse_failed(pulse: Option<LineId>, done: &[Done]) -> bool
    ensures { result ≡ pulse_failed pulse done.now }
{
    match pulse {
        Some(line) => one_failed(line, done),
        None => false,
    }
}

/// Whether one of these commands set a reset line to 1 and failed.
fn one_failed(line: LineId, done: &[Done]) -> bool
    ensures { result ≡ list_any (is_failed_pulse line) done.now }
{
    done.iter().any(|done| is_failed_pulse(line, done))
}

/// Whether a command set a reset line to 1 and failed.
fn is_failed_pulse(line: LineId, done: &Done) -> bool
    ensures { result ≡ is_failed_pulse line done.now }
{
    same_unit(Unit::Line(line), done.command.unit) && done.command.value == 1 && !done.ok
}
