//! PM_RESET_ASSERT (UG1200).

ghost use Rattle.std.specs.Prelude.{◌≡◌, ◌∷◌, ◌==◌};
ghost use Rattle.pm_state.specs.Changes.{written_along, written_by, written_stage};
ghost use Rattle.pm_calls.specs.Verdict.{stages_of, verdict_of};
ghost use Rattle.pm_calls.specs.ResetLines.{line_view};
ghost use Rattle.pm_state.specs.Prims.{changed, Put_line};
ghost use Rattle.pm_state.specs.Stages.{after_stage, after_stages};
ghost use Rattle.pm_calls.specs.calls.ResetAssert.{is_action, pulsed, reset_assert, stopped, stopped_by};

use crate::reset_lines::{OwnedProc, line_view};
use crate::verdict::Verdict;
use pm_base::{LineId, Mode};
use pm_ipi::status::{INVALID_NODE, INVALID_PARAMETER, NO_ACCESS};
use pm_state::{Changes, Tables};

const RELEASE: u32 = 0;

const ASSERT: u32 = 1;

const PULSE: u32 = 2;

/// Whether a word is an action of a reset: release 0, assert 1, or pulse 2.
fn is_action(action: u32) -> bool
    ensures { result ≡ is_action action }
{
    matches!(action, RELEASE | ASSERT | PULSE)
}

/// The line if the action is a pulse, else None.
fn pulsed(action: u32, line: LineId) -> Option<LineId>
    ensures { result ≡ pulsed action line }
{
    if action == PULSE { Some(line) } else { None }
}

/// Releases, asserts or pulses a reset line. Its value is 1 if it is asserted, and 0 if it is released or after a
/// pulse. If it resets a processor that a configured master has, that goes off when the line is asserted or pulsed,
/// and stays off when it is released. A slave that is reset keeps its state.
/// Refused with INVALID_NODE if the chip has no such line, INVALID_PARAMETER if the action is unknown, and NO_ACCESS
/// if the caller may not reset it.
pub fn serve(
    tables: &mut Tables,
    changes: &mut Changes,
    master: usize,
    line: LineId,
    action: u32,
    verdict: &mut Verdict,
)
    ensures verdict { verdict.new ≡ verdict_of (reset_assert line action (line_view master line tables.old)) }
    ensures book { tables.new
        ≡ after_stages (stages_of (reset_assert line action (line_view master line tables.old))) tables.old }
    ensures written { changes.new ≡ written_along
        (stages_of (reset_assert line action (line_view master line tables.old)))
        tables.old changes.old }
{
    let view = line_view(tables, master, line);
    let Some(place) = view.place else {
        return verdict.refuse(INVALID_NODE);
    };
    if !is_action(action) {
        return verdict.refuse(INVALID_PARAMETER);
    }
    if !view.permitted {
        return verdict.refuse(NO_ACCESS);
    }
    reset_stage(tables, changes, place, action, view.target);
    verdict.pulse_by(pulsed(action, line))
}

/// The one stage of a reset: the line takes its value, and unless it is released, its processor goes off.
fn reset_stage(
    tables: &mut Tables,
    changes: &mut Changes,
    place: usize,
    action: u32,
    target: Option<OwnedProc>,
)
    ensures book { tables.new ≡ after_stage (Put_line place (action == 1) ∷ stopped_by action target) tables.old }
    ensures written { changes.new
        ≡ written_stage (Put_line place (action == 1) ∷ stopped_by action target) tables.old changes.old }
{
    tables.put_line(place, action == ASSERT, changes);
    if action != RELEASE {
        stop(tables, changes, target);
    }
    tables.follow(changes);
}

/// Switches off the processor that a line resets, if there is one.
fn stop(tables: &mut Tables, changes: &mut Changes, target: Option<OwnedProc>)
    ensures book { tables.new ≡ changed (stopped target) tables.old }
    ensures written { changes.new ≡ written_by (stopped target) tables.old changes.old }
{
    if let Some(target) = target {
        tables.put_proc(target.owner, target.proc, Mode::Off, 0, changes);
    }
}
