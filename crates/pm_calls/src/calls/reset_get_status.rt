//! PM_RESET_GET_STATUS (UG1200).

ghost use Rattle.std.specs.Prelude.{◌≡◌};
ghost use Rattle.pm_calls.specs.ResetLines.{line_status};
ghost use Rattle.pm_calls.specs.Verdict.{verdict_of};
ghost use Rattle.pm_calls.specs.calls.ResetGetStatus.{reset_get_status};

use crate::reset_lines::line_status;
use crate::verdict::Verdict;
use pm_base::LineId;
use pm_ipi::status::INVALID_NODE;
use pm_state::Tables;

/// Tells the value of a reset line: 1 if it is asserted, else 0. No permission is needed. Refused with INVALID_NODE
/// if the chip has no such line.
pub fn serve(tables: &Tables, line: LineId, verdict: &mut Verdict)
    ensures { verdict.new ≡ verdict_of (reset_get_status (line_status line tables.now)) }
{
    match line_status(tables, line) {
        Some(value) => verdict.tell([value, 0, 0]),
        None => verdict.refuse(INVALID_NODE),
    }
}
