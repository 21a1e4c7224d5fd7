//! PM_INIT_FINALIZE (UG1200).

ghost use Rattle.std.specs.Prelude.{◌≡◌};
ghost use Rattle.pm_state.specs.Changes.{written_along};
ghost use Rattle.pm_calls.specs.Verdict.{stages_of, verdict_of};
ghost use Rattle.pm_state.specs.Stages.{after_stages};
ghost use Rattle.pm_calls.specs.calls.InitFinalize.{init_finalize};

use crate::verdict::Verdict;
use pm_state::{Changes, Tables};

/// Drops the caller's holds, which keep all capabilities of slaves from the load until now. It is never refused.
pub fn serve(tables: &mut Tables, changes: &mut Changes, master: usize, verdict: &mut Verdict)
    ensures verdict { verdict.new ≡ verdict_of (init_finalize master) }
    ensures book { tables.new ≡ after_stages (stages_of (init_finalize master)) tables.old }
    ensures written { changes.new ≡ written_along (stages_of (init_finalize master)) tables.old changes.old }
{
    tables.settle_stage(master, changes);
    verdict.finish()
}
