//! What is logged between the two stages of a call.

ghost use Rattle.std.specs.Prelude.{◌≡◌, length};
ghost use Rattle.pm_calls.specs.Between.{between};
ghost use Rattle.pm_values.specs.Along.{HasPlaces};

use pm_state::{Changes, Tables};
use pm_values::Along;

/// Logs the modes after a first stage, if a processor is written down. If none is, they are as they were logged.
pub(crate) fn log_between(tables: &Tables, changes: &Changes, along: &mut Along)
    requires { HasPlaces (length tables.now.fixed.object.masters) (length tables.now.fixed.topology.procs)
        along.old }
    ensures { along.new ≡ between changes.now.procs.list tables.now along.old }
{
    if !changes.procs().is_empty() {
        along.log(tables);
    }
}
