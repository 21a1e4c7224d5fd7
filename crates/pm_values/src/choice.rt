//! Which state a slave stands in.

ghost use Rattle.std.specs.Prelude.{◌≡◌};
ghost use Rattle.pm_topology.specs.WellFormed.{HasFullLast};
ghost use Rattle.pm_state.specs.Choice.{state_for};

use pm_rows::Wanted;
use pm_slaves::first_that_meets;
use pm_topology::SlaveDef;

/// The place of the first state that has every capability wanted and a latency within the limit.
/// There always is one where the slave has the capabilities wanted: the last state.
#[tactic(auto, using(crate::proofs::Full::chosen_fits))]
pub(crate) fn chosen_state(slave: &SlaveDef, wanted: Wanted) -> u32
    requires { HasFullLast slave.now.states }
    ensures { result ≡ state_for wanted slave.now.states }
{
    first_that_meets(slave.states.as_slice(), wanted.caps, wanted.limit).unwrap_or(0) as u32
}
