//! The first state of a slave that meets what is wanted of it.

ghost use Rattle.std.specs.Prelude.{◌≡◌, ◌≤◌, ◌&&◌, ◌==◌, IsSome, IfSome, Some, bit_and, length, position};
ghost use Rattle.pm_slaves.specs.Choice.{IsFirstToMeet, LastHas, capabilities, meets, within};
ghost use Rattle.pm_topology.specs.WellFormed.{HasFullLast};

use bitflags::Flags;
use pm_base::{Caps, List};
use pm_topology::SlaveState;

/// The place of the least state of a slave that meets the requirements in force: the first that has
/// all of `caps` and a latency of at most `limit`, if there is one.
pub fn least_state(states: &List<SlaveState>, caps: Caps, limit: Option<u32>) -> u8
    requires few { length states.now ≤ 4 }
    requires last { LastHas states.now caps.0 }
    ensures place { position (meets caps.0 limit) states.now ≡ Some result }
    ensures first { IsFirstToMeet states.now caps.0 limit result }
{
    match first_that_meets(states.as_slice(), caps, limit) {
        Some(place) => place as u8,
        None => unreachable!(),
    }
}

/// The place of the first state that has all of `caps` and a latency of at most `limit`. If the
/// last state is full, as in a well-formed topology, there is one for all capabilities of the slave.
pub fn first_that_meets(states: &[SlaveState], caps: Caps, limit: Option<u32>) -> Option<usize>
    ensures place { result ≡ position (meets caps.0 limit) states.now }
    ensures first { IfSome result (IsFirstToMeet states.now caps.0 limit) }
    ensures full { HasFullLast states.now → bit_and (capabilities states.now) caps.0 ≡ caps.0 → IsSome result }
{
    search(states, caps, limit)
}

/// The place of the first state that meets what is wanted, if one does.
fn search(states: &[SlaveState], caps: Caps, limit: Option<u32>) -> Option<usize>
    ensures { result ≡ position (meets caps.0 limit) states.now }
{
    states
        .iter()
        .position(|state| does_meet(state, caps, limit))
}

/// Whether a state has these capabilities, and a latency within the limit.
fn does_meet(state: &SlaveState, caps: Caps, limit: Option<u32>) -> bool
    ensures { result ≡ meets caps.0 limit state.now }
{
    state.caps.contains(caps) && is_within(state.latency, limit)
}

/// Whether a latency is within a limit, if there is one.
fn is_within(latency: u32, limit: Option<u32>) -> bool
    ensures { result ≡ within latency limit }
{
    match limit {
        Some(limit) => latency <= limit,
        None => true,
    }
}

/// Each capability that one of the states has.
pub fn capabilities(states: &[SlaveState]) -> Caps
    ensures { result.0 ≡ capabilities states.now }
{
    let mut all = Caps(0);
    for state in states {
        all.insert(state.caps);
    }
    all
}
