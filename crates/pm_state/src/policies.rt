//! What each object of a run permits on the chip, compiled once.

ghost use Rattle.std.specs.Prelude.{◌≡◌, IfOk};
ghost use Rattle.pm_state.specs.Policies as spec;
ghost use Rattle.pm_state.specs.Policies.{policies_of, policy_of};

use crate::pairs::{Permitted, permitted_in};
use pm_base::{List, NoMemory};
use pm_grants::Grants;
use pm_object::Object;
use pm_topology::Topology;
use std::alloc::Global;

/// What an object permits: by places, and pair by pair.
#[derive(Debug, Drop)]
pub struct Policy {
    pub(crate) grants: Grants,
    pub(crate) pairs: List<Permitted>,
}

impl Policy {
    /// What an object permits: who may do what, and the pairs.
    fn load(alloc: Global, object: &Object, t: &Topology) -> Result<Policy, NoMemory>
        ensures { IfOk result (λ policy. policy ≡ policy_of t.now object.now) }
    {
        Ok(Policy {
            grants: Grants::load(alloc, object, t)?,
            pairs: permitted_in(alloc, object, t)?,
        })
    }
}

/// What each of these objects permits.
pub(crate) fn policies_of(
    alloc: Global,
    objects: &[Object],
    t: &Topology,
) -> Result<List<Policy>, NoMemory>
    ensures { IfOk result (λ policies. policies ≡ policies_of t.now objects.now) }
{
    let mut policies = List::new(alloc);
    for object in objects {
        policies.push(Policy::load(alloc, object, t)?)?;
    }
    Ok(policies)
}

/// The most pairs of any of them.
pub(crate) fn most_of(policies: &[Policy]) -> usize
    ensures { result ≡ spec.most_of policies.now }
{
    let mut most = 0;
    for policy in policies {
        most = policy.pairs.len().max(most);
    }
    most
}
