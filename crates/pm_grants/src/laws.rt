//! What is looked up by places is what the object permits.

ghost use Rattle.pm_grants.specs.Laws.{GrantLaws};
ghost use Rattle.pm_grants.specs.Several.{SeveralGrantLaws};

use pm_topology::kinds_are_exact;

/// Each permission by places is the one that the object's records give by numbers.
pub fn grants_are_permissions()
    ensures { GrantLaws }
{
    kinds_are_exact();
}

/// What at least one of several objects permits, in each of which a master has the same place, is by places what it is
/// by numbers.
pub fn some_grants_are_permissions()
    ensures { SeveralGrantLaws }
{
    grants_are_permissions();
}
