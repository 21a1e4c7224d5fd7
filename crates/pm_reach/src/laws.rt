//! Laws of a reach. Each is a record of facts, which stands beside what it speaks of.

ghost use Rattle.pm_reach.specs.Border.{IsClosedToMasters, IsClosedToUnits, IsClosedUpwards};
ghost use Rattle.pm_reach.specs.Reached.{ReachTests};

use pm_topology::kinds_are_exact;

/// The border of a reach is closed to masters: those that a master within can act upon are within.
pub fn masters_within()
    ensures { IsClosedToMasters }
{}

/// The border of a reach is closed to units: those that a master within can change are within.
pub fn units_within()
    ensures { IsClosedToUnits }
{}

/// The border of a reach is closed upwards: the power node directly above what is within is within.
pub fn parents_within()
    ensures { IsClosedUpwards }
{
    kinds_are_exact();
}

/// Whether a master or a unit is within a reach is a test: what a path leads to is found in as many steps as
/// there are masters.
pub fn reach_is_decided()
    ensures { ReachTests }
{}
