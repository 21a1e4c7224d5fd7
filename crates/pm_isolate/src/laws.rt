//! Laws of two runs: the meaning of 'a unit differs', and that a unit that differs is in the reach.

ghost use Rattle.std.specs.Prelude.{◌≡◌, true, false, List};
ghost use Rattle.pm_base.specs.declared.events.Event.{Event};
ghost use Rattle.pm_base.specs.declared.names.NodeId.{NodeId};
ghost use Rattle.pm_base.specs.declared.names.Unit.{Unit};
ghost use Rattle.pm_topology.specs.WellFormed.{IsWellFormed};
ghost use Rattle.pm_reach.specs.declared.members.Member.{Member};
ghost use Rattle.pm_reach.specs.Membership.{IsReach};
ghost use Rattle.pm_state.specs.State.{objects_of};
ghost use Rattle.pm_run.specs.Run.{Line, Setup, fixed_of, run};
ghost use Rattle.pm_laws.specs.Border.{AreObjects};
ghost use Rattle.pm_laws.specs.Quiet.{quiet};
ghost use Rattle.pm_laws.specs.ReachBorder.{border_of};
ghost use Rattle.pm_laws.specs.Values.{is_beyond};
ghost use Rattle.pm_topology.specs.Units.{has_unit};
ghost use Rattle.pm_isolate.specs.Listed.{AreListed, IsListed};
ghost use Rattle.pm_isolate.specs.Transitions.{differs, transitions};

use pm_laws::{reach_is_closed, reach_keeps_apart, values_agree};
use pm_run::books_of_a_run;
use pm_topology::{kinds_are_exact, units_stand_in_order};

/// A unit differs in two runs exactly if its transitions aren't the same.
pub fn transitions_are_exact()
    ensures same { (first second : List Line) (unit : Unit) → differs first second unit ≡ false
        → transitions unit first ≡ transitions unit second }
    ensures differ { (first second : List Line) (unit : Unit) → differs first second unit ≡ true
        → transitions unit first ≡ transitions unit second → ⊥ }
{}

/// A unit beyond the reach of a master has the same transitions in a run and in the run without that master's
/// messages. So each unit whose transitions differ is a member of the reach, or a processor of a master that is one.
pub fn what_differs_is_reached()
    ensures beyond { (c : Setup) (m : NodeId) (events : List Event) (unit : Unit)
        → AreObjects (fixed_of c) → IsWellFormed c.topology
        → is_beyond c.object c.topology (border_of (fixed_of c) m) unit ≡ true
        → transitions unit (run c events) ≡ transitions unit (run c (quiet m events)) }
    ensures one { (c : Setup) (m : NodeId) (events : List Event) (members : List Member) (unit : Unit)
        → AreObjects (fixed_of c) → IsWellFormed c.topology
        → IsReach (objects_of (fixed_of c)) c.topology m members
        → has_unit c.topology unit ≡ true
        → differs (run c events) (run c (quiet m events)) unit ≡ true
        → IsListed c.object c.topology members unit }
    ensures all { (c : Setup) (m : NodeId) (events : List Event) (members : List Member)
        → AreObjects (fixed_of c) → IsWellFormed c.topology
        → IsReach (objects_of (fixed_of c)) c.topology m members
        → AreListed c m members events }
{
    reach_keeps_apart();
    books_of_a_run();
    reach_is_closed();
    values_agree();
    kinds_are_exact();
    units_stand_in_order();
}
