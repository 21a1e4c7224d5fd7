//! Laws of the clocks.

ghost use Rattle.pm_clock_tree.specs.Laws.{RunByTheirParents, StandAfterSteps, StayPermitted};

/// A clock runs exactly if it is a root whose slave is on, or a master enables it and the parent that is chosen for
/// it runs.
pub fn clocks_run_by_their_parents()
    ensures { RunByTheirParents }
{}

/// Each master may use the slaves of the clocks that it enables, by the object that was in force in the last step.
pub fn enables_stay_permitted()
    ensures { StayPermitted }
{}

/// Clocks stand over the book at load and after each step. If they stand each master may use the slaves of the clocks
/// that it enables, and so it is in a step that leaves the object in force as it is. No call changes a root.
pub fn clocks_stand_after_steps()
    ensures { StandAfterSteps }
{}
