//! Laws of books.

ghost use Rattle.std.specs.Prelude.{◌≡◌, List, false, is_some, true};
ghost use Rattle.pm_base.specs.declared.events.Event.{Event};
ghost use Rattle.pm_base.specs.declared.names.NodeId.{NodeId};
ghost use Rattle.pm_object.specs.declared.object.Object.{Object};
ghost use Rattle.pm_perms.specs.Permits.{may_use};
ghost use Rattle.pm_topology.specs.declared.topology.Topology.{Topology};
ghost use Rattle.pm_object.specs.declared.attached.Attached.{Attached};
ghost use Rattle.pm_state.specs.Load.{load_in, load_of};
ghost use Rattle.pm_state.specs.Sound.{IsSound};
ghost use Rattle.pm_state.specs.State.{State, in_force};
ghost use Rattle.pm_step.specs.Step.{configures, effect, renews};
ghost use Rattle.pm_state.specs.Nodes.{row};

use pm_notify::notes_stand_in_order;
use pm_procs::{modes_of_masters, requests_of_masters};
use pm_rows::{rows_stay_sound, shifts_leave_others};
use pm_state::loads_are_sound;

/// The book at load is sound, each event keeps a book so, in a sound book a master has a row on a slave
/// exactly if the object in force permits the pair, and after a restart of all a sound book is the book at load with
/// that object in force.
pub fn books_stay_sound()
    ensures load { (object : Object) (attached : List Attached) (topology : Topology)
        → IsSound (load_of object attached topology) }
    ensures step { (event : Event) (book : State) → IsSound book → IsSound (effect event book) }
    ensures permitted { (master slave : NodeId) (book : State) → IsSound book
        → is_some (row master slave book) ≡ may_use (in_force book) book.fixed.topology master slave }
    ensures restart { (event : Event) (book : State) → IsSound book → renews event book ≡ true
        → effect event book ≡ load_in book.fixed (in_force book) }
{
    rows_stay_sound();
    shifts_leave_others();
    modes_of_masters();
    requests_of_masters();
    notes_stand_in_order();
    loads_are_sound();
}

/// Only the call SET_CONFIGURATION puts another object in force: after any other event it is the one before.
pub fn only_one_call_configures()
    ensures force { (event : Event) (book : State) → configures event ≡ false
        → in_force (effect event book) ≡ in_force book }
{}
