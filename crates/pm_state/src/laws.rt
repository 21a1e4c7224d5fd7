//! Laws of the state.

ghost use Rattle.std.specs.Prelude.{◌≡◌, ℕ, List, Some, is_some, true};
ghost use Rattle.pm_base.specs.declared.names.NodeId.{NodeId};
ghost use Rattle.pm_object.specs.declared.object.Object.{Object};
ghost use Rattle.pm_perms.specs.Permits.{may_use};
ghost use Rattle.pm_topology.specs.declared.topology.Topology.{Topology};
ghost use Rattle.pm_state.specs.Load.{load_in};
ghost use Rattle.pm_procs.specs.Procs.{has_member};
ghost use Rattle.pm_state.specs.Members.{members_of, owns};
ghost use Rattle.pm_state.specs.Sound.{IsSound};
ghost use Rattle.pm_state.specs.Objects.{found_at, usable_first};
ghost use Rattle.pm_state.specs.State.{Fixed, State, in_force, object_at};
ghost use Rattle.pm_state.specs.declared.objects.Found.TheVariants.{Usable};
ghost use Rattle.pm_state.specs.Changes.{HasPlaces, Keeps, Written, unwritten, written_along};
ghost use Rattle.pm_state.specs.Nodes.{row};
ghost use Rattle.pm_state.specs.Prims.{Prim};
ghost use Rattle.pm_state.specs.Stages.{after_stages};

use pm_notify::notes_stand_in_order;
use pm_procs::{modes_of_masters, requests_of_masters};
use pm_rows::{rows_stay_sound, shifts_leave_others};

/// The book at load is sound, whichever object of the run is in force, and in a sound book a master has a row on a
/// slave exactly if the object in force permits the pair.
pub fn loads_are_sound()
    ensures load { (fixed : Fixed) (object : Object) (k : ℕ) → object_at fixed k ≡ Some object
        → IsSound (load_in fixed object) }
    ensures permitted { (master slave : NodeId) (book : State) → IsSound book
        → is_some (row master slave book) ≡ may_use (in_force book) book.fixed.topology master slave }
{
    rows_stay_sound();
    shifts_leave_others();
    modes_of_masters();
    requests_of_masters();
    notes_stand_in_order();
}

/// Each processor among a master's is its own: no other configured master that has it comes before.
pub fn members_are_owned()
    ensures { (object : Object) (topology : Topology) (m p : ℕ)
        → has_member m p (members_of object topology) ≡ true → owns object topology m p ≡ true }
{}

/// The object that is found at an address is what is attached there first, where that can be put in force.
pub fn found_objects_are_attached()
    ensures { (address k : ℕ) (fixed : Fixed) → found_at address fixed ≡ Usable k
        → object_at fixed k ≡ usable_first fixed.object address fixed.attached }
{}

/// What the stages of a step don't write down keeps what is wanted of it and its users, its mode and resume address,
/// whether it is asserted, and the mode that the rows know of it.
#[tactic(auto, using(crate::proofs::ChangesLaw::keeps_step, crate::proofs::PlacesLaw::places_stay))]
pub fn changes_are_written()
    ensures kept { (stages : List (List Prim)) (book : State) (w : Written)
        → Keeps (written_along stages book (unwritten w)) book.now.core (after_stages stages book).now.core }
    ensures places { (fixed : Fixed) (stages : List (List Prim)) (book : State) (w : Written)
        → HasPlaces fixed w → HasPlaces fixed (written_along stages book (unwritten w)) }
{}
