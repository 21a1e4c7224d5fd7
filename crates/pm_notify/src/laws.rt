//! Laws of the notifiers and of the notes that wait. Most are a record of facts, which stands with the definitions.

ghost use Rattle.std.specs.Prelude.{List};
ghost use Rattle.pm_notify.specs.MasterNotes.{MasterNotes};
ghost use Rattle.pm_notify.specs.Notify.{NoneAsks, all_forgotten};
ghost use Rattle.pm_notify.specs.Laws.{NotifierLaws, OrderLaws, OtherNotesLaws, SlotLaws, TakeLaws};

use crate::node_notes::NodeNotes;
use pm_topology::{unit_maps, units_stand_in_order};

/// What was put is asked for, until it is put otherwise or the master's notes are cleared; and no other
/// notifier notices.
pub fn notifiers_are_kept()
    ensures { NotifierLaws }
{
    unit_maps::<NodeNotes>();
    units_stand_in_order();
}

/// Where all masters forget, none has asked for anything.
pub(crate) fn none_asks_after_all_forget()
    ensures { (notify : List MasterNotes) → NoneAsks (all_forgotten notify) }
{
    unit_maps::<NodeNotes>();
    units_stand_in_order();
}

/// A note waits in its slot until it is taken out, replaced or cleared; and no other slot notices.
pub fn notes_wait_in_slots()
    ensures { SlotLaws }
{
    unit_maps::<NodeNotes>();
    units_stand_in_order();
}

/// What is put, waits, is taken or is cleared for one master leaves the notes of all others.
pub fn others_keep_their_notes()
    ensures { OtherNotesLaws }
{}

/// The notes of each master are about the units of the chip, in order.
pub fn notes_stand_in_order()
    ensures { OrderLaws }
{
    unit_maps::<NodeNotes>();
    units_stand_in_order();
}

/// Notes are taken by the number of their node and then by their kind, each once, until none waits.
pub fn takes_drain_the_slots()
    ensures { TakeLaws }
{
    unit_maps::<NodeNotes>();
    units_stand_in_order();
}
