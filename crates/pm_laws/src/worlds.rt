//! Two books side by side, one of them without the messages of a master.

ghost use Rattle.std.specs.List.{AllByRecursion as Each, list_any};
ghost use Rattle.std.specs.Prelude.{◌≡◌, ◌==◌, IsTrue, List};
ghost use Rattle.pm_base.specs.declared.events.Event.{Event};
ghost use Rattle.pm_base.specs.declared.events.Event.TheVariants.{Pass};
ghost use Rattle.pm_object.specs.Grammar.{IsObject};
ghost use Rattle.pm_object.specs.declared.attached.Attached.{Attached};
ghost use Rattle.pm_object.specs.declared.object.Object.{Object};
ghost use Rattle.pm_topology.specs.declared.topology.Topology.{Topology};
ghost use Rattle.pm_object.specs.Attached.{IsFormed};
ghost use Rattle.pm_state.specs.Load.{load_of};
ghost use Rattle.pm_state.specs.State.{State};
ghost use Rattle.pm_core.specs.Outbox.{HasRoomFor, Holds, KeepsRoom};
ghost use Rattle.pm_core.specs.Step.{effect, outputs};
ghost use Rattle.pm_laws.specs.Agree.{Agree};
ghost use Rattle.pm_laws.specs.Beside.{IsOwn};
ghost use Rattle.pm_laws.specs.Border.{AreObjects};
ghost use Rattle.pm_laws.specs.Left.{border_in, stepped};
ghost use Rattle.pm_laws.specs.Quiet.{quiet_event};
ghost use Rattle.pm_laws.specs.Told.{SameTold, TellsNothing};
ghost use Rattle.pm_laws.specs.Values.{IsModeAlike, IsValueAlike};

use crate::apart::steps_keep_apart;
use pm_base::{Event, NodeId};
use pm_core::{Book, Outbox};

/// The quiet event of an event: `pass`, in which nothing happens, for a message of the master, one put into its box,
/// or, if it is master 1, a power call, which becomes messages of master 1; else the event itself. The result is
/// borrowed, since an event may hold the words of an object.
pub fn quiet_event<'e>(m: NodeId, event: &'e Event, pass: &'e Event) -> &'e Event
    requires { pass.now ≡ Pass }
    ensures { result.now ≡ quiet_event m event.now }
{
    match event {
        Event::Ipi { master, .. } | Event::Post { master, .. } => {
            if master.0 == m.0 { pass } else { event }
        }
        Event::Smc { .. } => { if m.0 == 1 { pass } else { event } }
        _ => event,
    }
}

/// The objects of a run are well formed at load if the loaded object is, and each attached one that can be read;
/// those that `decode` reads are. A step keeps the objects of its book. So a caller that loads its books may step
/// them side by side.
pub fn loaded_objects_are_objects()
    ensures load { (object : Object) (attached : List Attached) (topology : Topology) → IsObject object
        → Each IsFormed attached → AreObjects (load_of object attached topology).fixed }
    ensures step { (event : Event) (book : State) → AreObjects book.fixed → AreObjects (effect event book).fixed }
{}

/// Steps one book by an event, and the other by its quiet event: nothing, if it is a message of master `m`. Nothing
/// beyond the reach of `m` can tell the two books apart. No memory is taken.
///
/// The books have the same loaded object, which has the master, the same attached objects and the same chip. Each
/// object that can be in force is well formed (`loaded_objects_are_objects`). The books agree beyond the reach, and
/// each outbox was loaded for its book.
///
/// After the steps the books agree there, with equal values and modes. Both steps tell the same there: moves, starts
/// at their addresses, the pulse, requests to masters, their ends and late replies, and callbacks, except those about
/// nodes within. A message of a master beyond is dropped in both or in neither, and answered alike if its call names
/// nothing within. Each outbox keeps its room.
pub fn step_both(
    a: &mut Book,
    b: &mut Book,
    m: NodeId,
    event: &Event,
    oa: &mut Outbox,
    ob: &mut Outbox,
)
    requires object { AreObjects a.old.fixed }
    requires named { IsTrue (list_any (λ r. r.node == m.0) a.old.fixed.object.masters) }
    requires agree { Agree (border_in a.old m) a.old b.old }
    requires room_a { HasRoomFor a.old oa.old }
    requires room_b { HasRoomFor b.old ob.old }

    // each book is stepped, and its outbox holds what the step puts out
    ensures book_a { a.new ≡ effect event.now a.old }
    ensures book_b { b.new ≡ effect (quiet_event m event.now) b.old }
    ensures out_a { Holds (outputs event.now a.old) oa.new }
    ensures out_b { Holds (outputs (quiet_event m event.now) b.old) ob.new }

    // the books keep their objects and their chip, and agree beyond the reach
    ensures fixed { a.new.fixed ≡ a.old.fixed }
    ensures agree { Agree (border_in a.old m) a.new b.new }
    // values, modes and what is told are alike beyond the reach
    ensures values { IsValueAlike a.old.fixed.object a.old.fixed.topology (border_in a.old m) a.new b.new }
    ensures modes { IsModeAlike a.old.fixed.object a.old.fixed.topology (border_in a.old m) a.new b.new }
    ensures told { SameTold a.old.fixed.object a.old.fixed.topology (border_in a.old m)
        (stepped event.now a.old a.new oa.new) (stepped (quiet_event m event.now) b.old b.new ob.new) }
    ensures kept_a { KeepsRoom oa.old oa.new }
    ensures kept_b { KeepsRoom ob.old ob.new }
    ensures ready_a { HasRoomFor a.new oa.new }
    ensures ready_b { HasRoomFor b.new ob.new }
{
    steps_keep_apart();
    a.stays_sound();
    b.stays_sound();
    let pass = Event::Pass;
    let other = quiet_event(m, event, &pass);
    a.step(event, oa);
    b.step(other, ob);
}

/// Steps one book by an event of the master's own, and the other by nothing. The event is a message of master `m`, or
/// the wait of one of its processors. Nothing beyond the reach of `m` can tell the two books apart. No memory is
/// taken.
///
/// The books have the same loaded object, the same attached objects and the same chip. Each object that can be in
/// force is well formed (`loaded_objects_are_objects`). The books agree beyond the reach, and each outbox was loaded
/// for its book.
///
/// After the steps the books agree there, with equal values and modes, and neither step tells anything there. Each
/// outbox keeps its room.
pub fn step_left(
    a: &mut Book,
    b: &mut Book,
    m: NodeId,
    own_event: &Event,
    oa: &mut Outbox,
    ob: &mut Outbox,
)
    requires object { AreObjects a.old.fixed }
    requires own { IsOwn a.old.fixed.object a.old.fixed.topology m own_event.now }
    requires agree { Agree (border_in a.old m) a.old b.old }
    requires room_a { HasRoomFor a.old oa.old }
    requires room_b { HasRoomFor b.old ob.old }

    // each book is stepped, and its outbox holds what the step puts out
    ensures book_a { a.new ≡ effect own_event.now a.old }
    ensures book_b { b.new ≡ effect Pass b.old }
    ensures out_a { Holds (outputs own_event.now a.old) oa.new }
    ensures out_b { Holds (outputs Pass b.old) ob.new }

    // the books keep their objects and their chip, and agree beyond the reach
    ensures fixed { a.new.fixed ≡ a.old.fixed }
    ensures agree { Agree (border_in a.old m) a.new b.new }
    // values and modes are alike beyond the reach, and nothing is told there
    ensures values { IsValueAlike a.old.fixed.object a.old.fixed.topology (border_in a.old m) a.new b.new }
    ensures modes { IsModeAlike a.old.fixed.object a.old.fixed.topology (border_in a.old m) a.new b.new }
    ensures told_a { TellsNothing a.old.fixed.object a.old.fixed.topology (border_in a.old m)
        (stepped own_event.now a.old a.new oa.new) }
    ensures told_b { TellsNothing a.old.fixed.object a.old.fixed.topology (border_in a.old m)
        (stepped Pass b.old b.new ob.new) }
    ensures kept_a { KeepsRoom oa.old oa.new }
    ensures kept_b { KeepsRoom ob.old ob.new }
    ensures ready_a { HasRoomFor a.new oa.new }
    ensures ready_b { HasRoomFor b.new ob.new }
{
    steps_keep_apart();
    a.stays_sound();
    b.stays_sound();
    b.step(&Event::Pass, ob);
    b.stays_sound();
    a.step(own_event, oa);
}
