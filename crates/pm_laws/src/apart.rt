//! Laws of two books that agree beyond the reach of a master, and of a run beside the run without its messages.

ghost use Rattle.std.specs.List.{list_any};
ghost use Rattle.std.specs.Prelude.{◌==◌, IsTrue, List};
ghost use Rattle.pm_base.specs.declared.events.Event.{Event};
ghost use Rattle.pm_base.specs.declared.events.Event.TheVariants.{Pass};
ghost use Rattle.pm_base.specs.declared.names.NodeId.{NodeId};
ghost use Rattle.pm_topology.specs.WellFormed.{IsWellFormed, ObeysMasterRules};
ghost use Rattle.pm_state.specs.Sound.{IsSound};
ghost use Rattle.pm_state.specs.State.{State};
ghost use Rattle.pm_core.specs.Step.{effect};
ghost use Rattle.pm_run.specs.Run.{IsBookOf, Setup, Stand, book_after, core_of, cores_of, fixed_of, line_of, split};
ghost use Rattle.pm_laws.specs.Agree.{Agree};
ghost use Rattle.pm_laws.specs.Beside.{AreBeside, Beside, IsOwn};
ghost use Rattle.pm_laws.specs.Border.{AreObjects};
ghost use Rattle.pm_laws.specs.Left.{border_in};
ghost use Rattle.pm_laws.specs.Quiet.{quiet_event};
ghost use Rattle.pm_laws.specs.ReachBorder.{border_of};
ghost use Rattle.pm_laws.specs.Told.{SameTold, TellsNothing};
ghost use Rattle.pm_laws.specs.Values.{IsModeAlike, IsValueAlike};
ghost use Rattle.pm_laws.specs.Worlds.{AreQuietBoxes, AreWorldsAlike, AreWorldsBeside, IsLineBeside};

use crate::laws::{books_agree, laws_below, reach_is_closed};
use pm_run::books_of_a_run;

/// Two books that agree beyond the reach of a master have equal values and modes there. One event in both keeps the
/// agreement, and tells the same beyond. A message of the master, the wait of one of its processors, or a Pass, in
/// one book alone keeps the agreement too, and tells nothing beyond. Therefore the books agree after an event in one
/// and its quiet event in the other. If the object has the master, these two steps also tell the same beyond.
pub fn steps_keep_apart()
    ensures values { (m : NodeId) (a b : State) → AreObjects a.fixed → IsWellFormed a.fixed.topology
        → Agree (border_in a m) a b → IsValueAlike a.fixed.object a.fixed.topology (border_in a m) a b }
    ensures modes { (m : NodeId) (a b : State)
        → Agree (border_in a m) a b → IsModeAlike a.fixed.object a.fixed.topology (border_in a m) a b }
    ensures both { (m : NodeId) (event : Event) (a b : State) → AreObjects a.fixed → IsWellFormed a.fixed.topology
        → IsSound a → IsSound b → Agree (border_in a m) a b
        → Agree (border_in a m) (effect event a) (effect event b)
        × SameTold a.fixed.object a.fixed.topology (border_in a m) (core_of event a) (core_of event b) }
    ensures left { (m : NodeId) (event : Event) (a b : State) → IsOwn a.fixed.object a.fixed.topology m event
        → AreObjects a.fixed → IsWellFormed a.fixed.topology → IsSound a → IsSound b → Agree (border_in a m) a b
        → Agree (border_in a m) (effect event a) b
        × TellsNothing a.fixed.object a.fixed.topology (border_in a m) (core_of event a) }
    ensures rest { (m : NodeId) (a b : State) → AreObjects a.fixed → IsWellFormed a.fixed.topology
        → IsSound a → IsSound b → Agree (border_in a m) a b
        → Agree (border_in a m) a (effect Pass b)
        × TellsNothing a.fixed.object a.fixed.topology (border_in a m) (core_of Pass b) }
    ensures agree { (m : NodeId) (event : Event) (a b : State) → AreObjects a.fixed → IsWellFormed a.fixed.topology
        → IsSound a → IsSound b → Agree (border_in a m) a b
        → Agree (border_in a m) (effect event a) (effect (quiet_event m event) b) }
    ensures told { (m : NodeId) (event : Event) (a b : State) → AreObjects a.fixed → IsWellFormed a.fixed.topology
        → IsTrue (list_any (λ r. r.node == m.0) a.fixed.object.masters)
        → IsSound a → IsSound b → Agree (border_in a m) a b
        → SameTold a.fixed.object a.fixed.topology (border_in a m) (core_of event a) (core_of (quiet_event m event) b) }
{
    laws_below();
    reach_is_closed();
}

/// A master changes nothing beyond its reach, neither by messages, nor by its box, nor by power calls that become
/// messages of it. The quiet run leaves out the messages of the master; its boxes are those of the loud run, but the
/// master's own is empty. The core events of a line and of its quiet line are beside one another. So are their core
/// steps, from books that agree beyond the reach: a step in both runs tells the same beyond, and a step in one alone
/// tells nothing. So are the lines, and the two runs. Line by line they have beyond the reach the same moves, starts,
/// pulses, requests, ends, late replies and callbacks, they drop the same messages of others, and they answer
/// messages that name nothing within alike.
pub fn reach_keeps_apart()
    ensures events { (c : Setup) (m : NodeId) (event : Event) (a b : Stand) → ObeysMasterRules c.topology
        → AreQuietBoxes c m a.boxes b.boxes
        → Beside c.object c.topology m (split c event a).events (split c (quiet_event m event) b).events }
    ensures boxes { (c : Setup) (m : NodeId) (event : Event) (a b : Stand) → ObeysMasterRules c.topology
        → AreQuietBoxes c m a.boxes b.boxes
        → AreQuietBoxes c m (split c event a).boxes (split c (quiet_event m event) b).boxes }
    ensures cores { (c : Setup) (m : NodeId) (es fs : List Event) (a b : State) → AreObjects (fixed_of c)
        → IsWellFormed c.topology
        → Beside c.object c.topology m es fs → IsBookOf c a → IsBookOf c b → Agree (border_of (fixed_of c) m) a b
        → AreBeside c m a b (cores_of es a) (cores_of fs b) }
    ensures after { (c : Setup) (m : NodeId) (es fs : List Event) (a b : State) → AreObjects (fixed_of c)
        → IsWellFormed c.topology
        → Beside c.object c.topology m es fs → IsBookOf c a → IsBookOf c b → Agree (border_of (fixed_of c) m) a b
        → Agree (border_of (fixed_of c) m) (book_after es a) (book_after fs b) }
    ensures line { (c : Setup) (m : NodeId) (event : Event) (a b : Stand) → AreObjects (fixed_of c)
        → IsWellFormed c.topology
        → IsBookOf c a.book → IsBookOf c b.book → Agree (border_of (fixed_of c) m) a.book b.book
        → AreQuietBoxes c m a.boxes b.boxes
        → IsLineBeside c m a.book b.book (line_of c event a) (line_of c (quiet_event m event) b) }
    ensures beside { (c : Setup) (m : NodeId) (events : List Event) → AreObjects (fixed_of c) → IsWellFormed c.topology
        → AreWorldsBeside c m events }
    ensures alike { (c : Setup) (m : NodeId) (events : List Event) → AreObjects (fixed_of c) → IsWellFormed c.topology
        → AreWorldsAlike c m events }
{
    steps_keep_apart();
    reach_is_closed();
    books_agree();
    books_of_a_run();
}
