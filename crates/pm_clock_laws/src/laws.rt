//! Laws of the clocks of a run, beside the clocks of the run without the messages of a master.

ghost use Rattle.std.specs.Prelude.{◌≡◌, List, Some, true};
ghost use Rattle.pm_base.specs.declared.events.Event.{Event};
ghost use Rattle.pm_base.specs.declared.events.Event.TheVariants.{Ipi};
ghost use Rattle.pm_base.specs.declared.events.Message.{Message};
ghost use Rattle.pm_base.specs.declared.names.NodeId.{NodeId};
ghost use Rattle.pm_topology.specs.WellFormed.{IsWellFormed};
ghost use Rattle.pm_state.specs.Sound.{IsSound};
ghost use Rattle.pm_state.specs.State.{State};
ghost use Rattle.pm_core.specs.Step.{effect, outputs};
ghost use Rattle.pm_run.specs.Run.{Setup, book_after, cores_of, fixed_of};
ghost use Rattle.pm_laws.specs.Agree.{Agree};
ghost use Rattle.pm_laws.specs.Answers.{message_beyond};
ghost use Rattle.pm_laws.specs.Beside.{Beside};
ghost use Rattle.pm_laws.specs.Border.{AreObjects};
ghost use Rattle.pm_laws.specs.Left.{border_in};
ghost use Rattle.pm_clock_tree.specs.declared.calls.ClockCall.{ClockCall};
ghost use Rattle.pm_clock_tree.specs.Calls.{clock_call};
ghost use Rattle.pm_clock_tree.specs.Tree.{Tree};
ghost use Rattle.pm_clocks.specs.Clocked.{clock_answer};
ghost use Rattle.pm_clock_laws.specs.Reach.{IsClockBeyond};
ghost use Rattle.pm_clock_laws.specs.Same.{SameClocks, tree_along};
ghost use Rattle.pm_clock_laws.specs.Worlds.{AreClocksAlike};

use pm_clock_tree::{clocks_run_by_their_parents, clocks_stand_after_steps};
use pm_core::books_stay_sound;
use pm_laws::{reach_is_closed, reach_keeps_apart, rows_follow_alike, steps_keep_apart};
use pm_run::books_of_a_run;

/// Beyond the reach of a master, the clocks of a run and of the run without its messages are the same, line by line.
/// The master's calls on a clock beyond are refused, and no step of its own drops an enable of such a clock. So core
/// steps beside one another keep these clocks equal, if books and clock trees agreed before. A call of a master
/// beyond on such a clock is answered alike.
pub fn clocks_keep_apart()
    ensures cores { (m : NodeId) (es fs : List Event) (a b : State) (s t : Tree) → AreObjects a.fixed
        → IsWellFormed a.fixed.topology → IsSound a → IsSound b → Beside a.fixed.object a.fixed.topology m es fs
        → Agree (border_in a m) a b → SameClocks a.fixed (border_in a m) a b s t
        → SameClocks a.fixed (border_in a m) (book_after es a) (book_after fs b)
        (tree_along (cores_of es a) s) (tree_along (cores_of fs b) t) }
    ensures answers { (m : NodeId) (sender : NodeId) (message : Message) (call : ClockCall) (a b : State) (s t : Tree)
        → AreObjects a.fixed → IsWellFormed a.fixed.topology → IsSound a → IsSound b
        → Agree (border_in a m) a b → SameClocks a.fixed (border_in a m) a b s t
        → clock_call message ≡ Some call → IsClockBeyond a.fixed (border_in a m) call.clock
        → message_beyond a.fixed.object a.fixed.topology (border_in a m) (Ipi sender message) ≡ true
        → clock_answer (Ipi sender message) (outputs (Ipi sender message) a).answer (effect (Ipi sender message) a) s
        ≡ clock_answer (Ipi sender message) (outputs (Ipi sender message) b).answer (effect (Ipi sender message) b) t }
    ensures lines { (c : Setup) (m : NodeId) (events : List Event) → AreObjects (fixed_of c) → IsWellFormed c.topology
        → AreClocksAlike c m events }
{
    steps_keep_apart();
    reach_keeps_apart();
    reach_is_closed();
    rows_follow_alike();
    books_stay_sound();
    books_of_a_run();
    clocks_stand_after_steps();
    clocks_run_by_their_parents();
}
