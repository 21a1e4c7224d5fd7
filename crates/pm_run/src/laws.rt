//! Laws of runs: their books, and the boxes of the masters.

ghost use Rattle.std.specs.Prelude.{◌<◌, List, length};
ghost use Rattle.std.specs.List.{All};
ghost use Rattle.pm_base.specs.declared.events.Event.{Event};
ghost use Rattle.pm_topology.specs.WellFormed.{IsWellFormed};
ghost use Rattle.pm_state.specs.State.{State};
ghost use Rattle.pm_core.specs.Step.{effect};
ghost use Rattle.pm_object.specs.Grammar.{IsObject};
ghost use Rattle.pm_run.specs.Run.{Setup, Stand, IsBookOf, HasBooksOf, split, core_of, cores_of, book_after, line_of, loaded, cores_in, run};
ghost use Rattle.pm_run.specs.Served.{EachServes};

use pm_core::{books_stay_sound, values_meet};
use pm_split::boxes_are_served;

/// Each book of a run over a chip that passes its check has the object and the chip of the run's setup, is sound, and
/// meets its requirements. It holds of the book at load; it stays so after an event; and so it holds along a list of
/// core events, after a line, and everywhere in a run. Each line has a core step.
pub fn books_of_a_run()
    ensures load { (c : Setup) → IsWellFormed c.topology → IsBookOf c (loaded c).book }
    ensures step { (c : Setup) (event : Event) (book : State) → IsWellFormed c.topology
        → IsBookOf c book → IsBookOf c (effect event book) }
    ensures cores { (c : Setup) (events : List Event) (book : State) → IsWellFormed c.topology
        → IsBookOf c book → All (HasBooksOf c) (cores_of events book) }
    ensures after { (c : Setup) (events : List Event) (book : State) → IsWellFormed c.topology
        → IsBookOf c book → IsBookOf c (book_after events book) }
    ensures line { (c : Setup) (event : Event) (stand : Stand) → IsWellFormed c.topology
        → IsBookOf c stand.book → IsBookOf c (line_of c event stand).after.book }
    ensures all { (c : Setup) (events : List Event) → IsWellFormed c.topology
        → All (λ line. IsBookOf c line.after.book) (run c events) }
    ensures all_cores { (c : Setup) (events : List Event) → IsWellFormed c.topology
        → All (HasBooksOf c) (cores_in (run c events)) }
    ensures some_core { (c : Setup) (event : Event) (stand : Stand) → 0 < length (split c event stand).events }
{
    books_stay_sound();
    values_meet();
}

/// Each line of a run that serves the boxes sends the message of each full box once, by rising mask of the masters,
/// and leaves all boxes empty. The object has to be well formed.
pub fn boxes_of_a_run()
    ensures { (c : Setup) (events : List Event) → IsObject c.object
        → EachServes c (loaded c).boxes (run c events) }
{
    boxes_are_served();
}
