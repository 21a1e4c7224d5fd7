//! What a device that was driven through a run stands at.

ghost use Rattle.std.specs.Prelude.{◌≡◌, ℕ, Bool, List, Option};
ghost use Rattle.pm_base.specs.declared.events.Event.{Event};
ghost use Rattle.pm_base.specs.declared.names.Unit.{Unit};
ghost use Rattle.pm_topology.specs.WellFormed.{IsWellFormed};
ghost use Rattle.pm_device.specs.Act.{Chain};
ghost use Rattle.pm_run.specs.Run.{Setup};
ghost use Rattle.pm_board.specs.Board.{Standing};
ghost use Rattle.pm_clock_tree.specs.Tree.{Tree};
ghost use Rattle.pm_drive.specs.Boards.{ClocksLeaveRun, LeavesRun};
ghost use Rattle.pm_drive.specs.Calls.{CallsAreTold};
ghost use Rattle.pm_drive.specs.Drive.{Driven, acts, driven, until};
ghost use Rattle.pm_drive.specs.Drove.{Drove};
ghost use Rattle.pm_drive.specs.Followed.{ClocksStand};
ghost use Rattle.pm_drive.specs.Completed.{completed_in, last_board};
ghost use Rattle.pm_drive.specs.Lowered.{HaveSameSteps, lowered_script};
ghost use Rattle.pm_drive.specs.PowerCalls.{EachCallIsItsEvents};

use pm_apply::{a_part_without_refusal, each_part_is_safe, orders_join};
use pm_clock_tree::{clocks_run_by_their_parents, clocks_stand_after_steps};
use pm_device::{Device, acts_append, chain_shows, none_is_refused};
use pm_record::at_zero_is_a_record;
use pm_run::books_of_a_run;
use pm_topology::kinds_are_exact;

/// A device that stood at 0 everywhere and was given the acts of the first lines of a run, in
/// their order and with its answers, was driven through these lines: they are ordered whatever it
/// answers, what lags is explained, success is answered unless the device didn't follow a step, and
/// while it reports no failure it follows the book.
pub fn driven_follows<D: Device>()
    ensures { (c : Setup) (events : List Event) (answers : List (List Bool)) (cut : Option ℕ) (old new : D)
        → IsWellFormed c.topology
        → (D.values_observable → (unit : Unit) → (D.state old).value unit ≡ 0)
        → Chain D.Does (acts (until cut (driven c answers events))) old new
        → Drove D.Device c (until cut (driven c answers events)) old new }
{
    chain_shows::<D>();
    none_is_refused::<D>();
    acts_append();
    each_part_is_safe();
    a_part_without_refusal();
    orders_join();
    at_zero_is_a_record();
    books_of_a_run();
    kinds_are_exact();
}

/// The line of a power call is the run of the events that it is lowered to, by the chip and the call alone: its core
/// steps, the book after it, the commands and their lines are those of these events one after another. Then comes the
/// answer to the call, if it has one, by the last reply that was told. Modules and tasks change nothing in it.
pub fn power_calls_are_their_events()
    ensures { (c : Setup) → EachCallIsItsEvents c }
{}

/// The run of a script is that of the script in which its power calls are lowered, over a device that answers the same:
/// a line for each of the events of a call stands in place of it. Both have the same core steps, write the same lines but
/// for their numbers and the answers to power calls, do the same to the device, and have the same closing table.
pub fn scripts_are_lowered()
    ensures { (c : Setup) (events : List Event) (answers : List (List Bool))
        → HaveSameSteps c (driven c answers events) (driven c answers (lowered_script c.topology events)) }
{}

/// Modules and tasks change only the text of a run: no book, no command and no kept value.
pub fn boards_leave_runs()
    ensures { (board : Standing) (xs : List Driven) → LeavesRun board xs }
{}

/// Whatever clocks driven lines find, what is told of them changes, and nothing else.
pub fn clocks_leave_runs()
    ensures { (tree : Tree) (xs : List Driven) → ClocksLeaveRun tree xs }
{}

/// At the load of a run and after each of its core steps no master that is off enables a clock, each enables only clocks
/// whose slaves it may use by the object in force, and a clock runs exactly if it is a root whose slave is in a state
/// other than 0, or a master enables it and the parent that is chosen for it runs.
pub fn clocks_are_followed()
    ensures { (c : Setup) (events : List Event) (answers : List (List Bool)) → ClocksStand c (driven c answers events) }
{
    clocks_stand_after_steps();
    clocks_run_by_their_parents();
}

/// Each line of a run tells exactly the calls of the tasks that are due in it: each such task once, by rising key, at the
/// time after the line, with the answer of its handler. A task that is stored before and after some lines was called once
/// for each call that they tell of it.
pub fn calls_are_told()
    ensures { (c : Setup) (board : Standing) (events : List Event) (answers : List (List Bool)) (cut : Option ℕ)
        → CallsAreTold (completed_in c board (until cut (driven c answers events))) board
        (last_board board (until cut (driven c answers events))).tasks }
{}
