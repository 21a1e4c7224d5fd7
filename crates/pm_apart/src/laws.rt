//! Laws of the output lines of a run, beside those of the run without the messages of a master.

ghost use Rattle.std.specs.Prelude.{◌≡◌, ℕ, Bool, true, List, [], ◌++◌, filter, map, Option};
ghost use Rattle.std.specs.List.{concat};
ghost use Rattle.pm_base.specs.declared.events.Event.{Event};
ghost use Rattle.pm_base.specs.declared.names.NodeId.{NodeId};
ghost use Rattle.pm_base.specs.declared.names.Unit.{Unit};
ghost use Rattle.pm_topology.specs.Units.{has_unit};
ghost use Rattle.pm_topology.specs.WellFormed.{IsWellFormed};
ghost use Rattle.pm_run.specs.Run.{Setup, fixed_of};
ghost use Rattle.pm_laws.specs.Quiet.{quiet};
ghost use Rattle.pm_trace.specs.Line.{line_text};
ghost use Rattle.pm_drive.specs.Drive.{Driven, driven, until};
ghost use Rattle.pm_board.specs.Board.{Standing};
ghost use Rattle.pm_drive.specs.Drove.{Drove, NoFailure};
ghost use Rattle.pm_drive.specs.Text.{run_text, texts};
ghost use Rattle.pm_apart.specs.Apart.{AreDrivenAlike, IsOutOfReach, KeepsApart, StaysApart, StepsKeepApart, StepsStayApart};
ghost use Rattle.pm_apart.specs.Lines.{closing_line_of, is_about, run_lines, set_lines, step_lines};
ghost use Rattle.pm_laws.specs.Border.{AreObjects};

use pm_apply::{a_part_without_refusal, each_part_is_safe};
use pm_clock_laws::clocks_keep_apart;
use pm_device::Device;
use pm_laws::{reach_is_closed, reach_keeps_apart, values_agree};
use pm_record::{KeptValue, at_zero_is_a_record};
use pm_run::books_of_a_run;
use pm_topology::{unit_maps, units_stand_in_order};

/// The text of a run is its lines, one after another, and so is the text of its script lines alone. The lines about a
/// unit, among those of the script lines, are exactly the lines of the commands on it, each with the number of its
/// script line. Among all lines of a run they are these, and then the closing line of the unit, which the chip has to
/// have.
pub fn texts_are_lines()
    ensures steps { (n : ℕ) (xs : List Driven) → concat (texts n xs) ≡ concat (map line_text (step_lines n xs)) }
    ensures run { (c : Setup) (board : Standing) (answers : List (List Bool)) (events : List Event)
        → run_text c board answers events ≡ concat (map line_text (run_lines c board answers events)) }
    ensures about { (n : ℕ) (xs : List Driven) (unit : Unit) → filter (is_about unit) (step_lines n xs)
        ≡ set_lines unit n xs }
    ensures whole { (c : Setup) (board : Standing) (answers : List (List Bool)) (events : List Event) (unit : Unit)
        → IsWellFormed c.topology
        → has_unit c.topology unit ≡ true
        → filter (is_about unit) (run_lines c board answers events)
        ≡ set_lines unit 0 (driven c answers events) ++ closing_line_of c (driven c answers events) unit }
{
    books_of_a_run();
    units_stand_in_order();
}

/// Over a device that never fails, the messages of a master change no line about a unit beyond its reach. Such a unit
/// is a slave, a power node, a reset line, or a processor of a master beyond or of no master. In the run without
/// these messages, each script line gives the same commands on the unit, with the same values before them, and its
/// closing line is the same. The modules and timed tasks at the start of the two runs make no difference.
pub fn lines_stay_apart()
    ensures commands { (c : Setup) (m : NodeId) (events : List Event) (unit : Unit) → AreObjects (fixed_of c)
        → IsWellFormed c.topology
        → IsOutOfReach c m unit → AreDrivenAlike unit (driven c [] events) (driven c [] (quiet m events)) }
    ensures closing { (c : Setup) (m : NodeId) (events : List Event) (unit : Unit) → AreObjects (fixed_of c)
        → IsWellFormed c.topology
        → IsOutOfReach c m unit → closing_line_of c (driven c [] events) unit
        ≡ closing_line_of c (driven c [] (quiet m events)) unit }
    ensures steps { (c : Setup) (events : List Event) (cut : Option ℕ) → AreObjects (fixed_of c)
        → IsWellFormed c.topology → StepsStayApart c [] events cut }
    ensures run { (c : Setup) (events : List Event) → AreObjects (fixed_of c) → IsWellFormed c.topology
        → StaysApart c [] events }
{
    reach_keeps_apart();
    reach_is_closed();
    values_agree();
    books_of_a_run();
    each_part_is_safe();
    a_part_without_refusal();
    at_zero_is_a_record();
    units_stand_in_order();
    unit_maps::<KeptValue>();
}

/// Over a real device the lines about a unit beyond the reach of a master are those of the run without its messages,
/// if the device was driven through the run and reported no failure. It is so for the whole run, and for its script
/// lines up to a cut.
pub fn driven_lines_stay_apart<D: Device>()
    ensures steps { (c : Setup) (events : List Event) (answers : List (List Bool)) (cut : Option ℕ) (old new : D)
        → AreObjects (fixed_of c) → IsWellFormed c.topology
        → NoFailure D.Device c.topology (until cut (driven c answers events)) old new
        → Drove D.Device c (until cut (driven c answers events)) old new
        → StepsStayApart c answers events cut }
    ensures run { (c : Setup) (events : List Event) (answers : List (List Bool)) (old new : D)
        → AreObjects (fixed_of c) → IsWellFormed c.topology
        → NoFailure D.Device c.topology (driven c answers events) old new
        → Drove D.Device c (driven c answers events) old new
        → StaysApart c answers events }
{
    lines_stay_apart();
}

/// A device that was driven through a run keeps apart what is beyond the reach of each master. The text is that of
/// its lines. If the device reported no failure, the lines about units beyond are those of the run without the
/// messages of the master. Whatever it refused, the books are alike beyond the reach, and so are the lines of starts,
/// drops and callbacks, of clocks, of full boxes of other masters, and of timed tasks. It is so for the whole run,
/// and for its script lines up to a cut.
pub fn driven_runs_keep_apart<D: Device>()
    ensures run { (c : Setup) (events : List Event) (answers : List (List Bool)) (old new : D)
        → AreObjects (fixed_of c) → IsWellFormed c.topology
        → Drove D.Device c (driven c answers events) old new
        → KeepsApart D.Device c answers events old new }
    ensures steps { (c : Setup) (events : List Event) (answers : List (List Bool)) (cut : Option ℕ) (old new : D)
        → AreObjects (fixed_of c) → IsWellFormed c.topology
        → Drove D.Device c (until cut (driven c answers events)) old new
        → StepsKeepApart D.Device c answers events cut old new }
{
    texts_are_lines();
    driven_lines_stay_apart::<D>();
    reach_keeps_apart();
    clocks_keep_apart();
}
