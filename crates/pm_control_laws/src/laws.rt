//! Laws of controllers over lists of events.

ghost use Rattle.std.specs.Prelude.{[], Bool, List};
ghost use Rattle.std.specs.List.{AllByRecursion as Each};
ghost use Rattle.pm_base.specs.declared.events.Event.{Event};
ghost use Rattle.pm_object.specs.declared.object.Object.{Object};
ghost use Rattle.pm_topology.specs.declared.topology.Topology.{Topology};
ghost use Rattle.pm_run.specs.Run.{setup};
ghost use Rattle.pm_drive.specs.Drive.{driven};
ghost use Rattle.pm_drive.specs.Lowered.{given_in};
ghost use Rattle.pm_controller.specs.Controls.{Controls};
ghost use Rattle.pm_control_laws.specs.Session.{EndAs, IsCore, IsSession};

/// Over a list of core events, each of whose commands was answered, a controller stands at the end of each step as the run of
/// these events, with nothing attached, over a device with these answers: with the same book, record, commands, answer, notices
/// and lines.
pub fn controllers_are_driven()
    ensures { (object : Object) (topology : Topology) (events : List Event) (answers : List (List Bool))
        (ends : List Controls)
        → Each IsCore events → IsSession object topology events answers ends
        → EndAs ends (given_in (driven (setup object [] topology) answers events)) }
{}
