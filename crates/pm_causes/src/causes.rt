//! The law of causes, for one event and for a run.

ghost use Rattle.std.specs.Prelude.{List};
ghost use Rattle.pm_base.specs.declared.events.Event.{Event};
ghost use Rattle.pm_state.specs.State.{State};
ghost use Rattle.pm_core.specs.Step.{answer_to};
ghost use Rattle.pm_run.specs.Run.{Setup, Stand, cores_of, cores_in, lines_of, run};
ghost use Rattle.pm_causes.specs.Caused.{HasCauses, HaveCauses};

/// Each answer to an event has its causes, and only these. Answers are those of the step, before any command goes to
/// a device.
///
/// The sender of a message gets Drop exactly if it isn't heard. There is no answer exactly if the event is no
/// message, or a heard message that is an accepted request to suspend or has acknowledge kind 1. Any other heard
/// message is told the status of its call. Each status comes exactly if one of its causes is the first of the call's
/// seven checks that fails, whichever master calls.
pub fn answers_have_causes()
    ensures { (event : Event) (book : State) → HasCauses event book (answer_to event book) }
{}

/// Each answer in a run has its causes: in a list of core events, in the lines from any point on, and in a whole run
/// with its load.
pub fn runs_have_causes()
    ensures cores { (events : List Event) (book : State) → HaveCauses (cores_of events book) }
    ensures lines { (c : Setup) (events : List Event) (stand : Stand)
        → HaveCauses (cores_in (lines_of c events stand)) }
    ensures run { (c : Setup) (events : List Event) → HaveCauses (cores_in (run c events)) }
{
    answers_have_causes();
}
