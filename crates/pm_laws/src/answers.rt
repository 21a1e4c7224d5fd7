//! Laws of the answers and callbacks to masters beyond a border.

ghost use Rattle.std.specs.Prelude.{◌≡◌, [], true};
ghost use Rattle.pm_base.specs.declared.events.Event.{Event};
ghost use Rattle.pm_object.specs.Grammar.{IsObject};
ghost use Rattle.pm_topology.specs.WellFormed.{IsWellFormed};
ghost use Rattle.pm_state.specs.Sound.{IsSound};
ghost use Rattle.pm_state.specs.State.{State};
ghost use Rattle.pm_core.specs.Step.{outputs};
ghost use Rattle.pm_laws.specs.Agree.{Agree};
ghost use Rattle.pm_laws.specs.Answers.{is_dropped, message_beyond, sender_beyond};
ghost use Rattle.pm_laws.specs.Border.{Border, IsClosed};
ghost use Rattle.pm_laws.specs.Callbacks.{callbacks_beyond};
ghost use Rattle.pm_laws.specs.Hidden.{is_hidden};

use crate::laws::laws_below;

/// Two books that agree beyond a border answer the masters there alike. A message of a master beyond, or of one that
/// isn't configured, is dropped in both or in neither. If its call also names nothing within, and the books are
/// sound, the two answers are equal: the response, and an acknowledgement with its operating point.
pub fn answers_agree()
    ensures drops { (border : Border) (event : Event) (a b : State) → Agree border a b
        → sender_beyond a.fixed.object border event ≡ true
        → is_dropped (outputs event a).answer ≡ is_dropped (outputs event b).answer }
    ensures answers { (border : Border) (event : Event) (a b : State) → IsWellFormed a.fixed.topology
        → IsClosed a.fixed border → IsSound a → IsSound b → Agree border a b
        → message_beyond a.fixed.object a.fixed.topology border event ≡ true
        → (outputs event a).answer ≡ (outputs event b).answer }
{
    laws_below();
}

/// Two sound books that agree beyond a closed border make the same callbacks to masters there, in the same order:
/// requests to suspend, and notes about nodes beyond. A hidden event makes none of these callbacks.
pub fn callbacks_agree()
    ensures both { (border : Border) (event : Event) (a b : State) → IsObject a.fixed.object
        → IsClosed a.fixed border → IsSound a → IsSound b → Agree border a b
        → callbacks_beyond a.fixed.object border (outputs event a).callbacks
        ≡ callbacks_beyond a.fixed.object border (outputs event b).callbacks }
    ensures hidden { (border : Border) (event : Event) (book : State) → IsObject book.fixed.object
        → IsClosed book.fixed border → IsSound book
        → is_hidden border event book ≡ true → callbacks_beyond book.fixed.object border
        (outputs event book).callbacks ≡ [] }
{
    laws_below();
}
