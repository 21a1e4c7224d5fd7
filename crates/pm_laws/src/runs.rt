//! Runs of core events: a book is stepped through a list of them.

ghost use Rattle.std.specs.Prelude.{◌≡◌, [], None, MatchOption};
ghost use Rattle.pm_core.specs.Outbox.{HasRoomFor, Holds, KeepsRoom};
ghost use Rattle.pm_state.specs.Sound.{IsSound, MeetsRequirements};
ghost use Rattle.pm_state.specs.Values.{value};
ghost use Rattle.pm_run.specs.Run.{Setup, book_after, core_0};
ghost use Rattle.pm_laws.specs.Runs.{IsLeftBy, end_of_run, last_outputs};

use pm_base::Event;
use pm_core::{Book, Outbox};

/// Steps a book through a list of core events, in their order, without taking memory. The outbox was loaded for the
/// topology and the masters of the book. At the end it holds what the last step puts out. Without events neither the
/// book nor the outbox changes.
pub fn run(book: &mut Book, events: &[Event], out: &mut Outbox)
    requires room { HasRoomFor book.old out.old }
    ensures book { book.new ≡ book_after events.now book.old }
    ensures fixed { book.new.fixed ≡ book.old.fixed }
    ensures out { MatchOption (last_outputs None events.now book.old) (out.new ≡ out.old)
        (λ outputs. Holds outputs out.new) }
    ensures nothing { events.now ≡ [] → (book.new ≡ book.old) × (out.new ≡ out.old) }

    // If the book and the outbox are as the load left them, they end as the load and then these core events leave
    // them.
    ensures run { (c : Setup) → IsLeftBy (core_0 c) book.old out.old
        → IsLeftBy (end_of_run c events.now) book.new out.new }

    // The outbox keeps its room, which fits the book's chip and masters; and the book is sound and meets its
    // requirements
    ensures room { KeepsRoom out.old out.new }
    ensures ready { HasRoomFor book.new out.new }
    ensures sound { IsSound book.new }
    ensures met { MeetsRequirements book.new (λ u. value u book.new) }
{
    book.stays_sound();
    for event in events {
        book.step(event, out);
    }
}
