//! The core without a device: a book, the outbox of its last step, and the boxes of its masters.

ghost use Rattle.std.specs.Prelude.{◌≡◌, ◌∷◌, [], None, IfOk, MatchOption, length};
ghost use Rattle.pm_ipi.specs.Mail.{all_empty};
ghost use Rattle.pm_topology.specs.WellFormed.{IsWellFormed};
ghost use Rattle.pm_state.specs.Load.{load_of};
ghost use Rattle.pm_core.specs.Outbox.{HasRoomFor, Holds};
ghost use Rattle.pm_core.specs.Step.{effect, outputs, outputs_at_load, turns_proc};
ghost use Rattle.pm_split.specs.Left.{boxes_left, core_event, events_left};
ghost use Rattle.pm_split.specs.Split.{noted};
ghost use Rattle.pm_run.specs.Run.{loaded, setup, setup_of, split, stand_at};

use pm_base::{Event, List, NoMemory};
use pm_core::{Book, Outbox};
use pm_ipi::Mail;
use pm_object::{Attached, Object};
use pm_split::{CoreEvents, Source, Split, split_event};
use pm_topology::Topology;
use std::alloc::Global;

/// A book, the outbox of its last step, and a box for each of its masters. The outbox has room for each step.
#[derive(Drop)]
pub struct Runner {
    pub book: Book,
    pub outbox: Outbox,
    pub boxes: Mail,
    ghost room: { HasRoomFor book outbox },
    ghost places: { length boxes ≡ length book.fixed.object.masters },
}

impl Runner {
    /// A runner at load, for an object, the attached objects and a chip. The outbox holds what the load puts out, and
    /// all boxes are empty.
    ///
    /// # Errors
    ///
    /// `NoMemory` if there is not enough memory.
    pub fn load(
        alloc: Global,
        object: Object,
        attached: List<Attached>,
        topology: Topology,
    ) -> Result<Runner, NoMemory>
        requires formed { IsWellFormed topology }
        ensures book { IfOk result (λ runner. runner.book ≡ load_of object attached topology) }
        ensures boxes { IfOk result (λ runner. runner.boxes ≡ all_empty (length object.masters)) }
        ensures stand { IfOk result
            (λ runner. stand_at runner.book runner.boxes ≡ loaded (setup object attached topology)) }
        ensures out { IfOk result (λ runner. Holds (outputs_at_load runner.book) runner.outbox) }
    {
        let masters = object.masters.len();
        let boxes = Mail::load(alloc, masters)?;
        let mut outbox = Outbox::load(alloc, &topology, masters)?;
        let book = Book::load(alloc, object, attached, topology, &mut outbox)?;
        Ok(Runner {
            book,
            outbox,
            boxes,
        })
    }

    /// Splits the event of a script line into core events, by the boxes and the chip. `next` takes these one after
    /// another.
    pub fn split<'e>(&mut self, event: &'e Event) -> Split<'e>
        ensures book { self.new.book ≡ self.old.book }
        ensures outbox { self.new.outbox ≡ self.old.outbox }
        ensures events { events_left self.old.book.fixed.object self.old.book.fixed.topology self.new.boxes result.cores
            ≡ (split (setup_of self.old.book) event.now (stand_at self.old.book self.old.boxes)).events }
        ensures boxes { boxes_left self.new.boxes result.cores
            ≡ (split (setup_of self.old.book) event.now (stand_at self.old.book self.old.boxes)).boxes }
        ensures notes { noted result.note
            ≡ (split (setup_of self.old.book) event.now (stand_at self.old.book self.old.boxes)).notes }
    {
        split_event(
            self.book.loaded(),
            self.book.topology(),
            &mut self.boxes,
            event,
        )
    }

    /// The next core event of a line, or None at its end. An event that isn't the line's own is left in `made`. At
    /// the end of a line that serves the boxes, all of them are empty.
    #[inline]
    pub fn next<'e>(&mut self, cores: &mut CoreEvents<'e>, made: &mut Event) -> Option<Source<'e>>
        ensures book { self.new.book ≡ self.old.book }
        ensures outbox { self.new.outbox ≡ self.old.outbox }
        ensures events { MatchOption result
            ((events_left self.old.book.fixed.object self.old.book.fixed.topology self.old.boxes cores.old ≡ [])
            × (events_left self.old.book.fixed.object self.old.book.fixed.topology self.new.boxes cores.new ≡ []))
            (λ source. events_left self.old.book.fixed.object self.old.book.fixed.topology self.old.boxes cores.old
            ≡ core_event source made.new
            ∷ events_left self.old.book.fixed.object self.old.book.fixed.topology self.new.boxes cores.new) }
        ensures boxes { boxes_left self.new.boxes cores.new ≡ boxes_left self.old.boxes cores.old }
        ensures end { result ≡ None → self.new.boxes ≡ boxes_left self.old.boxes cores.old }
    {
        cores.next(
            self.book.loaded(),
            self.book.topology(),
            &mut self.boxes,
            made,
        )
    }

    /// Steps the book by one core event, and leaves its outputs in the outbox. The boxes stay.
    pub fn step(&mut self, event: &Event)
        ensures book { self.new.book ≡ effect event.now self.old.book }
        ensures fixed { self.new.book.fixed ≡ self.old.book.fixed }
        ensures boxes { self.new.boxes ≡ self.old.boxes }
        ensures out { Holds (outputs event.now self.old.book) self.new.outbox }
        ensures turned { self.new.outbox.turned ≡ turns_proc event.now self.old.book }
    {
        self.book.step(event, &mut self.outbox);
    }
}
