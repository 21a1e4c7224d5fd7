//! The core events of a script line.

ghost use Rattle.std.specs.Prelude.{◌≡◌, ◌<◌, ◌+◌, ◌∷◌, [], None, Some, MatchOption, drop, length};
ghost use Rattle.pm_topology.specs.declared.topology.Topology.{Topology};
ghost use Rattle.pm_psci.specs.Lowering.{lowered};
ghost use Rattle.pm_split.specs.Boxes.{box_of};
ghost use Rattle.pm_split.specs.Left.{boxes_left, core_event, events_left};
ghost use Rattle.pm_split.specs.Split.{call, noted, post, split_of};

use crate::boxes::{box_of, empty_all, take_next};
use pm_base::{Event, Message, NodeId};
use pm_ipi::Mail;
use pm_object::Object;
use pm_psci::{Smc, lower};
use pm_topology::Topology;

/// The core events of a script line that are still to come.
#[derive(Clone, Copy, Debug)]
pub enum CoreEvents<'e> {
    /// None.
    Past,
    /// The line's own event.
    Own(&'e Event),
    /// One in which nothing happens.
    Pass,
    /// The message of a node that is no configured master.
    Sent(NodeId, Message),
    /// The messages of the masters whose bit in the masks is this one or a later one, and whether some message of the
    /// line was served already. A line that serves none does nothing.
    Served { bit: u32, some: bool },
    /// What a power call comes to, from this place on.
    Lowered(Smc, usize),
}

/// What a script line says beside what its core events put out.
#[derive(Clone, Copy, Debug, PartialEq, Eq)]
pub enum OwnNote {
    /// The box of this master had a message already.
    Busy(NodeId),
    /// It attaches words at this address, and comes too late.
    Late(u32),
}

/// What a script line is split into: its core events, and its own note, if it has one.
#[derive(Clone, Copy, Debug)]
pub struct Split<'e> {
    pub cores: CoreEvents<'e>,
    pub note: Option<OwnNote>,
}

/// Where a core event is found: it is the line's own one, or one that was made. So an event is never copied, which may
/// hold the words of an object.
#[derive(Clone, Copy, Debug)]
pub enum Source<'e> {
    Own(&'e Event),
    Made,
}

impl<'e> Source<'e> {
    /// The core event, if this is the one that was made.
    pub fn event(self, made: &'e Event) -> &'e Event
        ensures { result.now ≡ core_event self.entry made.now }
    {
        match self {
            Source::Own(event) => event,
            Source::Made => made,
        }
    }
}

/// Splits the event of a script line over an object, whose masters have these boxes, and a chip. A message is put into
/// the box of its master, and the line says so if that is full; the messages in all boxes are served, by rising mask of
/// their masters; a power call is lowered; each other event is the only core event of its line, and one that attaches
/// words says that it comes too late. A line always has a core event.
#[inline]
pub fn split_event<'e>(
    object: &Object,
    t: &Topology,
    boxes: &mut Mail,
    event: &'e Event,
) -> Split<'e>
    requires { length boxes.old ≡ length object.now.masters }
    ensures events { events_left object.now t.now boxes.new result.cores
        ≡ (split_of object.now t.now event.now boxes.old).events }
    ensures some { 0 < length (events_left object.now t.now boxes.new result.cores) }
    ensures boxes { boxes_left boxes.new result.cores ≡ (split_of object.now t.now event.now boxes.old).boxes }
    ensures notes { noted result.note ≡ (split_of object.now t.now event.now boxes.old).notes }
    ensures places { length boxes.new ≡ length boxes.old }
{
    match event {
        Event::Post { .. } | Event::Serve | Event::Smc { .. } | Event::Attach { .. } => {
            split_more(object, t, boxes, event)
        }
        _ => alone(CoreEvents::Own(event)),
    }
}

/// Splits the event of a line that isn't its own event alone.
#[inline(never)]
fn split_more<'e>(object: &Object, t: &Topology, boxes: &mut Mail, event: &'e Event) -> Split<'e>
    requires { length boxes.old ≡ length object.now.masters }
    ensures events { events_left object.now t.now boxes.new result.cores
        ≡ (split_of object.now t.now event.now boxes.old).events }
    ensures some { 0 < length (events_left object.now t.now boxes.new result.cores) }
    ensures boxes { boxes_left boxes.new result.cores ≡ (split_of object.now t.now event.now boxes.old).boxes }
    ensures notes { noted result.note ≡ (split_of object.now t.now event.now boxes.old).notes }
    ensures places { length boxes.new ≡ length boxes.old }
{
    match event {
        Event::Post { master, message } => post(object, boxes, *master, *message),
        Event::Serve => Split {
            cores: CoreEvents::Served {
                bit: 0,
                some: false,
            },
            note: None,
        },
        Event::Smc {
            proc,
            function,
            args,
        } => lowered(*proc, *function, *args),
        Event::Attach { address, .. } => Split {
            cores: CoreEvents::Own(event),
            note: Some(OwnNote::Late(*address)),
        },
        _ => alone(CoreEvents::Own(event)),
    }
}

impl<'e> CoreEvents<'e> {
    /// Takes the next core event off, if there is one; one that is made is left in `made`. At the end of a line that
    /// serves all boxes are empty.
    #[inline]
    pub fn next(
        &mut self,
        object: &Object,
        t: &Topology,
        boxes: &mut Mail,
        made: &mut Event,
    ) -> Option<Source<'e>>
        requires { length boxes.old ≡ length object.now.masters }
        ensures events { MatchOption result
            ((events_left object.now t.now boxes.old self.old ≡ [])
            × (events_left object.now t.now boxes.new self.new ≡ []))
            (λ source. events_left object.now t.now boxes.old self.old
            ≡ core_event source made.new ∷ events_left object.now t.now boxes.new self.new) }
        ensures boxes { boxes_left boxes.new self.new ≡ boxes_left boxes.old self.old }
        ensures end { result ≡ None → boxes.new ≡ boxes_left boxes.old self.old }
        ensures places { length boxes.new ≡ length boxes.old }
    {
        match *self {
            CoreEvents::Past => None,
            CoreEvents::Own(event) => {
                *self = CoreEvents::Past;
                Some(Source::Own(event))
            }
            _ => self.make_next(object, t, boxes, made),
        }
    }

    /// Takes the next core event off, of a line that isn't its own event. (Most lines are, and theirs is taken by the
    /// caller.)
    #[inline(never)]
    fn make_next(
        &mut self,
        object: &Object,
        t: &Topology,
        boxes: &mut Mail,
        made: &mut Event,
    ) -> Option<Source<'e>>
        requires { length boxes.old ≡ length object.now.masters }
        ensures events { MatchOption result
            ((events_left object.now t.now boxes.old self.old ≡ [])
            × (events_left object.now t.now boxes.new self.new ≡ []))
            (λ source. events_left object.now t.now boxes.old self.old
            ≡ core_event source made.new ∷ events_left object.now t.now boxes.new self.new) }
        ensures boxes { boxes_left boxes.new self.new ≡ boxes_left boxes.old self.old }
        ensures end { result ≡ None → boxes.new ≡ boxes_left boxes.old self.old }
        ensures places { length boxes.new ≡ length boxes.old }
    {
        match *self {
            CoreEvents::Past => None,
            CoreEvents::Own(event) => {
                *self = CoreEvents::Past;
                Some(Source::Own(event))
            }
            CoreEvents::Pass => self.pass(made),
            CoreEvents::Sent(master, message) => self.send(master, message, made),
            CoreEvents::Served { bit, some } => self.serve(object, t, boxes, bit, some, made),
            CoreEvents::Lowered(smc, k) => self.lower(t, smc, k, made),
        }
    }

    /// Yields `Pass` and ends. (An event is large, and a function clears each one that it
    /// holds when it is entered. So what makes events is kept apart, and a line that is its own event pays nothing for it.)
    #[inline(never)]
    fn pass(&mut self, made: &mut Event) -> Option<Source<'e>>
        ensures { (self.new ≡ CoreEvents.Past) × (made.new ≡ Event.Pass) × (result ≡ Some Source.Made) }
    {
        *self = CoreEvents::Past;
        *made = Event::Pass;
        Some(Source::Made)
    }

    /// Leaves the event of a message, and is over.
    #[inline(never)]
    fn send(&mut self, master: NodeId, message: Message, made: &mut Event) -> Option<Source<'e>>
        ensures { (self.new ≡ CoreEvents.Past) × (made.new ≡ Event.Ipi master message) × (result ≡ Some Source.Made) }
    {
        *self = CoreEvents::Past;
        *made = Event::Ipi { master, message };
        Some(Source::Made)
    }

    /// Leaves the next event of a power call, if one is left.
    #[inline(never)]
    fn lower(&mut self, t: &Topology, smc: Smc, k: usize, made: &mut Event) -> Option<Source<'e>>
        ensures events { MatchOption result
            ((drop k (lowered t.now smc) ≡ []) × (self.new ≡ self.old))
            (λ source. (drop k (lowered t.now smc) ≡ core_event source made.new ∷ drop (k + 1) (lowered t.now smc))
            × (self.new ≡ CoreEvents.Lowered smc (k + 1))) }
    {
        let event = lower(t, &smc, k)?;
        *made = event;
        *self = CoreEvents::Lowered(smc, k + 1);
        Some(Source::Made)
    }

    /// Leaves the message of the next box, of a line that serves. If no message is left, all boxes are emptied, and a
    /// line that served none has a Pass.
    #[inline(never)]
    fn serve(
        &mut self,
        object: &Object,
        t: &Topology,
        boxes: &mut Mail,
        bit: u32,
        some: bool,
        made: &mut Event,
    ) -> Option<Source<'e>>
        requires { length boxes.old ≡ length object.now.masters }
        ensures events { MatchOption result
            ((events_left object.now t.now boxes.old (CoreEvents.Served bit some) ≡ [])
            × (events_left object.now t.now boxes.new self.new ≡ []))
            (λ source. events_left object.now t.now boxes.old (CoreEvents.Served bit some)
            ≡ core_event source made.new ∷ events_left object.now t.now boxes.new self.new) }
        ensures boxes { boxes_left boxes.new self.new ≡ boxes_left boxes.old (CoreEvents.Served bit some) }
        ensures end { result ≡ None → boxes.new ≡ boxes_left boxes.old (CoreEvents.Served bit some) }
        ensures places { length boxes.new ≡ length boxes.old }
    {
        match take_next(object, boxes, bit) {
            Some((bit, event)) => {
                *self = CoreEvents::Served { bit, some: true };
                *made = event;
                Some(Source::Made)
            }
            None => {
                empty_all(boxes, object.masters.len());
                *self = CoreEvents::Past;
                if some {
                    return None;
                }
                *made = Event::Pass;
                Some(Source::Made)
            }
        }
    }
}

/// Puts a message into the box of a configured master. The message of another node is sent at once.
fn post<'e>(object: &Object, boxes: &mut Mail, master: NodeId, message: Message) -> Split<'e>
    requires { length boxes.old ≡ length object.now.masters }
    ensures events { (t : Topology) → events_left object.now t boxes.new result.cores
        ≡ (post (box_of object.now master) master message boxes.old).events }
    ensures boxes { boxes_left boxes.new result.cores
        ≡ (post (box_of object.now master) master message boxes.old).boxes }
    ensures notes { noted result.note ≡ (post (box_of object.now master) master message boxes.old).notes }
    ensures places { length boxes.new ≡ length boxes.old }
{
    match box_of(object, master) {
        Some(m) => {
            let is_put = boxes.post(m, message);
            Split {
                cores: CoreEvents::Pass,
                note: if is_put {
                    None
                } else {
                    Some(OwnNote::Busy(master))
                },
            }
        }
        None => alone(CoreEvents::Sent(master, message)),
    }
}

/// The line of a power call.
fn lowered<'e>(proc: NodeId, function: u32, args: [u64; 3]) -> Split<'e>
    ensures cores { result.cores ≡ CoreEvents.Lowered (call proc function args) 0 }
    ensures note { result.note ≡ None }
{
    let smc = Smc {
        proc,
        function,
        args,
    };
    Split {
        cores: CoreEvents::Lowered(smc, 0),
        note: None,
    }
}

/// A line with these core events, and no note of its own.
fn alone<'e>(cores: CoreEvents<'e>) -> Split<'e>
    ensures cores { result.cores ≡ cores.entry }
    ensures note { result.note ≡ None }
{
    Split { cores, note: None }
}
