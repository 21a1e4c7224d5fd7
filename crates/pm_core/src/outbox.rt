//! What a step puts out, with room that is reserved at load.

ghost use Rattle.std.specs.Prelude.{◌≡◌, ◌+◌, IfOk, IfSome};
ghost use Rattle.pm_core.specs.Outbox.{HasRoom, IsEmpty, KeepsRoom};
ghost use Rattle.pm_tell.specs.Callbacks.{callback_count};
ghost use Rattle.pm_state.specs.Units.{unit_count};

use crate::replies::Answer;
use pm_base::{BoundedList, Command, LineId, NoMemory, Unit};
use pm_tell::{Callback, Late};
use pm_topology::Topology;
use pm_values::Start;
use std::alloc::Global;

/// A device command that was issued: the value before it, and whether the device took it.
#[derive(Clone, Copy, Debug, PartialEq, Eq)]
pub struct Done {
    pub command: Command,
    pub from: u32,
    pub ok: bool,
}

/// What a step puts out: the units whose value it changed, in the order of the units, whether a processor went to a mode,
/// even to the one that it had, the reset line that it pulses, the processors that it started, by number, the late
/// replies and the callbacks to masters that wait for them, and the answer. The commands that are done for it are put in
/// by whoever drives the device.
#[derive(Drop)]
pub struct Outbox {
    pub moved: BoundedList<Unit>,
    pub turned: bool,
    pub pulse: Option<LineId>,
    pub done: BoundedList<Done>,
    pub starts: BoundedList<Start>,
    pub late: BoundedList<Late>,
    pub callbacks: BoundedList<Callback>,
    pub answer: Answer,
}

impl Outbox {
    /// An empty outbox with room for the largest step of a book of this topology and so many
    /// masters.
    ///
    /// # Errors
    ///
    /// `NoMemory` if there is not enough memory, as there is none for a list that is longer than any can be.
    pub fn load(alloc: Global, t: &Topology, masters: usize) -> Result<Outbox, NoMemory>
        ensures room { IfOk result (HasRoom t.now masters) }
        ensures empty { IfOk result IsEmpty }
    {
        let units = count(t).ok_or(NoMemory)?;
        let commands = most_commands(units, t.powers.len()).ok_or(NoMemory)?;
        let callbacks = most_callbacks(units, masters).ok_or(NoMemory)?;
        Ok(Outbox {
            moved: BoundedList::with_room(alloc, units)?,
            turned: false,
            pulse: None,
            done: BoundedList::with_room(alloc, commands)?,
            starts: BoundedList::with_room(alloc, t.procs.len())?,
            late: BoundedList::with_room(alloc, masters)?,
            callbacks: BoundedList::with_room(alloc, callbacks)?,
            answer: Answer::Silent,
        })
    }

    /// Takes out all that the last step put in.
    pub fn clear(&mut self)
        ensures empty { IsEmpty self.new }
        ensures room { KeepsRoom self.old self.new }
    {
        self.moved.clear();
        self.turned = false;
        self.pulse = None;
        self.done.clear();
        self.starts.clear();
        self.late.clear();
        self.callbacks.clear();
        self.answer = Answer::Silent;
    }
}

/// The number of units of a chip. There is none where no list is that long.
fn count(t: &Topology) -> Option<usize>
    ensures { IfSome result (λ count. count ≡ unit_count t.now) }
{
    let nodes = t.slaves.len().checked_add(t.procs.len())?;
    nodes
        .checked_add(t.powers.len())?
        .checked_add(t.lines.len())
}

/// The number of device commands of a step at most, of so many units and power nodes.
fn most_commands(units: usize, powers: usize) -> Option<usize>
    ensures { IfSome result (λ count. count ≡ units + powers + 1) }
{
    units.checked_add(powers)?.checked_add(1)
}

/// The number of callbacks of a step at most, of so many units and masters. There is none where no list is
/// that long.
fn most_callbacks(units: usize, masters: usize) -> Option<usize>
    ensures { IfSome result (λ count. count ≡ callback_count units masters) }
{
    let waiting = units.checked_mul(3)?;
    let notices = units.checked_mul(2)?;
    let news = masters.checked_add(notices)?.checked_add(1)?;
    masters.checked_mul(waiting.checked_add(news)?)
}
