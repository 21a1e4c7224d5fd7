//! The log of a step, by which the masters are told of it: their modes before it, the changes of their modes along it,
//! and the news.

ghost use Rattle.std.specs.Prelude.{◌≡◌, ◌+◌, ◌<◌, ◌≤◌, ◌++◌, [], ℕ, IfOk, flat_map, length, true};
ghost use Rattle.pm_procs.specs.Pending.{pending_at};
ghost use Rattle.pm_values.specs.Along.{mode_logged, modes_of, trail_at_load};
ghost use Rattle.pm_tell.specs.Ended.{ended_at};
ghost use Rattle.pm_values.specs.Notifications.{notice_count};
ghost use Rattle.pm_tell.specs.Telling.{news_in, turns_in, with_news, without_news};
ghost use Rattle.pm_tell.specs.Callbacks.{IsQuiet, noticed_by, notes_of_master};

use crate::ended::{Ended, ended_at};
use pm_base::{BoundedList, Mode, NoMemory, at_or};
use pm_calls::{Asked, Say, aborted_by, asked_by};
use pm_notify::Waiting;
use pm_state::Tables;
use pm_values::{Along, Turns, log_modes};
use std::alloc::Global;

/// The log of a step.
#[derive(Drop)]
pub struct Telling {
    /// The mode of each master before the step.
    pub modes: Vec<Mode>,
    /// The changes of their modes along the step.
    pub along: Along,
    /// Whether a processor went to a mode in the step. If not, the modes are those before it, and nothing became of any.
    pub moved: bool,
    /// The master that is asked to suspend in the step.
    asks: Option<Asked>,
    /// The requests to suspend that end in the step. There is room for one to each master.
    ended: BoundedList<Ended>,
    /// The events of nodes in the step. There is room for two of each unit.
    pub notices: BoundedList<Waiting>,
}

impl Telling {
    /// Doesn't compile once a field is missing from its pattern. So whoever adds a field has to name it here, and to
    /// see that it is no second copy of the rows: no field is.
    pub fn name_fields(&self) {
        let Telling {
            modes: _,
            along: _,
            moved: _,
            asks: _,
            ended: _,
            notices: _,
        } = self;
    }

    /// An empty log, with room for the steps of a book of so many units, masters and processors.
    ///
    /// # Errors
    ///
    /// `NoMemory` if there is not enough memory.
    pub fn load(
        alloc: Global,
        units: usize,
        masters: usize,
        procs: usize,
    ) -> Result<Telling, NoMemory>
        ensures modes { IfOk result (λ telling. length telling.modes.items ≡ masters) }
        ensures along { IfOk result (λ telling. telling.along ≡ trail_at_load masters procs) }
        ensures ended { IfOk result (λ telling. masters ≤ telling.ended.room) }
        ensures notices { IfOk result (λ telling. notice_count units ≤ telling.notices.room) }
    {
        let notices = units.checked_mul(2).ok_or(NoMemory)?;
        Ok(Telling {
            modes: Vec::from_elem(alloc, Mode::Off, masters).map_err(|_| NoMemory)?,
            along: Along::load(alloc, masters, procs)?,
            moved: false,
            asks: None,
            ended: BoundedList::with_room(alloc, masters)?,
            notices: BoundedList::with_room(alloc, notices)?,
        })
    }

    /// The master that is asked to suspend in the step, if one is.
    pub(crate) fn asks(&self) -> Option<Asked>
        ensures { result ≡ self.now.asks }
    {
        self.asks
    }

    /// The requests to suspend that end in the step, in the order in which the object lists the masters that were
    /// asked.
    pub(crate) fn ended(&self) -> &[Ended]
        ensures { result.now ≡ self.now.ended.items }
    {
        self.ended.as_slice()
    }

    /// A quick test: true only if there is no news for any master. No master is asked to suspend in the step, no
    /// request to suspend ends in it, and no notifier is for an event of a node in it. It may be false although all of
    /// this holds.
    pub(crate) fn has_no_news(&self, tables: &Tables) -> bool
        ensures { result ≡ true → IsQuiet (news_in self.now) tables.now.now.talk.notes }
    {
        self.asks.is_none() && self.ended().is_empty() && self.has_no_notice(tables)
    }

    /// A quick test: true only if no notifier is for an event of a node in the step. It is true if nothing happens to a
    /// node in the step, or if it is known that no master has a notifier.
    fn has_no_notice(&self, tables: &Tables) -> bool
        ensures { result ≡ true → (k : ℕ)
            → flat_map (noticed_by (notes_of_master k tables.now)) self.now.notices.items ≡ [] }
    {
        if tables.notify().may_ask() {
            self.notices().is_empty()
        } else {
            true
        }
    }

    /// The events of nodes in the step.
    pub(crate) fn notices(&self) -> &[Waiting]
        ensures { result.now ≡ self.now.notices.items }
    {
        self.notices.as_slice()
    }

    /// Logs the mode of each master before the step.
    pub fn log_modes(&mut self, tables: &Tables)
        requires places { length self.old.modes.items ≡ length tables.now.fixed.object.masters }
        ensures modes { self.new.modes.items ≡ modes_of tables.now }
        ensures rest { self.new ≡ record self.old { modes = self.new.modes } }
    {
        log_modes(tables, &mut self.modes);
    }

    /// Logs the news that isn't about nodes, by what the call of the step has masters told (`says`) and the time that
    /// passes in the step (`count`), if any does: the master that the call asks to suspend, and the requests to suspend
    /// that end. A request ends by a change of the mode of the master that was asked, by a call with which that master
    /// aborts its suspend, or because its time is over. Before it the changes of modes are to be logged.
    pub(crate) fn log_ended(&mut self, tables: &Tables, says: Option<Say>, count: Option<u32>)
        requires each { length tables.now.now.talk.pending ≡ length tables.now.fixed.object.masters }
        requires room { length tables.now.fixed.object.masters ≤ self.old.ended.room }
        ensures news { self.new ≡ with_news says count tables.now self.old }
        ensures few { length self.new.ended.items ≤ length tables.now.fixed.object.masters }
    {
        self.asks = asked_by(says);
        self.ended.clear();
        let aborts = aborted_by(says);
        for m in 0..tables.masters() {
            self.log_end(tables, aborts, count, m);
        }
    }

    /// Logs that no master is asked to suspend and that no request ends. The events of nodes stay.
    pub(crate) fn clear_news(&mut self)
        ensures { self.new ≡ without_news self.old }
    {
        self.asks = None;
        self.ended.clear();
    }

    /// Logs the end of the request that is pending on the master at place `m`, if there is one and it ends in the step.
    fn log_end(&mut self, tables: &Tables, aborts: Option<usize>, count: Option<u32>, m: usize)
        requires room { length self.old.ended.items < self.old.ended.room }
        ensures { self.new ≡ record self.old {
          ended = record self.old.ended {
            items = self.old.ended.items
                ++ ended_at (turns_in self.old m) aborts count m (pending_at m tables.now.now.talk.pending);
          };
        } }
    {
        if let Some(request) = tables.pending(m) {
            if let Some(end) = ended_at(self.turns(m), aborts, count, m, request) {
                self.ended.push(end);
            }
        }
    }

    /// What became of the mode of the master at a place along the step.
    pub(crate) fn turns(&self, m: usize) -> Turns
        ensures { result ≡ turns_in self.now m }
    {
        self.along.turns(m)
    }

    /// The mode of the master at a place before the step.
    pub(crate) fn mode(&self, m: usize) -> Mode
        ensures { result ≡ mode_logged self.now.modes.items m }
    {
        at_or(&self.modes, m, Mode::Off)
    }
}
