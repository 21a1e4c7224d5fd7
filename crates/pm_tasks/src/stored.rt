//! A task as it is stored under its key.

ghost use Rattle.std.specs.Prelude.{◌≡◌, ◌+◌, ◌%◌, ◌^◌, ◌<◌, Some, None, IfSome, IsSome, is_some, slice_set, option_map};
ghost use Rattle.slab.specs.Slab.{get, slab_len};

use crate::handler::Handler;
use slab::Slab;

/// Since when a task runs, and at which interval it is due.
#[derive(Drop)]
pub(crate) struct Plan {
    pub(crate) from: u64,
    pub(crate) interval: u32,
    ghost passes: { 0 < interval },
}

impl Plan {
    ghost use Rattle.pm_tasks.specs.Timetable.{is_due, rounds};
    ghost use Rattle.pm_tasks.specs.Stored.{period};

    /// Whether a whole interval more has passed at one time than at an earlier one.
    pub(crate) fn is_due(&self, before: u64, now: u64) -> bool
        ensures { result ≡ is_due before now (Some (period self.now)) }
    {
        self.rounds(before) < self.rounds(now)
    }

    /// How many whole intervals have passed.
    fn rounds(&self, at: u64) -> u64
        ensures { result ≡ rounds at (period self.now) }
    {
        at.saturating_sub(self.from) / self.interval as u64
    }
}

/// A handler with its plan: none if it is stopped.
#[derive(Drop)]
pub(crate) struct Task<H: Drop> {
    pub(crate) plan: Option<Plan>,
    pub(crate) handler: H,
}

impl<H: Handler> Task<H> {
    ghost use Rattle.pm_tasks.specs.Timetable.{called, is_due, planned};
    ghost use Rattle.pm_tasks.specs.Stored.{timed};

    /// Whether a whole interval more has passed at one time than at an earlier one.
    pub(crate) fn is_due(&self, before: u64, now: u64) -> bool
        ensures { result ≡ is_due before now (timed H.Handler self.now).plan }
    {
        match &self.plan {
            Some(plan) => plan.is_due(before, now),
            None => false,
        }
    }

    /// Calls the handler.
    pub(crate) fn fire(&mut self, at: u64) -> u32
        ensures called { timed H.Handler self.new
            ≡ called (timed H.Handler self.old) }
        ensures answer { result ≡ (timed H.Handler self.new).calls }
        ensures time { IfSome (H.last self.new.handler) (λ time. time ≡ at) }
    {
        self.handler.fire(at)
    }

    /// It runs from a time on, at this interval.
    pub(crate) fn run(&mut self, from: u64, interval: u32)
        requires { 0 < interval }
        ensures { timed H.Handler self.new
            ≡ planned from interval (timed H.Handler self.old) }
    {
        self.plan = Some(Plan { from, interval });
    }
}
