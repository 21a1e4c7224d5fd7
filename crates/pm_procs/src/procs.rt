//! The processors of a chip, and the masters that have them.

ghost use Rattle.std.specs.Prelude.{◌≡◌, IfOk, length, map, slice_set};
ghost use Rattle.std.specs.List.{list_any};
ghost use Rattle.pm_procs.specs.Modes.{mode_among, same_mode as is_same};
ghost use Rattle.pm_procs.specs.Pending.{all_ended, all_lowered, asked, ended, none_pending, pending_at};
ghost use Rattle.pm_procs.specs.Procs.{AreModes, all_off, all_turned_off, gone, master_mode, members_at, mode_at, off, proc_at, turned_off, wakes, with_address, with_mode};

use crate::modes::same_mode;
use crate::pending::{self, Pending};
use pm_base::{List, Mode, NoMemory, at_or};
use pm_topology::Topology;
use std::alloc::Global;
use std::marker::Model;

/// A processor: its mode, and the address at which it resumes. A processor that is off has address 0
/// until it is given one.
#[derive(Clone, Copy, Debug, PartialEq, Eq)]
pub struct Proc {
    pub mode: Mode,
    pub address: u64,
}

impl Proc {
    /// A processor that is off.
    pub fn off() -> Proc
        ensures { result ≡ off }
    {
        Proc {
            mode: Mode::Off,
            address: 0,
        }
    }

    /// The processor after it went to a mode. One that goes off forgets its resume address.
    pub fn gone(self, to: Mode) -> Proc
        ensures { result ≡ gone to self }
    {
        match to {
            Mode::Off => Proc::off(),
            _ => Proc {
                mode: to,
                address: self.address,
            },
        }
    }

    /// Whether the processor is asleep or suspending, and so an interrupt wakes it.
    pub fn wakes(self) -> bool
        ensures { result ≡ wakes self }
    {
        matches!(self.mode, Mode::Asleep | Mode::Suspending)
    }
}

/// The processors of a chip by their places in its table; and for each master the places of the
/// processors that it has, its first one first, its mode by those, and the request to suspend that is
/// pending on it.
///
/// A processor that isn't there is off. A master that isn't there has no processors, and nothing is
/// pending on it.
#[derive(Debug, Drop)]
pub struct Procs {
    procs: Vec<Proc>,
    members: List<List<usize>>,
    modes: Vec<Mode>,
    pending: Vec<Option<Pending>>,
}

impl Model for Procs {
    ghost use Rattle.pm_procs.specs.Procs.{AreModes, Procs};

    ghost Value = { Procs };

    ghost view = { λ procs. record {
      procs = procs.procs.items;
      members = procs.members;
      pending = procs.pending.items;
    } };

    ghost invariant = { λ procs. AreModes procs.members procs.procs.items procs.modes.items };
}

impl Procs {
    /// The processors of a chip at load: all are off, and nothing is pending. `members` has for each
    /// master the places of its processors.
    ///
    /// # Errors
    ///
    /// `NoMemory` if there is not enough memory.
    pub fn load(alloc: Global, t: &Topology, members: List<List<usize>>) -> Result<Procs, NoMemory>
        ensures procs { IfOk result (λ loaded. loaded.procs ≡ all_off (length t.now.procs)) }
        ensures members { IfOk result (λ loaded. loaded.members ≡ members) }
        ensures pending { IfOk result (λ loaded. loaded.pending ≡ none_pending (length members)) }
    {
        let procs = all_off(alloc, t.procs.len())?;
        let mut modes = all_modes_off(alloc, members.len())?;
        log_modes(&procs, &members, &mut modes);
        let pending = pending::none_pending(alloc, members.len())?;
        Ok(Procs {
            procs,
            members,
            modes,
            pending,
        })
    }

    /// The processor at a place.
    pub fn proc(&self, p: usize) -> Proc
        ensures { result ≡ proc_at p self.now.procs }
    {
        at_or(&self.procs, p, Proc::off())
    }

    /// The mode of the processor at a place.
    pub fn mode(&self, p: usize) -> Mode
        ensures { result ≡ mode_at p self.now.procs }
    {
        self.proc(p).mode
    }

    /// The address at which the processor at a place resumes.
    pub fn resume(&self, p: usize) -> u64
        ensures { result ≡ (proc_at p self.now.procs).address }
    {
        self.proc(p).address
    }

    /// The processor at a place goes to a mode. Going off sets its resume address to 0. Nothing changes
    /// if it isn't there.
    pub fn put(&mut self, p: usize, to: Mode)
        ensures { self.new ≡ record self.old { procs = with_mode p to self.old.procs } }
    {
        let proc = self.proc(p).gone(to);
        self.set(p, proc);
    }

    /// The processor at a place resumes at an address from now on. Nothing changes if it isn't
    /// there.
    pub fn put_resume(&mut self, p: usize, address: u64)
        ensures { self.new ≡ record self.old { procs = with_address p address self.old.procs } }
    {
        let mode = self.mode(p);
        self.set(p, Proc { mode, address });
    }

    /// The processor at a place is this one from now on. Nothing changes if it isn't there.
    pub fn set(&mut self, p: usize, proc: Proc)
        ensures { self.new ≡ record self.old { procs = slice_set self.old.procs p proc } }
    {
        if p < self.procs.len() {
            self.procs[p] = proc;
            log_modes(&self.procs, &self.members, &mut self.modes);
        }
    }

    /// All processors go off, and forget their resume addresses.
    pub fn put_all_off(&mut self)
        ensures { self.new ≡ record self.old { procs = all_turned_off self.old.procs } }
    {
        turn_off(&mut self.procs);
        log_modes(&self.procs, &self.members, &mut self.modes);
    }

    /// The places of a master's processors, its first one first.
    pub fn members(&self, m: usize) -> &[usize]
        ensures { result.now ≡ members_at m self.now.members }
    {
        if m < self.members.len() {
            self.members.get(m).as_slice()
        } else {
            &[]
        }
    }

    /// The mode of a master, by those of its processors (UG1137, subsystem states): active if one of
    /// them is, else suspending if one is, else asleep if one is, else off.
    pub fn master_mode(&self, m: usize) -> Mode
        ensures { result ≡ master_mode m self.now }
    {
        at_or(&self.modes, m, Mode::Off)
    }

    /// Whether some processor is asleep or suspending, and so an interrupt wakes it.
    pub fn one_wakes(&self) -> bool
        ensures { result ≡ list_any wakes self.now.procs }
    {
        self.procs.iter().any(|proc| proc.wakes())
    }

    /// The request to suspend that is pending on a master.
    pub fn pending(&self, m: usize) -> Option<Pending>
        ensures { result ≡ pending_at m self.now.pending }
    {
        at_or(&self.pending, m, None)
    }

    /// A request to suspend is pending on a master from now on, in place of one that was. Nothing changes
    /// if the master isn't there.
    pub fn ask(&mut self, m: usize, request: Pending)
        ensures { self.new ≡ record self.old { pending = asked m request self.old.pending } }
    {
        pending::set_pending(&mut self.pending, m, Some(request));
    }

    /// Nothing is pending on a master any more.
    pub fn end(&mut self, m: usize)
        ensures { self.new ≡ record self.old { pending = ended m self.old.pending } }
    {
        pending::set_pending(&mut self.pending, m, None);
    }

    /// Nothing is pending on any master any more.
    pub fn end_all(&mut self)
        ensures { self.new ≡ record self.old { pending = all_ended self.old.pending } }
    {
        pending::end_all(&mut self.pending);
    }

    /// So many units of time pass: of each pending request that is due some time, what is left of its
    /// time is less by that, or 0 if it was no more.
    pub fn tick(&mut self, count: u32)
        ensures { self.new ≡ record self.old { pending = all_lowered count self.old.pending } }
    {
        pending::lower_all(&mut self.pending, count);
    }
}

/// Writes the mode of each master.
fn log_modes(procs: &[Proc], members: &List<List<usize>>, modes: &mut [Mode])
    requires { length modes.old ≡ length members.now }
    ensures { AreModes members.now procs.now modes.new }
{
    for m in 0..members.len() {
        modes[m] = mode_of(procs, members.get(m).as_slice());
    }
}

/// The mode of a master that has the processors at these places.
fn mode_of(procs: &[Proc], places: &[usize]) -> Mode
    ensures { result ≡ mode_among (map (λ p. mode_at p procs.now) places.now) }
{
    if one_has_mode(procs, places, Mode::Active) {
        Mode::Active
    } else if one_has_mode(procs, places, Mode::Suspending) {
        Mode::Suspending
    } else if one_has_mode(procs, places, Mode::Asleep) {
        Mode::Asleep
    } else {
        Mode::Off
    }
}

/// Whether one of the processors at these places has this mode.
fn one_has_mode(procs: &[Proc], places: &[usize], mode: Mode) -> bool
    ensures { result ≡ list_any (λ p. is_same mode (mode_at p procs.now)) places.now }
{
    places
        .iter()
        .any(|p| same_mode(mode, at_or(procs, *p, Proc::off()).mode))
}

/// This many processors that are off.
fn all_off(alloc: Global, count: usize) -> Result<Vec<Proc>, NoMemory>
    ensures { IfOk result (λ procs. procs.items ≡ all_off count) }
{
    let procs = vec![in alloc; Proc::off(); count].map_err(|_| NoMemory)?;
    Ok(procs)
}

/// The modes of so many masters that are off.
fn all_modes_off(alloc: Global, masters: usize) -> Result<Vec<Mode>, NoMemory>
    ensures { IfOk result (λ modes. length modes.items ≡ masters) }
{
    vec![in alloc; Mode::Off; masters].map_err(|_| NoMemory)
}

/// All of these processors go off.
fn turn_off(procs: &mut [Proc])
    ensures { procs.new ≡ map turned_off procs.old }
{
    for proc in procs.iter_mut() {
        *proc = Proc::off();
    }
}
