//! What is logged along a step: what becomes of the mode of each master, and which processors were down.

ghost use Rattle.std.specs.Prelude.{◌≡◌, ◌∷◌, ◌||◌, ◌<◌, [], IfOk, length, map, slice_set};
ghost use Rattle.pm_values.specs.Turns.{turns_of};
ghost use Rattle.pm_state.specs.Members.{mode_of_master};
ghost use Rattle.pm_values.specs.Along as spec;
ghost use Rattle.pm_values.specs.Along.{HasPlaces, both_turns, down_logged, trail_from, forgotten, mode_logged, modes_of, trailed, trail_at_load, turns_logged};
ghost use Rattle.pm_state.specs.Values.{placed};

use crate::turns::{Turns, turns_between};
use pm_base::{Mode, NoMemory, at_or};
use pm_procs::{is_awake, same_mode};
use pm_state::Tables;
use std::alloc::Global;
use std::marker::Model;

/// For each master its mode at the last moment that was logged, and what became of its mode so far; and
/// for each processor whether it was off or asleep at some logged moment.
#[derive(Drop)]
pub struct Along {
    modes: Vec<Mode>,
    turns: Vec<Turns>,
    downs: Vec<bool>,
}

impl Model for Along {
    ghost use Rattle.pm_values.specs.Along.{Trail};

    ghost Value = { Trail };

    ghost view = { λ along. record {
      modes = along.modes.items;
      turns = along.turns.items;
      downs = along.downs.items;
    } };
}

impl Along {
    /// Room for so many masters and processors. All processors were down.
    pub fn load(alloc: Global, masters: usize, procs: usize) -> Result<Along, NoMemory>
        ensures { IfOk result (λ along. along ≡ trail_at_load masters procs) }
    {
        Ok(Along {
            modes: Vec::from_elem(alloc, Mode::Off, masters).map_err(|_| NoMemory)?,
            turns: Vec::from_elem(alloc, Turns::none(), masters).map_err(|_| NoMemory)?,
            downs: Vec::from_elem(alloc, true, procs).map_err(|_| NoMemory)?,
        })
    }

    /// Logs the first moment of a step.
    pub fn start(&mut self, tables: &Tables)
        requires { HasPlaces (length tables.now.fixed.object.masters)
            (length tables.now.fixed.topology.procs) self.old }
        ensures { self.new ≡ trail_from tables.now }
    {
        log_modes(tables, &mut self.modes);
        forget(&mut self.turns);
        log_downs(tables, &mut self.downs);
    }

    /// Logs one moment more.
    pub fn log(&mut self, tables: &Tables)
        requires { HasPlaces (length tables.now.fixed.object.masters)
            (length tables.now.fixed.topology.procs) self.old }
        ensures { self.new ≡ trailed tables.now self.old }
    {
        log_turns(tables, &self.modes, &mut self.turns);
        log_modes(tables, &mut self.modes);
        add_downs(tables, &mut self.downs);
    }

    /// The mode of the master at a place at the last moment that was logged.
    pub(crate) fn mode(&self, m: usize) -> Mode
        ensures { result ≡ mode_logged self.now.modes m }
    {
        at_or(&self.modes, m, Mode::Off)
    }

    /// What became of the mode of the master at a place.
    pub fn turns(&self, m: usize) -> Turns
        ensures { result ≡ turns_logged m self.now.turns }
    {
        at_or(&self.turns, m, Turns::none())
    }

    /// Whether the processor at a place was down.
    pub(crate) fn was_down(&self, p: usize) -> bool
        ensures { result ≡ down_logged p self.now.downs }
    {
        at_or(&self.downs, p, true)
    }
}

/// Nothing became of any mode.
fn forget(turns: &mut [Turns])
    ensures { turns.new ≡ map forgotten turns.old }
{
    for turn in turns.iter_mut() {
        *turn = Turns::none();
    }
}

/// Writes the mode of each master.
pub fn log_modes(tables: &Tables, modes: &mut [Mode])
    requires { length modes.old ≡ length tables.now.fixed.object.masters }
    ensures { modes.new ≡ modes_of tables.now }
{
    for m in 0..tables.masters() {
        modes[m] = tables.mode_of_master(m);
    }
}

/// Adds what became of the mode of each master since these modes were logged.
fn log_turns(tables: &Tables, modes: &[Mode], turns: &mut [Turns])
    requires { length turns.old ≡ length tables.now.fixed.object.masters }
    ensures { turns.new ≡ placed (spec.turns_after modes.now turns.old tables.now) 0 tables.now.fixed.object.masters }
{
    for m in 0..tables.masters() {
        add_turns(tables, modes, turns, m);
    }
}

/// Adds what became of the mode of the master at a place since this was logged.
fn add_turns(tables: &Tables, modes: &[Mode], turns: &mut [Turns], m: usize)
    requires { m < length turns.old }
    ensures { turns.new ≡ slice_set turns.old m (both_turns (turns_logged m turns.old)
        (turns_of (mode_logged modes.now m) (mode_of_master tables.now.fixed tables.now.now.core m ∷ []))) }
{
    let before = at_or(modes, m, Mode::Off);
    let now = tables.mode_of_master(m);
    if same_mode(before, now) {
        return;
    }
    turns[m] = turns_after(tables, modes, turns, m);
}

/// What became of the mode of the master at a place, by what was logged of it.
fn turns_after(tables: &Tables, modes: &[Mode], turns: &[Turns], m: usize) -> Turns
    ensures { result ≡ both_turns (turns_logged m turns.now)
        (turns_of (mode_logged modes.now m) (mode_of_master tables.now.fixed tables.now.now.core m ∷ [])) }
{
    let since = turns_between(at_or(modes, m, Mode::Off), tables.mode_of_master(m));
    at_or(turns, m, Turns::none()).and(since)
}

/// Writes whether each processor is down.
fn log_downs(tables: &Tables, downs: &mut [bool])
    requires { length downs.old ≡ length tables.now.fixed.topology.procs }
    ensures { downs.new ≡ placed (spec.down_in tables.now) 0 tables.now.fixed.topology.procs }
{
    let t = tables.topology();
    for p in 0..t.procs.len() {
        downs[p] = is_down(tables, p);
    }
}

/// Adds the processors that are down to those that were.
fn add_downs(tables: &Tables, downs: &mut [bool])
    requires { length downs.old ≡ length tables.now.fixed.topology.procs }
    ensures { downs.new ≡ placed (spec.down_after downs.old tables.now) 0 tables.now.fixed.topology.procs }
{
    let t = tables.topology();
    for p in 0..t.procs.len() {
        add_down(tables, downs, p);
    }
}

/// Adds the processor at a place, if it is down, to those that were.
fn add_down(tables: &Tables, downs: &mut [bool], p: usize)
    requires { p < length downs.old }
    ensures { downs.new ≡ slice_set downs.old p (down_logged p downs.old || spec.is_down tables.now p) }
{
    if at_or(downs, p, true) {
        return;
    }
    downs[p] = down_after(tables, downs, p);
}

/// Whether the processor at a place is down, or was so.
fn down_after(tables: &Tables, downs: &[bool], p: usize) -> bool
    ensures { result ≡ (down_logged p downs.now || spec.is_down tables.now p) }
{
    at_or(downs, p, true) || is_down(tables, p)
}

/// Whether the processor at a place is off or asleep.
fn is_down(tables: &Tables, p: usize) -> bool
    ensures { result ≡ spec.is_down tables.now p }
{
    !is_awake(tables.procs().mode(p))
}
