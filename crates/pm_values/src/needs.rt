//! What each slave and each processor needs.

ghost use Rattle.std.specs.Prelude.{◌≡◌, ◌<◌, Some, ℕ, true, length, slice_get, slice_set};
ghost use Rattle.pm_topology.specs.declared.places.Kind.TheVariants.{Slave};
ghost use Rattle.pm_values.specs.Caches.{FollowNeeds, FollowRuns, renewed_at};
ghost use Rattle.pm_values.specs.declared.caches.UnitKind.TheVariants.{Entry};
ghost use Rattle.pm_values.specs.Kinds.{rests_at};
ghost use Rattle.pm_values.specs.Behind.{is_as_kept};
ghost use Rattle.std.specs.Option.{option_copied};
ghost use Rattle.pm_state.specs.Values as spec;
ghost use Rattle.pm_state.specs.Values.{state_at, placed, chosen, need_of, run_of};

use crate::caches::UnitKind;
use crate::choice::chosen_state;
use crate::counters::put;
use crate::kinds::Kinds;
use crate::notifications::freed;
use pm_base::at_or;
use pm_power::Power;
use pm_procs::is_awake;
use pm_state::Tables;
use pm_topology::{Kind, SlaveDef, needs_in};

/// The slave at a place.
pub(crate) fn slave_at(slaves: &[SlaveDef], place: usize) -> Option<&SlaveDef>
    ensures { option_copied result ≡ slice_get slaves.now place }
{
    slaves.get(place)
}

/// The chosen state of the slave at a place, and 0 past the last one.
#[inline]
pub(crate) fn state_of(tables: &Tables, place: usize) -> u32
    ensures { result ≡ state_at place (slice_get tables.now.fixed.topology.slaves place) tables.now.now.core }
{
    tables.stays_well_formed();
    match slave_at(tables.topology().slaves.as_slice(), place) {
        Some(slave) => chosen_state(slave, tables.rows().wanted(place)),
        None => 0,
    }
}

/// Writes the chosen state of each slave, and whether it needs its power node in that state.
pub(crate) fn choose(tables: &Tables, states: &mut [u32], needs: &mut [bool])
    requires states { length states.old ≡ length tables.now.fixed.topology.slaves }
    requires needs { length needs.old ≡ length tables.now.fixed.topology.slaves }
    ensures states { states.new ≡ placed (chosen tables.now.now.core) 0 tables.now.fixed.topology.slaves }
    ensures needs { needs.new ≡ placed (need_of tables.now.now.core) 0 tables.now.fixed.topology.slaves }
{
    let t = tables.topology();
    for s in 0..t.slaves.len() {
        let state = state_of(tables, s);
        states[s] = state;
        needs[s] = needs_in(t.slaves.get(s), state);
    }
}

/// Writes the chosen state of the slave at a place, and answers whether it needs its power node in that state.
pub(crate) fn choose_one(
    tables: &Tables,
    s: usize,
    chosen: u32,
    slave: &SlaveDef,
    states: &mut [u32],
    needs: &mut [bool],
) -> bool
    requires there { slice_get tables.now.fixed.topology.slaves s ≡ Some slave.now }
    requires states { length states.old ≡ length tables.now.fixed.topology.slaves }
    requires needs { length needs.old ≡ length tables.now.fixed.topology.slaves }
    requires chosen { chosen ≡ spec.chosen tables.now.now.core s slave.now }
    ensures states { states.new ≡ slice_set states.old s (spec.chosen tables.now.now.core s slave.now) }
    ensures needs { needs.new ≡ slice_set needs.old s (need_of tables.now.now.core s slave.now) }
    ensures need { result ≡ need_of tables.now.now.core s slave.now }
{
    let need = needs_in(slave, chosen);
    states[s] = chosen;
    needs[s] = need;
    need
}

/// Writes the state that is chosen for the slave at a place, and whether it needs its power node then, which follows that.
/// The slave doesn't rest unless it is as it is kept.
pub(crate) fn choose_and_wake(
    tables: &Tables,
    s: usize,
    used: &[bool],
    kinds: &mut Kinds,
    states: &mut [u32],
    needs: &mut [bool],
    power: &mut Power,
)
    requires states { length states.old ≡ length tables.now.fixed.topology.slaves }
    requires needs { length needs.old ≡ length tables.now.fixed.topology.slaves }
    ensures power { FollowNeeds needs.old needs.new power.old power.new }
    ensures states { states.new ≡ renewed_at true (chosen tables.now.now.core) s
        (slice_get tables.now.fixed.topology.slaves s) states.old }
    ensures needs { needs.new ≡ renewed_at true (need_of tables.now.now.core) s
        (slice_get tables.now.fixed.topology.slaves s) needs.old }
    ensures kinds { kinds.new.items ≡ kinds.old.items }
    ensures rests { (k : ℕ) → slice_get kinds.old.items k ≡ Some (Entry (Slave s)) → rests_at kinds.new.awake k ≡ true
        → is_as_kept states.old used.now s tables.now ≡ true }
    ensures others { (k : ℕ) → rests_at kinds.new.awake k ≡ true → rests_at kinds.old.awake k ≡ true }
{
    let state = state_of(tables, s);
    wake_slave_unless(is_as_kept(tables, s, state, states, used), s, kinds);
    choose_at(tables, s, state, states, needs, power);
}

/// Whether the slave at a place, for which this state is chosen, is in the state that is kept, and wasn't left without users.
pub(crate) fn is_as_kept(
    tables: &Tables,
    s: usize,
    state: u32,
    states: &[u32],
    used: &[bool],
) -> bool
    requires { state ≡ state_at s (slice_get tables.now.fixed.topology.slaves s) tables.now.now.core }
    ensures { result ≡ is_as_kept states.now used.now s tables.now }
{
    state == at_or(states, s, 0) && !freed(UnitKind::Entry(Kind::Slave(s)), used, tables.rows())
}

/// The slave at a place doesn't rest from now on, unless it is as it is kept.
fn wake_slave_unless(kept: bool, s: usize, kinds: &mut Kinds)
    ensures items { kinds.new.items ≡ kinds.old.items }
    ensures rests { (k : ℕ) → slice_get kinds.old.items k ≡ Some (Entry (Slave s)) → rests_at kinds.new.awake k ≡ true
        → kept ≡ true }
    ensures others { (k : ℕ) → rests_at kinds.new.awake k ≡ true → rests_at kinds.old.awake k ≡ true }
{
    if !kept {
        kinds.wake(s);
    }
}

/// Writes the state that is chosen for the slave at a place, if there is one, and whether it needs its power node then, which
/// follows that.
fn choose_at(
    tables: &Tables,
    s: usize,
    state: u32,
    states: &mut [u32],
    needs: &mut [bool],
    power: &mut Power,
)
    requires states { length states.old ≡ length tables.now.fixed.topology.slaves }
    requires needs { length needs.old ≡ length tables.now.fixed.topology.slaves }
    requires state { state ≡ state_at s (slice_get tables.now.fixed.topology.slaves s) tables.now.now.core }
    ensures power { FollowNeeds needs.old needs.new power.old power.new }
    ensures states { states.new ≡ renewed_at true (chosen tables.now.now.core) s
        (slice_get tables.now.fixed.topology.slaves s) states.old }
    ensures needs { needs.new ≡ renewed_at true (need_of tables.now.now.core) s
        (slice_get tables.now.fixed.topology.slaves s) needs.old }
{
    if let Some(slave) = slave_at(tables.topology().slaves.as_slice(), s) {
        let need = choose_one(tables, s, state, slave, states, needs);
        put(power, s, need);
    }
}

/// Writes whether each processor runs, and so needs its power node, which follows that.
pub(crate) fn follow_runs(tables: &Tables, runs: &mut [bool], power: &mut Power)
    requires { length runs.old ≡ length tables.now.fixed.topology.procs }
    ensures runs { runs.new ≡ placed (run_of tables.now.now.core) 0 tables.now.fixed.topology.procs }
    ensures power { FollowRuns (length tables.now.fixed.topology.slaves) runs.old runs.new power.old power.new }
{
    tables.stays_well_formed();
    let t = tables.topology();
    for p in 0..t.procs.len() {
        let run = is_awake(tables.procs().mode(p));
        runs[p] = run;
        put(power, t.slaves.len() + p, run);
    }
}

/// Writes whether each processor runs, and so needs its power node.
pub(crate) fn log_runs(tables: &Tables, runs: &mut [bool])
    requires { length runs.old ≡ length tables.now.fixed.topology.procs }
    ensures { runs.new ≡ placed (run_of tables.now.now.core) 0 tables.now.fixed.topology.procs }
{
    let t = tables.topology();
    for p in 0..t.procs.len() {
        runs[p] = is_awake(tables.procs().mode(p));
    }
}
