//! Bringing the values up to date after a step, by what it wrote down.

ghost use Rattle.std.specs.Prelude.{◌≡◌, ℕ, ◌<◌, ◌⊎◌, [], Some, false, length, slice_get, true};
ghost use Rattle.pm_topology.specs.UnitMap.{units_in};
ghost use Rattle.pm_topology.specs.Units.{UnitLaws, units_of};
ghost use Rattle.pm_topology.specs.declared.places.Kind.TheVariants.{Slave};
ghost use Rattle.pm_state.specs.Changes.{is_in};
ghost use Rattle.pm_state.specs.Values.{chosen, need_of};
ghost use Rattle.pm_values.specs.Along.{down_logged, is_down};
ghost use Rattle.pm_values.specs.Behind.{IsBehind, IsClear, is_as_kept, kinds_of_units, line_unit, renewed_on, rests};
ghost use Rattle.pm_values.specs.Caches.{AreChosen, AreKept, Finds, FollowNeeds, HasPlaces, HasRoom, IsChosen, OthersStay, use_of};
ghost use Rattle.pm_values.specs.Kinds.{RestLess, rests_at};
ghost use Rattle.pm_values.specs.declared.caches.UnitKind.TheVariants.{Entry, Reset};

use crate::along::Along;
use crate::caches::Caches;
use crate::kinds::Kinds;
use crate::needs::{choose_and_wake, follow_runs};
use crate::notifications::log_use_if;
use crate::starts::Start;
use pm_base::{BoundedList, Unit};
use pm_notify::Waiting;
use pm_power::Power;
use pm_state::{Changes, Tables};
use pm_topology::{LineDef, Topology, UnitMap, kinds_are_exact, units_stand_in_order};

impl Caches {
    /// Finds again what is kept of the values after a step. It visits only the units that the step wrote down, and then the
    /// processors and the power nodes; nothing if no unit is written down. `update` finds the same by visiting all units.
    pub fn bring(
        &mut self,
        changes: &Changes,
        tables: &Tables,
        along: &Along,
        moved: &mut BoundedList<Unit>,
        starts: &mut BoundedList<Start>,
        notices: &mut BoundedList<Waiting>,
    )
        requires room { HasRoom tables.now.fixed.topology self.old moved.old starts.old notices.old }
        requires behind { IsBehind changes.now tables.now self.old }
        requires still { changes.now.procs.list ≡ [] → (p : ℕ) → p < length tables.now.fixed.topology.procs
            → down_logged p along.now.downs ≡ is_down tables.now p }
        ensures kept { AreKept tables.now self.new }
        ensures found { Finds tables.now along.now.downs self.old moved.old moved.new starts.old starts.new
            notices.old notices.new }
    {
        units_stand_in_order();
        kinds_are_exact();
        if has_no_unit(changes) {
            notices.clear();
            return;
        }
        self.choose_written(changes, tables);
        wake_lines(
            tables.topology(),
            changes.lines(),
            &self.values,
            &mut self.kinds,
        );
        self.wake_changed(tables, along);
        self.log_values(tables, along, moved, starts, notices);
        log_uses_on(changes.slaves(), tables, &mut self.used);
    }

    /// Chooses the states of the slaves that are written down, and finds which power nodes are up by that and by the
    /// processors that run. All other units rest, and those of these slaves that are as they are kept.
    fn choose_written(&mut self, changes: &Changes, tables: &Tables)
        requires places { HasPlaces tables.now.fixed.topology self.old }
        requires behind { IsBehind changes.now tables.now self.old }
        ensures chosen { IsChosen tables.now self.old self.new }
        ensures rests { (k s : ℕ) → slice_get self.new.kinds.items k ≡ Some (Entry (Slave s))
            → rests_at self.new.kinds.awake k ≡ true
            → (is_in s changes.now.slaves.list ≡ false) ⊎ (rests s tables.now self.old ≡ true) }
    {
        choose_on(
            changes.slaves(),
            tables,
            &self.used,
            &mut self.kinds,
            &mut self.states,
            &mut self.needs,
            &mut self.power,
        );
        follow_runs(tables, &mut self.runs, &mut self.power);
    }

    /// The processors and power nodes to which something happened don't rest from now on.
    pub(crate) fn wake_changed(&mut self, tables: &Tables, along: &Along)
        requires { AreChosen tables.now self.old }
        ensures chosen { IsChosen tables.now self.old self.new }
        ensures stay { OthersStay tables.now along.now.downs self.new }
        ensures less { RestLess self.old.kinds.awake self.new.kinds.awake }
    {
        self.kinds
            .wake_changed(along, tables.procs(), self.power.ups(), &self.values);
    }
}

/// Whether no unit is written down: no slave, no processor and no reset line.
fn has_no_unit(changes: &Changes) -> bool
    ensures { result ≡ true → IsClear changes.now }
{
    changes.slaves().is_empty() && changes.procs().is_empty() && changes.lines().is_empty()
}

/// Chooses the states of the slaves at these places, and whether they need their power nodes then, which follow that. All
/// other units rest, and those of these slaves that are as they are kept.
fn choose_on(
    places: &[usize],
    tables: &Tables,
    used: &[bool],
    kinds: &mut Kinds,
    states: &mut [u32],
    needs: &mut [bool],
    power: &mut Power,
)
    requires states { length states.old ≡ length tables.now.fixed.topology.slaves }
    requires needs { length needs.old ≡ length tables.now.fixed.topology.slaves }
    ensures power { FollowNeeds needs.old needs.new power.old power.new }
    ensures states { states.new ≡ renewed_on places.now chosen tables.now states.old }
    ensures needs { needs.new ≡ renewed_on places.now need_of tables.now needs.old }
    ensures kinds { kinds.new.items ≡ kinds.old.items }
    ensures rests { (k s : ℕ) → slice_get kinds.old.items k ≡ Some (Entry (Slave s)) → rests_at kinds.new.awake k ≡ true
        → (is_in s places.now ≡ false) ⊎ (is_as_kept states.old used.now s tables.now ≡ true) }
{
    kinds.rest();
    for s in places {
        choose_and_wake(tables, *s, used, kinds, states, needs, power);
    }
}

/// Writes whether some master uses each of the slaves at these places.
fn log_uses_on(places: &[usize], tables: &Tables, used: &mut [bool])
    requires { length used.old ≡ length tables.now.fixed.topology.slaves }
    ensures { used.new ≡ renewed_on places.now use_of tables.now used.old }
{
    for s in places {
        log_use_if(tables, true, *s, used);
    }
}

/// The reset lines at these places don't rest from now on.
fn wake_lines(t: &Topology, places: &[usize], values: &UnitMap<u32>, kinds: &mut Kinds)
    requires kinds { kinds.old.items ≡ kinds_of_units t.now }
    requires units { units_in values.now ≡ units_of t.now }
    requires laws { UnitLaws }
    ensures items { kinds.new.items ≡ kinds.old.items }
    ensures woken { (k l : ℕ) → slice_get kinds.old.items k ≡ Some (Reset (Some l)) → is_in l places.now ≡ true
        → rests_at kinds.new.awake k ≡ false }
    ensures less { RestLess kinds.old.awake kinds.new.awake }
{
    for l in places {
        wake_line(t, *l, values, kinds);
    }
}

/// The reset line at a place doesn't rest from now on.
fn wake_line(t: &Topology, l: usize, values: &UnitMap<u32>, kinds: &mut Kinds)
    requires kinds { kinds.old.items ≡ kinds_of_units t.now }
    requires units { units_in values.now ≡ units_of t.now }
    requires laws { UnitLaws }
    ensures items { kinds.new.items ≡ kinds.old.items }
    ensures woken { (k : ℕ) → slice_get kinds.old.items k ≡ Some (Reset (Some l))
        → rests_at kinds.new.awake k ≡ false }
    ensures less { RestLess kinds.old.awake kinds.new.awake }
{
    kinds.wake_in(line_unit(t.lines.as_slice(), l, values));
}

/// The place of the unit of the reset line at a place.
fn line_unit(lines: &[LineDef], l: usize, values: &UnitMap<u32>) -> Option<usize>
    ensures { result ≡ line_unit lines.now values.now l }
{
    let line = line_at(lines, l)?;
    values.place(Unit::Line(line.line))
}

/// The reset line at a place.
fn line_at(lines: &[LineDef], place: usize) -> Option<LineDef>
    ensures { result ≡ slice_get lines.now place }
{
    lines.get(place).copied()
}
