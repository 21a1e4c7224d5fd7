//! What the book keeps of its values.

ghost use Rattle.std.specs.Prelude.{◌≡◌, ◌<◌, IfOk, false, length, map, option_map, slice_get, unwrap_or};
ghost use Rattle.pm_topology.specs.Units.{units_of};
ghost use Rattle.pm_topology.specs.WellFormed.{IsWellFormed};
ghost use Rattle.pm_power.specs.Needs.{needs_of};
ghost use Rattle.pm_topology.specs.UnitMap.{all_at};
ghost use Rattle.pm_values.specs.Caches.{AreChosen, AreKept, Finds, HasPlaces, HasRoom, HaveSettled, IsChosen, IsWritten, kind_of_unit, value_kept};

use crate::along::Along;
use crate::counters::recompute;
use crate::found::Found;
use crate::kinds::Kinds;
use crate::moves::log_units;
use crate::needs::{choose, log_runs};
use crate::notifications::log_uses;
use crate::starts::Start;
use pm_base::{BoundedList, NoMemory, Unit, with};
use pm_notify::Waiting;
use pm_power::Power;
use pm_state::Tables;
use pm_topology::{Kind, Topology, UnitMap, kinds_are_exact, units_stand_in_order};
use std::alloc::Global;

/// What the value of a unit is found by: the kind of a node, or the place of a reset line.
#[derive(Clone, Copy, Debug, PartialEq, Eq)]
pub enum UnitKind {
    Entry(Kind),
    Reset(Option<usize>),
}

/// What is kept of the values of a book: the kind of each unit by its place, the chosen state of each
/// slave and whether it needs its power node in it, whether each processor runs, whether some master uses
/// each slave, the power nodes, and the value of each unit. Along a step it is kept, too, which units rest in it.
#[derive(Drop)]
pub struct Caches {
    pub(crate) kinds: Kinds,
    pub(crate) states: Vec<u32>,
    pub(crate) needs: Vec<bool>,
    pub(crate) runs: Vec<bool>,
    pub(crate) used: Vec<bool>,
    pub(crate) power: Power,
    pub(crate) values: UnitMap<u32>,
}

impl Caches {
    /// The caches of a chip, before anything is found: each value is 0.
    pub fn load(alloc: Global, tables: &Tables) -> Result<Caches, NoMemory>
        ensures places { IfOk result (HasPlaces tables.now.fixed.topology) }
        ensures zeros { IfOk result (λ caches. caches.values ≡ all_at 0 (units_of tables.now.fixed.topology)) }
    {
        tables.stays_well_formed();
        let t = tables.topology();
        let found = found_of(alloc, t)?;
        let flags = flags_of(alloc, t.slaves.len(), t.procs.len());
        let ((kinds, power, values), (states, needs, runs, used)) = with(found, flags)?;
        Ok(Caches {
            kinds,
            states,
            needs,
            runs,
            used,
            power,
            values,
        })
    }

    /// Doesn't compile once a field is missing from its pattern. So whoever adds a field has to name it here, and to
    /// see that it is no second copy of the rows: no field is.
    pub fn name_fields(&self) {
        let Caches {
            kinds: _,
            states: _,
            needs: _,
            runs: _,
            used: _,
            power: _,
            values: _,
        } = self;
    }

    /// The number of units.
    pub fn units(&self) -> usize
        ensures { result ≡ length self.now.values }
    {
        self.values.len()
    }

    /// The `k`-th unit.
    pub fn unit(&self, k: usize) -> Option<Unit>
        ensures { result ≡ option_map (λ e. e.0) (slice_get self.now.values k) }
    {
        self.values.entry(k).map(|entry| entry.0)
    }

    /// The value of a unit, and 0 for a unit that isn't there.
    pub fn value(&self, unit: Unit) -> u32
        ensures { result ≡ value_kept unit self.now.values }
    {
        self.values.get(unit).unwrap_or(0)
    }

    /// The value of the unit at a place, and 0 past the last one.
    pub fn value_at(&self, place: usize) -> u32
        ensures { result ≡ unwrap_or (option_map (λ e. e.1) (slice_get self.now.values place)) 0 }
    {
        match self.values.entry(place) {
            Some((_, value)) => value,
            None => 0,
        }
    }

    /// Chooses the state of each slave, and finds which power nodes are up by that and by the processors that run.
    fn choose(&mut self, tables: &Tables)
        requires { HasPlaces tables.now.fixed.topology self.old }
        ensures { IsChosen tables.now self.old self.new }
    {
        choose(tables, &mut self.states, &mut self.needs);
        log_runs(tables, &mut self.runs);
        recompute(&mut self.power, &self.needs, &self.runs);
    }

    /// Brings all that is kept up to date, and puts the units whose value isn't the one before into `moved`, the
    /// processors that are active now and were down by what is kept along the step into `starts`, and what
    /// happened to nodes into `notices`, in the order of the units.
    pub fn update(
        &mut self,
        tables: &Tables,
        along: &Along,
        moved: &mut BoundedList<Unit>,
        starts: &mut BoundedList<Start>,
        notices: &mut BoundedList<Waiting>,
    )
        requires { HasRoom tables.now.fixed.topology self.old moved.old starts.old notices.old }
        ensures kept { AreKept tables.now self.new }
        ensures found { Finds tables.now along.now.downs self.old moved.old moved.new starts.old starts.new
            notices.old notices.new }
    {
        self.choose(tables);
        self.log_all(tables, along, moved, starts, notices);
    }

    /// Logs what moved, started and happened, once the states are chosen and the power nodes are found.
    pub(crate) fn log_all(
        &mut self,
        tables: &Tables,
        along: &Along,
        moved: &mut BoundedList<Unit>,
        starts: &mut BoundedList<Start>,
        notices: &mut BoundedList<Waiting>,
    )
        requires room { HasRoom tables.now.fixed.topology self.old moved.old starts.old notices.old }
        requires chosen { AreChosen tables.now self.old }
        ensures kept { AreKept tables.now self.new }
        ensures found { Finds tables.now along.now.downs self.old moved.old moved.new starts.old starts.new
            notices.old notices.new }
    {
        self.kinds.wake_all();
        self.log_changes(tables, along, moved, starts, notices);
    }

    /// Logs what moved, started and happened among the units that don't rest: those to which something happened or
    /// which start.
    fn log_changes(
        &mut self,
        tables: &Tables,
        along: &Along,
        moved: &mut BoundedList<Unit>,
        starts: &mut BoundedList<Start>,
        notices: &mut BoundedList<Waiting>,
    )
        requires room { HasRoom tables.now.fixed.topology self.old moved.old starts.old notices.old }
        requires chosen { AreChosen tables.now self.old }
        requires settled { HaveSettled tables.now along.now.downs self.old }
        ensures kept { AreKept tables.now self.new }
        ensures found { Finds tables.now along.now.downs self.old moved.old moved.new starts.old starts.new
            notices.old notices.new }
    {
        self.log_values(tables, along, moved, starts, notices);
        log_uses(tables, &mut self.used);
    }

    /// Logs what moved, started and happened, but for whether slaves are used, which stays as it is kept.
    pub(crate) fn log_values(
        &mut self,
        tables: &Tables,
        along: &Along,
        moved: &mut BoundedList<Unit>,
        starts: &mut BoundedList<Start>,
        notices: &mut BoundedList<Waiting>,
    )
        requires room { HasRoom tables.now.fixed.topology self.old moved.old starts.old notices.old }
        requires chosen { AreChosen tables.now self.old }
        requires settled { HaveSettled tables.now along.now.downs self.old }
        ensures written { IsWritten tables.now self.old self.new }
        ensures found { Finds tables.now along.now.downs self.old moved.old moved.new starts.old starts.new
            notices.old notices.new }
    {
        units_stand_in_order();
        kinds_are_exact();
        notices.clear();
        let found = Found::of(tables, along, &self.states, self.power.ups(), &self.used);
        log_units(
            &found,
            self.kinds.as_slice(),
            self.kinds.awake(),
            &mut self.values,
            moved,
            starts,
            notices,
        );
    }
}

/// The kinds of the units, the power nodes with nothing up, and the value 0 of each unit.
fn found_of(alloc: Global, t: &Topology) -> Result<(Kinds, Power, UnitMap<u32>), NoMemory>
    requires { IsWellFormed t.now }
    ensures kinds { IfOk result (λ found. found.0.items ≡ map (kind_of_unit t.now) (units_of t.now)) }
    ensures power { IfOk result (λ found. found.1 ≡ needs_of t.now (λ _. false)) }
    ensures values { IfOk result (λ found. found.2 ≡ all_at 0 (units_of t.now)) }
{
    let kinds = Kinds::load(alloc, t)?;
    let power = Power::load(alloc, t);
    let (kinds, power) = with(kinds, power)?;
    let values = UnitMap::load(alloc, t, 0);
    let ((kinds, power), values) = with((kinds, power), values)?;
    Ok((kinds, power, values))
}

/// The states of so many slaves and whether each needs its power node, whether each of so many processors runs, and
/// whether each slave is used.
fn flags_of(
    alloc: Global,
    slaves: usize,
    procs: usize,
) -> Result<(Vec<u32>, Vec<bool>, Vec<bool>, Vec<bool>), NoMemory>
    ensures states { IfOk result (λ flags. length flags.0.items ≡ slaves) }
    ensures needs { IfOk result (λ flags. length flags.1.items ≡ slaves) }
    ensures runs { IfOk result (λ flags. length flags.2.items ≡ procs) }
    ensures used { IfOk result (λ flags. length flags.3.items ≡ slaves) }
{
    let states = zeros(alloc, slaves)?;
    let needs = no_needs(alloc, slaves)?;
    let runs = no_needs(alloc, procs)?;
    let used = no_needs(alloc, slaves)?;
    Ok((states, needs, runs, used))
}

/// As many zeros.
fn zeros(alloc: Global, count: usize) -> Result<Vec<u32>, NoMemory>
    ensures { IfOk result (λ zeros. length zeros.items ≡ count) }
{
    Vec::from_elem(alloc, 0, count).map_err(|_| NoMemory)
}

/// As many units that need no power.
fn no_needs(alloc: Global, count: usize) -> Result<Vec<bool>, NoMemory>
    ensures { IfOk result (λ needs. length needs.items ≡ count) }
{
    Vec::from_elem(alloc, false, count).map_err(|_| NoMemory)
}
