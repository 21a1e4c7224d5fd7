//! What the value of each unit is found by, and the units that rest in a step.

ghost use Rattle.std.specs.Prelude.{◌≡◌, ℕ, ◌<◌, ◌++◌, ◌∷◌, [], IfOk, Some, false, if◌then◌else◌, length, map, slice_get, slice_set, true};
ghost use Rattle.pm_topology.specs.declared.places.Kind.TheVariants.{Slave};
ghost use Rattle.pm_topology.specs.Units.{units_of};
ghost use Rattle.pm_values.specs.declared.caches.UnitKind.TheVariants.{Entry};
ghost use Rattle.pm_values.specs.Caches.{HaveStayed, ListedStay, has_stayed, kind_of_unit};
ghost use Rattle.pm_values.specs.Kinds.{AreApart, AreHomes, AreIndexed, AreListed, RestLess, is_slave_or_line, rests_at, with_home, woken_at, woken_in};

use crate::along::Along;
use crate::caches::UnitKind;
use crate::marks::Marks;
use crate::moves::{is_settled, kind_value};
use pm_base::{Mode, NoMemory, Unit, at_or, with};
use pm_procs::{Procs, same_mode};
use pm_topology::{Kind, Topology, UnitMap, kinds_are_exact, units_of, units_stand_in_order};
use std::alloc::Global;
use std::marker::Model;

/// A unit that is no slave and no reset line: its place, and its kind.
#[derive(Clone, Copy, Debug, PartialEq, Eq)]
pub struct Other {
    pub unit: usize,
    pub kind: UnitKind,
}

/// The kind of each unit by its place. Beside these stand the place of the unit of each slave, the units that are no slave
/// and no reset line, and those that don't rest in this step.
#[derive(Drop)]
pub struct Kinds {
    kinds: Vec<UnitKind>,
    homes: Vec<usize>,
    others: Vec<Other>,
    awake: Marks,
}

impl Model for Kinds {
    ghost use Rattle.pm_values.specs.Kinds.{AreIndexed, UnitKinds};

    ghost Value = { UnitKinds };

    ghost view = { λ kinds. record { items = kinds.kinds.items; awake = kinds.awake } };

    ghost invariant = { λ kinds. AreIndexed kinds.kinds.items kinds.homes.items kinds.others.items kinds.awake };
}

impl Kinds {
    /// The kinds of the units of a chip.
    pub(crate) fn load(alloc: Global, t: &Topology) -> Result<Kinds, NoMemory>
        ensures { IfOk result (λ kinds. kinds.items ≡ map (kind_of_unit t.now) (units_of t.now)) }
    {
        units_stand_in_order();
        kinds_are_exact();
        let kinds = unit_kinds(alloc, t)?;
        let beside = beside_of(alloc, t.slaves.len(), &kinds);
        let (kinds, (homes, (others, awake))) = with(kinds, beside)?;
        Ok(Kinds {
            kinds,
            homes,
            others,
            awake,
        })
    }

    /// The kind of each unit.
    pub(crate) fn as_slice(&self) -> &[UnitKind]
        ensures { result.now ≡ self.now.items }
    {
        &self.kinds
    }

    /// Which units don't rest.
    pub(crate) fn awake(&self) -> &Marks
        ensures awake { result.now ≡ self.now.awake }
        ensures places { length result.now ≡ length self.now.items }
    {
        &self.awake
    }

    /// All units rest. That they do is no promise: what a caller is promised is which units rest no more once they were
    /// woken.
    pub(crate) fn rest(&mut self)
        ensures { self.new.items ≡ self.old.items }
    {
        self.awake.rest_all();
    }

    /// Of the units that are no slave and no reset line, those don't rest from now on to which something happened by the
    /// processors and the power nodes that are up, and those that start.
    pub(crate) fn wake_changed(
        &mut self,
        along: &Along,
        procs: &Procs,
        ups: &[bool],
        values: &UnitMap<u32>,
    )
        ensures items { self.new.items ≡ self.old.items }
        ensures stay { HaveStayed along.now.downs procs.now.procs ups.now self.new.awake self.new.items values.now }
        ensures less { RestLess self.old.awake self.new.awake }
    {
        wake_changed(&self.others, along, procs, ups, values, &mut self.awake);
    }

    /// No unit rests.
    pub(crate) fn wake_all(&mut self)
        ensures items { self.new.items ≡ self.old.items }
        ensures awake { (k : ℕ) → rests_at self.new.awake k ≡ false }
    {
        self.awake.wake_all();
    }

    /// The unit at this place, if there is one, doesn't rest from now on.
    pub(crate) fn wake_in(&mut self, place: Option<usize>)
        ensures items { self.new.items ≡ self.old.items }
        ensures awake { self.new.awake ≡ woken_in place self.old.awake }
    {
        if let Some(k) = place {
            self.awake.wake(k);
        }
    }

    /// The unit of the slave at a place doesn't rest from now on.
    pub(crate) fn wake(&mut self, s: usize)
        ensures items { self.new.items ≡ self.old.items }
        ensures woken { (k : ℕ) → slice_get self.old.items k ≡ Some (Entry (Slave s))
            → rests_at self.new.awake k ≡ false }
        ensures others { (k : ℕ) → rests_at self.new.awake k ≡ true → rests_at self.old.awake k ≡ true }
    {
        let home = at_or(&self.homes, s, 0);
        self.awake.wake(home);
    }
}

/// The kinds of the units of a chip.
fn unit_kinds(alloc: Global, t: &Topology) -> Result<Vec<UnitKind>, NoMemory>
    ensures { IfOk result (λ kinds. kinds.items ≡ map (kind_of_unit t.now) (units_of t.now)) }
{
    let units = units_of(alloc, t)?;
    kinds_of(alloc, t, units.as_slice())
}

/// What stands beside the kinds: the places of the units of so many slaves, the units that are no slave and no reset line,
/// and room for those that don't rest in a step.
fn beside_of(
    alloc: Global,
    slaves: usize,
    kinds: &[UnitKind],
) -> Result<(Vec<usize>, (Vec<Other>, Marks)), NoMemory>
    requires { AreApart slaves kinds.now }
    ensures { IfOk result (λ beside. AreIndexed kinds.now beside.0.items beside.1.0.items beside.1.1) }
{
    let homes = homes_of(alloc, slaves, kinds)?;
    let others = others_and_marks(alloc, kinds);
    with(homes, others)
}

/// The units that are no slave and no reset line, and room for those that don't rest in a step.
fn others_and_marks(alloc: Global, kinds: &[UnitKind]) -> Result<(Vec<Other>, Marks), NoMemory>
    ensures listed { IfOk result (λ both. AreListed kinds.now (length kinds.now) both.0.items) }
    ensures places { IfOk result (λ both. length both.1 ≡ length kinds.now) }
{
    let others = others_of(alloc, kinds)?;
    let awake = Marks::load(alloc, kinds.len());
    with(others, awake)
}

/// What each unit is, in their order.
fn kinds_of(alloc: Global, t: &Topology, units: &[Unit]) -> Result<Vec<UnitKind>, NoMemory>
    ensures { IfOk result (λ kinds. kinds.items ≡ map (kind_of_unit t.now) units.now) }
{
    let mut kinds = Vec::new(alloc);
    for unit in units {
        kinds.push(kind_of_unit(t, *unit)).map_err(|_| NoMemory)?;
    }
    Ok(kinds)
}

/// What a unit is: a node of its kind, or a reset line, with its place.
fn kind_of_unit(t: &Topology, unit: Unit) -> UnitKind
    ensures { result ≡ kind_of_unit t.now unit }
{
    match unit {
        Unit::Node(node) => UnitKind::Entry(t.kind(node)),
        Unit::Line(line) => UnitKind::Reset(t.line_place(line)),
    }
}

/// Whether a unit of this kind is a slave or a reset line.
fn is_slave_or_line(kind: UnitKind) -> bool
    ensures { result ≡ is_slave_or_line kind }
{
    match kind {
        UnitKind::Entry(Kind::Slave(_)) | UnitKind::Reset(_) => true,
        UnitKind::Entry(Kind::Proc(_) | Kind::Power(_) | Kind::Unknown) => false,
    }
}

/// The place of the unit of each slave.
fn homes_of(alloc: Global, slaves: usize, kinds: &[UnitKind]) -> Result<Vec<usize>, NoMemory>
    requires { AreApart slaves kinds.now }
    ensures { IfOk result (λ homes. AreHomes kinds.now (length kinds.now) homes.items) }
{
    let mut homes = Vec::from_elem(alloc, 0, slaves).map_err(|_| NoMemory)?;
    set_homes(kinds, &mut homes);
    Ok(homes)
}

/// Writes the place of the unit of each slave.
fn set_homes(kinds: &[UnitKind], homes: &mut [usize])
    requires { AreApart (length homes.old) kinds.now }
    ensures places { length homes.new ≡ length homes.old }
    ensures homes { AreHomes kinds.now (length kinds.now) homes.new }
{
    for (k, kind) in kinds.iter().enumerate() {
        set_home(*kind, k, homes);
    }
}

/// The unit of this kind stands at place `k`.
fn set_home(kind: UnitKind, k: usize, homes: &mut [usize])
    ensures { homes.new ≡ with_home kind k homes.old }
{
    if let UnitKind::Entry(Kind::Slave(s)) = kind {
        put_home(s, k, homes);
    }
}

/// The unit of the slave at place `s` stands at place `k`.
fn put_home(s: usize, k: usize, homes: &mut [usize])
    ensures { homes.new ≡ slice_set homes.old s k }
{
    if s < homes.len() {
        homes[s] = k;
    }
}

/// The units that are no slave and no reset line.
fn others_of(alloc: Global, kinds: &[UnitKind]) -> Result<Vec<Other>, NoMemory>
    ensures { IfOk result (λ others. AreListed kinds.now (length kinds.now) others.items) }
{
    let mut others = Vec::new(alloc);
    for (k, kind) in kinds.iter().enumerate() {
        list_unless(is_slave_or_line(*kind), k, *kind, &mut others)?;
    }
    Ok(others)
}

/// Puts the unit at a place, of this kind, behind the others, unless it is left out.
fn list_unless(
    left_out: bool,
    k: usize,
    kind: UnitKind,
    others: &mut Vec<Other>,
) -> Result<(), NoMemory>
    ensures { IfOk result (λ _. others.new.items
        ≡ (if left_out then others.old.items else others.old.items ++ record { unit = k; kind = kind } ∷ [])) }
{
    if left_out {
        return Ok(());
    }
    others.push(Other { unit: k, kind }).map_err(|_| NoMemory)
}

/// Of these units, those don't rest from now on to which something happened.
fn wake_changed(
    others: &[Other],
    along: &Along,
    procs: &Procs,
    ups: &[bool],
    values: &UnitMap<u32>,
    awake: &mut Marks,
)
    ensures places { length awake.new ≡ length awake.old }
    ensures stay { ListedStay along.now.downs procs.now.procs ups.now awake.new others.now (length others.now)
        values.now }
    ensures less { RestLess awake.old awake.new }
{
    for i in 0..others.len() {
        let other = other_at(others, i);
        let stays = has_stayed(other.kind, along, procs, ups, values.entry(other.unit));
        wake_unless(stays, other.unit, awake);
    }
}

/// The entry at a place.
fn other_at(others: &[Other], i: usize) -> Other
    requires { i < length others.now }
    ensures { slice_get others.now i ≡ Some result }
{
    others[i]
}

/// Whether nothing happened to a processor or a power node of this kind, by its entry, and it doesn't start. The state of a
/// slave isn't asked for.
fn has_stayed(
    kind: UnitKind,
    along: &Along,
    procs: &Procs,
    ups: &[bool],
    entry: Option<(Unit, u32)>,
) -> bool
    ensures { result ≡ has_stayed along.now.downs procs.now.procs ups.now kind entry }
{
    match kind {
        UnitKind::Entry(Kind::Proc(p)) => {
            is_settled(entry, kind_value(Kind::Proc(p), &[], procs, ups), false)
                && !(along.was_down(p) && same_mode(procs.mode(p), Mode::Active))
        }
        UnitKind::Entry(Kind::Power(w)) => {
            is_settled(entry, kind_value(Kind::Power(w), &[], procs, ups), false)
        }
        UnitKind::Entry(Kind::Slave(_) | Kind::Unknown) => false,
        UnitKind::Reset(_) => false,
    }
}

/// The unit at a place doesn't rest from now on, unless it stayed as it was.
fn wake_unless(stays: bool, k: usize, awake: &mut Marks)
    ensures { awake.new ≡ (if stays then awake.old else woken_at k awake.old) }
{
    if !stays {
        awake.wake(k);
    }
}
