//! Between which places the rows of each slave stand.

ghost use Rattle.std.specs.Prelude.{◌≡◌, ◌<◌, IfOk, IsTrue, Some, length, replicate, slice_get, slice_set};
ghost use Rattle.std.specs.List.{list_all};
ghost use Rattle.pm_rows.specs.Counted.{is_placed_pair};
ghost use Rattle.pm_rows.specs.Spans.{IsIndexed};

use crate::row::Pair;
use pm_base::{NoMemory, at_or};
use std::alloc::Global;

/// For each slave the place of its first row, and the place past its last one: a walk over the rows of one
/// slave stays between them. They are those of the pairs, and no change of a row moves them.
#[derive(Debug, Drop)]
pub(crate) struct Spans {
    pub(crate) first: Vec<usize>,
    pub(crate) past: Vec<usize>,
}

/// The pair at a place.
pub(crate) fn seed_at(seeds: &[Pair], k: usize) -> Pair
    requires { k < length seeds.now }
    ensures { slice_get seeds.now k ≡ Some result }
{
    seeds[k]
}

/// Sets the place of a slave, if it is one of them.
pub(crate) fn set_place(places: &mut [usize], slave: usize, place: usize)
    ensures { places.new ≡ slice_set places.old slave place }
{
    if slave < places.len() {
        places[slave] = place;
    }
}

/// As many slaves, with this place for each.
pub(crate) fn places(alloc: Global, slaves: usize, place: usize) -> Result<Vec<usize>, NoMemory>
    ensures { IfOk result (λ places. places.items ≡ replicate slaves place) }
{
    vec![in alloc; place; slaves].map_err(|_| NoMemory)
}

impl Spans {
    /// No rows of so many slaves.
    pub(crate) fn load(alloc: Global, slaves: usize) -> Result<Spans, NoMemory>
        ensures first { IfOk result (λ spans. spans.first.items ≡ replicate slaves 0) }
        ensures past { IfOk result (λ spans. spans.past.items ≡ replicate slaves 0) }
    {
        let first = places(alloc, slaves, 0)?;
        let past = places(alloc, slaves, 0)?;
        Ok(Spans { first, past })
    }

    /// Between which of these pairs those of each slave stand.
    pub(crate) fn index(&mut self, pairs: &[Pair])
        requires placed { IsTrue (list_all (is_placed_pair (length self.old.first.items)) pairs.now) }
        requires same { length self.old.past.items ≡ length self.old.first.items }
        ensures index { IsIndexed (length pairs.now) pairs.now self.new.first.items self.new.past.items }
        ensures each { length self.new.first.items ≡ length self.old.first.items }
    {
        index_in(&mut self.first, &mut self.past, pairs);
    }
}

/// Between which of these pairs those of each slave stand: the place of the first one, and that past the last one.
fn index_in(first: &mut [usize], past: &mut [usize], pairs: &[Pair])
    requires placed { IsTrue (list_all (is_placed_pair (length first.old)) pairs.now) }
    requires same { length past.old ≡ length first.old }
    ensures index { IsIndexed (length pairs.now) pairs.now first.new past.new }
    ensures each { length first.new ≡ length first.old }
    ensures other { length past.new ≡ length past.old }
{
    first.fill(pairs.len());
    past.fill(0);
    for k in 0..pairs.len() {
        let slave = seed_at(pairs, k).slave;
        let low = at_or(first, slave, 0).min(k);
        set_place(first, slave, low);
        set_place(past, slave, k + 1);
    }
}
