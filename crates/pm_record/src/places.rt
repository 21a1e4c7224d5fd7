//! A list of places in rising order.

ghost use Rattle.std.specs.Prelude.{◌≡◌, ℕ, ◌<◌, ◌≤◌, ◌==◌, ◌||◌, [], false, true, IfOk, MatchResult, length, slice_get, unwrap_or, Some};
ghost use Rattle.pm_base.specs.Places.{has_place};
ghost use Rattle.pm_record.specs.Places.{IsNext, RiseWithin, StandsBefore};

use pm_base::NoMemory;
use std::alloc::Global;
use std::marker::Model;

/// Up to so many places are looked through one after another.
const FEW: usize = 8;

/// Places below an end in rising order, each once, with room for all of them. Contracts see the list of them, and the
/// end as its room.
#[derive(Drop)]
pub(crate) struct Places {
    items: Vec<usize>,
    end: usize,
}

impl Model for Places {
    ghost use Rattle.std.specs.Prelude.{ℕ, ◌≤◌, vec_capacity};
    ghost use Rattle.pm_base.specs.BoundedList.{Bounded};
    ghost use Rattle.pm_record.specs.Places.{RiseWithin};

    ghost Value = { Bounded ℕ };

    ghost view = { λ places. record { items = places.items.items; room = places.end } };

    ghost invariant = { λ places. record {
      room : places.end ≤ vec_capacity places.items;
      rise : RiseWithin 0 places.end places.items.items;
    } };
}

impl Places {
    /// No places yet, with room for all below an end.
    pub(crate) fn load(alloc: Global, end: usize) -> Result<Places, NoMemory>
        ensures { IfOk result (λ places. places ≡ record { items = []; room = end }) }
    {
        let items = Vec::with_capacity(alloc, end).map_err(|_| NoMemory)?;
        Ok(Places { items, end })
    }

    /// The `i`-th place, counted from 0.
    fn get(&self, i: usize) -> Option<usize>
        ensures { result ≡ slice_get self.now.items i }
    {
        self.items.as_slice().get(i).copied()
    }

    /// The places in order.
    pub(crate) fn as_slice(&self) -> &[usize]
        ensures { result.now ≡ self.now.items }
    {
        self.items.as_slice()
    }

    /// The first place from this one on, and the end if there is none.
    pub(crate) fn next(&self, from: usize) -> usize
        requires { from ≤ self.now.room }
        ensures from { from ≤ result }
        ensures end { result ≤ self.now.room }
        ensures none { (k : ℕ) → from ≤ k → k < result → has_place self.now.items k ≡ false }
    {
        if self.items.len() <= FEW {
            return first_from(self.items.as_slice(), from, self.end);
        }
        self.search_from(from)
    }

    /// The first place from this one on, and the end if there is none, by a search in the order of the places.
    fn search_from(&self, from: usize) -> usize
        requires { from ≤ self.now.room }
        ensures from { from ≤ result }
        ensures end { result ≤ self.now.room }
        ensures none { (k : ℕ) → from ≤ k → k < result → has_place self.now.items k ≡ false }
    {
        match self.find(from) {
            Ok(_) => from,
            Err(i) => self.get(i).unwrap_or(self.end),
        }
    }

    /// The first place behind this one, and the end if there is none. It is known at once where this one is the
    /// `i`-th.
    #[inline(always)]
    pub(crate) fn next_behind(&self, i: usize, place: usize) -> usize
        requires { place < self.now.room }
        ensures from { place < result }
        ensures end { result ≤ self.now.room }
        ensures none { (k : ℕ) → place < k → k < result → has_place self.now.items k ≡ false }
    {
        // read here, so that its bound is known at both ends
        let _end = self.end;
        if self.has_at(i, place) {
            return self.at_or_end(i + 1);
        }
        self.next_from(place + 1)
    }

    /// Whether this place is the `i`-th.
    #[inline(always)]
    fn has_at(&self, i: usize, place: usize) -> bool
        ensures { result ≡ true → slice_get self.now.items i ≡ Some place }
    {
        match self.items.as_slice().get(i) {
            Some(found) => *found == place,
            None => false,
        }
    }

    /// The `i`-th place, and the end past the last one.
    #[inline(always)]
    fn at_or_end(&self, i: usize) -> usize
        ensures { result ≡ unwrap_or (slice_get self.now.items i) self.now.room }
    {
        match self.items.as_slice().get(i) {
            Some(place) => *place,
            None => self.end,
        }
    }

    /// The first place from this one on, and the end if there is none. It stands apart, since as a rule it isn't
    /// asked.
    #[inline(never)]
    fn next_from(&self, from: usize) -> usize
        requires { from ≤ self.now.room }
        ensures from { from ≤ result }
        ensures end { result ≤ self.now.room }
        ensures none { (k : ℕ) → from ≤ k → k < result → has_place self.now.items k ≡ false }
    {
        self.next(from)
    }

    /// Whether there is none.
    pub(crate) fn is_empty(&self) -> bool
        ensures { result ≡ true → self.now.items ≡ [] }
    {
        self.items.is_empty()
    }

    /// Takes all places out.
    pub(crate) fn clear(&mut self)
        ensures { self.new ≡ record self.old { items = [] } }
    {
        self.items.clear();
    }

    /// Puts a place in, if it isn't there yet.
    #[inline(always)]
    pub(crate) fn insert(&mut self, place: usize)
        requires within { place < self.old.room }
        ensures room { self.new.room ≡ self.old.room }
        ensures has { (k : ℕ) → has_place self.new.items k ≡ ((place == k) || has_place self.old.items k) }
    {
        if self.ends_before(place) {
            self.put_last(place);
        } else {
            self.put_among(place);
        }
    }

    /// Puts a place in among the others, if it isn't there yet.
    #[inline(never)]
    fn put_among(&mut self, place: usize)
        requires within { place < self.old.room }
        ensures room { self.new.room ≡ self.old.room }
        ensures has { (k : ℕ) → has_place self.new.items k ≡ ((place == k) || has_place self.old.items k) }
    {
        if let Err(i) = self.find(place) {
            self.put_in(i, place);
        }
    }

    /// Whether all places come before this one.
    #[inline(always)]
    fn ends_before(&self, place: usize) -> bool
        ensures { result ≡ true → StandsBefore self.now.items place (length self.now.items) }
    {
        let count = self.items.len();
        if count == 0 {
            return true;
        }
        let Some(last) = self.get(count - 1) else {
            return false;
        };
        last < place
    }

    /// Puts a place in behind the others, which all come before it.
    #[inline(always)]
    fn put_last(&mut self, place: usize)
        requires within { place < self.old.room }
        requires stands { StandsBefore self.old.items place (length self.old.items) }
        ensures room { self.new.room ≡ self.old.room }
        ensures has { (k : ℕ) → has_place self.new.items k ≡ ((place == k) || has_place self.old.items k) }
    {
        self.items.push(place).unwrap();
    }

    /// Puts a place in as the `i`-th, where it goes in.
    fn put_in(&mut self, i: usize, place: usize)
        requires within { place < self.old.room }
        requires stands { StandsBefore self.old.items place i }
        ensures room { self.new.room ≡ self.old.room }
        ensures has { (k : ℕ) → has_place self.new.items k ≡ ((place == k) || has_place self.old.items k) }
    {
        self.items.insert(i, place).unwrap();
    }

    /// Where a place is, or else where it would go in.
    fn find(&self, place: usize) -> Result<usize, usize>
        ensures { MatchResult result (λ i. slice_get self.now.items i ≡ Some place)
            (λ i. StandsBefore self.now.items place i) }
    {
        self.items.as_slice().binary_search(&place)
    }
}

/// The first of some places from this one on, and the end if there is none.
fn first_from(places: &[usize], from: usize, end: usize) -> usize
    requires fits { from ≤ end }
    requires rise { RiseWithin 0 end places.now }
    ensures { IsNext end places.now from result }
{
    for place in places {
        if *place >= from {
            return *place;
        }
    }
    end
}
