//! The rows of each master, one behind another.

ghost use Rattle.std.specs.Prelude.{◌≡◌, ◌<◌, ◌+◌, IfOk, Some, length, replicate, slice_get, slice_set};
ghost use Rattle.pm_rows.specs.Links.{IsLinked, link_at};

use crate::row::Pair;
use crate::spans::{places, seed_at, set_place};
use pm_base::{NoMemory, at_or};
use std::alloc::Global;

/// For each master the place of its first row, and for each row the place of the next one of its master, or the
/// number of rows if there is none: a walk over the rows of a master visits no other. They are those of the pairs, and
/// no change of a row moves them.
#[derive(Debug, Drop)]
pub(crate) struct Links {
    pub(crate) first: Vec<usize>,
    pub(crate) next: Vec<usize>,
}

/// The place that is kept at a place, and 0 if none is.
pub(crate) fn link_at(k: usize, links: &[usize]) -> usize
    ensures { result ≡ link_at k links.now }
{
    at_or(links, k, 0)
}

impl Links {
    /// No rows of so many masters, with room for so many rows.
    pub(crate) fn unlinked(alloc: Global, masters: usize, room: usize) -> Result<Links, NoMemory>
        ensures first { IfOk result (λ links. links.first.items ≡ replicate masters 0) }
        ensures next { IfOk result (λ links. links.next.items ≡ replicate room 0) }
    {
        let first = places(alloc, masters, 0)?;
        let next = places(alloc, room, 0)?;
        Ok(Links { first, next })
    }

    /// The places of the rows of these pairs.
    pub(crate) fn link(&mut self, pairs: &[Pair])
        ensures { IsLinked 0 pairs.now self.new.first.items self.new.next.items }
    {
        link_all(&mut self.first, &mut self.next, pairs);
    }
}

/// For each master the place of its first pair, and for each pair the place of the next one of its master, from the last
/// pair to the first.
fn link_all(first: &mut [usize], next: &mut [usize], pairs: &[Pair])
    ensures linked { IsLinked 0 pairs.now first.new next.new }
    ensures masters { length first.new ≡ length first.old }
    ensures rows { length next.new ≡ length next.old }
{
    first.fill(pairs.len());
    for done in 0..pairs.len() {
        link_one(pairs.len() - 1 - done, first, next, pairs);
    }
}

/// Puts the pair at a place in front of those behind it.
fn link_one(k: usize, first: &mut [usize], next: &mut [usize], pairs: &[Pair])
    requires within { k < length pairs.now }
    requires linked { IsLinked (k + 1) pairs.now first.old next.old }
    ensures linked { IsLinked k pairs.now first.new next.new }
    ensures masters { length first.new ≡ length first.old }
    ensures rows { length next.new ≡ length next.old }
{
    let master = seed_at(pairs, k).master;
    let behind = link_at(master, first);
    set_place(next, k, behind);
    set_place(first, master, k);
}
