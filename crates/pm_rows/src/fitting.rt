//! A table in which nothing is used: it is made, and fitted to other pairs.

ghost use Rattle.std.specs.Prelude.{◌≡◌, ◌≤◌, ◌<◌, ◌^◌, [], IsTrue, map, length, replicate, IfOk, Ok};
ghost use Rattle.std.specs.List.{list_all};
ghost use Rattle.pm_rows.specs.Counted.{blank_entry, blank_row, is_narrow_pair, is_placed_seed, no_tally};
ghost use Rattle.pm_rows.specs.Rows.{pair_of};

use crate::links::Links;
use crate::row::{Pair, Row, RowSeed};
use crate::spans::Spans;
use crate::table::Table;
use pm_base::{BoundedList, Caps, NoMemory};
use pm_cells::{Cells, Counts};
use std::alloc::Global;

impl Table {
    /// No rows of so many masters, with room for so many.
    pub(crate) fn blank(
        alloc: Global,
        masters: usize,
        slaves: usize,
        room: usize,
    ) -> Result<Table, NoMemory>
        requires few { room < 2 ^ 31 }
        ensures { IfOk result (λ table. table
            ≡ record { entries = []; tally = no_tally slaves; slaves = slaves; room = room }) }
    {
        let links = Links::unlinked(alloc, masters, room)?;
        let rows = both(
            both(
                BoundedList::with_room(alloc, room),
                Spans::load(alloc, slaves),
            ),
            both(
                Cells::load(alloc, room, blank_row()),
                Cells::load(alloc, slaves, None),
            ),
        );
        let counts = both(
            both(Counts::load(alloc, slaves), Counts::load(alloc, slaves)),
            both(Counts::load(alloc, slaves), Counts::load(alloc, slaves)),
        );
        let (rows, counts) = both(rows, counts)?;
        let ((seeds, spans), (cells, limits)) = rows;
        let ((access, context), (wakeup, users)) = counts;
        Ok(Table {
            seeds,
            room,
            spans,
            links,
            narrow: true,
            cells,
            access,
            context,
            wakeup,
            users,
            limits,
        })
    }

    /// A row for the pair of each of these seeds, none of which is used, in place of those that are there. What is
    /// counted stays.
    pub(crate) fn refit(&mut self, seeds: &[RowSeed])
        requires room { length seeds.now ≤ self.old.room }
        requires placed { IsTrue (list_all (is_placed_seed self.old.slaves) seeds.now) }
        ensures { self.new ≡ record self.old { entries = map blank_entry (map pair_of seeds.now) } }
    {
        put_pairs(&mut self.seeds, seeds);
        blank_all(&mut self.cells, self.room);
        self.spans.index(self.seeds.as_slice());
        self.links.link(self.seeds.as_slice());
        self.narrow = are_narrow(self.seeds.as_slice());
    }
}

/// Leaves the pairs of these seeds in a list.
fn put_pairs(pairs: &mut BoundedList<Pair>, seeds: &[RowSeed])
    requires { length seeds.now ≤ pairs.old.room }
    ensures { pairs.new ≡ record pairs.old { items = map pair_of seeds.now } }
{
    pairs.clear();
    for seed in seeds {
        pairs.push(seed.pair());
    }
}

/// Leaves in each cell a row that isn't used.
fn blank_all(cells: &mut Cells<Row>, count: usize)
    requires { count ≡ length cells.old }
    ensures { cells.new ≡ replicate count blank_row }
{
    for k in 0..count {
        cells.write(k, blank_row());
    }
}

/// Whether no pair has such a capability.
fn are_narrow(pairs: &[Pair]) -> bool
    ensures { result ≡ list_all is_narrow_pair pairs.now }
{
    pairs.iter().all(|pair| pair.all.0 < 8)
}

/// A row that is not used.
fn blank_row() -> Row
    ensures { result ≡ blank_row }
{
    Row {
        used: false,
        now: Caps(0),
        next: Caps(0),
        preset: Caps(0),
        hold: false,
        armed: None,
        latency: None,
    }
}

/// Two values, of which each may be missing, if neither is.
fn both<T: Drop, U: Drop>(
    first: Result<T, NoMemory>,
    second: Result<U, NoMemory>,
) -> Result<(T, U), NoMemory>
    ensures { IfOk result (λ pair. (first ≡ Ok pair.0) × (second ≡ Ok pair.1)) }
{
    match (first, second) {
        (Ok(first), Ok(second)) => Ok((first, second)),
        (Err(error), _) | (_, Err(error)) => Err(error),
    }
}
