//! The rows in cells, with what is counted of them.

ghost use Rattle.std.specs.Prelude.{◌≡◌, ◌+◌, ◌≤◌, ◌<◌, ◌^◌, ◌&&◌, IsTrue, fold, map, length, slice_get, slice_set, slice_index, Some, None};
ghost use Rattle.std.specs.List.{list_all};
ghost use Rattle.std.specs.Option.{option_map};
ghost use Rattle.pm_rows.specs.Cost.{limit_cost, put_cost};
ghost use Rattle.pm_rows.specs.Counted.{AreReady, AreTallied, counted, counted_in, is_narrow, is_placed, limit_of, moved, permitted_on, wanted_in};
ghost use Rattle.pm_rows.specs.Links.{IsNextOf};
ghost use Rattle.pm_rows.specs.Spans.{IsSpan};
ghost use Rattle.pm_rows.specs.Wanted.{nothing_wanted, with_row};

use crate::counting::{flag, follow, follow_needs, follow_wants};
use crate::links::{Links, link_at};
use crate::row::{Entry, Pair, Row};
use crate::spans::Spans;
use crate::wanted::{Wanted, least, with_row};
use pm_base::{BoundedList, Caps, Mode, Steps, at_or};
use pm_cells::{Cells, Counts};
use std::marker::Model;
use std::sync::ledger::Ledger;

/// The rows in cells, the pair of each, and for each slave how many rows want each capability, how many are
/// used, and the least latency. Beside the pairs stands between which places those of each slave are, where those of each master
/// are, and whether no pair and no row had a capability past the three that are counted.
#[derive(Drop)]
pub(crate) struct Table {
    pub(crate) seeds: BoundedList<Pair>,
    pub(crate) room: usize,
    pub(crate) spans: Spans,
    pub(crate) links: Links,
    pub(crate) narrow: bool,
    pub(crate) cells: Cells<Row>,
    pub(crate) access: Counts,
    pub(crate) context: Counts,
    pub(crate) wakeup: Counts,
    pub(crate) users: Counts,
    pub(crate) limits: Cells<Option<u32>>,
}

impl Model for Table {
    ghost use Rattle.std.specs.Prelude.{◌≡◌, length};
    ghost use Rattle.pm_rows.specs.Counted.{Table, entries_of};
    ghost use Rattle.pm_rows.specs.Kept.{IsKept};
    ghost use Rattle.pm_rows.specs.Links.{IsLinked};

    ghost Value = { Table };

    ghost view = { λ table. record {
      entries = entries_of table.seeds.items table.cells;
      tally = record {
        access = table.access;
        context = table.context;
        wakeup = table.wakeup;
        users = table.users;
        limits = table.limits;
      };
      slaves = length table.spans.first.items;
      room = table.room;
    } };

    ghost invariant = { λ table.
        IsKept table.seeds table.cells (length table.users) table.narrow table.spans.first.items
        table.spans.past.items × (table.room ≡ length table.cells)
        × IsLinked 0 table.seeds.items table.links.first.items table.links.next.items };
}

/// The pair at a place.
fn pair_at(pairs: &[Pair], k: usize) -> Pair
    requires { k < length pairs.now }
    ensures { slice_get pairs.now k ≡ Some result }
{
    pairs[k]
}

/// Whether a set has no capability past the three that are counted.
fn is_narrow(caps: Caps) -> bool
    ensures { result ≡ is_narrow caps }
{
    caps.0 < 8
}

/// Whether all sets are so that were so before and now this one.
fn stays_narrow(narrow: bool, caps: Caps) -> bool
    ensures { result ≡ (narrow && is_narrow caps) }
{
    narrow && is_narrow(caps)
}

impl Table {
    /// Doesn't compile once a field is missing from its pattern. So whoever adds a field has to name it here, and to
    /// see that it is no second copy of the rows: what a row is now is in the cells and the counts alone.
    pub(crate) fn name_fields(&self) {
        let Table {
            seeds: _,
            room: _,
            spans: _,
            links: _,
            narrow: _,
            cells: _,
            access: _,
            context: _,
            wakeup: _,
            users: _,
            limits: _,
        } = self;
    }

    /// The number of rows.
    pub(crate) fn len(&self) -> usize
        ensures len { result ≡ length self.now.entries }
        ensures few { length self.now.entries < 2 ^ 31 }
    {
        self.seeds.as_slice().len()
    }

    /// The pair of the row at a place.
    pub(crate) fn seed(&self, k: usize) -> Pair
        requires { k < length self.now.entries }
        ensures { option_map (λ (e : Entry). e.seed) (slice_get self.now.entries k) ≡ Some result }
    {
        pair_at(self.seeds.as_slice(), k)
    }

    /// The row at a place with its pair. It is read once.
    pub(crate) fn entry<L: Ledger>(&self, k: usize, steps: &mut Steps<L>) -> Entry
        requires { k < length self.now.entries }
        ensures entry { slice_get self.now.entries k ≡ Some result }
        ensures placed { result.seed.slave < length self.now.tally.users }
        ensures few { length self.now.entries < 2 ^ 31 }
        ensures steps { steps.new ≡ steps.old + 1 }
    {
        Entry {
            seed: pair_at(self.seeds.as_slice(), k),
            row: self.cells.read(k, steps),
        }
    }

    /// The row at a place with its pair, where nothing bounds how many are read.
    pub(crate) fn peek(&self, k: usize) -> Entry
        requires { k < length self.now.entries }
        ensures { slice_get self.now.entries k ≡ Some result }
    {
        Entry {
            seed: pair_at(self.seeds.as_slice(), k),
            row: self.cells.value(k),
        }
    }

    /// Between which places all rows on a slave stand.
    pub(crate) fn span(&self, slave: usize) -> (usize, usize)
        ensures { IsSpan slave result.0 result.1 self.now.entries }
    {
        let past = at_or(&self.spans.past, slave, 0);
        (at_or(&self.spans.first, slave, 0).min(past), past)
    }

    /// A place from this one on before which no row of a master stands: that of its next row, or the number of rows, unless
    /// the row before this place is another's.
    pub(crate) fn next_of(&self, master: usize, from: usize) -> usize
        ensures { IsNextOf master from result self.now.entries }
    {
        if from == 0 {
            link_at(master, &self.links.first)
        } else if from <= self.len() && self.seed(from - 1).master == master {
            link_at(from - 1, &self.links.next).max(from)
        } else {
            from
        }
    }

    /// The least latency of the used rows on a slave. Each row on it is read once.
    #[inline(never)]
    fn limit_on<L: Ledger>(&self, slave: usize, steps: &mut Steps<L>) -> Option<u32>
        ensures limit { result ≡ limit_of slave self.now.entries }
        ensures steps { steps.new ≡ steps.old + permitted_on slave self.now.entries }
    {
        let (first, past) = self.span(slave);
        let mut limit = None;
        for k in first..past {
            if self.seed(k).slave == slave {
                limit = least(limit, self.entry(k, steps).limit_by());
            }
        }
        limit
    }

    /// The least latency of the used rows on a slave after a row on it was put, by what that row allowed before
    /// and allows now: the one that is kept where these are the same.
    fn limit_after<L: Ledger>(
        &self,
        slave: usize,
        before: Option<u32>,
        after: Option<u32>,
        steps: &mut Steps<L>,
    ) -> Option<u32>
        requires place { slave < length self.now.tally.limits }
        requires kept { before ≡ after → slice_get self.now.tally.limits slave
            ≡ Some (limit_of slave self.now.entries) }
        ensures limit { result ≡ limit_of slave self.now.entries }
        ensures steps { steps.new ≡ steps.old + limit_cost before after (permitted_on slave self.now.entries) }
    {
        if before == after {
            self.limits.value(slave)
        } else {
            self.limit_on(slave, steps)
        }
    }

    /// Puts a row in the place of one that was read, and counts it in the mode that its master has from now
    /// on in place of the one before.
    #[inline(always)]
    pub(crate) fn put<L: Ledger>(
        &mut self,
        k: usize,
        entry: Entry,
        from: Mode,
        row: Row,
        to: Mode,
        steps: &mut Steps<L>,
    )
        requires here { slice_get self.old.entries k ≡ Some entry }
        requires ready { AreReady (counted_in from entry) self.old.tally }
        requires limit { slice_get self.old.tally.limits entry.seed.slave
            ≡ Some (limit_of entry.seed.slave self.old.entries) }
        ensures entries { self.new.entries ≡ slice_set self.old.entries k (record entry { row = row }) }
        ensures tally { self.new.tally
            ≡ moved (counted_in from entry) (counted_in to (record entry { row = row }))
            self.new.entries self.old.tally }
        ensures slaves { self.new.slaves ≡ self.old.slaves }
        ensures room { self.new.room ≡ self.old.room }
        ensures steps { steps.new ≡ steps.old
            + put_cost (counted_in from entry) (counted_in to (record entry { row = row }))
            (permitted_on entry.seed.slave self.old.entries) }
    {
        let slave = entry.seed.slave;
        let put = Entry { row, ..entry };
        self.cells.write(k, row);
        self.narrow = stays_narrow(self.narrow, row.now);
        follow_wants(
            &mut self.access,
            &mut self.context,
            &mut self.wakeup,
            slave,
            entry.required_by(from),
            put.required_by(to),
            steps,
        );
        follow(&mut self.users, slave, entry.row.used, row.used, steps);
        let limit = self.limit_after(slave, entry.limit_by(), put.limit_by(), steps);
        self.limits.write(slave, limit);
    }

    /// Puts a row that is used and limited as the one before: only what it wants is counted.
    #[inline(always)]
    pub(crate) fn put_alike<L: Ledger>(
        &mut self,
        k: usize,
        entry: Entry,
        from: Mode,
        row: Row,
        to: Mode,
        steps: &mut Steps<L>,
    )
        requires used { row.used ≡ entry.row.used }
        requires latency { row.latency ≡ entry.row.latency }
        requires here { slice_get self.old.entries k ≡ Some entry }
        requires ready { AreReady (counted_in from entry) self.old.tally }
        requires limit { slice_get self.old.tally.limits entry.seed.slave
            ≡ Some (limit_of entry.seed.slave self.old.entries) }
        ensures entries { self.new.entries ≡ slice_set self.old.entries k (record entry { row = row }) }
        ensures tally { self.new.tally
            ≡ moved (counted_in from entry) (counted_in to (record entry { row = row }))
            self.new.entries self.old.tally }
        ensures slaves { self.new.slaves ≡ self.old.slaves }
        ensures room { self.new.room ≡ self.old.room }
        ensures steps { steps.new ≡ steps.old
            + put_cost (counted_in from entry) (counted_in to (record entry { row = row }))
            (permitted_on entry.seed.slave self.old.entries) }
    {
        let put = Entry { row, ..entry };
        self.cells.write(k, row);
        self.narrow = stays_narrow(self.narrow, row.now);
        follow_needs(
            &mut self.access,
            &mut self.context,
            &mut self.wakeup,
            entry,
            from,
            put,
            to,
            steps,
        );
    }

    /// How many masters use a slave.
    pub(crate) fn users(&self, slave: usize) -> u32
        ensures users { result ≡ slice_index self.now.tally.users slave }
        ensures placed { IsTrue (list_all (is_placed (length self.now.tally.users)) self.now.entries) }
        ensures few { length self.now.entries < 2 ^ 31 }
    {
        if slave < self.users.len() {
            self.users.value(slave)
        } else {
            0
        }
    }

    /// What is wanted of a slave by the counts, which don't know capabilities past the third.
    fn counted(&self, slave: usize) -> Wanted
        requires access { length self.now.tally.access ≡ length self.now.tally.users }
        requires context { length self.now.tally.context ≡ length self.now.tally.users }
        requires wakeup { length self.now.tally.wakeup ≡ length self.now.tally.users }
        requires limits { length self.now.tally.limits ≡ length self.now.tally.users }
        ensures { result ≡ wanted_in slave self.now.tally }
    {
        if slave < self.users.len() {
            Wanted {
                caps: Caps(
                    flag(self.access.value(slave), 1)
                        + (flag(self.context.value(slave), 2) + flag(self.wakeup.value(slave), 4)),
                ),
                limit: self.limits.value(slave),
            }
        } else {
            Wanted {
                caps: Caps(0),
                limit: None,
            }
        }
    }

    /// What is wanted of a slave by its rows, each of which is read.
    #[inline(never)]
    fn collected(&self, slave: usize, known: &[Mode]) -> Wanted
        ensures { result ≡ fold (with_row slave known.now) nothing_wanted self.now.entries }
    {
        let (first, past) = self.span(slave);
        let mut wanted = Wanted {
            caps: Caps(0),
            limit: None,
        };
        for k in first..past {
            wanted = with_row(slave, known, wanted, &self.peek(k));
        }
        wanted
    }

    /// What is wanted of a slave in these modes of the masters: by the counts, unless a pair or a row had a
    /// capability that they don't know.
    pub(crate) fn wanted(&self, slave: usize, known: &[Mode]) -> Wanted
        requires { AreTallied (map (counted known.now) self.now.entries) self.now.tally }
        ensures { result ≡ fold (with_row slave known.now) nothing_wanted self.now.entries }
    {
        if self.narrow {
            self.counted(slave)
        } else {
            self.collected(slave, known)
        }
    }
}
