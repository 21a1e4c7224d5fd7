//! Each row is made what its seed says.

ghost use Rattle.std.specs.Prelude.{◌≡◌, ◌<◌, Some, length, map, slice_get};
ghost use Rattle.pm_rows.specs.Counted.{AreTallied, blank_entry, counted};
ghost use Rattle.pm_rows.specs.Rows.{loaded_entry, pair_of};

use crate::modes::mode_in;
use crate::row::{Entry, RowSeed};
use crate::table::Table;
use pm_base::{Mode, Steps};
use std::sync::ledger::Ledger;

/// The seed at a place.
fn seed_at(seeds: &[RowSeed], k: usize) -> RowSeed
    requires { k < length seeds.now }
    ensures { slice_get seeds.now k ≡ Some result }
{
    seeds[k]
}

/// Makes each row what its seed says, and counts it in the mode of its master. None of them is used before. A row
/// that is so already is left.
pub(crate) fn fill<L: Ledger>(
    table: &mut Table,
    known: &[Mode],
    seeds: &[RowSeed],
    steps: &mut Steps<L>,
)
    requires rows { table.old.entries ≡ map blank_entry (map pair_of seeds.now) }
    requires counted { AreTallied (map (counted known.now) table.old.entries) table.old.tally }
    ensures rows { table.new.entries ≡ map loaded_entry seeds.now }
    ensures counted { AreTallied (map (counted known.now) table.new.entries) table.new.tally }
    ensures slaves { table.new.slaves ≡ table.old.slaves }
    ensures room { table.new.room ≡ table.old.room }
{
    for k in 0..seeds.len() {
        let seed = seed_at(seeds, k);
        if !seed.is_blank() {
            let entry = table.entry(k, steps);
            let mode = mode_in(known, entry.seed.master);
            let loaded = Entry::loaded(seed);
            table.put(k, entry, mode, loaded.row, mode, steps);
        }
    }
}
