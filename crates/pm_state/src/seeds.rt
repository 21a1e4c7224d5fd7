//! The rows at load, and rows that are made anew, as the permitted pairs say.

ghost use Rattle.std.specs.Prelude.{◌≡◌, ◌≤◌, length, map};
ghost use Rattle.pm_state.specs.Pairs as spec;

use crate::pairs::Permitted;
use pm_base::{BoundedList, Caps};
use pm_procs::is_awake;
use pm_rows::{Pair, RowSeed, Rows};

/// The row of a pair that begins so.
fn seed_with(pair: Pair, start: Option<Caps>, hold: bool) -> RowSeed
    ensures { result ≡ spec.seed_with pair start hold }
{
    RowSeed {
        master: pair.master,
        slave: pair.slave,
        shareable: pair.shareable,
        all: pair.all,
        preset: pair.preset,
        start,
        hold,
    }
}

/// At load the rows of the master at place `boot`, which is active then, are held, and used as the object has it.
fn seed_at_load(boot: usize, permitted: &Permitted) -> RowSeed
    ensures { result ≡ spec.seed_at_load boot permitted.now }
{
    let first = permitted.pair.master == boot;
    let start = if first { permitted.current } else { None };
    seed_with(permitted.pair, start, first)
}

/// Leaves the rows at load in a list.
pub(crate) fn put_at_load(seeds: &mut BoundedList<RowSeed>, boot: usize, pairs: &[Permitted])
    requires { length pairs.now ≤ seeds.old.room }
    ensures { seeds.new ≡ record seeds.old { items = map (spec.seed_at_load boot) pairs.now } }
{
    seeds.clear();
    for permitted in pairs {
        seeds.push(seed_at_load(boot, permitted));
    }
}

/// Whether a pair asks to be used in the modes that the rows know: the object has it in use, and its master is active
/// or suspending.
fn claims(rows: &Rows, permitted: &Permitted) -> bool
    ensures { result ≡ spec.claims rows.now.known permitted.now }
{
    permitted.current.is_some() && is_awake(rows.mode(permitted.pair.master))
}

/// Whether such a pair has this slave.
fn claims_on(rows: &Rows, slave: usize, permitted: &Permitted) -> bool
    ensures { result ≡ spec.claims_on rows.now.known slave permitted.now }
{
    permitted.pair.slave == slave && claims(rows, permitted)
}

/// The master that takes a slave: the first one, in the order of the object, that asks for it.
fn taker(rows: &Rows, slave: usize, pairs: &[Permitted]) -> Option<usize>
    ensures { result ≡ spec.taker rows.now.known slave pairs.now }
{
    for permitted in pairs {
        if claims_on(rows, slave, permitted) {
            return Some(permitted.pair.master);
        }
    }
    None
}

/// The capabilities with which a pair is used anew, if it is: it asks to be, and if the slave can't be shared, its
/// master takes the slave.
fn start_anew(rows: &Rows, pairs: &[Permitted], permitted: &Permitted) -> Option<Caps>
    ensures { result ≡ spec.start_anew rows.now.known pairs.now permitted.now }
{
    let pair = permitted.pair;
    if !claims(rows, permitted) {
        return None;
    }
    if pair.shareable || taker(rows, pair.slave, pairs) == Some(pair.master) {
        permitted.current
    } else {
        None
    }
}

/// The seed of a pair's row, once this object is in force in place of another.
fn seed_anew(rows: &Rows, pairs: &[Permitted], permitted: &Permitted) -> RowSeed
    ensures { result ≡ spec.seed_anew rows.now.known pairs.now permitted.now }
{
    seed_with(permitted.pair, start_anew(rows, pairs, permitted), false)
}

/// Leaves the rows of an object that is put in force in a list.
pub(crate) fn put_anew(seeds: &mut BoundedList<RowSeed>, rows: &Rows, pairs: &[Permitted])
    requires { length pairs.now ≤ seeds.old.room }
    ensures { seeds.new ≡ record seeds.old { items = spec.seeds_among rows.now.known pairs.now } }
{
    seeds.clear();
    for permitted in pairs {
        seeds.push(seed_anew(rows, pairs, permitted));
    }
}
