//! The first row of a slave that is looked for.

ghost use Rattle.std.specs.Prelude.{◌≡◌, ◌||◌, find};
ghost use Rattle.std.specs.List.{list_any};
ghost use Rattle.pm_rows.specs.declared.seeking.Sought.TheVariants.{OtherUse, Use};
ghost use Rattle.pm_rows.specs.Seeking.{is_sought, slave_of};

use crate::row::Entry;
use crate::table::Table;

/// Which row is looked for: that of a master on a slave, one by which another master uses the slave, which
/// can't be shared, one by which this master uses the slave, or one by which any other does.
#[derive(Clone, Copy, Debug, PartialEq, Eq)]
pub(crate) enum Sought {
    At(usize, usize),
    Rival(usize, usize),
    Use(usize, usize),
    OtherUse(usize, usize),
}

impl Sought {
    /// The place of the slave whose rows are searched.
    fn slave(self) -> usize
        ensures { result ≡ slave_of self }
    {
        match self {
            Sought::At(_, slave)
            | Sought::Rival(_, slave)
            | Sought::Use(_, slave)
            | Sought::OtherUse(_, slave) => slave,
        }
    }

    /// Whether this is a row that is sought.
    fn is(self, entry: &Entry) -> bool
        ensures { result ≡ is_sought self entry.now }
    {
        match self {
            Sought::At(master, slave) => entry.is_at(master, slave),
            Sought::Rival(master, slave) => entry.is_rival(master, slave),
            Sought::Use(master, slave) => entry.is_at(master, slave) && entry.row.used,
            Sought::OtherUse(master, slave) => entry.is_of_other(master, slave) && entry.row.used,
        }
    }
}

/// The first row that is looked for.
#[inline(always)]
pub(crate) fn found(table: &Table, sought: Sought) -> Option<Entry>
    ensures { result ≡ find (is_sought sought) table.now.entries }
{
    let (first, past) = table.span(sought.slave());
    for k in first..past {
        let entry = table.peek(k);
        if sought.is(&entry) {
            return Some(entry);
        }
    }
    None
}

/// Whether one is there.
#[inline(always)]
pub(crate) fn is_found(table: &Table, sought: Sought) -> bool
    ensures { result ≡ list_any (is_sought sought) table.now.entries }
{
    found(table, sought).is_some()
}

/// Whether one of two holds, both of which are known: the loop that asks has no branch then.
fn either(a: bool, b: bool) -> bool
    ensures { result ≡ (a || b) }
{
    a || b
}

/// Whether this master uses a slave, and whether any other does.
pub(crate) fn users(table: &Table, master: usize, slave: usize) -> (bool, bool)
    ensures own { result.0 ≡ list_any (is_sought (Use master slave)) table.now.entries }
    ensures other { result.1 ≡ list_any (is_sought (OtherUse master slave)) table.now.entries }
{
    let (first, past) = table.span(slave);
    let mut own = false;
    let mut other = false;
    for k in first..past {
        let entry = table.peek(k);
        own = either(own, Sought::Use(master, slave).is(&entry));
        other = either(other, Sought::OtherUse(master, slave).is(&entry));
    }
    (own, other)
}
