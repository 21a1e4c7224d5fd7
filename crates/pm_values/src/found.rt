//! What a step finds, by which the values of the units are written.

ghost use Rattle.std.specs.Prelude.{◌≡◌};
ghost use Rattle.pm_values.specs.Found.{found_in, freed_found, value_found};
ghost use Rattle.pm_state.specs.Values.{line_at};

use crate::along::Along;
use crate::caches::UnitKind;
use crate::moves::kind_value;
use crate::notifications::freed;
use pm_procs::Procs;
use pm_resets::Resets;
use pm_rows::Rows;
use pm_state::Tables;
use std::marker::Model;

/// The chosen state of each slave and the power nodes that are up, as they are now; whether some master used each slave
/// and which processors were down, as they are kept; and the processors, the reset lines and the rows of the book.
#[derive(Drop)]
pub(crate) struct Found<'a> {
    pub(crate) states: &'a [u32],
    pub(crate) ups: &'a [bool],
    pub(crate) used: &'a [bool],
    pub(crate) along: &'a Along,
    pub(crate) procs: &'a Procs,
    pub(crate) resets: &'a Resets,
    pub(crate) rows: &'a Rows,
}

impl<'a> Model for Found<'a> {
    ghost use Rattle.pm_values.specs.Found.{Found as Findings};

    ghost Value = { Findings };

    ghost view = { λ found. record {
      states = found.states.now;
      ups = found.ups.now;
      used = found.used.now;
      downs = found.along.now.downs;
      procs = found.procs.now.procs;
      lines = found.resets.now;
      rows = found.rows.now;
    } };
}

impl<'a> Found<'a> {
    /// What is found of the book in these tables, beside these states, power nodes and uses.
    #[inline]
    pub(crate) fn of(
        tables: &'a Tables,
        along: &'a Along,
        states: &'a [u32],
        ups: &'a [bool],
        used: &'a [bool],
    ) -> Found<'a>
        ensures { result ≡ found_in tables.now.now.core along.now.downs states.now ups.now used.now }
    {
        Found {
            states,
            ups,
            used,
            along,
            procs: tables.procs(),
            resets: tables.resets(),
            rows: tables.rows(),
        }
    }

    /// The value of a unit of this kind.
    pub(crate) fn value(&self, kind: UnitKind) -> u32
        ensures { result ≡ value_found self.now kind }
    {
        match kind {
            UnitKind::Entry(kind) => kind_value(kind, self.states, self.procs, self.ups),
            UnitKind::Reset(place) => line_at(place, self.resets),
        }
    }

    /// Whether a unit of this kind was used, and is used no more.
    pub(crate) fn is_freed(&self, kind: UnitKind) -> bool
        ensures { result ≡ freed_found self.now kind }
    {
        freed(kind, self.used, self.rows)
    }
}

/// The value of the reset line at a place; 0 if there is none.
fn line_at(place: Option<usize>, resets: &Resets) -> u32
    ensures { result ≡ line_at place resets.now }
{
    match place {
        Some(place) => resets.value(place),
        None => 0,
    }
}
