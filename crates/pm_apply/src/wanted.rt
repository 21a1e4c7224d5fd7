//! The values of a book, as a record asks for them.

ghost use Rattle.std.specs.Prelude.{◌≡◌};

use pm_base::Unit;
use pm_core::Book;
use pm_record::Wanted;

/// The values of a book, each looked up by its unit.
#[derive(Clone, Copy)]
pub(crate) struct UnitValues<'a> {
    pub book: &'a Book,
}

impl<'a> Wanted for UnitValues<'a> {
    ghost use Rattle.std.specs.Prelude.{◌≡◌, ⊤};
    ghost use Rattle.pm_state.specs.Values.{value as value_in};

    ghost value = { λ values u. value_in u values.book.now };

    ghost IsAt = { λ _ _ _. ⊤ };

    /// The book's value of a unit, found by the unit.
    fn value_at(&self, _place: usize, unit: Unit) -> u32
        ensures { result ≡ value_in unit self.now.book.now }
    {
        self.book.value(unit)
    }
}

/// The values of a book, each read at the place of its unit.
#[derive(Clone, Copy)]
pub(crate) struct PlaceValues<'a> {
    pub book: &'a Book,
}

impl<'a> Wanted for PlaceValues<'a> {
    ghost use Rattle.std.specs.Prelude.{◌≡◌, slice_get, Some};
    ghost use Rattle.pm_topology.specs.Units.{units_of};
    ghost use Rattle.pm_state.specs.Values.{value as value_in};

    ghost value = { λ values u. value_in u values.book.now };

    ghost IsAt = { λ values place unit. slice_get (units_of values.book.now.fixed.topology) place ≡ Some unit };

    /// The book's value of a unit, found by its place.
    #[inline(always)]
    fn value_at(&self, place: usize, _unit: Unit) -> u32
        requires { slice_get (units_of self.now.book.now.fixed.topology) place ≡ Some _unit }
        ensures { result ≡ value_in _unit self.now.book.now }
    {
        self.book.value_at(place)
    }
}
