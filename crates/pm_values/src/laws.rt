//! Laws of values.

ghost use Rattle.pm_base.specs.declared.names.Unit.{Unit};
ghost use Rattle.pm_topology.specs.WellFormed.{IsWellFormed};
ghost use Rattle.pm_state.specs.Fed.{IsFed};
ghost use Rattle.pm_state.specs.Sound.{IsSound, MeetsRequirements, StandsAsWanted};
ghost use Rattle.pm_state.specs.State.{State};
ghost use Rattle.pm_state.specs.Values.{value};

use pm_power::up_where_needed;
use pm_rows::rows_stay_sound;
use pm_slaves::first_state_meets;
use pm_topology::kinds_are_exact;

/// In each sound book over a chip that passes its check the values are those that the requirements ask
/// for, whichever number a slave is asked by, and a node that needs power in its value stands directly
/// below a power node that is up.
pub fn values_meet()
    ensures met { (book : State) → IsWellFormed book.fixed.topology → IsSound book
        → MeetsRequirements book (λ u. value u book) }
    ensures stands { (unit : Unit) (book : State) → IsWellFormed book.fixed.topology → IsSound book
        → StandsAsWanted unit (value unit book) book }
    ensures fed { (book : State) → IsWellFormed book.fixed.topology → IsFed book.fixed.topology (λ u. value u book) }
{
    rows_stay_sound();
    kinds_are_exact();
    first_state_meets();
    up_where_needed();
}

/// In the values of each book over a chip that passes its check a node that needs power in its value
/// stands directly below a power node that is up.
pub fn values_are_fed()
    ensures { (book : State) → IsWellFormed book.fixed.topology → IsFed book.fixed.topology (λ u. value u book) }
{
    values_meet();
}
