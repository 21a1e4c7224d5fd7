//! Laws of the choice of a state.

ghost use Rattle.pm_slaves.specs.Choice.{ChoiceLaws};

/// What a search answers is the first state that meets the requirements, and if the last state is
/// full, as in a well-formed topology, one meets all requirements within the slave's capabilities.
pub fn first_state_meets()
    ensures { ChoiceLaws }
{}
