//! Laws of the power nodes.

ghost use Rattle.pm_power.specs.Forest.{UpLaws};

/// A power node is up exactly if it is held or something directly below needs it.
pub fn up_where_needed()
    ensures { UpLaws }
{}
