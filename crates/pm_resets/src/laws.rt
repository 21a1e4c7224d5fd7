//! Laws of the reset lines.

ghost use Rattle.pm_resets.specs.Resets.{LineLaws};

/// A line has the value that was put last, 0 at load, and no other line notices.
pub fn lines_keep_their_values()
    ensures { LineLaws }
{}
