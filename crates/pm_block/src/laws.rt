//! A law of what is attached.

ghost use Rattle.std.specs.Prelude.{List};
ghost use Rattle.std.specs.List.{AllByRecursion as Each};
ghost use Rattle.pm_base.specs.declared.events.Event.{Event};
ghost use Rattle.pm_block.specs.Block.{attached_by};
ghost use Rattle.pm_object.specs.Attached.{IsFormed};

/// Each object that the first lines of a script attach is well formed.
pub fn attached_objects_are_formed()
    ensures { (events : List Event) → Each IsFormed (attached_by events) }
{}
