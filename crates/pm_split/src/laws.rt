//! A law of the boxes.

ghost use Rattle.std.specs.Prelude.{◌≡◌, length};
ghost use Rattle.pm_object.specs.declared.object.Object.{Object};
ghost use Rattle.pm_object.specs.Grammar.{IsObject};
ghost use Rattle.pm_split.specs.Boxes.{Boxes, waiting_in};
ghost use Rattle.pm_split.specs.Served.{ServesAll};

/// Each master of a well-formed object has one bit in all masks, and no other master has it. So the messages in all
/// boxes are served, each once, by rising mask of their masters, and nothing else is sent.
pub fn boxes_are_served()
    ensures { (object : Object) (boxes : Boxes) → IsObject object → length boxes ≡ length object.masters
        → ServesAll object boxes (waiting_in object boxes) }
{}
