//! An object without sections.

ghost use Rattle.std.specs.Prelude.{◌≡◌};
ghost use Rattle.pm_object.specs.Bodies.{unset};

use crate::object::Object;
use pm_base::List;
use std::alloc::Global;

impl Object {
    /// An object of these further header words, in which no section says anything.
    pub fn unset(alloc: Global, extra: List<u32>) -> Object
        ensures { result ≡ unset extra }
    {
        Object {
            extra,
            order: List::new(alloc),
            masters: List::new(alloc),
            slaves: List::new(alloc),
            groups: List::new(alloc),
            power: List::new(alloc),
            reset: List::new(alloc),
            shutdown: List::new(alloc),
            base_mask: 0,
            overlay_mask: 0,
            gpo: 0,
        }
    }
}
