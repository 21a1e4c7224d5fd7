//! What a slot holds.

ghost use Rattle.std.specs.Prelude.{◌≡◌, None, Some};
ghost use Rattle.pm_slot.specs.Held.{inside};

use pm_controller::Controller;

/// A controller, or none.
#[derive(Drop)]
pub struct Held {
    pub controller: Option<Box<Controller>>,
}

impl Held {
    /// No controller.
    pub fn none() -> Held
        ensures { inside result ≡ None }
    {
        Held { controller: None }
    }

    /// A controller.
    pub fn of(controller: Box<Controller>) -> Held
        ensures { inside result ≡ Some controller.value }
    {
        Held {
            controller: Some(controller),
        }
    }
}
