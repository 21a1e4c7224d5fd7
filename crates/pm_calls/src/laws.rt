//! A law of the calls, for the crates above.

ghost use Rattle.pm_calls.specs.Permissions.{ArePermissions};

use pm_grants::grants_are_permissions;
use pm_state::loads_are_sound;

/// The permission check of each call is what the object in force permits its sender, read from the numbers in the
/// object's records. The code itself decides by places and compiled masks.
pub fn checks_are_permissions()
    ensures { ArePermissions }
{
    grants_are_permissions();
    loads_are_sound();
}
