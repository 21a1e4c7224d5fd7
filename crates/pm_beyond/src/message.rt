//! Whether a message is beyond the reach of a master.

ghost use Rattle.std.specs.Prelude.{◌≡◌, IfOk};
ghost use Rattle.pm_base.specs.declared.events.Event.TheVariants.{Ipi};
ghost use Rattle.pm_laws.specs.Answers.{message_beyond};
ghost use Rattle.pm_laws.specs.ReachBorder.{border_of, configured_place, unit_border};
ghost use Rattle.pm_perms.specs.Several.{masters_of};
ghost use Rattle.pm_state.specs.State.{Fixed, objects_of};
ghost use Rattle.pm_beyond.specs.Found.{number_by};

use crate::border::{configured_place, names_beyond, none_within, paths_from};
use pm_base::{Message, NoMemory, NodeId};
use pm_ipi::decode_call;
use pm_object::Object;
use pm_topology::Topology;
use std::alloc::Global;

/// Whether a message of a sender is beyond the reach of the master `of`. `loaded` is the first of the objects, which
/// may each be in force; it says which number is which master.
///
/// # Errors
///
/// `NoMemory` if there is not enough memory.
fn is_beyond_by(
    alloc: Global,
    loaded: &Object,
    objects: &[Object],
    t: &Topology,
    of: NodeId,
    sender: NodeId,
    message: &Message,
) -> Result<bool, NoMemory>
    requires { masters_of objects.now ≡ loaded.now.masters }
    ensures { IfOk result (λ beyond. beyond ≡ message_beyond loaded.now t.now
        (unit_border objects.now t.now (configured_place loaded.now of)
        (number_by loaded.now objects.now t.now (configured_place loaded.now of))) (Ipi sender message.now)) }
{
    let routes = paths_from(alloc, objects, t, configured_place(loaded, of))?;
    let routes = routes.as_slice();
    let sent = none_within(objects, routes, configured_place(loaded, sender));
    Ok(sent && names_beyond(loaded, objects, t, routes, decode_call(message)))
}

/// Whether a message of `sender` is beyond the reach of the master `of`, by the permissions of at least one object of
/// the run. The first of the objects is the loaded one. The sender has to be beyond, or not configured, and so has
/// each node that the message names, or the reset line whose value it asks for. Such a message is answered alike
/// whatever `of` sends. If `of` isn't configured, every message is beyond.
///
/// # Errors
///
/// `NoMemory` if there is not enough memory.
pub fn is_message_beyond(
    alloc: Global,
    objects: &[Object],
    t: &Topology,
    of: NodeId,
    sender: NodeId,
    message: &Message,
) -> Result<bool, NoMemory>
    ensures { (fixed : Fixed) → objects.now ≡ objects_of fixed → t.now ≡ fixed.topology
        → IfOk result (λ beyond. beyond
        ≡ message_beyond fixed.object fixed.topology (border_of fixed of) (Ipi sender message.now)) }
{
    match objects {
        [loaded, ..] => is_beyond_by(alloc, loaded, objects, t, of, sender, message),
        [] => Ok(true),
    }
}
