//! What a line of a script does to a device itself.

ghost use Rattle.pm_device.specs.Act.{Chain};
ghost use Rattle.pm_drive.specs.Drive.{rigs};

use pm_base::Event;
use pm_device::Device;

/// Does to a device what a line of a script does to it before its commands: `break` breaks a node, and `mend` mends it.
/// Any other line does nothing to it. A number that is no node of the device, that of a reset line too, changes nothing.
pub fn rig<D: Device>(event: &Event, dev: &mut D)
    ensures { Chain D.Does (rigs event.now) dev.old dev.new }
{
    match event {
        Event::Break { node } => dev.rig(*node, true),
        Event::Mend { node } => dev.rig(*node, false),
        _ => {}
    }
}
