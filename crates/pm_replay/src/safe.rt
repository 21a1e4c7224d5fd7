//! The acts on a device in memory, by its log.

ghost use Rattle.std.specs.Prelude.{◌≡◌, []};
ghost use Rattle.pm_topology.specs.declared.topology.Topology.{Topology};
ghost use Rattle.pm_device.specs.Listed.{Listed};
ghost use Rattle.pm_device.specs.Model.{Bench};
ghost use Rattle.pm_apply.specs.Order.{IsOrdered};
ghost use Rattle.pm_replay.specs.Safe.{IsSafe};

use pm_device::{Device, ListedDevice, ModelDevice, chains_are_logged};

/// If acts in a safe order lead from a new device in memory to its state now, then its log is in a safe order:
/// nothing was used without power, and no domain went down under its users.
pub fn logged_acts_are_safe()
    ensures model { (t : Topology) (old new : Bench) → old.log ≡ [] → IsSafe ⟦<ModelDevice as Device>⟧ t old new
        → IsOrdered t (λ unit. 0) new.log }
    ensures listed { (t : Topology) (old new : Listed) → old.log ≡ [] → IsSafe ⟦<ListedDevice as Device>⟧ t old new
        → IsOrdered t (λ unit. 0) new.log }
{
    chains_are_logged();
}
