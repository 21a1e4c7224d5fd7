//! Laws of devices.

ghost use Rattle.std.specs.Prelude.{◌≡◌, ℕ, ◌+◌, List, [], ◌∷◌, ◌++◌};
ghost use Rattle.pm_base.specs.Faults.{Rose};
ghost use Rattle.pm_base.specs.declared.names.Unit.{Unit};
ghost use Rattle.pm_topology.specs.declared.topology.Topology.{Topology};
ghost use Rattle.pm_device.specs.Act.{Act, AllMatch, AreHarmless, Chain, ShowsAll, refusals, shown_by, values_after};
ghost use Rattle.pm_device.specs.Device.{DeviceMoment};
ghost use Rattle.pm_device.specs.Fresh.{IsWhole};
ghost use Rattle.pm_device.specs.Listed.{Listed, ListedDoes};
ghost use Rattle.pm_device.specs.Model.{Bench, BenchDoes};

use crate::device::Device;

/// What a chain of acts leads to is what these acts show one after another: the values, the broken
/// nodes and the count after them, and that each order is refused exactly if the acts before it
/// left its unit broken or the device lacks it.
pub fn chain_shows<D: Device>()
    ensures { (acts : List Act) (old new : D) → Chain D.Does acts old new
        → ShowsAll D.values_observable D.nodes_observable acts (D.state old) (D.state new) }
{}

/// Chains are put together: there is one of no act, one more act goes to its end, and one goes behind
/// another.
pub fn chains_join<D: Device>()
    ensures none { (now : D) → Chain D.Does [] now now }
    ensures then { (acts : List Act) (act : Act) (old middle new : D)
        → Chain D.Does acts old middle → D.Does act middle new → Chain D.Does (acts ++ act ∷ []) old new }
    ensures append { (first second : List Act) (old middle new : D)
        → Chain D.Does first old middle → Chain D.Does second middle new → Chain D.Does (first ++ second) old new }
{}

/// A chain of acts on a device in memory is exactly what the device logged meanwhile: no other acts, and
/// no other order of these.
pub fn chains_are_logged()
    ensures model { (acts : List Act) (old new : Bench) → Chain BenchDoes acts old new → new.log ≡ old.log ++ acts }
    ensures listed { (acts : List Act) (old new : Listed) → Chain ListedDoes acts old new
        → new.log ≡ old.log ++ acts }
{}

/// No order of a chain is refused if the count of faults didn't rise; nor if the device was whole
/// to an observer, each order is on a unit of the chip, and no act breaks a node.
pub fn none_is_refused<D: Device>()
    ensures still { (acts : List Act) (old new : D) → Chain D.Does acts old new
        → (Rose (D.state old).faults (D.state new).faults → ⊥) → refusals acts ≡ 0 }
    ensures whole { (t : Topology) (acts : List Act) (old new : D) → Chain D.Does acts old new
        → D.nodes_observable → IsWhole t (D.state old) → AreHarmless t acts → refusals acts ≡ 0 }
{}

/// What some acts and others behind them come to.
pub fn acts_append()
    ensures refusals { (first second : List Act) → refusals (first ++ second) ≡ refusals first + refusals second }
    ensures values { (first second : List Act) (value : Unit → ℕ) (unit : Unit)
        → values_after (first ++ second) value unit ≡ values_after second (values_after first value) unit }
    ensures shown { (first second : List Act) (now : DeviceMoment)
        → shown_by (first ++ second) now ≡ shown_by second (shown_by first now) }
    ensures matched { (first second : List Act) (now : DeviceMoment)
        → AllMatch (first ++ second) now → AllMatch first now × AllMatch second (shown_by first now) }
    ensures harmless { (t : Topology) (first second : List Act)
        → AreHarmless t first → AreHarmless t second → AreHarmless t (first ++ second) }
{}
