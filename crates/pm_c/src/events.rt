//! Events: a message, a boot, a wait, interrupts, and passing time. Each of these calls begins a step, and returns
//! `DONE`; `COMMAND_LEFT` if a command of the step before waits for its answer; `NO_MEMORY` for want of memory; and
//! `CLOSED` if the handle holds no controller. Only with `DONE` anything changes.

ghost use Rattle.std.specs.Prelude.{◌≡◌, ◌<◌, [], ◌∷◌, None};
ghost use Rattle.pm_base.specs.declared.events.Event.TheVariants as events;
ghost use Rattle.pm_controller.specs.Steps.{TakesEvent};
ghost use Rattle.pm_slot.specs.Held.{Holds, Leads, inside};
ghost use Rattle.pm_handle.specs.Handle.{IsOneOf, IsOver, IsWaiting};

use pm_base::{Event, Message, NodeId};
use pm_handle::events::tell;
use pm_slot::Slot;
use std::alloc::Global;

/// A message of a master, with its API word and five arguments.
#[unsafe(no_mangle)]
pub extern "C" fn pmu_ipi(
    alloc: Global,
    pmu: &mut Slot,
    master: u32,
    api: u32,
    first: u32,
    second: u32,
    third: u32,
    fourth: u32,
    fifth: u32,
) -> u32
    ensures done { result ≡ 0 → Leads (TakesEvent (events.Ipi (record { 0 = master }) (record {
      api = api;
      args = first ∷ second ∷ third ∷ fourth ∷ fifth ∷ [];
    }))) pmu.old.held pmu.new.held }
    ensures kept { 0 < result → inside pmu.new.held ≡ inside pmu.old.held }
    ensures over { result ≡ 0 → Holds IsOver pmu.old.held }
    ensures left { result ≡ 16 → Holds IsWaiting pmu.old.held }
    ensures closed { result ≡ 19 → inside pmu.old.held ≡ None }
    ensures codes { IsOneOf (0 ∷ 6 ∷ 16 ∷ 19 ∷ []) result }
{
    let message = Message {
        api,
        args: [first, second, third, fourth, fifth],
    };
    let master = NodeId(master);
    tell(alloc, pmu, Event::Ipi { master, message })
}

/// A boot loader starts a processor at an address.
#[unsafe(no_mangle)]
pub extern "C" fn pmu_boot(alloc: Global, pmu: &mut Slot, proc: u32, address: u64) -> u32
    ensures done { result ≡ 0
        → Leads (TakesEvent (events.Boot (record { 0 = proc }) address)) pmu.old.held pmu.new.held }
    ensures kept { 0 < result → inside pmu.new.held ≡ inside pmu.old.held }
    ensures over { result ≡ 0 → Holds IsOver pmu.old.held }
    ensures left { result ≡ 16 → Holds IsWaiting pmu.old.held }
    ensures closed { result ≡ 19 → inside pmu.old.held ≡ None }
    ensures codes { IsOneOf (0 ∷ 6 ∷ 16 ∷ 19 ∷ []) result }
{
    let proc = NodeId(proc);
    tell(alloc, pmu, Event::Boot { proc, address })
}

/// A processor waits for an interrupt.
#[unsafe(no_mangle)]
pub extern "C" fn pmu_wfi(alloc: Global, pmu: &mut Slot, proc: u32) -> u32
    ensures done { result ≡ 0 → Leads (TakesEvent (events.Wfi (record { 0 = proc }))) pmu.old.held pmu.new.held }
    ensures kept { 0 < result → inside pmu.new.held ≡ inside pmu.old.held }
    ensures over { result ≡ 0 → Holds IsOver pmu.old.held }
    ensures left { result ≡ 16 → Holds IsWaiting pmu.old.held }
    ensures closed { result ≡ 19 → inside pmu.old.held ≡ None }
    ensures codes { IsOneOf (0 ∷ 6 ∷ 16 ∷ 19 ∷ []) result }
{
    let proc = NodeId(proc);
    tell(alloc, pmu, Event::Wfi { proc })
}

/// An interrupt of a processor itself.
#[unsafe(no_mangle)]
pub extern "C" fn pmu_gic(alloc: Global, pmu: &mut Slot, proc: u32) -> u32
    ensures done { result ≡ 0 → Leads (TakesEvent (events.Gic (record { 0 = proc }))) pmu.old.held pmu.new.held }
    ensures kept { 0 < result → inside pmu.new.held ≡ inside pmu.old.held }
    ensures over { result ≡ 0 → Holds IsOver pmu.old.held }
    ensures left { result ≡ 16 → Holds IsWaiting pmu.old.held }
    ensures closed { result ≡ 19 → inside pmu.old.held ≡ None }
    ensures codes { IsOneOf (0 ∷ 6 ∷ 16 ∷ 19 ∷ []) result }
{
    let proc = NodeId(proc);
    tell(alloc, pmu, Event::Gic { proc })
}

/// A slave raises its interrupt.
#[unsafe(no_mangle)]
pub extern "C" fn pmu_irq(alloc: Global, pmu: &mut Slot, slave: u32) -> u32
    ensures done { result ≡ 0 → Leads (TakesEvent (events.Irq (record { 0 = slave }))) pmu.old.held pmu.new.held }
    ensures kept { 0 < result → inside pmu.new.held ≡ inside pmu.old.held }
    ensures over { result ≡ 0 → Holds IsOver pmu.old.held }
    ensures left { result ≡ 16 → Holds IsWaiting pmu.old.held }
    ensures closed { result ≡ 19 → inside pmu.old.held ≡ None }
    ensures codes { IsOneOf (0 ∷ 6 ∷ 16 ∷ 19 ∷ []) result }
{
    let slave = NodeId(slave);
    tell(alloc, pmu, Event::Irq { slave })
}

/// Time passes, in units of the script's time.
#[unsafe(no_mangle)]
pub extern "C" fn pmu_tick(alloc: Global, pmu: &mut Slot, count: u32) -> u32
    ensures done { result ≡ 0 → Leads (TakesEvent (events.Tick count)) pmu.old.held pmu.new.held }
    ensures kept { 0 < result → inside pmu.new.held ≡ inside pmu.old.held }
    ensures over { result ≡ 0 → Holds IsOver pmu.old.held }
    ensures left { result ≡ 16 → Holds IsWaiting pmu.old.held }
    ensures closed { result ≡ 19 → inside pmu.old.held ≡ None }
    ensures codes { IsOneOf (0 ∷ 6 ∷ 16 ∷ 19 ∷ []) result }
{
    tell(alloc, pmu, Event::Tick { count })
}
