//! The classes of slaves. All slaves of a class have the same states.

ghost use Rattle.std.specs.Prelude.{◌≡◌, IfOk};
ghost use Rattle.pm_chip.specs.Classes.{state, states_of};

use pm_base::{Caps, List, NoMemory};
use pm_topology::{SlaveState, list_of};
use std::alloc::Global;

/// A class of slaves.
#[derive(Clone, Copy, Debug, PartialEq, Eq)]
pub enum Class {
    /// A memory that can be kept: OCM, TCM and L2.
    Memory,
    /// A memory outside the chip that keeps itself: DDR.
    Dram,
    /// A peripheral that can wake its master.
    Peripheral,
    /// A block that cannot: PLLs, graphics, PCIe.
    Block,
    /// A wake-up source outside the chip, which needs no power.
    External,
}

const NONE: Caps = Caps(0);

const CONTEXT: Caps = Caps(2);

const ACCESS_CONTEXT: Caps = Caps(3);

const ACCESS_CONTEXT_WAKEUP: Caps = Caps(7);

/// The states of a class, from the least to the fullest.
pub(crate) fn states(alloc: Global, class: Class) -> Result<List<SlaveState>, NoMemory>
    ensures { IfOk result (λ list. list ≡ states_of class) }
{
    match class {
        Class::Memory => memory_states(alloc),
        Class::Dram => dram_states(alloc),
        Class::Peripheral => peripheral_states(alloc),
        Class::Block => block_states(alloc),
        Class::External => external_states(alloc),
    }
}

/// Off, kept, on; it needs power unless it is off.
fn memory_states(alloc: Global) -> Result<List<SlaveState>, NoMemory>
    ensures { IfOk result (λ list. list ≡ states_of Class.Memory) }
{
    let states = [
        state(NONE, 1000, false, 0),
        state(CONTEXT, 300, true, 5),
        state(ACCESS_CONTEXT, 0, true, 15),
    ];
    list_of(alloc, &states)
}

/// Off, kept, on; it needs power only if it is on, since it keeps itself.
fn dram_states(alloc: Global) -> Result<List<SlaveState>, NoMemory>
    ensures { IfOk result (λ list. list ≡ states_of Class.Dram) }
{
    let states = [
        state(NONE, 5000, false, 0),
        state(CONTEXT, 500, false, 20),
        state(ACCESS_CONTEXT, 0, true, 120),
    ];
    list_of(alloc, &states)
}

/// Off, and on with wake-up.
fn peripheral_states(alloc: Global) -> Result<List<SlaveState>, NoMemory>
    ensures { IfOk result (λ list. list ≡ states_of Class.Peripheral) }
{
    let states = [
        state(NONE, 100, false, 0),
        state(ACCESS_CONTEXT_WAKEUP, 0, true, 10),
    ];
    list_of(alloc, &states)
}

/// Off, and on without wake-up.
fn block_states(alloc: Global) -> Result<List<SlaveState>, NoMemory>
    ensures { IfOk result (λ list. list ≡ states_of Class.Block) }
{
    let states = [
        state(NONE, 200, false, 0),
        state(ACCESS_CONTEXT, 0, true, 25),
    ];
    list_of(alloc, &states)
}

/// On with wake-up, without power.
fn external_states(alloc: Global) -> Result<List<SlaveState>, NoMemory>
    ensures { IfOk result (λ list. list ≡ states_of Class.External) }
{
    let states = [state(ACCESS_CONTEXT_WAKEUP, 0, false, 0)];
    list_of(alloc, &states)
}

/// A state by its capabilities, its latency, whether it needs power, and its figure.
fn state(caps: Caps, latency: u32, powered: bool, figure: u32) -> SlaveState
    ensures { result ≡ state caps.0 latency powered figure }
{
    SlaveState {
        caps,
        latency,
        powered,
        figure,
    }
}
