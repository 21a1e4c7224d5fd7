//! The power nodes that are up.

ghost use Rattle.std.specs.Prelude.{◌≡◌, ◌<◌, IfOk, length};

use crate::rows::{all_right, boxed, same};
use pm_base::{NoMemory, NodeId, Steps};
use pm_chip::zynqmp;
use pm_power::Power;
use std::marker::Brand;
use std::process::Abort;
use std::sync::ledger::{Blank, Ledger};
use std::test::Fail;

/// The processors of the chip, and a slave directly below each of LPD, the RPU's island, FPD and PLD.
const CHILDREN: [u32; 10] = [2, 3, 4, 5, 7, 8, 11, 15, 19, 63];

/// The forest of the chip's five power nodes.
fn forest(rt: &(impl Abort + AllocGlobal)) -> Result<Box<Power>, NoMemory>
    ensures { IfOk result (λ power. length power.value.powers ≡ 5) }
{
    let chip = boxed(rt.alloc(), zynqmp(rt.alloc())?)?;
    assert_eq!(rt; chip.powers.len(), 5);
    let power = Power::load(rt.alloc(), &chip)?;
    boxed(rt.alloc(), power)
}

/// Whether PLD, FPD, LPD, the APU's island and the RPU's are up.
fn ups(power: &Power) -> [bool; 5] {
    [
        power.needs(NodeId(9)),
        power.needs(NodeId(10)),
        power.needs(NodeId(62)),
        power.needs(NodeId(1)),
        power.needs(NodeId(6)),
    ]
}

#[test]
fn held_nodes_alone_are_up_at_first(rt: HostRuntime) -> Result<(), Fail> {
    let power = forest(&rt)?;
    let found = [
        power.up(0),
        power.up(1),
        power.up(2),
        power.up(3),
        power.up(4),
    ];
    same(&rt, found, [false, false, true, false, false]);
    same(&rt, ups(&power), found);
    assert!(rt; !power.needs(NodeId(2)) && !power.needs(NodeId(70)));
    Ok(())
}

/// Whether one of the children with these places is in the subset.
fn has_one(subset: u32, places: &[u32]) -> bool {
    places
        .iter()
        .any(|place| *place < 10 && (subset >> *place) & 1 == 1)
}

/// Sets the needs of the children to those of a subset. Returns whether all are then as they were set.
fn set_needs<L: Ledger>(power: &mut Power, subset: u32, steps: &mut Steps<L>) -> bool {
    for (place, child) in CHILDREN.into_iter().enumerate() {
        let on = (subset >> place) & 1 == 1;
        power.need(NodeId(child), on, steps);
        if power.needs(NodeId(child)) != on {
            return false;
        }
    }
    true
}

/// The power nodes that are up under the needs of a subset.
fn wanted(subset: u32) -> [bool; 5] {
    let apu = has_one(subset, &[0, 1, 2, 3]);
    [
        has_one(subset, &[9]),
        apu || has_one(subset, &[8]),
        true,
        apu,
        has_one(subset, &[4, 5, 7]),
    ]
}

#[test]
fn power_nodes_follow_each_subset_of_needs(rt: HostRuntime) -> Result<(), Fail> {
    let mut power = forest(&rt)?;
    all_right(&rt, wrong_subset::<Brand>(&mut power, Blank::new(1)));
    Ok(())
}

/// The first subset of needs under which other power nodes are up than expected.
fn wrong_subset<L: Ledger>(power: &mut Power, blank: Blank) -> Option<usize>
    requires name { blank.name ≡ L.name }
    requires parts { blank.parts ≡ L.parts }
    requires some { 0 < blank.parts }
{
    let mut steps = Steps::<L>::new(blank);
    for subset in 0..1024u32 {
        if !set_needs(power, subset, &mut steps) || ups(power) != wanted(subset) {
            return Some(subset as usize);
        }
    }
    None
}
