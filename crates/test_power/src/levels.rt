//! The cost of a need at each level of a chain.

ghost use Rattle.std.specs.Prelude.{◌≡◌, ◌+◌, ◌≤◌, ◌<◌, [], false, true, IfOk};
ghost use Rattle.test_power.specs.Chain.{children, powers, procs};

use crate::chips::chain;
use pm_base::{NoMemory, NodeId, Steps};
use pm_power::Power;
use pm_topology::Topology;
use std::marker::Brand;
use std::process::Abort;
use std::sync::ledger::{Blank, Ledger};
use std::test::Fail;

/// The processor at the top needs its power node: at most one count changes.
fn need_at_the_top<L: Ledger>(power: &mut Power, steps: &mut Steps<L>)
    requires powers { power.old.powers ≡ powers }
    requires children { power.old.children ≡ children false false false false }
    ensures powers { power.new.powers ≡ powers }
    ensures children { power.new.children ≡ children true false false false }
    ensures cost { steps.new ≤ steps.old + 1 }
{
    power.need(NodeId(1), true, steps);
}

/// The processor at the bottom needs its power node: at most four counts change.
fn need_at_the_bottom<L: Ledger>(power: &mut Power, steps: &mut Steps<L>)
    requires powers { power.old.powers ≡ powers }
    requires children { power.old.children ≡ children true false false false }
    ensures powers { power.new.powers ≡ powers }
    ensures children { power.new.children ≡ children true false false true }
    ensures cost { steps.new ≤ steps.old + 4 }
{
    power.need(NodeId(4), true, steps);
}

/// The processors in the middle need theirs: at most two and three counts change.
fn needs_in_the_middle<L: Ledger>(power: &mut Power, steps: &mut Steps<L>)
    requires powers { power.old.powers ≡ powers }
    requires children { power.old.children ≡ children true false false true }
    ensures powers { power.new.powers ≡ powers }
    ensures children { power.new.children ≡ children true true true true }
    ensures cost { steps.new ≤ steps.old + 5 }
{
    power.need(NodeId(2), true, steps);
    power.need(NodeId(3), true, steps);
}

/// A need of a power node, and one of a number that no node has: no count changes.
fn needs_of_others<L: Ledger>(power: &mut Power, steps: &mut Steps<L>)
    requires powers { power.old.powers ≡ powers }
    requires children { power.old.children ≡ children true true true true }
    ensures powers { power.new.powers ≡ powers }
    ensures children { power.new.children ≡ children true true true true }
    ensures cost { steps.new ≤ steps.old }
{
    power.need(NodeId(12), false, steps);
    power.need(NodeId(5), false, steps);
}

/// All of these needs, one after another.
fn needs_at_each_level<L: Ledger>(power: &mut Power, blank: Blank)
    requires powers { power.old.powers ≡ powers }
    requires children { power.old.children ≡ children false false false false }
    requires name { blank.name ≡ L.name }
    requires parts { blank.parts ≡ L.parts }
    requires some { 0 < blank.parts }
    ensures { power.new.children ≡ children true true true true }
{
    let mut steps = Steps::<L>::new(blank);
    need_at_the_top(power, &mut steps);
    need_at_the_bottom(power, &mut steps);
    needs_in_the_middle(power, &mut steps);
    needs_of_others(power, &mut steps);
}

/// The forest of the chain.
fn forest(rt: &(impl Abort + AllocGlobal), chip: &Topology) -> Result<Power, NoMemory>
    requires powers { chip.now.powers ≡ powers }
    requires procs { chip.now.procs ≡ procs }
    requires slaves { chip.now.slaves ≡ [] }
    ensures powers { IfOk result (λ power. power.powers ≡ powers) }
    ensures children { IfOk result (λ power. power.children ≡ children false false false false) }
{
    assert!(rt; chip.check().is_ok());
    Power::load(rt.alloc(), chip)
}

#[test]
fn a_need_changes_a_count_for_each_level_above(rt: HostRuntime) -> Result<(), Fail> {
    let mut power = forest(&rt, &chain(rt.alloc())?)?;
    needs_at_each_level::<Brand>(&mut power, Blank::new(1));
    assert_eq!(rt; power.ups().len(), 4);
    Ok(())
}
