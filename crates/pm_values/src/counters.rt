//! The calls of the power nodes, each with a counter of its own: no call of the caches says what it costs.

ghost use Rattle.std.specs.Prelude.{◌≡◌, ◌<◌, ◌++◌};
ghost use Rattle.pm_power.specs.Needs.{with_need_at, with_needs};

use pm_base::Steps;
use pm_power::Power;
use std::marker::Brand;
use std::sync::ledger::{Blank, Ledger};

/// Sets whether the processor or slave at a place needs its power node.
pub(crate) fn put(power: &mut Power, place: usize, on: bool)
    ensures { power.new ≡ record power.old { children = with_need_at place on power.old.children } }
{
    put_by::<Brand>(power, place, on, Blank::new(1));
}

/// Sets whether a unit below a power node needs power. The steps of a counter are taken that the caller names.
fn put_by<L: Ledger>(power: &mut Power, place: usize, on: bool, blank: Blank)
    requires name { blank.name ≡ L.name }
    requires parts { blank.parts ≡ L.parts }
    requires some { 0 < blank.parts }
    ensures { power.new ≡ record power.old { children = with_need_at place on power.old.children } }
{
    power.put(place, on, &mut Steps::<L>::new(blank));
}

/// Sets the needs of all slaves and of all processors.
pub(crate) fn recompute(power: &mut Power, slaves: &[bool], procs: &[bool])
    ensures { power.new ≡ record power.old { children = with_needs (slaves.now ++ procs.now) power.old.children } }
{
    recompute_by::<Brand>(power, slaves, procs, Blank::new(1));
}

/// Sets anew which slaves and processors need power. The steps of a counter are taken that the caller names.
fn recompute_by<L: Ledger>(power: &mut Power, slaves: &[bool], procs: &[bool], blank: Blank)
    requires name { blank.name ≡ L.name }
    requires parts { blank.parts ≡ L.parts }
    requires some { 0 < blank.parts }
    ensures { power.new ≡ record power.old { children = with_needs (slaves.now ++ procs.now) power.old.children } }
{
    power.recompute(slaves, procs, &mut Steps::<L>::new(blank));
}
