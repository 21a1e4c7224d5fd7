//! Counts whose changes are counted.

ghost use Rattle.std.specs.Prelude.{◌≡◌, ◌+◌, ◌-◌, ◌<◌, ◌^◌, length, replicate, slice_index, slice_set, IfOk};

use pm_base::{NoMemory, Steps};
use std::alloc::Global;
use std::marker::Model;
use std::sync::ledger::Ledger;

/// A fixed number of counts. Contracts see the list of them. Each change counts a step.
#[derive(Debug, Drop)]
pub struct Counts {
    items: Vec<u32>,
}

impl Model for Counts {
    ghost use Rattle.std.specs.Prelude.{List as Sequence, ℕ};

    ghost Value = { Sequence ℕ };

    ghost view = { λ counts. counts.items.items };
}

impl Counts {
    /// So many counts of 0.
    pub fn load(alloc: Global, count: usize) -> Result<Counts, NoMemory>
        ensures { IfOk result (λ counts. counts ≡ replicate count 0) }
    {
        let items = Vec::from_elem(alloc, 0, count).map_err(|_| NoMemory)?;
        Ok(Counts { items })
    }

    /// The number of counts.
    pub fn len(&self) -> usize
        ensures { result ≡ length self.now }
    {
        self.items.len()
    }

    /// Adds one to a count, which isn't the greatest of its type. It counts one step.
    pub fn add<L: Ledger>(&mut self, k: usize, steps: &mut Steps<L>)
        requires place { k < length self.old }
        requires few { slice_index self.old k < 2 ^ 32 - 1 }
        ensures count { self.new ≡ slice_set self.old k (slice_index self.old k + 1) }
        ensures steps { steps.new ≡ steps.old + 1 }
    {
        steps.tick();
        self.items[k] += 1;
    }

    /// Takes one away from a count, which isn't 0. It counts one step.
    pub fn sub<L: Ledger>(&mut self, k: usize, steps: &mut Steps<L>)
        requires place { k < length self.old }
        requires some { 0 < slice_index self.old k }
        ensures count { self.new ≡ slice_set self.old k (slice_index self.old k - 1) }
        ensures steps { steps.new ≡ steps.old + 1 }
    {
        steps.tick();
        self.items[k] -= 1;
    }

    /// A count.
    pub fn value(&self, k: usize) -> u32
        requires { k < length self.now }
        ensures { result ≡ slice_index self.now k }
    {
        self.items[k]
    }
}
