//! Cells whose reads are counted where a call says what it costs.

ghost use Rattle.std.specs.Prelude.{◌≡◌, ◌+◌, ◌<◌, length, replicate, slice_get, slice_set, Some, IfOk};

use pm_base::{NoMemory, Steps};
use std::alloc::Global;
use std::marker::Model;
use std::sync::ledger::Ledger;

/// A fixed number of cells. Contracts see the list of their values. A read with a counter counts a step.
#[derive(Debug, Drop)]
pub struct Cells<T> {
    items: Vec<T>,
}

impl<T> Model for Cells<T> {
    ghost use Rattle.std.specs.Prelude.{List as Sequence};
    ghost use Rattle.std.specs.Coded.{coded_list};

    ghost Value = { Sequence T };

    ghost coded = { coded_list T.code };

    ghost view = { λ cells. cells.items.items };
}

impl<T: Copy + Drop> Cells<T> {
    /// So many cells, each with this value.
    pub fn load(alloc: Global, count: usize, value: T) -> Result<Cells<T>, NoMemory>
        ensures { IfOk result (λ cells. cells ≡ replicate count value) }
    {
        let mut items = Vec::new(alloc);
        for _cell in 0..count {
            items.push(value).map_err(|_| NoMemory)?;
        }
        Ok(Cells { items })
    }

    /// The value of a cell. It counts one step.
    pub fn read<L: Ledger>(&self, k: usize, steps: &mut Steps<L>) -> T
        requires { k < length self.now }
        ensures value { slice_get self.now k ≡ Some result }
        ensures steps { steps.new ≡ steps.old + 1 }
    {
        steps.tick();
        self.items[k]
    }

    /// The value of a cell, for a caller whose cost nothing bounds. No step is counted.
    pub fn value(&self, k: usize) -> T
        requires { k < length self.now }
        ensures { slice_get self.now k ≡ Some result }
    {
        self.items[k]
    }

    /// Sets the value of a cell.
    pub fn write(&mut self, k: usize, value: T)
        requires { k < length self.old }
        ensures { self.new ≡ slice_set self.old k value }
    {
        self.items[k] = value;
    }
}
