//! The values of the reset lines.

ghost use Rattle.std.specs.Prelude.{◌≡◌, IfOk, length};
ghost use Rattle.pm_resets.specs.Resets.{all_released, line_value, value_of, with_line};

use pm_base::{NoMemory, at_or};
use std::alloc::Global;
use std::marker::Model;

/// The reset lines of a chip by their places in its table, each asserted or released. A line that isn't
/// there is released. Contracts see the list of whether each line is asserted.
#[derive(Debug, Drop)]
pub struct Resets {
    asserted: Vec<bool>,
}

impl Model for Resets {
    ghost use Rattle.std.specs.Prelude.{Bool, List};

    ghost Value = { List Bool };

    ghost view = { λ resets. resets.asserted.items };
}

impl Resets {
    /// This many lines, all released. No later call takes memory.
    ///
    /// # Errors
    ///
    /// `NoMemory` if there is not enough memory.
    pub fn load(alloc: Global, lines: usize) -> Result<Resets, NoMemory>
        ensures { IfOk result (λ resets. resets ≡ all_released lines) }
    {
        let asserted = released(alloc, lines)?;
        Ok(Resets { asserted })
    }

    /// The value of the line at a place: 1 while it is asserted, else 0 (UG1200, PM_RESET_GET_STATUS).
    pub fn value(&self, l: usize) -> u32
        ensures { result ≡ value_of l self.now }
    {
        number(at_or(&self.asserted, l, false))
    }

    /// The line at a place is asserted or released from now on (UG1200, PM_RESET_ASSERT). Nothing changes
    /// if it isn't there.
    pub fn put(&mut self, l: usize, asserted: bool)
        ensures { self.new ≡ with_line l asserted self.old }
    {
        if l < self.asserted.len() {
            self.asserted[l] = asserted;
        }
    }

    /// All lines are released, as at load.
    pub fn restart(&mut self)
        ensures { self.new ≡ all_released (length self.old) }
    {
        self.asserted.fill(false);
    }
}

/// As many reset lines, all released.
fn released(alloc: Global, lines: usize) -> Result<Vec<bool>, NoMemory>
    ensures { IfOk result (λ asserted. asserted.items ≡ all_released lines) }
{
    vec![in alloc; false; lines].map_err(|_| NoMemory)
}

/// The value of a reset line: 1 if it is asserted.
fn number(asserted: bool) -> u32
    ensures { result ≡ line_value asserted }
{
    if asserted { 1 } else { 0 }
}
