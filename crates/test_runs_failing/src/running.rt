//! A run over a device. Only here these tests make the top call; without its contract they are cheap to prove.

ghost use Rattle.std.specs.Prelude.{◌≡◌};
ghost use Rattle.pm_base.specs.declared.names.Unit.{Unit};

use pm_base::{Exit, NoMemory};
use pm_device::Device;
use pm_io::{MemInputs, MemSink, Sink};
use pm_modules::Modules;
use pm_tasks::Tasks;
use pm_top::pm_main;
use std::alloc::Global;
use std::test::Fail;
use test_fixtures::{Asked, inputs_of, words_of};

/// A run over a sink in memory, and any device with all units at 0, without modules and tasks.
pub(crate) fn run_with<D: Device>(
    alloc: Global,
    asked: &Asked,
    out: &mut MemSink,
    dev: &mut D,
) -> Result<Exit, Fail>
    requires idle { D.values_observable → (unit : Unit) → (D.state dev.old).value unit ≡ 0 }
{
    let words = words_of(alloc, asked.words)?;
    let mut inputs = inputs_of(alloc, asked)?;
    Ok(run_words(alloc, &words, &mut inputs, out, dev)?)
}

/// The call of the top function.
fn run_words<O: Sink, D: Device>(
    alloc: Global,
    words: &[String],
    inputs: &mut MemInputs,
    out: &mut O,
    dev: &mut D,
) -> Result<Exit, NoMemory>
    requires idle { D.values_observable → (unit : Unit) → (D.state dev.old).value unit ≡ 0 }
{
    let modules = Modules::new(alloc)?;
    let mut tasks = Tasks::new(alloc, 0)?;
    Ok(pm_main(alloc, words, inputs, out, dev, &modules, &mut tasks))
}
