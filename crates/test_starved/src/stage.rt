//! The parts of a run, in memory.

ghost use Rattle.std.specs.Prelude.{◌≡◌, IfOk};
ghost use Rattle.pm_base.specs.declared.names.Unit.{Unit};
ghost use Rattle.pm_device.specs.Model.{moment_of};

use pm_base::{Exit, NoMemory};
use pm_device::ModelDevice;
use pm_io::{MemInputs, MemSink};
use pm_modules::{Echo, ModuleOf, ModulesOf};
use pm_tasks::{Counter, TasksOf};
use pm_top::pm_main;
use std::alloc::Global;
use test_fixtures::{LABORATORY, SMALL, SMALL_TOPOLOGY, bytes_of, model, put};

/// The text of an object.
const TEXT: &str = "header
section masters
master 1 1 100 256 256
master 7 256 100 0 0
section slaves
slave 11 1 257
slave 33 0 1
section power
power 10 256
section reset
reset 33 1
";

/// A script with lines of each kind.
const SCRIPT: &str = "object 4096 2 2 1 257 2 1 1 100 256 256 7 256 100 0 0 258 1 33 0 257
ipi 1 21
ipi 1 13 33 1 0 2
post 7 13 11 1 0 1
serve
ipi 1 256 7 8 9
smc 2 0x84000003 1 8192
task 0 5
tick 5
cancel 1
break 33
ipi 1 14 33
mend 33
ipi 1 7 2 0 0 4096 0
wfi 2
boot 3 8192
irq 46
gic 2
";

/// The greatest length of a run's text, in bytes.
const ROOM: u32 = 65_536;

/// The parts that runs share.
#[derive(Drop)]
pub(crate) struct Shared {
    inputs: MemInputs,
    modules: ModulesOf<Echo>,
}

/// The parts that a run changes: a sink whose writes take no memory, a device, and a task.
#[derive(Drop)]
pub(crate) struct Stage {
    out: MemSink,
    device: Box<ModelDevice>,
    tasks: TasksOf<Counter>,
}

impl Stage {
    /// The text that was written.
    pub(crate) fn text(&self) -> &[u8] {
        self.out.bytes()
    }
}

/// The files that words can name (`obj`, `text`, `script`, and `small` and `topo` for another chip), and a module.
pub(crate) fn new_shared(alloc: Global) -> Result<Shared, NoMemory> {
    let mut inputs = MemInputs::new(alloc, &[])?;
    put_words(alloc, &mut inputs, "obj", LABORATORY)?;
    put(&mut inputs, "text", TEXT.as_bytes())?;
    put(&mut inputs, "script", SCRIPT.as_bytes())?;
    put_words(alloc, &mut inputs, "small", SMALL)?;
    put(&mut inputs, "topo", SMALL_TOPOLOGY.as_bytes())?;
    let mut modules = ModulesOf::new(alloc)?;
    let _added = modules.add(ModuleOf::new(256, 259, Echo));
    Ok(Shared { inputs, modules })
}

/// Adds the words of an object under a name.
fn put_words(
    alloc: Global,
    inputs: &mut MemInputs,
    name: &str,
    words: &[u32],
) -> Result<(), NoMemory> {
    let bytes = bytes_of(alloc, words).map_err(|_| NoMemory)?;
    put(inputs, name, bytes.as_slice())
}

/// An empty sink, a device with all units at 0, and a stopped task.
pub(crate) fn new_stage(alloc: Global) -> Result<Stage, NoMemory>
    ensures { IfOk result (λ stage. (unit : Unit) → (moment_of stage.device.value).value unit ≡ 0) }
{
    let mut tasks = TasksOf::new(alloc, 1)?;
    let _added = tasks.add(Counter { calls: 0 });
    Ok(Stage {
        out: MemSink::new(alloc, Some(ROOM))?,
        device: model(alloc)?,
        tasks,
    })
}

/// Makes a run of words.
pub(crate) fn run_words(
    alloc: Global,
    words: &[String],
    shared: &mut Shared,
    stage: &mut Stage,
) -> Exit
    requires idle { (unit : Unit) → (moment_of stage.old.device.value).value unit ≡ 0 }
{
    pm_main(
        alloc,
        words,
        &mut shared.inputs,
        &mut stage.out,
        &mut *stage.device,
        &shared.modules,
        &mut stage.tasks,
    )
}
