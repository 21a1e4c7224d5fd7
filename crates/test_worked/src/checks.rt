//! The comparisons of a row with its text and exit.

ghost use Rattle.std.specs.Prelude.{◌≡◌};
ghost use Rattle.pm_base.specs.declared.names.Unit.{Unit};

use crate::running::run_on;
use pm_base::Exit;
use pm_device::Device;
use pm_io::MemSink;
use pm_modules::Modules;
use pm_tasks::Tasks;
use std::process::Abort;
use std::test::Fail;
use test_fixtures::{
    Asked, LABORATORY, LABORATORY_LOADED, LABORATORY_SETTLED, joined, model, replay_of,
};

/// A row: the words of a run, the words of its object, its script, the text of its topology, its text, and its exit.
pub(crate) struct Row {
    pub words: &'static str,
    pub object: &'static [u32],
    pub script: &'static str,
    pub topology: &'static str,
    pub text: &'static str,
    pub exit: Exit,
}

/// Compares each row with its run over a device that doesn't fail.
pub(crate) fn check_rows(rt: &(impl Abort + AllocGlobal), rows: &[Row]) -> Result<(), Fail> {
    for row in rows {
        let asked = Asked {
            words: row.words,
            object: row.object,
            script: row.script.as_bytes(),
            failing: &[],
            topology: row.topology.as_bytes(),
        };
        check(rt, &asked, row.text.as_bytes(), row.exit)?;
    }
    Ok(())
}

/// Compares a run over a device that doesn't fail with its text and its exit.
pub(crate) fn check(
    rt: &(impl Abort + AllocGlobal),
    asked: &Asked,
    text: &[u8],
    exit: Exit,
) -> Result<(), Fail> {
    let mut device = model(rt.alloc())?;
    check_over(rt, asked, None, text, exit, &mut *device)
}

/// Compares a run with its text and exit, over a sink with this room and any device with all units at 0.
pub(crate) fn check_over<D: Device>(
    rt: &(impl Abort + AllocGlobal),
    asked: &Asked,
    room: Option<u32>,
    text: &[u8],
    exit: Exit,
    dev: &mut D,
) -> Result<(), Fail>
    requires idle { D.values_observable → (unit : Unit) → (D.state dev.old).value unit ≡ 0 }
{
    let modules = Modules::new(rt.alloc())?;
    let mut tasks = Tasks::new(rt.alloc(), 0)?;
    let mut out = MemSink::new(rt.alloc(), room)?;
    let found = run_on(rt.alloc(), asked, &mut out, dev, &modules, &mut tasks)?;
    judge(rt, asked.words, found, exit, out.bytes(), text);
    Ok(())
}

/// Fails the test if a run of these words had another exit or another text.
pub(crate) fn judge(
    rt: &impl Abort,
    words: &str,
    found: Exit,
    exit: Exit,
    written: &[u8],
    text: &[u8],
) {
    assert_eq!(rt; (found, written), (exit, text), "{words}");
}

/// Compares the run of a script over the laboratory's object, after its first line `ipi 1 21`, with its text after
/// that line's.
pub(crate) fn check_settled(
    rt: &(impl Abort + AllocGlobal),
    script: &str,
    text: &str,
) -> Result<(), Fail> {
    let script = joined(rt.alloc(), &["ipi 1 21\n", script])?;
    let whole = joined(rt.alloc(), &[LABORATORY_LOADED, LABORATORY_SETTLED, text])?;
    check(rt, &replay_of(LABORATORY, &script), &whole, Exit::Done)
}
