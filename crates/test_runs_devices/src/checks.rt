//! The comparisons of a run over a device with its text and exit.

ghost use Rattle.std.specs.Prelude.{◌≡◌};
ghost use Rattle.pm_base.specs.declared.names.Unit.{Unit};

use super::running::run_with;
use pm_base::Exit;
use pm_device::Device;
use pm_io::MemSink;
use std::process::Abort;
use std::test::Fail;
use test_fixtures::Asked;

/// Compares a run with its text and exit, over any device with all units at 0.
pub(crate) fn check_with<D: Device>(
    rt: &(impl Abort + AllocGlobal),
    asked: &Asked,
    text: &[u8],
    exit: Exit,
    dev: &mut D,
) -> Result<(), Fail>
    requires idle { D.values_observable → (unit : Unit) → (D.state dev.old).value unit ≡ 0 }
{
    let mut out = MemSink::new(rt.alloc(), None)?;
    let found = run_with(rt.alloc(), asked, &mut out, dev)?;
    judge(rt, asked.words, found, exit, out.bytes(), text);
    Ok(())
}

/// Fails the test if a run of these words had another exit or another text.
fn judge(rt: &impl Abort, words: &str, found: Exit, exit: Exit, written: &[u8], text: &[u8]) {
    assert_eq!(rt; (found, written), (exit, text), "{words}");
}
