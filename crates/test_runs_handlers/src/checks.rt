//! The comparisons of a run with modules and tasks with its text and exit.

use super::running::run_with_board;
use pm_base::Exit;
use pm_io::MemSink;
use pm_modules::{ModulesOf, Responder};
use pm_tasks::{Handler, TasksOf};
use std::process::Abort;
use std::test::Fail;
use test_fixtures::Asked;

/// Compares a run with its text and exit, with modules and tasks, over a sink with this room and a device that
/// doesn't fail.
pub(crate) fn check_with<H: Responder, T: Handler>(
    rt: &(impl Abort + AllocGlobal),
    asked: &Asked,
    modules: &ModulesOf<H>,
    tasks: &mut TasksOf<T>,
    room: Option<u32>,
    text: &[u8],
    exit: Exit,
) -> Result<(), Fail> {
    let mut out = MemSink::new(rt.alloc(), room)?;
    let found = run_with_board(rt.alloc(), asked, modules, tasks, &mut out)?;
    assert_eq!(rt;
        (found, out.bytes()),
        (exit, text),
        "{}, room {room:?}",
        asked.words
    );
    Ok(())
}
