//! Runs with lines of several core steps, and the values of the device after them.

use super::devices::check_values;
use super::running::run_with;
use pm_base::Exit;
use pm_io::MemSink;
use std::process::Abort;
use std::test::Fail;
use test_fixtures::{Asked, BOXES, BOXES_SETTLED, model, replay_of};

/// The text of the line `serve`, in which the message of master 7 is served first, and then that of master 1.
const SERVED: &str = "6 set 11 0 2
6 reply 7 0 0 0 0
6 set 33 0 1
6 reply 1 0 0 0 0
";

/// The text of a line in which processor 3 stops itself: its message is answered, and then it waits.
const STOPPED: &str = "3 reply 1 0 0 0 0
3 set 3 1 0
";

/// The sink breaks off within a line, at each byte. The line is carried out to its end, so that the device has these
/// values; the next line isn't carried out.
fn check_line(
    rt: &(impl Abort + AllocGlobal),
    script: &str,
    before: &str,
    line: &str,
    values: &[(u32, u32)],
) -> Result<(), Fail> {
    let asked = replay_of(BOXES, script.as_bytes());
    let before = BOXES_SETTLED.len().saturating_add(before.len());
    for within in 0..line.len() {
        let room = u32::try_from(before.saturating_add(within)).ok();
        check_room(rt, &asked, room, values)?;
    }
    Ok(())
}

/// A run over a sink with this room, which fails.
fn check_room(
    rt: &(impl Abort + AllocGlobal),
    asked: &Asked,
    room: Option<u32>,
    values: &[(u32, u32)],
) -> Result<(), Fail> {
    let mut out = MemSink::new(rt.alloc(), room)?;
    let mut device = model(rt.alloc())?;
    let exit = run_with(rt.alloc(), asked, &mut out, &mut *device)?;
    assert_eq!(rt; exit, Exit::WriteFault, "room {room:?}");
    check_values(rt, &device, values);
    Ok(())
}

/// Both messages are served, and the device follows both.
#[test]
fn a_line_is_carried_out_to_its_end_where_its_text_breaks_off(rt: HostRuntime) -> Result<(), Fail> {
    let script = "ipi 1 21
boot 7 0
post 1 13 33 1 0 2
post 7 13 11 1 0 2

serve
ipi 1 14 33
";
    let before = "2 set 6 0 1\n2 set 7 0 1\n2 run 7 0\n";
    let values = [(7, 1), (11, 2), (33, 1)];
    check_line(&rt, script, before, SERVED, &values)
}

/// The processor waits after its message was answered, though the sink took nothing of that answer.
#[test]
fn a_processor_stops_where_the_text_of_its_call_breaks_off(rt: HostRuntime) -> Result<(), Fail> {
    let script = "ipi 1 21
smc 2 0xC4000003 1 4096 0
smc 3 0x84000002
smc 2 0x84000002
";
    let before = "2 set 3 0 1\n2 run 3 4096\n2 reply 1 0 0 0 0\n2 smc 2 0\n";
    let values = [(1, 1), (2, 1), (3, 0)];
    check_line(&rt, script, before, STOPPED, &values)
}
