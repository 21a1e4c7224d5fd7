//! Rows over a topology from a file.

use crate::checks::{Row, check, check_rows};
use crate::running::run_on;
use pm_base::Exit;
use pm_io::MemSink;
use pm_modules::Modules;
use pm_tasks::Tasks;
use std::process::Abort;
use std::test::Fail;
use test_fixtures::{
    Asked, LABORATORY, LABORATORY_LOADED, LABORATORY_SETTLED, SMALL, joined, model, replay_of,
};

/// Words and inputs of a run, its text, and its exit.
static ROWS: [Row; 3] = [
    // a slave that the chip lacks
    Row {
        words: "replay obj script topo",
        object: SMALL,
        script: "ipi 1 21
",
        topology: "power 62 none 1 20 3000
power 1 62 0 30 500
proc 2 1 300 400
proc 7 62 100 200
proc 8 62 100 200
slave 100 62
state 0 1000 0 0
state 1 0 1 5
line 100 100
owner 1 2
owner 6 7
owner 7 7
owner 8 8
",
        text: "0 set 62 0 1
0 set 1 0 1
0 set 2 0 1
0 set 100 0 1
0 run 2 0
1 set 100 1 0
1 reply 1 0 0 0 0
end power 1 1 1
end proc 2 1 1
end power 62 1 1
",
        exit: Exit::Done,
    },
    // a master that no line gives an owner
    Row {
        words: "replay obj script topo",
        object: SMALL,
        script: "ipi 1 21
",
        topology: "power 62 none 1 20 3000
power 1 62 0 30 500
proc 2 1 300 400
proc 7 62 100 200
proc 8 62 100 200
slave 100 62
state 0 1000 0 0
state 1 0 1 5
line 100 100
owner 1 2
owner 6 7
owner 7 7
",
        text: "fault topology 8 3
",
        exit: Exit::BadText,
    },
    // a parent that no line has
    Row {
        words: "replay obj script topo",
        object: SMALL,
        script: "ipi 1 21
",
        topology: "power 62 none 1 20 3000
power 1 62 0 30 500
proc 2 1 300 400
proc 7 61 100 200
proc 8 62 100 200
slave 100 62
state 0 1000 0 0
state 1 0 1 5
line 100 100
owner 1 2
owner 6 7
owner 7 7
owner 8 8
",
        text: "fault text 4 3
",
        exit: Exit::BadText,
    },
];

#[test]
fn a_topology_from_a_file(rt: HostRuntime) -> Result<(), Fail> {
    check_rows(&rt, &ROWS)
}

/// The chip's table is written, and read again as the topology of a run, which equals the run over the chip.
#[test]
fn the_chips_table_is_read_again(rt: HostRuntime) -> Result<(), Fail> {
    let text = "2 set 33 0 1
2 reply 1 0 0 0 0
end power 1 1 1
end proc 2 1 1
end power 10 1 1
end slave 33 1 1
end power 62 1 1
";
    let whole = joined(rt.alloc(), &[LABORATORY_LOADED, LABORATORY_SETTLED, text])?;
    let table = written_table(&rt)?;
    let script = "ipi 1 21
ipi 1 13 33 1 0 2
";
    let asked = Asked {
        words: "replay obj script topo",
        topology: table.bytes(),
        ..replay_of(LABORATORY, script.as_bytes())
    };
    check(&rt, &asked, &whole, Exit::Done)
}

/// The text of `table`.
fn written_table(rt: &(impl Abort + AllocGlobal)) -> Result<MemSink, Fail> {
    let asked = Asked {
        words: "table",
        ..replay_of(LABORATORY, b"")
    };
    let modules = Modules::new(rt.alloc())?;
    let mut tasks = Tasks::new(rt.alloc(), 0)?;
    let mut device = model(rt.alloc())?;
    let mut out = MemSink::new(rt.alloc(), None)?;
    let _exit = run_on(
        rt.alloc(),
        &asked,
        &mut out,
        &mut *device,
        &modules,
        &mut tasks,
    )?;
    Ok(out)
}
