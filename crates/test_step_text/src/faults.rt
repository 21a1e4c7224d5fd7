//! The line and the exit of a fault.

use crate::rows::all_right;
use pm_base::Exit;
use pm_object::{ObjectCause, ObjectFault};
use pm_objtext::{TextCause, TextFault};
use pm_script::LineFault;
use pm_topofile::{TopoTextCause, TopoTextFault};
use pm_topology::{TopoCause, TopoFault};
use pm_trace::{Fault, TextLine, exit, write_fault};

/// A fault, its line and the exit.
static FAULTS: [(Fault, &str, Exit); 14] = [
    (Fault::Usage, "fault usage\n", Exit::Usage),
    (
        Fault::Object(ObjectFault {
            cause: ObjectCause::Trailing,
            offset: 23,
        }),
        "fault object 12 23\n",
        Exit::BadObject,
    ),
    (
        Fault::Text(TextFault {
            line: 1,
            cause: TextCause::Place,
        }),
        "fault text 1 2\n",
        Exit::BadText,
    ),
    (
        Fault::TopologyText(TopoTextFault {
            line: 4,
            cause: TopoTextCause::Parent,
        }),
        "fault text 4 3\n",
        Exit::BadText,
    ),
    (
        Fault::Topology(TopoFault {
            cause: TopoCause::NoMaster,
            place: 3,
        }),
        "fault topology 8 3\n",
        Exit::BadText,
    ),
    (
        Fault::Line(9, LineFault::Unknown),
        "fault line 9 1\n",
        Exit::BadLine,
    ),
    (
        Fault::Line(9, LineFault::Number),
        "fault line 9 2\n",
        Exit::BadLine,
    ),
    (
        Fault::Line(9, LineFault::Count),
        "fault line 9 3\n",
        Exit::BadLine,
    ),
    (
        Fault::Line(9, LineFault::Long),
        "fault line 9 4\n",
        Exit::BadLine,
    ),
    (
        Fault::Line(9, LineFault::NotAscii),
        "fault line 9 5\n",
        Exit::BadLine,
    ),
    (
        Fault::Line(16_777_216, LineFault::Unknown),
        "fault line 16777216 1\n",
        Exit::BadLine,
    ),
    (Fault::Read, "fault read\n", Exit::ReadFault),
    (Fault::Memory, "fault memory\n", Exit::Memory),
    (Fault::Size, "fault size\n", Exit::TooLarge),
];

fn wrong_fault() -> Option<usize> {
    let mut line = TextLine::new();
    for (place, (fault, text, wanted)) in FAULTS.iter().enumerate() {
        write_fault(*fault, &mut line);
        if line.as_slice() != text.as_bytes() || exit(*fault) != *wanted {
            return Some(place);
        }
    }
    None
}

#[test]
fn each_fault_is_its_line_and_its_exit(rt: HostRuntime) {
    all_right(&rt, wrong_fault());
}
