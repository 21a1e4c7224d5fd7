//! Texts that are refused: the first bad line with its first cause, or the first rule that the topology breaks.

use crate::rows::all_right;
use pm_topofile::{TopoTextCause, TopoTextFault, TopologyError, read_topology};
use pm_topology::{TopoCause, TopoFault};
use std::alloc::Global;
use std::test::Fail;

/// A text, the first bad line and its cause.
static BAD: [(&str, u32, TopoTextCause); 33] = [
    // words, counts and numbers
    ("chip 1\n", 1, TopoTextCause::Form),
    ("Power 1 none 0 0 0\n", 1, TopoTextCause::Form),
    ("power 1 none 0 0\n", 1, TopoTextCause::Form),
    ("power 1 none 0 0 0 0\n", 1, TopoTextCause::Form),
    ("power 1 none 2 0 0\n", 1, TopoTextCause::Form),
    ("power 1 None 0 0 0\n", 1, TopoTextCause::Form),
    ("power none none 0 0 0\n", 1, TopoTextCause::Form),
    ("power 4294967296 none 0 0 0\n", 1, TopoTextCause::Form),
    ("power 1 none 0 0 0#\n", 1, TopoTextCause::Form),
    (
        "power 1 none 0 0 0\nproc 2 none 0 0\n",
        2,
        TopoTextCause::Form,
    ),
    ("power 1 none 0 0 0\nslave 2 none\n", 2, TopoTextCause::Form),
    (
        "power 1 none 0 0 0\nslave 2 1\nstate 8 0 0 0\n",
        3,
        TopoTextCause::Form,
    ),
    (
        "power 1 none 0 0 0\nslave 2 1\nstate 7 0 2 0\n",
        3,
        TopoTextCause::Form,
    ),
    ("owner 1\n", 1, TopoTextCause::Form),
    (
        "owner 1 2 2 2 2 2 2 2 2 2 2 2 2 2 2 2 2 2\n",
        1,
        TopoTextCause::Form,
    ),
    ("owner 1 none\n", 1, TopoTextCause::Form),
    ("line 1\n", 1, TopoTextCause::Form),
    ("\x01\n", 1, TopoTextCause::Form),
    // places
    ("state 0 0 0 0\n", 1, TopoTextCause::Place),
    ("line 1 none\npower 1 none 0 0 0\n", 2, TopoTextCause::Place),
    (
        "power 1 none 0 0 0\nproc 2 1 0 0\npower 3 1 0 0 0\n",
        3,
        TopoTextCause::Place,
    ),
    (
        "power 1 none 0 0 0\nslave 2 1\nproc 3 1 0 0\n",
        3,
        TopoTextCause::Place,
    ),
    (
        "power 1 none 0 0 0\nslave 2 1\nline 1 none\nstate 0 0 0 0\n",
        4,
        TopoTextCause::Place,
    ),
    (
        "power 1 none 0 0 0\nline 1 none\nslave 2 1\n",
        3,
        TopoTextCause::Place,
    ),
    ("owner 1 2\nline 1 none\n", 2, TopoTextCause::Place),
    // a wrong form counts before the place, and the place before the parent
    ("owner 1 2\nline 1 nobody\n", 2, TopoTextCause::Form),
    ("owner 1 2\nproc 2 1 0 0\n", 2, TopoTextCause::Place),
    // parents
    (
        "power 1 2 0 0 0\npower 2 none 0 0 0\n",
        1,
        TopoTextCause::Parent,
    ),
    ("power 1 1 0 0 0\n", 1, TopoTextCause::Parent),
    (
        "power 62 none 1 20 3000\nproc 7 61 100 200\n",
        2,
        TopoTextCause::Parent,
    ),
    ("power 1 none 0 0 0\nslave 2 3\n", 2, TopoTextCause::Parent),
    // the first bad line counts, even after empty lines and comments
    ("\n# none\nslave 2 3\nchip\n", 3, TopoTextCause::Parent),
    // a bad line counts before a broken rule
    (
        "power 1 none 0 0 0\npower 1 none 0 0 0\nchip\n",
        3,
        TopoTextCause::Form,
    ),
];

fn fault_of(alloc: Global, text: &[u8]) -> Option<(u32, TopoTextCause)> {
    match read_topology(alloc, text).err() {
        Some(TopologyError::Bad(TopoTextFault { line, cause })) => Some((line, cause)),
        _ => None,
    }
}

fn wrong_fault(alloc: Global) -> Option<usize> {
    for (place, (text, line, cause)) in BAD.iter().enumerate() {
        if fault_of(alloc, text.as_bytes()) != Some((*line, *cause)) {
            return Some(place);
        }
    }
    None
}

#[test]
fn the_first_bad_line_is_answered(rt: HostRuntime) {
    all_right(&rt, wrong_fault(rt.alloc()));
}

/// Numbers of spaces, and the fault.
static SPACES: [(usize, u32, TopoTextCause); 2] = [
    (256, 1, TopoTextCause::Form),
    (1_048_577, 0, TopoTextCause::Size),
];

fn wrong_spaces(alloc: Global) -> Result<Option<usize>, Fail> {
    for (place, (count, line, cause)) in SPACES.iter().enumerate() {
        let text = vec![in alloc; b' '; *count]?;
        if fault_of(alloc, text.as_slice()) != Some((*line, *cause)) {
            return Ok(Some(place));
        }
    }
    Ok(None)
}

#[test]
fn long_lines_and_long_texts_are_refused(rt: HostRuntime) -> Result<(), Fail> {
    all_right(&rt, wrong_spaces(rt.alloc())?);
    Ok(())
}

/// A row: a text of good lines, and the rule that its topology breaks, with the place.
static BROKEN: [(&str, TopoCause, usize); 10] = [
    (
        "power 1 none 0 0 0\npower 1 none 0 0 0\n",
        TopoCause::Repeated,
        1,
    ),
    ("power 1 none 0 0 0\nslave 2 1\n", TopoCause::NoStates, 0),
    (
        "power 1 none 0 0 0\nslave 2 1\nstate 1 0 0 0\nstate 0 0 0 0\n",
        TopoCause::LastNotFull,
        0,
    ),
    ("line 1 none\nline 2 3\n", TopoCause::BadTarget, 1),
    ("owner 1 2\n", TopoCause::BadMember, 0),
    // a master that comes again after another one has a second entry
    (
        "power 1 none 0 0 0\nproc 2 1 0 0\nproc 3 1 0 0\nowner 1 2\nowner 6 3\nowner 1 2\n",
        TopoCause::Repeated,
        2,
    ),
    // a processor that comes again in a later line of the same entry is named twice
    (
        "power 1 none 0 0 0\nproc 2 1 0 0\nowner 1 2\nowner 1 2\n",
        TopoCause::BadMember,
        0,
    ),
    (
        "power 1 none 0 0 0\nproc 2 1 0 0\nowner 1 2\nowner 6 2\n",
        TopoCause::Overlap,
        1,
    ),
    ("", TopoCause::NoMaster, 0),
    (
        "power 62 none 1 20 3000\nproc 2 62 0 0\nproc 7 62 0 0\nowner 1 2\nowner 6 7\nowner 7 7\n",
        TopoCause::NoMaster,
        3,
    ),
];

fn rule_of(alloc: Global, text: &[u8]) -> Option<(TopoCause, usize)> {
    match read_topology(alloc, text).err() {
        Some(TopologyError::Rule(TopoFault { cause, place })) => Some((cause, place)),
        _ => None,
    }
}

fn wrong_rule(alloc: Global) -> Option<usize> {
    for (row, (text, cause, place)) in BROKEN.iter().enumerate() {
        if rule_of(alloc, text.as_bytes()) != Some((*cause, *place)) {
            return Some(row);
        }
    }
    None
}

#[test]
fn the_first_broken_rule_is_answered(rt: HostRuntime) {
    all_right(&rt, wrong_rule(rt.alloc()));
}
