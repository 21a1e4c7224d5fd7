//! Texts that are read, and the printed texts of their topologies.

use crate::rows::all_right;
use pm_chip::zynqmp;
use pm_topofile::{print_topology, read_topology};
use std::alloc::{AllocError, Global};
use std::test::Fail;

/// Two power nodes, three processors, a slave of two states, a reset line and four masters.
const SMALL: &str =
    "power 62 none 1 20 3000\npower 1 62 0 30 500\nproc 2 1 300 400\nproc 7 62 100 200\nproc 8 62 100 200\nslave 100 62\nstate 0 1000 0 0\nstate 1 0 1 5\nline 100 100\nowner 1 2\nowner 6 7\nowner 7 7\nowner 8 8\n";

/// A text in pieces.
type Text = [&'static str; 5];

/// The part that each text needs: a power node, four processors, and the four masters.
const POWER: &str = "power 90 none 0 0 0\n";

const PROCS: &str = "proc 91 90 0 0\nproc 92 90 0 0\nproc 93 90 0 0\nproc 94 90 0 0\n";

const OWNERS: &str = "owner 1 91\nowner 6 92\nowner 7 93\nowner 8 94\n";

/// Eighteen more processors.
const MORE: &str =
    "proc 100 90 0 0\nproc 101 90 0 0\nproc 102 90 0 0\nproc 103 90 0 0\nproc 104 90 0 0\nproc 105 90 0 0\nproc 106 90 0 0\nproc 107 90 0 0\nproc 108 90 0 0\nproc 109 90 0 0\nproc 110 90 0 0\nproc 111 90 0 0\nproc 112 90 0 0\nproc 113 90 0 0\nproc 114 90 0 0\nproc 115 90 0 0\nproc 116 90 0 0\nproc 117 90 0 0\n";

/// A row: a text, and the printed text of its topology.
static GOOD: [(Text, Text); 9] = [
    ([SMALL, "", "", "", ""], [SMALL, "", "", "", ""]),
    (
        [POWER, "", PROCS, "", OWNERS],
        [POWER, "", PROCS, "", OWNERS],
    ),
    // the last line without its line feed
    (
        [POWER, PROCS, OWNERS, "# the end", ""],
        [POWER, PROCS, OWNERS, "", ""],
    ),
    // blanks, comments, empty lines, carriage returns and both bases
    (
        [
            POWER,
            "# a chip\n\n power\t0x3E none 01 0x14 3000 # held\r\n",
            PROCS,
            "line 0 none\n#\n",
            OWNERS,
        ],
        [
            POWER,
            "power 62 none 1 20 3000\n",
            PROCS,
            "line 0 none\n",
            OWNERS,
        ],
    ),
    // the greatest numbers
    (
        [
            POWER,
            "power 4294967295 none 1 4294967295 0xFFFFFFFF\n",
            PROCS,
            "slave 1 4294967295\nstate 7 0 1 4294967295\n",
            OWNERS,
        ],
        [
            POWER,
            "power 4294967295 none 1 4294967295 4294967295\n",
            PROCS,
            "slave 1 4294967295\nstate 7 0 1 4294967295\n",
            OWNERS,
        ],
    ),
    // states belong to the last slave, even after a comment
    (
        [
            POWER,
            PROCS,
            "slave 2 90\nstate 0 0 0 0\nslave 3 90\n# two\nstate 1 5 1 2\n",
            "state 3 0 1 4\n",
            OWNERS,
        ],
        [
            POWER,
            PROCS,
            "slave 2 90\nstate 0 0 0 0\nslave 3 90\nstate 1 5 1 2\n",
            "state 3 0 1 4\n",
            OWNERS,
        ],
    ),
    // lines of one master are one entry, even after a comment
    (
        [
            POWER,
            PROCS,
            MORE,
            "owner 1 91\n\n# more\nowner 1 101 100\n",
            "owner 6 92\nowner 7 93\nowner 8 94\n",
        ],
        [
            POWER,
            PROCS,
            MORE,
            "owner 1 91 101 100\n",
            "owner 6 92\nowner 7 93\nowner 8 94\n",
        ],
    ),
    // sixteen processors in a line
    (
        [
            POWER,
            PROCS,
            MORE,
            "owner 6 92\nowner 7 93\nowner 8 94\nowner 1 100 101 102 103 104 105 106 107\n",
            "owner 1 108 109 110 111 112 113 114 115\n",
        ],
        [
            POWER,
            PROCS,
            MORE,
            "owner 6 92\nowner 7 93\nowner 8 94\n",
            "owner 1 100 101 102 103 104 105 106 107 108 109 110 111 112 113 114 115\n",
        ],
    ),
    // the others in lines of their own
    (
        [
            POWER,
            PROCS,
            MORE,
            "owner 1 100 101 102 103 104 105 106 107 108\nowner 1 109 110 111 112 113 114 115 116\n",
            "owner 6 92\nowner 7 93\nowner 8 94\n",
        ],
        [
            POWER,
            PROCS,
            MORE,
            "owner 1 100 101 102 103 104 105 106 107 108 109 110 111 112 113 114 115\nowner 1 116\n",
            "owner 6 92\nowner 7 93\nowner 8 94\n",
        ],
    ),
];

fn joined(alloc: Global, pieces: &Text) -> Result<Vec<u8>, AllocError> {
    let mut text = Vec::new(alloc);
    for piece in pieces {
        text.extend_from_slice(piece.as_bytes())?;
    }
    Ok(text)
}

/// Whether the topology of a text has this printed text.
fn is_printed(alloc: Global, text: &Text, want: &Text) -> Result<bool, Fail> {
    let text = joined(alloc, text)?;
    let want = joined(alloc, want)?;
    let Ok(topology) = read_topology(alloc, text.as_slice()) else {
        return Ok(false);
    };
    Ok(print_topology(alloc, &topology)?.as_slice() == want.as_slice())
}

fn wrong_text(alloc: Global) -> Result<Option<usize>, Fail> {
    for (place, (text, want)) in GOOD.iter().enumerate() {
        if !is_printed(alloc, text, want)? {
            return Ok(Some(place));
        }
    }
    Ok(None)
}

#[test]
fn each_text_is_read_and_printed(rt: HostRuntime) -> Result<(), Fail> {
    all_right(&rt, wrong_text(rt.alloc())?);
    Ok(())
}

/// Whether the printed table of the chip, read again, is printed as before.
fn is_read_again(alloc: Global) -> Result<bool, Fail> {
    let printed = print_topology(alloc, &zynqmp(alloc)?)?;
    let Ok(again) = read_topology(alloc, printed.as_slice()) else {
        return Ok(false);
    };
    Ok(print_topology(alloc, &again)?.as_slice() == printed.as_slice())
}

#[test]
fn the_printed_chip_is_read_again(rt: HostRuntime) -> Result<(), Fail> {
    assert!(rt; is_read_again(rt.alloc())?);
    Ok(())
}
