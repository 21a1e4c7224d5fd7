//! Rows of objects: their faults, their texts, and the effect of a preallocation.

use crate::checks::{Row, check, check_rows};
use pm_base::Exit;
use std::test::Fail;
use test_fixtures::{Asked, LABORATORY, OBJECT, bytes_of, replay_of};

/// Words and inputs of a run, its text, and its exit.
static ROWS: [Row; 11] = [
    // a preallocation of a slave that isn't listed
    Row {
        words: "replay obj script",
        object: &[2, 2, 1, 0x101, 1, 1, 1, 100, 0, 0, 0x103, 1, 1, 1, 33, 2],
        script: "ipi 1 1
",
        topology: "",
        text: "fault object 3 16
",
        exit: Exit::BadObject,
    },
    // a count that isn't followed by so many words
    Row {
        words: "replay obj script",
        object: &[2, 2, 1, 0x101, 1, 1, 1, 100, 0, 0, 0x102, 0xFFFFFFFF],
        script: "ipi 1 1
",
        topology: "",
        text: "fault object 3 12
",
        exit: Exit::BadObject,
    },
    // a section twice
    Row {
        words: "replay obj script",
        object: &[2, 2, 1, 0x101, 1, 1, 1, 100, 0, 0, 0x101],
        script: "ipi 1 1
",
        topology: "",
        text: "fault object 7 10
",
        exit: Exit::BadObject,
    },
    // one word after the end
    Row {
        words: "replay obj script",
        object: &[
            2, 2, 1, 0x101, 2, 1, 1, 100, 0, 0, 7, 0x100, 100, 0, 0, 0x102, 2, 11, 1, 0x101, 33, 0,
            1, 0,
        ],
        script: "ipi 1 1
",
        topology: "",
        text: "fault object 12 23
",
        exit: Exit::BadObject,
    },
    // the text of an object
    Row {
        words: "print obj",
        object: OBJECT,
        script: "",
        topology: "",
        text: "header
section masters
master 1 1 100 0 0
master 7 256 100 0 0
section slaves
slave 11 1 257
slave 33 0 1
",
        exit: Exit::Done,
    },
    // the text of an object with further words in its header
    Row {
        words: "print obj",
        object: &[3, 1, 1, 7, 0x101, 1, 1, 1, 100, 0, 0],
        script: "",
        topology: "",
        text: "header 7
section masters
master 1 1 100 0 0
",
        exit: Exit::Done,
    },
    // a text that lacks its header
    Row {
        words: "build script",
        object: OBJECT,
        script: "section masters
",
        topology: "",
        text: "fault text 1 2
",
        exit: Exit::BadText,
    },
    // a word too few
    Row {
        words: "replay obj",
        object: LABORATORY,
        script: "",
        topology: "",
        text: "fault usage
",
        exit: Exit::Usage,
    },
    // a word that is no master of the object
    Row {
        words: "reach obj 8",
        object: LABORATORY,
        script: "",
        topology: "",
        text: "fault node
",
        exit: Exit::BadText,
    },
    // a generated script of no line
    Row {
        words: "make 0",
        object: LABORATORY,
        script: "",
        topology: "",
        text: "fault number
",
        exit: Exit::BadText,
    },
    // a slave in use at the start of a master, by its preallocation
    Row {
        words: "replay obj script",
        object: &[
            2, 5, 1, 0x101, 2, 1, 1, 100, 0x100, 0x100, 7, 0x100, 100, 0, 0, 0x102, 5, 11, 1,
            0x101, 28, 0, 0x101, 33, 0, 1, 39, 0, 0x101, 46, 1, 0x101, 0x103, 1, 0x100, 1, 46, 0,
            0, 1, 0x104, 1, 10, 0x100, 0x105, 1, 33, 1,
        ],
        script: "ipi 1 21
boot 7 0
",
        topology: "",
        text: "0 set 10 0 1
0 set 62 0 1
0 set 1 0 1
0 set 2 0 1
0 set 11 0 2
0 set 28 0 1
0 set 33 0 1
0 set 39 0 1
0 set 46 0 1
0 run 2 0
1 set 11 2 0
1 set 28 1 0
1 set 33 1 0
1 set 39 1 0
1 set 46 1 0
1 reply 1 0 0 0 0
2 set 6 0 1
2 set 7 0 1
2 set 46 0 1
2 run 7 0
end power 1 1 1
end proc 2 1 1
end power 6 1 1
end proc 7 1 1
end power 10 1 1
end slave 46 1 1
end power 62 1 1
",
        exit: Exit::Done,
    },
];

#[test]
fn objects_are_read_printed_and_refused(rt: HostRuntime) -> Result<(), Fail> {
    check_rows(&rt, &ROWS)
}

/// A row: a text, and the words of its object.
static TEXTS: [(&str, &[u32]); 2] = [
    (
        "header
section masters
master 1 1 100 0 0
master 7 256 100 0 0
section slaves
slave 11 1 257
slave 33 0 1
",
        OBJECT,
    ),
    (
        "header 7
section masters
master 1 1 100 0 0
",
        &[3, 1, 1, 7, 0x101, 1, 1, 1, 100, 0, 0],
    ),
];

#[test]
fn a_text_becomes_the_bytes_of_its_object(rt: HostRuntime) -> Result<(), Fail> {
    for (text, object) in &TEXTS {
        let bytes = bytes_of(rt.alloc(), object)?;
        let asked = Asked {
            words: "build script",
            ..replay_of(OBJECT, text.as_bytes())
        };
        check(&rt, &asked, &bytes, Exit::Done)?;
    }
    Ok(())
}
