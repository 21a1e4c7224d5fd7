//! Scripts that are generated for a number of lines.

use pm_gen::make;
use std::alloc::Global;
use std::test::Fail;

/// Numbers of lines, and the whole script of each.
static SCRIPTS: [(u32, &str); 4] = [
    (1, "ipi 1 21\nboot 7 0\nipi 7 14 39\n"),
    (2, "ipi 1 21\nboot 7 0\nipi 1 15 39 0 0 2\nirq 46\n"),
    (3, "ipi 1 21\nboot 7 0\nipi 1 14 28\ngic 2\nipi 1 14 33\n"),
    (24, TWENTY_FOUR),
];

/// The script of 24 lines.
const TWENTY_FOUR: &str =
    "ipi 1 21\nboot 7 0\nboot 7 0\nipi 1 13 39 1 0 2\nipi 7 13 33 1 0 2\nboot 7 0\nwfi 2\nipi 1 15 46 0 0 2\nboot 7 0\nipi 7 15 11 1 0 2\nipi 1 7 2 0 0 0 0\nirq 46\nipi 1 13 11 1 0 2\nipi 7 13 39 1 0 2\nipi 7 14 11\nipi 1 13 11 1 0 2\nipi 1 14 11\nipi 7 13 11 1 0 2\nipi 1 11 2 46 1\nipi 1 13 11 1 0 2\nirq 46\ngic 2\nipi 1 14 11\nipi 1 14 46\nboot 7 0\nwfi 2\n";

fn wrong_script(alloc: Global) -> Result<Option<usize>, Fail> {
    for (place, (n, want)) in SCRIPTS.iter().enumerate() {
        if make(alloc, *n)?.as_slice() != want.as_bytes() {
            return Ok(Some(place));
        }
    }
    Ok(None)
}

#[test]
fn scripts_are_the_same_each_time(rt: HostRuntime) -> Result<(), Fail> {
    assert_eq!(rt; wrong_script(rt.alloc())?, None);
    Ok(())
}

/// Numbers of lines, the length of each script in bytes, and its last line.
static SIZES: [(u32, usize, &str); 2] = [
    (2_000, 26_647, "ipi 7 13 11 1 0 2\n"),
    (200_000, 2_672_055, "ipi 1 13 11 1 0 2\n"),
];

fn wrong_size(alloc: Global) -> Result<Option<usize>, Fail> {
    for (place, (n, size, last)) in SIZES.iter().enumerate() {
        let text = make(alloc, *n)?;
        if text.len() != *size || !text.as_slice().ends_with(last.as_bytes()) {
            return Ok(Some(place));
        }
    }
    Ok(None)
}

#[test]
fn large_scripts_have_their_size(rt: HostRuntime) -> Result<(), Fail> {
    assert_eq!(rt; wrong_size(rt.alloc())?, None);
    Ok(())
}
