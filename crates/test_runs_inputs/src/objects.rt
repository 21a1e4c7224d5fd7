//! Runs over cut objects, and over bytes around the greatest size of an object.

use super::checks::check;
use pm_base::Exit;
use pm_top::OBJECT_LIMIT;
use std::process::Abort;
use std::test::Fail;
use test_fixtures::{Asked, USUAL, bytes_of};

/// Prints bytes that are no object: the row has the cause, and the number of words before the fault.
fn check_fault(
    rt: &(impl Abort + AllocGlobal),
    bytes: &[u8],
    cause: usize,
    words: usize,
) -> Result<(), Fail> {
    let asked = Asked {
        words: "print script",
        object: &[],
        script: bytes,
        failing: &[],
        topology: &[],
    };
    let text = format!(in rt.alloc(); "fault object {cause} {words}\n")?;
    check(rt, &asked, None, text.as_bytes(), Exit::BadObject)
}

#[test]
fn an_object_that_is_cut_at_each_byte(rt: HostRuntime) -> Result<(), Fail> {
    let bytes = bytes_of(rt.alloc(), USUAL)?;
    for length in 0..bytes.len() {
        let front = bytes.get(..length).ok_or("a front")?;
        // a missing word, or a cut word
        let cause = if length % 4 == 0 { 3 } else { 1 };
        check_fault(&rt, front, cause, length / 4)?;
    }
    Ok(())
}

/// A row: the number of zero bytes beyond the greatest size of an object, and the fault: too long, the header's first
/// word, or a cut word.
static ZEROS: [(usize, usize, usize); 3] = [(2, 2, 4096), (1, 4, 0), (0, 1, 4095)];

#[test]
fn bytes_about_the_limit(rt: HostRuntime) -> Result<(), Fail> {
    for (more, cause, words) in &ZEROS {
        let length = (OBJECT_LIMIT as usize - 1).saturating_add(*more);
        let zeros: Vec<u8> = vec![in rt.alloc(); 0; length]?;
        check_fault(&rt, &zeros, *cause, *words)?;
    }
    Ok(())
}
