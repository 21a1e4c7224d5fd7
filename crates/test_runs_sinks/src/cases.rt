//! Runs of different words, over sinks of each length.

use super::checks::{check, check_uncommanded};
use pm_base::Exit;
use std::process::Abort;
use std::test::Fail;
use test_fixtures::Asked;

/// A case: words, an object, the bytes of a script or of a text, the input and the byte at which a read fails; then
/// the body, the fault line and the exit.
pub(crate) type Case = (
    &'static str,
    &'static [u32],
    &'static str,
    &'static [(u32, u32)],
    &'static str,
    &'static str,
    Exit,
);

pub(crate) fn asked_of(case: &Case) -> Asked<'static> {
    let (words, object, script, failing, _, _, _) = *case;
    Asked {
        words,
        object,
        script: script.as_bytes(),
        failing,
        topology: &[],
    }
}

/// Makes the runs of these cases over a sink of each length.
pub(crate) fn check_cases(rt: &(impl Abort + AllocGlobal), cases: &[Case]) -> Result<(), Fail> {
    for case in cases {
        let (_, _, _, _, body, fault, exit) = case;
        check_each_length(rt, &asked_of(case), body.as_bytes(), fault, *exit)?;
    }
    Ok(())
}

/// No node gets a command in any of these cases.
pub(crate) fn check_cases_uncommanded(
    rt: &(impl Abort + AllocGlobal),
    cases: &[Case],
) -> Result<(), Fail> {
    for case in cases {
        check_uncommanded(rt, &asked_of(case))?;
    }
    Ok(())
}

/// Makes a run over a sink of each length up to the whole text; each takes as much of the text as fits. If the sink
/// fails within the body the exit is WriteFault; if it fails on the fault line, even before its first byte, the exit
/// stays.
pub(crate) fn check_each_length(
    rt: &(impl Abort + AllocGlobal),
    asked: &Asked,
    body: &[u8],
    fault: &str,
    exit: Exit,
) -> Result<(), Fail> {
    let mut text = Vec::from_slice(rt.alloc(), body)?;
    text.extend_from_slice(fault.as_bytes())?;
    for length in 0..body.len() {
        check_length(rt, asked, &text, length, Exit::WriteFault)?;
    }
    for length in body.len()..text.len() {
        check_length(rt, asked, &text, length, exit)?;
    }
    check_length(rt, asked, &text, text.len(), exit)
}

/// Makes a run over a sink of one length.
fn check_length(
    rt: &(impl Abort + AllocGlobal),
    asked: &Asked,
    text: &[u8],
    length: usize,
    exit: Exit,
) -> Result<(), Fail> {
    let front = text.get(..length).ok_or("a front")?;
    check(rt, asked, u32::try_from(length).ok(), front, exit)
}

/// Makes the run of a case once for each of the first bytes of an input, at which a read fails. This is its text
/// then.
pub(crate) fn check_each_fault(
    rt: &(impl Abort + AllocGlobal),
    case: &Case,
    input: u32,
    bytes: u32,
    text: &[u8],
) -> Result<(), Fail> {
    for at in 0..bytes {
        let asked = Asked {
            failing: &[(input, at)],
            ..asked_of(case)
        };
        check(rt, &asked, None, text, Exit::ReadFault)?;
    }
    Ok(())
}
