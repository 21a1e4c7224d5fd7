//! What is read of a named input, up to a limit.

ghost use Rattle.std.specs.Prelude.{◌≡◌, ◌+◌, ◌<◌, ◌^◌, IfOk};
ghost use Rattle.pm_io.specs.Calls.{named};
ghost use Rattle.pm_io.specs.Given.{LeftGiven, NameGiven};
ghost use Rattle.pm_io.specs.Prefix.{ReadsRest, ReadsPrefix, text_of};
ghost use Rattle.pm_io.specs.Readings.{LeftRead, Meanwhile, NameRead};

use crate::inputs::Inputs;
use pm_base::{Failed, NoMemory};
use std::alloc::Global;
use std::marker::Model;

/// Why no more of an input was read.
#[derive(Clone, Copy, Debug, PartialEq, Eq)]
pub enum StopReason {
    /// The input gave all its bytes.
    End,
    /// The byte past the limit came, and is the last one.
    Limit,
    /// A read failed.
    Failure,
    /// The input could not be begun.
    Unbegun,
}

/// The bytes that were read of an input, and why no more were.
#[derive(Debug, Drop)]
pub struct Prefix {
    bytes: Vec<u8>,
    stop: StopReason,
}

impl Model for Prefix {
    ghost use Rattle.pm_io.specs.Prefix.{Prefix};

    ghost Value = { Prefix };

    ghost view = { λ prefix. record { bytes = prefix.bytes.items; stop = prefix.stop } };
}

impl Prefix {
    /// The bytes in order.
    pub fn bytes(&self) -> &[u8]
        ensures { result.now ≡ self.now.bytes }
    {
        self.bytes.as_slice()
    }

    /// The bytes that belong to lines of a text: a byte past the limit belongs to none.
    pub fn text(&self) -> &[u8]
        ensures { result.now ≡ text_of self.now }
    {
        match (self.stop, self.bytes.as_slice()) {
            (StopReason::Limit, [text @ .., _past]) => text,
            (_, bytes) => bytes,
        }
    }

    /// Why no more was read.
    pub fn stop(&self) -> StopReason
        ensures { result ≡ self.now.stop }
    {
        self.stop
    }
}

/// Reads a named input up to its end or to one byte past `limit` bytes.
pub fn gather<I: Inputs>(
    alloc: Global,
    inputs: &mut I,
    name: &str,
    limit: u32,
) -> Result<Prefix, NoMemory>
    ensures read { IfOk result
        (ReadsPrefix I.observable name.now limit (I.state inputs.old) (I.state inputs.new)) }
    // The name is begun, and read to its end or to one byte past the limit, or up to a call that failed; where memory
    // is wanted, up to somewhere. Nothing else is begun or read.
    ensures calls { Meanwhile (I.state inputs.old) (I.state inputs.new)
        (NameRead result (named name.now limit)) }
    // What was read is what these calls gave, of every source.
    ensures given { IfOk result (λ prefix.
        Meanwhile (I.state inputs.old) (I.state inputs.new) (NameGiven limit prefix)) }
{
    match inputs.begin(name) {
        Ok(id) => read_rest(alloc, inputs, id, limit),
        Err(Failed) => Ok(Prefix {
            bytes: Vec::new(alloc),
            stop: StopReason::Unbegun,
        }),
    }
}

/// Reads what is left of a begun input up to one byte past `limit` bytes.
fn read_rest<I: Inputs>(
    alloc: Global,
    inputs: &mut I,
    id: u32,
    limit: u32,
) -> Result<Prefix, NoMemory>
    ensures read { IfOk result
        (ReadsRest I.observable id limit (I.state inputs.old) (I.state inputs.new)) }
    ensures calls { Meanwhile (I.state inputs.old) (I.state inputs.new) (LeftRead result id (limit + 1)) }
    ensures given { IfOk result (λ prefix.
        Meanwhile (I.state inputs.old) (I.state inputs.new) (LeftGiven limit id prefix)) }
{
    let most = limit as usize + 1;
    let mut bytes = Vec::new(alloc);
    let mut window = [0u8; 4096];
    while bytes.len() < most {
        let part = window.len().min(most - bytes.len());
        match inputs.read(id, &mut window[..part]) {
            Ok(0) => return Ok(Prefix {
                bytes,
                stop: StopReason::End,
            }),
            Ok(count) => bytes
                .extend_from_slice(&window[..count])
                .map_err(|_| NoMemory)?,
            Err(Failed) => return Ok(Prefix {
                bytes,
                stop: StopReason::Failure,
            }),
        }
    }
    Ok(Prefix {
        bytes,
        stop: StopReason::Limit,
    })
}
