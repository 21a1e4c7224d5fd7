//! One input in memory, which stands under every name.

ghost use Rattle.std.specs.Prelude.{ℕ, ◌≡◌, false, ◌+◌, ◌<◌, ◌≤◌, ◌^◌, ◌↔◌, ⊤, [], drop, length, min, take, None, Some, Ok, IsErr, IfOk, MatchResult};
ghost use Rattle.pm_io.specs.Calls.{Begin, Read, is_answered};
ghost use Rattle.pm_base.specs.Faults.{HasCause};
ghost use Rattle.pm_io.specs.Inputs.{Adds, Began, CannotBegin, IsStuck, Stayed, Took, rest};
ghost use Rattle.pm_io.specs.OneInput.{moment_of, place_under};

use crate::calls::{CallLog, Entry};
use crate::inputs::Inputs;
use pm_base::{Failed, NoMemory};
use std::alloc::Global;
use std::marker::Model;

/// One input in memory: every name begins it at its front, under the number 0. No call of it fails.
///
/// Contracts see its bytes, the place of the next one that is read, where it was begun, and the calls.
#[derive(Drop)]
pub struct OneInput {
    content: Vec<u8>,
    place: Option<usize>,
    log: CallLog,
}

impl Model for OneInput {
    ghost use Rattle.pm_io.specs.OneInput.{WasBegun, OneContent};

    ghost Value = { OneContent };

    ghost view = { λ input. record { bytes = input.content.items; place = input.place; calls = input.log.calls } };

    ghost invariant = { λ input. WasBegun input.place input.log.calls };
}

impl OneInput {
    /// An input that has a copy of these bytes, and was not begun: no number has anything left to read.
    pub fn new(alloc: Global, content: &[u8]) -> Result<OneInput, NoMemory>
        ensures made { IfOk result (λ input. input ≡ record { bytes = content.now; place = None; calls = [] }) }
        ensures unbegun { IfOk result (λ input. (id : ℕ) → rest ((moment_of input).input id) ≡ []) }
    {
        let content = Vec::from_slice(alloc, content).map_err(|_| NoMemory)?;
        Ok(OneInput::of(content))
    }

    /// An input that has these bytes, which are not copied, and was not begun: no number has anything left to read.
    pub fn of(content: Vec<u8>) -> OneInput
        ensures made { result ≡ record { bytes = content.items; place = None; calls = [] } }
        ensures unbegun { (id : ℕ) → rest ((moment_of result).input id) ≡ [] }
    {
        OneInput {
            content,
            place: None,
            log: CallLog::new(),
        }
    }

    /// Takes the next bytes under a number, as `read` does, but doesn't log it.
    fn take_next(&mut self, id: u32, buf: &mut [u8]) -> usize
        ensures count { result ≡ min (length buf.new) (length (rest ((moment_of self.old).input id))) }
        ensures taken { Took ⊤ id (take result buf.new) (moment_of self.old) (moment_of self.new) }
        ensures kept { self.new ≡ record self.old { place = self.new.place } }
    {
        let Some(place) = place_under(id, self.place) else {
            return 0;
        };
        let count = copy_from(self.content.as_slice(), place, buf);
        self.place = Some(place + count);
        count
    }
}

impl Inputs for OneInput {
    ghost observable = { ⊤ };

    ghost state = { moment_of };

    /// The number is always 0, and the input stands at its front again.
    #[tactic(auto, using(crate::proofs::CallsLemmas::answered_last))]
    fn begin(&mut self, name: &str) -> Result<u32, Failed>
        ensures cause { HasCause (moment_of self.old).faults (moment_of self.new).faults result }
        ensures begun { MatchResult result
            (λ id. Began name.now id (moment_of self.old) (moment_of self.new))
            (λ _. Stayed (moment_of self.old) (moment_of self.new)) }
        ensures failed { IsErr result ↔ CannotBegin name.now (moment_of self.old) }
        ensures logged { MatchResult result
            (λ id. Adds (Begin name.now (Some id)) (moment_of self.old) (moment_of self.new))
            (λ _. Adds (Begin name.now None) (moment_of self.old) (moment_of self.new)) }

        // The number, and what stays.
        ensures number { result ≡ Ok 0 }
        ensures kept { self.new ≡ record self.old { place = Some 0; calls = self.new.calls } }
    {
        self.place = Some(0);
        self.log = self.log.then(&Entry::Begun(name, 0));
        Ok(0)
    }

    /// Takes as many bytes as are left and fit, under the number 0 once it was begun, and else none.
    #[tactic(auto, using(crate::proofs::OneInputLemmas::begun_still, crate::proofs::OneInputLemmas::unbegun_place))]
    fn read(&mut self, id: u32, buf: &mut [u8]) -> Result<usize, Failed>
        ensures bound { IfOk result (λ count. count ≤ length buf.new) }
        ensures cause { HasCause (moment_of self.old).faults (moment_of self.new).faults result }
        ensures taken { MatchResult result
            (λ count. Took ⊤ id (take count buf.new) (moment_of self.old) (moment_of self.new))
            (λ _. Took ⊤ id [] (moment_of self.old) (moment_of self.new)) }
        ensures end { IfOk result (λ count.
            0 < length buf.new → count ≡ 0 ↔ (rest ((moment_of self.old).input id) ≡ [])) }
        ensures failed { IsErr result ↔ IsStuck ((moment_of self.old).input id) }
        ensures logged { MatchResult result
            (λ count. Adds (Read id (Some (take count buf.new))) (moment_of self.old) (moment_of self.new))
            (λ _. Adds (Read id None) (moment_of self.old) (moment_of self.new)) }
        ensures unbegun { is_answered id self.old.calls ≡ false → result ≡ Ok 0 }
        ensures left { is_answered id self.old.calls ≡ false → rest ((moment_of self.old).input id) ≡ [] }

        // Exactly how much it takes, and what stays.
        ensures count { result ≡ Ok (min (length buf.new) (length (rest ((moment_of self.old).input id)))) }
        ensures bytes { self.new.bytes ≡ self.old.bytes }
    {
        let count = self.take_next(id, buf);
        self.log = self.log.then(&Entry::Took(id, &buf[..count]));
        Ok(count)
    }
}

/// The place at which an input that is read under a number stands.
fn place_under(id: u32, place: Option<usize>) -> Option<usize>
    ensures { result ≡ place_under id place }
{
    if id == 0 { place } else { None }
}

/// Copies as many bytes from a place on as there are and fit, and answers how many.
fn copy_from(content: &[u8], place: usize, buf: &mut [u8]) -> usize
    ensures count { result ≡ min (length buf.new) (length (drop place content.now)) }
    ensures front { take result buf.new ≡ take result (drop place content.now) }
    ensures fits { place + result < 2 ^ 64 }
{
    if content.len() <= place {
        return 0;
    }
    let from = &content[place..];
    let count = buf.len().min(from.len());
    buf[..count].copy_from_slice(&from[..count]);
    count
}
