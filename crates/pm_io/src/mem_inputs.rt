//! Inputs in memory.

ghost use Rattle.std.specs.Prelude.{ℕ, ◌≡◌, false, ◌<◌, ◌≤◌, ◌↔◌, ◌⊎◌, ◌++◌, ◌∷◌, [], ⊤, min, length, take, None, Some, Ok, IsErr, IfOk, OnOk, OnErr, IsTrue, IsSome, is_ok, if◌then◌else◌, IsNone, IfSome, MatchOption, MatchResult, position, slice_get, unwrap_or, ◌+◌, ◌^◌};
ghost use Rattle.pm_io.specs.Calls.{Begin, Read, is_answered};
ghost use Rattle.pm_io.specs.Logged.{call_of};
ghost use Rattle.pm_base.specs.Faults.{HasCause, raised};
ghost use Rattle.pm_io.specs.Inputs.{rest, Adds, IsStuck, Advances, Took, Began, Stayed, CannotBegin};
ghost use Rattle.pm_io.specs.MemInputs.{most_begun, is_named, FoundFile, file_of, least_with, least_failing, reach_of, input_in, input_of, moment_of};

use crate::calls::{CallLog, Entry};
use crate::inputs::Inputs;
use crate::stored_file::StoredFile;
use pm_base::{Failed, NoMemory};
use std::alloc::Global;
use std::marker::Model;

/// How many inputs can be begun.
const MOST_BEGUN: usize = 16;

/// A begun input: the place of its file among the files, and that of its next byte.
#[derive(Clone, Copy, Debug)]
struct Reading {
    file: usize,
    place: usize,
}

/// Inputs in memory, some of whose reads fail. Sixteen of them can be begun.
///
/// Contracts see the reads that fail, the files, the begun inputs in the order of their numbers, how
/// many calls have failed, and the calls.
#[derive(Drop)]
pub struct MemInputs {
    alloc: Global,
    failing: Vec<(u32, u32)>,
    files: Vec<StoredFile>,
    begun: Vec<Reading>,
    faults: u64,
    log: CallLog,
}

impl Model for MemInputs {
    ghost use Rattle.std.specs.Prelude.{◌≤◌, length, vec_capacity};
    ghost use Rattle.pm_io.specs.Calls.{AnsweredBelow};
    ghost use Rattle.pm_io.specs.MemInputs.{StoredInputs, most_begun};

    ghost Value = { StoredInputs };

    ghost view = { λ inputs. record {
      failing = inputs.failing.items;
      files = inputs.files.items;
      begun = inputs.begun.items;
      faults = inputs.faults;
      calls = inputs.log.calls;
    } };

    ghost invariant = { λ inputs. record {
      room : most_begun ≤ vec_capacity inputs.begun;
      answered : AnsweredBelow (length inputs.begun.items) inputs.log.calls;
    } };
}

impl MemInputs {
    /// No files, and room for 16 begun inputs. No number has anything left to read. An entry `(f, at)` of `failing` makes each read of
    /// the file at place `f` fail that begins at byte `at`, and a read that begins earlier stops
    /// there.
    pub fn new(alloc: Global, failing: &[(u32, u32)]) -> Result<MemInputs, NoMemory>
        ensures made { IfOk result (λ inputs. inputs ≡ record {
          failing = failing.now;
          files = [];
          begun = [];
          faults = 0;
          calls = [];
        }) }
        ensures unbegun { IfOk result (λ inputs. (id : ℕ) → rest ((moment_of inputs).input id) ≡ []) }
    {
        let failing = Vec::from_slice(alloc, failing).map_err(|_| NoMemory)?;
        let begun = Vec::with_capacity(alloc, MOST_BEGUN).map_err(|_| NoMemory)?;
        Ok(MemInputs {
            alloc,
            failing,
            files: Vec::new(alloc),
            begun,
            faults: 0,
            log: CallLog::new(),
        })
    }

    /// Whether the name is there.
    pub fn has(&self, name: &str) -> bool
        ensures { IsTrue result ↔ IsSome (file_of name.now self.now.files) }
    {
        place_of(&self.files, name).is_some()
    }

    /// Puts a copy of the file at the next place, counted from 0. A refusal changes nothing.
    pub fn add(&mut self, name: &str, content: &[u8]) -> Result<(), NoMemory>
        requires { file_of name.now self.old.files ≡ None }
        ensures ok { OnOk result (self.new ≡ record self.old {
          files = self.old.files ++ record {
            name = name.now;
            file = record { bytes = content.now; fails_at = least_failing (length self.old.files) self.old.failing };
          } ∷ [];
        }) }
        ensures err { OnErr result (self.new ≡ self.old) }
    {
        let fails_at = least_failing(self.files.len(), &self.failing);
        let file = StoredFile::new(self.alloc, name, content, fails_at)?;
        self.files.push(file).map_err(|_| NoMemory)
    }

    /// Begins the file at a place under the next number.
    #[tactic(auto, using(crate::proofs::CallsLemmas::below_next))]
    fn start(&mut self, file: usize, name: &str) -> u32
        requires { length self.old.begun < most_begun }
        ensures number { result ≡ length self.old.begun }
        ensures begun { self.new ≡ record self.old {
          begun = self.old.begun ++ record { file = file; place = 0 } ∷ [];
          calls = self.old.calls ++ Begin name.now (Some result) ∷ [];
        } }
    {
        let id = self.begun.len();
        self.begun.push(Reading { file, place: 0 }).unwrap();
        self.log = self.log.then(&Entry::Begun(name, id as u32));
        id as u32
    }

    /// Takes the next bytes under a number, as `read` does, but neither logs nor counts it. A number past the last one
    /// has nothing left.
    #[tactic(auto, using(crate::proofs::CallsLemmas::unanswered_past))]
    fn take_next(&mut self, id: u32, buf: &mut [u8]) -> Option<usize>
        ensures bound { IfSome result (λ count. count ≤ length buf.new) }
        ensures taken { Took ⊤ id (take (unwrap_or result 0) buf.new) (moment_of self.old) (moment_of self.new) }
        ensures end { IfSome result (λ count.
            0 < length buf.new → count ≡ 0 ↔ (rest ((moment_of self.old).input id) ≡ [])) }
        ensures failed { IsNone result ↔ IsStuck ((moment_of self.old).input id) }
        ensures count { let input = (moment_of self.old).input id in
            IfSome result (λ count. count ≡ min (length buf.new) (reach_of input.file input.place)) }
        ensures unbegun { is_answered id self.old.calls ≡ false → length self.old.begun ≤ id }
        ensures past { length self.old.begun ≤ id → result ≡ Some 0 }
        ensures left { length self.old.begun ≤ id → rest ((moment_of self.old).input id) ≡ [] }
        ensures room { length self.new.begun ≡ length self.old.begun }
        ensures kept { self.new ≡ record self.old { begun = self.new.begun } }
    {
        let Some(reading) = reading_of(&self.begun, id) else {
            return Some(0);
        };
        let count = read_in(&self.files, reading, buf)?;
        self.begun[id as usize] = Reading {
            place: reading.place + count,
            ..reading
        };
        Some(count)
    }

    /// A call that failed is counted and logged.
    #[tactic(auto, using(crate::proofs::CallsLemmas::below_still))]
    fn fail(&mut self, call: &Entry<'_>) -> Failed
        ensures later { self.old.faults ≤ self.new.faults }
        ensures failed { self.new ≡ record self.old {
          faults = raised self.old.faults;
          calls = self.old.calls ++ call_of call.now ∷ [];
        } }
    {
        self.faults = self.faults.saturating_add(1);
        self.log = self.log.then(call);
        Failed
    }
}

impl Inputs for MemInputs {
    ghost observable = { ⊤ };

    ghost state = { moment_of };

    /// Numbers are given in order from 0.
    fn begin(&mut self, name: &str) -> Result<u32, Failed>
        ensures cause { HasCause self.old.faults self.new.faults result }
        ensures begun { MatchResult result
            (λ id. Began name.now id (moment_of self.old) (moment_of self.new))
            (λ _. Stayed (moment_of self.old) (moment_of self.new)) }
        ensures failed { IsErr result ↔ CannotBegin name.now (moment_of self.old) }
        ensures logged { MatchResult result
            (λ id. Adds (Begin name.now (Some id)) (moment_of self.old) (moment_of self.new))
            (λ _. Adds (Begin name.now None) (moment_of self.old) (moment_of self.new)) }

        // The number, and the count: each failure raises it, and nothing else does.
        ensures number { IfOk result (λ id. id ≡ length self.old.begun) }
        ensures faults { self.new.faults ≡ (if is_ok result then self.old.faults else raised self.old.faults) }
        ensures room { length self.new.begun
            ≡ (if is_ok result then length self.old.begun + 1 else length self.old.begun) }
        ensures kept { self.new
            ≡ record self.old { begun = self.new.begun; faults = self.new.faults; calls = self.new.calls } }
    {
        match place_of(&self.files, name) {
            Some(file) if self.begun.len() < MOST_BEGUN => Ok(self.start(file, name)),
            _ => Err(self.fail(&Entry::Unbegun(name))),
        }
    }

    /// No read under a number that `begin` didn't answer fails: it takes 0.
    #[tactic(auto, using(crate::proofs::CallsLemmas::below_still))]
    fn read(&mut self, id: u32, buf: &mut [u8]) -> Result<usize, Failed>
        ensures bound { IfOk result (λ count. count ≤ length buf.new) }
        ensures cause { HasCause self.old.faults self.new.faults result }
        ensures taken { MatchResult result
            (λ count. Took ⊤ id (take count buf.new) (moment_of self.old) (moment_of self.new))
            (λ _. Took ⊤ id [] (moment_of self.old) (moment_of self.new)) }
        ensures end { IfOk result (λ count.
            0 < length buf.new → count ≡ 0 ↔ (rest ((moment_of self.old).input id) ≡ [])) }
        ensures failed { IsErr result ↔ IsStuck ((moment_of self.old).input id) }
        ensures logged { MatchResult result
            (λ count. Adds (Read id (Some (take count buf.new))) (moment_of self.old) (moment_of self.new))
            (λ _. Adds (Read id None) (moment_of self.old) (moment_of self.new)) }
        ensures unbegun { is_answered id self.old.calls ≡ false → result ≡ Ok 0 }
        ensures left { is_answered id self.old.calls ≡ false → rest ((moment_of self.old).input id) ≡ [] }

        // Exactly how much it takes, and the count: each failure raises it, and nothing else does.
        ensures past { length self.old.begun ≤ id → result ≡ Ok 0 }
        ensures count { let input = (moment_of self.old).input id in
            IfOk result (λ count. count ≡ min (length buf.new) (reach_of input.file input.place)) }
        ensures faults { self.new.faults ≡ (if is_ok result then self.old.faults else raised self.old.faults) }
        ensures room { length self.new.begun ≡ length self.old.begun }
        ensures kept { self.new
            ≡ record self.old { begun = self.new.begun; faults = self.new.faults; calls = self.new.calls } }
    {
        match self.take_next(id, buf) {
            Some(count) => {
                self.log = self.log.then(&Entry::Took(id, &buf[..count]));
                Ok(count)
            }
            None => Err(self.fail(&Entry::Stuck(id))),
        }
    }
}

/// What was begun under a number, if anything was.
fn reading_of(begun: &[Reading], id: u32) -> Option<Reading>
    ensures { result ≡ slice_get begun.now id }
{
    begun.get(id as usize).copied()
}

/// Reads the file of a begun input at its place, as `StoredFile::read_at` does.
fn read_in(files: &[StoredFile], reading: Reading, buf: &mut [u8]) -> Option<usize>
    ensures failed { let input = input_of files.now (Some reading) in IsNone result ↔ IsStuck input }
    ensures count { let input = input_of files.now (Some reading) in
        IfSome result (λ count. count ≡ min (length buf.new) (reach_of input.file input.place)) }
    ensures end { let input = input_of files.now (Some reading) in
        IfSome result (λ count. 0 < length buf.new → count ≡ 0 ↔ (rest input ≡ [])) }
    ensures read { let file = slice_get files.now reading.file in IfSome result (λ count.
        Advances (input_in file reading.place) (input_in file (reading.place + count)) (take count buf.new)) }
    ensures fits { IfSome result (λ count. reading.place + count < 2 ^ 64) }
{
    match files.get(reading.file) {
        Some(file) => file.read_at(reading.place, buf),
        None => Some(0),
    }
}

/// The place of the first file of a name, if there is one.
fn place_of(files: &[StoredFile], name: &str) -> Option<usize>
    ensures { MatchOption result (file_of name.now files.now ≡ None) (FoundFile name.now files.now) }
{
    first_named(files, name)
}

/// The place of the first file of a name, if there is one.
fn first_named(files: &[StoredFile], name: &str) -> Option<usize>
    ensures { result ≡ position (is_named name.now) files.now }
{
    files.iter().position(|file| file.is_named(name))
}

/// The least byte at which a read of the file at this place fails.
fn least_failing(file: usize, failing: &[(u32, u32)]) -> Option<u32>
    ensures { result ≡ least_failing file failing.now }
{
    failing
        .iter()
        .fold(None, |found, entry| least_with(file, found, *entry))
}

/// The least byte at which a file fails, with one entry more: a file and such a byte.
fn least_with(file: usize, found: Option<u32>, entry: (u32, u32)) -> Option<u32>
    ensures { result ≡ least_with file found entry }
{
    match found {
        Some(at) if entry.0 as usize == file => Some(at.min(entry.1)),
        None if entry.0 as usize == file => Some(entry.1),
        _ => found,
    }
}
