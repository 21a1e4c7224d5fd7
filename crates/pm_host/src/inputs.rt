//! The files of the host, as inputs of a run. Contracts see nothing of what they hold, but what each read gave.

ghost use Rattle.std.specs.Prelude.{◌≡◌, ◌≤◌, ◌++◌, ◌∷◌, [], None, Some, false, length, IfOk, IfSome, MatchOption};
ghost use Rattle.pm_io.specs.Calls.{Begin, is_answered};
ghost use Rattle.pm_host.specs.Opened.{moment_of};

use pm_base::{Failed, NoMemory};
use pm_io::{CallLog, Entry, Inputs};
use std::alloc::Global;
use std::fs;
use std::io::Read;
use std::marker::Model;
use std::rt::Files;

/// How many inputs a run begins at most.
const INPUTS: usize = 4;

/// Files by their paths. `new` takes all memory; that the host finds none for an opening or a read counts as a fault.
///
/// Contracts see how many calls have failed, and the calls.
#[derive(Drop)]
pub struct HostInputs<'a, R: Files> {
    files: &'a R,
    begun: Vec<R::File>,
    faults: u64,
    log: CallLog,
}

impl<'a, R: Files> Model for HostInputs<'a, R> {
    ghost use Rattle.std.specs.Prelude.{length};
    ghost use Rattle.pm_io.specs.Calls.{AnsweredBelow};
    ghost use Rattle.pm_host.specs.Opened.{Opened};

    ghost Value = { Opened };

    ghost view = { λ inputs. record { faults = inputs.faults; calls = inputs.log.calls } };

    ghost invariant = { λ inputs. AnsweredBelow (length inputs.begun.items) inputs.log.calls };
}

impl<'a, R: Files> HostInputs<'a, R> {
    /// All memory that the inputs take.
    pub fn new(alloc: Global, files: &'a R) -> Result<Self, NoMemory>
        ensures made { IfOk result (λ inputs. inputs ≡ record { faults = 0; calls = [] }) }
    {
        let begun = Vec::with_capacity(alloc, INPUTS).map_err(|_| NoMemory)?;
        Ok(HostInputs {
            files,
            begun,
            faults: 0,
            log: CallLog::new(),
        })
    }

    /// Opens a file, keeps it under the next number, and logs that.
    #[tactic(auto, using(pm_io::proofs::CallsLemmas::below_next))]
    fn open(&mut self, path: &str) -> Option<u32>
        ensures { MatchOption result (self.new ≡ self.old)
            (λ id. self.new ≡ record self.old { calls = self.old.calls ++ Begin path.now (Some id) ∷ [] }) }
    {
        let id = u32::try_from(self.begun.len()).ok()?;
        let file = fs::open(self.files, path).ok()?;
        self.begun.push(file).ok()?;
        self.log = self.log.then(&Entry::Begun(path, id));
        Some(id)
    }

    /// Reads from the file of a number.
    #[tactic(auto, using(pm_io::proofs::CallsLemmas::unanswered_past))]
    fn read_some(&mut self, id: u32, buf: &mut [u8]) -> Option<usize>
        ensures kept { self.new ≡ self.old }
        ensures bound { IfSome result (λ count. count ≤ length buf.new) }
        ensures unbegun { is_answered id self.old.calls ≡ false → result ≡ None }
    {
        self.begun.get_mut(id as usize)?.read(buf).ok()
    }
}

impl<R: Files> Inputs for HostInputs<'_, R> {
    ghost state = { moment_of };

    /// Opens a file by its name. Failed if the host doesn't, or gives no number that is free; then a fault is counted.
    #[tactic(auto, using(pm_io::proofs::CallsLemmas::below_still))]
    fn begin(&mut self, name: &str) -> Result<u32, Failed> {
        match self.open(name) {
            Some(id) => Ok(id),
            None => {
                self.faults = self.faults.saturating_add(1);
                self.log = self.log.then(&Entry::Unbegun(name));
                Err(Failed)
            }
        }
    }

    /// Reads some bytes of a file that was begun, 0 at its end. Failed if the host fails; then a fault is counted.
    #[tactic(auto, using(pm_io::proofs::CallsLemmas::below_still))]
    fn read(&mut self, id: u32, buf: &mut [u8]) -> Result<usize, Failed> {
        match self.read_some(id, buf) {
            Some(count) => {
                self.log = self.log.then(&Entry::Took(id, &buf[..count]));
                Ok(count)
            }
            None => {
                self.faults = self.faults.saturating_add(1);
                self.log = self.log.then(&Entry::Stuck(id));
                Err(Failed)
            }
        }
    }
}
