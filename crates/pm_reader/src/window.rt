//! A window of fixed size on an input.

ghost use Rattle.std.specs.Prelude.{◌≡◌, ◌↔◌, ◌+◌, ◌-◌, ◌<◌, ◌≤◌, ◌++◌, [], length, take, drop, Some, None, IfOk, OnErr, IsErr, MatchResult};
ghost use Rattle.pm_io.specs.Calls.{Read};
ghost use Rattle.pm_base.specs.Faults.{HasCause};
ghost use Rattle.pm_io.specs.Inputs.{Adds, IsStuck, Took, rest};
ghost use Rattle.pm_reader.specs.Window.{Filled};

use pm_base::Failed;
use pm_io::Inputs;
use std::marker::Model;

/// The bytes of an input that were read and not given, at most 4,096.
#[derive(Drop)]
pub struct Window {
    buf: [u8; 4096],
    start: usize,
    end: usize,
}

impl Model for Window {
    ghost use Rattle.std.specs.Prelude.{List as Sequence, ℕ, ◌-◌, take, drop};
    ghost use Rattle.pm_reader.specs.Window.{IsWindow};

    ghost Value = { Sequence ℕ };

    ghost view = { λ window. take (window.end - window.start) (drop window.start window.buf) };

    ghost invariant = { λ window. IsWindow window.start window.end };
}

/// Reads into a part of a buffer.
fn read_between<I: Inputs>(
    inputs: &mut I,
    id: u32,
    buf: &mut [u8],
    start: usize,
    stop: usize,
) -> Result<usize, Failed>
    requires order { start ≤ stop }
    requires stop { stop ≤ length buf.old }
    ensures bound { IfOk result (λ count. count ≤ stop - start) }
    ensures cause { HasCause (I.state inputs.old).faults (I.state inputs.new).faults result }
    ensures before { take start buf.new ≡ take start buf.old }
    ensures taken { MatchResult result
        (λ count. Took I.observable id (take count (drop start buf.new)) (I.state inputs.old) (I.state inputs.new))
        (λ _. Took I.observable id [] (I.state inputs.old) (I.state inputs.new)) }
    ensures end { I.observable → IfOk result
        (λ count. start < stop → count ≡ 0 ↔ (rest ((I.state inputs.old).input id) ≡ [])) }
    ensures failed { I.observable → IsErr result ↔ IsStuck ((I.state inputs.old).input id) }
    ensures logged { MatchResult result
        (λ count. Adds (Read id (Some (take count (drop start buf.new)))) (I.state inputs.old) (I.state inputs.new))
        (λ _. Adds (Read id None) (I.state inputs.old) (I.state inputs.new)) }
{
    inputs.read(id, &mut buf[start..stop])
}

impl Window {
    /// A window that holds nothing.
    pub fn new() -> Window
        ensures { result ≡ [] }
    {
        Window {
            buf: [0; 4096],
            start: 0,
            end: 0,
        }
    }

    /// The bytes in order.
    pub fn bytes(&self) -> &[u8]
        ensures { result.now ≡ self.now }
    {
        &self.buf[self.start..self.end]
    }

    /// Takes bytes off the front.
    pub fn consume(&mut self, count: usize)
        requires { count ≤ length self.old }
        ensures { self.new ≡ drop count self.old }
    {
        self.start += count;
    }

    /// Takes all bytes off.
    pub fn clear(&mut self)
        ensures { self.new ≡ [] }
    {
        self.start = self.end;
    }

    /// Reads at most so many bytes behind those that are there.
    pub fn fill<I: Inputs>(&mut self, inputs: &mut I, id: u32, most: usize) -> Result<usize, Failed>
        requires { length self.old < 4096 }
        ensures cause { HasCause (I.state inputs.old).faults (I.state inputs.new).faults result }
        ensures read { MatchResult result
            (λ count. Filled I.observable id most count self.old self.new (I.state inputs.old) (I.state inputs.new))
            (λ _. (self.new ≡ self.old) × Took I.observable id [] (I.state inputs.old) (I.state inputs.new)) }
        ensures failed { I.observable → IsErr result ↔ IsStuck ((I.state inputs.old).input id) }
        ensures logged { OnErr result (Adds (Read id None) (I.state inputs.old) (I.state inputs.new)) }
    {
        let held = self.end - self.start;
        self.buf.copy_within(self.start..self.end, 0);
        self.start = 0;
        self.end = held;
        let stop = held + most.min(4096 - held);
        let count = read_between(inputs, id, &mut self.buf, held, stop)?;
        self.end = held + count;
        Ok(count)
    }
}
