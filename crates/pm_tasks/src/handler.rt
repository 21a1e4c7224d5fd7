//! What is called when its time has come.

ghost use Rattle.std.specs.Prelude.{◌≡◌, ℕ, ◌+◌, ◌%◌, ◌^◌, IfSome, Option, None};

/// Is called when its time has come. Its meaning is how often it was called, modulo 2^32, and the time of its last call,
/// where it keeps that.
pub trait Handler: Drop {
    ghost calls: { Self → ℕ };

    ghost last: { Self → Option ℕ } = { λ _. None };

    /// A call at a time. Answers how often it was called, this call included.
    fn fire(&mut self, at: u64) -> u32
        ensures counted { calls self.new ≡ (calls self.old + 1) % 2 ^ 32 }
        ensures answer { result ≡ calls self.new }
        ensures time { IfSome (last self.new) (λ time. time ≡ at) };
}

/// A boxed handler is called as often as the one inside.
impl Handler for Box<dyn Handler> {
    ghost calls = { λ held. (Handler-box held).calls held.value };

    ghost last = { λ held. (Handler-box held).last held.value };

    /// Calls the handler in the box.
    fn fire(&mut self, at: u64) -> u32 {
        (**self).fire(at)
    }
}

/// Counts its calls, and does nothing else.
#[derive(Drop)]
pub struct Counter {
    pub calls: u32,
}

impl Handler for Counter {
    ghost calls = { λ counter. counter.calls };

    /// Counts its calls, modulo 2^32, whatever the time.
    fn fire(&mut self, _at: u64) -> u32 {
        self.calls = self.calls.wrapping_add(1);
        self.calls
    }
}
