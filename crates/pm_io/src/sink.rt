//! What takes the bytes that a run writes.

ghost use Rattle.std.specs.Prelude.{◌≡◌, ◌≤◌, [], length, take, IfOk, MatchResult};
ghost use Rattle.pm_base.specs.Faults.{HasCause};
ghost use Rattle.pm_io.specs.Sink.{SinkMoment, Appended, CountsStalls};

use pm_base::Failed;

/// What takes the bytes that a run writes.
///
/// The counts of faults and of stalls are `u64`s that never fall and stand still at their last
/// value.
pub trait Sink {
    /// Whether contracts see the bytes that the sink took.
    ghost observable: { Type 0 } = { ⊥ };

    /// The bytes so far, how many writes have failed, and how many took 0 of a piece that isn't
    /// empty.
    ghost state: { Self → SinkMoment };

    /// Appends first bytes of `piece`, and answers how many. Taking 0 of a piece that isn't empty
    /// is a fault of the sink by rule.
    ///
    /// `Failed` comes exactly if the count of faults rose, and appends nothing.
    fn write(&mut self, piece: &[u8]) -> Result<usize, Failed>
        ensures bound { IfOk result (λ count. count ≤ length piece.now) }
        ensures cause { HasCause (state self.old).faults (state self.new).faults result }
        ensures calm { IfOk result (λ _. (state self.new).faults ≡ (state self.old).faults) }
        ensures stalls { CountsStalls piece.now (state self.old) (state self.new) result }
        ensures appended { MatchResult result
            (λ count. Appended observable (take count piece.now) (state self.old) (state self.new))
            (λ _. Appended observable [] (state self.old) (state self.new)) };
}
