//! Where named inputs are read from.

ghost use Rattle.std.specs.Prelude.{◌≡◌, false, ◌<◌, ◌≤◌, ◌↔◌, [], length, take, Some, None, IsErr, IfOk, MatchResult};
ghost use Rattle.pm_io.specs.Calls.{Begin, Read, is_answered};
ghost use Rattle.pm_base.specs.Faults.{HasCause};
ghost use Rattle.pm_io.specs.Inputs.{rest, Adds, IsStuck, Moment, Took, Began, Stayed, CannotBegin};

use pm_base::Failed;

/// A source of named inputs, each of which is read from its front.
///
/// No call changes what is shown of a name. The count of faults is a `u64` that never falls and
/// stands still at its last value. Each call adds itself to the calls that are shown.
pub trait Inputs {
    /// Whether contracts see what the inputs hold. They see nothing of the files of the host.
    ghost observable: { Type 0 } = { ⊥ };

    /// What is shown at a moment, how many calls have failed, and the calls.
    ghost state: { Self → Moment };

    /// Begins the named input, and answers the number under which it is read from its front. What
    /// is left under other numbers stays.
    ///
    /// `Failed` comes only if the count of faults rose. If the inputs are observable, it
    /// comes exactly if the name isn't there or no more inputs can be begun.
    fn begin(&mut self, name: &str) -> Result<u32, Failed>
        ensures cause { HasCause (state self.old).faults (state self.new).faults result }
        ensures begun { observable → MatchResult result
            (λ id. Began name.now id (state self.old) (state self.new))
            (λ _. Stayed (state self.old) (state self.new)) }
        ensures failed { observable → IsErr result ↔ CannotBegin name.now (state self.old) }
        ensures logged { MatchResult result
            (λ id. Adds (Begin name.now (Some id)) (state self.old) (state self.new))
            (λ _. Adds (Begin name.now None) (state self.old) (state self.new)) };

    /// Takes the next bytes of the input `id` into the front of `buf`, and answers how many. They
    /// don't go past the name's least failing byte. For a `buf` that isn't empty, 0 is the end of
    /// the input. A number that no `begin` answered has nothing left, and gives nothing.
    ///
    /// `Failed` comes only if the count of faults rose, and takes nothing. If the
    /// inputs are observable, it comes exactly if the input stands at its name's least failing byte.
    fn read(&mut self, id: u32, buf: &mut [u8]) -> Result<usize, Failed>
        ensures bound { IfOk result (λ count. count ≤ length buf.new) }
        ensures cause { HasCause (state self.old).faults (state self.new).faults result }
        ensures taken { MatchResult result
            (λ count. Took observable id (take count buf.new) (state self.old) (state self.new))
            (λ _. Took observable id [] (state self.old) (state self.new)) }
        ensures end { observable → IfOk result (λ count.
            0 < length buf.new → count ≡ 0 ↔ (rest ((state self.old).input id) ≡ [])) }
        ensures failed { observable → IsErr result ↔ IsStuck ((state self.old).input id) }
        ensures logged { MatchResult result
            (λ count. Adds (Read id (Some (take count buf.new))) (state self.old) (state self.new))
            (λ _. Adds (Read id None) (state self.old) (state self.new)) }
        ensures unbegun { is_answered id (state self.old).calls ≡ false → IfOk result (λ count. count ≡ 0) }
        ensures left { observable → is_answered id (state self.old).calls ≡ false
            → rest ((state self.old).input id) ≡ [] };
}
