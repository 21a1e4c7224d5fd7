//! One exit for a value that is large to drop.

ghost use Rattle.std.specs.Prelude.{◌≡◌, IfOk, Ok};

/// A value and another, if that one is there. Else the first is dropped here, at a generic type, which is cheaper to prove
/// than an exit by `?` at the caller: that would drop it field by field.
pub fn with<T: Drop, U, E>(first: T, second: Result<U, E>) -> Result<(T, U), E>
    ensures { IfOk result (λ both. (both.0 ≡ first) × (second ≡ Ok both.1)) }
{
    match second {
        Ok(second) => Ok((first, second)),
        Err(error) => Err(error),
    }
}
