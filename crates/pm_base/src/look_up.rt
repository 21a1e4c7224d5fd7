//! Looking up an item of a list by its place.

ghost use Rattle.std.specs.Prelude.{◌≡◌, slice_get, unwrap_or};

/// The item at a place, counted from 0, or this one if the list has no such place.
pub fn at_or<T: Copy>(items: &[T], place: usize, otherwise: T) -> T
    ensures { result ≡ unwrap_or (slice_get items.now place) otherwise }
{
    items.get(place).copied().unwrap_or(otherwise)
}
