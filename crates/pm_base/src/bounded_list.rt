//! A list with room that is reserved when it is made.

ghost use Rattle.std.specs.Prelude.{◌≡◌, ◌<◌, ◌++◌, ◌∷◌, [], Some, length, slice_get, IfOk};

use crate::errors::NoMemory;
use std::alloc::Global;
use std::marker::Model;

/// A list with room that is reserved when it is made, so that to put something in takes no memory.
/// Contracts see its items and its room.
#[derive(Debug, Drop)]
pub struct BoundedList<T> {
    items: Vec<T>,
    room: usize,
}

impl<T> Model for BoundedList<T> {
    ghost use Rattle.std.specs.Prelude.{◌≤◌, vec_capacity};
    ghost use Rattle.pm_base.specs.BoundedList.{Bounded, bounded_code};

    ghost Value = { Bounded T };

    ghost coded = { bounded_code T.code };

    ghost view = { λ list. record { items = list.items.items; room = list.room } };

    ghost invariant = { λ list. list.room ≤ vec_capacity list.items };
}

impl<T> BoundedList<T> {
    /// An empty list with room for so many items.
    ///
    /// # Errors
    ///
    /// `NoMemory` if there is not enough memory.
    pub fn with_room(alloc: Global, room: usize) -> Result<Self, NoMemory>
        ensures { IfOk result (λ list. list ≡ record { items = []; room = room }) }
    {
        let items = Vec::with_capacity(alloc, room).map_err(|_| NoMemory)?;
        Ok(BoundedList { items, room })
    }

    /// The number of items.
    pub fn len(&self) -> usize
        ensures { result ≡ length self.now.items }
    {
        self.items.len()
    }

    /// The item at place `k`, counted from 0.
    pub fn get(&self, k: usize) -> &T
        requires { k < length self.now.items }
        ensures { slice_get self.now.items k ≡ Some result.now }
    {
        &self.items[k]
    }

    /// The items in order.
    pub fn as_slice(&self) -> &[T]
        ensures { result.now ≡ self.now.items }
    {
        self.items.as_slice()
    }
}

impl<T: Drop> BoundedList<T> {
    /// Takes all items out.
    pub fn clear(&mut self)
        ensures { self.new ≡ record self.old { items = [] } }
    {
        self.items.clear();
    }

    /// Puts an item at the end, for which there is room.
    pub fn push(&mut self, item: T)
        requires room { length self.old.items < self.old.room }
        ensures { self.new ≡ record self.old { items = self.old.items ++ item ∷ [] } }
    {
        self.items.push(item).unwrap();
    }
}
