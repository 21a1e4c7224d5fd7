//! The words that a script line attaches.

ghost use Rattle.std.specs.Prelude.{◌≡◌, ◌<◌, ◌≤◌, ◌++◌, ◌∷◌, [], Some, length, slice_get};

use arrayvec::ArrayVec;
use std::marker::Model;

/// Some words of a configuration object, at most 128: no line of a script holds more. They take no memory. Contracts
/// see the list of them.
#[derive(Debug, PartialEq, Eq, Drop)]
pub struct Words {
    words: ArrayVec<u32, 128>,
}

impl Model for Words {
    ghost use Rattle.std.specs.Prelude.{List, ℕ};

    ghost Value = { List ℕ };

    ghost view = { λ words. words.words.items };

    ghost inverse = { λ items. record { words = record { items = items } } };
}

impl Words {
    /// No words.
    pub fn new() -> Words
        ensures { result ≡ [] }
    {
        Words {
            words: ArrayVec::new(),
        }
    }

    /// Puts a word at the end.
    pub fn push(&mut self, x: u32)
        requires { length self.old < 128 }
        ensures { self.new ≡ self.old ++ x ∷ [] }
    {
        self.words.push(x);
    }

    /// The number of words.
    pub fn len(&self) -> usize
        ensures count { result ≡ length self.now }
        ensures few { length self.now ≤ 128 }
    {
        self.words.len()
    }

    /// The word at place `k`, counted from 0.
    pub fn get(&self, k: usize) -> &u32
        requires { k < length self.now }
        ensures { slice_get self.now k ≡ Some result.now }
    {
        &self.words.as_slice()[k]
    }
}
