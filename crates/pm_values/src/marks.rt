//! Marks of units, a bit for each.

ghost use Rattle.std.specs.Prelude.{◌≡◌, ℕ, ◌+◌, ◌<◌, ◌≤◌, ◌/◌, ◌%◌, IfOk, false, length, replicate, true};
ghost use Rattle.std.specs.Int.{bit_at};
ghost use Rattle.pm_values.specs.Kinds.{rests_at, with_bit, woken_at};

use pm_base::{NoMemory, at_or, with};
use std::alloc::Global;
use std::marker::Model;

/// How many units have their bits in one word.
const WORD: usize = 64;

/// Which units don't rest, by their places, and beside these the same as bits of words: a walk over the units passes
/// over those whose bit isn't set. Contracts see the marks of the units.
#[derive(Drop)]
pub struct Marks {
    units: Vec<bool>,
    words: Vec<u64>,
}

impl Model for Marks {
    ghost use Rattle.std.specs.Prelude.{Bool, List as Sequence};
    ghost use Rattle.pm_values.specs.Kinds.{AreInWords};

    ghost Value = { Sequence Bool };

    ghost view = { λ marks. marks.units.items };

    ghost invariant = { λ marks. AreInWords marks.units.items marks.words.items };
}

impl Marks {
    /// So many units, all of which rest.
    pub(crate) fn load(alloc: Global, units: usize) -> Result<Marks, NoMemory>
        ensures { IfOk result (λ marks. marks ≡ replicate units false) }
    {
        let marks = unmarked(alloc, units)?;
        let words = no_bits(alloc, units / WORD + 1);
        let (units, words) = with(marks, words)?;
        Ok(Marks { units, words })
    }

    /// The number of units.
    pub(crate) fn len(&self) -> usize
        ensures { result ≡ length self.now }
    {
        self.units.len()
    }

    /// The unit at a place doesn't rest from now on.
    pub(crate) fn wake(&mut self, k: usize)
        ensures { self.new ≡ woken_at k self.old }
    {
        mark(k, &mut self.units);
        set_bit(k, &mut self.words);
    }

    /// No unit rests.
    pub(crate) fn wake_all(&mut self)
        ensures { self.new ≡ replicate (length self.old) true }
    {
        self.units.fill(true);
        self.words.fill(u64::MAX);
    }

    /// All units rest.
    pub(crate) fn rest_all(&mut self)
        ensures { self.new ≡ replicate (length self.old) false }
    {
        self.units.fill(false);
        self.words.fill(0);
    }

    /// The next unit after this one that doesn't rest, or the number of units.
    pub(crate) fn past(&self, k: usize) -> usize
        requires { k < length self.now }
        ensures more { k < result }
        ensures most { result ≤ length self.now }
        ensures all { (j : ℕ) → k < j → j < result → rests_at self.now j ≡ true }
    {
        let units = self.units.len();
        let next = k + 1;
        past_bits(next, at_or(&self.words, next / WORD, 0), units)
    }
}

/// The first place from this one on whose bit is set in the word of this place, and past the last bit of the word or the
/// last unit if none is.
fn past_bits(k: usize, word: u64, units: usize) -> usize
    requires { k ≤ units }
    ensures more { k ≤ result }
    ensures most { result ≤ units }
    ensures clear { (j : ℕ) → k ≤ j → j < result → (j / 64 ≡ k / 64) × (bit_at word (j % 64) ≡ 0) }
{
    let clear = clear_from(word, k % WORD);
    if units - k < clear { units } else { k + clear }
}

/// How many bits of a word from this one on aren't set, up to the first one that is.
fn clear_from(word: u64, bit: usize) -> usize
    requires { bit < 64 }
    ensures within { bit + result ≤ 64 }
    ensures clear { (i : ℕ) → bit ≤ i → i < bit + result → bit_at word i ≡ 0 }
{
    let left = word >> bit;
    if left == 0 {
        WORD - bit
    } else {
        left.trailing_zeros() as usize
    }
}

/// Marks a place, if it is there.
fn mark(k: usize, marks: &mut [bool])
    ensures { marks.new ≡ woken_at k marks.old }
{
    if k < marks.len() {
        marks[k] = true;
    }
}

/// Sets the bit of a place, if its word is there.
fn set_bit(k: usize, words: &mut [u64])
    ensures { words.new ≡ with_bit k words.old }
{
    let place = k / WORD;
    if place < words.len() {
        words[place] |= 1u64 << (k % WORD);
    }
}

/// So many words, none of whose bits is set.
fn no_bits(alloc: Global, words: usize) -> Result<Vec<u64>, NoMemory>
    ensures { IfOk result (λ bits. bits.items ≡ replicate words 0) }
{
    Vec::from_elem(alloc, 0, words).map_err(|_| NoMemory)
}

/// So many places, none of which is marked.
fn unmarked(alloc: Global, places: usize) -> Result<Vec<bool>, NoMemory>
    ensures { IfOk result (λ marks. marks.items ≡ replicate places false) }
{
    Vec::from_elem(alloc, false, places).map_err(|_| NoMemory)
}
