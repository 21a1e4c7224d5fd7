//! The words that the first lines of a script attach at addresses, joined.

ghost use Rattle.std.specs.Prelude.{◌≡◌, ◌+◌, ◌++◌, ◌-◌, ◌≤◌, ◌∷◌, [], List as Sequence, IfOk, OnOk, length, map, position, take};
ghost use Rattle.pm_block.specs.declared.block.Piece.{Piece};
ghost use Rattle.pm_block.specs.Pieces.{attached_in, is_at, kept, most_kept, takes, with_words};

use pm_base::{List, NoMemory, Words};
use pm_object::{Attached, Content, DecodeError, MOST_WORDS, bytes_of, decode};
use std::alloc::Global;
use std::marker::Model;

/// How many different addresses have something attached.
const MOST_ATTACHED: usize = 16;

/// How many words of an address are kept: one more than an object has, so that it is seen if there are too many.
const MOST_KEPT: usize = MOST_WORDS as usize + 1;

/// The words at an address.
#[derive(Debug, Drop)]
pub struct Piece {
    pub address: u32,
    pub words: List<u32>,
}

/// What lines attach. Contracts see the words that are kept at each address, in the order in which the addresses came
/// first. If these are what is kept of the pieces that the lines make, it answers as they say.
#[derive(Debug, Drop)]
pub struct Block {
    pieces: Vec<Piece>,
}

impl Model for Block {
    ghost use Rattle.std.specs.Prelude.{List as Sequence};
    ghost use Rattle.pm_block.specs.declared.block.Piece.{Piece};

    ghost Value = { Sequence Piece };

    ghost view = { λ block. block.pieces.items };
}

impl Block {
    /// Nothing is attached. It takes memory from `alloc` when it grows.
    pub fn new(alloc: Global) -> Block
        ensures { result ≡ [] }
    {
        Block {
            pieces: Vec::new(alloc),
        }
    }

    /// The place of the words at an address.
    fn place(&self, address: u32) -> Option<usize>
        ensures { result ≡ position (is_at address) self.now }
    {
        self.pieces
            .iter()
            .position(|piece| piece.address == address)
    }

    /// Whether words can be attached at an address: it has some, or few addresses do.
    pub fn takes(&self, address: u32) -> bool
        ensures { (pieces : Sequence Piece) → self.now ≡ map kept pieces → result ≡ takes address pieces }
    {
        self.place(address).is_some() || self.pieces.len() < MOST_ATTACHED
    }

    /// Attaches words at an address, behind those that are there.
    ///
    /// # Errors
    ///
    /// `NoMemory` if there is not enough memory.
    pub fn add(&mut self, alloc: Global, address: u32, words: &Words) -> Result<(), NoMemory>
        ensures { OnOk result ((pieces : Sequence Piece) → self.old ≡ map kept pieces
            → self.new ≡ map kept (with_words address words.now pieces)) }
    {
        match self.place(address) {
            Some(k) => self.pieces[k].extend(words),
            None => {
                let mut piece = Piece {
                    address,
                    words: List::new(alloc),
                };
                piece.extend(words)?;
                self.push(piece)
            }
        }
    }

    /// Puts the words of another address behind those of all others.
    fn push(&mut self, piece: Piece) -> Result<(), NoMemory>
        ensures { OnOk result (self.new ≡ self.old ++ piece ∷ []) }
    {
        self.pieces.push(piece).map_err(|_| NoMemory)
    }

    /// What is attached, each address once.
    ///
    /// # Errors
    ///
    /// `NoMemory` if there is not enough memory.
    pub fn attached(&self, alloc: Global) -> Result<List<Attached>, NoMemory>
        ensures { IfOk result (λ attached. (pieces : Sequence Piece) → self.now ≡ map kept pieces
            → attached ≡ map attached_in pieces) }
    {
        list_attached(alloc, &self.pieces)
    }
}

/// What is attached at each of these addresses.
fn list_attached(alloc: Global, pieces: &[Piece]) -> Result<List<Attached>, NoMemory>
    ensures { IfOk result (λ attached. attached ≡ map attached_in pieces.now) }
{
    let mut attached = List::new(alloc);
    for piece in pieces {
        attached.push(piece.attached(alloc)?)?;
    }
    Ok(attached)
}

impl Piece {
    /// Puts words behind those that are there, as long as there is room among those that are kept.
    fn extend(&mut self, words: &Words) -> Result<(), NoMemory>
        ensures address { self.new.address ≡ self.old.address }
        ensures words { OnOk result (self.new.words ≡ self.old.words
            ++ take (most_kept - length self.old.words) words.now) }
    {
        let room = MOST_KEPT.saturating_sub(self.words.len());
        push_words(&mut self.words, words, room.min(words.len()))
    }

    /// What is attached at the address: the object that the words spell, or the first thing that is wrong with them.
    fn attached(&self, alloc: Global) -> Result<Attached, NoMemory>
        ensures { IfOk result (λ attached. attached ≡ attached_in self.now) }
    {
        let bytes = bytes_of(alloc, self.words.as_slice())?;
        let content = match decode(alloc, &bytes) {
            Ok(object) => Content::Object(object),
            Err(DecodeError::Bad(fault)) => Content::Bad(fault),
            Err(DecodeError::Memory(error)) => return Err(error),
        };
        Ok(Attached {
            address: self.address,
            content,
        })
    }
}

/// Puts the first so many words at the end of a list.
fn push_words(list: &mut List<u32>, words: &Words, count: usize) -> Result<(), NoMemory>
    requires { count ≤ length words.now }
    ensures { OnOk result (list.new ≡ list.old ++ take count words.now) }
{
    for k in 0..count {
        list.push(*words.get(k))?;
    }
    Ok(())
}
