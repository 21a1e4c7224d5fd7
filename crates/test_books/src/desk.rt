//! A book with its outbox, in a box.

ghost use Rattle.std.specs.Prelude.{◌≡◌, [], IfOk};
ghost use Rattle.pm_object.specs.Grammar.{IsObject};
ghost use Rattle.pm_topology.specs.WellFormed.{IsWellFormed};
ghost use Rattle.pm_state.specs.Load.{load_of};
ghost use Rattle.pm_core.specs.Outbox.{HasRoomFor};

use crate::events::{Trigger, event_of, message};
use pm_base::{Event, List, NoMemory};
use pm_chip::zynqmp;
use pm_core::{Answer, Book, Outbox};
use pm_object::{Attached, Content, DecodeError, Object, decode};
use pm_topology::Topology;
use std::alloc::Global;
use std::test::Fail;

/// The chip's topology; its contract says only what a book asks for.
pub fn chip(alloc: Global) -> Result<Topology, NoMemory>
    ensures formed { IfOk result IsWellFormed }
{
    zynqmp(alloc)
}

/// A book, and the outbox of its steps.
#[derive(Drop)]
pub struct Desk {
    pub book: Book,
    pub out: Outbox,
    ghost room: { HasRoomFor book out },
}

/// The book at load with its outbox, in a box, so that its holder is small.
pub fn desk_with(alloc: Global, object: Object, chip: Topology) -> Result<Box<Desk>, NoMemory>
    requires formed { IsWellFormed chip }
    ensures chip { IfOk result (λ desk. desk.value.book.fixed.topology ≡ chip) }
    ensures fresh { IfOk result (λ desk. desk.value.out.done.items ≡ []) }
{
    desk_beside(alloc, object, List::new(alloc), chip)
}

/// The book at load with attached objects and its outbox, in a box.
pub fn desk_beside(
    alloc: Global,
    object: Object,
    attached: List<Attached>,
    chip: Topology,
) -> Result<Box<Desk>, NoMemory>
    requires formed { IsWellFormed chip }
    ensures loaded { IfOk result (λ desk. desk.value.book ≡ load_of object attached chip) }
    ensures chip { IfOk result (λ desk. desk.value.book.fixed.topology ≡ chip) }
    ensures fresh { IfOk result (λ desk. desk.value.out.done.items ≡ []) }
{
    match Outbox::load(alloc, &chip, object.masters.len()) {
        Ok(mut out) => match Book::load(alloc, object, attached, chip, &mut out) {
            Ok(book) => boxed(alloc, Desk { book, out }),
            Err(error) => {
                drop(out);
                Err(error)
            }
        },
        Err(error) => {
            drop((object, attached, chip));
            Err(error)
        }
    }
}

/// Puts a large value into a box. Its holder then drops one box at each exit, and not each field of the value.
/// Without enough memory the value is dropped here, where its type is generic: that costs less to prove.
pub fn boxed<T: Drop>(alloc: Global, value: T) -> Result<Box<T>, NoMemory>
    ensures { IfOk result (λ held. held.value ≡ value) }
{
    Box::new(alloc, value).map_err(|_| NoMemory)
}

/// The content of these words, attached at an address.
fn attached_at(alloc: Global, address: u32, words: &[u32]) -> Result<Attached, Fail> {
    let bytes = bytes_of(alloc, words)?;
    let content = match decode(alloc, &bytes) {
        Ok(object) => Content::Object(object),
        Err(DecodeError::Bad(fault)) => Content::Bad(fault),
        Err(DecodeError::Memory(error)) => return Err(error.into()),
    };
    Ok(Attached { address, content })
}

/// The contents of these lists of words, each attached at its address, in a box.
fn attached_of(alloc: Global, pieces: &[(u32, &[u32])]) -> Result<Box<List<Attached>>, Fail> {
    let mut attached = boxed(alloc, List::new(alloc))?;
    for (address, words) in pieces {
        attached.push(attached_at(alloc, *address, words)?)?;
    }
    Ok(attached)
}

/// The book at load over an object of these words, with words attached at addresses.
pub fn desk_attached(
    alloc: Global,
    words: &[u32],
    pieces: &[(u32, &[u32])],
) -> Result<Box<Desk>, Fail> {
    let object = object_of(alloc, words)?;
    let attached = attached_of(alloc, pieces)?;
    let chip = chip(alloc)?;
    Ok(desk_beside(
        alloc,
        Box::into_inner(object),
        Box::into_inner(attached),
        chip,
    )?)
}

/// The object of these words, in a box.
pub fn object_of(alloc: Global, words: &[u32]) -> Result<Box<Object>, Fail>
    ensures formed { IfOk result (λ object. IsObject object.value) }
{
    let bytes = bytes_of(alloc, words)?;
    let object = decode(alloc, &bytes)?;
    Ok(boxed(alloc, object)?)
}

/// The bytes of these words, in little-endian order.
pub fn bytes_of(alloc: Global, words: &[u32]) -> Result<Vec<u8>, Fail> {
    let mut bytes = Vec::new(alloc);
    for word in words {
        bytes.extend_from_slice(&word.to_le_bytes())?;
    }
    Ok(bytes)
}

/// The book at load over an object of these words.
pub fn desk_of(alloc: Global, words: &[u32]) -> Result<Box<Desk>, Fail> {
    let object = object_of(alloc, words)?;
    let chip = chip(alloc)?;
    Ok(desk_with(alloc, Box::into_inner(object), chip)?)
}

/// The book after master 1 has finished its initialization and master 7 is started.
pub fn settled(alloc: Global, words: &[u32]) -> Result<Box<Desk>, Fail> {
    let mut desk = desk_of(alloc, words)?;
    desk.take(&message(1, 21, [0; 4]));
    desk.take(&event_of(Trigger::Boot(7, 0)));
    Ok(desk)
}

impl Desk {
    /// Takes an event, and returns its answer.
    pub fn take(&mut self, event: &Event) -> Answer {
        self.book.step(event, &mut self.out);
        self.out.answer
    }
}
