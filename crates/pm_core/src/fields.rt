//! Which fields the book has.

ghost use Rattle.std.specs.Prelude.{IfOk};
ghost use Rattle.pm_topology.specs.WellFormed.{IsWellFormed};

use crate::book::Book;
use crate::outbox::Outbox;
use pm_base::{List, NoMemory};
use pm_chip::zynqmp;
use pm_object::Object;
use pm_topology::Topology;
use std::alloc::Global;
use std::test::Fail;

/// Takes a book apart by a pattern that names every field and has no rest, as each part with fields of its own takes
/// itself apart. A further field has to be named at its struct.
fn take_apart(book: &Book) {
    let Book {
        tables,
        caches,
        telling,
        changes,
        served: _,
    } = book;
    tables.name_fields();
    caches.name_fields();
    telling.name_fields();
    changes.name_fields();
}

/// The chip's own table.
fn chip(alloc: Global) -> Result<Topology, NoMemory>
    ensures formed { IfOk result IsWellFormed }
{
    zynqmp(alloc)
}

/// An object that configures no master.
fn empty_object(alloc: Global) -> Object {
    Object {
        extra: List::new(alloc),
        order: List::new(alloc),
        masters: List::new(alloc),
        slaves: List::new(alloc),
        groups: List::new(alloc),
        power: List::new(alloc),
        reset: List::new(alloc),
        shutdown: List::new(alloc),
        base_mask: 0,
        overlay_mask: 0,
        gpo: 0,
    }
}

/// Loads the book of an object on a chip, and takes it apart. Each large value is dropped whole, by `drop`.
fn load_and_take_apart(alloc: Global, object: Object, chip: Topology) -> Result<(), NoMemory>
    requires formed { IsWellFormed chip }
{
    match Outbox::load(alloc, &chip, object.masters.len()) {
        Ok(mut out) => {
            let loaded = Book::load(alloc, object, List::new(alloc), chip, &mut out);
            drop(out);
            let book = loaded?;
            take_apart(&book);
            drop(book);
            Ok(())
        }
        Err(error) => {
            drop(object);
            drop(chip);
            Err(error)
        }
    }
}

/// A book is loaded and taken apart into its fields.
#[test]
fn book_fields(rt: HostRuntime) -> Result<(), Fail> {
    let chip = chip(rt.alloc())?;
    let object = empty_object(rt.alloc());
    load_and_take_apart(rt.alloc(), object, chip)?;
    Ok(())
}
