//! Two books side by side, one of them without the messages of a master.

ghost use Rattle.std.specs.List.{AllByRecursion as Each, list_any};
ghost use Rattle.std.specs.Prelude.{◌≡◌, ◌==◌, IfOk, IsTrue, map};
ghost use Rattle.pm_base.specs.declared.events.Event.TheVariants.{Wfi};
ghost use Rattle.pm_object.specs.Grammar.{IsObject};
ghost use Rattle.pm_state.specs.Load.{load_of};
ghost use Rattle.pm_laws.specs.Beside.{IsOwn};
ghost use Rattle.pm_laws.specs.ReachBorder.{configured_place};
ghost use Rattle.test_two_runs.specs.Sides.{AreSides, at_4096};
ghost use Rattle.test_books.specs.SmallTable.{small};

use pm_base::{Event, List, NoMemory, NodeId};
use pm_core::Outbox;
use pm_laws::{books_agree, reach_is_closed, step_both, step_left};
use pm_object::{Attached, Content, Object, has_key};
use pm_perms::owner_of;
use pm_script::parse_line;
use pm_topology::Topology;
use pm_trace::{TextLine, entries, entry};
use std::alloc::Global;
use std::slice;
use std::test::Fail;
use test_books::{Desk, SMALL_OBJECT, boxed, desk_beside, object_of, small_chip};

/// The book of an object at load over the small chip, with attached objects, in a box.
pub(crate) fn desk_of(
    alloc: Global,
    object: Object,
    attached: List<Attached>,
) -> Result<Box<Desk>, NoMemory>
    ensures { IfOk result (λ desk. desk.value.book ≡ load_of object attached small) }
{
    match small_chip(alloc) {
        Ok(chip) => desk_beside(alloc, object, attached, chip),
        Err(error) => {
            drop((object, attached));
            Err(error)
        }
    }
}

/// The book of a copy of an object at load over the small chip, with copies of attached objects.
fn desk_of_copies(alloc: Global, object: &Object, others: &[Object]) -> Result<Box<Desk>, NoMemory>
    ensures { IfOk result (λ desk. desk.value.book ≡ load_of object.now (map at_4096 others.now) small) }
{
    let attached = attached_of(alloc, others)?;
    let object = object.copy(alloc)?;
    desk_of(alloc, object, Box::into_inner(attached))
}

/// These objects, each attached at address 4096, in a box.
fn attached_of(alloc: Global, objects: &[Object]) -> Result<Box<List<Attached>>, NoMemory>
    ensures { IfOk result (λ attached. attached.value ≡ map at_4096 objects.now) }
{
    let mut attached = boxed(alloc, List::new(alloc))?;
    for object in objects {
        attached.push(attached_one(alloc, object)?)?;
    }
    Ok(attached)
}

/// An equal object in memory of its own, attached at address 4096.
fn attached_one(alloc: Global, object: &Object) -> Result<Attached, NoMemory>
    ensures { IfOk result (λ attached. attached ≡ at_4096 object.now) }
{
    Ok(Attached {
        address: 4096,
        content: Content::Object(object.copy(alloc)?),
    })
}

/// The book with all messages, and the one without those of a master.
#[derive(Drop)]
pub(crate) struct Sides {
    pub(crate) loud: Box<Desk>,
    pub(crate) quiet: Box<Desk>,
}

/// Both books at load, if the number is that of a master of the object.
pub(crate) fn sides_of(alloc: Global, m: NodeId) -> Result<Sides, Fail>
    ensures { IfOk result (λ sides. AreSides m sides.loud.value.book sides.quiet.value.book) }
{
    let object = object_of(alloc, SMALL_OBJECT)?;
    sides_with(alloc, &object, &[], m)
}

/// Masters 1, which may set the configuration, and 8, and slave 46, which 1 alone may use.
const CONFIGURED: &[u32] = &[
    2, 3, 1, 0x101, 2, 1, 0x1, 100, 0, 0, 8, 0x200, 100, 0, 0, 0x102, 1, 46, 0, 0x1, 0x107, 0x1, 0,
];

/// Masters 1 and 8, and slave 46, which 8 alone may use.
const EXCHANGED: &[u32] = &[
    2, 2, 1, 0x101, 2, 1, 0x1, 100, 0, 0, 8, 0x200, 100, 0, 0, 0x102, 1, 46, 0, 0x200,
];

/// Both books at load over an object in which master 1 may set the configuration, with an attached object in which
/// slave 46 is master 8's.
pub(crate) fn configured_sides(alloc: Global, m: NodeId) -> Result<Sides, Fail>
    ensures { IfOk result (λ sides. AreSides m sides.loud.value.book sides.quiet.value.book) }
{
    let object = object_of(alloc, CONFIGURED)?;
    let other = object_of(alloc, EXCHANGED)?;
    sides_with(alloc, &object, slice::from_ref(&*other), m)
}

/// Both books of an object at load with attached objects, if the number is that of one of its masters.
fn sides_with(alloc: Global, object: &Object, others: &[Object], m: NodeId) -> Result<Sides, Fail>
    requires formed { IsObject object.now }
    requires others { Each IsObject others.now }
    ensures { IfOk result (λ sides. AreSides m sides.loud.value.book sides.quiet.value.book) }
{
    if has_key(object.masters.as_slice(), m.0) {
        let sides = sides_over(alloc, object, others, m)?;
        Ok(sides)
    } else {
        Err(Fail::from("no such master"))
    }
}

/// Both books, at load with attached objects, of an object that has the master.
fn sides_over(
    alloc: Global,
    object: &Object,
    others: &[Object],
    m: NodeId,
) -> Result<Sides, NoMemory>
    requires formed { IsObject object.now }
    requires others { Each IsObject others.now }
    requires named { IsTrue (list_any (λ r. r.node == m.0) object.now.masters) }
    ensures { IfOk result (λ sides. AreSides m sides.loud.value.book sides.quiet.value.book) }
{
    books_agree();
    reach_is_closed();
    let loud = desk_of_copies(alloc, object, others)?;
    let quiet = desk_of_copies(alloc, object, others)?;
    Ok(Sides { loud, quiet })
}

/// Steps one book by the event, and the other by its quiet event: nothing, if it is a message of the master.
fn step(loud: &mut Desk, quiet: &mut Desk, m: NodeId, event: &Event)
    requires { AreSides m loud.old.book quiet.old.book }
    ensures { AreSides m loud.new.book quiet.new.book }
{
    step_both(
        &mut loud.book,
        &mut quiet.book,
        m,
        event,
        &mut loud.out,
        &mut quiet.out,
    );
}

/// Steps both books by the event of a line, as `step` does.
pub(crate) fn step_line(
    loud: &mut Desk,
    quiet: &mut Desk,
    m: NodeId,
    line: &str,
) -> Result<(), Fail>
    requires { AreSides m loud.old.book quiet.old.book }
    ensures { AreSides m loud.new.book quiet.new.book }
{
    let event = parse_line(line.as_bytes())?;
    step(loud, quiet, m, &event);
    Ok(())
}

/// Whether the processor is the master's.
fn owns(object: &Object, t: &Topology, m: NodeId, proc: NodeId) -> bool
    ensures { IsTrue result → IsOwn object.now t.now m (Wfi proc) }
{
    owner_of(object, t, proc) == configured_place(object, m)
}

/// The place of the master in the object.
fn configured_place(object: &Object, m: NodeId) -> Option<usize>
    ensures { result ≡ configured_place object.now m }
{
    let masters = object.masters.as_slice();
    masters.iter().position(|record| record.node == m.0)
}

/// Lets a processor wait in one book, and steps the other by nothing, if the processor is the master's.
pub(crate) fn wait_alone(loud: &mut Desk, quiet: &mut Desk, m: NodeId, proc: NodeId) -> bool
    requires { AreSides m loud.old.book quiet.old.book }
    ensures { AreSides m loud.new.book quiet.new.book }
{
    let is_own = owns(loud.book.loaded(), loud.book.topology(), m, proc);
    if is_own {
        step_left(
            &mut loud.book,
            &mut quiet.book,
            m,
            &Event::Wfi { proc },
            &mut loud.out,
            &mut quiet.out,
        );
    }
    is_own
}

/// The lines of a step with this number.
fn text_of(alloc: Global, n: u32, out: &Outbox) -> Result<Vec<u8>, Fail> {
    let mut text = Vec::new(alloc);
    let mut line = TextLine::new();
    for k in 0..entries(out, &out.answer) {
        entry(n, out, &out.answer, k, &mut line);
        text.extend_from_slice(line.as_slice())?;
    }
    Ok(text)
}

/// Whether the lines of a step with this number are this text.
pub(crate) fn writes(alloc: Global, n: u32, out: &Outbox, text: &str) -> Result<bool, Fail> {
    let lines = text_of(alloc, n, out)?;
    Ok(lines.as_slice() == text.as_bytes())
}
