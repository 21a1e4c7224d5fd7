//! A device follows a book: the commands of each step, and the kept values after them.

ghost use Rattle.pm_topology.specs.WellFormed.{IsWellFormed};
ghost use Rattle.pm_state.specs.Values.{value};
ghost use Rattle.pm_apply.specs.Carried.{AreMarked};
ghost use Rattle.pm_record.specs.Record.{IsRecordOf};

use crate::rows::all_right;
use pm_apply::{carry, carry_all, marks_suffice};
use pm_base::{Event, LineId, NoMemory, NodeId, Unit};
use pm_core::{Answer, Outbox};
use pm_device::{Device, ListedDevice, ModelDevice};
use pm_object::Object;
use pm_record::Kept;
use pm_topology::Topology;
use std::alloc::Global;
use std::test::Fail;
use test_books::{Desk, Trigger, boxed, chip, desk_with, event_of, message, object_of};

/// Masters 8 and 7. Master 7 may use slave 28 and reset its line.
const OBJECT: &[u32] = &[
    2, 3, 1, 0x101, 2, 8, 0x200, 100, 0, 0, 7, 0x100, 100, 0, 0, 0x102, 1, 28, 0, 0x100, 0x105, 1,
    28, 0x100,
];

/// A book with its outbox, and the record of a device that follows it.
#[derive(Drop)]
struct Drive {
    kept: Kept,
    desk: Box<Desk>,
    ghost record_of: { IsRecordOf desk.value.book.fixed.topology kept },
    ghost marks: { AreMarked desk.value.book.fixed.topology (λ u. value u desk.value.book) kept },
}

/// A book at load, after the commands of the load.
fn started<D: Device>(
    alloc: Global,
    object: Object,
    chip: Topology,
    dev: &mut D,
) -> Result<Drive, NoMemory>
    requires formed { IsWellFormed chip }
{
    match Kept::load(alloc, &chip) {
        Ok(mut kept) => match desk_with(alloc, object, chip) {
            Ok(mut boxed) => {
                let desk = &mut *boxed;
                carry_all(dev, &mut kept, &desk.book, &mut desk.out);
                Ok(Drive { kept, desk: boxed })
            }
            Err(error) => {
                drop(kept);
                Err(error)
            }
        },
        Err(error) => {
            drop((object, chip));
            Err(error)
        }
    }
}

/// A drive over the chip's own topology, after the load.
fn started_over<D: Device>(alloc: Global, object: Object, dev: &mut D) -> Result<Drive, NoMemory> {
    match chip(alloc) {
        Ok(chip) => started(alloc, object, chip, dev),
        Err(error) => {
            drop(object);
            Err(error)
        }
    }
}

/// A drive over the chip's own topology, after master 7 was started.
fn drive_of<D: Device>(alloc: Global, dev: &mut D) -> Result<Box<Drive>, Fail> {
    let object = object_of(alloc, OBJECT)?;
    let drive = started_over(alloc, Box::into_inner(object), dev)?;
    let mut drive = boxed(alloc, drive)?;
    drive.take(&event_of(Trigger::Boot(7, 0)), dev);
    Ok(drive)
}

/// A device of the chip that fails only commands on broken nodes.
fn model(alloc: Global) -> Result<Box<ModelDevice>, Fail> {
    let chip = boxed(alloc, chip(alloc)?)?;
    let dev = ModelDevice::new(alloc, &chip)?;
    Ok(boxed(alloc, dev)?)
}

/// A device of the chip that fails the commands with these numbers.
fn listed(alloc: Global, failing: &[u32]) -> Result<Box<ListedDevice>, Fail> {
    let chip = boxed(alloc, chip(alloc)?)?;
    let dev = ListedDevice::new(alloc, &chip, failing)?;
    Ok(boxed(alloc, dev)?)
}

/// A call of master 7 on node 28, with ACCESS.
fn call(api: u32) -> Event {
    call_on(api, 28, 1)
}

/// A call of master 7 with these first two arguments.
fn call_on(api: u32, first: u32, second: u32) -> Event {
    message(7, api, [first, second, 0, 2])
}

impl Drive {
    /// Takes an event, and carries out the commands of its step.
    fn take<D: Device>(&mut self, event: &Event, dev: &mut D) {
        marks_suffice();
        let desk = &mut *self.desk;
        desk.book.step(event, &mut desk.out);
        carry(dev, &mut self.kept, &desk.book, &mut desk.out);
    }
}

/// A command: the node, the value before, the commanded value, and whether the device took it.
type Done = (u32, u32, u32, bool);

/// A row: whether node 28 is broken, a call, its commands, and then some nodes with their kept value and mark.
type Turn = (bool, u32, &'static [Done], &'static [(u32, u32, bool)]);

fn are_done(out: &Outbox, commands: &[Done]) -> bool {
    let done = out.done.as_slice();
    for (place, wanted) in commands.iter().enumerate() {
        let found = match done.get(place) {
            Some(d) => (d.command.unit, d.from, d.command.value, d.ok),
            None => return false,
        };
        let (node, from, value, ok) = *wanted;
        if found != (Unit::Node(NodeId(node)), from, value, ok) {
            return false;
        }
    }
    done.len() == commands.len()
}

fn are_kept(kept: &Kept, nodes: &[(u32, u32, bool)]) -> bool {
    for (node, value, lags) in nodes {
        let unit = Unit::Node(NodeId(*node));
        if kept.value(unit) != *value || kept.lags(unit) != *lags {
            return false;
        }
    }
    true
}

fn wrong_turn<D: Device>(drive: &mut Drive, dev: &mut D, turns: &[Turn]) -> Option<usize> {
    for (place, (broken, api, commands, kept)) in turns.iter().enumerate() {
        dev.rig(NodeId(28), *broken);
        drive.take(&call(*api), dev);
        if !are_done(&drive.desk.out, commands) || !are_kept(&drive.kept, kept) {
            return Some(place);
        }
    }
    None
}

const REQUEST: u32 = 13;

const RELEASE: u32 = 14;

const STATUS: u32 = 3;

static UP: [Turn; 2] = [
    (false, REQUEST, &[(10, 0, 1, true), (28, 0, 1, true)], &[]),
    (false, STATUS, &[], &[]),
];

static DOWN: [Turn; 1] = [(
    false,
    RELEASE,
    &[(28, 1, 0, true), (10, 1, 0, true)],
    &[
        (62, 1, false),
        (10, 0, false),
        (28, 0, false),
        (99, 0, false),
    ],
)];

#[test]
fn a_domain_goes_up_before_its_slave_and_down_after_it(rt: HostRuntime) -> Result<(), Fail> {
    let mut dev = model(rt.alloc())?;
    let mut drive = drive_of(rt.alloc(), &mut *dev)?;
    assert!(rt; are_done(&drive.desk.out, &[(7, 0, 1, true)]));
    all_right(&rt, wrong_turn(&mut drive, &mut *dev, &UP));
    assert!(rt; dev.value(Unit::Node(NodeId(28))) == 1);
    all_right(&rt, wrong_turn(&mut drive, &mut *dev, &DOWN));
    Ok(())
}

/// The fifth command fails.
static SKIPPED: [Turn; 2] = [
    (
        false,
        REQUEST,
        &[(10, 0, 1, false)],
        &[(62, 1, false), (10, 0, true), (28, 0, true), (1, 0, false)],
    ),
    (
        false,
        STATUS,
        &[(10, 0, 1, true), (28, 0, 1, true)],
        &[(10, 1, false), (28, 1, false)],
    ),
];

#[test]
fn a_slave_is_skipped_while_its_domain_is_down(rt: HostRuntime) -> Result<(), Fail> {
    let mut dev = listed(rt.alloc(), &[5])?;
    let mut drive = drive_of(rt.alloc(), &mut *dev)?;
    all_right(&rt, wrong_turn(&mut drive, &mut *dev, &SKIPPED));
    Ok(())
}

/// Node 28 breaks while it is up, and is mended.
static BROKEN: [Turn; 3] = [
    (false, REQUEST, &[(10, 0, 1, true), (28, 0, 1, true)], &[]),
    (
        true,
        RELEASE,
        &[(28, 1, 0, false)],
        &[(28, 1, true), (10, 1, true), (62, 1, false)],
    ),
    (
        false,
        STATUS,
        &[(28, 1, 0, true), (10, 1, 0, true)],
        &[(28, 0, false), (10, 0, false)],
    ),
];

#[test]
fn a_domain_stays_up_over_a_slave_that_is_broken(rt: HostRuntime) -> Result<(), Fail> {
    let mut dev = model(rt.alloc())?;
    let mut drive = drive_of(rt.alloc(), &mut *dev)?;
    all_right(&rt, wrong_turn(&mut drive, &mut *dev, &BROKEN));
    Ok(())
}

/// The status and the words that the caller is answered.
fn told(out: &Outbox) -> (u32, [u32; 3]) {
    match out.answer {
        Answer::Reply { response, .. } => {
            let words = response.words;
            (response.status, words)
        }
        _ => (u32::MAX, [0; 3]),
    }
}

/// A row: whether node 28 is broken, a call, and the status and the words that the caller is answered.
type Told = (bool, u32, u32, [u32; 3]);

/// The node is broken when it is requested. Each later step tries it again.
static TOLD: [Told; 4] = [
    (true, REQUEST, 2000, [0, 0, 0]),
    (true, STATUS, 0, [1, 1, 1]),
    (false, STATUS, 0, [1, 1, 1]),
    (false, REQUEST, 2004, [0, 0, 0]),
];

fn wrong_told<D: Device>(drive: &mut Drive, dev: &mut D, turns: &[Told]) -> Option<usize> {
    for (place, (broken, api, status, words)) in turns.iter().enumerate() {
        dev.rig(NodeId(28), *broken);
        drive.take(&call(*api), dev);
        if told(&drive.desk.out) != (*status, *words) {
            return Some(place);
        }
    }
    None
}

#[test]
fn a_device_that_does_not_follow_is_an_internal_error(rt: HostRuntime) -> Result<(), Fail> {
    let mut dev = model(rt.alloc())?;
    let mut drive = drive_of(rt.alloc(), &mut *dev)?;
    all_right(&rt, wrong_told(&mut drive, &mut *dev, &TOLD));
    Ok(())
}

/// Whether exactly these commands were given to line 28: the value before, the commanded value, and whether the
/// device took it.
fn are_done_on_line(out: &Outbox, commands: &[(u32, u32, bool)]) -> bool {
    let done = out.done.as_slice();
    for (place, wanted) in commands.iter().enumerate() {
        let found = match done.get(place) {
            Some(d) => (d.command.unit, d.from, d.command.value, d.ok),
            None => return false,
        };
        let (from, value, ok) = *wanted;
        if found != (Unit::Line(LineId(28)), from, value, ok) {
            return false;
        }
    }
    done.len() == commands.len()
}

/// A row: the action of a reset of line 28, the commands on the line, its kept value and mark after them, and the
/// status that the caller is answered.
type Reset = (u32, &'static [(u32, u32, bool)], u32, bool, u32);

fn wrong_reset<D: Device>(drive: &mut Drive, dev: &mut D, resets: &[Reset]) -> Option<usize> {
    let line = Unit::Line(LineId(28));
    for (place, (action, commands, value, lags, status)) in resets.iter().enumerate() {
        drive.take(&call_on(17, 28, *action), dev);
        let kept = (drive.kept.value(line), drive.kept.lags(line));
        let told = told(&drive.desk.out).0;
        if !are_done_on_line(&drive.desk.out, commands)
            || kept != (*value, *lags)
            || told != *status
        {
            return Some(place);
        }
    }
    None
}

/// A pulse of a released line, and of an asserted one: the latter is the 0 alone. There is no action 3.
static LINES: [Reset; 8] = [
    (0, &[], 0, false, 0),
    (2, &[(0, 1, true), (1, 0, true)], 0, false, 0),
    (1, &[(0, 1, true)], 1, false, 0),
    (1, &[], 1, false, 0),
    (2, &[(1, 0, true)], 0, false, 0),
    (3, &[], 0, false, 15),
    (1, &[(0, 1, true)], 1, false, 0),
    (0, &[(1, 0, true)], 0, false, 0),
];

#[test]
fn a_line_is_pulsed_by_two_commands(rt: HostRuntime) -> Result<(), Fail> {
    let mut dev = model(rt.alloc())?;
    let mut drive = drive_of(rt.alloc(), &mut *dev)?;
    all_right(&rt, wrong_reset(&mut drive, &mut *dev, &LINES));
    Ok(())
}

/// The fifth command, the 1 of a pulse, fails: no 0 follows. The seventh, the 0 of a pulse of a line that is asserted,
/// fails: it is given again with the next step, which is refused. The tenth, the 0 of a whole pulse, fails: the line
/// didn't move, so the call succeeds.
static FAILING: [Reset; 6] = [
    (2, &[(0, 1, false)], 0, false, 2000),
    (1, &[(0, 1, true)], 1, false, 0),
    (2, &[(1, 0, false)], 1, true, 2000),
    (3, &[(1, 0, true)], 0, false, 15),
    (2, &[(0, 1, true), (1, 0, false)], 1, true, 0),
    (3, &[(1, 0, true)], 0, false, 15),
];

#[test]
fn a_pulse_may_fail(rt: HostRuntime) -> Result<(), Fail> {
    let mut dev = listed(rt.alloc(), &[5, 7, 10])?;
    let mut drive = drive_of(rt.alloc(), &mut *dev)?;
    all_right(&rt, wrong_reset(&mut drive, &mut *dev, &FAILING));
    Ok(())
}
