//! The devices in memory, driven through the trait of devices.

use crate::chip::chip;
use crate::rows::{all_right, boxed};
use pm_base::{Command, LineId, NodeId, Unit};
use pm_device::{Device, ListedDevice, ModelDevice};
use pm_topology::{LineDef, Topology};
use std::alloc::Global;
use std::test::Fail;

/// A device that follows each command.
fn model(alloc: Global) -> Result<Box<ModelDevice>, Fail> {
    let chip = chip(alloc)?;
    Ok(boxed(alloc, ModelDevice::new(alloc, &chip)?)?)
}

/// A device that fails the commands with these numbers.
fn listed(alloc: Global, failing: &[u32]) -> Result<Box<ListedDevice>, Fail> {
    let chip = chip(alloc)?;
    Ok(boxed(alloc, ListedDevice::new(alloc, &chip, failing)?)?)
}

fn node(number: u32) -> Unit {
    Unit::Node(NodeId(number))
}

fn line(number: u32) -> Unit {
    Unit::Line(LineId(number))
}

/// An act on a device: a command on a node or a reset line, with its value and whether it is expected to be taken; or
/// a node that is broken or mended.
#[derive(Clone, Copy)]
enum Act {
    Node(u32, u32, bool),
    Line(u32, u32, bool),
    Rig(u32, bool),
}

/// Does an act to any device. Returns whether it goes as expected.
fn goes<D: Device>(device: &mut D, act: Act) -> bool {
    let (unit, value, taken) = match act {
        Act::Node(number, value, taken) => (node(number), value, taken),
        Act::Line(number, value, taken) => (line(number), value, taken),
        Act::Rig(number, broken) => {
            device.rig(NodeId(number), broken);
            return true;
        }
    };
    device.command(Command { unit, value }).is_ok() == taken
}

/// The index of the first act on any device that doesn't go as expected.
fn wrong_act<D: Device>(device: &mut D, acts: &[Act]) -> Option<usize> {
    for (place, act) in acts.iter().enumerate() {
        if !goes(device, *act) {
            return Some(place);
        }
    }
    None
}

/// Acts on a device that fails on broken nodes, and on units that the chip lacks.
static MODEL: [Act; 16] = [
    Act::Node(62, 1, true),
    Act::Node(28, 1, true),
    Act::Line(28, 1, true),
    Act::Node(70, 1, false),
    Act::Line(62, 1, false),
    Act::Node(28, 0, true),
    Act::Rig(62, true),
    Act::Rig(28, true),
    Act::Rig(70, true),
    Act::Node(62, 7, false),
    Act::Line(28, 5, true),
    Act::Node(10, 1, true),
    Act::Rig(62, false),
    Act::Node(62, 3, true),
    Act::Node(28, 9, false),
    Act::Node(70, 1, false),
];

/// Units with their values after these acts.
static MODEL_VALUES: [(Unit, u32); 7] = [
    (Unit::Node(NodeId(62)), 3),
    (Unit::Node(NodeId(28)), 0),
    (Unit::Node(NodeId(10)), 1),
    (Unit::Node(NodeId(70)), 0),
    (Unit::Node(NodeId(1)), 0),
    (Unit::Line(LineId(28)), 5),
    (Unit::Line(LineId(62)), 0),
];

fn wrong_value(device: &ModelDevice) -> Option<usize> {
    for (place, (unit, value)) in MODEL_VALUES.iter().enumerate() {
        if device.value(*unit) != *value {
            return Some(place);
        }
    }
    None
}

#[test]
fn a_model_fails_on_broken_nodes_and_unknown_units(rt: HostRuntime) -> Result<(), Fail> {
    let mut device = model(rt.alloc())?;
    assert_eq!(rt; device.value(node(62)), 0);
    all_right(&rt, wrong_act(&mut *device, &MODEL));
    all_right(&rt, wrong_value(&device));
    Ok(())
}

/// Acts on a device that fails the commands 2 and 5, and commands on a line that the chip lacks.
static LISTED: [Act; 7] = [
    Act::Node(62, 1, true),
    Act::Node(62, 2, false),
    Act::Node(62, 3, true),
    Act::Rig(62, true),
    Act::Line(70, 1, false),
    Act::Line(11, 1, false),
    Act::Line(11, 2, true),
];

static LISTED_VALUES: [(Unit, u32); 3] = [
    (Unit::Node(NodeId(62)), 3),
    (Unit::Line(LineId(11)), 2),
    (Unit::Line(LineId(70)), 0),
];

fn wrong_listed(device: &ListedDevice) -> Option<usize> {
    for (place, (unit, value)) in LISTED_VALUES.iter().enumerate() {
        if device.value(*unit) != *value {
            return Some(place);
        }
    }
    None
}

#[test]
fn a_listed_device_fails_at_its_numbers(rt: HostRuntime) -> Result<(), Fail> {
    let mut device = listed(rt.alloc(), &[2, 5, 5, 0])?;
    all_right(&rt, wrong_act(&mut *device, &LISTED));
    all_right(&rt, wrong_listed(&device));
    all_right(&rt, wrong_act(&mut *device, &[Act::Node(62, 4, true)]));
    Ok(())
}

/// The chip's topology with one reset line more.
fn larger_chip(alloc: Global) -> Result<Box<Topology>, Fail> {
    let mut larger = chip(alloc)?;
    larger.lines.push(LineDef {
        line: LineId(62),
        target: None,
    })?;
    Ok(larger)
}

/// The acts that a device takes after it was fitted to the larger chip, whatever was broken before.
static FITTED: [Act; 4] = [
    Act::Node(28, 9, true),
    Act::Line(62, 1, true),
    Act::Node(62, 4, true),
    Act::Node(70, 1, false),
];

#[test]
fn a_fitted_model_has_the_units_of_its_chip(rt: HostRuntime) -> Result<(), Fail> {
    let mut device = model(rt.alloc())?;
    all_right(&rt, wrong_act(&mut *device, &MODEL));
    let larger = larger_chip(rt.alloc())?;
    device.fit(rt.alloc(), &larger)?;
    assert_eq!(rt; device.value(node(62)), 0);
    assert_eq!(rt; device.value(line(28)), 0);
    all_right(&rt, wrong_act(&mut *device, &FITTED));
    assert_eq!(rt; device.value(line(62)), 1);
    Ok(())
}

/// The numbers of commands go on after a fit.
#[test]
fn a_fitted_listed_device_fails_at_its_later_numbers(rt: HostRuntime) -> Result<(), Fail> {
    let mut device = listed(rt.alloc(), &[2])?;
    all_right(&rt, wrong_act(&mut *device, &[Act::Node(62, 3, true)]));
    let larger = larger_chip(rt.alloc())?;
    device.fit(rt.alloc(), &larger)?;
    assert_eq!(rt; device.value(node(62)), 0);
    all_right(
        &rt,
        wrong_act(
            &mut *device,
            &[Act::Line(62, 1, false), Act::Line(62, 1, true)],
        ),
    );
    Ok(())
}
