//! Topologies at the limits of their lists, and past them.

use crate::chip::chip;
use crate::rows::all_right;
use crate::topology_faults::{Found, first_fault};
use crate::topology_lists::{States, line, master, power, proc, slave};
use pm_base::NoMemory;
use pm_topology::{TopoCause, Topology};
use std::alloc::Global;
use std::test::Fail;

fn put_lines(chip: &mut Topology, from: u32, to: u32) -> Result<(), NoMemory> {
    for number in from..to {
        chip.lines.push(line((number, 2)))?;
    }
    Ok(())
}

fn put_slaves(alloc: Global, chip: &mut Topology, from: u32, to: u32) -> Result<(), NoMemory> {
    for number in from..to {
        chip.slaves.push(slave(alloc, (number, 0, States::Full))?)?;
    }
    Ok(())
}

fn put_procs(chip: &mut Topology, from: u32, to: u32) -> Result<(), NoMemory> {
    for number in from..to {
        chip.procs.push(proc((number, 0)))?;
    }
    Ok(())
}

fn put_powers(chip: &mut Topology, from: u32, to: u32) -> Result<(), NoMemory> {
    for number in from..to {
        chip.powers.push(power((number, None)))?;
    }
    Ok(())
}

/// Fills up each list of the chip to its limit: with 59 power nodes, 58 processors, 454 slaves and 960 reset lines.
fn put_all(alloc: Global, chip: &mut Topology) -> Result<(), NoMemory> {
    put_powers(chip, 6000, 6059)?;
    put_procs(chip, 5000, 5058)?;
    put_slaves(alloc, chip, 4000, 4454)?;
    put_lines(chip, 2000, 2960)
}

/// The first fault at the limits; and then with one entry too many, list by list from the last to the first.
fn found_past_limits(alloc: Global, chip: &mut Topology) -> Result<[Found; 6], NoMemory> {
    put_all(alloc, chip)?;
    let full = first_fault(chip);
    chip.masters.push(master(alloc, (9, &[2]))?)?;
    let masters = first_fault(chip);
    put_lines(chip, 2960, 2961)?;
    let lines = first_fault(chip);
    put_slaves(alloc, chip, 4454, 4455)?;
    let slaves = first_fault(chip);
    put_procs(chip, 5058, 5059)?;
    let procs = first_fault(chip);
    put_powers(chip, 6059, 6060)?;
    Ok([full, masters, lines, slaves, procs, first_fault(chip)])
}

/// The places of these faults.
static PLACES: [Option<usize>; 6] = [None, Some(4), Some(1024), Some(512), Some(64), Some(64)];

fn too_many(place: &Option<usize>) -> Found {
    match place {
        Some(place) => Some((TopoCause::TooMany, *place)),
        None => None,
    }
}

fn wrong_limit(found: &[Found]) -> Option<usize> {
    for (row, place) in PLACES.iter().enumerate() {
        if found.get(row).copied() != Some(too_many(place)) {
            return Some(row);
        }
    }
    None
}

#[test]
fn no_list_goes_over_its_limit(rt: HostRuntime) -> Result<(), Fail> {
    let mut chip = chip(rt.alloc())?;
    let found = found_past_limits(rt.alloc(), &mut chip)?;
    all_right(&rt, wrong_limit(&found));
    Ok(())
}
