//! Boots, waits and interrupts: what the events that are no messages do to the processors.

ghost use Rattle.std.specs.Prelude.{◌≡◌, flat_map};
ghost use Rattle.pm_state.specs.Changes.{written_along, written_by};
ghost use Rattle.pm_procs.specs.Procs.{proc_at};
ghost use Rattle.pm_calls.specs.Events.{boot, wait, interrupt, raised, woken, woken_by, woken_from};
ghost use Rattle.pm_state.specs.Prims.{changed};
ghost use Rattle.pm_state.specs.Stages.{after_stages};

use pm_base::{Mode, NodeId};
use pm_rows::Entry;
use pm_state::{Changes, Tables};
use pm_topology::Kind;

/// Starts a processor at this address, as a boot loader does, if it is off and a configured master has it.
pub fn boot(tables: &mut Tables, changes: &mut Changes, node: NodeId, address: u64)
    ensures book { tables.new ≡ after_stages (boot node address tables.old) tables.old }
    ensures written { changes.new ≡ written_along (boot node address tables.old) tables.old changes.old }
{
    let Kind::Proc(p) = tables.kind(node) else {
        return;
    };
    let Some(m) = tables.owner(p) else {
        return;
    };
    if let Mode::Off = tables.procs().mode(p) {
        tables.proc_stage(m, p, Mode::Active, address, changes);
    }
}

/// Puts a suspending processor to sleep: it now waits for an interrupt. Any other node, and a processor that no
/// configured master has, is left as it is.
pub fn wait(tables: &mut Tables, changes: &mut Changes, node: NodeId)
    ensures book { tables.new ≡ after_stages (wait node tables.old) tables.old }
    ensures written { changes.new ≡ written_along (wait node tables.old) tables.old changes.old }
{
    let Kind::Proc(p) = tables.kind(node) else {
        return;
    };
    let Some(m) = tables.owner(p) else {
        return;
    };
    let proc = tables.procs().proc(p);
    if let Mode::Suspending = proc.mode {
        tables.proc_stage(m, p, Mode::Asleep, proc.address, changes);
    }
}

/// Wakes a processor by an interrupt of its own, if a configured master has it.
pub fn interrupt(tables: &mut Tables, changes: &mut Changes, node: NodeId)
    ensures book { tables.new ≡ after_stages (interrupt node tables.old) tables.old }
    ensures written { changes.new ≡ written_along (interrupt node tables.old) tables.old changes.old }
{
    let Kind::Proc(p) = tables.kind(node) else {
        return;
    };
    let Some(m) = tables.owner(p) else {
        return;
    };
    wake(tables, changes, m, p);
    tables.follow(changes);
}

/// Raises the interrupt of a slave: it wakes each processor with which a row on the slave is armed.
pub fn raise(tables: &mut Tables, changes: &mut Changes, node: NodeId)
    ensures book { tables.new ≡ after_stages (raised node tables.old) tables.old }
    ensures written { changes.new ≡ written_along (raised node tables.old) tables.old changes.old }
{
    let Kind::Slave(s) = tables.kind(node) else {
        return;
    };
    wake_armed(tables, changes, s);
    tables.follow(changes);
}

/// Wakes the processor of each armed row on the slave at place `s`.
fn wake_armed(tables: &mut Tables, changes: &mut Changes, s: usize)
    ensures book { tables.new ≡ changed (flat_map (woken_from s tables.old) tables.old.now.core.rows.entries) tables.old }
    ensures written { changes.new
        ≡ written_by (flat_map (woken_from s tables.old) tables.old.now.core.rows.entries) tables.old changes.old }
{
    for k in 0..tables.rows().len() {
        let entry = tables.rows().entry(k);
        wake_from(tables, changes, s, &entry);
    }
}

/// Wakes the processor of this row, if the row is on the slave at place `s` and armed.
fn wake_from(tables: &mut Tables, changes: &mut Changes, s: usize, entry: &Entry)
    ensures book { tables.new ≡ changed (woken_from s tables.old entry.now) tables.old }
    ensures written { changes.new ≡ written_by (woken_from s tables.old entry.now) tables.old changes.old }
{
    if entry.seed.slave == s {
        wake_node(tables, changes, entry.seed.master, entry.row.armed);
    }
}

/// Wakes the processor with which a row of the master at place `m` is armed, if it is armed.
fn wake_node(tables: &mut Tables, changes: &mut Changes, m: usize, armed: Option<NodeId>)
    ensures book { tables.new ≡ changed (woken_by m armed tables.old) tables.old }
    ensures written { changes.new ≡ written_by (woken_by m armed tables.old) tables.old changes.old }
{
    let Some(node) = armed else {
        return;
    };
    if let Kind::Proc(p) = tables.kind(node) {
        wake(tables, changes, m, p);
    }
}

/// Wakes the processor at place `p` of a master, if it is asleep or suspending. It keeps its resume address.
fn wake(tables: &mut Tables, changes: &mut Changes, m: usize, p: usize)
    ensures book { tables.new ≡ changed (woken m p (proc_at p tables.old.now.core.procs)) tables.old }
    ensures written { changes.new
        ≡ written_by (woken m p (proc_at p tables.old.now.core.procs)) tables.old changes.old }
{
    let proc = tables.procs().proc(p);
    match proc.mode {
        Mode::Asleep | Mode::Suspending => tables.put_proc(
            m,
            p,
            Mode::Active,
            proc.address,
            changes,
        ),
        Mode::Off | Mode::Active => {}
    }
}
