//! The book at load.

ghost use Rattle.std.specs.Prelude.{◌≡◌, ◌≤◌, IfOk, IsTrue, length, map, slice_get};
ghost use Rattle.std.specs.List.{list_all};
ghost use Rattle.pm_procs.specs.Pending.{none_pending};
ghost use Rattle.pm_procs.specs.Procs.{all_off, members_at};
ghost use Rattle.pm_topology.specs.WellFormed.{IsWellFormed};
ghost use Rattle.pm_rows.specs.Counted.{is_placed_seed};
ghost use Rattle.pm_rows.specs.Rows.{loaded_rows};
ghost use Rattle.pm_state.specs.Boot.{active_at_load, boot_proc};
ghost use Rattle.pm_state.specs.Load.{IsHeld, IsRuled, load_of};
ghost use Rattle.pm_state.specs.Members.{members_of};
ghost use Rattle.pm_state.specs.Pairs.{seed_at_load};
ghost use Rattle.pm_state.specs.Prims.{procs_with};
ghost use Rattle.pm_state.specs.Sound.{IsSound};

use crate::chip::Chip;
use crate::counters::load as load_counted;
use crate::laws::loads_are_sound;
use crate::members::members_of;
use crate::objects::objects_in;
use crate::pairs::Permitted;
use crate::policies::{Policy, most_of, policies_of};
use crate::seeds::put_at_load;
use crate::tables::Tables;
use pm_base::{BoundedList, List, Mode, NoMemory, with};
use pm_notify::Notify;
use pm_object::{Attached, Object};
use pm_procs::{Proc, Procs};
use pm_resets::Resets;
use pm_rows::{RowSeed, Rows};
use pm_topology::Topology;
use std::alloc::Global;

impl Tables {
    /// A row for each permitted pair, with what the object preallocates for it. The first processor of
    /// the first master is active, and all others are off. All reset lines are released. Objects that
    /// are attached are kept beside the loaded one. No later call allocates, not even SET_CONFIGURATION.
    pub fn load(
        alloc: Global,
        object: Object,
        attached: List<Attached>,
        topology: Topology,
    ) -> Result<Tables, NoMemory>
        requires { IsWellFormed topology }
        ensures book { IfOk result (λ tables. tables ≡ load_of object attached topology) }
        ensures sound { IfOk result IsSound }
    {
        loads_are_sound();
        load_tables(alloc, object, attached, topology)
    }
}

/// The book at load.
fn load_tables(
    alloc: Global,
    object: Object,
    attached: List<Attached>,
    topology: Topology,
) -> Result<Tables, NoMemory>
    requires { IsWellFormed topology }
    ensures { IfOk result (λ tables. tables ≡ load_of object attached topology) }
{
    let parts = parts_of(alloc, &object, attached.as_slice(), &topology);
    let ((object, attached, topology), (held, ruled)) = with((object, attached, topology), parts)?;
    let (((object, attached), (held, ruled)), topology) = with(
        ((object, attached), (held, ruled)),
        Chip::load(alloc, topology),
    )?;
    Ok(Tables {
        object,
        attached,
        objects: ruled.objects,
        policies: ruled.policies,
        force: 0,
        seeds: ruled.seeds,
        topology,
        rows: ruled.rows,
        procs: held.procs,
        notify: held.notify,
        resets: held.resets,
        halted: false,
    })
}

/// What is kept of the processors, of the masters' notes and of the reset lines.
#[derive(Drop)]
struct Held {
    procs: Procs,
    notify: Notify,
    resets: Resets,
}

/// The objects of the run, what each of them permits, and the rows of the first one, with room for the seeds of rows of
/// any.
#[derive(Drop)]
struct Ruled {
    objects: List<Object>,
    policies: List<Policy>,
    seeds: BoundedList<RowSeed>,
    rows: Rows,
}

/// What the book has at load beside what it is loaded of.
fn parts_of(
    alloc: Global,
    object: &Object,
    attached: &[Attached],
    t: &Topology,
) -> Result<(Held, Ruled), NoMemory>
    ensures held { IfOk result (λ parts. IsHeld object.now t.now parts.0) }
    ensures ruled { IfOk result (λ parts. IsRuled object.now attached.now t.now parts.1) }
{
    let held = held_of(alloc, object, t)?;
    let boot = first_proc(&held.procs);
    let ruled = ruled_of(alloc, object, attached, t, boot);
    with(held, ruled)
}

/// The processors, the notes and the reset lines at load.
fn held_of(alloc: Global, object: &Object, t: &Topology) -> Result<Held, NoMemory>
    ensures { IfOk result (IsHeld object.now t.now) }
{
    let procs = load_procs(alloc, object, t)?;
    let notify = Notify::load(alloc, t, object.masters.len());
    let (procs, notify) = with(procs, notify)?;
    let resets = Resets::load(alloc, t.lines.len());
    let ((procs, notify), resets) = with((procs, notify), resets)?;
    Ok(Held {
        procs,
        notify,
        resets,
    })
}

/// The objects of the run and what they permit, with the rows at load, where this processor starts.
fn ruled_of(
    alloc: Global,
    object: &Object,
    attached: &[Attached],
    t: &Topology,
    boot: Option<usize>,
) -> Result<Ruled, NoMemory>
    requires { boot ≡ boot_proc object.now t.now }
    ensures { IfOk result (IsRuled object.now attached.now t.now) }
{
    let objects = objects_in(alloc, object, attached)?;
    let policies = policies_of(alloc, objects.as_slice(), t);
    let (objects, policies) = with(objects, policies)?;
    let first = active_at_load(boot, object.masters.len());
    let room = most_of(policies.as_slice());
    let pairs = policies.get(0).pairs.as_slice();
    let rows = load_rows(
        alloc,
        object.masters.len(),
        t.slaves.len(),
        first,
        room,
        pairs,
    );
    let ((objects, policies), (seeds, rows)) = with((objects, policies), rows)?;
    Ok(Ruled {
        objects,
        policies,
        seeds,
        rows,
    })
}

/// The processors at load: the first one of the first master is active, and all others are off.
fn load_procs(alloc: Global, object: &Object, t: &Topology) -> Result<Procs, NoMemory>
    ensures procs { IfOk result (λ loaded. loaded.procs
        ≡ procs_with (boot_proc object.now t.now) (all_off (length t.now.procs))) }
    ensures members { IfOk result (λ loaded. loaded.members ≡ members_of object.now t.now) }
    ensures pending { IfOk result (λ loaded. loaded.pending ≡ none_pending (length object.now.masters)) }
{
    let members = members_of(alloc, object, t)?;
    let mut procs = Procs::load(alloc, t, members)?;
    let boot = first_proc(&procs);
    start(&mut procs, boot);
    Ok(procs)
}

/// The place of the first processor of the first master, if it has one.
fn first_proc(procs: &Procs) -> Option<usize>
    ensures { result ≡ slice_get (members_at 0 procs.now.members) 0 }
{
    procs.members(0).first().copied()
}

/// The rows at load with room for so many, and for as many seeds, where the master at place `first` is active.
fn load_rows(
    alloc: Global,
    masters: usize,
    slaves: usize,
    first: usize,
    room: usize,
    pairs: &[Permitted],
) -> Result<(BoundedList<RowSeed>, Rows), NoMemory>
    requires room { length pairs.now ≤ room }
    requires placed { IsTrue (list_all (is_placed_seed slaves) (map (seed_at_load first) pairs.now)) }
    ensures room { IfOk result (λ both. both.0.room ≡ room) }
    ensures rows { IfOk result (λ both. both.1
        ≡ loaded_rows masters slaves first room (map (seed_at_load first) pairs.now)) }
{
    let mut seeds = BoundedList::with_room(alloc, room)?;
    put_at_load(&mut seeds, first, pairs);
    let rows = load_counted(alloc, masters, slaves, first, room, seeds.as_slice());
    with(seeds, rows)
}

/// The place of the master that is active at load: none of these where no processor starts.
pub(crate) fn active_at_load(boot: Option<usize>, masters: usize) -> usize
    ensures { result ≡ active_at_load boot masters }
{
    match boot {
        Some(_) => 0,
        None => masters,
    }
}

/// The processor at this place is active from now on, if there is one.
pub(crate) fn start(procs: &mut Procs, boot: Option<usize>)
    ensures { procs.new ≡ record procs.old { procs = procs_with boot procs.old.procs } }
{
    if let Some(p) = boot {
        procs.set(
            p,
            Proc {
                mode: Mode::Active,
                address: 0,
            },
        );
    }
}
