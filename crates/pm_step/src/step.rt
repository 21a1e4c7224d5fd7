//! What one event does to the book, and how it is answered.

ghost use Rattle.std.specs.Prelude.{◌≡◌, ◌==◌, [], false, is_some, length, not, true};
ghost use Rattle.pm_values.specs.Caches.{AreKept};
ghost use Rattle.pm_state.specs.Changes.{written_along};
ghost use Rattle.pm_state.specs.Stages.{after_stages, path_from};
ghost use Rattle.pm_step.specs.Step.{call_in, configures, may_call, is_ipi, message_stages, path, served, stages, time_of, verdict as verdict_on};
ghost use Rattle.pm_tell.specs.Telling.{HasPlaces, IsFresh};
ghost use Rattle.pm_values.specs.Along.{Completes, IsTrail, modes_of, trail_from};

use pm_base::{Event, NodeId};
use pm_calls::{Verdict, boot, interrupt, raise, serve, wait};
use pm_ipi::{Call, decode_call};
use pm_procs::is_awake;
use pm_state::{Changes, Tables};
use pm_tell::{Served, Telling};
use pm_values::{Along, Caches};

/// The time that passes with an event: none while the book is halted.
pub fn time_of(tables: &Tables, event: &Event) -> Option<u32>
    ensures { result ≡ time_of event.now tables.now }
{
    match event {
        Event::Tick { count } => {
            if tables.is_halted() {
                None
            } else {
                Some(*count)
            }
        }
        _ => None,
    }
}

/// Whether an event is the message of the call SET_CONFIGURATION, which alone puts an object in force.
pub fn configures(event: &Event) -> bool
    ensures { result ≡ configures event.now }
{
    match event {
        Event::Ipi { message, .. } => message.api == 2,
        _ => false,
    }
}

/// Takes an event: carries out its stages, which write down what they touch, and leaves the verdict on a message in
/// `taken`. Until the masters are told, `telling` has their modes before the step, and what became of these along it. If no
/// processor is written down, nothing is logged behind the first moment.
pub fn advance(
    tables: &mut Tables,
    changes: &mut Changes,
    caches: &Caches,
    event: &Event,
    telling: &mut Telling,
    taken: &mut Option<Served>,
)
    requires kept { AreKept tables.old caches.now }
    requires places { HasPlaces tables.old.fixed.topology (length tables.old.fixed.object.masters) telling.old }
    requires procs { changes.old.procs.count ≡ length tables.old.now.core.procs }
    requires fresh { IsFresh tables.old telling.old }
    ensures book { tables.new ≡ after_stages (stages event.now tables.old) tables.old }
    ensures written { changes.new ≡ written_along (stages event.now tables.old) tables.old changes.old }
    ensures served { taken.new ≡ served event.now tables.old }
    ensures modes { telling.new.modes.items ≡ modes_of tables.old }
    ensures along { IsTrail tables.old (path event.now tables.old) telling.new.along }
    ensures places { HasPlaces tables.new.fixed.topology (length tables.new.fixed.object.masters) telling.new }
    ensures ended { telling.new.ended ≡ telling.old.ended }
    ensures notices { telling.new.notices ≡ telling.old.notices }
    ensures moved { telling.new.moved ≡ not (length changes.new.procs.list == 0) }
    ensures fresh { telling.new.moved ≡ false → IsFresh tables.new telling.new }
{
    take(tables, changes, caches, event, &mut telling.along, taken);
    telling.moved = !changes.procs().is_empty();
    if telling.moved {
        telling.along.log(tables);
    }
}

/// Begins what is logged of the next step: the modes of the masters before it, and its first moment.
pub fn begin(tables: &Tables, telling: &mut Telling)
    requires places { HasPlaces tables.now.fixed.topology (length tables.now.fixed.object.masters) telling.old }
    ensures fresh { IsFresh tables.now telling.new }
    ensures places { HasPlaces tables.now.fixed.topology (length tables.now.fixed.object.masters) telling.new }
{
    telling.log_modes(tables);
    telling.along.start(tables);
}

/// Begins the log of the next step. If this step moved no processor, its log still fits, and stays.
pub fn begin_after(tables: &Tables, telling: &mut Telling)
    requires places { HasPlaces tables.now.fixed.topology (length tables.now.fixed.object.masters) telling.old }
    requires fresh { telling.old.moved ≡ false → IsFresh tables.now telling.old }
    ensures fresh { IsFresh tables.now telling.new }
    ensures places { HasPlaces tables.now.fixed.topology (length tables.now.fixed.object.masters) telling.new }
{
    if telling.moved {
        begin(tables, telling);
    }
}

/// Carries out the stages of an event, and leaves the verdict on a message in `taken`. The modes after the last stage
/// aren't logged yet. If no processor is written down, nothing was logged along the step.
fn take(
    tables: &mut Tables,
    changes: &mut Changes,
    caches: &Caches,
    event: &Event,
    along: &mut Along,
    taken: &mut Option<Served>,
)
    requires kept { AreKept tables.old caches.now }
    requires procs { changes.old.procs.count ≡ length tables.old.now.core.procs }
    requires along { along.old ≡ trail_from tables.old }
    ensures book { tables.new ≡ after_stages (stages event.now tables.old) tables.old }
    ensures written { changes.new ≡ written_along (stages event.now tables.old) tables.old changes.old }
    ensures served { taken.new ≡ served event.now tables.old }
    ensures along { Completes tables.old (path event.now tables.old) tables.new along.new }
    ensures still { changes.new.procs.list ≡ [] → along.new ≡ along.old }
{
    if let Event::Ipi { master, message } = event {
        make_place(taken);
        if let Some(served) = taken {
            served.master = *master;
            served.call = decode_call(message);
            let verdict = &mut served.verdict;
            receive(
                tables,
                changes,
                caches,
                *master,
                &served.call,
                along,
                verdict,
            );
        }
        return;
    }
    *taken = None;
    happen(tables, changes, event);
}

/// A place for a message with the verdict on it: that of the last one, if there is one, so that it isn't made
/// anew for each.
fn make_place(taken: &mut Option<Served>)
    ensures { is_some taken.new ≡ true }
{
    if taken.is_none() {
        *taken = Some(Served {
            master: NodeId(0),
            call: Call::GetApiVersion,
            verdict: Verdict::Dropped,
        });
    }
}

/// An event that is no message. Nothing happens while the book is halted.
fn happen(tables: &mut Tables, changes: &mut Changes, event: &Event)
    requires { is_ipi event.now ≡ false }
    ensures book { tables.new ≡ after_stages (stages event.now tables.old) tables.old }
    ensures written { changes.new ≡ written_along (stages event.now tables.old) tables.old changes.old }
{
    match event {
        _ if tables.is_halted() => {}
        Event::Boot { proc, address } => boot(tables, changes, *proc, *address),
        Event::Wfi { proc } => wait(tables, changes, *proc),
        Event::Irq { slave } => raise(tables, changes, *slave),
        Event::Gic { proc } => interrupt(tables, changes, *proc),
        _ => {}
    }
}

/// A call of the master with this node. It is dropped unless that may call.
fn receive(
    tables: &mut Tables,
    changes: &mut Changes,
    caches: &Caches,
    master: NodeId,
    call: &Call,
    along: &mut Along,
    verdict: &mut Verdict,
)
    requires kept { AreKept tables.old caches.now }
    requires procs { changes.old.procs.count ≡ length tables.old.now.core.procs }
    requires along { along.old ≡ trail_from tables.old }
    ensures book { tables.new ≡ after_stages (message_stages (call_in master call.now tables.old)) tables.old }
    ensures written { changes.new
        ≡ written_along (message_stages (call_in master call.now tables.old)) tables.old changes.old }
    ensures verdict { verdict.new ≡ verdict_on (call_in master call.now tables.old) }
    ensures along { Completes tables.old
        (path_from (message_stages (call_in master call.now tables.old)) tables.old) tables.new along.new }
    ensures still { changes.new.procs.list ≡ [] → along.new ≡ along.old }
{
    if let Some(m) = tables.master_place(master) {
        if may_call(tables, m) {
            serve(tables, changes, caches, m, call, along, verdict);
        } else {
            *verdict = Verdict::Dropped;
        }
    } else {
        *verdict = Verdict::Dropped;
    }
}

/// Whether a master may call: it is active or suspending, and the book isn't halted.
fn may_call(tables: &Tables, m: usize) -> bool
    ensures { result ≡ may_call m tables.now }
{
    !tables.is_halted() && is_awake(tables.mode_of_master(m))
}
