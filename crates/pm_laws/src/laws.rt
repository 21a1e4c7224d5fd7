//! Laws of two books that agree beyond a border.

ghost use Rattle.std.specs.List.{AllByRecursion as Each};
ghost use Rattle.std.specs.Prelude.{◌≡◌, ℕ, List, [], ◌∷◌, true, false, Some, None};
ghost use Rattle.pm_state.specs.Prims.{Prim, changed};
ghost use Rattle.pm_base.specs.declared.events.Event.{Event};
ghost use Rattle.pm_base.specs.declared.events.Event.TheVariants.{Ipi, Pass};
ghost use Rattle.pm_base.specs.declared.events.Message.{Message};
ghost use Rattle.pm_base.specs.declared.names.NodeId.{NodeId};
ghost use Rattle.pm_base.specs.declared.names.Unit.{Unit};
ghost use Rattle.pm_object.specs.declared.object.Object.{Object};
ghost use Rattle.pm_object.specs.Grammar.{IsObject};
ghost use Rattle.pm_procs.specs.Procs.{mode_at};
ghost use Rattle.pm_topology.specs.Places.{kind_of};
ghost use Rattle.pm_topology.specs.declared.places.Kind.TheVariants.{Proc};
ghost use Rattle.pm_topology.specs.declared.topology.Topology.{Topology};
ghost use Rattle.pm_topology.specs.WellFormed.{IsWellFormed};
ghost use Rattle.pm_rows.specs.Wanted.{wanted_of};
ghost use Rattle.pm_state.specs.Load.{load_in};
ghost use Rattle.pm_state.specs.Members.{mode_of_master};
ghost use Rattle.pm_state.specs.Sound.{IsSound, KnowsModes};
ghost use Rattle.pm_state.specs.Stages.{after_stage, after_stages, follow, path_from};
ghost use Rattle.pm_state.specs.State.{Fixed, State, object_at};
ghost use Rattle.pm_core.specs.Step.{asks, effect, ended, outputs, pulse, stages, talk};
ghost use Rattle.pm_state.specs.Talk.{Talk, talked};
ghost use Rattle.pm_state.specs.Values.{master_place, slave_place, value};
ghost use Rattle.pm_calls.specs.Views.{is_asked, proc_view, row_view, suspend_view, wake_view};
ghost use Rattle.pm_state.specs.Nodes.{named_master};
ghost use Rattle.pm_grants.specs.Several.{HaveSamePlaces};
ghost use Rattle.pm_laws.specs.Agree.{Agree};
ghost use Rattle.pm_laws.specs.Below.{BelowLaws};
ghost use Rattle.pm_laws.specs.Border.{AreObjects, Border, HasSome, IsBeyond, IsClosed, IsClosedOver, unit_beyond};
ghost use Rattle.pm_laws.specs.Both.{Both};
ghost use Rattle.pm_laws.specs.Hidden.{is_hidden, is_slave_within, is_within, owner_by};
ghost use Rattle.pm_laws.specs.Pulse.{pulse_beyond};
ghost use Rattle.pm_laws.specs.ReachBorder.{IsAllBeyond, IsBorderOf, border_of, border_over, configured_place};
ghost use Rattle.pm_laws.specs.Seen.{seen, seen_part, IsUnseen, AreAlike, AreHidden};
ghost use Rattle.pm_laws.specs.SeenTalk.{seen_talk, talk_part, IsTalkUnseen, asks_beyond, ends_beyond};
ghost use Rattle.pm_laws.specs.Values.{is_beyond, starts_beyond};

use pm_core::{loads_are_sound, members_are_owned};
use pm_grants::{grants_are_permissions, some_grants_are_permissions};
use pm_reach::{masters_within, parents_within, reach_is_decided, units_within};
use pm_rows::shifts_leave_others;
use pm_topology::{kinds_are_exact, units_stand_in_order};

/// What the crates below promise of kinds, rows, processors and units.
pub fn laws_below()
    ensures { BelowLaws }
{
    kinds_are_exact();
    shifts_leave_others();
    members_are_owned();
    units_stand_in_order();
}

/// A sound book agrees with itself beyond each closed border, and so does a book at load. Agreement is symmetric and
/// transitive.
pub fn books_agree()
    ensures itself { (border : Border) (book : State) → IsClosed book.fixed border
        → IsSound book → Agree border book book }
    ensures load { (border : Border) (fixed : Fixed) (object : Object) (k : ℕ) → object_at fixed k ≡ Some object
        → IsClosed fixed border → Agree border (load_in fixed object) (load_in fixed object) }
    ensures turned { (border : Border) (a b : State) → Agree border a b → Agree border b a }
    ensures through { (border : Border) (a b c : State) → Agree border a b → Agree border b c → Agree border a c }
{
    loads_are_sound();
    units_stand_in_order();
}

/// A visible change keeps the agreement of two books if it is made in both and some master is beyond. An invisible
/// change keeps it if it is made in one. Two lists of changes with the same visible part, one made in each book, keep
/// it; and so does an invisible list in one book.
pub fn changes_agree()
    ensures seen { (border : Border) (prim : Prim) (a b : State) → border.some ≡ true → seen border prim ≡ true
        → Agree border a b → Agree border (changed (prim ∷ []) a) (changed (prim ∷ []) b) }
    ensures unseen { (border : Border) (prim : Prim) (a b : State) → seen border prim ≡ false
        → Agree border a b → Agree border (changed (prim ∷ []) a) b }
    ensures alike { (border : Border) (first second : List Prim) (a b : State) → border.some ≡ true
        → seen_part border first ≡ seen_part border second
        → Agree border a b → Agree border (changed first a) (changed second b) }
    ensures hidden { (border : Border) (prims : List Prim) (a b : State) → IsUnseen border prims
        → Agree border a b → Agree border (changed prims a) b }
{
    laws_below();
}

/// A change of what masters are told keeps the agreement of two books if it is made in both, or if it is invisible
/// and made in one. Two lists of such changes with the same visible part, one made in each book, keep it; and so does
/// an invisible list in one book.
pub fn talks_agree()
    ensures both { (border : Border) (change : Talk) (a b : State)
        → Agree border a b → Agree border (talked (change ∷ []) a) (talked (change ∷ []) b) }
    ensures unseen { (border : Border) (change : Talk) (a b : State) → HasSome border → seen_talk border change ≡ false
        → Agree border a b → Agree border (talked (change ∷ []) a) b }
    ensures alike { (border : Border) (first second : List Talk) (a b : State) → HasSome border
        → talk_part border first ≡ talk_part border second
        → Agree border a b → Agree border (talked first a) (talked second b) }
    ensures hidden { (border : Border) (changes : List Talk) (a b : State) → HasSome border
        → IsTalkUnseen border changes
        → Agree border a b → Agree border (talked changes a) b }
{}

/// A master beyond has the same mode in two books that agree, since its mode comes from its own processors. Therefore
/// the shifts by which rows follow the modes have the same visible part. There is no shift if the rows know the modes
/// already. Two stages with the same visible part keep the agreement, if some master is beyond.
pub fn rows_follow_alike()
    ensures mode { (border : Border) (m : ℕ) (a b : State) → IsBeyond border m → Agree border a b
        → mode_of_master a.fixed a.now.core m ≡ mode_of_master b.fixed b.now.core m }
    ensures follow { (border : Border) (a b : State) → Agree border a b
        → seen_part border (follow a) ≡ seen_part border (follow b) }
    ensures rest { (book : State) → KnowsModes book → follow book ≡ [] }
    ensures stage { (border : Border) (first second : List Prim) (a b : State) → border.some ≡ true
        → seen_part border first ≡ seen_part border second
        → Agree border a b → Agree border (after_stage first a) (after_stage second b) }
{
    laws_below();
}

/// The books along a step. If no change in its stages is visible, each of them agrees with a book that stays, if the
/// first one did. If two lists of stages have the same visible parts, stage by stage, and some master is beyond, the
/// books along them agree one by one, and so do the last ones.
pub fn paths_agree()
    ensures hidden { (border : Border) (stages : List (List Prim)) (still now : State) → KnowsModes still
        → AreHidden border stages → Agree border still now → Each (Agree border still) (path_from stages now) }
    ensures last_hidden { (border : Border) (stages : List (List Prim)) (still now : State) → KnowsModes still
        → AreHidden border stages → Agree border still now → Agree border still (after_stages stages now) }
    ensures alike { (border : Border) (first second : List (List Prim)) (a b : State) → border.some ≡ true
        → AreAlike border first second → Agree border a b
        → Both (Agree border) (path_from first a) (path_from second b) }
    ensures last_alike { (border : Border) (first second : List (List Prim)) (a b : State) → border.some ≡ true
        → AreAlike border first second → Agree border a b
        → Agree border (after_stages first a) (after_stages second b) }
{
    laws_below();
}

/// The views of two books that agree are equal if they show what is beyond: a master's row on a slave beyond, with
/// its rival; its own processors; a processor to wake, if its owner is beyond; a master beyond that is to suspend;
/// whether a request is pending on a master beyond. What all masters require of a slave beyond is equal too, if some
/// master is beyond.
pub fn views_agree()
    ensures row { (border : Border) (m : ℕ) (node : NodeId) (a b : State)
        → IsClosed a.fixed border → IsBeyond border m
        → is_slave_within border (slave_place node a) ≡ false
        → Agree border a b → row_view m node a ≡ row_view m node b }
    ensures proc { (border : Border) (m : ℕ) (node : NodeId) (a b : State) → IsBeyond border m
        → Agree border a b → proc_view m node a ≡ proc_view m node b }
    ensures wake { (border : Border) (m : ℕ) (node : NodeId) (a b : State)
        → is_within border (owner_by (kind_of a.fixed.topology node) a) ≡ false
        → Agree border a b → wake_view m node a ≡ wake_view m node b }
    ensures suspend { (border : Border) (m : ℕ) (node : NodeId) (a b : State)
        → is_within border (named_master a.fixed node) ≡ false
        → Agree border a b → suspend_view m node a ≡ suspend_view m node b }
    ensures asked { (border : Border) (m : ℕ) (a b : State) → IsBeyond border m
        → Agree border a b → is_asked m a ≡ is_asked m b }
    ensures wanted { (border : Border) (s : ℕ) (a b : State) → border.some ≡ true → border.slave s ≡ true
        → Agree border a b → wanted_of s a.now.core.rows ≡ wanted_of s b.now.core.rows }
{
    laws_below();
}

/// A unit beyond has the same value in two books that agree: a slave, a power node, a reset line, or a processor of a
/// master beyond or of no master. Such a processor has the same mode too.
pub fn values_agree()
    ensures values { (border : Border) (unit : Unit) (a b : State) → IsClosed a.fixed border
        → is_beyond a.fixed.object a.fixed.topology border unit ≡ true
        → Agree border a b → value unit a ≡ value unit b }
    ensures modes { (border : Border) (p : ℕ) (a b : State)
        → unit_beyond a.fixed.object a.fixed.topology border (Proc p) ≡ true
        → Agree border a b → mode_at p a.now.core.procs ≡ mode_at p b.now.core.procs }
{}

/// One event in two sound books keeps their agreement beyond each closed border. A hidden event in one of them keeps
/// it too, and no change in its stages is visible. The messages of a master within, and of one that isn't configured,
/// are hidden.
pub fn steps_agree()
    ensures both { (border : Border) (event : Event) (a b : State)
        → IsClosed a.fixed border → IsSound a → IsSound b
        → Agree border a b → Agree border (effect event a) (effect event b) }
    ensures hidden { (border : Border) (event : Event) (a b : State)
        → IsClosed a.fixed border → IsSound a → IsSound b
        → is_hidden border event a ≡ true → Agree border a b → Agree border (effect event a) b }
    ensures messages { (border : Border) (master : NodeId) (message : Message) (book : State)
        → is_within border (master_place master book) ≡ true → is_hidden border (Ipi master message) book ≡ true }
    ensures stages { (border : Border) (event : Event) (book : State)
        → IsClosed book.fixed border → IsSound book
        → is_hidden border event book ≡ true → AreHidden border (stages event book) }
{
    laws_below();
}

/// Two books that agree ask masters beyond the same. If they are sound, the same requests to masters beyond end, with
/// the same status, and the changes of what masters are told have the same visible part. A hidden event asks no
/// master beyond, ends no request to one, and changes nothing visible of what masters are told.
pub fn requests_agree()
    ensures asked { (border : Border) (event : Event) (a b : State)
        → IsClosed a.fixed border → Agree border a b
        → asks_beyond border (asks event a) ≡ asks_beyond border (asks event b) }
    ensures asked_hidden { (border : Border) (event : Event) (book : State)
        → IsClosed book.fixed border → IsSound book
        → is_hidden border event book ≡ true → asks_beyond border (asks event book) ≡ None }
    ensures ended { (border : Border) (event : Event) (a b : State)
        → IsClosed a.fixed border → IsSound a → IsSound b → Agree border a b
        → ends_beyond border (ended event a) ≡ ends_beyond border (ended event b) }
    ensures ended_hidden { (border : Border) (event : Event) (book : State)
        → IsClosed book.fixed border → IsSound book
        → is_hidden border event book ≡ true → ends_beyond border (ended event book) ≡ [] }
    ensures told { (border : Border) (event : Event) (a b : State)
        → IsClosed a.fixed border → IsSound a → IsSound b → Agree border a b
        → talk_part border (talk event a) ≡ talk_part border (talk event b) }
    ensures told_hidden { (border : Border) (event : Event) (book : State)
        → IsClosed book.fixed border → IsSound book
        → is_hidden border event book ≡ true → IsTalkUnseen border (talk event book) }
{
    laws_below();
}

/// One event in two books that agree starts the same processors beyond, at the same addresses. A hidden event in one
/// book starts there what a Pass starts in the other.
pub fn starts_agree()
    ensures both { (border : Border) (event : Event) (a b : State)
        → IsClosed a.fixed border → IsSound a → IsSound b → Agree border a b
        → starts_beyond a.fixed.object a.fixed.topology border (outputs event a).starts
        ≡ starts_beyond a.fixed.object a.fixed.topology border (outputs event b).starts }
    ensures hidden { (border : Border) (event : Event) (a b : State)
        → IsClosed a.fixed border → IsSound a → IsSound b
        → is_hidden border event a ≡ true → Agree border a b
        → starts_beyond a.fixed.object a.fixed.topology border (outputs event a).starts
        ≡ starts_beyond a.fixed.object a.fixed.topology border (outputs Pass b).starts }
{
    laws_below();
}

/// One event in two books that agree pulses the same reset line beyond, if any. A hidden event pulses none.
pub fn pulses_agree()
    ensures both { (border : Border) (event : Event) (a b : State)
        → IsClosed a.fixed border → Agree border a b
        → pulse_beyond a.fixed.topology border (pulse event a) ≡ pulse_beyond a.fixed.topology border (pulse event b) }
    ensures hidden { (border : Border) (event : Event) (book : State)
        → IsClosed book.fixed border → IsSound book
        → is_hidden border event book ≡ true → pulse_beyond book.fixed.topology border (pulse event book) ≡ None }
{
    laws_below();
}

/// The border of a master's reach, by the permissions of all objects of a run, is closed if these objects are well
/// formed and the chip passes its check. It is exactly that reach: no narrower and no wider. The master itself is
/// within. If it isn't configured, nothing is within.
pub fn reach_is_closed()
    ensures closed { (fixed : Fixed) (m : NodeId) → AreObjects fixed → IsWellFormed fixed.topology
        → IsClosed fixed (border_of fixed m) }
    ensures closed_over { (object : Object) (others : List Object) (t : Topology) (m : NodeId)
        → Each IsObject (object ∷ others) → HaveSamePlaces (object ∷ others) → IsWellFormed t
        → IsClosedOver object others t (border_over object others t m) }
    ensures exact { (fixed : Fixed) (m : NodeId) (from : ℕ) → configured_place fixed.object m ≡ Some from
        → IsBorderOf fixed from (border_of fixed m) }
    ensures unconfigured { (fixed : Fixed) (m : NodeId) → configured_place fixed.object m ≡ None
        → IsAllBeyond fixed.object (border_of fixed m) }
    ensures own { (m : NodeId) (book : State) → is_within (border_of book.fixed m) (master_place m book) ≡ true }
{
    masters_within();
    units_within();
    parents_within();
    reach_is_decided();
    kinds_are_exact();
    grants_are_permissions();
    some_grants_are_permissions();
}
