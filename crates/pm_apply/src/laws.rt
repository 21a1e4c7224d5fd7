//! Laws of what a step does with a device, whatever the device answers.

ghost use Rattle.std.specs.Prelude.{◌≡◌, ℕ, Bool, true, List, [], ◌++◌};
ghost use Rattle.pm_base.specs.declared.names.Unit.{Unit};
ghost use Rattle.pm_topology.specs.declared.topology.Topology.{Topology};
ghost use Rattle.pm_topology.specs.WellFormed.{IsWellFormed};
ghost use Rattle.pm_device.specs.Act.{Act, AreHarmless, refusals, values_after};
ghost use Rattle.pm_topology.specs.Units.{has_unit};
ghost use Rattle.pm_core.specs.declared.outbox.Done.{Done};
ghost use Rattle.pm_core.specs.Outbox.{Outputs};
ghost use Rattle.pm_state.specs.State.{State};
ghost use Rattle.pm_state.specs.Units.{moved};
ghost use Rattle.pm_state.specs.Values.{value};
ghost use Rattle.pm_apply.specs.Carried.{AreMarked, DifferencesAreMarked};
ghost use Rattle.pm_apply.specs.Order.{IsOrdered, LagsAreExplained};
ghost use Rattle.pm_apply.specs.Part.{AllSucceed, AllYes, Kept, orders_of, part_of};
ghost use Rattle.pm_apply.specs.Plan.{answers_of};
ghost use Rattle.pm_record.specs.Record.{IsRecordOf, kept_value};

use pm_core::values_are_fed;
use pm_record::KeptValue;
use pm_topology::{kinds_are_exact, unit_maps, units_stand_in_order};

/// Whatever a device answers, the commands of a step are in an order in which nothing is used without
/// power and no domain goes down under its users, each is on a unit of the chip, each unit that lags
/// after them lags for one that failed, and the record is what they leave.
pub fn each_part_is_safe()
    ensures ordered { (kept : Kept) (answers : List Bool) (book : State) (outputs : Outputs)
        → IsWellFormed book.fixed.topology → IsRecordOf book.fixed.topology kept
        → IsOrdered book.fixed.topology (kept_value kept) (orders_of (part_of kept answers book outputs).commands) }
    ensures explained { (kept : Kept) (answers : List Bool) (book : State) (outputs : Outputs)
        → IsWellFormed book.fixed.topology → IsRecordOf book.fixed.topology kept
        → LagsAreExplained book.fixed.topology (λ u. value u book) (part_of kept answers book outputs).kept
        (part_of kept answers book outputs).commands }
    ensures known { (kept : Kept) (answers : List Bool) (book : State) (outputs : Outputs)
        → IsWellFormed book.fixed.topology
        → AreHarmless book.fixed.topology (orders_of (part_of kept answers book outputs).commands) }
    ensures record { (kept : Kept) (answers : List Bool) (book : State) (outputs : Outputs)
        → IsWellFormed book.fixed.topology → IsRecordOf book.fixed.topology kept
        → IsRecordOf book.fixed.topology (part_of kept answers book outputs).kept }
    ensures values { (kept : Kept) (answers : List Bool) (book : State) (outputs : Outputs)
        → IsWellFormed book.fixed.topology → IsRecordOf book.fixed.topology kept → (unit : Unit)
        → kept_value (part_of kept answers book outputs).kept unit
        ≡ values_after (orders_of (part_of kept answers book outputs).commands) (kept_value kept) unit }
    ensures marks { (kept : Kept) (answers : List Bool) (book : State) (outputs : Outputs)
        → IsWellFormed book.fixed.topology → IsRecordOf book.fixed.topology kept
        → AreMarked book.fixed.topology (λ u. value u book) (part_of kept answers book outputs).kept }
    ensures used { (kept : Kept) (answers : List Bool) (book : State) (outputs : Outputs)
        → part_of kept (answers_of (part_of kept answers book outputs).commands) book outputs
        ≡ part_of kept answers book outputs }
{
    units_stand_in_order();
    kinds_are_exact();
    unit_maps::<KeptValue>();
    values_are_fed();
}

/// If no command of a step is refused, it is the step under a device that never refuses; and under
/// answers of which none is a no each command succeeds, the record has the book's values, and the answer is the
/// book's.
pub fn a_part_without_refusal()
    ensures same { (kept : Kept) (answers : List Bool) (book : State) (outputs : Outputs)
        → refusals (orders_of (part_of kept answers book outputs).commands) ≡ 0
        → part_of kept answers book outputs ≡ part_of kept [] book outputs }
    ensures agreed { (kept : Kept) (answers : List Bool) (book : State) (outputs : Outputs)
        → AllYes answers → part_of kept answers book outputs ≡ part_of kept [] book outputs }
    ensures succeeds { (kept : Kept) (answers : List Bool) (book : State) (outputs : Outputs)
        → AllYes answers → AllSucceed (part_of kept answers book outputs).commands }
    ensures unrefused { (commands : List Done) → refusals (orders_of commands) ≡ 0 → AllSucceed commands }
    ensures reaches { (kept : Kept) (answers : List Bool) (book : State) (outputs : Outputs)
        → IsWellFormed book.fixed.topology → IsRecordOf book.fixed.topology kept
        → refusals (orders_of (part_of kept answers book outputs).commands) ≡ 0
        → (unit : Unit) → has_unit book.fixed.topology unit ≡ true
        → kept_value (part_of kept answers book outputs).kept unit ≡ value unit book }
    ensures answered { (kept : Kept) (answers : List Bool) (book : State) (outputs : Outputs) (before : Unit → ℕ)
        → IsWellFormed book.fixed.topology → IsRecordOf book.fixed.topology kept → outputs.moved ≡ moved before book
        → AllSucceed (part_of kept answers book outputs).commands
        → (part_of kept answers book outputs).answer ≡ outputs.answer }
{
    units_stand_in_order();
    kinds_are_exact();
    unit_maps::<KeptValue>();
    values_are_fed();
}

/// Ordered acts, and behind them acts that are ordered where the first left the units, are ordered.
pub fn orders_join()
    ensures append { (t : Topology) (values : Unit → ℕ) (first second : List Act)
        → IsOrdered t values first → IsOrdered t (values_after first values) second
        → IsOrdered t values (first ++ second) }
    ensures alike { (t : Topology) (values others : Unit → ℕ) (acts : List Act)
        → ((unit : Unit) → values unit ≡ others unit) → IsOrdered t values acts → IsOrdered t others acts }
{}

/// Where the marks of a record are those of the last step, each unit whose value isn't the book's after the next
/// step moves in it, or lags.
pub fn marks_suffice()
    ensures { (old : State) (new : State) (kept : Kept)
        → new.fixed ≡ old.fixed
        → AreMarked old.fixed.topology (λ u. value u old) kept
        → DifferencesAreMarked new.fixed.topology (λ u. value u new) (moved (λ u. value u old) new) kept }
{
    units_stand_in_order();
}
