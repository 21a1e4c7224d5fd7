//! Laws of the rows: what holds of their model, for the proofs of crates above.

ghost use Rattle.std.specs.Prelude.{◌≡◌, ◌≢◌, ◌<◌, ◌⊎◌, ◌==◌, if◌then◌else◌, ℕ, Bool, List, IsTrue, None, Some, is_some, map, nat_lt, count_by, length};
ghost use Rattle.std.specs.List.{All};
ghost use Rattle.pm_base.specs.declared.caps.Caps.{Caps};
ghost use Rattle.pm_base.specs.declared.names.Mode.{Mode};
ghost use Rattle.pm_base.specs.declared.names.Mode.TheVariants.{Off, Active};
ghost use Rattle.pm_rows.specs.declared.row.Pair.{Pair};
ghost use Rattle.pm_rows.specs.declared.row.RowSeed.{RowSeed};
ghost use Rattle.pm_rows.specs.declared.row.Row.{Row};
ghost use Rattle.pm_rows.specs.declared.row.Entry.{Entry};
ghost use Rattle.pm_rows.specs.declared.row.Change.{Change};
ghost use Rattle.pm_rows.specs.Rows as spec;
ghost use Rattle.pm_rows.specs.Rows.{has_all, mode_of, entry_at, loaded_rows, pair_of, remade, row_changed, settled, slave_dropped, all_cleared};
ghost use Rattle.pm_rows.specs.Shift.{shifted_row, shift_at, shifted};
ghost use Rattle.pm_rows.specs.Sound.{AreOnce, AreRemadeRight, AreSound, IsFit, IsLoadable, is_pair};
ghost use Rattle.pm_rows.specs.Wanted.{wanted_of};

/// Rows are sound from the load on. They are at load, and when they are made anew for other pairs, if these pairs may
/// be loaded or made anew. They stay sound when a row changes by a change that fits it, when a master changes its mode,
/// when a master drops its holds, and when rows are cleared, those on one slave or all. In sound rows a pair has a row
/// exactly if it is permitted, and what masters require of a slave is within its capabilities.
pub fn rows_stay_sound()
    ensures load { (masters slaves boot room : ℕ) (seeds : List RowSeed)
        → AreOnce (map pair_of seeds) → All (IsLoadable masters boot) seeds
        → AreSound (map pair_of seeds) (loaded_rows masters slaves boot room seeds) }
    ensures remade { (seeds : List RowSeed) (rows : spec.Rows)
        → AreRemadeRight rows.known seeds → AreSound (map pair_of seeds) (remade seeds rows) }
    ensures change { (permitted : List Pair) (rows : spec.Rows) (m s : ℕ) (by : Change) (entry : Entry)
        → AreOnce permitted → AreSound permitted rows → entry_at m s rows ≡ Some entry → IsFit m s by entry rows
        → AreSound permitted (row_changed entry.seed.master entry.seed.slave by rows) }
    ensures shift { (permitted : List Pair) (rows : spec.Rows) (m : ℕ) (to : Mode)
        → AreOnce permitted → AreSound permitted rows → AreSound permitted (shifted m to rows) }
    ensures settle { (permitted : List Pair) (rows : spec.Rows) (m : ℕ)
        → AreSound permitted rows → AreSound permitted (settled m rows) }
    ensures drop_slave { (permitted : List Pair) (rows : spec.Rows) (s : ℕ)
        → AreSound permitted rows → AreSound permitted (slave_dropped s rows) }
    ensures clear { (permitted : List Pair) (rows : spec.Rows)
        → AreSound permitted rows → AreSound permitted (all_cleared rows) }
    ensures there { (permitted : List Pair) (rows : spec.Rows) (m s : ℕ) → AreSound permitted rows
        → is_some (entry_at m s rows) ≡ nat_lt 0 (count_by (is_pair m s) permitted) }
    ensures wanted { (permitted : List Pair) (rows : spec.Rows) (s : ℕ) (all : Caps) → AreSound permitted rows
        → All (λ pair. pair.slave ≡ s → pair.all ≡ all) permitted → IsTrue (has_all all (wanted_of s rows).caps) }
{}

/// The rows know the mode of each master. At load one master is active, and all others are off. When a master changes
/// its mode, the rows know the new mode from then on, and the modes of the others as before. Rows that are made anew
/// know the same modes as before. The number of masters whose mode is known is that at load, and stays.
pub fn rows_know_modes()
    ensures load { (masters slaves boot room m : ℕ) (seeds : List RowSeed) → boot < masters
        → mode_of m (loaded_rows masters slaves boot room seeds) ≡ (if m == boot then Active else Off) }
    ensures shift { (rows : spec.Rows) (m k : ℕ) (to : Mode) → m < length rows.known
        → mode_of k (shifted m to rows) ≡ (if k == m then to else mode_of k rows) }
    ensures count { (masters slaves boot room : ℕ) (seeds : List RowSeed)
        → length (loaded_rows masters slaves boot room seeds).known ≡ masters }
    ensures same_count { (rows : spec.Rows) (m : ℕ) (to : Mode)
        → length (shifted m to rows).known ≡ length rows.known }
    ensures remade { (rows : spec.Rows) (seeds : List RowSeed) → (remade seeds rows).known ≡ rows.known }
{}

/// What a change of a master's mode leaves as it is: the rows of all other masters, and the pair of each row. A row
/// stays armed with the same processor, or isn't armed any more. Which of the two depends only on the modes before and
/// after, and on what the row was armed with. Whether the row has a hold afterwards depends only on the two modes, and
/// on whether it had one.
pub fn shifts_leave_others()
    ensures others { (rows : List Entry) (m : ℕ) (from to : Mode) (entry : Entry)
        → entry.seed.master ≢ m → shift_at rows m from to entry ≡ entry }
    ensures pair { (rows : List Entry) (m : ℕ) (from to : Mode) (entry : Entry)
        → (shift_at rows m from to entry).seed ≡ entry.seed }
    ensures kept { (from to : Mode) (taken : Bool) (row : Row)
        → (shifted_row from to taken row).armed ≡ row.armed ⊎ (shifted_row from to taken row).armed ≡ None }
    ensures armed { (from to : Mode) (taken other : Bool) (a b : Row) → a.armed ≡ b.armed
        → (shifted_row from to taken a).armed ≡ (shifted_row from to other b).armed }
    ensures hold { (from to : Mode) (taken other : Bool) (a b : Row) → a.hold ≡ b.hold
        → (shifted_row from to taken a).hold ≡ (shifted_row from to other b).hold }
{}
