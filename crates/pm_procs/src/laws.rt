//! Laws of the processors, of the modes of masters, and of what is pending on those.

ghost use Rattle.std.specs.Prelude.{◌≡◌, ◌≢◌, ℕ, ◌+◌, ◌<◌, List, Option, false, true, length, option_map};
ghost use Rattle.pm_base.specs.declared.names.Mode.{Mode};
ghost use Rattle.pm_base.specs.declared.names.Mode.TheVariants.{Active, Off};
ghost use Rattle.pm_procs.specs.declared.pending.Pending.{Pending};
ghost use Rattle.pm_procs.specs.declared.procs.Proc.{Proc};
ghost use Rattle.pm_procs.specs.Pending.{all_ended, all_lowered, asked, ended, is_due, lowered, none_pending, pending_at};
ghost use Rattle.pm_procs.specs.Procs.{all_off, all_turned_off, has_member, master_mode_in, members_at, mode_at, proc_at, with_address, with_mode};

/// A processor that goes to a mode has it then, and no other processor and no master that doesn't have
/// it notices; nor does any when a resume address is set. A master is active if one of its
/// processors is, off if all are, and all are off at load, and after all of them went off.
pub fn modes_of_masters()
    ensures goes { (p : ℕ) (to : Mode) (procs : List Proc) → p < length procs → mode_at p (with_mode p to procs) ≡ to }
    ensures others { (p q : ℕ) (to : Mode) (procs : List Proc) → q ≢ p
        → proc_at q (with_mode p to procs) ≡ proc_at q procs }
    ensures apart { (m p : ℕ) (to : Mode) (members : List (List ℕ)) (procs : List Proc)
        → has_member m p members ≡ false
        → master_mode_in m members (with_mode p to procs) ≡ master_mode_in m members procs }
    ensures address { (m p a : ℕ) (members : List (List ℕ)) (procs : List Proc)
        → master_mode_in m members (with_address p a procs) ≡ master_mode_in m members procs }
    ensures active { (m p : ℕ) (members : List (List ℕ)) (procs : List Proc)
        → has_member m p members ≡ true → mode_at p procs ≡ Active → master_mode_in m members procs ≡ Active }
    ensures off { (m : ℕ) (members : List (List ℕ)) (procs : List Proc)
        → ((p : ℕ) → has_member m p members ≡ true → mode_at p procs ≡ Off) → master_mode_in m members procs ≡ Off }
    ensures load { (m count : ℕ) (members : List (List ℕ)) → master_mode_in m members (all_off count) ≡ Off }
    ensures restart { (procs : List Proc) → all_turned_off procs ≡ all_off (length procs) }
    ensures length_mode { (p : ℕ) (to : Mode) (procs : List Proc) → length (with_mode p to procs) ≡ length procs }
    ensures length_address { (p a : ℕ) (procs : List Proc) → length (with_address p a procs) ≡ length procs }
{}

/// A request that is made is pending on the master that it asks, one that ended is not, and what is pending
/// on the other masters stays. Time passes for each request alike, and in parts as at once: a request is
/// due where its time is no more than all the time that passed. Nothing is pending at load, nor after all
/// requests ended.
pub fn requests_of_masters()
    ensures asks { (m : ℕ) (request : Pending) (pending : List (Option Pending))
        → m < length pending → pending_at m (asked m request pending) ≡ Some request }
    ensures asks_one { (m n : ℕ) (request : Pending) (pending : List (Option Pending))
        → n ≢ m → pending_at n (asked m request pending) ≡ pending_at n pending }
    ensures ends { (m : ℕ) (pending : List (Option Pending)) → pending_at m (ended m pending) ≡ None }
    ensures ends_one { (m n : ℕ) (pending : List (Option Pending)) → n ≢ m
        → pending_at n (ended m pending) ≡ pending_at n pending }
    ensures passes { (m count : ℕ) (pending : List (Option Pending))
        → pending_at m (all_lowered count pending) ≡ option_map (lowered count) (pending_at m pending) }
    ensures adds { (first second : ℕ) (pending : List (Option Pending))
        → all_lowered second (all_lowered first pending) ≡ all_lowered (first + second) pending }
    ensures due { (first second : ℕ) (request : Pending)
        → is_due second (lowered first request) ≡ is_due (first + second) request }
    ensures load { (m masters : ℕ) → pending_at m (none_pending masters) ≡ None }
    ensures renew { (pending : List (Option Pending)) → all_ended pending ≡ none_pending (length pending) }
    ensures length_asked { (m : ℕ) (request : Pending) (pending : List (Option Pending))
        → length (asked m request pending) ≡ length pending }
    ensures length_ended { (m : ℕ) (pending : List (Option Pending)) → length (ended m pending) ≡ length pending }
    ensures length_lowered { (count : ℕ) (pending : List (Option Pending))
        → length (all_lowered count pending) ≡ length pending }
    ensures length_load { (masters : ℕ) → length (none_pending masters) ≡ masters }
{}
