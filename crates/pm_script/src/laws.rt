//! What each kind of line means, and what is read of a named script.

ghost use Rattle.std.specs.Prelude.{◌≡◌, ℕ, List, [], ◌∷◌, Some, None, Ok, Err, codes};
ghost use Rattle.pm_base.specs.declared.events.Event.TheVariants.{Pass};
ghost use Rattle.pm_io.specs.Inputs.{MayFail, Moment};
ghost use Rattle.pm_io.specs.Prefix.{IsUnread, Prefix};
ghost use Rattle.pm_io.specs.declared.prefix.StopReason.TheVariants.{Unbegun};
ghost use Rattle.pm_script.specs.declared.meaning.LineFault.TheVariants.{Unknown};
ghost use Rattle.pm_script.specs.Meaning.{words_meaning};
ghost use Rattle.pm_script.specs.ObjectLine.{object_meaning};
ghost use Rattle.pm_script.specs.Sentences.{IsNoKeyword, boot_meaning, break_meaning, cancel_meaning, gic_meaning, ipi_meaning, irq_meaning};
ghost use Rattle.pm_script.specs.Sentences.{mend_meaning, post_meaning, serve_meaning, smc_meaning, task_meaning, tick_meaning, wfi_meaning};
ghost use Rattle.pm_script.specs.Named.{IsHeldWhole, IsUnreadable, script_in};
ghost use Rattle.pm_script.specs.Script.{Script, script_from, script_limit, script_lines, script_of, stop_of};
ghost use Rattle.pm_script.specs.Script.Stop.{End};

/// What the lines mean, kind by kind: a line without a word does nothing, each keyword has its sentence, and any other
/// first word is unknown.
pub fn each_kind_has_its_sentence()
    ensures empty { words_meaning [] ≡ Ok Pass }
    ensures ipi { (words : List (List ℕ)) → words_meaning (codes "ipi" ∷ words) ≡ ipi_meaning words }
    ensures boot { (words : List (List ℕ)) → words_meaning (codes "boot" ∷ words) ≡ boot_meaning words }
    ensures wfi { (words : List (List ℕ)) → words_meaning (codes "wfi" ∷ words) ≡ wfi_meaning words }
    ensures irq { (words : List (List ℕ)) → words_meaning (codes "irq" ∷ words) ≡ irq_meaning words }
    ensures gic { (words : List (List ℕ)) → words_meaning (codes "gic" ∷ words) ≡ gic_meaning words }
    ensures tick { (words : List (List ℕ)) → words_meaning (codes "tick" ∷ words) ≡ tick_meaning words }
    ensures post { (words : List (List ℕ)) → words_meaning (codes "post" ∷ words) ≡ post_meaning words }
    ensures serve { (words : List (List ℕ)) → words_meaning (codes "serve" ∷ words) ≡ serve_meaning words }
    ensures smc { (words : List (List ℕ)) → words_meaning (codes "smc" ∷ words) ≡ smc_meaning words }
    ensures task { (words : List (List ℕ)) → words_meaning (codes "task" ∷ words) ≡ task_meaning words }
    ensures cancel { (words : List (List ℕ)) → words_meaning (codes "cancel" ∷ words) ≡ cancel_meaning words }
    ensures object { (words : List (List ℕ)) → words_meaning (codes "object" ∷ words) ≡ object_meaning words }
    ensures break_ { (words : List (List ℕ)) → words_meaning (codes "break" ∷ words) ≡ break_meaning words }
    ensures mend { (words : List (List ℕ)) → words_meaning (codes "mend" ∷ words) ≡ mend_meaning words }
    ensures unknown { (word : List ℕ) (words : List (List ℕ)) → IsNoKeyword word
        → words_meaning (word ∷ words) ≡ Err Unknown }
{}

/// What is read of a named script: one that can't be begun is none, and any other one is that of its lines. It
/// can't be begun or read on only if what was read broke off by a failure, and it comes to its end only if
/// the input holds it whole. Neither fails but for a cause that the inputs show.
pub fn scripts_are_read()
    ensures unbegun { (p : Prefix) → p.stop ≡ Unbegun → script_of p ≡ None }
    ensures begun { (p : Prefix) → (p.stop ≡ Unbegun → ⊥)
        → script_of p ≡ Some (script_from (script_lines p) (stop_of p.stop)) }
    ensures fails { (p : Prefix) → IsUnreadable (script_of p) → IsUnread p.stop }
    ensures whole { (m : Moment) (name : List ℕ) (s : Script) → Some s ≡ script_in m name → s.stop ≡ End
        → IsHeldWhole m name s.events }
    ensures cause { (m : Moment) (name : List ℕ) → IsUnreadable (script_in m name) → MayFail name script_limit m }
{}
