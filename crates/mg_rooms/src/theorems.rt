//! When resources are free or exhausted, and the invariants of terminations and contexts.
//!
//! The functions do nothing: their contracts are the theorems.

ghost use Rattle.std.specs.Prelude.{◌≡◌, ℕ, ◌<◌, ◌≤◌, ◌↔◌, ◌⊎◌, None, Ok, Err, IsSome, length};
ghost use Rattle.mg_words.specs.declared.limits.TheConstants.{CONTEXT_LIMIT, MEMBER_LIMIT, LAST_TERMINATION, LAST_CONTEXT};
ghost use Rattle.mg_words.specs.declared.error_number.ErrorNumber.TheVariants.{ContextFull, NoContextLeft, NoTerminationLeft};
ghost use Rattle.mg_rooms.specs.declared.limits.Limits.{Limits};
ghost use Rattle.mg_rooms.specs.declared.record.Record.{Record};
ghost use Rattle.mg_rooms.specs.declared.settings.Settings.{Settings};
ghost use Rattle.mg_rooms.specs.declared.target.Target.{Target};
ghost use Rattle.mg_rooms.specs.Limits.{AreValidLimits};
ghost use Rattle.mg_rooms.specs.Registry.{Registry, start_of, members_at, free_slot, free_seat, free_room};
ghost use Rattle.mg_rooms.specs.Outcome.{new_slot, new_seat, new_context, add, modify, move_to, subtract};
ghost use Rattle.mg_rooms.specs.Consistent.{IsConsistent};

/// A context that is not full has a free seat, and a gateway below the limit on contexts has a free room.
///
/// A command is refused with "context full" or "no context left" only if that is true.
pub fn tables_that_are_not_full_have_a_free_place()
    ensures seat { (w : Registry) (c : ℕ) → IsConsistent w → length (members_at w c) < MEMBER_LIMIT →
        IsSome (free_seat w c) }
    ensures room { (w : Registry) → IsConsistent w → length w.contexts < CONTEXT_LIMIT → IsSome (free_room w) }
{}

/// A resource is reported as exhausted exactly when it is exhausted.
///
/// The resources are slots, termination numbers, the seats of a context, contexts, and context numbers.
pub fn exhausted_resources_are_refused()
    ensures slot { (w : Registry) → (new_slot w ≡ Err NoTerminationLeft) ↔
        ((free_slot w ≡ None) ⊎ (LAST_TERMINATION < w.next_termination)) }
    ensures seat { (w : Registry) (c : ℕ) → IsConsistent w → (new_seat w c ≡ Err ContextFull) ↔
        (MEMBER_LIMIT ≤ length (members_at w c)) }
    ensures context { (w : Registry) → IsConsistent w → (new_context w ≡ Err NoContextLeft) ↔
        ((CONTEXT_LIMIT ≤ length w.contexts) ⊎ (LAST_CONTEXT < w.next_context)) }
{}

/// A new gateway is consistent, and every command preserves consistency. So a gateway is consistent after any sequence
/// of commands. A proof can use this fact even where no tables are in scope.
pub fn outcomes_are_consistent()
    ensures start { (limits : Limits) → AreValidLimits limits → limits.first_termination ≤ LAST_TERMINATION →
        IsConsistent (start_of limits) }
    ensures add { (w next : Registry) (target : Target) (settings : Settings) (r : Record) → IsConsistent w →
        add w target settings ≡ Ok (next, r) → IsConsistent next }
    ensures modify { (w next : Registry) (target : Target) (n : ℕ) (settings : Settings) (r : Record) → IsConsistent w →
        modify w target n settings ≡ Ok (next, r) → IsConsistent next }
    ensures move_to { (w next : Registry) (target : Target) (n : ℕ) (settings : Settings) (r : Record) →
        IsConsistent w →
        move_to w target n settings ≡ Ok (next, r) → IsConsistent next }
    ensures subtract { (w next : Registry) (target : Target) (n : ℕ) (r : Record) → IsConsistent w →
        subtract w target n ≡ Ok (next, r) → IsConsistent next }
{}
