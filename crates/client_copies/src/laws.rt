//! What holds of every copy.

ghost use Rattle.std.specs.Prelude.{◌≡◌, ◌<◌, ◌≤◌, length, option_map, ◌++◌, ◌∷◌, ℕ, List, [], Option, Some, None, true, count_by};
ghost use Rattle.std.specs.List.{list_any};
ghost use Rattle.nfs_base.specs.declared.copy_spec.CopySpec.{CopySpec};
ghost use Rattle.nfs_base.specs.declared.state_id.StateId.{StateId};
ghost use Rattle.client_copies.specs.Copies.{begun};
ghost use Rattle.client_copies.specs.Held.{each_told, held_for, one_told, told_for};
ghost use Rattle.client_copies.specs.Laws.{IsSaidExact, IsSaidStable};
ghost use Rattle.client_copies.specs.Steps.{after};
ghost use Rattle.client_copies.specs.Table.{Copies, accepted_at, copy_at};
ghost use Rattle.client_copies.specs.Words.{behind_all, is_exact_word, is_final, is_stable_word, phase_of, ran, told, told_by_run};
ghost use Rattle.client_copies.specs.declared.copy.ClientCopy.{ClientCopy};
ghost use Rattle.client_copies.specs.declared.event.Event.{Event};
ghost use Rattle.client_copies.specs.declared.event.Event.TheVariants.{Accepted};
ghost use Rattle.client_copies.specs.declared.held.HeldOffload.{HeldOffload};
ghost use Rattle.client_copies.specs.declared.told.Word.{Word};

/// Whatever happens to a copy, in whatever order: what was told of it says where it is. So it is said to be stable at most
/// once, and behind the words failed, exact, unsure and cancelled nothing more is told of it.
pub fn words_say_where_a_copy_is()
    ensures place { (events : List Event) (c : ClientCopy) → behind_all (told_by_run events c) (phase_of c.stage) ≡ Some (phase_of (ran events c).stage) }
    ensures stable_once { (events : List Event) (spec : CopySpec) (secret : List ℕ) → count_by is_stable_word (told_by_run events (begun spec secret)) ≤ 1 }
    ensures last { (events : List Event) (c : ClientCopy) (before : List Word) (word : Word) (more : List Word) → is_final word ≡ true → told_by_run events c ≡ before ++ word ∷ more → more ≡ [] }
{}

/// A copy is said to be stable only once it was accepted, by a CB_OFFLOAD with the level FILE_SYNC4 or an OFFLOAD_STATUS
/// with status 0; and exact only by a last change attribute that is the first one, told in the same session.
pub fn only_these_are_stable_and_exact()
    ensures stable { (event : Event) (c : ClientCopy) → list_any is_stable_word (told (after event c).0) ≡ true → IsSaidStable event c }
    ensures exact { (event : Event) (c : ClientCopy) → list_any is_exact_word (told (after event c).0) ≡ true → IsSaidExact event c }
{}

/// To tell a copy all CB_OFFLOADs that were held for it, in their order, is to tell it the one that is given.
pub fn held_reports_are_told()
    ensures said { (id : StateId) (held : List HeldOffload) (c : ClientCopy) → told_by_run (each_told (held_for id held)) c ≡ told_by_run (one_told (told_for id held)) c }
    ensures after { (id : StateId) (held : List HeldOffload) (c : ClientCopy) → ran (each_told (held_for id held)) c ≡ ran (one_told (told_for id held)) c }
{}

/// A copy ends alike whether its CB_OFFLOADs come behind COPY's answer or before it: those that were held are told behind
/// its acceptance, in the order in which they came.
pub fn early_reports_count()
    ensures { (number : ℕ) (id : StateId) (sent_at : ℕ) (t : Copies) → number < length t.copies → copy_at number (accepted_at number id sent_at t).1 ≡ option_map (ran (Accepted id sent_at ∷ each_told (held_for id t.held))) (copy_at number t) }
{}
