ghost use Rattle.std.specs.Prelude.{◌≡◌, ◌⊎◌, ◌≤◌, ◌++◌, ◌∷◌, ℕ, length, List, [], Option, Some, true, count_by};
ghost use Rattle.std.specs.List.{list_any};
ghost use Rattle.client_copies.specs.Laws.{IsSaidExact, IsSaidStable};
ghost use Rattle.client_copies.specs.Table.{copy_at};
ghost use Rattle.client_copies.specs.Words.{is_exact_word, is_final, is_stable_word};
ghost use Rattle.client_copies.specs.declared.told.Word.{Word};
ghost use Rattle.client_copies.specs.declared.copy.ClientCopy.{ClientCopy};
ghost use Rattle.client_copies.specs.declared.copy.First.{First};
ghost use Rattle.client_steps.specs.Answers.{copy_deed};
ghost use Rattle.client_steps.specs.declared.desk.Desk.{Desk};
ghost use Rattle.mount.specs.declared.taking.Told.{Told};
ghost use Rattle.nfs_base.specs.declared.side.Side.{Side};
ghost use Rattle.nfs_base.specs.declared.state_id.StateId.{StateId};
ghost use Rattle.client_core.specs.Endings.{Ways};
ghost use Rattle.client_core.specs.State.{ClientState, new_client};
ghost use Rattle.client_steps.specs.declared.setting.Setting.{Setting};
ghost use Rattle.outbox.specs.declared.note.Note.{Note};
ghost use Rattle.outbox.specs.declared.outgoing.Outbox.{Outbox};
ghost use Rattle.client_laws.specs.Causes.{Cause};
ghost use Rattle.client_laws.specs.Lives.{Lives};
ghost use Rattle.client_laws.specs.Telling.{words_of};
ghost use Rattle.client_laws.specs.TurnLaws.{TurnChanges};
ghost use Rattle.client_laws.specs.Turns.{IsRun, IsTurn, MayTurn, Turn};
ghost use Rattle.client_laws.specs.WordLaws.{ComesOf, Happened, IsFirstTold, IsNamed, Knew};

use streams::Draws;

/// In a step of a client each of its copies is what events made of it, and what is told of it is what they tell. Each event
/// has its cause: the client does it of itself, an answer that it takes comes to it, or a CB_OFFLOAD comes or was held.
pub fn copies_change_by_causes<M, W: Draws>()
    ensures { (ways : Ways) (turn : Turn) (c d : ClientState M) (v w : W) (out : Outbox)
        → length c.copies.copies ≤ 256 → MayTurn turn c → IsTurn ways W.gives turn c v w (d, out) → TurnChanges ways turn c d out }
{}

/// Whatever a client is told to do and hears: each copy was begun once, and what was told of it is what the events of its
/// life tell. So it is said to be stable at most once, and behind the words failed, exact, unsure and cancelled nothing more
/// is told of it.
pub fn words_are_told_in_order<M, W: Draws>()
    ensures life { (ways : Ways) (turns : List Turn) (s : Setting M) (d : ClientState M) (told : List Note) (j : ℕ)
        → IsRun ways W.gives turns (new_client s) d told → Lives (copy_at j d.copies) (words_of j told) }
    ensures stable_once { (ways : Ways) (turns : List Turn) (s : Setting M) (d : ClientState M) (told : List Note) (j : ℕ)
        → IsRun ways W.gives turns (new_client s) d told → count_by is_stable_word (words_of j told) ≤ 1 }
    ensures last { (ways : Ways) (turns : List Turn) (s : Setting M) (d : ClientState M) (told : List Note) (j : ℕ)
        → IsRun ways W.gives turns (new_client s) d told
        → (before : List Word) (word : Word) (more : List Word) → is_final word ≡ true → words_of j told ≡ before ++ word ∷ more → more ≡ [] }
{
    client_copies::words_say_where_a_copy_is();
}

/// A copy is said to be stable or exact only by an event that has its cause: stable by a CB_OFFLOAD with FILE_SYNC4 or an
/// OFFLOAD_STATUS with status 0 once the copy was accepted, exact by a last change attribute that is the first one, told in
/// the same session.
pub fn words_have_causes<M>()
    ensures stable { (ways : Ways) (turn : Turn) (c d : ClientState M) (out : Outbox) (t : TurnChanges ways turn c d out) (j : ℕ)
        → list_any is_stable_word (words_of j out.notes) ≡ true → Happened (Cause ways turn c j) IsSaidStable (copy_at j t.start) }
    ensures exact { (ways : Ways) (turn : Turn) (c d : ClientState M) (out : Outbox) (t : TurnChanges ways turn c d out) (j : ℕ)
        → list_any is_exact_word (words_of j out.notes) ≡ true → Happened (Cause ways turn c j) IsSaidExact (copy_at j t.start) }
{
    client_copies::only_these_are_stable_and_exact();
}

/// What a copy knows it knew before, or it is told now: its first change attribute while it awaits the answer to COPY_NOTIFY,
/// its name while it awaits that to COPY.
pub fn what_is_known_was_told<M>()
    ensures first { (ways : Ways) (turn : Turn) (c d : ClientState M) (out : Outbox) (t : TurnChanges ways turn c d out) (j : ℕ) (copy : ClientCopy) (known : First)
        → copy_at j d.copies ≡ Some copy → copy.first ≡ Some known
        → Knew (λ (x : ClientCopy). x.first) known (copy_at j t.start) ⊎ Happened (Cause ways turn c j) (IsFirstTold known) (copy_at j t.start) }
    ensures name { (ways : Ways) (turn : Turn) (c d : ClientState M) (out : Outbox) (t : TurnChanges ways turn c d out) (j : ℕ) (copy : ClientCopy) (id : StateId)
        → copy_at j d.copies ≡ Some copy → copy.id ≡ Some id
        → Knew (λ (x : ClientCopy). x.id) id (copy_at j t.start) ⊎ Happened (Cause ways turn c j) (IsNamed id) (copy_at j t.start) }
{}

/// An answer to a call of a copy comes to a first change attribute, a name, a last change attribute or a progress only where
/// it is the reply, with status 0, to the call that asks for it, and has it among its results.
pub fn answers_come_to_what_they_say()
    ensures { (told : Told) (side : Side) (copy : Option ClientCopy) (sent_at : ℕ) (d : Desk) → ComesOf told side copy sent_at d (copy_deed told side copy sent_at d) }
{}
