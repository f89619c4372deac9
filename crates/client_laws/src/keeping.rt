ghost use Rattle.std.specs.Prelude.{◌≡◌, ◌⊎◌, Contains, ℕ, List, Some};
ghost use Rattle.client_copies.specs.Table.{copy_at};
ghost use Rattle.client_copies.specs.declared.copy.ClientCopy.{ClientCopy};
ghost use Rattle.client_copies.specs.declared.copy.First.{First};
ghost use Rattle.client_copies.specs.declared.held.HeldOffload.{HeldOffload};
ghost use Rattle.client_core.specs.Endings.{Ways};
ghost use Rattle.client_core.specs.State.{ClientState, new_client};
ghost use Rattle.client_steps.specs.declared.setting.Setting.{Setting};
ghost use Rattle.nfs_base.specs.declared.state_id.StateId.{StateId};
ghost use Rattle.outbox.specs.declared.note.Note.{Note};
ghost use Rattle.outbox.specs.declared.outgoing.Outbox.{Outbox};
ghost use Rattle.client_laws.specs.Causes.{WasCalledBack};
ghost use Rattle.client_laws.specs.Turns.{IsRun, IsTurn, MayTurn, Turn};
ghost use Rattle.client_laws.specs.WordLaws.{Knew};

use streams::Draws;

/// What a client holds of copies whose names it doesn't know yet it held before, or a CB_OFFLOAD brings it now.
pub fn what_is_held_was_called_back<M, W: Draws>()
    ensures { (ways : Ways) (turn : Turn) (c d : ClientState M) (v w : W) (out : Outbox) (held : HeldOffload)
        → MayTurn turn c → IsTurn ways W.gives turn c v w (d, out) → Contains d.copies.held held
        → Contains c.copies.held held ⊎ WasCalledBack ways turn c held }
{}

/// What is known of a copy stays: its first change attribute, and its name.
pub fn what_is_known_stays<M, W: Draws>()
    ensures first { (ways : Ways) (turns : List Turn) (s : Setting M) (c : ClientState M) (told : List Note)
        (turn : Turn) (d : ClientState M) (v w : W) (out : Outbox) (j : ℕ) (known : First)
        → IsRun ways W.gives turns (new_client s) c told → MayTurn turn c → IsTurn ways W.gives turn c v w (d, out)
        → Knew (λ (x : ClientCopy). x.first) known (copy_at j c.copies) → Knew (λ (x : ClientCopy). x.first) known (copy_at j d.copies) }
    ensures name { (ways : Ways) (turns : List Turn) (s : Setting M) (c : ClientState M) (told : List Note)
        (turn : Turn) (d : ClientState M) (v w : W) (out : Outbox) (j : ℕ) (id : StateId)
        → IsRun ways W.gives turns (new_client s) c told → MayTurn turn c → IsTurn ways W.gives turn c v w (d, out)
        → Knew (λ (x : ClientCopy). x.id) id (copy_at j c.copies) → Knew (λ (x : ClientCopy). x.id) id (copy_at j d.copies) }
{}
