ghost use Rattle.std.specs.Prelude.{◌≡◌, ◌≤◌, ◌++◌, ◌∷◌, ℕ, List, false, count_by};
ghost use Rattle.std.specs.List.{list_any};
ghost use Rattle.client_core.specs.Endings.{Ways};
ghost use Rattle.client_core.specs.State.{ClientState, new_client};
ghost use Rattle.client_steps.specs.declared.setting.Setting.{Setting};
ghost use Rattle.outbox.specs.declared.note.Note.{Note};
ghost use Rattle.outbox.specs.declared.note.Note.TheVariants as notes;
ghost use Rattle.client_laws.specs.Telling.{tells_stable};
ghost use Rattle.client_laws.specs.Turns.{IsRun, Turn};

use crate::word::words_are_told_in_order;
use streams::Draws;

/// In all that a client tells, however long it runs, `stable` stands at most once for each copy.
pub fn stable_is_told_once<M, W: Draws>()
    ensures { (ways : Ways) (turns : List Turn) (s : Setting M) (d : ClientState M) (told : List Note) (j : ℕ)
        → IsRun ways W.gives turns (new_client s) d told → count_by (tells_stable j) told ≤ 1 }
{
    words_are_told_in_order::<M, W>();
}

/// And behind `cancelled` it doesn't stand for that copy.
pub fn none_is_stable_once_cancelled<M, W: Draws>()
    ensures { (ways : Ways) (turns : List Turn) (s : Setting M) (d : ClientState M) (told : List Note) (j : ℕ)
        → IsRun ways W.gives turns (new_client s) d told
        → (before after : List Note) → told ≡ before ++ notes.Cancelled j ∷ after → list_any (tells_stable j) after ≡ false }
{
    words_are_told_in_order::<M, W>();
}
