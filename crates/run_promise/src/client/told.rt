ghost use Rattle.std.specs.Prelude.{◌≡◌, ◌≤◌, ◌++◌, ◌∷◌, ℕ, length, List, false, count_by};
ghost use Rattle.std.specs.List.{list_any};
ghost use Rattle.caller_laws.specs.Good.{Identity};
ghost use Rattle.client_core.specs.State.{new_client};
ghost use Rattle.client_laws.specs.Telling.{tells_stable};
ghost use Rattle.client_steps.specs.declared.setting.Setting.{Setting};
ghost use Rattle.outbox.specs.declared.note.Note.{Note};
ghost use Rattle.outbox.specs.declared.note.Note.TheVariants as notes;
ghost use Rattle.run_ends.specs.Ends.{RunStep, RunWorld, count_gives, words_of};
ghost use Rattle.run_promise.specs.Client.Along.{GoesAlong, client_at};
ghost use Rattle.run_promise.specs.Client.Told.{IsToldInTurns, notes_along};
ghost use Rattle.wire_model.specs.Meaning.{Meaning};
ghost use Rattle.wire_model.specs.Spelling.{Spelling};

use client_laws::{none_is_stable_once_cancelled, stable_is_told_once};
use gss_mech::Mechanism;
use streams::CountDraws;

/// What the client tells along a run that begins with a new client it tells in a run of its turns, which leads to the run's last client.
pub fn clients_tell_in_turns<M: Mechanism>()
    ensures { (who : Identity) (spell : Spelling) (meaning : Meaning) (first : RunWorld M) (steps : List (RunStep M)) (s : Setting M)
        → GoesAlong (words_of M.mic_of M.derived M.started M.accepted M.finished count_gives) spell meaning first steps who → first.client ≡ new_client s
        → IsToldInTurns (words_of M.mic_of M.derived M.started M.accepted M.finished count_gives) s
        (client_at (words_of M.mic_of M.derived M.started M.accepted M.finished count_gives) spell meaning first steps (length steps)) (notes_along steps) }
{}

/// In all that the client tells along a run, `stable` stands at most once for each copy.
pub fn stable_stands_once<M: Mechanism>()
    ensures { (who : Identity) (spell : Spelling) (meaning : Meaning) (first : RunWorld M) (steps : List (RunStep M)) (s : Setting M) (n : ℕ)
        → GoesAlong (words_of M.mic_of M.derived M.started M.accepted M.finished count_gives) spell meaning first steps who → first.client ≡ new_client s
        → count_by (tells_stable n) (notes_along steps) ≤ 1 }
{
    clients_tell_in_turns::<M>();
    stable_is_told_once::<M, CountDraws>();
}

/// And behind `cancelled` it doesn't stand for that copy.
pub fn none_is_stable_behind_cancelled<M: Mechanism>()
    ensures { (who : Identity) (spell : Spelling) (meaning : Meaning) (first : RunWorld M) (steps : List (RunStep M)) (s : Setting M) (n : ℕ)
        → GoesAlong (words_of M.mic_of M.derived M.started M.accepted M.finished count_gives) spell meaning first steps who → first.client ≡ new_client s
        → (before after : List Note) → notes_along steps ≡ before ++ notes.Cancelled n ∷ after → list_any (tells_stable n) after ≡ false }
{
    clients_tell_in_turns::<M>();
    none_is_stable_once_cancelled::<M, CountDraws>();
}
