ghost use Rattle.std.specs.Prelude.{◌≡◌, ◌≤◌, ◌++◌, ◌∷◌, ℕ, List, false, count_by};
ghost use Rattle.std.specs.List.{list_any};
ghost use Rattle.caller_laws.specs.Good.{Identity};
ghost use Rattle.client_core.specs.State.{new_client};
ghost use Rattle.client_laws.specs.Telling.{tells_stable};
ghost use Rattle.client_steps.specs.declared.setting.Setting.{Setting};
ghost use Rattle.outbox.specs.declared.note.Note.{Note};
ghost use Rattle.outbox.specs.declared.note.Note.TheVariants as notes;
ghost use Rattle.run_ends.specs.Ends.{RunStep, RunWorld, count_gives, run_machines, words_of};
ghost use Rattle.run_promise.specs.Client.Along.{GoesAlong};
ghost use Rattle.run_promise.specs.Client.Lines.{told_in_lines};
ghost use Rattle.run_promise.specs.Client.Told.{notes_along};
ghost use Rattle.wire_machine.specs.Lines.{lines_of};
ghost use Rattle.wire_machine.specs.Steps.{AreSteps};
ghost use Rattle.wire_model.specs.Meaning.{Meaning};
ghost use Rattle.wire_model.specs.Spelling.{Spelling};

use crate::client::told::{none_is_stable_behind_cancelled, stable_stands_once};
use gss_mech::Mechanism;

/// The lines of a run say that its client tells what it tells, in its order, and no more.
pub fn lines_tell_what_is_told<M: Mechanism>()
    ensures { (first : RunWorld M) (steps : List (RunStep M)) → AreSteps (run_machines M.mic_of M.derived M.started M.accepted M.finished) first steps
        → told_in_lines (lines_of (run_machines M.mic_of M.derived M.started M.accepted M.finished) first steps) ≡ notes_along steps }
{}

/// So among the lines of a run that begins with a new client, `stable` of the client stands at most once for each copy, and not behind
/// `cancelled`.
pub fn lines_say_stable_once<M: Mechanism>()
    ensures once { (who : Identity) (spell : Spelling) (meaning : Meaning) (first : RunWorld M) (steps : List (RunStep M)) (s : Setting M) (n : ℕ)
        → AreSteps (run_machines M.mic_of M.derived M.started M.accepted M.finished) first steps
        → GoesAlong (words_of M.mic_of M.derived M.started M.accepted M.finished count_gives) spell meaning first steps who → first.client ≡ new_client s
        → count_by (tells_stable n) (told_in_lines (lines_of (run_machines M.mic_of M.derived M.started M.accepted M.finished) first steps)) ≤ 1 }
    ensures none_behind { (who : Identity) (spell : Spelling) (meaning : Meaning) (first : RunWorld M) (steps : List (RunStep M)) (s : Setting M) (n : ℕ)
        → AreSteps (run_machines M.mic_of M.derived M.started M.accepted M.finished) first steps
        → GoesAlong (words_of M.mic_of M.derived M.started M.accepted M.finished count_gives) spell meaning first steps who → first.client ≡ new_client s
        → (before after : List Note)
        → told_in_lines (lines_of (run_machines M.mic_of M.derived M.started M.accepted M.finished) first steps) ≡ before ++ notes.Cancelled n ∷ after
        → list_any (tells_stable n) after ≡ false }
{
    lines_tell_what_is_told::<M>();
    stable_stands_once::<M>();
    none_is_stable_behind_cancelled::<M>();
}
