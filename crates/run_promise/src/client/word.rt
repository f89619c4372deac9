ghost use Rattle.std.specs.Prelude.{◌≡◌, ℕ, suc, List, true};
ghost use Rattle.std.specs.List.{list_any};
ghost use Rattle.caller_laws.specs.Good.{Identity};
ghost use Rattle.client_core.specs.State.{new_client};
ghost use Rattle.client_laws.specs.Telling.{tells_stable};
ghost use Rattle.client_steps.specs.declared.setting.Setting.{Setting};
ghost use Rattle.run_ends.specs.Ends.{RunStep, RunWorld, count_gives, run_machines, words_of};
ghost use Rattle.run_promise.specs.Client.Along.{GoesAlong};
ghost use Rattle.run_promise.specs.Client.Told.{notes_at, tells_exact};
ghost use Rattle.run_promise.specs.Client.View.{client_view};
ghost use Rattle.run_promise.specs.System.System.{system_of};
ghost use Rattle.wire_model.specs.Meaning.{Meaning};
ghost use Rattle.wire_model.specs.Spelling.{Spelling};

use crate::client::words::clients_are_carried;
use client_copies::only_these_are_stable_and_exact;
use client_laws::copies_change_by_causes;
use gss_mech::Mechanism;
use streams::CountDraws;

/// Where the client tells in a step of a run that a copy is stable, it is so by the client's word behind that step; and where it tells
/// that it is exact, it is that.
pub fn what_is_told_is_the_word<M: Mechanism>()
    ensures stable { (who : Identity) (spell : Spelling) (meaning : Meaning) (first : RunWorld M) (steps : List (RunStep M)) (s : Setting M)
        (along : GoesAlong (words_of M.mic_of M.derived M.started M.accepted M.finished count_gives) spell meaning first steps who) (k n : ℕ)
        → first.client ≡ new_client s → list_any (tells_stable n) (notes_at steps k) ≡ true
        → ((system_of (run_machines M.mic_of M.derived M.started M.accepted M.finished) (record { mic = M.mic_of; derived = M.derived })
        spell meaning client_view first steps along.purposes).word (suc k) n).stable ≡ true }
    ensures exact { (who : Identity) (spell : Spelling) (meaning : Meaning) (first : RunWorld M) (steps : List (RunStep M)) (s : Setting M)
        (along : GoesAlong (words_of M.mic_of M.derived M.started M.accepted M.finished count_gives) spell meaning first steps who) (k n : ℕ)
        → first.client ≡ new_client s → list_any (tells_exact n) (notes_at steps k) ≡ true
        → ((system_of (run_machines M.mic_of M.derived M.started M.accepted M.finished) (record { mic = M.mic_of; derived = M.derived })
        spell meaning client_view first steps along.purposes).word (suc k) n).exact ≡ true }
{
    clients_are_carried::<M>();
    copies_change_by_causes::<M, CountDraws>();
    only_these_are_stable_and_exact();
}
