ghost use Rattle.std.specs.Prelude.{◌≡◌, ℕ, List};
ghost use Rattle.caller_laws.specs.Good.{Identity};
ghost use Rattle.client_core.specs.State.{new_client};
ghost use Rattle.client_laws.specs.CallerLaws.{StartsOwn};
ghost use Rattle.client_laws.specs.Speaking.Carried.{IsCarried};
ghost use Rattle.client_steps.specs.declared.setting.Setting.{Setting};
ghost use Rattle.run_ends.specs.Ends.{RunStep, RunWorld, count_gives, run_machines, ways, words_of};
ghost use Rattle.run_promise.specs.Client.Along.{GoesAlong, client_at};
ghost use Rattle.run_promise.specs.Client.View.{client_view};
ghost use Rattle.run_promise.specs.System.System.{system_of};
ghost use Rattle.wire_meaning.specs.Meaning.{meaning};
ghost use Rattle.wire_model.specs.Meaning.{Meaning};
ghost use Rattle.wire_model.specs.Spelling.{Spelling};
ghost use Rattle.wire_model.specs.WordLaws.{WordLaws, WordStart};
ghost use Rattle.wire_spelling.specs.Spelling.{spelling};

use client_laws::speaking::{clients_carry_on, words_are_lawful, words_begin, words_rest};
use gss_mech::Mechanism;
use streams::CountDraws;

/// At every moment of a run that begins with a new client, what holds of a client between turns holds of it.
pub fn clients_are_carried<M: Mechanism>()
    ensures { (who : Identity) (spell : Spelling) (meaning : Meaning) (first : RunWorld M) (steps : List (RunStep M)) (s : Setting M)
        (along : GoesAlong (words_of M.mic_of M.derived M.started M.accepted M.finished count_gives) spell meaning first steps who) (k : ℕ)
        → first.client ≡ new_client s
        → IsCarried who 0 (along.purposes k) (client_at (words_of M.mic_of M.derived M.started M.accepted M.finished count_gives) spell meaning first steps k) }
{
    clients_carry_on::<M, CountDraws>();
}

/// The client obeys the laws of its word at every moment of a run that begins with a new client, and at the first moment it knows
/// nothing and has said nothing.
pub fn runs_keep_the_word<M: Mechanism>()
    ensures laws { (who : Identity) (first : RunWorld M) (steps : List (RunStep M)) (s : Setting M)
        (along : GoesAlong (words_of M.mic_of M.derived M.started M.accepted M.finished count_gives) (spelling who.accepts who.whose) meaning first steps who) (k : ℕ)
        → first.client ≡ new_client s
        → StartsOwn who (ways (words_of M.mic_of M.derived M.started M.accepted M.finished count_gives) first.client) count_gives
        → WordLaws (spelling who.accepts who.whose) meaning
        (system_of (run_machines M.mic_of M.derived M.started M.accepted M.finished) (record { mic = M.mic_of; derived = M.derived })
        (spelling who.accepts who.whose) meaning client_view first steps along.purposes) k }
    ensures start { (who : Identity) (first : RunWorld M) (steps : List (RunStep M)) (s : Setting M)
        (along : GoesAlong (words_of M.mic_of M.derived M.started M.accepted M.finished count_gives) (spelling who.accepts who.whose) meaning first steps who)
        → first.client ≡ new_client s
        → WordStart
        (system_of (run_machines M.mic_of M.derived M.started M.accepted M.finished) (record { mic = M.mic_of; derived = M.derived })
        (spelling who.accepts who.whose) meaning client_view first steps along.purposes) }
{
    clients_are_carried::<M>();
    words_are_lawful::<M, CountDraws>();
    words_begin::<M>();
    words_rest::<M>();
}
