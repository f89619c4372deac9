ghost use Rattle.std.specs.Prelude.{◌≡◌, ℕ, List, suc};
ghost use Rattle.caller_laws.specs.Good.{Identity};
ghost use Rattle.client_core.specs.Endings.{Ways, ways_of};
ghost use Rattle.client_core.specs.State.{ClientState, new_client};
ghost use Rattle.client_laws.specs.CallerLaws.{StartsOwn};
ghost use Rattle.client_laws.specs.Speaking.Carried.{IsCarried};
ghost use Rattle.client_laws.specs.Speaking.Views.{IsClientStep, IsSeenAt};
ghost use Rattle.client_laws.specs.Turns.{Turn};
ghost use Rattle.client_laws.specs.WholeTurns.{IsTurnAtBoth, Purposes};
ghost use Rattle.client_steps.specs.declared.setting.Setting.{Setting};
ghost use Rattle.outbox.specs.declared.outgoing.Outbox.{Outbox};
ghost use Rattle.wire_meaning.specs.Meaning.{meaning};
ghost use Rattle.wire_model.specs.Meaning.{Meaning};
ghost use Rattle.wire_model.specs.Spelling.{Spelling};
ghost use Rattle.wire_model.specs.System.{System};
ghost use Rattle.wire_model.specs.WordLaws.{WordLaws, WordStart};
ghost use Rattle.wire_spelling.specs.Spelling.{spelling};

use crate::{
    answers_are_taken, answers_come_to_what_they_say, copies_change_by_causes,
    what_is_held_was_called_back, what_is_known_was_told,
};
use client_copies::only_these_are_stable_and_exact;
use gss_mech::Mechanism;
use streams::Draws;
use wire_meaning::questions_are_read;

/// The client obeys the laws of its word in each of its turns. What it knows of its copies it is told by the answers to its own
/// calls: the first change attribute under the root of its call, the name, and the last change attribute, by which it says that a
/// copy is exact, under the same root as the first. It says that a copy is stable by a report of the destination: a callback that
/// comes, one that it held, or a status. What it knows and said stays.
pub fn words_are_lawful<M: Mechanism, W: Draws>()
    ensures { (setting : Setting M) (who : Identity) (boot : ℕ) (purposes : Purposes) (turn : Turn) (c d : ClientState M) (v w : W) (out : Outbox)
        (t : IsTurnAtBoth who (ways_of M.mic_of M.derived M.finished M.started M.accepted setting) boot purposes turn c d out) (s : System) (k : ℕ)
        → StartsOwn who (ways_of M.mic_of M.derived M.finished M.started M.accepted setting) W.gives
        → IsCarried who boot purposes c
        → IsClientStep who (ways_of M.mic_of M.derived M.finished M.started M.accepted setting) W.gives boot purposes turn c d v w out t s k
        → WordLaws (spelling who.accepts who.whose) meaning s k }
{
    answers_are_taken::<M, W>();
    answers_come_to_what_they_say();
    copies_change_by_causes::<M, W>();
    what_is_held_was_called_back::<M, W>();
    what_is_known_was_told::<M>();
    only_these_are_stable_and_exact();
    questions_are_read();
}

/// In a step in which the client rests it obeys them too.
pub fn words_rest<M>()
    ensures { (spell : Spelling) (meaning : Meaning) (boot : ℕ) (purposes : Purposes) (c : ClientState M) (s : System) (k : ℕ)
        → IsSeenAt boot purposes c s k → IsSeenAt boot purposes c s (suc k) → WordLaws spell meaning s k }
{}

/// At the first moment the client knows nothing, has said nothing and holds no report.
pub fn words_begin<M>()
    ensures { (setting : Setting M) (boot : ℕ) (purposes : Purposes) (s : System) → IsSeenAt boot purposes (new_client setting) s 0 → WordStart s }
{}
