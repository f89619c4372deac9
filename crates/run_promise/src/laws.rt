ghost use Rattle.std.specs.Prelude.{List};
ghost use Rattle.run_ends.specs.Ends.{RunStep, RunWorld, count_gives, run_machines, words_of};
ghost use Rattle.run_ends.specs.First.{IsFirst};
ghost use Rattle.run_promise.specs.Client.Accepted.{AreAccepted};
ghost use Rattle.run_promise.specs.Promise.{KeepsPromise, run_spelling};
ghost use Rattle.wire_log.specs.Keeping.{reading};
ghost use Rattle.wire_machine.specs.Runs.{End, Numbered, Runs};
ghost use Rattle.wire_meaning.specs.Meaning.{meaning};
ghost use Rattle.wire_schedule.specs.Admission.{at_start};

use crate::client::{
    clients_are_lawful, clients_go_by_turns, clients_may_go, lines_say_stable_once,
    lines_tell_what_is_told, runs_keep_the_word, what_is_told_is_the_word, wires_are_unmistaken,
};
use crate::owing::runs_owe_all;
use crate::serving::{destinations_are_lawful_servers, sources_are_lawful, sources_call_nobody};
use crate::system::systems_show_histories;
use caller_laws::fitting::counted_draws_are_nonces;
use caller_laws::tokens_are_their_senders;
use client_laws::bounds::clients_have_fit_ways;
use gss_mech::{Mechanism, tokens_agree};
use streams::CountDraws;
use wire_model::lawful_systems;

/// The run of an accepted schedule, from servers on volumes that were just formatted, keeps and stops its copies up to each of its
/// steps, and its client keeps its word and tells no more than that: whatever is lost, repeated or reordered on the wire, whichever
/// calls of a disk fail, and whichever server stops, between two steps or in one. A step in which a record is taken by mistake is none
/// of its steps.
pub fn runs_keep_the_promise<M: Mechanism>()
    ensures { (mech : M) (events : List Numbered) (first : RunWorld M) (steps : List (RunStep M)) (end : End) → AreAccepted at_start events → IsFirst mech events first
        → Runs (run_machines M.mic_of M.derived M.started M.accepted M.finished) reading first events steps end
        → KeepsPromise (words_of M.mic_of M.derived M.started M.accepted M.finished count_gives) mech first steps }
{
    tokens_agree::<M>();
    tokens_are_their_senders::<M>();
    counted_draws_are_nonces();
    clients_have_fit_ways::<M, CountDraws>();
    clients_may_go::<M>();
    clients_go_by_turns::<M>();
    clients_are_lawful::<M>();
    wires_are_unmistaken::<M>();
    runs_keep_the_word::<M>();
    sources_are_lawful::<M>();
    sources_call_nobody::<M>();
    destinations_are_lawful_servers::<M>();
    runs_owe_all::<M>();
    systems_show_histories::<M>();
    lines_tell_what_is_told::<M>();
    lines_say_stable_once::<M>();
    what_is_told_is_the_word::<M>();
    lawful_systems();
}
