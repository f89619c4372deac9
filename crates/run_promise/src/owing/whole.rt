//! The whole run.

ghost use Rattle.std.specs.Prelude.{ℕ, List, Option};
ghost use Rattle.caller_laws.specs.Fitting.Moving.{GivesBytes};
ghost use Rattle.client_laws.specs.WholeTurns.{Purposes};
ghost use Rattle.dest_laws.specs.Calls.Steps.{StartsOwn};
ghost use Rattle.nfs_base.specs.declared.seal.End.{End};
ghost use Rattle.nfs_base.specs.declared.seal.End.TheVariants.{Dest};
ghost use Rattle.run_ends.specs.Ends.{RunStep, RunWorld, count_gives, run_machines};
ghost use Rattle.run_ends.specs.First.{IsFirst};
ghost use Rattle.run_ends.specs.Setting.{dest_name};
ghost use Rattle.run_promise.specs.Dest.Kept.{TokensAreBytes};
ghost use Rattle.run_promise.specs.Owing.Owing.{OwesAll};
ghost use Rattle.run_promise.specs.System.System.{ClientView, system_of};
ghost use Rattle.wire_machine.specs.Runs.{Numbered};
ghost use Rattle.wire_machine.specs.Steps.{AreSteps};
ghost use Rattle.wire_meaning.specs.Meaning.{meaning};
ghost use Rattle.wire_spelling.specs.Spelling.{spelling};

use gss_mech::Mechanism;

/// The destination of every run owes all, whichever server stops, and in whichever step. It rests on tokens that are its own and bytes,
/// and on codes that are bytes.
pub fn runs_owe_all<M: Mechanism>()
    ensures { (mech : M) (events : List Numbered) (first : RunWorld M) (steps : List (RunStep M)) (accepts : List ℕ → Option (List ℕ)) (whose : List ℕ → Option End)
        (seen : ClientView M) (purposes : ℕ → Purposes) → IsFirst mech events first
        → AreSteps (run_machines M.mic_of M.derived M.started M.accepted M.finished) first steps
        → StartsOwn (record { accepts = accepts; whose = whose; own = Dest }) (M.started mech dest_name) count_gives
        → GivesBytes M.mic_of → TokensAreBytes (M.started mech dest_name)
        → OwesAll (spelling accepts whose) meaning (system_of (run_machines M.mic_of M.derived M.started M.accepted M.finished) (record { mic = M.mic_of; derived = M.derived }) (spelling accepts whose) meaning seen first steps purposes) }
{
    crate::owing::openings::steps_keep_openings::<M>();
    crate::owing::openings::openings_are_begun::<M>();
    crate::owing::openings::openings_owe_all::<M>();
    crate::dest::destinations_begin_fresh::<M>();
    crate::opening::openings_are_runs::<M>();
    crate::opening::openings_stand_behind::<M>();
    crate::opening::stops_open_anew::<M>();
    crate::opening::stops_lose_all::<M>();
    crate::serving::destinations_are_lawful_servers::<M>();
    volume_stops::one_stop_is_one_crash();
    opening_laws::callers_open_anew();
    opening_laws::crashes_lose_all_copies();
    opening_laws::crashes_keep_names();
    opening_laws::callers_stand_behind();
    opening_laws::copies_stand_behind();
    opening_laws::names_stand_behind();
}
