ghost use Rattle.std.specs.Prelude.{ℕ, suc, List, Option};
ghost use Rattle.client_laws.specs.WholeTurns.{Purposes};
ghost use Rattle.dest_core.specs.Stepping.{copier_in};
ghost use Rattle.dest_laws.specs.Landings.Posted.{AreSpelled};
ghost use Rattle.dest_laws.specs.View.Dues.{AreSafe};
ghost use Rattle.nfs_base.specs.declared.seal.End.{End};
ghost use Rattle.nfs_base.specs.declared.side.Side.TheVariants as sides;
ghost use Rattle.run_ends.specs.Ends.{RunStep, RunWorld, count_gives, run_machines, words_of};
ghost use Rattle.run_promise.specs.Dest.Begun.{IsBegun};
ghost use Rattle.run_promise.specs.Dest.Goes.{GoesOn};
ghost use Rattle.run_promise.specs.Dest.Moments.{host_at, part_at, step_at};
ghost use Rattle.run_promise.specs.System.System.{ClientView, opening_of};
ghost use Rattle.wire_machine.specs.Steps.{AreSteps, NeverStops};
ghost use Rattle.wire_meaning.specs.Meaning.{meaning};
ghost use Rattle.wire_model.specs.CopyLaws.{CopiesLaws};
ghost use Rattle.wire_model.specs.Meaning.{Meaning};
ghost use Rattle.wire_model.specs.Spelling.{Spelling};
ghost use Rattle.wire_spelling.specs.Spelling.{spelling};

use gss_mech::Mechanism;
use streams::CountDraws;

/// At each moment of an opening the destination goes on in one of its ways, where what its mount awaits then in its slots has a
/// spelling.
pub fn destinations_go_on<M: Mechanism>()
    ensures { (mech : M) (first : RunWorld M) (steps : List (RunStep M)) (spell : Spelling) (meaning : Meaning) (seen : ClientView M)
        (purposes : ℕ → Purposes) → IsBegun mech first.dest → AreSteps (run_machines M.mic_of M.derived M.started M.accepted M.finished) first steps
        → NeverStops sides.Dest first steps → (k : ℕ)
        → AreSpelled (copier_in (host_at (run_machines M.mic_of M.derived M.started M.accepted M.finished) (record { mic = M.mic_of; derived = M.derived }) spell meaning first steps k)).work.mount
        → GoesOn (words_of M.mic_of M.derived M.started M.accepted M.finished count_gives)
        (opening_of (run_machines M.mic_of M.derived M.started M.accepted M.finished) (record { mic = M.mic_of; derived = M.derived }) spell meaning seen first steps purposes) k
        (part_at (run_machines M.mic_of M.derived M.started M.accepted M.finished) (record { mic = M.mic_of; derived = M.derived }) spell meaning first steps k).took
        (part_at (run_machines M.mic_of M.derived M.started M.accepted M.finished) (record { mic = M.mic_of; derived = M.derived }) spell meaning first steps k).speaker
        (host_at (run_machines M.mic_of M.derived M.started M.accepted M.finished) (record { mic = M.mic_of; derived = M.derived }) spell meaning first steps k)
        (step_at (run_machines M.mic_of M.derived M.started M.accepted M.finished) (record { mic = M.mic_of; derived = M.derived }) spell meaning first steps k) }
{
    crate::dest::copies::destinations_are_shown::<M>();
}

/// So the copies of an opening obey their laws at every moment, where what is awaited at each has a spelling, and what is reported as
/// stable is safe.
pub fn copies_are_lawful<M: Mechanism>()
    ensures { (mech : M) (first : RunWorld M) (steps : List (RunStep M)) (accepts : List ℕ → Option (List ℕ)) (whose : List ℕ → Option End)
        (seen : ClientView M) (purposes : ℕ → Purposes) → IsBegun mech first.dest → AreSteps (run_machines M.mic_of M.derived M.started M.accepted M.finished) first steps
        → NeverStops sides.Dest first steps
        → ((k : ℕ) → AreSpelled (copier_in (host_at (run_machines M.mic_of M.derived M.started M.accepted M.finished) (record { mic = M.mic_of; derived = M.derived }) (spelling accepts whose) meaning first steps k)).work.mount)
        → ((k : ℕ) → AreSafe (opening_of (run_machines M.mic_of M.derived M.started M.accepted M.finished) (record { mic = M.mic_of; derived = M.derived }) (spelling accepts whose) meaning seen first steps purposes) (suc k))
        → (k : ℕ) → CopiesLaws (spelling accepts whose) meaning (opening_of (run_machines M.mic_of M.derived M.started M.accepted M.finished) (record { mic = M.mic_of; derived = M.derived }) (spelling accepts whose) meaning seen first steps purposes) k }
{
    destinations_go_on::<M>();
    dest_laws::landings::workers_ask_by_plans::<M, CountDraws>();
    crate::dest::lands::runs_land_well::<M, CountDraws>();
    crate::dest::copies::destinations_are_shown::<M>();
    crate::dest::copies::shown_copies_are_lawful::<M>();
}
