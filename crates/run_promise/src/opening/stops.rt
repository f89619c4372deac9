//! The steps in which a destination stops.

ghost use Rattle.std.specs.Prelude.{◌≡◌, ◌<◌, ℕ, suc, List, [], None, Some};
ghost use Rattle.client_laws.specs.WholeTurns.{Purposes};
ghost use Rattle.nfs_base.specs.declared.seal.End.TheVariants.{Dest};
ghost use Rattle.opening_laws.specs.Anew.{KeepsNames, LosesAll};
ghost use Rattle.run_ends.specs.Ends.{RunStep, RunWorld, run_machines};
ghost use Rattle.run_ends.specs.Opening.{IsNewDest};
ghost use Rattle.run_promise.specs.Opening.Openings.{cut_at};
ghost use Rattle.run_promise.specs.Opening.Stops.{StopsAt};
ghost use Rattle.run_promise.specs.Opening.Systems.{OpeningsAreSafe, StepsKeepOpenings};
ghost use Rattle.run_promise.specs.System.System.{ClientView, system_of, telling};
ghost use Rattle.volume_stops.specs.declared.kept.Kept.{Kept};
ghost use Rattle.wire_machine.specs.Steps.{AreSteps};
ghost use Rattle.wire_model.specs.Meaning.{Meaning};
ghost use Rattle.wire_model.specs.Spelling.{Spelling};

use gss_mech::Mechanism;

/// Where the destination stops it is opened anew, by the volume that the stop leaves. It told nothing in the step, and sent nothing.
pub fn stops_open_anew<M: Mechanism>()
    ensures anew { (spell : Spelling) (meaning : Meaning) (first : RunWorld M) (steps : List (RunStep M)) → AreSteps (run_machines M.mic_of M.derived M.started M.accepted M.finished) first steps
        → (k : ℕ) (kept : Kept) → cut_at (run_machines M.mic_of M.derived M.started M.accepted M.finished) (telling (record { mic = M.mic_of; derived = M.derived })) spell meaning first steps k ≡ Some kept
        → StopsAt (run_machines M.mic_of M.derived M.started M.accepted M.finished) (record { mic = M.mic_of; derived = M.derived }) spell meaning first steps k kept }
    ensures untold { (spell : Spelling) (meaning : Meaning) (seen : ClientView M) (first : RunWorld M) (steps : List (RunStep M)) (purposes : ℕ → Purposes)
        (k : ℕ) (kept : Kept) → cut_at (run_machines M.mic_of M.derived M.started M.accepted M.finished) (telling (record { mic = M.mic_of; derived = M.derived })) spell meaning first steps k ≡ Some kept
        → ((system_of (run_machines M.mic_of M.derived M.started M.accepted M.finished) (record { mic = M.mic_of; derived = M.derived }) spell meaning seen first steps purposes).acts Dest k).executed ≡ None }
    ensures unsent { (spell : Spelling) (meaning : Meaning) (seen : ClientView M) (first : RunWorld M) (steps : List (RunStep M)) (purposes : ℕ → Purposes)
        → AreSteps (run_machines M.mic_of M.derived M.started M.accepted M.finished) first steps → (k : ℕ) (kept : Kept)
        → cut_at (run_machines M.mic_of M.derived M.started M.accepted M.finished) (telling (record { mic = M.mic_of; derived = M.derived })) spell meaning first steps k ≡ Some kept
        → ((system_of (run_machines M.mic_of M.derived M.started M.accepted M.finished) (record { mic = M.mic_of; derived = M.derived }) spell meaning seen first steps purposes).acts Dest k).out ≡ [] }
{}

/// All of its copies are lost then, and keep their names.
pub fn stops_lose_all<M: Mechanism>()
    ensures lost { (mech : M) (spell : Spelling) (meaning : Meaning) (seen : ClientView M) (first : RunWorld M) (steps : List (RunStep M)) (purposes : ℕ → Purposes)
        → IsNewDest mech first.dest → AreSteps (run_machines M.mic_of M.derived M.started M.accepted M.finished) first steps
        → StepsKeepOpenings (run_machines M.mic_of M.derived M.started M.accepted M.finished)
        → OpeningsAreSafe (run_machines M.mic_of M.derived M.started M.accepted M.finished) (record { mic = M.mic_of; derived = M.derived }) spell meaning seen first steps purposes
        → (k : ℕ) (kept : Kept) → cut_at (run_machines M.mic_of M.derived M.started M.accepted M.finished) (telling (record { mic = M.mic_of; derived = M.derived })) spell meaning first steps k ≡ Some kept
        → LosesAll (system_of (run_machines M.mic_of M.derived M.started M.accepted M.finished) (record { mic = M.mic_of; derived = M.derived }) spell meaning seen first steps purposes) k }
    ensures names { (mech : M) (spell : Spelling) (meaning : Meaning) (seen : ClientView M) (first : RunWorld M) (steps : List (RunStep M)) (purposes : ℕ → Purposes)
        → IsNewDest mech first.dest → AreSteps (run_machines M.mic_of M.derived M.started M.accepted M.finished) first steps
        → StepsKeepOpenings (run_machines M.mic_of M.derived M.started M.accepted M.finished)
        → (k : ℕ) (kept : Kept) → cut_at (run_machines M.mic_of M.derived M.started M.accepted M.finished) (telling (record { mic = M.mic_of; derived = M.derived })) spell meaning first steps k ≡ Some kept
        → KeepsNames (system_of (run_machines M.mic_of M.derived M.started M.accepted M.finished) (record { mic = M.mic_of; derived = M.derived }) spell meaning seen first steps purposes) k }
{
    crate::opening::openings::openings_are_runs::<M>();
    volume_stops::one_stop_is_one_crash();
    past_copies::copies_stand_in_order();
    past_copies::copies_of_the_past_stay();
    past_copies::crashes_end_openings();
}
