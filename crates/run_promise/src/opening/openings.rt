//! The openings of a destination as runs.

ghost use Rattle.std.specs.Prelude.{◌≡◌, ◌⊎◌, ℕ, suc, List, None};
ghost use Rattle.client_laws.specs.WholeTurns.{Purposes};
ghost use Rattle.opening_laws.specs.Behind.{GoesBehind, ShowsBehind};
ghost use Rattle.past_copies.specs.Past.{ArePast};
ghost use Rattle.run_ends.specs.Ends.{RunStep, RunWorld, run_machines};
ghost use Rattle.run_ends.specs.Opening.{IsNewDest};
ghost use Rattle.run_promise.specs.Opening.Openings.{IsOpening, began, cut_at, opened_at, seen_by};
ghost use Rattle.run_promise.specs.Opening.Stops.{OpensAnew};
ghost use Rattle.run_promise.specs.Opening.Systems.{OpeningsAreSafe, StepsKeepOpenings, base_at, own_system, turn_at};
ghost use Rattle.run_promise.specs.System.Moments.{world_at};
ghost use Rattle.run_promise.specs.System.System.{ClientView, system_of, telling};
ghost use Rattle.wire_machine.specs.Steps.{AreSteps};
ghost use Rattle.wire_model.specs.Meaning.{Meaning};
ghost use Rattle.wire_model.specs.Spelling.{Spelling};

use gss_mech::Mechanism;

/// The opening of the destination at a moment of a run is a run of its own, in which it never stops.
pub fn openings_are_runs<M: Mechanism>()
    ensures { (spell : Spelling) (meaning : Meaning) (first : RunWorld M) (steps : List (RunStep M)) → AreSteps (run_machines M.mic_of M.derived M.started M.accepted M.finished) first steps → (k : ℕ)
        → IsOpening (run_machines M.mic_of M.derived M.started M.accepted M.finished) (telling (record { mic = M.mic_of; derived = M.derived })) spell meaning first steps k }
{}

/// It began at the first moment, or behind a step in which the destination stopped and was opened anew; so at first it was just opened
/// then, with the mechanism that it has in all of the run. It rests on this, that a step in which it doesn't stop is one of its opening.
pub fn openings_begin<M: Mechanism>()
    ensures begins { (spell : Spelling) (meaning : Meaning) (first : RunWorld M) (steps : List (RunStep M)) → AreSteps (run_machines M.mic_of M.derived M.started M.accepted M.finished) first steps → (k : ℕ)
        → (began (run_machines M.mic_of M.derived M.started M.accepted M.finished) (telling (record { mic = M.mic_of; derived = M.derived })) spell meaning first steps k ≡ 0)
        ⊎ OpensAnew (run_machines M.mic_of M.derived M.started M.accepted M.finished) (record { mic = M.mic_of; derived = M.derived }) spell meaning first steps k }
    ensures new { (mech : M) (spell : Spelling) (meaning : Meaning) (first : RunWorld M) (steps : List (RunStep M)) → IsNewDest mech first.dest
        → AreSteps (run_machines M.mic_of M.derived M.started M.accepted M.finished) first steps → StepsKeepOpenings (run_machines M.mic_of M.derived M.started M.accepted M.finished) → (k : ℕ)
        → IsNewDest mech (opened_at (run_machines M.mic_of M.derived M.started M.accepted M.finished) (telling (record { mic = M.mic_of; derived = M.derived })) spell meaning first steps k).dest }
    ensures mechanism { (spell : Spelling) (meaning : Meaning) (first : RunWorld M) (steps : List (RunStep M))
        → AreSteps (run_machines M.mic_of M.derived M.started M.accepted M.finished) first steps → StepsKeepOpenings (run_machines M.mic_of M.derived M.started M.accepted M.finished) → (k : ℕ)
        → (world_at (run_machines M.mic_of M.derived M.started M.accepted M.finished) (telling (record { mic = M.mic_of; derived = M.derived })) spell meaning first steps k).dest.state.machine.extra.mech
        ≡ first.dest.state.machine.extra.mech }
{}

/// In a step in which the destination doesn't stop the system of the run shows what that of its opening shows, behind the copies of the
/// openings before, which are lost. It rests on each opening's copies: what is reported of them as stable is safe.
pub fn openings_stand_behind<M: Mechanism>()
    ensures behind { (mech : M) (spell : Spelling) (meaning : Meaning) (seen : ClientView M) (first : RunWorld M) (steps : List (RunStep M)) (purposes : ℕ → Purposes)
        → IsNewDest mech first.dest → AreSteps (run_machines M.mic_of M.derived M.started M.accepted M.finished) first steps
        → StepsKeepOpenings (run_machines M.mic_of M.derived M.started M.accepted M.finished)
        → OpeningsAreSafe (run_machines M.mic_of M.derived M.started M.accepted M.finished) (record { mic = M.mic_of; derived = M.derived }) spell meaning seen first steps purposes
        → (k : ℕ) → cut_at (run_machines M.mic_of M.derived M.started M.accepted M.finished) (telling (record { mic = M.mic_of; derived = M.derived })) spell meaning first steps k ≡ None
        → GoesBehind (base_at (run_machines M.mic_of M.derived M.started M.accepted M.finished) (record { mic = M.mic_of; derived = M.derived }) spell meaning seen first steps purposes k)
        (own_system (run_machines M.mic_of M.derived M.started M.accepted M.finished) (record { mic = M.mic_of; derived = M.derived }) spell meaning seen first steps purposes k)
        (turn_at (run_machines M.mic_of M.derived M.started M.accepted M.finished) (record { mic = M.mic_of; derived = M.derived }) spell meaning seen first steps purposes k)
        (system_of (run_machines M.mic_of M.derived M.started M.accepted M.finished) (record { mic = M.mic_of; derived = M.derived }) spell meaning seen first steps purposes) k }
    // At each moment it shows so what that shows, and in such a step they have one volume.
    ensures shows { (spell : Spelling) (meaning : Meaning) (seen : ClientView M) (first : RunWorld M) (steps : List (RunStep M)) (purposes : ℕ → Purposes)
        → AreSteps (run_machines M.mic_of M.derived M.started M.accepted M.finished) first steps → (k : ℕ)
        → ShowsBehind (base_at (run_machines M.mic_of M.derived M.started M.accepted M.finished) (record { mic = M.mic_of; derived = M.derived }) spell meaning seen first steps purposes k)
        (own_system (run_machines M.mic_of M.derived M.started M.accepted M.finished) (record { mic = M.mic_of; derived = M.derived }) spell meaning seen first steps purposes k)
        (turn_at (run_machines M.mic_of M.derived M.started M.accepted M.finished) (record { mic = M.mic_of; derived = M.derived }) spell meaning seen first steps purposes k)
        (system_of (run_machines M.mic_of M.derived M.started M.accepted M.finished) (record { mic = M.mic_of; derived = M.derived }) spell meaning seen first steps purposes) k }
    ensures volumes { (spell : Spelling) (meaning : Meaning) (seen : ClientView M) (first : RunWorld M) (steps : List (RunStep M)) (purposes : ℕ → Purposes)
        → AreSteps (run_machines M.mic_of M.derived M.started M.accepted M.finished) first steps → (k : ℕ)
        → cut_at (run_machines M.mic_of M.derived M.started M.accepted M.finished) (telling (record { mic = M.mic_of; derived = M.derived })) spell meaning first steps k ≡ None
        → ((system_of (run_machines M.mic_of M.derived M.started M.accepted M.finished) (record { mic = M.mic_of; derived = M.derived }) spell meaning seen first steps purposes).dest k
        ≡ (own_system (run_machines M.mic_of M.derived M.started M.accepted M.finished) (record { mic = M.mic_of; derived = M.derived }) spell meaning seen first steps purposes k).dest (turn_at (run_machines M.mic_of M.derived M.started M.accepted M.finished) (record { mic = M.mic_of; derived = M.derived }) spell meaning seen first steps purposes k))
        × ((system_of (run_machines M.mic_of M.derived M.started M.accepted M.finished) (record { mic = M.mic_of; derived = M.derived }) spell meaning seen first steps purposes).dest (suc k)
        ≡ (own_system (run_machines M.mic_of M.derived M.started M.accepted M.finished) (record { mic = M.mic_of; derived = M.derived }) spell meaning seen first steps purposes k).dest (suc (turn_at (run_machines M.mic_of M.derived M.started M.accepted M.finished) (record { mic = M.mic_of; derived = M.derived }) spell meaning seen first steps purposes k))) }
    // And the copies of the openings before are of openings before.
    ensures past { (mech : M) (spell : Spelling) (meaning : Meaning) (first : RunWorld M) (steps : List (RunStep M)) → IsNewDest mech first.dest
        → AreSteps (run_machines M.mic_of M.derived M.started M.accepted M.finished) first steps → StepsKeepOpenings (run_machines M.mic_of M.derived M.started M.accepted M.finished) → (k : ℕ)
        → ArePast (world_at (run_machines M.mic_of M.derived M.started M.accepted M.finished) (telling (record { mic = M.mic_of; derived = M.derived })) spell meaning first steps k).dest.state.machine.store.volume.boot
        (seen_by (run_machines M.mic_of M.derived M.started M.accepted M.finished) (telling (record { mic = M.mic_of; derived = M.derived })) spell meaning first steps k).past }
{
    openings_are_runs::<M>();
    volume_stops::one_stop_is_one_crash();
    past_copies::copies_stand_in_order();
    past_copies::copies_of_the_past_stay();
    past_copies::crashes_end_openings();
}
