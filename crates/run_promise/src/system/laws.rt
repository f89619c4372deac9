ghost use Rattle.std.specs.Prelude.{◌≡◌, ℕ, List, Some, slice_get};
ghost use Rattle.client_laws.specs.WholeTurns.{Purposes};
ghost use Rattle.run_ends.specs.Ends.{RunStep, RunWorld, run_machines};
ghost use Rattle.run_promise.specs.System.Moments.{IsMade};
ghost use Rattle.run_promise.specs.System.System.{ClientView, system_of, telling};
ghost use Rattle.wire_machine.specs.History.{history as run_history};
ghost use Rattle.wire_machine.specs.Steps.{AreSteps};
ghost use Rattle.wire_model.specs.Meaning.{Meaning};
ghost use Rattle.wire_model.specs.Spelling.{Spelling};
ghost use Rattle.wire_model.specs.System.{history};

use gss_mech::Mechanism;

/// The history of the system is that of the run, at every moment.
pub fn systems_show_histories<M: Mechanism>()
    ensures { (spell : Spelling) (meaning : Meaning) (seen : ClientView M) (first : RunWorld M) (steps : List (RunStep M)) (purposes : ℕ → Purposes) (k : ℕ)
        → history (system_of (run_machines M.mic_of M.derived M.started M.accepted M.finished) (record { mic = M.mic_of; derived = M.derived }) spell meaning seen first steps purposes) k
        ≡ run_history (run_machines M.mic_of M.derived M.started M.accepted M.finished) (telling (record { mic = M.mic_of; derived = M.derived })) spell meaning first steps k }
{}

/// The step from each moment of a run is a small step of the three machines, and leads to the next moment.
pub fn moments_are_steps<M: Mechanism>()
    ensures { (spell : Spelling) (meaning : Meaning) (first : RunWorld M) (steps : List (RunStep M)) (k : ℕ) (s : RunStep M)
        → AreSteps (run_machines M.mic_of M.derived M.started M.accepted M.finished) first steps → slice_get steps k ≡ Some s
        → IsMade (run_machines M.mic_of M.derived M.started M.accepted M.finished) (telling (record { mic = M.mic_of; derived = M.derived })) spell meaning first steps k s }
{}
