ghost use Rattle.std.specs.Prelude.{◌<◌, ◌^◌, ℕ, suc, List, Option};
ghost use Rattle.dest_core.specs.Stepping.{DestState, DestStep};
ghost use Rattle.dest_laws.specs.Copies.Runs.{ShowsRun};
ghost use Rattle.dest_laws.specs.Landings.Orderly.{IsOrderly};
ghost use Rattle.dest_laws.specs.Landings.Posted.{AreSpelled};
ghost use Rattle.dest_laws.specs.View.Dues.{HoldsWell, LandsWell};
ghost use Rattle.mount.specs.State.{Mounted};
ghost use Rattle.nfs_base.specs.declared.seal.End.{End};
ghost use Rattle.run_promise.specs.Dest.Ways.{GoesBy, GoesSpelled, VolumeOwes, Way, words_at};
ghost use Rattle.wire_meaning.specs.Meaning.{meaning};
ghost use Rattle.wire_model.specs.System.{System};
ghost use Rattle.wire_spelling.specs.Spelling.{spelling};

use dest_laws::landings::{
    landings_are_due, moves_keep_calls_spelled, rests_owe_nothing, volumes_go_on,
    workers_ask_by_plans,
};
use gss_mech::Mechanism;
use streams::Draws;

/// Along a run that a system shows, a destination that begins orderly stays so, and at each moment what is entered of lengths and
/// landings is due, what lands and what is held was at hand, and, but where a record comes on a connection, its volume goes on by one
/// effect that is allowed.
pub fn runs_land_well<M: Mechanism, W: Draws>()
    ensures orderly { (mech : ℕ → M) (started finished : ℕ → List ℕ → List ℕ → Option (List ℕ)) (accepts : List ℕ → Option (List ℕ)) (whose : List ℕ → Option End) (s : System)
        (host : ℕ → DestState M) (step : ℕ → DestStep M) (ways : ℕ → Way) (run : ShowsRun (spelling accepts whose) meaning s host step) → IsOrderly (host 0)
        → ((k : ℕ) → GoesBy (words_at (record { mic = M.mic_of; derived = M.derived }) M.accepted mech started finished W.gives k) s k (run.took k) (run.speaker k) (host k) (step k) (ways k))
        → (k : ℕ) → IsOrderly (host k) }
    ensures lands { (mech : ℕ → M) (started finished : ℕ → List ℕ → List ℕ → Option (List ℕ)) (accepts : List ℕ → Option (List ℕ)) (whose : List ℕ → Option End) (s : System)
        (host : ℕ → DestState M) (step : ℕ → DestStep M) (ways : ℕ → Way) (run : ShowsRun (spelling accepts whose) meaning s host step) → IsOrderly (host 0)
        → ((k : ℕ) → GoesBy (words_at (record { mic = M.mic_of; derived = M.derived }) M.accepted mech started finished W.gives k) s k (run.took k) (run.speaker k) (host k) (step k) (ways k))
        → (k : ℕ) → LandsWell (spelling accepts whose) meaning s k }
    ensures holds { (mech : ℕ → M) (started finished : ℕ → List ℕ → List ℕ → Option (List ℕ)) (accepts : List ℕ → Option (List ℕ)) (whose : List ℕ → Option End) (s : System)
        (host : ℕ → DestState M) (step : ℕ → DestStep M) (ways : ℕ → Way) (run : ShowsRun (spelling accepts whose) meaning s host step) → IsOrderly (host 0)
        → ((k : ℕ) → GoesBy (words_at (record { mic = M.mic_of; derived = M.derived }) M.accepted mech started finished W.gives k) s k (run.took k) (run.speaker k) (host k) (step k) (ways k))
        → (k : ℕ) → HoldsWell (spelling accepts whose) meaning s k }
    ensures volumes { (mech : ℕ → M) (started finished : ℕ → List ℕ → List ℕ → Option (List ℕ)) (accepts : List ℕ → Option (List ℕ)) (whose : List ℕ → Option End) (s : System)
        (host : ℕ → DestState M) (step : ℕ → DestStep M) (ways : ℕ → Way) (run : ShowsRun (spelling accepts whose) meaning s host step) → IsOrderly (host 0)
        → ((k : ℕ) → GoesBy (words_at (record { mic = M.mic_of; derived = M.derived }) M.accepted mech started finished W.gives k) s k (run.took k) (run.speaker k) (host k) (step k) (ways k))
        → ((k : ℕ) → (host k).state.machine.store.volume.writes < 2 ^ 32) → (k : ℕ) → VolumeOwes (ways k) s k }
{
    workers_ask_by_plans::<M, W>();
    landings_are_due::<M, W>();
    rests_owe_nothing();
    volumes_go_on::<M, W>();
}

/// Along mounts of which each follows from the one before by moves whose calls can be spelled, what is awaited in slots stays spelled.
pub fn calls_stay_spelled()
    ensures { (mounts : ℕ → Mounted) → AreSpelled (mounts 0) → ((k : ℕ) → GoesSpelled (mounts k) (mounts (suc k))) → (k : ℕ) → AreSpelled (mounts k) }
{
    moves_keep_calls_spelled();
}
