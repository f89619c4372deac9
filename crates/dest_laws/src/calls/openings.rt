//! The opening of a destination's volume.

ghost use Rattle.std.specs.Prelude.{◌≡◌, ℕ, List, Option};
ghost use Rattle.dest_core.specs.Stepping.{DestState, DestStep, IsRecord, IsReply, IsWork, tick_step};
ghost use Rattle.dest_steps.specs.Copier.{Codes};

use commit_laws::steps_change_by_calls;
use dest_core::Destination;
use dest_jobs::Carried;
use gss_mech::Mechanism;
use streams::Draws;
use tell_laws::volumes_stay_fitting;

/// The number of an opening of a destination's volume stays in each of its steps.
pub fn openings_stay<M: Mechanism, W: Draws>()
    ensures record_ { (mech : M) (conn : ℕ) (message : List ℕ) (now : ℕ) (s : DestState M) (before after : W) (t : DestStep M)
        → IsRecord (record { mic = M.mic_of; derived = M.derived }) (M.accepted mech) W.gives conn message now s before after t
        → t.host.state.machine.store.volume.boot ≡ s.state.machine.store.volume.boot }
    ensures work { (started : List ℕ → List ℕ → Option (List ℕ)) (codes : Codes) (place now : ℕ) (s : DestState M) (before after : W) (t : DestStep M)
        → IsWork W.gives started codes place now s before after t → t.host.state.machine.store.volume.boot ≡ s.state.machine.store.volume.boot }
    ensures reply { (codes : Codes) (finish : List ℕ → List ℕ → Option (List ℕ)) (place : ℕ) (message : List ℕ) (now : ℕ) (s : DestState M) (t : DestStep M)
        → IsReply codes finish place message now s t → t.host.state.machine.store.volume.boot ≡ s.state.machine.store.volume.boot }
    ensures tick { (codes : Codes) (now : ℕ) (s : DestState M)
        → (tick_step codes now s).host.state.machine.store.volume.boot ≡ s.state.machine.store.volume.boot }
{
    steps_change_by_calls::<Destination<M>, Carried, W>();
    volumes_stay_fitting();
}
