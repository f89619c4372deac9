//! The jobs of a destination stay sound.

ghost use Rattle.std.specs.Prelude.{ℕ, List, Option};
ghost use Rattle.copy_privs.specs.declared.peer.Peer.{Peer};
ghost use Rattle.dest_core.specs.Core.{no_copier};
ghost use Rattle.dest_core.specs.Stepping.{DestState, DestStep, IsRecord, IsReply, IsWork, failure_step, tick_step};
ghost use Rattle.dest_laws.specs.Own.Going.{jobs_in};
ghost use Rattle.dest_laws.specs.Sound.Kept.{IsKept};
ghost use Rattle.dest_steps.specs.Copier.{Codes};

use crate::own::{records_take_and_end, steps_give_one_entry};
use gss_mech::Mechanism;
use streams::Draws;

/// Nothing is wrong with the jobs of a destination that was just opened, and nothing comes to be in any step of it.
pub fn tables_stay_sound<M: Mechanism, W: Draws>()
    ensures begin { (boot capacity : ℕ) (source : Peer) (principal : List ℕ) → IsKept (no_copier boot capacity source principal).copies.book.table }
    ensures record_ { (mech : M) (conn : ℕ) (message : List ℕ) (now : ℕ) (s : DestState M) (before after : W) (t : DestStep M)
        → IsRecord (record { mic = M.mic_of; derived = M.derived }) (M.accepted mech) W.gives conn message now s before after t
        → IsKept (jobs_in s).table → IsKept (jobs_in t.host).table }
    ensures work { (started : List ℕ → List ℕ → Option (List ℕ)) (codes : Codes) (place now : ℕ) (s : DestState M) (before after : W) (t : DestStep M)
        → IsWork W.gives started codes place now s before after t → IsKept (jobs_in s).table → IsKept (jobs_in t.host).table }
    ensures reply { (codes : Codes) (finish : List ℕ → List ℕ → Option (List ℕ)) (place : ℕ) (message : List ℕ) (now : ℕ) (s : DestState M) (t : DestStep M)
        → IsReply codes finish place message now s t → IsKept (jobs_in s).table → IsKept (jobs_in t.host).table }
    ensures failure { (codes : Codes) (place : ℕ) (s : DestState M) → IsKept (jobs_in s).table → IsKept (jobs_in (failure_step codes place s).host).table }
    ensures tick { (codes : Codes) (now : ℕ) (s : DestState M) → IsKept (jobs_in s).table → IsKept (jobs_in (tick_step codes now s).host).table }
{
    records_take_and_end::<M, W>();
    steps_give_one_entry::<M, W>();
    copy_model::logs_grow();
    copy_model::first_chunks();
}
