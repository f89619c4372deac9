ghost use Rattle.std.specs.Prelude.{◌≡◌, ℕ, List, Option};
ghost use Rattle.copy_privs.specs.declared.peer.Peer.{Peer};
ghost use Rattle.dest_core.specs.Core.{no_copies};
ghost use Rattle.dest_core.specs.Stepping.{DestState, DestStep, IsRecord, IsReply, IsWork, failure_step, tick_step};
ghost use Rattle.dest_laws.specs.Landings.Orderly.{IsOrderly};
ghost use Rattle.dest_laws.specs.Own.Going.{jobs_in};
ghost use Rattle.dest_steps.specs.Copier.{Codes};
ghost use Rattle.job_book.specs.Book.{IsSound};
ghost use Rattle.nfs_base.specs.declared.net_loc.NetLoc.{NetLoc};

use crate::histories::entries_grow_by_deeds;
use crate::landings::following::KeepsWork;
use crate::own::steps_go_by_deeds;
use dest_core::Destination;
use dest_jobs::Carried;
use gss_mech::Mechanism;
use mount::what_goes_out_is_counted;
use own_laws::own_parts_go_on;
use streams::Draws;

/// A worker that awaits a size or bytes for a job awaits them, as long as the job is there, as the answer to the call that asks for
/// them by the job's plan; a chunk that a worker holds has all its bytes; and nothing is left that was noted. So it is once a
/// destination is opened, and stays so in every step.
pub fn workers_ask_by_plans<M: Mechanism, W: Draws>()
    ensures begin { (boot capacity : ℕ) (mech : M) (source : Peer) (principal : List ℕ) (own : NetLoc) (d : DestState M)
        → d.state.machine.extra ≡ no_copies boot capacity mech source principal own → IsOrderly d }
    ensures record_ { (mech : M) (conn : ℕ) (message : List ℕ) (now : ℕ) (d : DestState M) (before after : W) (t : DestStep M)
        → IsRecord (record { mic = M.mic_of; derived = M.derived }) (M.accepted mech) W.gives conn message now d before after t
        → IsOrderly d → IsOrderly t.host }
    ensures work { (started : List ℕ → List ℕ → Option (List ℕ)) (codes : Codes) (place now : ℕ) (d : DestState M) (before after : W) (t : DestStep M)
        → IsWork W.gives started codes place now d before after t → IsSound (jobs_in d).table → IsOrderly d → IsOrderly t.host }
    ensures reply { (codes : Codes) (finish : List ℕ → List ℕ → Option (List ℕ)) (place : ℕ) (message : List ℕ) (now : ℕ) (d : DestState M) (t : DestStep M)
        → IsReply codes finish place message now d t → IsOrderly d → IsOrderly t.host }
    ensures failure { (codes : Codes) (place : ℕ) (d : DestState M) → IsOrderly d → IsOrderly (failure_step codes place d).host }
    ensures tick { (codes : Codes) (now : ℕ) (d : DestState M) → IsOrderly d → IsOrderly (tick_step codes now d).host }
{
    entries_grow_by_deeds();
    steps_go_by_deeds::<M, W>();
    what_goes_out_is_counted();
    own_parts_go_on::<KeepsWork, Destination<M>, Carried, W>();
}
