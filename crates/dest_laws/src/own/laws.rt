//! Laws of a destination's steps.

ghost use Rattle.std.specs.Prelude.{◌≡◌, ℕ, List, Option, Some};
ghost use Rattle.dest_core.specs.Stepping.{DestState, DestStep, IsRecord, IsReply, IsWork, failure_step, tick_step};
ghost use Rattle.dest_laws.specs.Deeds.{ByDeeds, GoesWithin};
ghost use Rattle.dest_laws.specs.Histories.Kinds.{Ends, TakesAndEnds};
ghost use Rattle.dest_laws.specs.Histories.Seen.{IsGiven, Seen, seen_in};
ghost use Rattle.dest_laws.specs.Own.Begins.{BeginsQuietly};
ghost use Rattle.dest_laws.specs.Own.Going.{GetsOne, jobs_in};
ghost use Rattle.dest_steps.specs.Copier.{Codes};
ghost use Rattle.job_book.specs.Book.{BookView};
ghost use Rattle.nfs_base.specs.declared.job.JobName.{JobName};

use crate::histories::entries_grow_by_deeds;
use crate::own::following::TakesAlong;
use dest_core::Destination;
use dest_jobs::Carried;
use gss_mech::Mechanism;
use own_laws::own_parts_go_on;
use streams::Draws;

/// In a step that takes a record on a connection copies are taken and jobs end: no job gets an entry. Where a second comes by
/// itself jobs end, and nothing else is done to them.
pub fn records_take_and_end<M: Mechanism, W: Draws>()
    ensures record_ { (mech : M) (conn : ℕ) (message : List ℕ) (now : ℕ) (s : DestState M) (before after : W) (t : DestStep M)
        → IsRecord (record { mic = M.mic_of; derived = M.derived }) (M.accepted mech) W.gives conn message now s before after t
        → TakesAndEnds (jobs_in s) (jobs_in t.host) }
    ensures tick { (codes : Codes) (now : ℕ) (s : DestState M) → Ends (jobs_in s) (jobs_in (tick_step codes now s).host) }
{
    own_parts_go_on::<TakesAlong, Destination<M>, Carried, W>();
}

/// In a worker's turn, where the source's record comes to a worker and where a worker's link failed, jobs get one entry at most, and
/// no copy is taken. Where a second comes by itself, none does; nor before a worker's call, and where leases lapse.
pub fn steps_give_one_entry<M: Mechanism, W: Draws>()
    ensures begin { BeginsQuietly M W.gives }
    ensures work { (started : List ℕ → List ℕ → Option (List ℕ)) (codes : Codes) (place now : ℕ) (s : DestState M) (before after : W) (t : DestStep M)
        → IsWork W.gives started codes place now s before after t → GoesWithin 0 1 (jobs_in s) (jobs_in t.host) }
    ensures reply { (codes : Codes) (finish : List ℕ → List ℕ → Option (List ℕ)) (place : ℕ) (message : List ℕ) (now : ℕ) (s : DestState M) (t : DestStep M)
        → IsReply codes finish place message now s t → GoesWithin 0 1 (jobs_in s) (jobs_in t.host) }
    ensures failure { (codes : Codes) (place : ℕ) (s : DestState M) → GoesWithin 0 1 (jobs_in s) (jobs_in (failure_step codes place s).host) }
    ensures tick { (codes : Codes) (now : ℕ) (s : DestState M) → GoesWithin 0 0 (jobs_in s) (jobs_in (tick_step codes now s).host) }
{
    crate::steps_give_one_entry();
}

/// By deeds that give one entry at most, a job that is there before and then keeps its plan and gets one entry at most.
pub fn jobs_get_one_entry()
    ensures { (accepts : ℕ) (b c : BookView) (name : JobName) (old new : Seen) → GoesWithin accepts 1 b c → IsGiven b.table name
        → seen_in b.table name ≡ Some old → seen_in c.table name ≡ Some new → (new.plan ≡ old.plan) × GetsOne old new }
{
    entries_grow_by_deeds();
}

/// In every step of a destination its jobs go on by deeds: where a record comes on a connection, in a worker's turn, where the
/// source's record comes to a worker, where a worker's link failed, and where a second comes by itself.
pub fn steps_go_by_deeds<M: Mechanism, W: Draws>()
    ensures record_ { (mech : M) (conn : ℕ) (message : List ℕ) (now : ℕ) (s : DestState M) (before after : W) (t : DestStep M)
        → IsRecord (record { mic = M.mic_of; derived = M.derived }) (M.accepted mech) W.gives conn message now s before after t
        → ByDeeds (jobs_in s) (jobs_in t.host) }
    ensures work { (started : List ℕ → List ℕ → Option (List ℕ)) (codes : Codes) (place now : ℕ) (s : DestState M) (before after : W) (t : DestStep M)
        → IsWork W.gives started codes place now s before after t → ByDeeds (jobs_in s) (jobs_in t.host) }
    ensures reply { (codes : Codes) (finish : List ℕ → List ℕ → Option (List ℕ)) (place : ℕ) (message : List ℕ) (now : ℕ) (s : DestState M) (t : DestStep M)
        → IsReply codes finish place message now s t → ByDeeds (jobs_in s) (jobs_in t.host) }
    ensures failure { (codes : Codes) (place : ℕ) (s : DestState M) → ByDeeds (jobs_in s) (jobs_in (failure_step codes place s).host) }
    ensures tick { (codes : Codes) (now : ℕ) (s : DestState M) → ByDeeds (jobs_in s) (jobs_in (tick_step codes now s).host) }
{
    records_take_and_end::<M, W>();
    steps_give_one_entry::<M, W>();
}
