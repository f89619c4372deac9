//! What a destination's reports say in a system of machines.

ghost use Rattle.std.specs.Prelude.{◌≡◌, ℕ, suc, List, [], None, Option, Some, true};
ghost use Rattle.copy_privs.specs.declared.peer.Peer.{Peer};
ghost use Rattle.dest_core.specs.Core.{no_copies, no_sessions};
ghost use Rattle.dest_core.specs.Stepping.{DestState, DestStep, IsRecord, IsReply, IsWork, failure_step, tick_step};
ghost use Rattle.dest_laws.specs.Names.Holding.{IsFair, IsToldRight, ReportsRight, safe_at};
ghost use Rattle.dest_laws.specs.Names.Right.{IsSafe};
ghost use Rattle.dest_laws.specs.View.Steps.{Shows, ShowsStep, table_in};
ghost use Rattle.dest_steps.specs.Copier.{Codes};
ghost use Rattle.nfs_base.specs.declared.job.JobName.{JobName};
ghost use Rattle.nfs_base.specs.declared.net_loc.NetLoc.{NetLoc};
ghost use Rattle.nfs_base.specs.declared.seal.End.{End};
ghost use Rattle.nfs_base.specs.declared.seal.End.TheVariants.{Dest};
ghost use Rattle.wire_lines.specs.declared.letters.Speaker.{Speaker};
ghost use Rattle.wire_machine.specs.History.{says_stable};
ghost use Rattle.wire_meaning.specs.Meaning.{meaning};
ghost use Rattle.wire_model.specs.System.{System};
ghost use Rattle.wire_model.specs.Wire.{Executed};
ghost use Rattle.wire_spelling.specs.Spelling.{spelling};
ghost use Rattle.wire_xdr.specs.Cursor.{IsBytes};

use crate::histories::{entries_grow_by_deeds, histories_stay_linked};
use crate::names::reading::callbacks_are_read;
use crate::names::sessions::back_channels_fit;
use crate::names::turning::steps_tell_right;
use crate::own::{records_take_and_end, steps_go_by_deeds};
use dest_core::Destination;
use dest_jobs::Carried;
use gss_mech::Mechanism;
use streams::Draws;

/// In a worker's turn, where a record of the source comes to a worker, where a worker's link failed, where a second comes by
/// itself, and where it rests, what is reported as stable is committed: so what a destination holds of its reports stays right, and a CB_OFFLOAD that
/// says FILE_SYNC4 is one of a copy that is so marked.
pub fn reports_stay_right<M: Mechanism, W: Draws>()
    ensures work { (accepts : List ℕ → Option (List ℕ)) (whose : List ℕ → Option End) (s : System) (k : ℕ) (speaker : Speaker) (started : List ℕ → List ℕ → Option (List ℕ))
        (place now : ℕ) (d : DestState M) (before after : W) (t : DestStep M) → IsWork W.gives started (record { mic = M.mic_of; derived = M.derived }) place now d before after t
        → ShowsStep (spelling accepts whose) meaning s k None speaker None d t → IsFair d t → IsToldRight s k d
        → IsToldRight s (suc k) t.host × ReportsRight (spelling accepts whose) meaning s k }
    ensures reply { (accepts : List ℕ → Option (List ℕ)) (whose : List ℕ → Option End) (s : System) (k : ℕ) (speaker : Speaker) (finish : List ℕ → List ℕ → Option (List ℕ))
        (place : ℕ) (message : List ℕ) (now : ℕ) (d : DestState M) (t : DestStep M) → IsReply (record { mic = M.mic_of; derived = M.derived }) finish place message now d t → IsBytes message
        → ShowsStep (spelling accepts whose) meaning s k (Some message) speaker None d t → IsFair d t → IsToldRight s k d
        → IsToldRight s (suc k) t.host × ReportsRight (spelling accepts whose) meaning s k }
    ensures failure { (accepts : List ℕ → Option (List ℕ)) (whose : List ℕ → Option End) (s : System) (k : ℕ) (speaker : Speaker) (place : ℕ) (d : DestState M)
        → ShowsStep (spelling accepts whose) meaning s k None speaker None d (failure_step (record { mic = M.mic_of; derived = M.derived }) place d)
        → IsFair d (failure_step (record { mic = M.mic_of; derived = M.derived }) place d) → IsToldRight s k d
        → IsToldRight s (suc k) (failure_step (record { mic = M.mic_of; derived = M.derived }) place d).host × ReportsRight (spelling accepts whose) meaning s k }
    ensures tick { (accepts : List ℕ → Option (List ℕ)) (whose : List ℕ → Option End) (s : System) (k : ℕ) (speaker : Speaker) (now : ℕ) (d : DestState M)
        → ShowsStep (spelling accepts whose) meaning s k None speaker None d (tick_step (record { mic = M.mic_of; derived = M.derived }) now d)
        → IsFair d (tick_step (record { mic = M.mic_of; derived = M.derived }) now d) → IsToldRight s k d
        → IsToldRight s (suc k) (tick_step (record { mic = M.mic_of; derived = M.derived }) now d).host × ReportsRight (spelling accepts whose) meaning s k }
    ensures rest { (accepts : List ℕ → Option (List ℕ)) (whose : List ℕ → Option End) (s : System) (k : ℕ) (took : Option (List ℕ)) (speaker : Speaker) (d : DestState M) (t : DestStep M)
        → ShowsStep (spelling accepts whose) meaning s k took speaker None d t → t.host ≡ d → t.out.sent ≡ [] → IsToldRight s k d
        → IsToldRight s (suc k) t.host × ReportsRight (spelling accepts whose) meaning s k }
{
    callbacks_are_read::<M>();
    back_channels_fit::<Destination<M>, Carried>();
    steps_tell_right::<M, W>();
    entries_grow_by_deeds();
    histories_stay_linked();
    steps_go_by_deeds::<M, W>();
    records_take_and_end::<M, W>();
}

/// A destination that was just opened has told nothing yet.
pub fn reports_begin_right<M>()
    ensures { (s : System) (k boot capacity : ℕ) (mech : M) (source : Peer) (principal : List ℕ) (own : NetLoc) (d : DestState M)
        → d.state.machine.extra ≡ no_copies boot capacity mech source principal own → d.state.sessions ≡ no_sessions boot → Shows s k d → IsToldRight s k d }
{}
