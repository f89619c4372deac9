ghost use Rattle.std.specs.Prelude.{◌≡◌, ◌<◌, ℕ, List, [], Option, Some, None};
ghost use Rattle.caller_laws.specs.Good.{Identity};
ghost use Rattle.dest_core.specs.Stepping.{DestState, DestStep, IsRecord, IsReply, IsWork, copier_in, failure_step, tick_step};
ghost use Rattle.dest_laws.specs.Calls.Fits.{WorkIsFit};
ghost use Rattle.dest_laws.specs.Calls.Settled.{IsSettledAs};
ghost use Rattle.dest_laws.specs.Calls.Steps.{AreCalls, IsSeenPlain, IsSeenWhere, StartsOwn};
ghost use Rattle.dest_laws.specs.View.Steps.{part_by};
ghost use Rattle.dest_steps.specs.Copier.{Codes};
ghost use Rattle.dest_tasks.specs.declared.workers.TheConstants.{WORKERS};
ghost use Rattle.nfs_base.specs.declared.seal.End.TheVariants.{Dest};
ghost use Rattle.wire_lines.specs.declared.letters.Speaker.{Speaker};
ghost use Rattle.wire_machine.specs.History.{part_acts};
ghost use Rattle.wire_model.specs.Wire.{Acts, Executed};
ghost use Rattle.wire_xdr.specs.Cursor.{IsBytes};

use crate::calls::following::SeatsAlong;
use crate::histories::entries_grow_by_deeds;
use crate::own::steps_go_by_deeds;
use caller_laws::one_step::sends_are_counted;
use caller_laws::steps_are_lawful;
use commit_laws::steps_change_by_calls;
use dest_core::Destination;
use dest_jobs::Carried;
use gss_mech::{Mechanism, tokens_agree};
use mount::answers_are_taken_once;
use own_laws::own_parts_go_on;
use reply_laws::servers_send_replies;
use streams::Draws;
use tell_laws::volumes_stay_fitting;

/// In a worker's turn one call goes out to the source, for a job that was accepted, or none does and a client may be called back. What
/// goes out keeps to the bounds where the jobs' plans do, and what is drawn.
pub fn workers_turns_are_seen<M: Mechanism, W: Draws>()
    ensures { (mech : M) (principal : List ℕ) (who : Identity) (started : List ℕ → List ℕ → Option (List ℕ)) (place now : ℕ) (s : DestState M) (before after : W)
        (t : DestStep M) (speaker : Speaker) (executed : Option Executed)
        → IsSettledAs who (copier_in s) → place < WORKERS → StartsOwn who (started (copier_in s).principal) W.gives
        → IsWork W.gives started (record { mic = M.mic_of; derived = M.derived }) place now s before after t
        → IsSeenWhere (WorkIsFit M.mic_of W.gives started (copier_in s)) who (record { mic = M.mic_of; derived = M.derived; finished = M.finished mech principal }) s t.host
        (part_acts (part_by None speaker t) executed) }
{
    sends_are_counted();
    steps_go_by_deeds::<M, W>();
    entries_grow_by_deeds();
}

/// A record of the source is taken by the mount, which may begin again, or whose call is given up; and a client may be called back.
pub fn replies_are_seen<M: Mechanism, W: Draws>()
    ensures { (mech : M) (principal : List ℕ) (who : Identity) (place now : ℕ) (message : List ℕ) (s : DestState M) (t : DestStep M) (speaker : Speaker)
        (executed : Option Executed) → IsSettledAs who (copier_in s) → IsBytes message
        → IsReply (record { mic = M.mic_of; derived = M.derived }) (M.finished mech principal) place message now s t
        → IsSeenPlain who (record { mic = M.mic_of; derived = M.derived; finished = M.finished mech principal }) s t.host
        (part_acts (part_by (Some message) speaker t) executed) }
{
    steps_are_lawful::<M>();
    answers_are_taken_once();
    steps_go_by_deeds::<M, W>();
    entries_grow_by_deeds();
}

/// Where a worker hears a record of the source, all that goes out are calls: it answers nothing.
pub fn heard_records_are_not_answered<M: Mechanism>()
    ensures { (codes : Codes) (finish : List ℕ → List ℕ → Option (List ℕ)) (place : ℕ) (message : List ℕ) (now : ℕ) (s : DestState M) (t : DestStep M)
        → IsReply codes finish place message now s t → AreCalls t.out.sent }
{}

/// A destination that does nothing, and to which a record that comes is nothing, is seen so.
pub fn rests_are_seen<M: Mechanism>()
    ensures { (mech : M) (principal : List ℕ) (who : Identity) (s : DestState M) (shown : Acts) → IsSettledAs who (copier_in s) → shown.accepted ≡ None → shown.out ≡ []
        → IsSeenPlain who (record { mic = M.mic_of; derived = M.derived; finished = M.finished mech principal }) s s shown }
{}

/// Where a worker's link failed, the call that it awaits is given up, and a client may be called back.
pub fn failures_are_seen<M: Mechanism, W: Draws>()
    ensures { (mech : M) (principal : List ℕ) (who : Identity) (place : ℕ) (s : DestState M) (speaker : Speaker) (executed : Option Executed)
        → IsSettledAs who (copier_in s)
        → IsSeenPlain who (record { mic = M.mic_of; derived = M.derived; finished = M.finished mech principal }) s
        (failure_step (record { mic = M.mic_of; derived = M.derived }) place s).host
        (part_acts (part_by None speaker (failure_step (record { mic = M.mic_of; derived = M.derived }) place s)) executed) }
{
    steps_go_by_deeds::<M, W>();
    entries_grow_by_deeds();
}

/// Where a second comes by itself, calls that are awaited go out once more, upwards by their places, and then callbacks do.
pub fn ticks_are_seen<M: Mechanism, W: Draws>()
    ensures { (mech : M) (principal : List ℕ) (who : Identity) (now : ℕ) (s : DestState M) (speaker : Speaker) (executed : Option Executed)
        → IsSettledAs who (copier_in s)
        → IsSeenPlain who (record { mic = M.mic_of; derived = M.derived; finished = M.finished mech principal }) s
        (tick_step (record { mic = M.mic_of; derived = M.derived }) now s).host
        (part_acts (part_by None speaker (tick_step (record { mic = M.mic_of; derived = M.derived }) now s)) executed) }
{
    sends_are_counted();
    steps_go_by_deeds::<M, W>();
    entries_grow_by_deeds();
}

/// A record on a connection gives seats to jobs at most, whose children there are forgotten; what goes out is a reply of this
/// server, and what is accepted is so under its own contexts, or under a client's.
pub fn records_are_seen<M: Mechanism, W: Draws>()
    ensures { (mech : M) (principal : List ℕ) (who : Identity) (conn : ℕ) (message : List ℕ) (now : ℕ) (s : DestState M) (before after : W) (t : DestStep M)
        (speaker : Speaker) (executed : Option Executed) → IsSettledAs who (copier_in s) → s.contexts.owner ≡ Dest → IsBytes message
        → IsRecord (record { mic = M.mic_of; derived = M.derived }) (M.accepted mech) W.gives conn message now s before after t
        → IsSeenPlain who (record { mic = M.mic_of; derived = M.derived; finished = M.finished mech principal }) s t.host
        (part_acts (part_by (Some message) speaker t) executed) }
{
    own_parts_go_on::<SeatsAlong, Destination<M>, Carried, W>();
    steps_change_by_calls::<Destination<M>, Carried, W>();
    volumes_stay_fitting();
    servers_send_replies::<Destination<M>, Carried, W>();
    tokens_agree::<M>();
    steps_go_by_deeds::<M, W>();
    entries_grow_by_deeds();
}
