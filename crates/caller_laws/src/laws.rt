ghost use Rattle.std.specs.Prelude.{◌≡◌, ℕ, ◌<◌, Bool, List};
ghost use Rattle.nfs_base.specs.declared.seal.End.{End};
ghost use Rattle.mount.specs.State.{Mounted, fresh};
ghost use Rattle.wire_model.specs.CallerLaws.{CallerLaws, CallerStart};
ghost use Rattle.wire_model.specs.Wire.{Caller};
ghost use Rattle.wire_spelling.specs.Spelling.{spelling};
ghost use Rattle.caller_laws.specs.Duties.{SendsOwnCalls};
ghost use Rattle.caller_laws.specs.Good.{Identity, IsGood};
ghost use Rattle.caller_laws.specs.Lawful.{IsStep, Obeys};
ghost use Rattle.caller_laws.specs.Moves.{Move, done, nothing_shown};
ghost use Rattle.caller_laws.specs.View.{Above, caller_of};

use gss_mech::{Mechanism, tokens_agree};
use nfs_compound::written_compounds_are_read;
use session_calls::calls_are_simple;

/// Every step of every mount obeys all the laws that a caller owes a wire, and leaves the mount as it should be.
pub fn steps_are_lawful<M: Mechanism>()
    ensures laws { (mech : M) (principal : List ℕ) (who : Identity) (before after : Above) (m : Mounted) (move : Move)
        → IsStep who (record { mic = M.mic_of; derived = M.derived; finished = M.finished mech principal }) before after m move
        → Obeys who (record { mic = M.mic_of; derived = M.derived; finished = M.finished mech principal }) before after m move }
    ensures good { (mech : M) (principal : List ℕ) (who : Identity) (before after : Above) (m : Mounted) (move : Move)
        → IsStep who (record { mic = M.mic_of; derived = M.derived; finished = M.finished mech principal }) before after m move
        → IsGood who (done (record { mic = M.mic_of; derived = M.derived; finished = M.finished mech principal }) move m).mount }
    // What goes out is a call by an xid that the machine gave in this step, and never a reply.
    ensures calls { (mech : M) (principal : List ℕ) (who : Identity) (before after : Above) (m : Mounted) (move : Move)
        → IsStep who (record { mic = M.mic_of; derived = M.derived; finished = M.finished mech principal }) before after m move
        → SendsOwnCalls before after (done (record { mic = M.mic_of; derived = M.derived; finished = M.finished mech principal }) move m).shown }
{
    tokens_agree::<M>();
    written_compounds_are_read();
    calls_are_simple();
}

/// A mount that was just opened is as it should be, and has and awaits nothing.
pub fn mounts_begin_lawful()
    ensures good { (who : Identity) (server : End) (reclaims : Bool) → IsGood who (fresh server reclaims) }
    ensures start { (above : Above) (server : End) (reclaims : Bool) → CallerStart (caller_of above (fresh server reclaims)) }
    // Whatever there was in an earlier opening, to open it anew obeys the laws.
    ensures reopened { (who : Identity) (server : End) (reclaims : Bool) (before : Caller) (after : Above) → before.boot < after.boot
        → CallerLaws (spelling who.accepts who.whose) server who.own before (caller_of after (fresh server reclaims)) nothing_shown }
{}
