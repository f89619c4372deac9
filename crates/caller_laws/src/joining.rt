ghost use Rattle.std.specs.Prelude.{◌≡◌, ℕ, List, Some};
ghost use Rattle.mount.specs.State.{Mounted, pending_at};
ghost use Rattle.mount.specs.declared.machine.SendAt.{SendAt};
ghost use Rattle.mount.specs.declared.state.Pending.{Pending};
ghost use Rattle.nfs_base.specs.declared.seal.End.{End};
ghost use Rattle.wire_model.specs.CallerLaws.{CallerLaws};
ghost use Rattle.wire_model.specs.Spelling.{Spelling};
ghost use Rattle.wire_model.specs.Wire.{Acts, Caller};
ghost use Rattle.caller_laws.specs.Good.{Identity};
ghost use Rattle.caller_laws.specs.Joining.{Follows, Keeps, joined};
ghost use Rattle.caller_laws.specs.Lawful.{IsStep};
ghost use Rattle.caller_laws.specs.Moves.{Send, Sends, sent_by};
ghost use Rattle.caller_laws.specs.View.{Above, caller_of};

use gss_mech::{Mechanism, tokens_agree};
use nfs_compound::written_compounds_are_read;
use session_calls::calls_are_simple;

/// Two steps that obey the laws of a wire, of which the second takes nothing, obey them as one step: so a machine may take a
/// record and send several calls at once, to another server too.
pub fn steps_join()
    ensures { (spell : Spelling) (owner own : End) (v u w : Caller) (a b : Acts) → CallerLaws spell owner own v u a → CallerLaws spell owner own u w b
        → Follows spell owner v u w a b → CallerLaws spell owner own v w (joined a b) }
{}

/// What a mount sends leaves the mount that is there, and, where no call that is awaited is given up for it, what is awaited.
pub fn what_is_sent_follows<M: Mechanism>()
    ensures { (mech : M) (principal : List ℕ) (who : Identity) (before after : Above) (m : Mounted) (at : SendAt) (send : Send)
        → IsStep who (record { mic = M.mic_of; derived = M.derived; finished = M.finished mech principal }) before after m (Sends at send)
        → ((place : ℕ) (p : Pending) → pending_at m place ≡ Some p → pending_at (sent_by M.mic_of at send m).1 place ≡ Some p)
        → Keeps (caller_of before m) (caller_of after (sent_by M.mic_of at send m).1) }
{
    tokens_agree::<M>();
    written_compounds_are_read();
    calls_are_simple();
}
