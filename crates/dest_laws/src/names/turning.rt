//! What goes out in the steps of a destination.

ghost use Rattle.std.specs.Prelude.{ℕ, Bool, List, Option};
ghost use Rattle.dest_core.specs.Stepping.{DestState, DestStep, IsReply, IsWork, copier_in, failure_step, tick_step};
ghost use Rattle.dest_laws.specs.Names.Causes.{HaveCauses};
ghost use Rattle.dest_laws.specs.Names.Posts.{AreNotClients, AreRight, BacksFit, GoRight, IsCommitted};
ghost use Rattle.dest_laws.specs.Names.Right.{IsSafe, IsWithin, TellsRight};
ghost use Rattle.dest_steps.specs.Copier.{Codes};
ghost use Rattle.nfs_base.specs.declared.job.JobName.{JobName};
ghost use Rattle.wire_xdr.specs.Cursor.{IsBytes};

use streams::Draws;

/// In each step of a destination but those that take a record on a connection, what goes out to clients tells what is right, if
/// what awaits its answer does; and so does what is left of that. Of a job that is committed in the step it is right that all of it
/// is safe.
pub fn steps_tell_right<M, W: Draws>()
    ensures work { (boot made : ℕ) (safe : ℕ → Bool) (codes : Codes) (started : List ℕ → List ℕ → Option (List ℕ)) (place now : ℕ) (s : DestState M) (before after : W) (t : DestStep M)
        → IsWork W.gives started codes place now s before after t → AreNotClients (copier_in s).work.mount.contexts → BacksFit s.state.sessions → AreRight (TellsRight boot made safe) (copier_in s).back
        → IsWithin boot made (copier_in s).copies.book.table → HaveCauses (copier_in s).copies.book.table
        → ((name : JobName) → IsCommitted (copier_in t.host).copies.book.table name → IsSafe boot made safe name)
        → AreRight (TellsRight boot made safe) (copier_in t.host).back × GoRight codes.mic (TellsRight boot made safe) t.out.sent × HaveCauses (copier_in t.host).copies.book.table }
    ensures reply { (boot made : ℕ) (safe : ℕ → Bool) (codes : Codes) (finish : List ℕ → List ℕ → Option (List ℕ)) (place : ℕ) (message : List ℕ) (now : ℕ) (s : DestState M) (t : DestStep M)
        → IsReply codes finish place message now s t → BacksFit s.state.sessions → AreRight (TellsRight boot made safe) (copier_in s).back
        → IsWithin boot made (copier_in s).copies.book.table → HaveCauses (copier_in s).copies.book.table → IsBytes message
        → AreRight (TellsRight boot made safe) (copier_in t.host).back × GoRight codes.mic (TellsRight boot made safe) t.out.sent × HaveCauses (copier_in t.host).copies.book.table }
    ensures failure { (boot made : ℕ) (safe : ℕ → Bool) (codes : Codes) (place : ℕ) (s : DestState M) → BacksFit s.state.sessions
        → AreRight (TellsRight boot made safe) (copier_in s).back → IsWithin boot made (copier_in s).copies.book.table → HaveCauses (copier_in s).copies.book.table
        → AreRight (TellsRight boot made safe) (copier_in (failure_step codes place s).host).back × GoRight codes.mic (TellsRight boot made safe) (failure_step codes place s).out.sent
        × HaveCauses (copier_in (failure_step codes place s).host).copies.book.table }
    ensures tick { (boot made : ℕ) (safe : ℕ → Bool) (codes : Codes) (now : ℕ) (s : DestState M) → AreNotClients (copier_in s).work.mount.contexts → BacksFit s.state.sessions → AreRight (TellsRight boot made safe) (copier_in s).back
        → AreRight (TellsRight boot made safe) (copier_in (tick_step codes now s).host).back × GoRight codes.mic (TellsRight boot made safe) (tick_step codes now s).out.sent }
{
    crate::steps_give_one_entry();
}
