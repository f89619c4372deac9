ghost use Rattle.std.specs.Prelude.{◌≡◌, ◌≢◌, ◌↔◌, ◌<◌, ◌+◌, ℕ, List, [], length, Some, Ok};
ghost use Rattle.nfs_base.specs.declared.seal.End.{End};
ghost use Rattle.rpc_msg.specs.Heads.{call};
ghost use Rattle.rpc_msg.specs.declared.call.CallHead.{CallHead};
ghost use Rattle.rpc_msg.specs.declared.gss_cred.GssCred.{GssCred};
ghost use Rattle.wire_xdr.specs.Cursor.{IsBytes};
ghost use Rattle.gss_ctx.specs.declared.context.Entry.{Entry};
ghost use Rattle.gss_ctx.specs.declared.caller.Checked.TheVariants.{Result};
ghost use Rattle.gss_ctx.specs.Calls.{Side, sealed_of};
ghost use Rattle.gss_ctx.specs.Ends.{IsOpenTo, next_head, sent_head, verdict_on, admission};
ghost use Rattle.gss_ctx.specs.Replies.{checked_of};
ghost use Rattle.gss_ctx.specs.Seals.{sealed_body, unsealed, sealed_reply};
ghost use Rattle.gss_ctx.specs.Table.{ContextTable, IsNumbered};
ghost use Rattle.gss_ctx.specs.Once.{Event, after, after_all, admits, IsShut};

use gss_mech::Mechanism;

/// Of any list of calls, in any order: once a context has admitted a sequence number, that number stays shut
/// on it, seen or below the window, and no later call admits it again. This holds from every state in which
/// no context has a number that wasn't given out yet, as in the first one and after every call.
pub fn admitted_once<P, M: Mechanism>()
    ensures start { (owner : End) (boot : ℕ) → IsNumbered {P = P} (record { owner = owner; boot = boot; made = 0; entries = [] }) }
    ensures kept { (event : Event P) (table : ContextTable P) → IsNumbered table → IsNumbered (after M.mic_of event table) }
    ensures shut { (first : Event P) (between : List (Event P)) (table : ContextTable P) (number seq : ℕ) → IsNumbered table
        → admits M.mic_of first table ≡ Some (number, seq)
        → IsShut number seq (after_all M.mic_of between (after M.mic_of first table)) }
    ensures once { (first last : Event P) (between : List (Event P)) (table : ContextTable P) (number seq : ℕ) → IsNumbered table
        → admits M.mic_of first table ≡ Some (number, seq)
        → admits M.mic_of last (after_all M.mic_of between (after M.mic_of first table)) ≢ Some (number, seq) }
{}

/// A body carries what is told of it exactly where it is that spelled and sealed under that number.
pub fn sealed_once<M: Mechanism>()
    ensures { (key body carried : List ℕ) (side seq : ℕ) → IsBytes body → length carried + 4 < 4294967296 →
        (unsealed (M.mic_of key side) seq body ≡ Some carried) ↔ (body ≡ sealed_body (M.mic_of key side) seq carried) }
{}

/// The two ends of a context take what each other seals. What [`Caller::seal_call`](crate::Caller::seal_call)
/// gives is read as a call and admitted by contexts that have its context, its key and its number yet to come;
/// what [`Contexts::seal_reply`](crate::Contexts::seal_reply) gives for the head that was read is the result
/// that the caller awaits.
pub fn ends_meet<P, M: Mechanism>()
    ensures call { (now : ℕ) (table : ContextTable P) (side : Side) (head : CallHead) (asked : GssCred) (args : List ℕ) (entry : Entry P)
        → IsOpenTo now table side asked entry → call.Fits head → length args + 4 < 4294967296
        → verdict_on M.mic_of now (sealed_of M.mic_of side (next_head side head asked) args).bytes table ≡ Ok (admission entry.number side.next args) }
    ensures reply { (side : Side) (head : CallHead) (asked : GssCred) (args result_ : List ℕ) → call.Fits head → length result_ + 4 < 4294967296
        → checked_of M.mic_of side.key (sealed_of M.mic_of side (next_head side head asked) args).awaited (sealed_reply M.mic_of side.key (sent_head M.mic_of side head asked) side.next result_) ≡ Result result_ }
{}
