ghost use Rattle.std.specs.Prelude.{◌≡◌, ◌<◌, ◌^◌, ℕ, List, true};
ghost use Rattle.gss_ctx.specs.Seals.{Mic};
ghost use Rattle.gss_ctx.specs.Table.{ContextTable};
ghost use Rattle.gss_mech.specs.Tokens.{IsSized};
ghost use Rattle.rpc_calls.specs.Answers.{accepted_seal, denial_reply, failure_reply, result_reply};
ghost use Rattle.rpc_calls.specs.Judging.{judged_of};
ghost use Rattle.rpc_calls.specs.declared.call.Call.{Call};
ghost use Rattle.rpc_calls.specs.declared.call.Judged.TheVariants as judged;
ghost use Rattle.rpc_calls.specs.declared.call.Program.{Program};
ghost use Rattle.rpc_msg.specs.Heads as heads;
ghost use Rattle.rpc_msg.specs.declared.reply.Denial.{Denial};
ghost use Rattle.rpc_msg.specs.declared.reply.Stat.{Stat};
ghost use Rattle.wire_spelling.specs.Replies.{is_reply};
ghost use Rattle.wire_xdr.specs.Cursor.{IsBytes};
ghost use Rattle.call_replies.specs.SaysLaws.{IsSpoken};
ghost use Rattle.call_replies.specs.Sealed.{IsSealedBy};

/// A call that is judged has a head with a spelling, and what it is judged to be can be spelled in an answer.
pub fn judged_calls_are_spoken<P>()
    ensures { (mic : Mic) (now : ℕ) (program : Program) (bytes : List ℕ) (table : ContextTable P) (call : Call)
        → program.version < 2 ^ 32 → IsBytes bytes → judged_of mic now program bytes table ≡ judged.Call call → IsSpoken call }
{}

/// What a call is answered by is a reply, where codes are as long as they are to be.
pub fn answers_are_replies<P>()
    ensures denial { (call : Call) (why : Denial) → heads.call.Fits call.head → heads.denial.Fits why → is_reply (denial_reply call.head.xid why) ≡ true }
    ensures failure { (mic : Mic) (table : ContextTable P) (call : Call) (what : Stat) → IsSized mic → heads.call.Fits call.head → heads.stat.Fits what
        → is_reply (failure_reply mic table call what) ≡ true }
    ensures result { (mic : Mic) (table : ContextTable P) (call : Call) (bytes : List ℕ) → IsSized mic → heads.call.Fits call.head
        → is_reply (result_reply mic table call bytes) ≡ true }
{}

/// What is accepted as a call is sealed by the owner of the contexts, or not at all.
pub fn seals_are_own<P>()
    ensures { (table : ContextTable P) (call : Call) → IsSealedBy table.owner (accepted_seal table call) }
{}
