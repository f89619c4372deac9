ghost use Rattle.std.specs.Prelude.{◌≡◌, ◌≢◌, ◌⊎◌, ℕ, ◌+◌, ◌<◌, ◌≤◌, ◌^◌, List, ◌++◌, length, Some, None, true, false};
ghost use Rattle.file_ops.specs.declared.operation.TheConstants.{OP_SEQUENCE};
ghost use Rattle.nfs_base.specs.declared.limits.TheConstants.{TEXT_LIMIT};
ghost use Rattle.gss_ctx.specs.Forms.{create_result};
ghost use Rattle.gss_ctx.specs.Seals.{reply_front, sealed_body, sealed_reply, unsealed};
ghost use Rattle.rpc_calls.specs.Answers.{denial_reply, plain_front};
ghost use Rattle.rpc_calls.specs.Making.{create_told, init_reply};
ghost use Rattle.rpc_msg.specs.Heads.{call, denial, reply, stat};
ghost use Rattle.rpc_msg.specs.declared.call.CallHead.{CallHead};
ghost use Rattle.rpc_msg.specs.declared.reply.Denial.{Denial};
ghost use Rattle.rpc_msg.specs.declared.reply.ReplyHead.{ReplyHead};
ghost use Rattle.rpc_msg.specs.declared.reply.Stat.{Stat};
ghost use Rattle.sess_slots.specs.Table.{session_id};
ghost use Rattle.gss_ctx.specs.declared.making.Inited.{Inited};
ghost use Rattle.gss_ctx.specs.declared.making.Inited.TheVariants.{Made, Refused};
ghost use Rattle.wire_xdr.specs.Words.{word_bytes, opaque_bytes};
ghost use Rattle.wire_spelling.specs.Calls.{call_in, xid_in};
ghost use Rattle.wire_spelling.specs.Replies.{context_in, has_run, is_reply, results_of};
ghost use Rattle.wire_spelling.specs.RunLaws.{begun_with, BeginsWell};
ghost use Rattle.wire_spelling.specs.Slots.{carried_in, ops_of, session_in};

use gss_mech::Mechanism;

/// A call that is written is read as what it is: its number, its head and its body; and one that is sealed carries its
/// operations. What a context finds in a body is what the body carries.
pub fn calls_read_back<M: Mechanism>()
    ensures head { (head : CallHead) (body : List ℕ) → call.Fits head
        → call_in (call.spell head ++ body) ≡ Some (record { head = head; body = body }) }
    // It is no reply.
    ensures no_reply { (head : CallHead) (body : List ℕ) → is_reply (call.spell head ++ body) ≡ false }
    ensures xid { (head : CallHead) (body : List ℕ) → call.Fits head → xid_in (call.spell head ++ body) ≡ head.xid }
    ensures ops { (key : List ℕ) (side : ℕ) (head : CallHead) (seq : ℕ) (args : List ℕ) → call.Fits head → length args + 4 < 4294967296
        → ops_of (call.spell head ++ sealed_body (M.mic_of key side) seq args) ≡ args }
    ensures found { (key : List ℕ) (side seq : ℕ) (body args : List ℕ) → unsealed (M.mic_of key side) seq body ≡ Some args
        → carried_in body ≡ args }
    // A session stands by the number in its ID.
    ensures session { (boot number : ℕ) → number < 2 ^ 32 → session_in (session_id boot number) ≡ number }
{}

/// What a server answers is a reply: a denial, a failed call, the answer to an INIT, and a result, which is the one that was
/// sealed. Of the answer to a CREATE the context that it gives is the one that was made, and none where none was.
pub fn replies_read_back<M: Mechanism>()
    // No reply is a call.
    ensures no_call { (head : ReplyHead) (body : List ℕ) → call_in (reply.spell head ++ body) ≡ None }
    ensures denial { (xid : ℕ) (why : Denial) → xid < 2 ^ 32 → denial.Fits why → is_reply (denial_reply xid why) ≡ true }
    ensures plain { (xid : ℕ) (what : Stat) (body : List ℕ) → xid < 2 ^ 32 → stat.Fits what → is_reply (plain_front xid what ++ body) ≡ true }
    ensures failure { (key : List ℕ) (head : CallHead) (seq : ℕ) (what : Stat) → call.Fits head → stat.Fits what
        → is_reply (reply_front M.mic_of key head seq what) ≡ true }
    ensures refused { (xid minor : ℕ) → xid < 2 ^ 32 → is_reply (init_reply xid (Refused minor)) ≡ true }
    ensures begun { (xid window : ℕ) (handle token verifier : List ℕ) → xid < 2 ^ 32 → length verifier ≡ 32
        → is_reply (init_reply xid (Made handle window token verifier)) ≡ true }
    ensures result { (key : List ℕ) (head : CallHead) (seq : ℕ) (result : List ℕ) → call.Fits head
        → is_reply (sealed_reply M.mic_of key head seq result) ≡ true }
    ensures results { (key : List ℕ) (head : CallHead) (seq : ℕ) (result : List ℕ) → call.Fits head → length result + 4 < 4294967296
        → results_of (sealed_reply M.mic_of key head seq result) ≡ result }
    ensures created { (key : List ℕ) (head : CallHead) (seq boot number : ℕ) → call.Fits head → boot < 2 ^ 32 → number < 2 ^ 32
        → context_in (sealed_reply M.mic_of key head seq (create_result.spell (create_told boot (Some number)))) ≡ Some (record { boot = boot; number = number }) }
    ensures none_created { (key : List ℕ) (head : CallHead) (seq boot : ℕ) → call.Fits head → boot < 2 ^ 32
        → context_in (sealed_reply M.mic_of key head seq (create_result.spell (create_told boot None))) ≡ None }
{}

/// Operations ran exactly where the reply to their COMPOUND says of its first result that it is SEQUENCE's, with status 0.
pub fn runs_are_told()
    ensures run { (status : ℕ) (tag : List ℕ) (count : ℕ) (rest : List ℕ) → BeginsWell status tag count OP_SEQUENCE 0
        → has_run (begun_with status tag count OP_SEQUENCE 0 rest) ≡ true }
    ensures not_run { (status : ℕ) (tag : List ℕ) (count op first : ℕ) (rest : List ℕ) → BeginsWell status tag count op first
        → (op ≢ OP_SEQUENCE) ⊎ (first ≢ 0) → has_run (begun_with status tag count op first rest) ≡ false }
    ensures none { (status : ℕ) (tag : List ℕ) → status < 2 ^ 32 → length tag ≤ TEXT_LIMIT
        → has_run (word_bytes status ++ (opaque_bytes tag ++ word_bytes 0)) ≡ false }
{}
