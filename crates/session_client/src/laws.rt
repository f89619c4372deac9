//! What holds of the calls of every caller, and of their answers.

ghost use Rattle.std.specs.Prelude.{◌≡◌, ℕ, ◌+◌, ◌<◌, List, length, slice_index, true, Some};
ghost use Rattle.gss_ctx.specs.Calls.{Side};
ghost use Rattle.gss_ctx.specs.Init.{init_message};
ghost use Rattle.gss_ctx.specs.Seals.{Mic};
ghost use Rattle.gss_ctx.specs.declared.caller.Awaited.{Awaited};
ghost use Rattle.nfs_base.specs.declared.limits.TheConstants.{SLOTS};
ghost use Rattle.nfs_compound.specs.declared.op.Op.{Op};
ghost use Rattle.nfs_compound.specs.declared.reply.Reply.{Reply};
ghost use Rattle.session_calls.specs.Answers.{is_answer};
ghost use Rattle.session_client.specs.Answers.{taken_of};
ghost use Rattle.session_client.specs.Asked.{asked_call};
ghost use Rattle.session_client.specs.declared.asked.Asked.{Asked};
ghost use Rattle.session_client.specs.Records.{IsCallOf, reply_xid};
ghost use Rattle.session_client.specs.Slots.{fresh_numbers, given_in};

use crate::answers::Taken;

/// Whatever the slots in which the new calls of a session go, those of each slot have the numbers 1, 2, 3 and so on:
/// a slot's numbers only grow, and none is given twice.
pub fn slot_numbers_count_up()
    ensures { (slot k : ℕ) (slots : List ℕ) → slot < SLOTS → k < length (given_in slot fresh_numbers slots)
        → slice_index (given_in slot fresh_numbers slots) k ≡ 1 + k }
{}

/// What goes out is a call, and never a reply, by the xid that it was given.
pub fn calls_go_out_as_calls()
    ensures sealed { (mic : Mic) (side : Side) (xid : ℕ) (asked : Asked) → IsCallOf xid (asked_call mic side xid asked).bytes }
    ensures init { (xid : ℕ) (token : List ℕ) → IsCallOf xid (init_message xid token) }
{}

/// What is taken as the answer to a compound is a reply by the xid that is awaited, and answers its operations.
pub fn answers_are_awaited()
    ensures xid { (mic : Mic) (key : List ℕ) (awaited : Awaited) (ops : List Op) (message : List ℕ) (reply : Reply)
        → taken_of mic key awaited ops message ≡ Taken.Answer reply → reply_xid message ≡ Some awaited.xid }
    ensures answers { (mic : Mic) (key : List ℕ) (awaited : Awaited) (ops : List Op) (message : List ℕ) (reply : Reply)
        → taken_of mic key awaited ops message ≡ Taken.Answer reply → is_answer ops reply ≡ true }
{}
