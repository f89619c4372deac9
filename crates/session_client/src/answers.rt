//! What a caller takes for the answer to its call.

ghost use Rattle.std.specs.Prelude.{◌≡◌, IfOk};
ghost use Rattle.wire_xdr.specs.All.{value_of};
ghost use Rattle.gss_ctx.specs.Forms.{create_result};
ghost use Rattle.nfs_compound.specs.Results as replies;
ghost use Rattle.session_client.specs.Answers.{answer_to, taken_of, child_in, child_of};

use gss_ctx::{Awaited, Caller, Checked, CreateResult, read_create_result};
use gss_mech::Mechanism;
use nfs_compound::{Op, Reply, read_reply_body};
use outcome::Mem;
use rpc_msg::{Denial, Stat};
use session_calls::is_answer;
use std::alloc::Global;

/// What a record is to a compound that awaits its answer.
#[derive(Drop)]
pub enum Taken {
    /// The answer, under the seal of the call.
    Answer(Reply),

    /// A result under the seal of the call, which doesn't spell an answer to it. It counts as a failed call.
    Misspelt,

    /// The call failed.
    Failed(Stat),

    /// The call was denied.
    Denied(Denial),

    /// The record isn't the reply to this call.
    Unmatched,
}

/// What a record is to a CREATE that awaits its answer (RFC 7861 section 2.5).
#[derive(Drop)]
pub enum TakenChild {
    /// A child was made, which has this handle.
    Made([u8; 8]),

    /// The server refused, with this major status, which isn't 0.
    Refused(u32),

    /// A result under the seal of the call that isn't spelled, or whose handle hasn't 8 bytes. It counts as a failed
    /// call.
    Misspelt,

    /// The call failed.
    Failed(Stat),

    /// The call was denied.
    Denied(Denial),

    /// The record isn't the reply to this call.
    Unmatched,
}

/// Says what a record is to a compound of these operations, sent under this context, that awaits its answer.
#[tactic(auto, unfolding(crate::specs::Answers::taken_of))]
pub fn take_answer<M: Mechanism>(
    alloc: Global,
    caller: &Caller,
    awaited: &Awaited,
    ops: &[Op],
    record_: &[u8],
    mech: &M,
) -> Mem<Taken>
    ensures { IfOk result (λ told. told ≡ taken_of M.mic_of caller.now.key awaited.now ops.now record_.now) }
{
    match caller.check_reply(alloc, awaited, record_, mech)? {
        Checked::Result(body) => answer_to(alloc, ops, body.as_slice()),
        Checked::Failed(stat) => Ok(Taken::Failed(stat)),
        Checked::Denied(why) => Ok(Taken::Denied(why)),
        Checked::Unmatched => Ok(Taken::Unmatched),
    }
}

fn answer_to(alloc: Global, ops: &[Op], body: &[u8]) -> Mem<Taken>
    ensures { IfOk result (λ told. told ≡ answer_to ops.now (value_of replies.reply body.now)) }
{
    match read_reply_body(alloc, body)? {
        Err(_) => Ok(Taken::Misspelt),
        Ok(reply) => {
            if is_answer(ops, &reply) {
                return Ok(Taken::Answer(reply));
            }
            Ok(Taken::Misspelt)
        }
    }
}

/// Says what a record is to a CREATE, sent under this context, that awaits its answer.
#[tactic(auto, unfolding(crate::specs::Answers::child_of))]
pub fn take_child<M: Mechanism>(
    alloc: Global,
    caller: &Caller,
    awaited: &Awaited,
    record_: &[u8],
    mech: &M,
) -> Mem<TakenChild>
    ensures { IfOk result (λ told. told ≡ child_of M.mic_of caller.now.key awaited.now record_.now) }
{
    match caller.check_reply(alloc, awaited, record_, mech)? {
        Checked::Result(body) => Ok(child_in(read_create_result(alloc, body.as_slice())?)),
        Checked::Failed(stat) => Ok(TakenChild::Failed(stat)),
        Checked::Denied(why) => Ok(TakenChild::Denied(why)),
        Checked::Unmatched => Ok(TakenChild::Unmatched),
    }
}

fn child_in(made: Option<CreateResult>) -> TakenChild
    ensures { result ≡ child_in made }
{
    let Some(made) = made else {
        return TakenChild::Misspelt;
    };
    if made.major != 0 {
        return TakenChild::Refused(made.major);
    }
    if made.handle.len() != 8 {
        return TakenChild::Misspelt;
    }
    let mut handle = [0; 8];
    handle.copy_from_slice(made.handle.as_slice());
    TakenChild::Made(handle)
}
