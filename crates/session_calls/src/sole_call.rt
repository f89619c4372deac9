//! Calls that stand alone in a compound.

ghost use Rattle.std.specs.Prelude.{◌≡◌, ◌≤◌, length, sum_by, IfOk};
ghost use Rattle.std.specs.List.{AllByRecursion};
ghost use Rattle.nfs_base.specs.declared.limits.TheConstants.{NAME_LIMIT};
ghost use Rattle.file_ops.specs.Parms.{sec_parm};
ghost use Rattle.file_ops.specs.declared.args.FileArg.TheVariants.{CreateSession};
ghost use Rattle.file_ops.specs.ArgLengthLaws.{parm_size};
ghost use Rattle.nfs_compound.specs.CallLengthLaws.{op_size};
ghost use Rattle.nfs_compound.specs.Ops.{operation};
ghost use Rattle.nfs_compound.specs.declared.op.Op.TheVariants.{File};
ghost use Rattle.session_calls.specs.Calls.{channel, back_parm, create_op, sole_op, sole_compound, SoleCallFits, IsSendable};

use crate::compound::of_one;
use file_ops::{
    CONN_BACK_CHAN, ChannelAttrs, CreateSessionArgs, ExchangeIdArgs, FileArg, GssParm, Protection,
    SecParm,
};
use nfs_base::{CALLBACK_PROGRAM, MOST_OPERATIONS, SLOTS};
use nfs_compound::{Compound, Op};
use outcome::Mem;
use rpc_msg::{RECORD_LIMIT, RPC_GSS_SVC_INTEGRITY};
use std::alloc::Global;
use wire_xdr::{Items, Octets};

/// The contexts of a session's back channel, by their handles: the one that makes the session, and the one under
/// which the server calls back (RFC 8881 section 18.36).
#[derive(Clone, Copy)]
pub struct BackChannel {
    pub from_server: [u8; 8],
    pub from_client: [u8; 8],
}

/// A call that stands alone in its compound.
#[derive(Drop)]
pub enum SoleCall {
    /// EXCHANGE_ID of this owner; another verifier is another client (RFC 8881 section 18.35).
    ExchangeId {
        verifier: [u8; 8],
        owner: Octets,
    },

    /// CREATE_SESSION of a client with its next sequence, with a back channel or without one (RFC 8881 section
    /// 18.36).
    CreateSession {
        client: u64,
        sequence: u32,
        back: Option<BackChannel>,
    },

    /// DESTROY_SESSION (RFC 8881 section 18.37).
    DestroySession {
        session: [u8; 16],
    },

    /// DESTROY_CLIENTID (RFC 8881 section 18.50).
    DestroyClientId {
        client: u64,
    },
}

/// What these ends ask of a channel.
fn channel() -> ChannelAttrs
    ensures { result ≡ channel }
{
    ChannelAttrs {
        header_padding: 0,
        max_request: RECORD_LIMIT,
        max_response: RECORD_LIMIT,
        max_cached_response: RECORD_LIMIT,
        max_operations: MOST_OPERATIONS,
        max_requests: SLOTS,
        rdma: None,
    }
}

impl SoleCall {
    /// The call, as a compound.
    pub fn compound(self, alloc: Global) -> Mem<Compound>
        requires { SoleCallFits self }
        ensures is { IfOk result (λ c. c ≡ sole_compound self) }
        ensures sendable { IfOk result (λ c. IsSendable c) }
    {
        match self {
            SoleCall::ExchangeId { verifier, owner } => {
                of_one(alloc, exchange_op(verifier, owner))
            }
            SoleCall::CreateSession {
                client,
                sequence,
                back,
            } => of_one(alloc, create_op(alloc, client, sequence, back)?),
            SoleCall::DestroySession { session } => of_one(alloc, destroy_op(session)),
            SoleCall::DestroyClientId { client } => of_one(alloc, destroy_client_op(client)),
        }
    }
}

/// EXCHANGE_ID without flags, protection of state or a word on who made the client.
#[tactic(auto, unfolding(nfs_compound::specs::Ops::operation, nfs_compound::specs::Ops::op_arg, file_ops::specs::Args::file_arg, file_ops::specs::Sessions::exchange_id_args, file_ops::specs::Sessions::protection))]
fn exchange_op(verifier: [u8; 8], owner: Octets) -> Op
    requires { length owner ≤ NAME_LIMIT }
    ensures is { result ≡ File (sole_op (SoleCall.ExchangeId verifier owner)) }
    ensures fits { operation.Fits result }
    ensures size { op_size result ≤ 2000 }
{
    Op::File(FileArg::ExchangeId(ExchangeIdArgs {
        verifier,
        owner,
        flags: 0,
        protection: Protection::Unprotected(None),
    }))
}

#[tactic(auto, unfolding(nfs_compound::specs::Ops::operation, nfs_compound::specs::Ops::op_arg, file_ops::specs::Args::file_arg))]
fn destroy_op(session: [u8; 16]) -> Op
    ensures is { result ≡ File (sole_op (SoleCall.DestroySession session)) }
    ensures fits { operation.Fits result }
    ensures size { op_size result ≤ 2000 }
{
    Op::File(FileArg::DestroySession(session))
}

#[tactic(auto, unfolding(nfs_compound::specs::Ops::operation, nfs_compound::specs::Ops::op_arg, file_ops::specs::Args::file_arg))]
fn destroy_client_op(client: u64) -> Op
    ensures is { result ≡ File (sole_op (SoleCall.DestroyClientId client)) }
    ensures fits { operation.Fits result }
    ensures size { op_size result ≤ 2000 }
{
    Op::File(FileArg::DestroyClientId(client))
}

/// CREATE_SESSION, whose back channel has one context, or which has none.
fn create_op(alloc: Global, client: u64, sequence: u32, back: Option<BackChannel>) -> Mem<Op>
    ensures is { IfOk result (λ op. op ≡ File (create_op client sequence back)) }
    ensures fits { IfOk result (λ op. operation.Fits op) }
    ensures size { IfOk result (λ op. op_size op ≤ 2000) }
{
    let mut parms = Items::new(alloc);
    match back {
        None => Ok(session_op(client, sequence, 0, 0, parms)),
        Some(back) => {
            parms.push(back_parm(alloc, &back)?)?;
            Ok(session_op(client, sequence, CONN_BACK_CHAN, CALLBACK_PROGRAM, parms))
        }
    }
}

/// RPCSEC_GSS under the context of the back channel.
#[tactic(auto, unfolding(file_ops::specs::Parms::sec_parm, file_ops::specs::Parms::gss_parm))]
fn back_parm(alloc: Global, back: &BackChannel) -> Mem<SecParm>
    ensures is { IfOk result (λ parm. parm ≡ back_parm back.now) }
    ensures fits { IfOk result (λ parm. sec_parm.Fits parm) }
    ensures size { IfOk result (λ parm. parm_size parm ≤ 1000) }
{
    Ok(SecParm::Gss(GssParm {
        service: RPC_GSS_SVC_INTEGRITY,
        handle_from_server: Octets::from_slice(alloc, &back.from_server)?,
        handle_from_client: Octets::from_slice(alloc, &back.from_client)?,
    }))
}

#[tactic(auto, unfolding(nfs_compound::specs::Ops::operation, nfs_compound::specs::Ops::op_arg, file_ops::specs::Args::file_arg, file_ops::specs::Sessions::create_session_args, file_ops::specs::Parms::channel_attrs))]
fn session_op(client: u64, sequence: u32, flags: u32, program: u32, parms: Items<SecParm>) -> Op
    requires few { length parms ≤ 1 }
    requires fits { AllByRecursion sec_parm.Fits parms }
    requires size { sum_by parm_size parms ≤ 1000 }
    ensures is { result ≡ File (CreateSession (record { client = client; sequence = sequence; flags = flags; fore = channel; back = channel; program = program; parms = parms })) }
    ensures fits { operation.Fits result }
    ensures size { op_size result ≤ 2000 }
{
    Op::File(FileArg::CreateSession(CreateSessionArgs {
        client,
        sequence,
        flags,
        fore: channel(),
        back: channel(),
        program,
        parms,
    }))
}
