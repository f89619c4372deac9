ghost use Rattle.std.specs.Prelude.{◌≡◌, ◌+◌, ◌<◌, ◌≤◌, ◌^◌, length, IfOk, IfSome, OnErr, IsSome, Some, None};
ghost use Rattle.rpc_msg.specs.Heads.{call};
ghost use Rattle.rpc_msg.specs.GssCred.{gss_cred};
ghost use Rattle.rpc_msg.specs.declared.numbers.TheConstants.{AUTH_LIMIT};
ghost use Rattle.gss_ctx.specs.declared.caller.TheConstants.{CALL_ROOM};
ghost use Rattle.gss_ctx.specs.Seals.{cred_of};
ghost use Rattle.gss_ctx.specs.Calls.{Side, seal_of, call_cred, with_cred, verified, sealed_call, Seals, cred_auth};
ghost use Rattle.gss_ctx.specs.Init.{asked_head, asked_cred};
ghost use Rattle.gss_ctx.specs.Replies.{checked_of};

use crate::contexts::named_by;
use crate::numbers::RPCSEC_GSS_VERSION_3;
use crate::sealing::{
    code_auth, is_code, read_cred, reply_code, seal_message, unsealed, write_header,
};
use gss_mech::{ACCEPTOR, INITIATOR, Mechanism};
use nfs_base::{End, NFS_PROGRAM, NFS_VERSION, Seal};
use outcome::Mem;
use rpc_msg::{
    Auth, CALL, CallHead, Denial, GssCred, RPC_GSS_SVC_INTEGRITY, RPC_VERSION, RPCSEC_GSS,
    ReplyHead, Stat, read_reply,
};
use std::alloc::Global;
use std::marker::Model;
use wire_xdr::{Octets, Writer, Xdr};

/// How many bytes a sealed call has beside its arguments, at most: its head with a credential and a verifier, and the
/// seal.
pub const CALL_ROOM: u32 = 528;

/// The initiating side of one context.
#[derive(Drop)]
pub struct Caller {
    owner: End,
    handle: [u8; 8],
    key: [u8; 32],
    next: u32,
}

impl Model for Caller {
    ghost use Rattle.gss_ctx.specs.Calls.{Side};

    ghost Value = { Side };

    ghost view = { λ c. record { owner = c.owner; handle = c.handle; key = c.key; next = c.next } };
}

/// What is awaited of the reply to a call: its xid, the call's sequence number, and its verifier's code.
#[derive(Clone, Copy)]
pub struct Awaited {
    pub xid: u32,
    pub seq: u32,
    pub code: [u8; 32],
}

/// A sealed call as it is sent, and what is awaited.
#[derive(Drop)]
pub struct Sealed {
    pub bytes: Octets,
    pub awaited: Awaited,
}

/// What a record is to a call that awaits its reply.
#[derive(Drop)]
pub enum Checked {
    /// The result, under the seal of this context and of the call's number.
    Result(Octets),
    /// The call failed.
    Failed(Stat),
    /// The call was denied.
    Denied(Denial),
    /// The record isn't the reply to this call.
    Unmatched,
}

/// The head of a call to program 100003, version 4, that asks for a procedure of RPCSEC_GSS in version 3 and
/// with integrity. It has no handle, sequence number or verifier yet: [`Caller::seal_call`] puts them in.
#[tactic(auto, using(crate::proofs::CredLemmas::asked_is), unfolding(rpc_msg::specs::GssCred::gss_cred, rpc_msg::specs::Heads::call, rpc_msg::specs::Heads::auth))]
pub fn call_head(alloc: Global, xid: u32, proc: u32, gss_proc: u32) -> Mem<CallHead>
    ensures head { IfOk result (λ head. head ≡ asked_head xid proc gss_proc) }
    ensures fits { IfOk result (λ head. call.Fits head) }
    ensures cred { IfOk result (λ head. cred_of head ≡ Some (asked_cred gss_proc)) }
{
    let cred = GssCred {
        version: RPCSEC_GSS_VERSION_3,
        gss_proc,
        seq_num: 0,
        service: RPC_GSS_SVC_INTEGRITY,
        handle: Octets::from_vec(Vec::new(alloc)),
    };
    Ok(CallHead {
        xid,
        rpcvers: RPC_VERSION,
        prog: NFS_PROGRAM,
        vers: NFS_VERSION,
        proc,
        cred: cred_auth(alloc, &cred)?,
        verf: Auth::none(alloc),
    })
}

/// A credential of RPCSEC_GSS with a short handle as an auth.
#[tactic(auto, using(crate::proofs::CredLemmas::short_cred))]
pub(crate) fn cred_auth(alloc: Global, cred: &GssCred) -> Mem<Auth>
    requires fits { gss_cred.Fits cred.now }
    requires short { length cred.now.handle ≤ 8 }
    ensures auth { IfOk result (λ auth. auth ≡ cred_auth cred.now) }
    ensures small { IfOk result (λ auth. length auth.body ≤ 400) }
{
    let mut writer = Writer::new(alloc)?;
    cred.put(&mut writer)?;
    Ok(Auth {
        flavor: RPCSEC_GSS,
        body: writer.finish(),
    })
}

impl Caller {
    /// The side of a context that `owner` made, which has this handle and key. The first call has number 1.
    pub fn new(owner: End, handle: [u8; 8], key: [u8; 32]) -> Caller
        ensures { result ≡ record { owner = owner; handle = handle; key = key; next = 1 } }
    {
        Caller {
            owner,
            handle,
            key,
            next: 1,
        }
    }

    /// The same side once more, for a step that may be given up: only one of the two is to go on, since both give the
    /// same next number.
    pub fn copy(&self) -> Caller
        ensures { result ≡ self.now }
    {
        let owner = self.owner;
        let handle = self.handle;
        let key = self.key;
        Caller {
            owner,
            handle,
            key,
            next: self.next,
        }
    }

    /// The seal of a sequence number under this context, which is that of the contexts that made it.
    pub fn seal(&self, seq: u32) -> Seal
        ensures { result ≡ seal_of self.now seq }
    {
        let (boot, number) = named_by(&self.handle);
        Seal {
            owner: self.owner,
            boot,
            number,
            seq,
        }
    }

    /// Seals a call with the next number. The head's credential says the version and the procedure of
    /// RPCSEC_GSS; its sequence number, service and handle are put in here, and the verifier. None exactly
    /// where the next number is 2^31.
    #[tactic(auto, unfolding(rpc_msg::specs::GssCred::gss_cred, rpc_msg::specs::Heads::call, rpc_msg::specs::Heads::auth))]
    pub fn seal_call<M: Mechanism>(
        &mut self,
        alloc: Global,
        head: &CallHead,
        args: &[u8],
        mech: &M,
    ) -> Mem<Option<Sealed>>
        requires head { call.Fits head.now }
        requires cred { IsSome (cred_of head.now) }
        requires args { length args.now < 4294967292 }
        ensures sealed { self.old.next < 2 ^ 31 → IfOk result (λ told. Seals M.mic_of self.old head.now args.now (cred_of head.now) self.new told) }
        ensures none { 2 ^ 31 ≤ self.old.next → IfOk result (λ told. (told ≡ None) × (self.new ≡ self.old)) }
        ensures len { IfOk result (λ told. IfSome told (λ sealed. length sealed.bytes ≤ length args.now + CALL_ROOM)) }
        ensures err { OnErr result (self.new ≡ self.old) }
    {
        let seq = self.next;
        if seq >= 1 << 31 {
            return Ok(None);
        }
        let Some(asked) = read_cred(alloc, head)? else {
            return Ok(None);
        };
        let cred = GssCred {
            version: asked.version,
            gss_proc: asked.gss_proc,
            seq_num: seq,
            service: RPC_GSS_SVC_INTEGRITY,
            handle: Octets::from_slice(alloc, &self.handle)?,
        };
        let sent = CallHead {
            xid: head.xid,
            rpcvers: head.rpcvers,
            prog: head.prog,
            vers: head.vers,
            proc: head.proc,
            cred: cred_auth(alloc, &cred)?,
            verf: Auth::none(alloc),
        };
        let code = reply_code(alloc, &self.key, &sent, seq, mech)?;
        let bytes = short_call(alloc, &self.key, sent, seq, args, mech)?;
        self.next = seq + 1;
        Ok(Some(Sealed {
            bytes,
            awaited: Awaited {
                xid: head.xid,
                seq,
                code,
            },
        }))
    }

    /// Says what a record is to a call that awaits its reply. A result comes exactly where the xid is the
    /// awaited one, the verifier carries the awaited code, and the body carries the acceptor's code of this
    /// context and the call's number.
    #[tactic(auto, unfolding(crate::specs::Replies::checked_of))]
    pub fn check_reply<M: Mechanism>(
        &self,
        alloc: Global,
        awaited: &Awaited,
        record_: &[u8],
        mech: &M,
    ) -> Mem<Checked>
        ensures { IfOk result (λ told. told ≡ checked_of M.mic_of self.now.key awaited.now record_.now) }
    {
        let Ok((head, body)) = read_reply(alloc, record_)? else {
            return Ok(Checked::Unmatched);
        };
        match head {
            ReplyHead::Accepted { xid, verf, stat } => {
                if xid != awaited.xid {
                    return Ok(Checked::Unmatched);
                }
                if stat != Stat::Success {
                    return Ok(Checked::Failed(stat));
                }
                if !is_code(&verf, &awaited.code) {
                    return Ok(Checked::Unmatched);
                }
                let body = &record_[body..];
                match unsealed(&self.key, ACCEPTOR, awaited.seq, body, mech) {
                    Some(result) => Ok(Checked::Result(Octets::from_slice(alloc, result)?)),
                    None => Ok(Checked::Unmatched),
                }
            }
            ReplyHead::Denied { xid, why } => {
                if xid != awaited.xid {
                    return Ok(Checked::Unmatched);
                }
                Ok(Checked::Denied(why))
            }
        }
    }
}

/// A call as it is sent: the code of its header as verifier, and the arguments under a seal.
#[tactic(auto, unfolding(rpc_msg::specs::Heads::call, rpc_msg::specs::Heads::auth))]
pub(crate) fn sealed_call<M: Mechanism>(
    alloc: Global,
    key: &[u8; 32],
    head: CallHead,
    seq: u32,
    args: &[u8],
    mech: &M,
) -> Mem<Octets>
    requires head { call.Fits head }
    requires args { length args.now < 4294967292 }
    ensures { IfOk result (λ message. message ≡ sealed_call M.mic_of key.now head seq args.now) }
{
    let header = write_header(alloc, CALL, &head)?;
    let verf = code_auth(alloc, &mech.mic(key, INITIATOR, header.as_slice()))?;
    let verified = CallHead { verf, ..head };
    let mut writer = Writer::new(alloc)?;
    verified.put(&mut writer)?;
    seal_message(alloc, writer.as_slice(), key, INITIATOR, seq, args, mech)
}

/// The same, with a short credential.
fn short_call<M: Mechanism>(
    alloc: Global,
    key: &[u8; 32],
    head: CallHead,
    seq: u32,
    args: &[u8],
    mech: &M,
) -> Mem<Octets>
    requires head { call.Fits head }
    requires cred { length head.cred.body ≤ AUTH_LIMIT }
    requires args { length args.now < 4294967292 }
    ensures message { IfOk result (λ message. message ≡ sealed_call M.mic_of key.now head seq args.now) }
    ensures len { IfOk result (λ message. length message ≤ length args.now + CALL_ROOM) }
{
    sealed_call(alloc, key, head, seq, args, mech)
}
