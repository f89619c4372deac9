//! Calls as they go out under a context.

ghost use Rattle.std.specs.Prelude.{◌≡◌, ◌+◌, ◌<◌, ◌≤◌, ◌^◌, length, IfOk, IfSome, OnErr, None};
ghost use Rattle.gss_ctx.specs.declared.caller.TheConstants.{CALL_ROOM};
ghost use Rattle.nfs_compound.specs.Compounds.{compound_bytes};
ghost use Rattle.rpc_msg.specs.declared.records.TheConstants.{RECORD_LIMIT};
ghost use Rattle.session_calls.specs.Calls.{IsSendable};
ghost use Rattle.session_client.specs.Sealing.{proc_of, gss_proc_of, IsCalled};
ghost use Rattle.session_client.specs.declared.sealing.CallKind.{CallKind};

use gss_ctx::{Awaited, Caller, RPCSEC_GSS_CREATE, call_head};
use gss_mech::Mechanism;
use nfs_base::{PROC_COMPOUND, PROC_NULL, Seal};
use nfs_compound::{Compound, write_compound};
use outcome::Mem;
use rpc_msg::{RPCSEC_GSS_DATA, RPCSEC_GSS_DESTROY};
use std::alloc::Global;
use wire_xdr::Octets;

/// What is called under a context.
#[derive(Clone, Copy, PartialEq, Eq)]
pub enum CallKind {
    /// COMPOUND (RFC 8881 section 16.2).
    Compound,

    /// CREATE of a child (RFC 7861 section 2.5).
    Create,

    /// DESTROY of the context (RFC 2203 section 5.4).
    Destroy,
}

/// A call as it goes out: its bytes and its seal, and what is awaited of the reply.
#[derive(Drop)]
pub struct SealedCall {
    pub bytes: Octets,
    pub seal: Seal,
    pub awaited: Awaited,
}

impl CallKind {
    /// The procedure that is called.
    fn proc(self) -> u32
        ensures { result ≡ proc_of self }
    {
        match self {
            CallKind::Compound => PROC_COMPOUND,
            CallKind::Create | CallKind::Destroy => PROC_NULL,
        }
    }

    /// The procedure of RPCSEC_GSS.
    fn gss_proc(self) -> u32
        ensures { result ≡ gss_proc_of self }
    {
        match self {
            CallKind::Compound => RPCSEC_GSS_DATA,
            CallKind::Create => RPCSEC_GSS_CREATE,
            CallKind::Destroy => RPCSEC_GSS_DESTROY,
        }
    }
}

/// Seals a call with this xid under a context, with the context's next number. None exactly where the numbers have run
/// out, which is at 2^31; then, and without memory, the context is as it was.
pub fn seal_under<M: Mechanism>(
    alloc: Global,
    caller: &mut Caller,
    xid: u32,
    kind: CallKind,
    args: &[u8],
    mech: &M,
) -> Mem<Option<SealedCall>>
    requires { length args.now < 4294967292 }
    ensures called { caller.old.next < 2 ^ 31 → IfOk result (λ told. IsCalled M.mic_of caller.old xid kind args.now caller.new told) }
    ensures none { 2 ^ 31 ≤ caller.old.next → IfOk result (λ told. (told ≡ None) × (caller.new ≡ caller.old)) }
    ensures len { IfOk result (λ told. IfSome told (λ call. length call.bytes ≤ length args.now + CALL_ROOM)) }
    ensures err { OnErr result (caller.new ≡ caller.old) }
{
    let head = call_head(alloc, xid, kind.proc(), kind.gss_proc())?;
    let Some(sealed) = caller.seal_call(alloc, &head, args, mech)? else {
        return Ok(None);
    };
    let seal = caller.seal(sealed.awaited.seq);
    Ok(Some(SealedCall {
        bytes: sealed.bytes,
        seal,
        awaited: sealed.awaited,
    }))
}

/// Seals a compound. Each one that is sent anew is sealed anew: by another xid, and with another number of its context.
pub fn seal_compound<M: Mechanism>(
    alloc: Global,
    caller: &mut Caller,
    xid: u32,
    compound: &Compound,
    mech: &M,
) -> Mem<Option<SealedCall>>
    requires { IsSendable compound.now }
    ensures called { caller.old.next < 2 ^ 31 → IfOk result (λ told. IsCalled M.mic_of caller.old xid CallKind.Compound (compound_bytes compound.now) caller.new told) }
    ensures none { 2 ^ 31 ≤ caller.old.next → IfOk result (λ told. (told ≡ None) × (caller.new ≡ caller.old)) }
    ensures fits { IfOk result (λ told. IfSome told (λ call. length call.bytes ≤ RECORD_LIMIT)) }
    ensures err { OnErr result (caller.new ≡ caller.old) }
{
    let args = write_compound(alloc, compound)?;
    seal_under(
        alloc,
        caller,
        xid,
        CallKind::Compound,
        args.as_slice(),
        mech,
    )
}
