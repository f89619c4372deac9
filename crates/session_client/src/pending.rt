//! Calls that await their answers.

ghost use Rattle.std.specs.Prelude.{◌≡◌, IfOk};
ghost use Rattle.session_client.specs.Answers.{child_of, taken_of};
ghost use Rattle.session_client.specs.Asked.{AskedFits, ops_of};
ghost use Rattle.session_client.specs.Pending.{asking};

use crate::answers::{Taken, TakenChild, take_answer, take_child};
use crate::asked::Asked;
use crate::sealing::SealedCall;
use gss_ctx::{Awaited, Caller};
use gss_mech::Mechanism;
use nfs_base::Seal;
use nfs_compound::Op;
use outcome::Mem;
use std::alloc::Global;
use std::marker::Model;
use std::sync::Arc;
use wire_xdr::Octets;

/// A call that awaits its answer: what it asks, the seal under which it was last sent, and what is awaited of the reply
/// to that. The number of a compound in its slot stands in its SEQUENCE, and stays with it. What it asks may be 64 KiB
/// long and never changes, so copies of the call share it.
#[derive(Drop)]
pub struct PendingCall {
    asked: Arc<Asked>,
    seal: Seal,
    awaited: Awaited,
}

impl Model for PendingCall {
    ghost use Rattle.session_client.specs.Asked.{AskedFits};
    ghost use Rattle.session_client.specs.Pending.{Asking};

    ghost Value = { Asking };

    ghost view = { λ p. record { asked = p.asked.value; seal = p.seal; awaited = p.awaited } };

    ghost invariant = { λ p. AskedFits p.asked.value };
}

impl PendingCall {
    /// The call that was just sealed awaits its answer; beside it the bytes that go out.
    pub fn new(asked: Arc<Asked>, call: SealedCall) -> (PendingCall, Octets)
        requires { AskedFits asked.value }
        ensures pending { result.0 ≡ asking asked.value call }
        ensures bytes { result.1 ≡ call.bytes }
    {
        let SealedCall {
            bytes,
            seal,
            awaited,
        } = call;
        let pending = PendingCall {
            asked,
            seal,
            awaited,
        };
        (pending, bytes)
    }

    /// The same call once more.
    pub fn copy(&self) -> Mem<PendingCall>
        ensures { IfOk result (λ copy. copy ≡ self.now) }
    {
        Ok(PendingCall {
            asked: self.asked.clone()?,
            seal: self.seal,
            awaited: self.awaited,
        })
    }

    /// The same was sealed anew: what was sent before is no longer awaited. Gives the bytes that go out.
    pub fn sent_again(&mut self, call: SealedCall) -> Octets
        ensures awaits { self.new ≡ asking self.old.asked call }
        ensures bytes { result ≡ call.bytes }
    {
        let SealedCall {
            bytes,
            seal,
            awaited,
        } = call;
        self.seal = seal;
        self.awaited = awaited;
        bytes
    }

    /// What it asks.
    pub fn asked(&self) -> &Asked
        ensures asked { result.now ≡ self.now.asked }
        ensures fits { AskedFits result.now }
    {
        &self.asked
    }

    /// The seal under which it was last sent.
    pub fn seal(&self) -> Seal
        ensures { result ≡ self.now.seal }
    {
        self.seal
    }

    /// The xid by which it was last sent.
    pub fn xid(&self) -> u32
        ensures { result ≡ self.now.awaited.xid }
    {
        self.awaited.xid
    }

    /// Says what a record is to this call, a compound or DESTROY, which was sent under the context `caller`.
    pub fn take<M: Mechanism>(
        &self,
        alloc: Global,
        caller: &Caller,
        record_: &[u8],
        mech: &M,
    ) -> Mem<Taken>
        ensures { IfOk result (λ told. told ≡ taken_of M.mic_of caller.now.key self.now.awaited (ops_of self.now.asked) record_.now) }
    {
        let ops = ops_of(&self.asked);
        take_answer(alloc, caller, &self.awaited, ops, record_, mech)
    }

    /// Says what a record is to this CREATE, which was sent under the context `caller`.
    pub fn take_child<M: Mechanism>(
        &self,
        alloc: Global,
        caller: &Caller,
        record_: &[u8],
        mech: &M,
    ) -> Mem<TakenChild>
        ensures { IfOk result (λ told. told ≡ child_of M.mic_of caller.now.key self.now.awaited record_.now) }
    {
        take_child(alloc, caller, &self.awaited, record_, mech)
    }
}

/// The operations of a compound.
fn ops_of(asked: &Asked) -> &[Op]
    ensures { result.now ≡ ops_of asked.now }
{
    match asked {
        Asked::Compound(compound) => compound.ops.as_slice(),
        Asked::Create(_) | Asked::Destroy => &[],
    }
}
