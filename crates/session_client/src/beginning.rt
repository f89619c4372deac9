//! INIT, which makes a context.

ghost use Rattle.std.specs.Prelude.{◌≡◌, ◌≤◌, length, IfOk, OnErr};
ghost use Rattle.nfs_base.specs.declared.limits.TheConstants.{TOKEN_LIMIT};
ghost use Rattle.gss_ctx.specs.Init.{init_message};
ghost use Rattle.gss_ctx.specs.Replies.{begun_of};
ghost use Rattle.rpc_msg.specs.declared.records.TheConstants.{RECORD_LIMIT};
ghost use Rattle.session_client.specs.Pending.{Beginning, beginning};
ghost use Rattle.session_client.specs.Setup.{rooted};

use crate::setup::Setup;
use gss_ctx::{Begun, init_call, init_reply};
use gss_mech::{Mechanism, tokens_agree};
use outcome::Mem;
use std::alloc::Global;
use std::marker::Model;
use wire_xdr::Octets;

/// An INIT that awaits its answer: its token and the nonce of that, and the xid by which it was last sent.
#[derive(Drop)]
pub struct PendingInit {
    nonce: [u8; 32],
    token: Octets,
    xid: u32,
}

impl Model for PendingInit {
    ghost use Rattle.std.specs.Prelude.{◌≤◌, length};
    ghost use Rattle.nfs_base.specs.declared.limits.TheConstants.{TOKEN_LIMIT};
    ghost use Rattle.session_client.specs.Pending.{Beginning};

    ghost Value = { Beginning };

    ghost view = { λ p. record { nonce = p.nonce; token = p.token; xid = p.xid } };

    ghost invariant = { λ p. length p.token ≤ TOKEN_LIMIT };
}

impl PendingInit {
    /// Begins a context for a principal, with a drawn nonce. None exactly where the principal isn't of the realm.
    pub fn new<M: Mechanism>(
        alloc: Global,
        xid: u32,
        principal: &[u8],
        nonce: &[u8; 32],
        mech: &M,
    ) -> Mem<Option<PendingInit>>
        ensures { IfOk result (λ told. told ≡ beginning xid nonce.now (M.started mech.now principal.now nonce.now)) }
    {
        tokens_agree::<M>();
        let Some(token) = mech.start(alloc, principal, nonce)? else {
            return Ok(None);
        };
        Ok(Some(PendingInit {
            nonce: *nonce,
            token,
            xid,
        }))
    }

    /// The same INIT once more.
    pub fn copy(&self) -> Mem<PendingInit>
        ensures { IfOk result (λ copy. copy ≡ self.now) }
    {
        let nonce = self.nonce;
        Ok(PendingInit {
            nonce,
            token: self.token.copy()?,
            xid: self.xid,
        })
    }

    /// The bytes that go out.
    pub fn call(&self, alloc: Global) -> Mem<Octets>
        ensures bytes { IfOk result (λ bytes. bytes ≡ init_message self.now.xid self.now.token) }
        ensures fits { IfOk result (λ bytes. length bytes ≤ RECORD_LIMIT) }
    {
        init_call(alloc, self.xid, self.token.as_slice())
    }

    /// The bytes that go out where it is sent by another xid.
    pub fn call_as(&self, alloc: Global, xid: u32) -> Mem<Octets>
        ensures bytes { IfOk result (λ bytes. bytes ≡ init_message xid self.now.token) }
        ensures fits { IfOk result (λ bytes. length bytes ≤ RECORD_LIMIT) }
    {
        init_call(alloc, xid, self.token.as_slice())
    }

    /// The xid by which it was last sent.
    pub fn xid(&self) -> u32
        ensures { result ≡ self.now.xid }
    {
        self.xid
    }

    /// How far the setup is once its context is there.
    pub fn setup(&self) -> Setup
        ensures { result ≡ rooted self.now.nonce }
    {
        Setup::rooted(&self.nonce)
    }

    /// It is sent again: with the same token, by another xid. What was sent before is no longer awaited.
    pub fn renumber(&mut self, xid: u32)
        ensures { self.new ≡ record self.old { xid = xid } }
    {
        self.xid = xid;
    }

    /// Says what a record is to this INIT of a principal.
    pub fn take<M: Mechanism>(
        &self,
        alloc: Global,
        principal: &[u8],
        record_: &[u8],
        mech: &M,
    ) -> Mem<Begun>
        ensures { IfOk result (λ begun. begun ≡ begun_of M.mic_of (M.finished mech.now principal.now self.now.nonce) self.now.xid record_.now) }
    {
        init_reply(alloc, self.xid, principal, &self.nonce, record_, mech)
    }
}
