//! Setting a server up.

ghost use Rattle.std.specs.Prelude.{◌≡◌, ◌<◌, ◌≤◌, length, false, None, Some, IfOk, IfSome, OnErr, option_copied};
ghost use Rattle.gss_ctx.specs.Init.{init_message};
ghost use Rattle.rpc_msg.specs.declared.records.TheConstants.{RECORD_LIMIT};
ghost use Rattle.session_client.specs.Asked.{AskedFits};
ghost use Rattle.nfs_base.specs.declared.limits.TheConstants.{NAME_LIMIT};
ghost use Rattle.session_client.specs.declared.setup.Setup.TheVariants as setups;
ghost use Rattle.mount.specs.Sending.{FitsRecord, begun, begun_anew, init_awaits, step_asked, stepped_in};
ghost use Rattle.mount.specs.State.{awaited_at, is_setting_up, kept_in, setup_in};
ghost use Rattle.mount.specs.declared.state.Standing.TheVariants.{Down};
ghost use Rattle.mount.specs.declared.state.TheConstants.{PLACES};

use crate::machine::{Mount, SendAt, Sent};
use crate::state::{Aim, Awaiting, PLACES, Pending, Standing};
use gss_mech::Mechanism;
use outcome::Mem;
use session_calls::BackChannel;
use session_client::{Asked, PendingInit, Setup};
use std::alloc::Global;
use wire_xdr::Octets;

impl Mount {
    /// INIT, with a drawn nonce. None exactly where the principal isn't of the realm; then nothing changes.
    pub fn begin<M: Mechanism>(
        &mut self,
        alloc: Global,
        at: SendAt,
        principal: &[u8],
        nonce: &[u8; 32],
        mech: &M,
    ) -> Mem<Option<Sent>>
        requires place { at.place < PLACES }
        requires xid { self.old.calls < at.xid }
        requires free { awaited_at self.old at.place ≡ None }
        requires down { setup_in self.old.standing ≡ setups.Down }
        requires alone { is_setting_up self.old ≡ false }
        ensures fits { IfOk result FitsRecord }
        ensures begun { IfOk result (λ told. told ≡ (begun at nonce.now (M.started mech.now principal.now nonce.now) self.old).0) }
        ensures after { IfOk result (λ told. self.new ≡ (begun at nonce.now (M.started mech.now principal.now nonce.now) self.old).1) }
        ensures err { OnErr result (self.new ≡ self.old) }
    {
        let Some(init) = PendingInit::new(alloc, at.xid, principal, nonce, mech)? else {
            return Ok(None);
        };
        let bytes = init.call(alloc)?;
        self.standing = Standing::Down { kept: None };
        Ok(Some(self.await_init(at, init, bytes)))
    }

    /// INIT anew, with the token of the one that is kept. None exactly where none is.
    pub fn begin_anew(&mut self, alloc: Global, at: SendAt) -> Mem<Option<Sent>>
        requires place { at.place < PLACES }
        requires xid { self.old.calls < at.xid }
        requires free { awaited_at self.old at.place ≡ None }
        requires alone { is_setting_up self.old ≡ false }
        ensures fits { IfOk result FitsRecord }
        ensures begun { IfOk result (λ told. told ≡ (begun_anew at self.old).0) }
        ensures after { IfOk result (λ told. self.new ≡ (begun_anew at self.old).1) }
        ensures err { OnErr result (self.new ≡ self.old) }
    {
        let Some(init) = kept(&self.standing) else {
            return Ok(None);
        };
        let bytes = init.call_as(alloc, at.xid)?;
        match take_kept(&mut self.standing) {
            None => Ok(None),
            Some(init) => Ok(Some(self.await_init(at, init, bytes))),
        }
    }

    /// An INIT went out.
    fn await_init(&mut self, at: SendAt, mut init: PendingInit, bytes: Octets) -> Sent
        requires place { at.place < PLACES }
        requires bytes { bytes ≡ init_message at.xid init.token }
        requires fits { length bytes ≤ RECORD_LIMIT }
        ensures fits { length result.bytes ≤ RECORD_LIMIT }
        ensures sent { Some result ≡ (init_awaits at init self.old).0 }
        ensures after { self.new ≡ (init_awaits at init self.old).1 }
    {
        init.renumber(at.xid);
        self.calls = at.xid;
        self.places[at.place as usize] = Some(Awaiting {
            sent_at: at.now,
            pending: Pending::Init(init),
        });
        Sent { bytes, seal: None }
    }

    /// EXCHANGE_ID of this principal or CREATE_SESSION with this back channel, whichever is next. None: neither is, or the
    /// context's numbers have run out; then nothing changes.
    pub fn step<M: Mechanism>(
        &mut self,
        alloc: Global,
        at: SendAt,
        principal: &[u8],
        back: Option<BackChannel>,
        mech: &M,
    ) -> Mem<Option<Sent>>
        requires place { at.place < PLACES }
        requires xid { self.old.calls < at.xid }
        requires free { awaited_at self.old at.place ≡ None }
        requires alone { is_setting_up self.old ≡ false }
        requires principal { length principal.now ≤ NAME_LIMIT }
        ensures fits { IfOk result FitsRecord }
        ensures sent { IfOk result (λ told. told ≡ (stepped_in M.mic_of at principal.now back self.old.standing self.old).0) }
        ensures after { IfOk result (λ told. self.new ≡ (stepped_in M.mic_of at principal.now back self.old.standing self.old).1) }
        ensures err { OnErr result (self.new ≡ self.old) }
    {
        let Standing::Rooted(root) = &self.standing else {
            return Ok(None);
        };
        let name = root.name;
        let asked = step_asked(alloc, &root.setup, principal, back)?;
        self.send_by(alloc, at, Some(name), Aim::Setup, asked, mech)
    }
}

/// The INIT that is kept.
fn kept(standing: &Standing) -> Option<&PendingInit>
    ensures { option_copied result ≡ kept_in standing.now }
{
    match standing {
        Standing::Down { kept } => kept.as_ref(),
        Standing::Rooted(_) => None,
    }
}

/// The INIT that was kept, which isn't any more.
fn take_kept(standing: &mut Standing) -> Option<PendingInit>
    ensures kept { result ≡ kept_in standing.old }
    ensures taken { IfSome result (λ init. standing.new ≡ Down None) }
    ensures none { result ≡ None → standing.new ≡ standing.old }
{
    match standing {
        Standing::Down { kept } => kept.take(),
        Standing::Rooted(_) => None,
    }
}

/// The compound of the setup that is next, where it stands alone.
fn step_asked(
    alloc: Global,
    setup: &Setup,
    principal: &[u8],
    back: Option<BackChannel>,
) -> Mem<Option<Asked>>
    requires { length principal.now ≤ NAME_LIMIT }
    ensures asked { IfOk result (λ asked. asked ≡ step_asked principal.now back setup.now) }
    ensures fits { IfOk result (λ asked. IfSome asked (λ a. AskedFits a)) }
{
    let Some(call) = setup.next_call(alloc, principal, back)? else {
        return Ok(None);
    };
    Ok(Some(Asked::Compound(call.compound(alloc)?)))
}
