//! Calls that go out.

ghost use Rattle.std.specs.Prelude.{◌≡◌, ◌<◌, ◌≤◌, length, true, false, None, IfOk, OnErr};
ghost use Rattle.nfs_base.specs.declared.limits.TheConstants.{NAME_LIMIT, PRIVILEGE_LIMIT};
ghost use Rattle.session_calls.specs.Calls.{SlotCallFits};
ghost use Rattle.session_client.specs.declared.setup.Setup.TheVariants as setups;
ghost use Rattle.mount.specs.State.{awaited_at, setup_in, HasNumbers, IsChild};
ghost use Rattle.mount.specs.State as mounts;
ghost use Rattle.mount.specs.declared.state.TheConstants.{PLACES};
ghost use Rattle.client_site.specs.Sending as spec;

use crate::site::Site;
use gss_ctx::handle_of;
use gss_mech::Mechanism;
use mount::{Ending, Mount, PLACES, SendAt, Sent, Under};
use outcome::Mem;
use session_calls::{BackChannel, SlotCall};
use session_client::Setup;
use std::alloc::Global;

/// Whether a new call may go out: nothing is awaited at its place, its xid is new, and its slot has a number left.
pub fn may_go(mount: &Mount, at: SendAt) -> bool
    requires { at.place < PLACES }
    ensures is { result ≡ spec.may_go at mount.now }
    ensures xid { result ≡ true → mount.now.calls < at.xid }
    ensures free { result ≡ true → awaited_at mount.now at.place ≡ None }
    ensures left { result ≡ true → HasNumbers mount.now.standing at.place }
{
    if mount.awaits(at.place) {
        return false;
    }
    if mount.calls() >= at.xid {
        return false;
    }
    mount.has_numbers(at.place)
}

/// Whether an INIT may go out: no context is there, and no call of a setup is awaited.
pub fn may_begin(mount: &Mount, at: SendAt) -> bool
    requires { at.place < PLACES }
    ensures is { result ≡ spec.may_begin at mount.now }
    ensures xid { result ≡ true → mount.now.calls < at.xid }
    ensures free { result ≡ true → awaited_at mount.now at.place ≡ None }
    ensures alone { result ≡ true → mounts.is_setting_up mount.now ≡ false }
    ensures down { result ≡ true → setup_in mount.now.standing ≡ setups.Down }
{
    if mount.is_setting_up() {
        return false;
    }
    if !is_down(&mount.setup()) {
        return false;
    }
    may_go(mount, at)
}

fn is_down(setup: &Setup) -> bool
    ensures is { result ≡ spec.is_down setup.now }
    ensures down { result ≡ true → setup.now ≡ setups.Down }
{
    matches!(setup, Setup::Down)
}

impl Site {
    /// A call in the slot of its place. None: it may not go out, there is no session or no such context, or the context's
    /// numbers have run out; then, and without memory, nothing changes.
    pub fn send<M: Mechanism>(
        &mut self,
        alloc: Global,
        at: SendAt,
        under: Under,
        call: SlotCall,
        mech: &M,
    ) -> Mem<Option<Sent>>
        requires place { at.place < PLACES }
        requires child { IsChild under }
        requires call { SlotCallFits call }
        ensures sent { IfOk result (λ sent. sent ≡ (spec.sent_in M.mic_of at under call self.old).0) }
        ensures after { IfOk result (λ sent. self.new ≡ (spec.sent_in M.mic_of at under call self.old).1) }
        ensures err { OnErr result (self.new ≡ self.old) }
    {
        if !may_go(&self.mount, at) {
            return Ok(None);
        }
        self.mount.send(alloc, at, under, call, mech)
    }

    /// CREATE of the child that is for `child`, which carries a privilege. None as of [`Site::send`].
    pub fn create<M: Mechanism>(
        &mut self,
        alloc: Global,
        at: SendAt,
        child: u32,
        name: &[u8],
        privilege: &[u8],
        mech: &M,
    ) -> Mem<Option<Sent>>
        requires place { at.place < PLACES }
        requires child { child < PLACES }
        requires name { length name.now ≤ NAME_LIMIT }
        requires privilege { length privilege.now ≤ PRIVILEGE_LIMIT }
        ensures sent { IfOk result (λ sent. sent ≡ (spec.created_in M.mic_of at child name.now privilege.now self.old).0) }
        ensures after { IfOk result (λ sent. self.new ≡ (spec.created_in M.mic_of at child name.now privilege.now self.old).1) }
        ensures err { OnErr result (self.new ≡ self.old) }
    {
        if !may_go(&self.mount, at) {
            return Ok(None);
        }
        self.mount.create(alloc, at, child, name, privilege, mech)
    }

    /// What is awaited at a place goes out again. None: nothing is awaited there, its xid isn't new, or the context's
    /// numbers have run out; then, and without memory, nothing changes.
    pub fn send_again<M: Mechanism>(
        &mut self,
        alloc: Global,
        at: SendAt,
        mech: &M,
    ) -> Mem<Option<Sent>>
        requires { at.place < PLACES }
        ensures sent { IfOk result (λ sent. sent ≡ (spec.again_in M.mic_of at self.old).0) }
        ensures after { IfOk result (λ sent. self.new ≡ (spec.again_in M.mic_of at self.old).1) }
        ensures err { OnErr result (self.new ≡ self.old) }
    {
        if self.mount.calls() >= at.xid {
            return Ok(None);
        }
        self.mount.send_again(alloc, at, mech)
    }

    /// INIT, with a drawn nonce. None exactly where the principal isn't of the realm; then, and without memory, nothing
    /// changes.
    pub fn begin<M: Mechanism>(
        &mut self,
        alloc: Global,
        at: SendAt,
        principal: &[u8],
        nonce: &[u8; 32],
        mech: &M,
    ) -> Mem<Option<Sent>>
        requires place { at.place < PLACES }
        requires xid { self.old.mount.calls < at.xid }
        requires free { awaited_at self.old.mount at.place ≡ None }
        requires down { setup_in self.old.mount.standing ≡ setups.Down }
        requires alone { mounts.is_setting_up self.old.mount ≡ false }
        ensures sent { IfOk result (λ sent. sent ≡ (spec.begun_in at nonce.now (M.started mech.now principal.now nonce.now) self.old).0) }
        ensures after { IfOk result (λ sent. self.new ≡ (spec.begun_in at nonce.now (M.started mech.now principal.now nonce.now) self.old).1) }
        ensures err { OnErr result (self.new ≡ self.old) }
    {
        self.mount.begin(alloc, at, principal, nonce, mech)
    }

    /// EXCHANGE_ID or CREATE_SESSION, whichever is next, with this back channel. None: neither is, one is awaited, or as of
    /// [`Site::send`]; then, and without memory, nothing changes.
    pub fn step<M: Mechanism>(
        &mut self,
        alloc: Global,
        at: SendAt,
        principal: &[u8],
        back: Option<BackChannel>,
        mech: &M,
    ) -> Mem<Option<Sent>>
        requires place { at.place < PLACES }
        requires principal { length principal.now ≤ NAME_LIMIT }
        ensures sent { IfOk result (λ sent. sent ≡ (spec.stepped_at M.mic_of at principal.now back self.old).0) }
        ensures after { IfOk result (λ sent. self.new ≡ (spec.stepped_at M.mic_of at principal.now back self.old).1) }
        ensures err { OnErr result (self.new ≡ self.old) }
    {
        if self.mount.is_setting_up() {
            return Ok(None);
        }
        if !may_go(&self.mount, at) {
            return Ok(None);
        }
        self.mount.step(alloc, at, principal, back, mech)
    }

    /// RECLAIM_COMPLETE. None as of [`Site::send`].
    pub fn reclaim<M: Mechanism>(
        &mut self,
        alloc: Global,
        at: SendAt,
        mech: &M,
    ) -> Mem<Option<Sent>>
        requires { at.place < PLACES }
        ensures sent { IfOk result (λ sent. sent ≡ (spec.reclaimed_in M.mic_of at self.old).0) }
        ensures after { IfOk result (λ sent. self.new ≡ (spec.reclaimed_in M.mic_of at self.old).1) }
        ensures err { OnErr result (self.new ≡ self.old) }
    {
        if !may_go(&self.mount, at) {
            return Ok(None);
        }
        self.mount.reclaim(alloc, at, mech)
    }

    /// What ends the session, the client or the root's context. None as of [`Site::send`].
    pub fn end<M: Mechanism>(
        &mut self,
        alloc: Global,
        at: SendAt,
        ending: Ending,
        mech: &M,
    ) -> Mem<Option<Sent>>
        requires { at.place < PLACES }
        ensures sent { IfOk result (λ sent. sent ≡ (spec.ended_at M.mic_of at ending self.old).0) }
        ensures after { IfOk result (λ sent. self.new ≡ (spec.ended_at M.mic_of at ending self.old).1) }
        ensures err { OnErr result (self.new ≡ self.old) }
    {
        if !may_go(&self.mount, at) {
            return Ok(None);
        }
        self.mount.end(alloc, at, ending, mech)
    }

    /// The back channel for the context with this number, where the root context is there.
    pub fn back_channel(&self, number: Option<u32>) -> Option<BackChannel>
        ensures { result ≡ spec.back_channel number self.now }
    {
        let number = number?;
        let (from_server, _) = self.mount.root()?;
        let from_client = handle_of(0, number);
        Some(BackChannel {
            from_server,
            from_client,
        })
    }
}
