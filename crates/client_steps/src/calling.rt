//! Calls that go out to a server.

ghost use Rattle.std.specs.Prelude.{◌≡◌, ◌<◌, ◌≤◌, length, true, false, None, IfOk, IfSome};
ghost use Rattle.copy_privs.specs.Forms.{PrivilegeFits, privilege_name, privilege_spell};
ghost use Rattle.nfs_base.specs.declared.limits.TheConstants.{NAME_LIMIT, PRIVILEGE_LIMIT};
ghost use Rattle.client_site.specs.Sending as sends;
ghost use Rattle.mount.specs.State.{awaited_at, setup_in, IsChild};
ghost use Rattle.mount.specs.State as mounts;
ghost use Rattle.mount.specs.declared.state.TheConstants.{PLACES};
ghost use Rattle.session_calls.specs.Calls.{SlotCallFits};
ghost use Rattle.session_client.specs.declared.setup.Setup.TheVariants as setups;
ghost use Rattle.client_steps.specs.Calling as spec;
ghost use Rattle.client_steps.specs.Desks.{send_at, site_at, with_site};

use crate::desk::Desk;
use client_copies::{Query, Step};
use copy_ops::{OP_COPY, OP_COPY_NOTIFY, OP_OFFLOAD_CANCEL, OP_OFFLOAD_STATUS};
use copy_privs::{Privilege, write_privilege};
use file_ops::{
    OP_CLOSE, OP_COMMIT, OP_CREATE_SESSION, OP_EXCHANGE_ID, OP_GETATTR, OP_GETFH, OP_READ,
    OP_RECLAIM_COMPLETE, OP_WRITE,
};
use gss_mech::Mechanism;
use mount::{PLACES, SendAt, Sent, Under};
use nfs_base::{PRIVILEGE_LIMIT, Side};
use outbox::CallLabel;
use outcome::Mem;
use session_calls::{BackChannel, FileCall, SlotCall};
use session_client::Setup;
use std::alloc::Global;

impl Desk {
    /// A call in a slot. Whether it went out.
    pub fn send_slot<M: Mechanism>(
        &mut self,
        alloc: Global,
        side: Side,
        place: u32,
        under: Under,
        call: SlotCall,
        mech: &M,
    ) -> Mem<bool>
        requires place { place < PLACES }
        requires child { IsChild under }
        requires call { SlotCallFits call }
        ensures told { IfOk result (λ told. told ≡ (spec.slot_sent M.mic_of side place under call self.old).0) }
        ensures after { IfOk result (λ told. self.new ≡ (spec.slot_sent M.mic_of side place under call self.old).1) }
    {
        let label = CallLabel::Operation(slot_op(&call));
        let at = self.send_at(place);
        let sent = self.site_send(alloc, side, at, under, call, mech)?;
        self.send_out(side, label, sent)
    }

    /// The same, where there is something to ask.
    pub fn send_call<M: Mechanism>(
        &mut self,
        alloc: Global,
        side: Side,
        place: u32,
        under: Under,
        call: Option<SlotCall>,
        mech: &M,
    ) -> Mem<bool>
        requires place { place < PLACES }
        requires child { IsChild under }
        requires call { IfSome call (λ c. SlotCallFits c) }
        ensures told { IfOk result (λ told. told ≡ (spec.call_sent M.mic_of side place under call self.old).0) }
        ensures after { IfOk result (λ told. self.new ≡ (spec.call_sent M.mic_of side place under call self.old).1) }
    {
        match call {
            None => Ok(false),
            Some(call) => self.send_slot(alloc, side, place, under, call, mech),
        }
    }

    fn site_send<M: Mechanism>(
        &mut self,
        alloc: Global,
        side: Side,
        at: SendAt,
        under: Under,
        call: SlotCall,
        mech: &M,
    ) -> Mem<Option<Sent>>
        requires place { at.place < PLACES }
        requires child { IsChild under }
        requires call { SlotCallFits call }
        ensures sent { IfOk result (λ sent. sent ≡ (sends.sent_in M.mic_of at under call (site_at side self.old)).0) }
        ensures after { IfOk result (λ sent. self.new ≡ with_site side (sends.sent_in M.mic_of at under call (site_at side self.old)).1 self.old) }
    {
        match side {
            Side::Source => self.source.send(alloc, at, under, call, mech),
            Side::Dest => self.dest.send(alloc, at, under, call, mech),
        }
    }

    /// CREATE of the child for a copy, with its privilege. Whether it went out.
    pub fn send_create<M: Mechanism>(
        &mut self,
        alloc: Global,
        side: Side,
        j: u32,
        privilege: &Privilege,
        mech: &M,
    ) -> Mem<bool>
        requires place { j < PLACES }
        requires fits { PrivilegeFits privilege.now }
        ensures told { IfOk result (λ told. told ≡ (spec.create_sent M.mic_of side j privilege.now self.old).0) }
        ensures after { IfOk result (λ told. self.new ≡ (spec.create_sent M.mic_of side j privilege.now self.old).1) }
    {
        let bytes = write_privilege(alloc, privilege)?;
        if bytes.len() > PRIVILEGE_LIMIT as usize {
            return Ok(false);
        }
        let at = self.send_at(j);
        let sent = self.site_create(alloc, side, at, privilege.name(), bytes.as_slice(), mech)?;
        self.send_out(side, CallLabel::Create, sent)
    }

    fn site_create<M: Mechanism>(
        &mut self,
        alloc: Global,
        side: Side,
        at: SendAt,
        name: &[u8],
        privilege: &[u8],
        mech: &M,
    ) -> Mem<Option<Sent>>
        requires place { at.place < PLACES }
        requires name { length name.now ≤ NAME_LIMIT }
        requires privilege { length privilege.now ≤ PRIVILEGE_LIMIT }
        ensures sent { IfOk result (λ sent. sent ≡ (sends.created_in M.mic_of at at.place name.now privilege.now (site_at side self.old)).0) }
        ensures after { IfOk result (λ sent. self.new ≡ with_site side (sends.created_in M.mic_of at at.place name.now privilege.now (site_at side self.old)).1 self.old) }
    {
        match side {
            Side::Source => self
                .source
                .create(alloc, at, at.place, name, privilege, mech),
            Side::Dest => self.dest.create(alloc, at, at.place, name, privilege, mech),
        }
    }

    /// What is awaited at a place of a server goes out again, under its label.
    pub fn send_again<M: Mechanism>(
        &mut self,
        alloc: Global,
        side: Side,
        place: u32,
        label: CallLabel,
        mech: &M,
    ) -> Mem<()>
        requires { place < PLACES }
        ensures { IfOk result (λ _. self.new ≡ spec.again_sent M.mic_of side place label self.old) }
    {
        let at = self.send_at(place);
        let sent = self.site_again(alloc, side, at, mech)?;
        self.send_out(side, label, sent)?;
        Ok(())
    }

    fn site_again<M: Mechanism>(
        &mut self,
        alloc: Global,
        side: Side,
        at: SendAt,
        mech: &M,
    ) -> Mem<Option<Sent>>
        requires { at.place < PLACES }
        ensures sent { IfOk result (λ sent. sent ≡ (sends.again_in M.mic_of at (site_at side self.old)).0) }
        ensures after { IfOk result (λ sent. self.new ≡ with_site side (sends.again_in M.mic_of at (site_at side self.old)).1 self.old) }
    {
        match side {
            Side::Source => self.source.send_again(alloc, at, mech),
            Side::Dest => self.dest.send_again(alloc, at, mech),
        }
    }

    /// EXCHANGE_ID or CREATE_SESSION, whichever is next. Whether it went out.
    pub fn send_step<M: Mechanism>(
        &mut self,
        alloc: Global,
        me: &[u8],
        side: Side,
        back: Option<BackChannel>,
        label: CallLabel,
        mech: &M,
    ) -> Mem<bool>
        requires { length me.now ≤ NAME_LIMIT }
        ensures told { IfOk result (λ told. told ≡ (spec.step_sent M.mic_of me.now side back label self.old).0) }
        ensures after { IfOk result (λ told. self.new ≡ (spec.step_sent M.mic_of me.now side back label self.old).1) }
    {
        let at = self.send_at(0);
        let sent = self.site_step(alloc, me, side, at, back, mech)?;
        self.send_out(side, label, sent)
    }

    fn site_step<M: Mechanism>(
        &mut self,
        alloc: Global,
        me: &[u8],
        side: Side,
        at: SendAt,
        back: Option<BackChannel>,
        mech: &M,
    ) -> Mem<Option<Sent>>
        requires place { at.place < PLACES }
        requires me { length me.now ≤ NAME_LIMIT }
        ensures sent { IfOk result (λ sent. sent ≡ (sends.stepped_at M.mic_of at me.now back (site_at side self.old)).0) }
        ensures after { IfOk result (λ sent. self.new ≡ with_site side (sends.stepped_at M.mic_of at me.now back (site_at side self.old)).1 self.old) }
    {
        match side {
            Side::Source => self.source.step(alloc, at, me, back, mech),
            Side::Dest => self.dest.step(alloc, at, me, back, mech),
        }
    }

    /// RECLAIM_COMPLETE. Whether it went out.
    pub fn send_reclaim<M: Mechanism>(&mut self, alloc: Global, side: Side, mech: &M) -> Mem<bool>
        ensures told { IfOk result (λ told. told ≡ (spec.reclaim_sent M.mic_of side self.old).0) }
        ensures after { IfOk result (λ told. self.new ≡ (spec.reclaim_sent M.mic_of side self.old).1) }
    {
        let at = self.send_at(0);
        let sent = self.site_reclaim(alloc, side, at, mech)?;
        self.send_out(side, CallLabel::Operation(OP_RECLAIM_COMPLETE), sent)
    }

    fn site_reclaim<M: Mechanism>(
        &mut self,
        alloc: Global,
        side: Side,
        at: SendAt,
        mech: &M,
    ) -> Mem<Option<Sent>>
        requires { at.place < PLACES }
        ensures sent { IfOk result (λ sent. sent ≡ (sends.reclaimed_in M.mic_of at (site_at side self.old)).0) }
        ensures after { IfOk result (λ sent. self.new ≡ with_site side (sends.reclaimed_in M.mic_of at (site_at side self.old)).1 self.old) }
    {
        match side {
            Side::Source => self.source.reclaim(alloc, at, mech),
            Side::Dest => self.dest.reclaim(alloc, at, mech),
        }
    }

    /// INIT with a drawn nonce. Whether it went out: it does exactly where the principal is of the realm.
    pub fn send_begin<M: Mechanism>(
        &mut self,
        alloc: Global,
        me: &[u8],
        nonce: &[u8; 32],
        side: Side,
        at: SendAt,
        mech: &M,
    ) -> Mem<bool>
        requires at { at ≡ send_at 0 self.old }
        requires xid { (site_at side self.old).mount.calls < at.xid }
        requires free { awaited_at (site_at side self.old).mount at.place ≡ None }
        requires down { setup_in (site_at side self.old).mount.standing ≡ setups.Down }
        requires alone { mounts.is_setting_up (site_at side self.old).mount ≡ false }
        ensures told { IfOk result (λ told. told ≡ (spec.begin_sent nonce.now (M.started mech.now me.now nonce.now) side self.old).0) }
        ensures after { IfOk result (λ told. self.new ≡ (spec.begin_sent nonce.now (M.started mech.now me.now nonce.now) side self.old).1) }
    {
        let sent = self.site_begin(alloc, me, nonce, side, at, mech)?;
        self.send_out(side, CallLabel::Init, sent)
    }

    fn site_begin<M: Mechanism>(
        &mut self,
        alloc: Global,
        me: &[u8],
        nonce: &[u8; 32],
        side: Side,
        at: SendAt,
        mech: &M,
    ) -> Mem<Option<Sent>>
        requires place { at.place < PLACES }
        requires xid { (site_at side self.old).mount.calls < at.xid }
        requires free { awaited_at (site_at side self.old).mount at.place ≡ None }
        requires down { setup_in (site_at side self.old).mount.standing ≡ setups.Down }
        requires alone { mounts.is_setting_up (site_at side self.old).mount ≡ false }
        ensures sent { IfOk result (λ sent. sent ≡ (sends.begun_in at nonce.now (M.started mech.now me.now nonce.now) (site_at side self.old)).0) }
        ensures after { IfOk result (λ sent. self.new ≡ with_site side (sends.begun_in at nonce.now (M.started mech.now me.now nonce.now) (site_at side self.old)).1 self.old) }
    {
        match side {
            Side::Source => self.source.begin(alloc, at, me, nonce, mech),
            Side::Dest => self.dest.begin(alloc, at, me, nonce, mech),
        }
    }
}

/// The number of a call's last operation.
pub fn slot_op(call: &SlotCall) -> u32
    ensures { result ≡ spec.slot_op call.now }
{
    match call {
        SlotCall::ReclaimComplete => OP_RECLAIM_COMPLETE,
        SlotCall::Open { .. } => OP_GETFH,
        SlotCall::OnFile { call, .. } => file_op(call),
        SlotCall::Notify { .. } => OP_COPY_NOTIFY,
        SlotCall::Copy { .. } => OP_COPY,
    }
}

fn file_op(call: &FileCall) -> u32
    ensures { result ≡ spec.file_op call.now }
{
    match call {
        FileCall::Close { .. } => OP_CLOSE,
        FileCall::Write { .. } => OP_WRITE,
        FileCall::Commit => OP_COMMIT,
        FileCall::Change | FileCall::ChangeAndSize => OP_GETATTR,
        FileCall::Read { .. } => OP_READ,
        FileCall::Status { .. } => OP_OFFLOAD_STATUS,
        FileCall::Cancel { .. } => OP_OFFLOAD_CANCEL,
    }
}

/// What the call of a copy's step is called.
pub fn step_label(step: Step) -> CallLabel
    ensures { result ≡ spec.step_label step }
{
    match step {
        Step::OpenSource | Step::OpenDest | Step::OpenAgain => CallLabel::Operation(OP_GETFH),
        Step::AllowSource | Step::AllowDest => CallLabel::Create,
        Step::Notify => CallLabel::Operation(OP_COPY_NOTIFY),
        Step::Copy => CallLabel::Operation(OP_COPY),
        Step::Last => CallLabel::Operation(OP_GETATTR),
    }
}

/// What OFFLOAD_STATUS and OFFLOAD_CANCEL are called.
pub fn query_label(query: Query) -> CallLabel
    ensures { result ≡ spec.query_label query }
{
    match query {
        Query::Status => CallLabel::Operation(OP_OFFLOAD_STATUS),
        Query::Cancel => CallLabel::Operation(OP_OFFLOAD_CANCEL),
    }
}

/// What the call of a setup is called that is next.
pub fn setup_label(setup: &Setup) -> CallLabel
    ensures { result ≡ spec.setup_label setup.now }
{
    match setup {
        Setup::Down => CallLabel::Init,
        Setup::Rooted { .. } => CallLabel::Operation(OP_EXCHANGE_ID),
        Setup::Registered { .. } => CallLabel::Operation(OP_CREATE_SESSION),
        Setup::Joined { .. } => CallLabel::Operation(OP_RECLAIM_COMPLETE),
        Setup::Up { .. } => CallLabel::Compound,
    }
}
