//! Calls under a context of a mount.

ghost use Rattle.std.specs.Prelude.{◌≡◌, ◌<◌, ◌≤◌, ◌-◌, ◌^◌, length, slice_index, None, Some, IfOk, IfSome, OnErr};
ghost use Rattle.nfs_base.specs.declared.limits.TheConstants.{NAME_LIMIT, PRIVILEGE_LIMIT};
ghost use Rattle.rpc_msg.specs.declared.records.TheConstants.{RECORD_LIMIT};
ghost use Rattle.session_calls.specs.Calls.{SlotCallFits, SoleCallFits};
ghost use Rattle.session_calls.specs.declared.slot_call.SlotCall.TheVariants.{ReclaimComplete};
ghost use Rattle.session_client.specs.Asked.{AskedFits};
ghost use Rattle.session_client.specs.Slots.{after_new};
ghost use Rattle.mount.specs.Sending.{FitsRecord, call_awaits, sent_by, slotted, slot_asked_in, session_in, numbered, numbered_in, name_under, child_asked, ending_call, ending_sole, ended_in, out_anew, contexts_anew, pending_anew, sent_again};
ghost use Rattle.mount.specs.State.{awaited_at, root_name, IsChild, HasNumbers};
ghost use Rattle.mount.specs.declared.state.Aim.TheVariants as aims;
ghost use Rattle.mount.specs.declared.state.TheConstants.{PLACES};

use crate::contexts::{root_name, seal_by};
use crate::machine::{Mount, SendAt, Sent};
use crate::state::{Aim, Awaiting, Context, PLACES, Pending, Standing};
use gss_mech::Mechanism;
use outcome::Mem;
use session_calls::{SlotCall, SlotUse, SoleCall};
use session_client::{Asked, PendingCall, SealedCall, Setup};
use std::alloc::Global;
use std::sync::Arc;

/// Under which context a call goes out.
#[derive(Clone, Copy)]
pub enum Under {
    /// The root's.
    Root,

    /// That of the child which is for this.
    Child(u32),
}

/// What is to end.
#[derive(Clone, Copy)]
pub enum Ending {
    /// The session: DESTROY_SESSION (RFC 8881 section 18.37).
    Session,

    /// The client: DESTROY_CLIENTID (RFC 8881 section 18.50).
    Client,

    /// The root's context: DESTROY (RFC 2203 section 5.4).
    Context,
}

impl Mount {
    /// A call goes out under the context of a name, and awaits its answer. None: nothing is asked, there is no such
    /// context, or its numbers have run out; then, and without memory, nothing changes.
    pub(crate) fn send_by<M: Mechanism>(
        &mut self,
        alloc: Global,
        at: SendAt,
        context: Option<u32>,
        aim: Aim,
        asked: Option<Asked>,
        mech: &M,
    ) -> Mem<Option<Sent>>
        requires place { at.place < PLACES }
        requires fits { IfSome asked (λ a. AskedFits a) }
        ensures fits { IfOk result FitsRecord }
        ensures sent { IfOk result (λ told. told ≡ (sent_by M.mic_of at context aim asked self.old).0) }
        ensures after { IfOk result (λ told. self.new ≡ (sent_by M.mic_of at context aim asked self.old).1) }
        ensures standing { self.new.standing ≡ self.old.standing }
        ensures err { OnErr result (self.new ≡ self.old) }
    {
        let Some(context) = context else {
            return Ok(None);
        };
        let Some(asked) = asked else {
            return Ok(None);
        };
        let asked = asked.share(alloc)?;
        let call = seal_by(alloc, &mut self.contexts, context, at.xid, &asked, mech)?;
        Ok(self.await_call(at, context, aim, asked, call))
    }

    /// A call that was sealed awaits its answer.
    fn await_call(
        &mut self,
        at: SendAt,
        context: u32,
        aim: Aim,
        asked: Arc<Asked>,
        call: Option<SealedCall>,
    ) -> Option<Sent>
        requires place { at.place < PLACES }
        requires asked { AskedFits asked.value }
        requires call { IfSome call (λ c. length c.bytes ≤ RECORD_LIMIT) }
        ensures fits { FitsRecord result }
        ensures sent { result ≡ (call_awaits at context aim asked.value call self.old).0 }
        ensures after { self.new ≡ (call_awaits at context aim asked.value call self.old).1 }
        ensures standing { self.new.standing ≡ self.old.standing }
    {
        let Some(call) = call else {
            return None;
        };
        let seal = call.seal;
        let (call, bytes) = PendingCall::new(asked, call);
        self.calls = at.xid;
        self.places[at.place as usize] = Some(Awaiting {
            sent_at: at.now,
            pending: Pending::Under { context, aim, call },
        });
        Some(Sent {
            bytes,
            seal: Some(seal),
        })
    }

    /// A call in the slot of its place, with the slot's next number. None: there is no session or no such context, or the
    /// context's numbers have run out; then, and without memory, nothing changes, and the slot's number is still the next.
    pub fn send<M: Mechanism>(
        &mut self,
        alloc: Global,
        at: SendAt,
        under: Under,
        call: SlotCall,
        mech: &M,
    ) -> Mem<Option<Sent>>
        requires place { at.place < PLACES }
        requires child { IsChild under }
        requires xid { self.old.calls < at.xid }
        requires free { awaited_at self.old at.place ≡ None }
        requires left { HasNumbers self.old.standing at.place }
        requires call { SlotCallFits call }
        ensures fits { IfOk result FitsRecord }
        ensures sent { IfOk result (λ told. told ≡ (slotted M.mic_of at (name_under under self.old) aims.Slot call self.old).0) }
        ensures after { IfOk result (λ told. self.new ≡ (slotted M.mic_of at (name_under under self.old) aims.Slot call self.old).1) }
        ensures err { OnErr result (self.new ≡ self.old) }
    {
        let context = self.name_under(under);
        self.send_in_slot(alloc, at, context, Aim::Slot, call, mech)
    }

    /// RECLAIM_COMPLETE in the slot of its place, the last step of a setup. None as of [`Mount::send`].
    pub fn reclaim<M: Mechanism>(
        &mut self,
        alloc: Global,
        at: SendAt,
        mech: &M,
    ) -> Mem<Option<Sent>>
        requires place { at.place < PLACES }
        requires xid { self.old.calls < at.xid }
        requires free { awaited_at self.old at.place ≡ None }
        requires left { HasNumbers self.old.standing at.place }
        ensures fits { IfOk result FitsRecord }
        ensures sent { IfOk result (λ told. told ≡ (slotted M.mic_of at (root_name self.old.standing) aims.Setup ReclaimComplete self.old).0) }
        ensures after { IfOk result (λ told. self.new ≡ (slotted M.mic_of at (root_name self.old.standing) aims.Setup ReclaimComplete self.old).1) }
        ensures err { OnErr result (self.new ≡ self.old) }
    {
        let context = root_name(&self.standing);
        self.send_in_slot(
            alloc,
            at,
            context,
            Aim::Setup,
            SlotCall::ReclaimComplete,
            mech,
        )
    }

    fn send_in_slot<M: Mechanism>(
        &mut self,
        alloc: Global,
        at: SendAt,
        context: Option<u32>,
        aim: Aim,
        call: SlotCall,
        mech: &M,
    ) -> Mem<Option<Sent>>
        requires place { at.place < PLACES }
        requires left { HasNumbers self.old.standing at.place }
        requires call { SlotCallFits call }
        ensures fits { IfOk result FitsRecord }
        ensures sent { IfOk result (λ told. told ≡ (slotted M.mic_of at context aim call self.old).0) }
        ensures after { IfOk result (λ told. self.new ≡ (slotted M.mic_of at context aim call self.old).1) }
        ensures err { OnErr result (self.new ≡ self.old) }
    {
        let asked = slot_asked(alloc, &self.standing, at.place, call)?;
        let sent = self.send_by(alloc, at, context, aim, asked, mech)?;
        Ok(self.number(at.place, sent))
    }

    /// Once a new call went out in a slot, its number isn't given again.
    fn number(&mut self, slot: u32, sent: Option<Sent>) -> Option<Sent>
        requires slot { slot < PLACES }
        requires left { HasNumbers self.old.standing slot }
        ensures sent { result ≡ (numbered slot sent self.old).0 }
        ensures same { result ≡ sent }
        ensures after { self.new ≡ (numbered slot sent self.old).1 }
    {
        let Some(sent) = sent else {
            return None;
        };
        note_new(&mut self.standing, slot);
        Some(sent)
    }

    /// CREATE of the child that is for `child`, which carries a privilege. None as of [`Mount::send`].
    pub fn create<M: Mechanism>(
        &mut self,
        alloc: Global,
        at: SendAt,
        child: u32,
        name: &[u8],
        privilege: &[u8],
        mech: &M,
    ) -> Mem<Option<Sent>>
        requires place { at.place < PLACES }
        requires child { child < PLACES }
        requires xid { self.old.calls < at.xid }
        requires free { awaited_at self.old at.place ≡ None }
        requires name { length name.now ≤ NAME_LIMIT }
        requires privilege { length privilege.now ≤ PRIVILEGE_LIMIT }
        ensures fits { IfOk result FitsRecord }
        ensures sent { IfOk result (λ told. told ≡ (child_asked M.mic_of at child name.now privilege.now self.old).0) }
        ensures after { IfOk result (λ told. self.new ≡ (child_asked M.mic_of at child name.now privilege.now self.old).1) }
        ensures err { OnErr result (self.new ≡ self.old) }
    {
        let asked = Asked::create(alloc, name, privilege)?;
        let context = root_name(&self.standing);
        self.send_by(alloc, at, context, Aim::Child(child), Some(asked), mech)
    }

    /// What ends the session, the client or the root's context. None as of [`Mount::send`].
    pub fn end<M: Mechanism>(
        &mut self,
        alloc: Global,
        at: SendAt,
        ending: Ending,
        mech: &M,
    ) -> Mem<Option<Sent>>
        requires place { at.place < PLACES }
        requires xid { self.old.calls < at.xid }
        requires free { awaited_at self.old at.place ≡ None }
        ensures fits { IfOk result FitsRecord }
        ensures sent { IfOk result (λ told. told ≡ (ended_in M.mic_of at ending self.old.standing self.old).0) }
        ensures after { IfOk result (λ told. self.new ≡ (ended_in M.mic_of at ending self.old.standing self.old).1) }
        ensures err { OnErr result (self.new ≡ self.old) }
    {
        let Standing::Rooted(root) = &self.standing else {
            return Ok(None);
        };
        let name = root.name;
        let asked = ending_asked(alloc, ending, &root.setup)?;
        self.send_by(alloc, at, Some(name), Aim::End, asked, mech)
    }

    /// What is awaited at a place goes out again: the same, with the number that it has in its slot, by another xid and
    /// sealed anew. What was sent before is no longer awaited. None: nothing is awaited there, or the context's numbers
    /// have run out; then, and without memory, nothing changes.
    pub fn send_again<M: Mechanism>(
        &mut self,
        alloc: Global,
        at: SendAt,
        mech: &M,
    ) -> Mem<Option<Sent>>
        requires place { at.place < PLACES }
        requires xid { self.old.calls < at.xid }
        ensures fits { IfOk result FitsRecord }
        ensures sent { IfOk result (λ told. told ≡ (sent_again M.mic_of at self.old).0) }
        ensures after { IfOk result (λ told. self.new ≡ (sent_again M.mic_of at self.old).1) }
        ensures err { OnErr result (self.new ≡ self.old) }
    {
        let Some(awaiting) = &mut self.places[at.place as usize] else {
            return Ok(None);
        };
        let Some(sent) = send_anew(
            alloc,
            &mut self.contexts,
            &mut awaiting.pending,
            at.xid,
            mech,
        )?
        else {
            return Ok(None);
        };
        awaiting.sent_at = at.now;
        self.calls = at.xid;
        Ok(Some(sent))
    }

    fn name_under(&self, under: Under) -> Option<u32>
        requires { IsChild under }
        ensures { result ≡ name_under under self.now }
    {
        match under {
            Under::Root => root_name(&self.standing),
            Under::Child(child) => self.children[child as usize],
        }
    }
}

/// A call in a slot as a compound, with the slot's next number. None where there is no session.
fn slot_asked(alloc: Global, standing: &Standing, slot: u32, call: SlotCall) -> Mem<Option<Asked>>
    requires slot { slot < PLACES }
    requires call { SlotCallFits call }
    ensures asked { IfOk result (λ asked. asked ≡ slot_asked_in slot call standing.now) }
    ensures fits { IfOk result (λ asked. IfSome asked (λ a. AskedFits a)) }
{
    let Standing::Rooted(root) = standing else {
        return Ok(None);
    };
    let Some(session) = session_in(&root.setup) else {
        return Ok(None);
    };
    let place = SlotUse {
        session,
        slot,
        number: root.numbers.next(slot),
    };
    Ok(Some(Asked::Compound(call.compound(alloc, place)?)))
}

fn session_in(setup: &Setup) -> Option<[u8; 16]>
    ensures { result ≡ session_in setup.now }
{
    match *setup {
        Setup::Joined { session, .. } | Setup::Up { session, .. } => Some(session),
        Setup::Down | Setup::Rooted { .. } | Setup::Registered { .. } => None,
    }
}

/// A new call went out in a slot.
fn note_new(standing: &mut Standing, slot: u32)
    requires slot { slot < PLACES }
    requires left { HasNumbers standing.old slot }
    ensures { standing.new ≡ numbered_in slot standing.old }
{
    match standing {
        Standing::Down { .. } => {}
        Standing::Rooted(root) => root.numbers.note_new(slot),
    }
}

/// What asks for an end, where there is what is to end.
fn ending_asked(alloc: Global, ending: Ending, setup: &Setup) -> Mem<Option<Asked>>
    ensures asked { IfOk result (λ asked. asked ≡ ending_call ending setup.now) }
    ensures fits { IfOk result (λ asked. IfSome asked (λ a. AskedFits a)) }
{
    let Some(call) = ending_sole(ending, setup) else {
        return Ok(match ending {
            Ending::Context => Some(Asked::Destroy),
            Ending::Session | Ending::Client => None,
        });
    };
    Ok(Some(Asked::Compound(call.compound(alloc)?)))
}

fn ending_sole(ending: Ending, setup: &Setup) -> Option<SoleCall>
    ensures is { result ≡ ending_sole ending setup.now }
    ensures fits { IfSome result (λ call. SoleCallFits call) }
{
    match *setup {
        Setup::Joined { client, session } | Setup::Up { client, session } => match ending {
            Ending::Session => Some(SoleCall::DestroySession { session }),
            Ending::Client => Some(SoleCall::DestroyClientId { client }),
            Ending::Context => None,
        },
        Setup::Down | Setup::Rooted { .. } | Setup::Registered { .. } => None,
    }
}

/// What awaits its answer goes out again, by another xid.
fn send_anew<M: Mechanism>(
    alloc: Global,
    contexts: &mut Vec<Context>,
    pending: &mut Pending,
    xid: u32,
    mech: &M,
) -> Mem<Option<Sent>>
    ensures fits { IfOk result FitsRecord }
    ensures sent { IfOk result (λ told. told ≡ out_anew M.mic_of xid contexts.old.items pending.old) }
    ensures contexts { IfOk result (λ told. contexts.new.items ≡ contexts_anew M.mic_of xid contexts.old.items pending.old) }
    ensures pending { IfOk result (λ told. pending.new ≡ pending_anew M.mic_of xid contexts.old.items pending.old) }
    ensures none { IfOk result (λ told. told ≡ None → (contexts.new.items ≡ contexts.old.items) × (pending.new ≡ pending.old)) }
    ensures err { OnErr result ((contexts.new.items ≡ contexts.old.items) × (pending.new ≡ pending.old)) }
{
    match pending {
        Pending::Init(init) => {
            let bytes = init.call_as(alloc, xid)?;
            init.renumber(xid);
            Ok(Some(Sent { bytes, seal: None }))
        }
        Pending::Under { context, call, .. } => {
            let Some(sealed) = seal_by(alloc, contexts, *context, xid, call.asked(), mech)? else {
                return Ok(None);
            };
            let seal = sealed.seal;
            let bytes = call.sent_again(sealed);
            Ok(Some(Sent {
                bytes,
                seal: Some(seal),
            }))
        }
    }
}
