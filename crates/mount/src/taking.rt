//! What a record does that is taken at a place.

ghost use Rattle.std.specs.Prelude.{◌≡◌, ◌<◌, Some, slice_set, IfOk, OnErr};
ghost use Rattle.gss_ctx.specs.Calls.{seal_of};
ghost use Rattle.mount.specs.Falling.{fallen};
ghost use Rattle.mount.specs.Taking.{child_for, after_call, after_create, init_heard, after_reply, after_setup, after_step, stepped_to, fallen_if, is_lost, new_side, parent_of, taken_at, with_context, with_root};
ghost use Rattle.mount.specs.State.{emptied, pending_at};
ghost use Rattle.mount.specs.declared.state.TheConstants.{PLACES};

use crate::contexts::{context_of, is_name, root_name};
use crate::machine::Mount;
use crate::places::at;
use crate::state::{Aim, Context, PLACES, Pending, Root, Standing};
use gss_ctx::{Begun, CHILD_KEY, Caller};
use gss_mech::Mechanism;
use nfs_base::{Seal, Status};
use nfs_compound::Reply;
use outcome::Mem;
use rpc_msg::{Denial, Stat};
use session_client::{Setup, SlotNumbers, Taken, TakenChild};
use std::alloc::Global;

/// What a record was to the call whose answer was awaited at a place.
#[derive(Drop)]
pub enum Told {
    /// No answer is awaited there, or the record isn't the reply. Nothing changes.
    Unmatched,

    /// INIT made the root context.
    Rooted,

    /// CREATE made the child that is for this.
    Child(u32),

    /// INIT or CREATE was refused, with this major status. A refused INIT makes the mount begin again.
    Refused(u32),

    /// The setup is a step further.
    Stepped,

    /// A call of the setup was answered with this status. BADSESSION and STALE_CLIENTID make the mount begin again;
    /// otherwise the same step is next.
    Stopped(Status),

    /// The answer to a call in a slot, or to what ends a session or a client. In a slot BADSESSION and STALE_CLIENTID
    /// make the mount begin again, where the call was of the mount that is there.
    Answer(Reply),

    /// A result that doesn't spell an answer to the call. It counts as a failed call.
    Misspelt,

    /// The call failed. An INIT is kept, and goes out anew with its token.
    Failed(Stat),

    /// The call was denied. The mount begins again, where the call was of the mount that is there, and no CREATE.
    Denied(Denial),
}

/// What a record was, and the seal under which it was accepted, where it was accepted under one.
#[derive(Drop)]
pub struct Heard {
    pub told: Told,
    pub accepted: Option<Seal>,
}

fn hear(told: Told, accepted: Option<Seal>) -> Heard
    ensures { result ≡ record { told = told; accepted = accepted } }
{
    Heard { told, accepted }
}

impl Mount {
    /// Takes a record at a place, at a principal's end. The answer that is awaited there is taken once. Without memory
    /// nothing changes.
    pub fn take<M: Mechanism>(
        &mut self,
        alloc: Global,
        place: u32,
        principal: &[u8],
        record_: &[u8],
        mech: &M,
    ) -> Mem<Heard>
        requires { place < PLACES }
        ensures taken { IfOk result (λ told. told ≡ (taken_at (record { mic = M.mic_of; derived = M.derived; finished = M.finished mech.now principal.now }) place record_.now self.old).0) }
        ensures after { IfOk result (λ told. self.new ≡ (taken_at (record { mic = M.mic_of; derived = M.derived; finished = M.finished mech.now principal.now }) place record_.now self.old).1) }
        ensures err { OnErr result (self.new ≡ self.old) }
    {
        let Some(awaiting) = at(&self.places, place) else {
            return Ok(hear(Told::Unmatched, None));
        };
        match &awaiting.pending {
            Pending::Init(init) => {
                let begun = init.take(alloc, principal, record_, mech)?;
                self.after_init(place, begun)
            }
            Pending::Under { context, aim, call } => {
                let Some(c) = context_of(self.contexts.as_slice(), *context) else {
                    return Ok(hear(Told::Unmatched, None));
                };
                match child_for(*aim) {
                    Some(child) => {
                        let taken = call.take_child(alloc, &c.caller, record_, mech)?;
                        let parent = parent_of(c);
                        let seal = call.seal();
                        let xid = call.xid();
                        self.after_create(place, child, parent, seal, xid, taken, mech)
                    }
                    None => {
                        let taken = call.take(alloc, &c.caller, record_, mech)?;
                        let present = is_name(root_name(&self.standing), c.mount);
                        let seal = call.seal();
                        let aim = *aim;
                        Ok(self.after_call(place, aim, present, seal, taken))
                    }
                }
            }
        }
    }

    fn after_init(&mut self, place: u32, begun: Begun) -> Mem<Heard>
        requires { place < PLACES }
        ensures told { IfOk result (λ told. told ≡ (init_heard place (pending_at self.old place) begun self.old).0) }
        ensures after { IfOk result (λ told. self.new ≡ (init_heard place (pending_at self.old place) begun self.old).1) }
        ensures err { OnErr result (self.new ≡ self.old) }
    {
        let Some(awaiting) = at(&self.places, place) else {
            return Ok(hear(Told::Unmatched, None));
        };
        let Pending::Init(init) = &awaiting.pending else {
            return Ok(hear(Told::Unmatched, None));
        };
        let name = init.xid();
        let setup = init.setup();
        match begun {
            Begun::Made { handle, key } => {
                let seal = self.make_root(place, name, setup, handle, key)?;
                Ok(hear(Told::Rooted, Some(seal)))
            }
            Begun::Refused { major } => {
                self.fall_at(place);
                Ok(hear(Told::Refused(major), None))
            }
            Begun::Failed(stat) => {
                self.give_up(place);
                Ok(hear(Told::Failed(stat), None))
            }
            Begun::Denied(why) => {
                self.fall_at(place);
                Ok(hear(Told::Denied(why), None))
            }
            Begun::Unmatched => Ok(hear(Told::Unmatched, None)),
        }
    }

    /// The root context is there.
    fn make_root(
        &mut self,
        place: u32,
        name: u32,
        setup: Setup,
        handle: [u8; 8],
        key: [u8; 32],
    ) -> Mem<Seal>
        requires { place < PLACES }
        ensures seal { IfOk result (λ seal. seal ≡ seal_of (new_side self.old handle key) 0) }
        ensures made { IfOk result (λ _. self.new ≡ with_root name setup handle key (emptied place self.old)) }
        ensures err { OnErr result (self.new ≡ self.old) }
    {
        let caller = Caller::new(self.server, handle, key);
        let seal = caller.seal(0);
        self.contexts.push(Context {
            name,
            mount: name,
            root: handle,
            key,
            caller,
        })?;
        self.standing = Standing::Rooted(Root {
            name,
            setup,
            numbers: SlotNumbers::new(),
        });
        self.children = [None; PLACES as usize];
        self.places[place as usize] = None;
        self.tidy();
        Ok(seal)
    }

    fn after_create<M: Mechanism>(
        &mut self,
        place: u32,
        child: u32,
        parent: Parent,
        seal: Seal,
        xid: u32,
        taken: TakenChild,
        mech: &M,
    ) -> Mem<Heard>
        requires { place < PLACES }
        ensures told { IfOk result (λ told. told ≡ (after_create M.derived place child parent seal xid taken self.old).0) }
        ensures after { IfOk result (λ told. self.new ≡ (after_create M.derived place child parent seal xid taken self.old).1) }
        ensures err { OnErr result (self.new ≡ self.old) }
    {
        match taken {
            TakenChild::Made(handle) => {
                let key = mech.derive(&parent.key, CHILD_KEY, &handle);
                self.make_child(place, child, parent, xid, handle, key)?;
                Ok(hear(Told::Child(child), Some(seal)))
            }
            TakenChild::Refused(major) => {
                self.empty(place);
                Ok(hear(Told::Refused(major), Some(seal)))
            }
            TakenChild::Misspelt => {
                self.empty(place);
                Ok(hear(Told::Misspelt, Some(seal)))
            }
            TakenChild::Failed(stat) => {
                self.empty(place);
                Ok(hear(Told::Failed(stat), None))
            }
            TakenChild::Denied(why) => {
                self.empty(place);
                Ok(hear(Told::Denied(why), None))
            }
            TakenChild::Unmatched => Ok(hear(Told::Unmatched, None)),
        }
    }

    /// A child's context is there.
    fn make_child(
        &mut self,
        place: u32,
        child: u32,
        parent: Parent,
        xid: u32,
        handle: [u8; 8],
        key: [u8; 32],
    ) -> Mem<()>
        requires { place < PLACES }
        ensures made { IfOk result (λ _. self.new ≡ with_context child xid parent handle key (emptied place self.old)) }
        ensures err { OnErr result (self.new ≡ self.old) }
    {
        let root = parent.root;
        let caller = Caller::new(self.server, handle, key);
        self.contexts.push(Context {
            name: xid,
            mount: parent.mount,
            root,
            key,
            caller,
        })?;
        set_child(&mut self.children, child, xid);
        self.places[place as usize] = None;
        self.tidy();
        Ok(())
    }

    fn after_call(&mut self, place: u32, aim: Aim, present: bool, seal: Seal, taken: Taken) -> Heard
        requires { place < PLACES }
        ensures told { result ≡ (after_call place aim present seal taken self.old).0 }
        ensures after { self.new ≡ (after_call place aim present seal taken self.old).1 }
    {
        match taken {
            Taken::Answer(reply) => {
                self.empty(place);
                self.after_reply(aim, present, reply, seal)
            }
            Taken::Misspelt => {
                self.empty(place);
                hear(Told::Misspelt, Some(seal))
            }
            Taken::Failed(stat) => {
                self.empty(place);
                hear(Told::Failed(stat), None)
            }
            Taken::Denied(why) => {
                self.empty(place);
                self.fall_if(present);
                hear(Told::Denied(why), None)
            }
            Taken::Unmatched => hear(Told::Unmatched, None),
        }
    }

    fn after_reply(&mut self, aim: Aim, present: bool, reply: Reply, seal: Seal) -> Heard
        ensures told { result ≡ (after_reply aim present reply (Some seal) self.old).0 }
        ensures after { self.new ≡ (after_reply aim present reply (Some seal) self.old).1 }
    {
        match aim {
            Aim::Setup => self.after_setup(reply, seal),
            Aim::Child(_) | Aim::End => hear(Told::Answer(reply), Some(seal)),
            Aim::Slot => {
                self.fall_if(present && is_lost(reply.status));
                hear(Told::Answer(reply), Some(seal))
            }
        }
    }

    fn after_setup(&mut self, reply: Reply, seal: Seal) -> Heard
        ensures told { result ≡ (after_setup self.old.standing reply (Some seal) self.old).0 }
        ensures after { self.new ≡ (after_setup self.old.standing reply (Some seal) self.old).1 }
    {
        let Standing::Rooted(root) = &self.standing else {
            return hear(Told::Answer(reply), Some(seal));
        };
        let next = root.setup.after_answer(&reply, self.reclaims);
        self.after_step(next, seal)
    }

    fn after_step(&mut self, next: Result<Setup, Status>, seal: Seal) -> Heard
        ensures told { result ≡ (after_step next (Some seal) self.old).0 }
        ensures after { self.new ≡ (after_step next (Some seal) self.old).1 }
    {
        match next {
            Ok(setup) => {
                step_to(&mut self.standing, setup);
                hear(Told::Stepped, Some(seal))
            }
            Err(status) => {
                self.fall_if(is_lost(status));
                hear(Told::Stopped(status), Some(seal))
            }
        }
    }

    fn fall_if(&mut self, lost: bool)
        ensures { self.new ≡ fallen_if lost self.old }
    {
        if lost {
            self.fall();
        }
    }

    fn fall_at(&mut self, place: u32)
        requires { place < PLACES }
        ensures { self.new ≡ fallen (emptied place self.old) }
    {
        self.empty(place);
        self.fall();
    }
}

/// Whether a status says that the session is gone, or the client.
fn is_lost(status: Status) -> bool
    ensures { result ≡ is_lost status }
{
    status.number == Status::BADSESSION.number || status.number == Status::STALE_CLIENTID.number
}

/// The setup is at this step.
fn step_to(standing: &mut Standing, setup: Setup)
    ensures { standing.new ≡ stepped_to setup standing.old }
{
    match standing {
        Standing::Down { .. } => {}
        Standing::Rooted(root) => root.setup = setup,
    }
}

/// What a child has of its root.
#[derive(Clone, Copy)]
pub(crate) struct Parent {
    pub(crate) mount: u32,
    pub(crate) root: [u8; 8],
    pub(crate) key: [u8; 32],
}

/// What a child that is being made is for.
fn child_for(aim: Aim) -> Option<u32>
    ensures { result ≡ child_for aim }
{
    match aim {
        Aim::Child(child) => Some(child),
        Aim::Setup | Aim::Slot | Aim::End => None,
    }
}

fn parent_of(c: &Context) -> Parent
    ensures { result ≡ parent_of c.now }
{
    let root = c.root;
    let key = c.key;
    Parent {
        mount: c.mount,
        root,
        key,
    }
}

fn set_child(children: &mut [Option<u32>], child: u32, name: u32)
    ensures { children.new ≡ slice_set children.old child (Some name) }
{
    if (child as usize) < children.len() {
        children[child as usize] = Some(name);
    }
}
