//! What is sent where a job ends (RFC 7862 section 16.1).

ghost use Rattle.dest_steps.specs.Sending.{AreShort, GoBack};
ghost use Rattle.std.specs.Prelude.{◌≡◌, ◌<◌, IfOk};
ghost use Rattle.dest_back.specs.Telling.{FitsRecord};
ghost use Rattle.dest_jobs.specs.Copying.{offload_id};
ghost use Rattle.dest_steps.specs.Telling.{callback, callbacks, commit_telling, landed_by, stop_telling, telling, telling_at, telling_nothing};
ghost use Rattle.dest_tasks.specs.declared.seats.TheConstants.{SEATS};
ghost use Rattle.file_server.specs.Handles.{file_handle};
ghost use Rattle.dest_steps.specs.Copier.{around_of};

use crate::around::Here;
use crate::copier::Copier;
use copy_ops::{OP_CB_OFFLOAD, OffloadEnd};
use dest_back::{CallAt, Callbacks, Ended, Sent};
use dest_jobs::stop_status;
use gss_mech::Mechanism;
use nfs_base::{Handle, JobName, Stability, StateId, Stop, WriteResponse};
use outbox::{CallLabel, Label, Outgoing, To};
use outcome::Mem;
use sess_slots::Sessions;
use std::alloc::Global;
use wire_xdr::Items;

/// What is sent where a job ends, and what clients were told afterwards.
#[derive(Drop)]
pub struct Telling {
    pub back: Callbacks,
    pub sent: Items<Outgoing>,
}

impl Copier {
    /// What is sent where a job stops.
    pub(crate) fn tell_stop<M: Mechanism>(
        &self,
        alloc: Global,
        name: JobName,
        cause: Stop,
        sessions: &Sessions,
        here: Here,
        mech: &M,
    ) -> Mem<Telling>
        ensures short { IfOk result (λ told. AreShort told.sent) }
        ensures back { IfOk result (λ told. GoBack told.sent) }
        ensures told { IfOk result (λ told. told ≡ stop_telling (record { mic = M.mic_of; derived = M.derived }) (around_of sessions.now here) name cause self.now) }
    {
        match stop_status(cause) {
            None => self.tell_nothing(alloc),
            Some(status) => {
                let count = self.landed(name);
                self.tell(
                    alloc,
                    name,
                    OffloadEnd::Failed { status, count },
                    sessions,
                    here,
                    mech,
                )
            }
        }
    }

    fn landed(&self, name: JobName) -> u64
        ensures { result ≡ landed_by name self.now }
    {
        match self.copies.book.status(name) {
            Some(status) => status.landed,
            None => 0,
        }
    }

    /// What is sent where all of a job is committed.
    #[tactic(auto, unfolding(wire_xdr::specs::Words::hyper_bytes))]
    pub(crate) fn tell_commit<M: Mechanism>(
        &self,
        alloc: Global,
        name: JobName,
        sessions: &Sessions,
        here: Here,
        mech: &M,
    ) -> Mem<Telling>
        ensures short { IfOk result (λ told. AreShort told.sent) }
        ensures back { IfOk result (λ told. GoBack told.sent) }
        ensures told { IfOk result (λ told. told ≡ commit_telling (record { mic = M.mic_of; derived = M.derived }) (around_of sessions.now here) name self.now) }
    {
        let response = WriteResponse {
            callback_id: None,
            count: self.landed(name),
            committed: Stability::FileSync,
            verifier: u64::from(here.boot).to_be_bytes(),
        };
        self.tell(
            alloc,
            name,
            OffloadEnd::Done(response),
            sessions,
            here,
            mech,
        )
    }

    fn tell_nothing(&self, alloc: Global) -> Mem<Telling>
        ensures short { IfOk result (λ told. AreShort told.sent) }
        ensures back { IfOk result (λ told. GoBack told.sent) }
        ensures told { IfOk result (λ told. told ≡ telling_nothing self.now) }
    {
        Ok(Telling {
            back: self.back.copy(alloc)?,
            sent: Items::new(alloc),
        })
    }

    fn tell<M: Mechanism>(
        &self,
        alloc: Global,
        name: JobName,
        end: OffloadEnd,
        sessions: &Sessions,
        here: Here,
        mech: &M,
    ) -> Mem<Telling>
        ensures short { IfOk result (λ told. AreShort told.sent) }
        ensures back { IfOk result (λ told. GoBack told.sent) }
        ensures told { IfOk result (λ told. told ≡ telling (record { mic = M.mic_of; derived = M.derived }) (around_of sessions.now here) name end self.now) }
    {
        let Some(xid) = self.next_xid() else {
            return self.tell_nothing(alloc);
        };
        let Some(seat) = self.work.seats.of(name.number) else {
            return self.tell_nothing(alloc);
        };
        let Some(plan) = self.copies.book.plan(name) else {
            return self.tell_nothing(alloc);
        };
        let at = CallAt {
            seat: seat as u32,
            xid,
            now: here.second,
            boot: here.boot,
        };
        let ended = Ended {
            file: handle_of(here.tag, plan.file),
            id: offload_id(name),
            end,
        };
        self.tell_at(alloc, at, &ended, sessions, here, mech)
    }

    fn tell_at<M: Mechanism>(
        &self,
        alloc: Global,
        at: CallAt,
        ended: &Ended,
        sessions: &Sessions,
        here: Here,
        mech: &M,
    ) -> Mem<Telling>
        requires { at.seat < SEATS }
        ensures short { IfOk result (λ told. AreShort told.sent) }
        ensures back { IfOk result (λ told. GoBack told.sent) }
        ensures told { IfOk result (λ told. told ≡ telling_at (record { mic = M.mic_of; derived = M.derived }) (around_of sessions.now here) at ended.now self.now) }
    {
        let mut back = self.back.copy(alloc)?;
        let call = back.tell(alloc, at, ended, sessions, mech)?;
        let sent = one_call(alloc, call)?;
        Ok(Telling { back, sent })
    }
}

/// A callback that goes out, where one does.
fn one_call(alloc: Global, call: Option<Sent>) -> Mem<Items<Outgoing>>
    requires { FitsRecord call }
    ensures short { IfOk result (λ sent. AreShort sent) }
    ensures back { IfOk result (λ sent. GoBack sent) }
    ensures sent { IfOk result (λ sent. sent ≡ callbacks call) }
{
    let mut sent = Items::new(alloc);
    if let Some(call) = call {
        sent.push(callback(call))?;
    }
    Ok(sent)
}

/// A callback that goes out.
pub(crate) fn callback(call: Sent) -> Outgoing
    ensures { result ≡ callback call }
{
    let Sent { conn, bytes, seal } = call;
    Outgoing {
        to: To::Conn(conn),
        bytes,
        seal: Some(seal),
        label: Label::Call(CallLabel::Callback(OP_CB_OFFLOAD)),
    }
}

/// The stateid of a job.
fn offload_id(name: JobName) -> StateId
    ensures { result ≡ offload_id name }
{
    StateId {
        seqid: 1,
        kind: StateId::COPY_OFFLOAD,
        boot: name.boot,
        number: name.number,
    }
}

/// The handle of a file, by the volume's tag.
#[tactic(auto, unfolding(file_server::specs::Handles::file_handle, wire_xdr::specs::Words::hyper_bytes, wire_xdr::specs::Words::word_bytes))]
fn handle_of(tag: u64, file: u32) -> Handle
    ensures { result ≡ file_handle tag file }
{
    let [a, b, c, d, e, f, g, h] = tag.to_be_bytes();
    let [i, j, k, l] = file.to_be_bytes();
    match Handle::new(&[a, b, c, d, e, f, g, h, i, j, k, l]) {
        Some(handle) => handle,
        None => unreachable!(),
    }
}
