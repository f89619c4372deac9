//! What goes out again when a second comes by itself.

ghost use Rattle.dest_steps.specs.Sending.{AreShort};
ghost use Rattle.std.specs.Prelude.{◌≡◌, ◌<◌, ◌≤◌, ◌+◌, IfOk, OnOk, Some};
ghost use Rattle.dest_steps.specs.Ticking.{again, call_again, call_for, calls_from, job_again, jobs_from, told_at, with_again};
ghost use Rattle.dest_tasks.specs.Tasks.{is_gone};
ghost use Rattle.dest_tasks.specs.declared.seats.TheConstants.{SEATS};
ghost use Rattle.dest_tasks.specs.declared.workers.TheConstants.{WORKERS};
ghost use Rattle.job_book.specs.Book.{client_of};
ghost use Rattle.nfs_base.specs.declared.job.JobName.{JobName};
ghost use Rattle.dest_steps.specs.Copier.{around_of};

use crate::around::Here;
use crate::calls::{errand_label, workers_call};
use crate::copier::{Copier, next_xid};
use crate::telling::callback;
use dest_back::{CallAt, Callbacks};
use dest_tasks::{Errand, WORKERS};
use dest_work::is_due;
use gss_mech::Mechanism;
use mount::{Mount, SendAt};
use nfs_base::{JobName, MOST_JOBS};
use outbox::Outgoing;
use outcome::Mem;
use sess_slots::Sessions;
use std::alloc::Global;
use wire_xdr::Items;

/// What goes out again, and what is awaited afterwards.
#[derive(Drop)]
pub struct Again {
    pub mount: Mount,
    pub back: Callbacks,
    pub sent: Items<Outgoing>,
}

impl Copier {
    /// What goes out again of all that was last sent 30 or more seconds ago: the workers' calls first, then the callbacks by the
    /// numbers of the jobs. Nothing changes by that.
    pub fn again<M: Mechanism>(
        &self,
        alloc: Global,
        sessions: &Sessions,
        here: Here,
        mech: &M,
    ) -> Mem<Again>
        ensures short { IfOk result (λ told. AreShort told.sent) }
        ensures told { IfOk result (λ told. told ≡ again (record { mic = M.mic_of; derived = M.derived }) (around_of sessions.now here) self.now) }
    {
        let mut again = Again {
            mount: self.work.mount.copy(alloc)?,
            back: self.back.copy(alloc)?,
            sent: Items::new(alloc),
        };
        self.workers_from(alloc, &mut again, sessions, here, mech, WORKERS, 0)?;
        self.jobs_from(alloc, &mut again, sessions, here, mech, MOST_JOBS, 0)?;
        Ok(again)
    }

    #[tactic(auto, unfolding(crate::specs::Ticking::calls_from))]
    fn workers_from<M: Mechanism>(
        &self,
        alloc: Global,
        again: &mut Again,
        sessions: &Sessions,
        here: Here,
        mech: &M,
        left: u32,
        place: u32,
    ) -> Mem<()>
        requires places { place + left ≤ WORKERS }
        requires short { AreShort again.old.sent }
        ensures short { OnOk result (AreShort again.new.sent) }
        ensures again { OnOk result (again.new ≡ calls_from (record { mic = M.mic_of; derived = M.derived }) (around_of sessions.now here) self.now left place again.old) }
    {
        if left == 0 {
            return Ok(());
        }
        self.worker_again(alloc, again, sessions, here, mech, place)?;
        self.workers_from(alloc, again, sessions, here, mech, left - 1, place + 1)
    }

    fn worker_again<M: Mechanism>(
        &self,
        alloc: Global,
        again: &mut Again,
        sessions: &Sessions,
        here: Here,
        mech: &M,
        place: u32,
    ) -> Mem<()>
        requires place { place < WORKERS }
        requires short { AreShort again.old.sent }
        ensures short { OnOk result (AreShort again.new.sent) }
        ensures again { OnOk result (again.new ≡ call_again (record { mic = M.mic_of; derived = M.derived }) (around_of sessions.now here) place self.now again.old) }
    {
        if !is_due(again.mount.sent_at(place), here.second) {
            return Ok(());
        }
        match self.work.workers.asks(place) {
            None => Ok(()),
            Some((_, errand)) => again.send_call(alloc, place, errand, sessions, here, mech),
        }
    }

    #[tactic(auto, unfolding(crate::specs::Ticking::jobs_from))]
    fn jobs_from<M: Mechanism>(
        &self,
        alloc: Global,
        again: &mut Again,
        sessions: &Sessions,
        here: Here,
        mech: &M,
        left: usize,
        after: u32,
    ) -> Mem<()>
        requires short { AreShort again.old.sent }
        ensures short { OnOk result (AreShort again.new.sent) }
        ensures again { OnOk result (again.new ≡ jobs_from (record { mic = M.mic_of; derived = M.derived }) (around_of sessions.now here) self.now left after again.old) }
    {
        if left == 0 {
            return Ok(());
        }
        match self.copies.book.next(after) {
            None => Ok(()),
            Some(name) => {
                self.job_again(alloc, again, sessions, here, mech, name)?;
                self.jobs_from(alloc, again, sessions, here, mech, left - 1, name.number)
            }
        }
    }

    /// A job whose client's lease has ended ends, and nothing is told of it any more.
    fn job_again<M: Mechanism>(
        &self,
        alloc: Global,
        again: &mut Again,
        sessions: &Sessions,
        here: Here,
        mech: &M,
        name: JobName,
    ) -> Mem<()>
        requires short { AreShort again.old.sent }
        ensures short { OnOk result (AreShort again.new.sent) }
        ensures again { OnOk result (again.new ≡ job_again (record { mic = M.mic_of; derived = M.derived }) (around_of sessions.now here) name self.now again.old) }
    {
        if self.is_gone(name, sessions, here) {
            return Ok(());
        }
        match self.work.seats.of(name.number) {
            None => Ok(()),
            Some(seat) => again.tell(alloc, seat as u32, sessions, here, mech),
        }
    }

    /// Whether a job's client has no lease any more.
    fn is_gone(&self, name: JobName, sessions: &Sessions, here: Here) -> bool
        ensures { result ≡ is_gone sessions.now here.second (client_of self.now.copies.book.table name) }
    {
        match self.copies.book.client(name) {
            None => false,
            Some(client) => sessions.lapsed(client, here.second),
        }
    }
}

impl Again {
    /// What a worker awaits goes out again.
    fn send_call<M: Mechanism>(
        &mut self,
        alloc: Global,
        place: u32,
        errand: Errand,
        sessions: &Sessions,
        here: Here,
        mech: &M,
    ) -> Mem<()>
        requires place { place < WORKERS }
        requires short { AreShort self.old.sent }
        ensures short { OnOk result (AreShort self.new.sent) }
        ensures again { OnOk result ((job : JobName) → self.new ≡ call_for (record { mic = M.mic_of; derived = M.derived }) (around_of sessions.now here) place (Some (job, errand)) self.old) }
    {
        let Some(xid) = next_xid(&self.mount, &self.back) else {
            return Ok(());
        };
        let label = errand_label(errand, self.mount.setup());
        let at = SendAt {
            place,
            xid,
            now: here.second,
        };
        match self.mount.send_again(alloc, at, mech)? {
            None => Ok(()),
            Some(sent) => Ok(self.sent.push(workers_call(place, label, sent))?),
        }
    }

    /// The call that awaits its answer at a seat goes out again, where it was sent long enough ago.
    fn tell<M: Mechanism>(
        &mut self,
        alloc: Global,
        seat: u32,
        sessions: &Sessions,
        here: Here,
        mech: &M,
    ) -> Mem<()>
        requires seat { seat < SEATS }
        requires short { AreShort self.old.sent }
        ensures short { OnOk result (AreShort self.new.sent) }
        ensures again { OnOk result (self.new ≡ told_at (record { mic = M.mic_of; derived = M.derived }) (around_of sessions.now here) seat self.old) }
    {
        if !is_due(self.back.sent_at(seat), here.second) {
            return Ok(());
        }
        let Some(xid) = next_xid(&self.mount, &self.back) else {
            return Ok(());
        };
        let at = CallAt {
            seat,
            xid,
            now: here.second,
            boot: here.boot,
        };
        match self.back.tell_again(alloc, at, sessions, mech)? {
            None => Ok(()),
            Some(call) => Ok(self.sent.push(callback(call))?),
        }
    }
}

/// What went out again is awaited. It gives what goes out.
pub fn take_again(copier: &mut Copier, again: Again) -> Items<Outgoing>
    ensures after { copier.new ≡ with_again again copier.old }
    ensures sent { result ≡ again.sent }
    ensures copies { copier.new.copies ≡ copier.old.copies }
{
    let Again { mount, back, sent } = again;
    copier.work.mount = mount;
    copier.back = back;
    sent
}
