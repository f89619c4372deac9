//! A worker's link that failed.

ghost use Rattle.dest_steps.specs.Sending.{AreShort, FailingMaySend};
ghost use Rattle.std.specs.Prelude.{◌≡◌, ◌+◌, ◌<◌, [], IfOk, Some};
ghost use Rattle.outbox.specs.Counting.{records_to};
ghost use Rattle.dest_jobs.specs.Counting.{KeepsLanded};
ghost use Rattle.dest_steps.specs.Failing.{failing, failing_for, link_failed};
ghost use Rattle.dest_tasks.specs.declared.workers.TheConstants.{WORKERS};
ghost use Rattle.dest_steps.specs.Copier.{around_of};

use crate::around::Here;
use crate::copier::Copier;
use crate::telling::Telling;
use gss_mech::Mechanism;
use nfs_base::{JobName, Stop};
use outbox::Outgoing;
use outcome::Mem;
use sess_slots::Sessions;
use std::alloc::Global;
use wire_xdr::Items;

/// Which job ends with a worker's link, and what is told of it.
#[derive(Drop)]
pub enum Failing {
    /// None.
    Nothing,

    /// This one.
    Stops(JobName, Telling),
}

impl Copier {
    /// Which job ends with a worker's link: that of the call that it awaits, or of the chunk that it holds, where it still can
    /// be stopped. Nothing changes by that.
    pub fn failing<M: Mechanism>(
        &self,
        alloc: Global,
        place: u32,
        sessions: &Sessions,
        here: Here,
        mech: &M,
    ) -> Mem<Failing>
        requires { place < WORKERS }
        ensures short { IfOk result FailingMaySend }
        ensures told { IfOk result (λ told. told ≡ failing (record { mic = M.mic_of; derived = M.derived }) (around_of sessions.now here) place self.now) }
    {
        match self.work.workers.job(place) {
            None => Ok(Failing::Nothing),
            Some(job) => self.failing_for(alloc, job, sessions, here, mech),
        }
    }

    fn failing_for<M: Mechanism>(
        &self,
        alloc: Global,
        job: JobName,
        sessions: &Sessions,
        here: Here,
        mech: &M,
    ) -> Mem<Failing>
        ensures short { IfOk result FailingMaySend }
        ensures told { IfOk result (λ told. told ≡ failing_for (record { mic = M.mic_of; derived = M.derived }) (around_of sessions.now here) (Some job) self.now) }
    {
        if !self.copies.book.is_running(job) {
            return Ok(Failing::Nothing);
        }
        let told = self.tell_stop(alloc, job, Stop::LinkFault, sessions, here, mech)?;
        Ok(Failing::Stops(job, told))
    }
}

/// The call that the worker awaits is given up, and the job ends. It gives what goes out.
pub fn take_failing(
    copier: &mut Copier,
    place: u32,
    failing: Failing,
    room: Vec<Outgoing>,
) -> Items<Outgoing>
    requires place { place < WORKERS }
    requires room { room.items ≡ [] }
    requires short { FailingMaySend failing }
    ensures short { AreShort result }
    ensures none { records_to (place + 1) result ≡ 0 }
    ensures after { copier.new ≡ (link_failed place failing copier.old).0 }
    ensures sent { result ≡ (link_failed place failing copier.old).1 }
    ensures given { copier.new.copies.book.table.made ≡ copier.old.copies.book.table.made }
    ensures keeps { KeepsLanded copier.old.copies copier.new.copies }
{
    copier.work.link_failed(place);
    match failing {
        Failing::Nothing => Items::from_vec(room),
        Failing::Stops(job, told) => copier.stop(job, Stop::LinkFault, told),
    }
}
