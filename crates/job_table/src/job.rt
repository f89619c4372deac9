ghost use Rattle.std.specs.Prelude.{◌≡◌};
ghost use Rattle.std.specs.Bool.{OnTrue, OnFalse};
ghost use Rattle.job_table.specs.Table.{status_of, complete_of, CanSize};
ghost use Rattle.copy_model.specs.Job.{landed_bytes};

use job_log::JobLog;
use nfs_base::{Handle, StateId, Status, Stop};
use wire_xdr::Octets;

/// What COPY asked the destination for (RFC 7862 section 15.2), and who asked.
#[derive(Drop)]
pub struct Plan {
    /// The ID of the client that asked.
    pub client: u64,

    /// The destination's file.
    pub file: u32,

    /// Where the range begins in the source's file, in bytes.
    pub src_off: u64,

    /// Where the range begins in the destination's file, in bytes.
    pub dst_off: u64,

    /// How many bytes were asked for. 0 goes to the end of the source's file.
    pub count: u64,

    /// Whether the bytes have to land in order.
    pub consecutive: bool,

    /// The source's file, by the handle that the source gave.
    pub source: Handle,

    /// The stateid that COPY_NOTIFY gave at the source.
    pub src_id: StateId,

    /// The secret of the copy's privileges.
    pub secret: Octets,

    /// The user for whom the copy is made.
    pub user: Octets,
}

/// A job by its name: its boot and number tell which it is. Its key is where the slab has it, and no answer
/// depends on it.
#[derive(Clone, Copy, PartialEq, Eq)]
pub struct JobId {
    pub key: usize,
    pub boot: u32,
    pub number: u32,
}

/// Why a copy isn't accepted.
#[derive(Clone, Copy, PartialEq, Eq)]
pub enum Refused {
    /// Its range has a byte in common with that of this job, which runs.
    Overlap { job: JobId },

    /// There are sixteen jobs that aren't retired.
    Full,
}

/// How far a job is (OFFLOAD_STATUS, RFC 7862 section 15.9).
#[derive(Clone, Copy, PartialEq, Eq)]
pub struct JobStatus {
    /// How many bytes have landed.
    pub landed: u64,

    /// 0 once the copy is committed, and the status once it was stopped by something that its client is told.
    pub complete: Option<Status>,
}

/// A job that isn't retired.
#[derive(Drop)]
pub struct Job {
    pub number: u32,
    pub plan: Plan,
    pub log: JobLog,
}

/// The status that a client is told of a stopped job. It isn't told of an end that it brought about.
fn stop_status(cause: Stop) -> Option<Status>
    ensures { result ≡ status_of cause }
{
    match cause {
        Stop::Cancelled | Stop::LeaseExpired | Stop::ClientGone => None,
        Stop::SourceRefused(status) => Some(status),
        Stop::SourceFailed(_) => Some(Status::SERVERFAULT),
        Stop::PastEnd => Some(Status::INVAL),
        Stop::NoRoom => Some(Status::FBIG),
        Stop::DiskFault => Some(Status::IO),
        Stop::LinkFault => Some(Status::PARTNER_NOTSUPP),
        Stop::Worn => Some(Status::SERVERFAULT),
    }
}

impl Job {
    /// How far the job is.
    pub(crate) fn status(&self) -> JobStatus
        ensures landed { result.landed ≡ landed_bytes self.now.log.entries }
        ensures complete { result.complete ≡ complete_of self.now.log }
    {
        JobStatus {
            landed: self.log.landed(),
            complete: self.complete(),
        }
    }

    /// Whether the job can get this length.
    pub(crate) fn can_size(&self, capacity: u64, len: u64) -> bool
        ensures yes { OnTrue result (CanSize capacity self.now len) }
        ensures no { OnFalse result (CanSize capacity self.now len → ⊥) }
    {
        let asked = self.plan.count == 0 || len == self.plan.count;
        let fits = u128::from(self.plan.dst_off) + u128::from(len) <= u128::from(capacity);
        let ready = self.log.len().is_none() && !self.log.is_ended();
        asked && fits && ready && self.log.has_room(len)
    }

    fn complete(&self) -> Option<Status>
        ensures { result ≡ complete_of self.now.log }
    {
        match self.log.cause() {
            Some(cause) => stop_status(cause),
            None if self.log.is_ended() => Some(Status::OK),
            None => None,
        }
    }
}
