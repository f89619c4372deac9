//! OFFLOAD_STATUS and OFFLOAD_CANCEL of a job (RFC 7862 sections 15.8 and 15.9).

ghost use Rattle.std.specs.Prelude.{◌≡◌, IsSome, IfSome};
ghost use Rattle.job_book.specs.Book.{named};
ghost use Rattle.dest_jobs.specs.Offloads.{after_cancel, cancel_status, own_job, progress_told, status_told};

use crate::copies::Copies;
use copy_ops::OffloadProgress;
use job_book::JobStatus;
use nfs_base::{Answer, JobName, StateId, Status, Stop};

impl Copies {
    /// The job that a stateid names to a client.
    fn own_job(&self, client: u64, id: &StateId) -> Option<JobName>
        ensures job { result ≡ own_job self.now.book.table client id.now }
        ensures there { IfSome result (λ name. IsSome (named self.now.book.table name)) }
    {
        let name = JobName {
            boot: id.boot,
            number: id.number,
        };
        let of_client = match self.book.client(name) {
            Some(asked) => asked == client,
            None => false,
        };
        if id.kind == StateId::COPY_OFFLOAD && of_client {
            Some(name)
        } else {
            None
        }
    }

    /// What OFFLOAD_STATUS of a client answers: how far its job is, and BAD_STATEID where it has none of this name.
    pub fn status(&self, client: u64, id: &StateId) -> Answer<OffloadProgress>
        ensures { result ≡ status_told self.now.book.table (own_job self.now.book.table client id.now) }
    {
        match self.own_job(client, id) {
            Some(name) => progress_told(self.book.status(name)),
            None => Answer::Refused(Status::BAD_STATEID),
        }
    }

    /// Ends a client's job at once, and tells with what status that is answered. It wants no memory.
    pub fn cancel(&mut self, client: u64, id: &StateId) -> Status
        ensures status { result ≡ cancel_status (own_job self.old.book.table client id.now) }
        ensures after { self.new ≡ after_cancel (own_job self.old.book.table client id.now) self.old }
    {
        match self.own_job(client, id) {
            Some(name) => {
                self.end(Stop::Cancelled, name);
                Status::OK
            }
            None => Status::BAD_STATEID,
        }
    }
}

/// What OFFLOAD_STATUS answers to how far a job is.
fn progress_told(status: Option<JobStatus>) -> Answer<OffloadProgress>
    ensures { result ≡ progress_told status }
{
    match status {
        Some(status) => Answer::Done(OffloadProgress {
            count: status.landed,
            complete: status.complete,
        }),
        None => Answer::Refused(Status::BAD_STATEID),
    }
}
