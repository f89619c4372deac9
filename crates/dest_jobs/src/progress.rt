//! What comes about in a job on its way, and what is told of it.

ghost use Rattle.std.specs.Prelude.{◌≡◌, true, IfSome, IsSome, OnErr, OnOk};
ghost use Rattle.copy_model.specs.Job.{AllowsCommit};
ghost use Rattle.dest_jobs.specs.Progress.{commits, lands, reports, stops, IsSized, MaySize};
ghost use Rattle.job_book.specs.Book.{id_of, named};
ghost use Rattle.job_log.specs.declared.chunk.Landing.TheVariants as landings;
ghost use Rattle.job_table.specs.Table.{is_running, status_of, table_landing};

use crate::copies::Copies;
use job_book::Chunk;
use nfs_base::{JobName, Status, Stop};
use outbox::Note;
use outcome::Mem;

impl Copies {
    /// Stops a job that runs: nothing of it lands any more. It stays, so that its client can be told.
    pub fn stop(&mut self, name: JobName, cause: Stop)
        ensures { self.new ≡ stops cause name self.old }
    {
        if self.book.is_running(name) {
            self.note(Note::Stopped { job: name, cause });
            self.book.stop(name, cause);
        }
    }

    /// The length of a job's range is known. Without memory nothing changes.
    pub fn size(&mut self, name: JobName, len: u64) -> Mem<()>
        requires there { IsSome (named self.old.book.table name) }
        requires may { IfSome (named self.old.book.table name) (MaySize self.old.book.table.capacity len) }
        ensures sized { OnOk result (IsSized len name self.old self.new) }
        ensures err { OnErr result (self.new ≡ self.old) }
    {
        self.book.reserve(name, len)?;
        self.book.size(name, len);
        self.note(Note::Sized { job: name, len });
        Ok(())
    }

    /// A chunk has landed.
    pub fn land(&mut self, name: JobName, chunk: Chunk)
        requires { table_landing self.old.book.table (id_of name) chunk ≡ landings.Landed }
        ensures { self.new ≡ lands name chunk self.old }
    {
        self.note(Note::Landed {
            job: name,
            off: chunk.off,
            len: chunk.len,
        });
        self.book.land(name, chunk);
    }

    /// The file of a job was committed of which each chunk has landed.
    pub fn commit(&mut self, name: JobName)
        requires running { is_running self.old.book.table (id_of name) ≡ true }
        requires landed { IfSome (named self.old.book.table name) (λ job. AllowsCommit job.log.entries) }
        ensures { self.new ≡ commits name self.old }
    {
        self.note(Note::Committed { job: name });
        self.book.committed(name);
    }

    /// The client knows how a job ended: its place ends.
    pub fn report(&mut self, name: JobName)
        ensures { self.new ≡ reports name self.old }
    {
        if self.book.is_ended(name) {
            self.note(Note::Reported { job: name });
            self.book.retire(name);
        }
    }
}

/// The status that a client is told of a stopped job. It isn't told of an end that it brought about.
pub fn stop_status(cause: Stop) -> Option<Status>
    ensures { result ≡ status_of cause }
{
    match cause {
        Stop::Cancelled | Stop::LeaseExpired | Stop::ClientGone => None,
        Stop::SourceRefused(status) => Some(status),
        Stop::SourceFailed(_) => Some(Status::SERVERFAULT),
        Stop::PastEnd => Some(Status::INVAL),
        Stop::NoRoom => Some(Status::FBIG),
        Stop::DiskFault => Some(Status::IO),
        Stop::LinkFault => Some(Status::PARTNER_NOTSUPP),
        Stop::Worn => Some(Status::SERVERFAULT),
    }
}
