ghost use Rattle.std.specs.Prelude.{◌≡◌, ◌≤◌, IfSome, IfNone, OnOk, OnErr, IsSome, Some, None, false, true};
ghost use Rattle.copy_model.specs.Job.{AllowsCommit, Stopped, Committed, Reported};
ghost use Rattle.job_log.specs.Log.{IsNextClaim, HasNoClaim, with_claim, with_entry, given_back, after_landing, sized};
ghost use Rattle.job_table.specs.Table.{job_of, is_running, is_ended, is_told, with_log, CanSize, table_landing, landing_at, without, GetsRoom};

use crate::job::JobId;
use crate::jobs::Jobs;
use crate::keys::key_of;
use copy_model::logs_grow;
use job_log::{Chunk, Landing};
use nfs_base::Stop;
use outcome::Mem;

impl Jobs {
    /// Makes the room that a job of this length needs.
    pub fn reserve(&mut self, job: JobId, len: u64) -> Mem<()>
        requires { IsSome (job_of self.old job) }
        ensures room { OnOk result (GetsRoom self.old self.new job len) }
        ensures err { OnErr result (self.new ≡ self.old) }
    {
        match key_of(&self.slots, self.keys.as_slice(), self.boot, job) {
            Some(key) => self.slots[key].log.reserve(len),
            None => Ok(()),
        }
    }

    /// Makes the length of a job's range known: the count that was asked for where that isn't 0.
    pub fn size(&mut self, job: JobId, len: u64)
        requires unretired { IsSome (job_of self.old job) }
        requires can { IfSome (job_of self.old job) (λ found. CanSize self.old.capacity found len) }
        ensures { self.new ≡ with_log self.old job (λ log. sized log len) }
    {
        if let Some(key) = key_of(&self.slots, self.keys.as_slice(), self.boot, job) {
            self.slots[key].log.size(len);
        }
    }

    /// Claims a job's lowest chunk that is neither landed nor claimed. None where the job is retired, isn't sized
    /// or has ended, and where each chunk has landed or is claimed.
    pub fn claim(&mut self, job: JobId) -> Option<Chunk>
        ensures next { IfSome result (λ chunk. IfSome (job_of self.old job) (λ found. IsNextClaim found.log chunk) × IsSome (job_of self.old job)) }
        ensures claimed { IfSome result (λ chunk. self.new ≡ with_log self.old job (λ log. with_claim log chunk true)) }
        ensures none { IfNone result (IfSome (job_of self.old job) (λ found. HasNoClaim found.log)) }
        ensures same { IfNone result (self.new ≡ self.old) }
    {
        match key_of(&self.slots, self.keys.as_slice(), self.boot, job) {
            Some(key) => self.slots[key].log.claim(),
            None => None,
        }
    }

    /// Gives a claim back. A chunk that isn't claimed changes nothing.
    pub fn give_back(&mut self, job: JobId, chunk: Chunk)
        ensures { self.new ≡ with_log self.old job (λ log. given_back log chunk) }
    {
        if let Some(key) = key_of(&self.slots, self.keys.as_slice(), self.boot, job) {
            self.slots[key].log.give_back(chunk);
        }
    }

    /// What landing this chunk would answer. It is late where the job is retired or has ended and where the chunk
    /// isn't claimed, and held where the job is consecutive and an earlier chunk hasn't landed.
    pub fn landing(&self, job: JobId, chunk: Chunk) -> Landing
        ensures { result ≡ table_landing self.now job chunk }
    {
        match self.job(job) {
            Some(found) => found.log.landing(chunk),
            None => Landing::Late,
        }
    }

    /// Lands a chunk, where it isn't late and doesn't have to wait.
    pub fn land(&mut self, job: JobId, chunk: Chunk) -> Landing
        ensures answer { result ≡ table_landing self.old job chunk }
        ensures done { self.new ≡ with_log self.old job (λ log. after_landing log chunk result) }
    {
        logs_grow();
        match key_of(&self.slots, self.keys.as_slice(), self.boot, job) {
            Some(key) => self.slots[key].log.land(chunk),
            None => Landing::Late,
        }
    }

    /// Stops a job: nothing of it lands any more.
    pub fn stop(&mut self, job: JobId, cause: Stop)
        requires { is_running self.old job ≡ true }
        ensures { self.new ≡ with_log self.old job (λ log. record (with_entry log Stopped) { cause = Some cause }) }
    {
        logs_grow();
        if let Some(key) = key_of(&self.slots, self.keys.as_slice(), self.boot, job) {
            self.slots[key].log.stop(cause);
        }
    }

    /// Notes that all of a job landed and was committed.
    pub fn committed(&mut self, job: JobId)
        requires running { is_running self.old job ≡ true }
        requires landed { IfSome (job_of self.old job) (λ found. AllowsCommit found.log.entries) }
        ensures { self.new ≡ with_log self.old job (λ log. with_entry log Committed) }
    {
        logs_grow();
        if let Some(key) = key_of(&self.slots, self.keys.as_slice(), self.boot, job) {
            self.slots[key].log.commit();
        }
    }

    /// Notes that the client was told of a job's end.
    pub fn reported(&mut self, job: JobId)
        requires ended { is_ended self.old job ≡ true }
        requires not_reported { is_told self.old job ≡ false }
        ensures { self.new ≡ with_log self.old job (λ log. with_entry log Reported) }
    {
        logs_grow();
        if let Some(key) = key_of(&self.slots, self.keys.as_slice(), self.boot, job) {
            self.slots[key].log.report();
        }
    }

    /// Ends a job's place in the table.
    pub fn retire(&mut self, job: JobId)
        requires { IsSome (job_of self.old job) }
        ensures { self.new ≡ without self.old job }
    {
        if let Some(key) = key_of(&self.slots, self.keys.as_slice(), self.boot, job) {
            self.keys.forget(&self.slots, self.boot, job);
            self.slots.remove(key);
        }
    }
}
