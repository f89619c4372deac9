ghost use Rattle.std.specs.Prelude.{◌≡◌, ◌*◌, ◌^◌, ◌≤◌, All, length, sum_by, IfSome, IsSome, MatchOption, None, option_and_then};
ghost use Rattle.std.specs.Bool.{OnTrue, OnFalse};
ghost use Rattle.copy_model.specs.Job.{size_of, landed_bytes, AllowsCommit, IsLawful};
ghost use Rattle.job_log.specs.Log.{ClaimsAreNew};
ghost use Rattle.slab.specs.Slab.{ContainsKey};
ghost use Rattle.job_table.specs.Fits.{PlansAreFit};
ghost use Rattle.job_table.specs.Stored.{jobs_at};
ghost use Rattle.job_table.specs.Table.{job_of, complete_of, is_running, is_ended, is_told, CanSize};

use crate::fits::plans_are_fit;
use crate::job::{Job, JobId, JobStatus};
use crate::jobs::Jobs;
use slab::Slab;

impl Jobs {
    /// How many bytes the jobs have landed together. The entries of each are lawful, each of its claims names a
    /// chunk that hasn't landed, and the numbers of its plan are below the bounds of their types.
    pub fn landed(&self) -> u128
        ensures value { result ≡ sum_by (λ job. landed_bytes job.log.entries) self.now.jobs }
        ensures lawful { All (λ job. IsLawful job.plan.consecutive job.log.entries) self.now.jobs }
        ensures claims { All (λ job. ClaimsAreNew job.log) self.now.jobs }
        ensures plans { PlansAreFit self.now }
        ensures bound { result ≤ length self.now.jobs * 2 ^ 64 }
    {
        let keys = self.keys.as_slice();
        plans_are_fit(&self.slots, keys);
        landed_by(&self.slots, keys)
    }

    /// How far a job is: None where it is retired.
    pub fn status(&self, job: JobId) -> Option<JobStatus>
        ensures exactly { MatchOption result (job_of self.now job ≡ None) (λ status. IfSome (job_of self.now job) (λ found. (status.landed ≡ landed_bytes found.log.entries) × (status.complete ≡ complete_of found.log)) × IsSome (job_of self.now job)) }
    {
        match self.job(job) {
            Some(found) => Some(found.status()),
            None => None,
        }
    }

    /// The capacity of each file in bytes.
    pub fn capacity(&self) -> u64
        ensures { result ≡ self.now.capacity }
    {
        self.capacity
    }

    /// Whether a job is there that was neither stopped nor committed.
    pub fn is_running(&self, job: JobId) -> bool
        ensures { result ≡ is_running self.now job }
    {
        match self.job(job) {
            Some(found) => !found.log.is_ended(),
            None => false,
        }
    }

    /// Whether a job is there that was stopped or committed.
    pub fn is_ended(&self, job: JobId) -> bool
        ensures { result ≡ is_ended self.now job }
    {
        match self.job(job) {
            Some(found) => found.log.is_ended(),
            None => false,
        }
    }

    /// Whether a job is there that can get this length: it runs and has none, it has the room, and the length is what
    /// was asked for and fits the file.
    pub fn can_size(&self, job: JobId, len: u64) -> bool
        ensures there { OnTrue result (IsSome (job_of self.now job)) }
        ensures yes { OnTrue result (IfSome (job_of self.now job) (λ found. CanSize self.now.capacity found len)) }
        ensures no { OnFalse result (IfSome (job_of self.now job) (λ found. CanSize self.now.capacity found len → ⊥)) }
    {
        match self.job(job) {
            Some(found) => found.can_size(self.capacity, len),
            None => false,
        }
    }

    /// The length of a job's range in bytes, once it is known.
    pub fn len(&self, job: JobId) -> Option<u64>
        ensures { result ≡ option_and_then (λ found. size_of found.log.entries) (job_of self.now job) }
    {
        match self.job(job) {
            Some(found) => found.log.len(),
            None => None,
        }
    }

    /// Whether a job's length is known and each of its chunks has landed.
    pub fn is_whole(&self, job: JobId) -> bool
        ensures there { OnTrue result (IsSome (job_of self.now job)) }
        ensures yes { OnTrue result (IfSome (job_of self.now job) (λ found. AllowsCommit found.log.entries)) }
        ensures no { OnFalse result (IfSome (job_of self.now job) (λ found. AllowsCommit found.log.entries → ⊥)) }
    {
        match self.job(job) {
            Some(found) => found.log.is_whole(),
            None => false,
        }
    }

    /// Whether a job is there of whose end the client was told.
    pub fn is_reported(&self, job: JobId) -> bool
        ensures { result ≡ is_told self.now job }
    {
        match self.job(job) {
            Some(found) => found.log.is_reported(),
            None => false,
        }
    }
}

/// How many bytes the jobs under these keys have landed.
fn landed_by(slots: &Slab<Job>, keys: &[usize]) -> u128
    requires few { length keys.now ≤ 16 }
    requires filled { All (λ key. ContainsKey slots.now key) keys.now }
    ensures value { result ≡ sum_by (λ job. landed_bytes job.log.entries) (jobs_at slots.now keys.now) }
    ensures lawful { All (λ job. IsLawful job.log.consecutive job.log.entries) (jobs_at slots.now keys.now) }
    ensures claims { All (λ job. ClaimsAreNew job.log) (jobs_at slots.now keys.now) }
    ensures bound { result ≤ length keys.now * 2 ^ 64 }
{
    let mut bytes = 0u128;
    for key in keys {
        bytes += u128::from(slots[*key].log.landed());
    }
    bytes
}
