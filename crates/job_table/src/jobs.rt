ghost use Rattle.std.specs.Prelude.{◌≡◌, ◌==◌, ◌+◌, ◌-◌, ◌<◌, ◌≤◌, ◌^◌, [], ◌∷◌, ◌++◌, All, AllPairs, IfOk, IfErr, OnOk, OnErr, IfSome, IfNone, IsSome, MatchOption, Some, None, Ok, Err, length, option_copied, IsOk};
ghost use Rattle.job_table.specs.declared.job.Refused.TheVariants.{Full};
ghost use Rattle.job_table.specs.Table.{job_of, job_above, new_log, overlapped, Names, AreApart, IsOverlap, with_job};

use crate::job::{Job, JobId, Plan, Refused};
use crate::key_row::KeyRow;
use crate::keys::{id_at, key_above, key_met, key_of};
use job_log::JobLog;
use nfs_base::MOST_JOBS;
use outcome::Mem;
use slab::Slab;
use std::alloc::Global;
use std::marker::Model;

/// The jobs of a destination that aren't retired.
#[derive(Drop)]
pub struct Jobs {
    pub(crate) boot: u32,
    pub(crate) capacity: u64,
    made: u32,
    pub(crate) slots: Slab<Job>,

    // The key of each job, by number.
    pub(crate) keys: KeyRow,
}

impl Model for Jobs {
    ghost use Rattle.job_table.specs.Table.{JobTable};
    ghost use Rattle.job_table.specs.Stored.{jobs_at, IsStored};

    ghost Value = { JobTable };

    ghost view = { λ t. record { boot = t.boot; capacity = t.capacity; made = t.made; jobs = jobs_at t.slots t.keys.items } };

    ghost invariant = { λ t. IsStored t.capacity t.made t.slots t.keys.items };
}

impl Jobs {
    /// No job yet, at a server with this boot number, whose files have this capacity in bytes.
    pub fn new(alloc: Global, boot: u32, capacity: u64) -> Mem<Jobs>
        ensures { IfOk result (λ t. t ≡ record { boot = boot; capacity = capacity; made = 0; jobs = [] }) }
    {
        Ok(Jobs {
            boot,
            capacity,
            made: 0,
            slots: Slab::with_capacity(alloc, MOST_JOBS)?,
            keys: KeyRow::new(alloc)?,
        })
    }

    /// How many numbers were given out. There are at most sixteen jobs, by rising number, and the ranges of two
    /// that run have no common byte of one file.
    pub fn made(&self) -> u32
        ensures value { result ≡ self.now.made }
        ensures few { length self.now.jobs ≤ 16 }
        ensures rising { AllPairs (λ a b. a.number < b.number) self.now.jobs }
        ensures given { All (λ job. (0 < job.number) × (job.number ≤ self.now.made)) self.now.jobs }
        ensures apart { AllPairs (AreApart self.now.capacity) self.now.jobs }
    {
        self.made
    }

    /// The job of this name.
    pub(crate) fn job(&self, id: JobId) -> Option<&Job>
        ensures { option_copied result ≡ job_of self.now id }
    {
        match key_of(&self.slots, self.keys.as_slice(), self.boot, id) {
            Some(key) => self.slots.get(key),
            None => None,
        }
    }

    /// What was asked for, of a job that isn't retired.
    pub fn plan(&self, job: JobId) -> Option<&Plan>
        ensures found { IfSome result (λ plan. IfSome (job_of self.now job) (λ found. plan.now ≡ found.plan)) }
        ensures exactly { MatchOption result (job_of self.now job ≡ None) (λ _. IsSome (job_of self.now job)) }
    {
        match self.job(job) {
            Some(found) => Some(&found.plan),
            None => None,
        }
    }

    /// The job with the lowest number above this one.
    pub fn next(&self, after: u32) -> Option<JobId>
        ensures name { IfSome result (λ id. IfSome (job_above self.now after) (λ job. Names self.now.boot job id)) }
        ensures exactly { MatchOption result (job_above self.now after ≡ None) (λ _. IsSome (job_above self.now after)) }
    {
        match key_above(&self.slots, self.keys.as_slice(), after) {
            Some(key) => Some(id_at(&self.slots, key, self.boot)),
            None => None,
        }
    }

    /// Takes a copy as a job with the next number. Where its range has a byte in common with that of a job that
    /// runs, it names the one with the lowest number; where there are sixteen jobs, it is full.
    pub fn accept(&mut self, plan: Plan) -> Mem<Result<JobId, Refused>>
        requires numbers { self.old.made < 2 ^ 32 - 1 }
        requires fits { plan.dst_off + plan.count ≤ self.old.capacity }
        ensures overlap { IfOk result (λ answer. IfSome (overlapped self.old plan) (λ job. IsOverlap self.old.boot job answer)) }
        ensures full { IfOk result (λ answer. overlapped self.old plan ≡ None → 16 ≤ length self.old.jobs → answer ≡ Err Full) }
        ensures taken { IfOk result (λ answer. overlapped self.old plan ≡ None → length self.old.jobs < 16 → IsOk answer) }
        ensures name { IfOk result (λ answer. IfOk answer (λ id. (id.boot ≡ self.old.boot) × (id.number ≡ self.old.made + 1))) }
        ensures done { IfOk result (λ answer. OnOk answer (self.new ≡ with_job self.old plan)) }
        ensures refused { IfOk result (λ answer. OnErr answer (self.new ≡ self.old)) }
        ensures err { OnErr result (self.new ≡ self.old) }
    {
        let log = JobLog::new(self.keys.allocator(), plan.consecutive)?;
        Ok(self.accept_taken(plan, log))
    }

    /// Takes a copy in the same way, with the log of a new job that was made before. It wants no memory.
    pub fn accept_taken(&mut self, plan: Plan, log: JobLog) -> Result<JobId, Refused>
        requires numbers { self.old.made < 2 ^ 32 - 1 }
        requires fits { plan.dst_off + plan.count ≤ self.old.capacity }
        requires new { log ≡ new_log plan.consecutive }
        ensures overlap { IfSome (overlapped self.old plan) (λ job. IsOverlap self.old.boot job result) }
        ensures full { overlapped self.old plan ≡ None → 16 ≤ length self.old.jobs → result ≡ Err Full }
        ensures taken { overlapped self.old plan ≡ None → length self.old.jobs < 16 → IsOk result }
        ensures name { IfOk result (λ id. (id.boot ≡ self.old.boot) × (id.number ≡ self.old.made + 1)) }
        ensures done { OnOk result (self.new ≡ with_job self.old plan) }
        ensures refused { OnErr result (self.new ≡ self.old) }
    {
        if let Some(job) = self.overlapping(&plan) {
            return Err(Refused::Overlap { job });
        }
        if self.count() >= MOST_JOBS {
            return Err(Refused::Full);
        }
        Ok(self.add(plan, log))
    }

    fn count(&self) -> usize
        ensures { result ≡ length self.now.jobs }
    {
        self.keys.as_slice().len()
    }

    fn overlapping(&self, plan: &Plan) -> Option<JobId>
        ensures name { IfSome result (λ id. IfSome (overlapped self.now plan.now) (λ job. Names self.now.boot job id)) }
        ensures exactly { MatchOption result (overlapped self.now plan.now ≡ None) (λ _. IsSome (overlapped self.now plan.now)) }
    {
        match key_met(&self.slots, self.keys.as_slice(), self.capacity, plan) {
            Some(key) => Some(id_at(&self.slots, key, self.boot)),
            None => None,
        }
    }

    fn add(&mut self, plan: Plan, log: JobLog) -> JobId
        requires numbers { self.old.made < 2 ^ 32 - 1 }
        requires few { length self.old.jobs < 16 }
        requires fits { plan.dst_off + plan.count ≤ self.old.capacity }
        requires apart { overlapped self.old plan ≡ None }
        requires new { log ≡ new_log plan.consecutive }
        ensures id { (result.boot ≡ self.old.boot) × (result.number ≡ self.old.made + 1) }
        ensures done { self.new ≡ with_job self.old plan }
    {
        let number = self.made + 1;
        let key = self.slots.insert_reserved(Job { number, plan, log });
        self.made = number;
        self.keys.push(key);
        JobId {
            key,
            boot: self.boot,
            number,
        }
    }
}
