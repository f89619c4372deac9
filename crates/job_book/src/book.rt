ghost use Rattle.std.specs.Prelude.{◌≡◌, ◌-◌, ◌^◌, ◌<◌, ◌≤◌, [], All, AllPairs, length, IfOk, IsSome};
ghost use Rattle.job_table.specs.Fits.{PlansAreFit};
ghost use Rattle.job_table.specs.Table.{is_running, new_log};
ghost use Rattle.job_book.specs.Book.{accept_answer, after_accept, book_bytes, client_of, id_of, job_status, landed_at, named, next_name, retired, IsSound};

use crate::acceptance::Acceptance;
use job_table::{JobId, JobLog, JobStatus, Jobs, Plan, Refused};
use nfs_base::JobName;
use outcome::Mem;
use std::alloc::Global;
use std::marker::Model;

/// The jobs of a destination by name, and how many bytes were landed by those that aren't there any more.
#[derive(Drop)]
pub struct Book {
    pub(crate) jobs: Jobs,
    pub(crate) past: u128,
}

impl Model for Book {
    ghost use Rattle.job_book.specs.Book.{BookView, IsWithin};

    ghost Value = { BookView };

    ghost view = { λ b. record { table = b.jobs; past = b.past } };

    ghost invariant = { λ b. IsWithin b.past b.jobs };
}

impl Book {
    /// No job yet, at a server with this boot number, whose files have this capacity in bytes.
    pub fn new(alloc: Global, boot: u32, capacity: u64) -> Mem<Book>
        ensures { IfOk result (λ b. b ≡ record { table = record { boot = boot; capacity = capacity; made = 0; jobs = [] }; past = 0 }) }
    {
        Ok(Book {
            jobs: Jobs::new(alloc, boot, capacity)?,
            past: 0,
        })
    }

    /// How many numbers were given out. There are at most sixteen jobs, by rising number.
    pub fn made(&self) -> u32
        ensures value { result ≡ self.now.table.made }
        ensures few { length self.now.table.jobs ≤ 16 }
        ensures rising { AllPairs (λ a b. a.number < b.number) self.now.table.jobs }
        ensures given { All (λ job. (0 < job.number) × (job.number ≤ self.now.table.made)) self.now.table.jobs }
    {
        self.jobs.made()
    }

    /// The job with the lowest number above this one.
    pub fn next(&self, after: u32) -> Option<JobName>
        ensures { result ≡ next_name self.now.table after }
    {
        match self.jobs.next(after) {
            Some(id) => Some(JobName {
                boot: id.boot,
                number: id.number,
            }),
            None => None,
        }
    }

    /// The client that asked for a job.
    pub fn client(&self, name: JobName) -> Option<u64>
        ensures { result ≡ client_of self.now.table name }
    {
        match self.jobs.plan(id_of(name)) {
            Some(plan) => Some(plan.client),
            None => None,
        }
    }

    /// How far a job is.
    pub fn status(&self, name: JobName) -> Option<JobStatus>
        ensures { result ≡ job_status self.now.table name }
    {
        self.jobs.status(id_of(name))
    }

    /// Whether a job is there that was neither stopped nor committed.
    pub fn is_running(&self, name: JobName) -> bool
        ensures { result ≡ is_running self.now.table (id_of name) }
    {
        self.jobs.is_running(id_of(name))
    }

    /// Takes a copy as a job with the next number, by the log of a new job that was made before. It wants no memory.
    pub fn accept(&mut self, plan: Plan, log: JobLog) -> Acceptance
        requires numbers { self.old.table.made < 2 ^ 32 - 1 }
        requires new { log ≡ new_log plan.consecutive }
        ensures answer { result ≡ accept_answer self.old.table plan }
        ensures after { self.new ≡ after_accept (accept_answer self.old.table plan) plan self.old }
    {
        if u128::from(plan.dst_off) + u128::from(plan.count) > u128::from(self.jobs.capacity()) {
            return Acceptance::TooFar;
        }
        match self.jobs.accept_taken(plan, log) {
            Ok(id) => Acceptance::Accepted(JobName {
                boot: id.boot,
                number: id.number,
            }),
            Err(Refused::Overlap { job }) => Acceptance::Overlap(JobName {
                boot: job.boot,
                number: job.number,
            }),
            Err(Refused::Full) => Acceptance::Full,
        }
    }

    /// Ends a job's place. What it landed stays counted.
    pub fn retire(&mut self, name: JobName)
        requires { IsSome (named self.old.table name) }
        ensures { self.new ≡ retired name self.old }
    {
        let _made = self.jobs.made();
        let landed = self.landed_by(name);
        self.jobs.retire(id_of(name));
        self.past += u128::from(landed);
    }

    fn landed_by(&self, name: JobName) -> u64
        ensures { result ≡ landed_at (named self.now.table name) }
    {
        match self.jobs.status(id_of(name)) {
            Some(status) => status.landed,
            None => 0,
        }
    }

    /// How many bytes all jobs landed, those that aren't there any more included. Whatever was done before, the table is
    /// sound, and the numbers of each plan are below the bounds of their types.
    pub fn landed(&self) -> u128
        ensures value { result ≡ book_bytes self.now }
        ensures sound { IsSound self.now.table }
        ensures plans { PlansAreFit self.now.table }
    {
        let _made = self.jobs.made();
        let landed = self.jobs.landed();
        self.past + landed
    }
}

pub(crate) fn id_of(name: JobName) -> JobId
    ensures { result ≡ id_of name }
{
    JobId {
        key: 0,
        boot: name.boot,
        number: name.number,
    }
}
