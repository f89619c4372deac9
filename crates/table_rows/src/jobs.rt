//! The jobs of a destination (`job_table`).

use crate::fields::{long, tell};
use job_table::{Chunk, JobId, JobStatus, Jobs, Landing, Plan, Refused};
use nfs_base::{Handle, StateId, Status, Stop};
use outcome::Mem;
use row_text::{number, word};
use std::alloc::Global;
use std::fmt::Write;
use wire_xdr::Octets;

/// The boot number of the table.
const BOOT: u32 = 1;

/// A table of jobs, which go by their numbers, and the chunks that the last sweep claimed.
#[derive(Drop)]
pub struct JobLines {
    jobs: Jobs,
    chunks: Vec<Chunk>,
}

impl JobLines {
    pub fn new(alloc: Global, capacity: u64) -> Mem<JobLines> {
        Ok(JobLines {
            jobs: Jobs::new(alloc, BOOT, capacity)?,
            chunks: Vec::new(alloc),
        })
    }

    /// The answer to a call: `accept FILE SOFF DOFF COUNT c|n`, whose answer is `job N`, `overlap N` or `full`; `claim N`,
    /// with `OFF LEN` or `none`; `landing N OFF LEN` and `land N OFF LEN`, with `landed`, `held` or `late`; `status N`,
    /// with the bytes that landed and `running` or a status, or `gone`; `next N`, with a number or `none`; `len N`, with a
    /// length or `none`; `is N`, with what holds of the job; `landed`, with the bytes of all jobs; `sweep N STEP`, with how
    /// many chunks landed, were held and were late; and those without an answer: `case CAPACITY`, which begins a table of
    /// its own, and, where its conditions hold, `size N LEN`, with the room for it, `give_back N OFF LEN`, `stop N CAUSE`,
    /// `committed N`, `reported N` and `retire N`.
    pub fn answer(&mut self, alloc: Global, words: &[&str], text: &mut String) -> Mem<()> {
        let job = id(words);
        match word(words, 0) {
            "accept" => self.accept(alloc, words, text),
            "claim" => tell_claim(self.jobs.claim(job), text),
            "landing" | "land" => self.land(job, words, text),
            "sweep" => self.sweep(alloc, job, number(words, 2) as usize, text),
            "case" => self.begin(alloc, long(words, 1)),
            "status" | "next" | "len" | "is" | "landed" => self.tell_of(job, words, text),
            _ => self.change(job, words, text),
        }
    }

    /// The answer to a call that changes nothing.
    fn tell_of(&self, job: JobId, words: &[&str], text: &mut String) -> Mem<()> {
        match word(words, 0) {
            "status" => tell_status(self.jobs.status(job), text),
            "next" => tell_next(self.jobs.next(number(words, 1)), text),
            "len" => tell_len(self.jobs.len(job), text),
            "is" => self.state(job, text),
            _ => tell_long(self.jobs.landed(), text),
        }
    }

    fn land(&mut self, job: JobId, words: &[&str], text: &mut String) -> Mem<()> {
        let chunk = chunk(words);
        let landing = match word(words, 0) {
            "landing" => self.jobs.landing(job, chunk),
            _ => self.jobs.land(job, chunk),
        };
        tell_landing(landing, text)
    }

    /// Tells nothing of a call that was done.
    fn change(&mut self, job: JobId, words: &[&str], text: &mut String) -> Mem<()> {
        let is_done = self.is_done(job, words)?;
        tell_where(!is_done, text, "not done")
    }

    fn begin(&mut self, alloc: Global, capacity: u64) -> Mem<()> {
        self.jobs = Jobs::new(alloc, BOOT, capacity)?;
        Ok(())
    }

    fn is_done(&mut self, job: JobId, words: &[&str]) -> Mem<bool> {
        match word(words, 0) {
            "size" => self.size(job, long(words, 2)),
            "give_back" => Ok(self.give_back(job, chunk(words))),
            "stop" => Ok(self.stop(job, words)),
            "committed" => Ok(self.commit(job)),
            "reported" => Ok(self.report(job)),
            "retire" => Ok(self.retire(job)),
            _ => Ok(false),
        }
    }

    fn give_back(&mut self, job: JobId, chunk: Chunk) -> bool {
        self.jobs.give_back(job, chunk);
        true
    }

    fn size(&mut self, job: JobId, len: u64) -> Mem<bool> {
        if self.jobs.is_running(job) {
            self.reserve(job, len)?;
        }
        if self.jobs.can_size(job, len) {
            self.jobs.size(job, len);
            return Ok(true);
        }
        Ok(false)
    }

    fn reserve(&mut self, job: JobId, len: u64) -> Mem<()> {
        if self.jobs.plan(job).is_some() {
            self.jobs.reserve(job, len)?;
        }
        Ok(())
    }

    fn stop(&mut self, job: JobId, words: &[&str]) -> bool {
        match cause(words) {
            Some(cause) if self.jobs.is_running(job) => {
                self.jobs.stop(job, cause);
                true
            }
            _ => false,
        }
    }

    fn commit(&mut self, job: JobId) -> bool {
        if self.jobs.is_running(job) && self.jobs.is_whole(job) {
            self.jobs.committed(job);
            return true;
        }
        false
    }

    fn report(&mut self, job: JobId) -> bool {
        if self.jobs.is_ended(job) && !self.jobs.is_reported(job) {
            self.jobs.reported(job);
            return true;
        }
        false
    }

    fn retire(&mut self, job: JobId) -> bool {
        if self.jobs.plan(job).is_some() {
            self.jobs.retire(job);
            return true;
        }
        false
    }

    fn accept(&mut self, alloc: Global, words: &[&str], text: &mut String) -> Mem<()> {
        match plan(alloc, words) {
            Some(plan) => self.accept_plan(plan, text),
            None => tell(text, "no plan"),
        }
    }

    fn accept_plan(&mut self, plan: Plan, text: &mut String) -> Mem<()> {
        let end = u128::from(plan.dst_off) + u128::from(plan.count);
        if self.jobs.made() == u32::MAX || end > u128::from(self.jobs.capacity()) {
            return tell(text, "not to be asked");
        }
        let accepted = self.jobs.accept(plan)?;
        tell_accepted(accepted, text)
    }

    /// Tells what holds of a job: `running`, `whole`, `ended`, `reported`, each where it does, and then `-`.
    fn state(&self, job: JobId, text: &mut String) -> Mem<()> {
        tell_where(self.jobs.is_running(job), text, "running ")?;
        tell_where(self.jobs.is_whole(job), text, "whole ")?;
        tell_where(self.jobs.is_ended(job), text, "ended ")?;
        tell_where(self.jobs.is_reported(job), text, "reported ")?;
        tell(text, "-")
    }

    /// Claims what can be claimed of a job, and lands each chunk that the last sweep claimed once: the first, then always
    /// the one that lies this many places further on in the ring of them.
    fn sweep(&mut self, alloc: Global, job: JobId, step: usize, text: &mut String) -> Mem<()> {
        let claimed = self.claim_all(alloc, job)?;
        if !claimed.is_empty() {
            self.chunks = claimed;
        }
        match step.checked_rem(self.chunks.len()) {
            Some(step) => tell_swept(self.land_all(job, step), text),
            None => tell(text, "no chunks"),
        }
    }

    /// How many chunks landed, were held and were late.
    fn land_all(&mut self, job: JobId, step: usize) -> Swept {
        let count = self.chunks.len();
        let mut swept = Swept {
            landed: 0,
            held: 0,
            late: 0,
        };
        let mut at = 0usize;
        for _ in 0..count {
            if let Some(chunk) = self.chunks.get(at) {
                swept.count(self.jobs.land(job, *chunk));
            }
            at = at.saturating_add(step);
            if at >= count {
                at -= count;
            }
        }
        swept
    }

    fn claim_all(&mut self, alloc: Global, job: JobId) -> Mem<Vec<Chunk>> {
        let mut chunks = Vec::new(alloc);
        for _ in 0..u16::MAX {
            let Some(chunk) = self.jobs.claim(job) else {
                break;
            };
            chunks.push(chunk)?;
        }
        Ok(chunks)
    }
}

/// The job of the number behind the call's name. Its key is any.
fn id(words: &[&str]) -> JobId {
    JobId {
        key: usize::MAX,
        boot: BOOT,
        number: number(words, 1),
    }
}

fn chunk(words: &[&str]) -> Chunk {
    Chunk {
        off: long(words, 2),
        len: number(words, 3),
    }
}

fn plan(alloc: Global, words: &[&str]) -> Option<Plan> {
    Some(Plan {
        client: 1,
        file: number(words, 1),
        src_off: long(words, 2),
        dst_off: long(words, 3),
        count: long(words, 4),
        consecutive: word(words, 5) == "c",
        source: Handle::new(b"source")?,
        src_id: StateId {
            seqid: 1,
            kind: StateId::COPY_NOTIFY,
            boot: BOOT,
            number: 1,
        },
        secret: Octets::from_vec(Vec::new(alloc)),
        user: Octets::from_vec(Vec::new(alloc)),
    })
}

fn cause(words: &[&str]) -> Option<Stop> {
    match word(words, 2) {
        "cancelled" => Some(Stop::Cancelled),
        "lease" => Some(Stop::LeaseExpired),
        "gone" => Some(Stop::ClientGone),
        "pastend" => Some(Stop::PastEnd),
        "noroom" => Some(Stop::NoRoom),
        "disk" => Some(Stop::DiskFault),
        "link" => Some(Stop::LinkFault),
        "worn" => Some(Stop::Worn),
        "refused" => Some(Stop::SourceRefused(Status {
            number: number(words, 3),
        })),
        "sourcefault" => Some(Stop::SourceFailed(number(words, 3))),
        _ => None,
    }
}

/// How many chunks of a sweep landed, were held and were late.
#[derive(Clone, Copy)]
struct Swept {
    landed: u32,
    held: u32,
    late: u32,
}

impl Swept {
    fn count(&mut self, landing: Landing) {
        match landing {
            Landing::Landed => self.landed = self.landed.saturating_add(1),
            Landing::Held => self.held = self.held.saturating_add(1),
            Landing::Late => self.late = self.late.saturating_add(1),
        }
    }
}

fn tell_swept(swept: Swept, text: &mut String) -> Mem<()> {
    Ok(write!(text, "{} {} {}", swept.landed, swept.held, swept.late)?)
}

fn tell_accepted(accepted: Result<JobId, Refused>, text: &mut String) -> Mem<()> {
    match accepted {
        Ok(job) => tell_job("job ", job, text),
        Err(Refused::Overlap { job }) => tell_job("overlap ", job, text),
        Err(Refused::Full) => tell(text, "full"),
    }
}

fn tell_job(front: &str, job: JobId, text: &mut String) -> Mem<()> {
    Ok(write!(text, "{front}{}", job.number)?)
}

fn tell_claim(claim: Option<Chunk>, text: &mut String) -> Mem<()> {
    match claim {
        Some(Chunk { off, len }) => Ok(write!(text, "{off} {len}")?),
        None => tell(text, "none"),
    }
}

fn tell_landing(landing: Landing, text: &mut String) -> Mem<()> {
    let told = match landing {
        Landing::Landed => "landed",
        Landing::Held => "held",
        Landing::Late => "late",
    };
    tell(text, told)
}

fn tell_status(status: Option<JobStatus>, text: &mut String) -> Mem<()> {
    match status {
        Some(
            JobStatus {
                landed,
                complete,
                ..
            },
        ) => {
            tell_long(u128::from(landed), text)?;
            tell_complete(complete, text)
        }
        None => tell(text, "gone"),
    }
}

fn tell_complete(complete: Option<Status>, text: &mut String) -> Mem<()> {
    match complete {
        Some(complete) => Ok(write!(text, " {complete}")?),
        None => tell(text, " running"),
    }
}

fn tell_next(next: Option<JobId>, text: &mut String) -> Mem<()> {
    match next {
        Some(job) => tell_job("", job, text),
        None => tell(text, "none"),
    }
}

fn tell_len(len: Option<u64>, text: &mut String) -> Mem<()> {
    match len {
        Some(len) => tell_long(u128::from(len), text),
        None => tell(text, "none"),
    }
}

fn tell_long(number: u128, text: &mut String) -> Mem<()> {
    Ok(write!(text, "{number}")?)
}

fn tell_where(holds: bool, text: &mut String, what: &str) -> Mem<()> {
    if holds {
        text.push_str(what)?;
    }
    Ok(())
}
