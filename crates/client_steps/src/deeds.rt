//! What an answer comes to.

ghost use Rattle.std.specs.Prelude.{◌≡◌, ◌<◌, option_copied};
ghost use Rattle.client_copies.specs.declared.table.TheConstants.{MOST_COPIES};
ghost use Rattle.client_steps.specs.CopySteps.{copy_in};
ghost use Rattle.mount.specs.Taking.{is_lost};
ghost use Rattle.client_steps.specs.Answers as spec;
ghost use Rattle.write_queue.specs.Plan.{planned};

use crate::copy_steps::file_of;
use crate::desk::Desk;
use call_results::{
    Granted, Opened, Written, accepted_in, change_in, committed_in, grant_in, open_in, progress_in,
    written_in,
};
use client_copies::{ClientCopy, Event, First, Query, Refusal, Session, Stage, Step};
use client_site::OpenFile;
use copy_ops::OffloadProgress;
use mount::Told;
use nfs_base::{Side, StateId, Status};
use nfs_compound::{Reply, Res};
use write_queue::{Head, QueueEvent, QueuePlan, Work, WriteQueue};

/// What an answer comes to.
#[derive(Clone, Copy)]
pub enum Deed {
    /// Nothing.
    Rests,

    /// The setup goes on.
    Goes,

    /// The setup goes down, with this status.
    Falls(Status),

    /// A file is open, for the one that sent the OPEN.
    Opens(OpenFile),

    /// Something happens to the queue's first work.
    Queue(QueueEvent),

    /// Something happens to the copy.
    Copy(Event),

    /// The copy is accepted, under this stateid.
    Starts(StateId),
}

/// What the answer to a call of a setup comes to.
pub fn setup_deed(told: &Told) -> Deed
    ensures { result ≡ spec.setup_deed told.now }
{
    match told {
        Told::Rooted | Told::Stepped => Deed::Goes,
        Told::Refused(_) => Deed::Falls(Status::ACCESS),
        Told::Stopped(status) => Deed::Falls(*status),
        Told::Misspelt => Deed::Falls(failed(0)),
        Told::Failed(stat) => Deed::Falls(failed(stat.number())),
        Told::Denied(_) => Deed::Falls(Status::BADSESSION),
        Told::Unmatched | Told::Child(_) | Told::Answer(_) => Deed::Rests,
    }
}

fn failed(accept_stat: u32) -> Status
    ensures { result ≡ spec.failed accept_stat }
{
    Refusal::Failed(accept_stat).status()
}

/// Whether a status says that the session is gone, or the client.
fn is_lost(status: Status) -> bool
    ensures { result ≡ is_lost status }
{
    status.number == Status::BADSESSION.number || status.number == Status::STALE_CLIENTID.number
}

fn is_ok(status: Status) -> bool
    ensures { result ≡ spec.is_ok status }
{
    status.number == 0
}

/// What the answer to a call of a queue's first work comes to.
pub fn work_deed(told: &Told, plan: &QueuePlan, queue: &WriteQueue) -> Deed
    ensures { result ≡ spec.work_deed told.now (planned plan.now queue.now) }
{
    match told {
        Told::Answer(reply) => work_answered(reply, plan.head(), plan.first(queue)),
        Told::Misspelt => refuse_work(Refusal::Failed(0)),
        Told::Failed(stat) => refuse_work(Refusal::Failed(stat.number())),
        Told::Denied(_) => Deed::Falls(Status::BADSESSION),
        Told::Refused(_) => refuse_work(Refusal::NotAllowed),
        Told::Unmatched | Told::Rooted | Told::Child(_) | Told::Stepped | Told::Stopped(_) =>
            Deed::Rests,
    }
}

fn refuse_work(why: Refusal) -> Deed
    ensures { result ≡ spec.refuse_work why }
{
    Deed::Queue(QueueEvent::Refused(why.status()))
}

fn work_answered(reply: &Reply, head: Head, work: Option<&Work>) -> Deed
    ensures { result ≡ spec.work_answered (is_lost reply.now.status) (spec.is_ok reply.now.status) reply.now head (option_copied work.entry) }
{
    if is_lost(reply.status) {
        return Deed::Falls(Status::BADSESSION);
    }
    if !is_ok(reply.status) {
        return refuse_work(Refusal::Answered(reply.status));
    }
    let results = reply.results.as_slice();
    match head {
        Head::Opening => work_opened(open_in(results), work),
        Head::Due | Head::Asked => work_done(written_in(results), results),
    }
}

fn work_opened(opened: Option<Opened>, work: Option<&Work>) -> Deed
    ensures { result ≡ spec.work_opened opened (option_copied work.entry) }
{
    let Some(opened) = opened else {
        return refuse_work(Refusal::Failed(0));
    };
    let Some(work) = work else {
        return refuse_work(Refusal::Failed(0));
    };
    Deed::Opens(OpenFile {
        file: work.file(),
        handle: opened.handle,
        id: opened.id,
    })
}

fn work_done(written: Option<Written>, results: &[Res]) -> Deed
    ensures { result ≡ spec.work_done written results.now }
{
    let Some(written) = written else {
        return work_committed(committed_in(results));
    };
    let verifier = written.verifier;
    Deed::Queue(QueueEvent::Written {
        count: written.count,
        verifier,
    })
}

fn work_committed(verifier: Option<[u8; 8]>) -> Deed
    ensures { result ≡ spec.work_committed verifier }
{
    match verifier {
        None => refuse_work(Refusal::Failed(0)),
        Some(verifier) => Deed::Queue(QueueEvent::Committed { verifier }),
    }
}

impl Desk {
    /// What the answer to a copy's call comes to, which was last sent at `sent_at`.
    pub fn copy_deed(&self, told: &Told, side: Side, j: u32, sent_at: u64) -> Deed
        requires { j < MOST_COPIES }
        ensures { result ≡ spec.copy_deed told.now side (copy_in j self.now) sent_at self.now }
    {
        match self.copy(j) {
            None => Deed::Rests,
            Some(copy) => self.copy_by(told, side, &copy, sent_at),
        }
    }

    fn copy_by(&self, told: &Told, side: Side, copy: &ClientCopy, sent_at: u64) -> Deed
        ensures { result ≡ spec.copy_by told.now side copy.now sent_at self.now }
    {
        let query = query_of(side, copy);
        match told {
            Told::Answer(reply) => self.copy_answered(reply, query, side, copy, sent_at),
            Told::Child(_) => Deed::Copy(Event::Allowed),
            Told::Refused(_) => refuse_call(query, Refusal::NotAllowed),
            Told::Misspelt => refuse_call(query, Refusal::Failed(0)),
            Told::Failed(stat) => refuse_call(query, Refusal::Failed(stat.number())),
            Told::Denied(_) => denied_by(stage_creates(side, copy.stage), query),
            Told::Unmatched | Told::Rooted | Told::Stepped | Told::Stopped(_) => Deed::Rests,
        }
    }

    fn copy_answered(
        &self,
        reply: &Reply,
        query: Option<Query>,
        side: Side,
        copy: &ClientCopy,
        sent_at: u64,
    ) -> Deed
        requires { query ≡ spec.query_of side copy.now }
        ensures { result ≡ spec.copy_answered (is_lost reply.now.status) (spec.is_ok reply.now.status) side copy.now reply.now sent_at self.now }
    {
        if is_lost(reply.status) {
            return Deed::Falls(Status::BADSESSION);
        }
        if !is_ok(reply.status) {
            return refuse_call(query, Refusal::Answered(reply.status));
        }
        let results = reply.results.as_slice();
        match query {
            None => self.stage_told(side, copy, results),
            Some(query) => query_told(query, results, sent_at),
        }
    }

    fn stage_told(&self, side: Side, copy: &ClientCopy, results: &[Res]) -> Deed
        ensures { result ≡ spec.stage_told copy.now.stage side copy.now results.now self.now }
    {
        match copy.stage {
            Stage::Asked(step) => self.step_told(step, side, copy, results),
            Stage::Due(_) | Stage::Accepted | Stage::Over(_) => Deed::Rests,
        }
    }

    fn step_told(&self, step: Step, side: Side, copy: &ClientCopy, results: &[Res]) -> Deed
        ensures { result ≡ spec.step_told step side copy.now results.now self.now }
    {
        match step {
            Step::OpenSource | Step::OpenDest | Step::OpenAgain => {
                copy_opened(side, copy, open_in(results))
            }
            Step::Notify => {
                let opened_file = self.file(Side::Source, copy.spec.src_file);
                granted_by(grant_in(results), self.source.session(), opened_file)
            }
            Step::Copy => accepted_by(accepted_in(results)),
            Step::Last => last_told(change_in(results), self.source.session()),
            Step::AllowSource | Step::AllowDest => Deed::Rests,
        }
    }
}

/// What is asked of the destination while a copy goes on there.
pub fn query_of(side: Side, copy: &ClientCopy) -> Option<Query>
    ensures { result ≡ spec.query_of side copy.now }
{
    match side {
        Side::Source => None,
        Side::Dest => copy.query,
    }
}

fn refuse_call(query: Option<Query>, why: Refusal) -> Deed
    ensures { result ≡ spec.refuse_call query why }
{
    match query {
        None => Deed::Copy(Event::Refused(why)),
        Some(_) => Deed::Copy(Event::QueryRefused(why)),
    }
}

fn refuse_step() -> Deed
    ensures { result ≡ spec.refuse_step }
{
    Deed::Copy(Event::Refused(Refusal::Failed(0)))
}

fn query_told(query: Query, results: &[Res], sent_at: u64) -> Deed
    ensures { result ≡ spec.query_told query results.now sent_at }
{
    match query {
        Query::Status => progressed(progress_in(results), sent_at),
        Query::Cancel => Deed::Copy(Event::Cancelled),
    }
}

fn progressed(progress: Option<OffloadProgress>, sent_at: u64) -> Deed
    ensures { result ≡ spec.progressed progress sent_at }
{
    let Some(progress) = progress else {
        return Deed::Copy(Event::QueryRefused(Refusal::Failed(0)));
    };
    Deed::Copy(Event::Progressed {
        count: progress.count,
        complete: progress.complete,
        sent_at,
    })
}

fn copy_opened(side: Side, copy: &ClientCopy, opened: Option<Opened>) -> Deed
    ensures { result ≡ spec.copy_opened side copy.now opened }
{
    let Some(opened) = opened else {
        return refuse_step();
    };
    Deed::Opens(OpenFile {
        file: file_of(side, &copy.spec),
        handle: opened.handle,
        id: opened.id,
    })
}

fn granted_by(
    granted: Option<Granted>,
    session: Option<Session>,
    opened_file: Option<OpenFile>,
) -> Deed
    ensures { result ≡ spec.granted_by granted session opened_file }
{
    let Some(granted) = granted else {
        return refuse_step();
    };
    let Some(session) = session else {
        return refuse_step();
    };
    let Some(opened_file) = opened_file else {
        return refuse_step();
    };
    Deed::Copy(Event::Granted(First {
        file: opened_file.handle,
        change: granted.change,
        session,
        grant: granted.id,
    }))
}

fn accepted_by(id: Option<StateId>) -> Deed
    ensures { result ≡ spec.accepted_by id }
{
    match id {
        None => refuse_step(),
        Some(id) => Deed::Starts(id),
    }
}

fn last_told(change: Option<u64>, session: Option<Session>) -> Deed
    ensures { result ≡ spec.last_told change session }
{
    let Some(change) = change else {
        return refuse_step();
    };
    let Some(session) = session else {
        return refuse_step();
    };
    Deed::Copy(Event::Told { change, session })
}

/// Whether a copy awaits the answer to CREATE of a server.
fn stage_creates(side: Side, stage: Stage) -> bool
    ensures { result ≡ spec.stage_creates side stage }
{
    match side {
        Side::Source => matches!(stage, Stage::Asked(Step::AllowSource)),
        Side::Dest => matches!(stage, Stage::Asked(Step::AllowDest)),
    }
}

fn denied_by(creates: bool, query: Option<Query>) -> Deed
    ensures { result ≡ spec.denied_by creates query }
{
    if creates {
        refuse_call(query, Refusal::NotAllowed)
    } else {
        Deed::Falls(Status::BADSESSION)
    }
}
