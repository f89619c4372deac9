//! What a destination does on its jobs.

ghost use Rattle.std.specs.Prelude.{◌≡◌, ◌+◌, ◌<◌, ◌≤◌, false, length, option_copied, true, IfOk, OnErr, None, replicate};
ghost use Rattle.dest_tasks.specs.declared.post.Post.TheVariants.{Awaits, Idle};
ghost use Rattle.dest_tasks.specs.declared.seats.TheConstants.{SEATS};
ghost use Rattle.dest_tasks.specs.declared.workers.TheConstants.{WORKERS};
ghost use Rattle.dest_tasks.specs.Posts.{job_in, post_at};
ghost use Rattle.dest_tasks.specs.Tasks.{after_task};
ghost use Rattle.job_book.specs.Book.{named};
ghost use Rattle.job_book.specs.Working.{with_its};
ghost use Rattle.job_log.specs.Log.{given_back};
ghost use Rattle.mount.specs.State.{awaited_at, fresh, is_setting_up, setup_in, HasNumbers};
ghost use Rattle.mount.specs.Sending.{begun, FitsRecord};
ghost use Rattle.mount.specs.Taking.{taken_at};
ghost use Rattle.nfs_base.specs.declared.limits.TheConstants.{NAME_LIMIT};
ghost use Rattle.nfs_base.specs.declared.seal.End.TheVariants as ends;
ghost use Rattle.session_client.specs.declared.setup.Setup.TheVariants as setups;
ghost use Rattle.dest_work.specs.Work.{ask_size, asked, awaited_from, awaited_of, begun_for, claim_kept, confirm, fallen_if, falls, has_session, is_asked, is_due, is_orphan, kept_if, next_turn, plan_in, read, seen_from, set_up, settled, source_of, taken, task_at, turn, with_mount, without_call, DueFits, IfBegins, MayBegin};

use crate::finding::{Finding, finding_of};
use crate::sending::{send_confirm, send_read, send_setup, send_size, wants_nonce};
use dest_tasks::{
    Book, Chunk, Errand, Outlook, Post, SEATS, Seats, Source, Task, WORKERS, Workers, find_task,
};
use gss_mech::Mechanism;
use job_book::Plan;
use mount::{Heard, Mount, SendAt, Sent, Told};
use nfs_base::{End, JobName, Seal};
use outcome::Mem;
use sess_slots::Sessions;
use session_client::Setup;
use std::alloc::Global;

/// A destination's mount of the source, its workers, and the seats of its jobs.
#[derive(Drop)]
pub struct Work {
    pub mount: Mount,
    pub workers: Workers,
    pub seats: Seats,
}

/// What is due after a worker's turn.
#[derive(Drop)]
pub enum Due {
    /// Nothing.
    Rest,

    /// The chunk that the worker holds is to land.
    Land,

    /// A nonce is to be drawn, and INIT is to go out with it for this job.
    Begin(JobName),

    /// This call is to go out.
    Asked(Errand, Sent),

    /// The job's file is to be committed: each chunk has landed.
    Commit(JobName),
}

/// What a record is to the call that a worker awaits, and the mount afterwards.
#[derive(Drop)]
pub struct Taken {
    /// For which job the call was, and what it asked.
    pub job: JobName,
    pub errand: Errand,

    /// What the record is for the job.
    pub finding: Finding,

    /// Under which seal it was accepted, where it was accepted under one.
    pub accepted: Option<Seal>,

    pub mount: Mount,
}

impl Work {
    /// Nothing was done yet.
    pub fn new(alloc: Global) -> Work
        ensures mount { result.mount ≡ fresh ends.Source false }
        ensures workers { result.workers ≡ replicate WORKERS Idle }
        ensures seats { result.seats ≡ replicate SEATS None }
    {
        Work {
            mount: Mount::new(alloc, End::Source, false),
            workers: Workers::new(),
            seats: Seats::new(),
        }
    }

    /// A worker's turn. Where its call doesn't go out, it stays idle. Without memory all is as before.
    pub fn work<M: Mechanism>(
        &mut self,
        alloc: Global,
        at: SendAt,
        me: &[u8],
        sessions: &Sessions,
        book: &mut Book,
        mech: &M,
    ) -> Mem<Due>
        requires place { at.place < WORKERS }
        requires xid { self.old.mount.calls < at.xid }
        requires me { length me.now ≤ NAME_LIMIT }
        ensures fits { IfOk result DueFits }
        ensures due { IfOk result (λ due. due ≡ (turn M.mic_of at me.now sessions.now self.old book.old).told.0) }
        ensures after { IfOk result (λ due. self.new ≡ (turn M.mic_of at me.now sessions.now self.old book.old).told.1) }
        ensures claims { IfOk result (λ due. book.new ≡ (turn M.mic_of at me.now sessions.now self.old book.old).book) }
        ensures begins { IfOk result (λ due. IfBegins due (MayBegin at.place self.new.mount)) }
        ensures err { OnErr result (self.new ≡ self.old) }
        ensures book { OnErr result (book.new ≡ book.old) }
    {
        if self.mount.awaits(at.place) {
            return Ok(Due::Rest);
        }
        if self.workers.holds(at.place) {
            return Ok(Due::Land);
        }
        if !self.mount.has_numbers(at.place) {
            return Ok(Due::Rest);
        }
        self.do_next(alloc, at, me, sessions, book, mech)
    }

    /// An idle worker does its next task.
    fn do_next<M: Mechanism>(
        &mut self,
        alloc: Global,
        at: SendAt,
        me: &[u8],
        sessions: &Sessions,
        book: &mut Book,
        mech: &M,
    ) -> Mem<Due>
        requires place { at.place < WORKERS }
        requires xid { self.old.mount.calls < at.xid }
        requires free { awaited_at self.old.mount at.place ≡ None }
        requires left { HasNumbers self.old.mount.standing at.place }
        requires me { length me.now ≤ NAME_LIMIT }
        ensures fits { IfOk result DueFits }
        ensures due { IfOk result (λ due. due ≡ (next_turn true M.mic_of at me.now (task_at sessions.now at.now self.old book.old) self.old book.old).told.0) }
        ensures after { IfOk result (λ due. self.new ≡ (next_turn true M.mic_of at me.now (task_at sessions.now at.now self.old book.old) self.old book.old).told.1) }
        ensures claims { IfOk result (λ due. book.new ≡ (next_turn true M.mic_of at me.now (task_at sessions.now at.now self.old book.old) self.old book.old).book) }
        ensures begins { IfOk result (λ due. IfBegins due (MayBegin at.place self.new.mount)) }
        ensures err { OnErr result (self.new ≡ self.old) }
        ensures book { OnErr result (book.new ≡ book.old) }
    {
        dest_tasks::claims_go_back();
        dest_tasks::chunks_are_next();
        match self.find(sessions, at.now, book) {
            None => Ok(Due::Rest),
            Some(Task::Setup(job)) => self.set_up(alloc, at, me, job, mech),
            Some(Task::Confirm(job)) => self.confirm(alloc, at, job, book, mech),
            Some(Task::Size(job)) => self.ask_size(alloc, at, job, book, mech),
            Some(Task::Read(job, chunk)) => self.read_claimed(alloc, at, job, chunk, book, mech),
            Some(Task::Commit(job)) => Ok(Due::Commit(job)),
        }
    }

    fn find(&self, sessions: &Sessions, second: u64, book: &mut Book) -> Option<Task>
        ensures task { result ≡ task_at sessions.now second self.now book.old }
        ensures book { book.new ≡ after_task result book.old }
    {
        let source = source_of(&self.mount);
        let outlook = Outlook {
            source: &source,
            workers: &self.workers,
            seats: &self.seats,
            sessions,
            second,
        };
        find_task(book, &outlook)
    }

    fn asked(&mut self, place: u32, job: JobName, errand: Errand, sent: Option<Sent>) -> Due
        requires place { place < WORKERS }
        requires fits { FitsRecord sent }
        ensures fits { DueFits result }
        ensures due { result ≡ (asked place job errand sent self.old).0 }
        ensures after { self.new ≡ (asked place job errand sent self.old).1 }
        ensures begins { IfBegins result (MayBegin place self.new.mount) }
    {
        match sent {
            None => Due::Rest,
            Some(sent) => {
                self.workers.put(place, Post::Awaits { job, errand });
                Due::Asked(errand, sent)
            }
        }
    }

    fn set_up<M: Mechanism>(
        &mut self,
        alloc: Global,
        at: SendAt,
        me: &[u8],
        job: JobName,
        mech: &M,
    ) -> Mem<Due>
        requires place { at.place < WORKERS }
        requires xid { self.old.mount.calls < at.xid }
        requires free { awaited_at self.old.mount at.place ≡ None }
        requires me { length me.now ≤ NAME_LIMIT }
        ensures fits { IfOk result DueFits }
        ensures due { IfOk result (λ due. due ≡ (set_up M.mic_of at me.now job self.old).0) }
        ensures after { IfOk result (λ due. self.new ≡ (set_up M.mic_of at me.now job self.old).1) }
        ensures begins { IfOk result (λ due. IfBegins due (MayBegin at.place self.new.mount)) }
        ensures err { OnErr result (self.new ≡ self.old) }
    {
        if self.mount.is_setting_up() {
            return Ok(Due::Rest);
        }
        if wants_nonce(&self.mount) {
            return Ok(Due::Begin(job));
        }
        let sent = send_setup(alloc, &mut self.mount, at, me, mech)?;
        Ok(self.asked(at.place, job, Errand::Setup, sent))
    }

    /// INIT for a job, with a nonce that was drawn. None where the principal isn't of the realm: the job is to be stopped,
    /// and nothing changes. Without memory nothing changes either.
    pub fn begin<M: Mechanism>(
        &mut self,
        alloc: Global,
        at: SendAt,
        me: &[u8],
        job: JobName,
        nonce: &[u8; 32],
        mech: &M,
    ) -> Mem<Option<Sent>>
        requires place { at.place < WORKERS }
        requires xid { self.old.mount.calls < at.xid }
        requires free { awaited_at self.old.mount at.place ≡ None }
        requires down { setup_in self.old.mount.standing ≡ setups.Down }
        requires alone { is_setting_up self.old.mount ≡ false }
        ensures fits { IfOk result FitsRecord }
        ensures sent { IfOk result (λ sent. sent ≡ (begun_for at.place job (begun at nonce.now (M.started mech.now me.now nonce.now) self.old.mount) self.old).0) }
        ensures after { IfOk result (λ sent. self.new ≡ (begun_for at.place job (begun at nonce.now (M.started mech.now me.now nonce.now) self.old.mount) self.old).1) }
        ensures err { OnErr result (self.new ≡ self.old) }
    {
        let Some(sent) = self.mount.begin(alloc, at, me, nonce, mech)? else {
            return Ok(None);
        };
        self.workers.put(
            at.place,
            Post::Awaits {
                job,
                errand: Errand::Setup,
            },
        );
        Ok(Some(sent))
    }

    fn confirm<M: Mechanism>(
        &mut self,
        alloc: Global,
        at: SendAt,
        job: JobName,
        book: &Book,
        mech: &M,
    ) -> Mem<Due>
        requires place { at.place < WORKERS }
        requires xid { self.old.mount.calls < at.xid }
        requires free { awaited_at self.old.mount at.place ≡ None }
        ensures fits { IfOk result DueFits }
        ensures due { IfOk result (λ due. due ≡ (confirm M.mic_of at job book.now self.old).0) }
        ensures after { IfOk result (λ due. self.new ≡ (confirm M.mic_of at job book.now self.old).1) }
        ensures begins { IfOk result (λ due. IfBegins due (MayBegin at.place self.new.mount)) }
        ensures err { OnErr result (self.new ≡ self.old) }
    {
        let Some(seat) = self.seats.of(job.number) else {
            return Ok(Due::Rest);
        };
        let Some(plan) = plan_of(book, job) else {
            return Ok(Due::Rest);
        };
        let sent = send_confirm(alloc, &mut self.mount, at, seat as u32, plan, mech)?;
        Ok(self.asked(at.place, job, Errand::Confirm, sent))
    }

    fn ask_size<M: Mechanism>(
        &mut self,
        alloc: Global,
        at: SendAt,
        job: JobName,
        book: &Book,
        mech: &M,
    ) -> Mem<Due>
        requires place { at.place < WORKERS }
        requires xid { self.old.mount.calls < at.xid }
        requires free { awaited_at self.old.mount at.place ≡ None }
        requires left { HasNumbers self.old.mount.standing at.place }
        ensures fits { IfOk result DueFits }
        ensures due { IfOk result (λ due. due ≡ (ask_size M.mic_of at job book.now self.old).0) }
        ensures after { IfOk result (λ due. self.new ≡ (ask_size M.mic_of at job book.now self.old).1) }
        ensures begins { IfOk result (λ due. IfBegins due (MayBegin at.place self.new.mount)) }
        ensures err { OnErr result (self.new ≡ self.old) }
    {
        let Some(seat) = self.seats.of(job.number) else {
            return Ok(Due::Rest);
        };
        let Some(plan) = plan_of(book, job) else {
            return Ok(Due::Rest);
        };
        let sent = send_size(alloc, &mut self.mount, at, seat as u32, plan, mech)?;
        Ok(self.asked(at.place, job, Errand::Size, sent))
    }

    fn read<M: Mechanism>(
        &mut self,
        alloc: Global,
        at: SendAt,
        job: JobName,
        chunk: Chunk,
        book: &Book,
        mech: &M,
    ) -> Mem<Due>
        requires place { at.place < WORKERS }
        requires xid { self.old.mount.calls < at.xid }
        requires free { awaited_at self.old.mount at.place ≡ None }
        requires left { HasNumbers self.old.mount.standing at.place }
        ensures fits { IfOk result DueFits }
        ensures due { IfOk result (λ due. due ≡ (read M.mic_of at job chunk book.now self.old).0) }
        ensures after { IfOk result (λ due. self.new ≡ (read M.mic_of at job chunk book.now self.old).1) }
        ensures begins { IfOk result (λ due. IfBegins due (MayBegin at.place self.new.mount)) }
        ensures err { OnErr result (self.new ≡ self.old) }
    {
        let Some(seat) = self.seats.of(job.number) else {
            return Ok(Due::Rest);
        };
        let Some(plan) = plan_of(book, job) else {
            return Ok(Due::Rest);
        };
        if plan.src_off.checked_add(chunk.off).is_none() {
            return Ok(Due::Rest);
        }
        let sent = send_read(alloc, &mut self.mount, at, seat as u32, plan, chunk, mech)?;
        Ok(self.asked(at.place, job, Errand::Bytes(chunk), sent))
    }

    /// A chunk that isn't asked for is given back.
    fn read_claimed<M: Mechanism>(
        &mut self,
        alloc: Global,
        at: SendAt,
        job: JobName,
        chunk: Chunk,
        book: &mut Book,
        mech: &M,
    ) -> Mem<Due>
        requires place { at.place < WORKERS }
        requires xid { self.old.mount.calls < at.xid }
        requires free { awaited_at self.old.mount at.place ≡ None }
        requires left { HasNumbers self.old.mount.standing at.place }
        ensures fits { IfOk result DueFits }
        ensures due { IfOk result (λ due. due ≡ (read M.mic_of at job chunk book.old self.old).0) }
        ensures after { IfOk result (λ due. self.new ≡ (read M.mic_of at job chunk book.old self.old).1) }
        ensures begins { IfOk result (λ due. IfBegins due (MayBegin at.place self.new.mount)) }
        ensures kept { IfOk result (λ due. book.new ≡ claim_kept due job chunk book.old) }
        ensures err { OnErr result (self.new ≡ self.old) }
        ensures given_back { OnErr result (book.new ≡ with_its job (λ log. given_back log chunk) book.old) }
    {
        let told = self.read(alloc, at, job, chunk, book, mech);
        match told {
            Ok(due) => {
                keep_claim(&due, job, chunk, book);
                Ok(due)
            }
            Err(error) => {
                book.give_back(job, chunk);
                Err(error)
            }
        }
    }

    /// What a record is to the call that a worker awaits, at a principal's end. None where it awaits none. Nothing changes until
    /// [`Work::settle_to`].
    pub fn take<M: Mechanism>(
        &self,
        alloc: Global,
        place: u32,
        me: &[u8],
        record_: &[u8],
        book: &Book,
        mech: &M,
    ) -> Mem<Option<Taken>>
        requires { place < WORKERS }
        ensures { IfOk result (λ told. told ≡ taken place book.now.table self.now (taken_at (record { mic = M.mic_of; derived = M.derived; finished = M.finished mech.now me.now }) place record_.now self.now.mount)) }
    {
        let Some((job, errand)) = self.workers.asks(place) else {
            return Ok(None);
        };
        let mut mount = self.mount.copy(alloc)?;
        let heard = mount.take(alloc, place, me, record_, mech)?;
        let Heard { told, accepted } = heard;
        let orphan = is_orphan(&told, job, book);
        let mut mount = self.keep_if(alloc, orphan, place, mount)?;
        fall_if(&mut mount, falls(errand, &told));
        let finding = finding_of(errand, self.seats.was_denied(job.number), told);
        Ok(Some(Taken {
            job,
            errand,
            finding,
            accepted,
            mount,
        }))
    }

    /// A context that is nobody's isn't taken into the mount, and its call is given up.
    fn keep_if(&self, alloc: Global, orphan: bool, place: u32, mount: Mount) -> Mem<Mount>
        requires { place < WORKERS }
        ensures { IfOk result (λ after. after ≡ kept_if orphan place self.now.mount mount) }
    {
        if !orphan {
            return Ok(mount);
        }
        let mut mount = self.mount.copy(alloc)?;
        mount.give_up(place);
        Ok(mount)
    }

    /// The mount is this one from now on, and the workers are idle whose answers came or were given up.
    pub fn settle_to(&mut self, mount: Mount)
        ensures { self.new ≡ settled (with_mount mount self.old) }
    {
        self.mount = mount;
        self.settle();
    }

    /// A worker's link failed: the call that it awaits is given up. It tells for which job that was, or the chunk that it
    /// holds, which it keeps.
    pub fn link_failed(&mut self, place: u32) -> Option<JobName>
        requires { place < WORKERS }
        ensures job { result ≡ job_in (post_at self.old.workers place) }
        ensures after { self.new ≡ without_call place self.old }
    {
        let job = self.workers.job(place);
        self.mount.give_up(place);
        self.settle();
        job
    }

    /// The workers whose answers came or were given up are idle.
    fn settle(&mut self)
        ensures { self.new ≡ settled self.old }
    {
        let awaited = awaited_of(&self.mount);
        self.workers.follow(&awaited);
    }
}

fn plan_of(book: &Book, job: JobName) -> Option<&Plan>
    ensures { option_copied result ≡ plan_in (named book.now.table job) }
{
    book.plan(job)
}

/// A chunk that isn't asked for isn't claimed any more.
fn keep_claim(due: &Due, job: JobName, chunk: Chunk, book: &mut Book)
    ensures { book.new ≡ claim_kept due.now job chunk book.old }
{
    if !is_asked(due) {
        book.give_back(job, chunk);
    }
}

fn is_asked(due: &Due) -> bool
    ensures { result ≡ is_asked due.now }
{
    matches!(due, Due::Asked(_, _))
}

/// Whether a call that was last sent in this second is to go out again.
pub fn is_due(sent_at: Option<u64>, now: u64) -> bool
    ensures { result ≡ is_due sent_at now }
{
    match sent_at {
        None => false,
        Some(sent_at) => now.saturating_sub(sent_at) >= AGAIN_SECONDS,
    }
}

/// After how many seconds without an answer a call is sent again.
pub const AGAIN_SECONDS: u64 = 30;

fn source_of(mount: &Mount) -> Source
    ensures { result ≡ source_of mount.now }
{
    let mut contexts = [false; SEATS as usize];
    see_from(mount, &mut contexts, SEATS, 0);
    Source {
        session: has_session(mount),
        setting_up: mount.is_setting_up(),
        contexts,
    }
}

#[tactic(auto, unfolding(crate::specs::Work::seen_from))]
fn see_from(mount: &Mount, seen: &mut [bool; SEATS as usize], left: u32, seat: u32)
    requires { seat + left ≤ SEATS }
    ensures { seen.new ≡ seen_from mount.now left seat seen.old }
{
    if left == 0 {
        return;
    }
    seen[seat as usize] = mount.has_child(seat);
    see_from(mount, seen, left - 1, seat + 1);
}

fn has_session(mount: &Mount) -> bool
    ensures { result ≡ has_session mount.now }
{
    match mount.setup() {
        Setup::Down => false,
        Setup::Rooted { .. } => false,
        Setup::Registered { .. } => false,
        Setup::Joined { .. } => true,
        Setup::Up { .. } => true,
    }
}

fn awaited_of(mount: &Mount) -> [bool; WORKERS as usize]
    ensures { result ≡ awaited_of mount.now }
{
    let mut awaited = [false; WORKERS as usize];
    await_from(mount, &mut awaited, WORKERS, 0);
    awaited
}

#[tactic(auto, unfolding(crate::specs::Work::awaited_from))]
fn await_from(mount: &Mount, awaited: &mut [bool; WORKERS as usize], left: u32, place: u32)
    requires { place + left ≤ WORKERS }
    ensures { awaited.new ≡ awaited_from mount.now left place awaited.old }
{
    if left == 0 {
        return;
    }
    awaited[place as usize] = mount.awaits(place);
    await_from(mount, awaited, left - 1, place + 1);
}

/// Whether a context was made for a job that isn't in the book any more.
fn is_orphan(told: &Told, job: JobName, book: &Book) -> bool
    ensures { result ≡ is_orphan told.now job book.now.table }
{
    matches!(told, Told::Child(_)) && book.client(job).is_none()
}

fn fall_if(mount: &mut Mount, falls: bool)
    ensures { mount.new ≡ fallen_if falls mount.old }
{
    if falls {
        mount.fall();
    }
}

/// Whether the mount begins again by what an answer to a CREATE is.
fn falls(errand: Errand, told: &Told) -> bool
    ensures { result ≡ falls errand told.now }
{
    matches!(errand, Errand::Confirm) && matches!(told, Told::Denied(_))
}
