//! What is due in a worker's turn.

ghost use Rattle.dest_steps.specs.Sending.{TurnMaySend};
ghost use Rattle.std.specs.Prelude.{◌≡◌, ◌<◌, ◌≤◌, IfOk, OnErr, length, false, true, None};
ghost use Rattle.dest_steps.specs.Turning.{asked_turn, begun_turn, committing, held_landing, is_quiet, with_turn, IsDrawn, IsDue, IsTurnOf};
ghost use Rattle.dest_jobs.specs.Counting.{KeepsLanded};
ghost use Rattle.dest_steps.specs.Telling.{stop_telling};
ghost use Rattle.dest_steps.specs.declared.turning.Turn.TheVariants as turns;
ghost use Rattle.dest_tasks.specs.Posts.{job_in, post_at};
ghost use Rattle.dest_tasks.specs.declared.workers.TheConstants.{WORKERS};
ghost use Rattle.dest_work.specs.Work.{begun_for, turn, DueFits, IfBegins, MayBegin};
ghost use Rattle.rpc_msg.specs.declared.records.TheConstants.{RECORD_LIMIT};
ghost use Rattle.mount.specs.Sending.{begun};
ghost use Rattle.mount.specs.State.{awaited_at, is_setting_up, setup_in};
ghost use Rattle.nfs_base.specs.declared.limits.TheConstants.{NAME_LIMIT};
ghost use Rattle.outcome.specs.Causes.{Rose};
ghost use Rattle.session_client.specs.declared.setup.Setup.TheVariants as setups;
ghost use Rattle.dest_steps.specs.Copier.{around_of};

use crate::around::Here;
use crate::calls::{errand_label, workers_call};
use crate::copier::Copier;
use crate::landing::Landing;
use crate::telling::Telling;
use dest_tasks::Errand;
use dest_work::Due;
use gss_mech::Mechanism;
use mount::{SendAt, Sent};
use nfs_base::{JobName, NAME_LIMIT, Status, Stop};
use outbox::{CallLabel, Outgoing};
use outcome::Mem;
use sess_slots::Sessions;
use session_client::Setup;
use std::alloc::Global;
use streams::{Drawn, Draws};

/// What is due in a worker's turn, once there is all memory for it.
#[derive(Drop)]
pub enum Turn {
    /// Nothing.
    Rest,

    /// Nothing, since a draw failed.
    Undrawn,

    /// This call went out.
    Sent(Outgoing),

    /// A job is to be stopped.
    Stops(JobName, Stop, Telling),

    /// The chunk that the worker holds is to land.
    Lands(Option<Landing>),

    /// A job's file is to be committed.
    Commits(JobName, Committing),
}

/// What is told once a job's file was committed, and where that failed.
#[derive(Drop)]
pub struct Committing {
    pub done: Telling,
    pub fault: Telling,
}

impl Copier {
    /// What is due in a worker's turn. A call goes out by that, and a chunk is claimed. Without memory nothing changes but what
    /// is drawn.
    pub fn turn<M: Mechanism, W: Draws>(
        &mut self,
        alloc: Global,
        place: u32,
        sessions: &Sessions,
        here: Here,
        mech: &M,
        draws: &mut W,
    ) -> Mem<Turn>
        requires place { place < WORKERS }
        ensures short { IfOk result TurnMaySend }
        ensures turn { IfOk result (λ turn. IsTurnOf W.gives (M.started mech.now) (record { mic = M.mic_of; derived = M.derived }) (around_of sessions.now here) place self.old draws.old draws.new (turn, self.new)) }
        ensures undrawn { IfOk result (λ turn. turn ≡ turns.Undrawn → Rose (W.faults draws.old) (W.faults draws.new)) }
        ensures given { self.new.copies.book.table.made ≡ self.old.copies.book.table.made }
        ensures keeps { KeepsLanded self.old.copies self.new.copies }
        ensures told { self.new.copies.told ≡ self.old.copies.told }
        ensures err { OnErr result (self.new ≡ self.old) }
        ensures later { W.faults draws.old ≤ W.faults draws.new }
        ensures failing { W.failing draws.new ≡ W.failing draws.old }
    {
        if self.principal.len() > NAME_LIMIT as usize {
            return Ok(Turn::Rest);
        }
        let Some(xid) = self.next_xid() else {
            return Ok(Turn::Rest);
        };
        let at = SendAt {
            place,
            xid,
            now: here.second,
        };
        let setup = self.work.mount.setup();
        let due = self.next_due(alloc, at, sessions, here, mech)?;
        self.ready(alloc, at, setup, due, sessions, here, mech, draws)
    }

    /// All memory is taken for what is due.
    fn ready<M: Mechanism, W: Draws>(
        &mut self,
        alloc: Global,
        at: SendAt,
        setup: Setup,
        due: Due,
        sessions: &Sessions,
        here: Here,
        mech: &M,
        draws: &mut W,
    ) -> Mem<Turn>
        requires place { at.place < WORKERS }
        requires fits { DueFits due }
        requires begins { IfBegins due (MayBegin at.place self.old.work.mount) }
        requires numbered { IfBegins due (self.old.work.mount.calls < at.xid) }
        ensures short { IfOk result TurnMaySend }
        ensures due { IfOk result (λ turn. IsDue W.gives (M.started mech.now) (record { mic = M.mic_of; derived = M.derived }) (around_of sessions.now here) at setup due self.old draws.old draws.new (turn, self.new)) }
        ensures undrawn { IfOk result (λ turn. turn ≡ turns.Undrawn → Rose (W.faults draws.old) (W.faults draws.new)) }
        ensures copies { self.new.copies ≡ self.old.copies }
        ensures err { OnErr result (self.new ≡ self.old) }
        ensures quiet { OnErr result (is_quiet due ≡ true) }
        ensures later { W.faults draws.old ≤ W.faults draws.new }
        ensures failing { W.failing draws.new ≡ W.failing draws.old }
    {
        match due {
            Due::Rest => Ok(Turn::Rest),
            Due::Land => self.lands(alloc, at.place, sessions, here, mech),
            Due::Begin(job) => self.begins(alloc, at, job, sessions, here, mech, draws),
            Due::Asked(errand, sent) => Ok(asked(at.place, errand_label(errand, setup), sent)),
            Due::Commit(job) => self.commits(alloc, job, sessions, here, mech),
        }
    }

    fn next_due<M: Mechanism>(
        &mut self,
        alloc: Global,
        at: SendAt,
        sessions: &Sessions,
        here: Here,
        mech: &M,
    ) -> Mem<Due>
        requires place { at.place < WORKERS }
        requires second { at.now ≡ here.second }
        requires xid { self.old.work.mount.calls < at.xid }
        requires me { length self.old.principal ≤ NAME_LIMIT }
        ensures begins { IfOk result (λ due. IfBegins due (MayBegin at.place self.new.work.mount)) }
        ensures given { self.new.copies.book.table.made ≡ self.old.copies.book.table.made }
        ensures keeps { KeepsLanded self.old.copies self.new.copies }
        ensures told { self.new.copies.told ≡ self.old.copies.told }
        ensures fits { IfOk result DueFits }
        ensures due { IfOk result (λ due. due ≡ (turn M.mic_of at self.old.principal sessions.now self.old.work self.old.copies.book).told.0) }
        ensures after { IfOk result (λ due. self.new ≡ with_turn (turn M.mic_of at self.old.principal sessions.now self.old.work self.old.copies.book) self.old) }
        ensures err { OnErr result (self.new ≡ self.old) }
    {
        self.work.work(
            alloc,
            at,
            self.principal.as_slice(),
            sessions,
            &mut self.copies.book,
            mech,
        )
    }

    fn lands<M: Mechanism>(
        &self,
        alloc: Global,
        place: u32,
        sessions: &Sessions,
        here: Here,
        mech: &M,
    ) -> Mem<Turn>
        requires { place < WORKERS }
        ensures short { IfOk result TurnMaySend }
        ensures turn { IfOk result (λ turn. turn ≡ turns.Lands (held_landing (record { mic = M.mic_of; derived = M.derived }) (around_of sessions.now here) (job_in (post_at self.now.work.workers place)) self.now)) }
    {
        match self.work.workers.job(place) {
            Some(job) => Ok(Turn::Lands(self.landing(alloc, job, sessions, here, mech)?)),
            None => Ok(Turn::Lands(None)),
        }
    }

    /// INIT goes out with a nonce that is drawn.
    fn begins<M: Mechanism, W: Draws>(
        &mut self,
        alloc: Global,
        at: SendAt,
        job: JobName,
        sessions: &Sessions,
        here: Here,
        mech: &M,
        draws: &mut W,
    ) -> Mem<Turn>
        requires place { at.place < WORKERS }
        requires xid { self.old.work.mount.calls < at.xid }
        requires free { awaited_at self.old.work.mount at.place ≡ None }
        requires down { setup_in self.old.work.mount.standing ≡ setups.Down }
        requires alone { is_setting_up self.old.work.mount ≡ false }
        ensures short { IfOk result TurnMaySend }
        ensures drawn { IfOk result (λ turn. IsDrawn W.gives (M.started mech.now) (record { mic = M.mic_of; derived = M.derived }) (around_of sessions.now here) at job self.old draws.old draws.new (turn, self.new)) }
        ensures undrawn { IfOk result (λ turn. turn ≡ turns.Undrawn → Rose (W.faults draws.old) (W.faults draws.new)) }
        ensures copies { self.new.copies ≡ self.old.copies }
        ensures err { OnErr result (self.new ≡ self.old) }
        ensures later { W.faults draws.old ≤ W.faults draws.new }
        ensures failing { W.failing draws.new ≡ W.failing draws.old }
    {
        match draws.draw() {
            Drawn::Got(nonce) => self.begin(alloc, at, job, &nonce, sessions, here, mech),
            Drawn::Failed => Ok(Turn::Undrawn),
        }
    }

    /// Where the principal isn't of the source's realm, the job is to be stopped.
    fn begin<M: Mechanism>(
        &mut self,
        alloc: Global,
        at: SendAt,
        job: JobName,
        nonce: &[u8; 32],
        sessions: &Sessions,
        here: Here,
        mech: &M,
    ) -> Mem<Turn>
        requires place { at.place < WORKERS }
        requires xid { self.old.work.mount.calls < at.xid }
        requires free { awaited_at self.old.work.mount at.place ≡ None }
        requires down { setup_in self.old.work.mount.standing ≡ setups.Down }
        requires alone { is_setting_up self.old.work.mount ≡ false }
        ensures short { IfOk result TurnMaySend }
        ensures turn { IfOk result (λ turn. turn ≡ (begun_turn (record { mic = M.mic_of; derived = M.derived }) (around_of sessions.now here) at.place job (begun_for at.place job (begun at nonce.now (M.started mech.now self.old.principal nonce.now) self.old.work.mount) self.old.work) self.old).0) }
        ensures after { IfOk result (λ turn. self.new ≡ (begun_turn (record { mic = M.mic_of; derived = M.derived }) (around_of sessions.now here) at.place job (begun_for at.place job (begun at nonce.now (M.started mech.now self.old.principal nonce.now) self.old.work.mount) self.old.work) self.old).1) }
        ensures drawn { IfOk result (λ turn. turn ≡ turns.Undrawn → ⊥) }
        ensures copies { self.new.copies ≡ self.old.copies }
        ensures err { OnErr result (self.new ≡ self.old) }
    {
        let begun = self
            .work
            .begin(alloc, at, self.principal.as_slice(), job, nonce, mech)?;
        match begun {
            Some(sent) => Ok(asked(at.place, CallLabel::Init, sent)),
            None => self.stops(
                alloc,
                job,
                Stop::SourceRefused(Status::PARTNER_NO_AUTH),
                sessions,
                here,
                mech,
            ),
        }
    }

    fn stops<M: Mechanism>(
        &self,
        alloc: Global,
        job: JobName,
        cause: Stop,
        sessions: &Sessions,
        here: Here,
        mech: &M,
    ) -> Mem<Turn>
        ensures short { IfOk result TurnMaySend }
        ensures turn { IfOk result (λ turn. turn ≡ turns.Stops job cause (stop_telling (record { mic = M.mic_of; derived = M.derived }) (around_of sessions.now here) job cause self.now)) }
    {
        let told = self.tell_stop(alloc, job, cause, sessions, here, mech)?;
        Ok(Turn::Stops(job, cause, told))
    }

    fn commits<M: Mechanism>(
        &self,
        alloc: Global,
        job: JobName,
        sessions: &Sessions,
        here: Here,
        mech: &M,
    ) -> Mem<Turn>
        ensures short { IfOk result TurnMaySend }
        ensures turn { IfOk result (λ turn. turn ≡ turns.Commits job (committing (record { mic = M.mic_of; derived = M.derived }) (around_of sessions.now here) job self.now)) }
    {
        let done = self.tell_commit(alloc, job, sessions, here, mech)?;
        let fault = self.tell_stop(alloc, job, Stop::DiskFault, sessions, here, mech)?;
        Ok(Turn::Commits(job, Committing { done, fault }))
    }
}

fn asked(place: u32, label: CallLabel, sent: Sent) -> Turn
    requires place { place < WORKERS }
    requires short { length sent.bytes ≤ RECORD_LIMIT }
    ensures short { TurnMaySend result }
    ensures turn { result ≡ asked_turn place label sent }
{
    Turn::Sent(workers_call(place, label, sent))
}
