//! The commands of a client.

ghost use Rattle.std.specs.Prelude.{◌≡◌, ◌<◌, ◌≤◌, length, nat_lt, true, None, IfOk, OnOk, OnErr};
ghost use Rattle.outcome.specs.Causes.{Rose};
ghost use Rattle.client_copies.specs.declared.copy.Query.TheVariants as queries;
ghost use Rattle.client_copies.specs.declared.table.TheConstants.{MOST_COPIES};
ghost use Rattle.client_steps.specs.Acting.{GoesOn};
ghost use Rattle.nfs_base.specs.declared.limits.TheConstants.{DATA_LIMIT};
ghost use Rattle.write_queue.specs.declared.work.Work.TheVariants as works;
ghost use Rattle.client_core.specs.Commands as commands;
ghost use Rattle.client_core.specs.Endings.{acting_at, ways_of};
ghost use Rattle.client_core.specs.Parts as parts;
ghost use Rattle.client_core.specs.State.{ClientState};
ghost use Rattle.client_core.specs.Telling.{copy_of};
ghost use Rattle.client_core.specs.declared.client.TheConstants.{MOST_STEPS};

use crate::client::Client;
use client_copies::{MOST_COPIES, Query};
use client_steps::{Course, Desk};
use gss_mech::Mechanism;
use nfs_base::{CopySpec, Side};
use outbox::{Note, Outbox};
use outcome::Mem;
use std::alloc::Global;
use streams::{Drawn, Draws};
use wire_xdr::Octets;
use write_queue::Work;

impl<M: Mechanism> Client<M> {
    /// Begins copy `j`, from 1 to 15, which wasn't begun before ([`Client::has_begun`]): files are opened at both servers and
    /// allowed to be copied between them, and COPY goes out (RFC 7862 section 4.2). Its secret is drawn.
    pub fn begin_copy<W: Draws>(
        &mut self,
        alloc: Global,
        j: u8,
        spec: CopySpec,
        now: u64,
        draws: &mut W,
    ) -> Mem<Outbox>
        requires few { self.old.steps < MOST_STEPS }
        requires first { 1 ≤ j }
        requires last { j < MOST_COPIES }
        requires new { copy_of j self.old ≡ None }
        ensures is { IfOk result (λ out. commands.IsBegun (ways_of M.mic_of M.derived M.finished M.started M.accepted self.old.setting) W.gives j spec now self.old draws.old draws.new (self.new, out)) }
        ensures undrawn { IfOk result (λ out. out.undrawn ≡ true → Rose (W.faults draws.old) (W.faults draws.new)) }
        ensures err { OnErr result (self.new ≡ self.old) }
        ensures later { W.faults draws.old ≤ W.faults draws.new }
        ensures failing { W.failing draws.new ≡ W.failing draws.old }
    {
        let course = self.course(alloc, now)?;
        match draws.draw() {
            Drawn::Failed => self.undraw(alloc),
            Drawn::Got(secret) => self.finish(alloc, begun(course, j, spec, secret), draws),
        }
    }

    /// Asks the destination to cancel copy `j` (OFFLOAD_CANCEL, RFC 7862 section 15.8). A note says `busy` where a call of it
    /// is awaited, else `idle` where it isn't accepted, or is over.
    pub fn cancel(&mut self, alloc: Global, j: u8, now: u64) -> Mem<Outbox>
        requires few { self.old.steps < MOST_STEPS }
        ensures is { IfOk result (λ out. (self.new, out) ≡ commands.query_step M.mic_of j queries.Cancel now self.old) }
        ensures err { OnErr result (self.new ≡ self.old) }
    {
        self.query(alloc, j, Query::Cancel, now)
    }

    /// Asks the destination how far copy `j` is (OFFLOAD_STATUS, RFC 7862 section 15.9). The notes are those of
    /// [`Client::cancel`].
    pub fn status(&mut self, alloc: Global, j: u8, now: u64) -> Mem<Outbox>
        requires few { self.old.steps < MOST_STEPS }
        ensures is { IfOk result (λ out. (self.new, out) ≡ commands.query_step M.mic_of j queries.Status now self.old) }
        ensures err { OnErr result (self.new ≡ self.old) }
    {
        self.query(alloc, j, Query::Status, now)
    }

    fn query(&mut self, alloc: Global, j: u8, query: Query, now: u64) -> Mem<Outbox>
        requires few { self.old.steps < MOST_STEPS }
        ensures is { IfOk result (λ out. (self.new, out) ≡ commands.query_step M.mic_of j query now self.old) }
        ensures err { OnErr result (self.new ≡ self.old) }
    {
        let mut course = self.course(alloc, now)?;
        ask(&mut course.desk, alloc, j, query, &self.setting.mech)?;
        Ok(self.end(course))
    }

    /// Queues a WRITE (RFC 8881 section 18.32) of at most 65,536 bytes to a server's file. It is UNSTABLE4.
    pub fn write<W: Draws>(
        &mut self,
        alloc: Global,
        to: Side,
        file: u32,
        offset: u64,
        data_: &[u8],
        now: u64,
        draws: &mut W,
    ) -> Mem<Outbox>
        requires few { self.old.steps < MOST_STEPS }
        requires short { length data_.now ≤ DATA_LIMIT }
        ensures is { IfOk result (λ out. commands.IsWork (ways_of M.mic_of M.derived M.finished M.started M.accepted self.old.setting) W.gives to (works.Write file offset data_.now) now self.old draws.old draws.new (self.new, out)) }
        ensures undrawn { IfOk result (λ out. out.undrawn ≡ true → Rose (W.faults draws.old) (W.faults draws.new)) }
        ensures err { OnErr result (self.new ≡ self.old) }
        ensures later { W.faults draws.old ≤ W.faults draws.new }
        ensures failing { W.failing draws.new ≡ W.failing draws.old }
    {
        let bytes = Octets::from_slice(alloc, data_)?;
        let work = Work::Write {
            file,
            offset,
            bytes,
        };
        self.work(alloc, to, work, now, draws)
    }

    /// Queues a COMMIT (RFC 8881 section 18.3) of a server's file.
    pub fn commit<W: Draws>(
        &mut self,
        alloc: Global,
        to: Side,
        file: u32,
        now: u64,
        draws: &mut W,
    ) -> Mem<Outbox>
        requires few { self.old.steps < MOST_STEPS }
        ensures is { IfOk result (λ out. commands.IsWork (ways_of M.mic_of M.derived M.finished M.started M.accepted self.old.setting) W.gives to (works.Commit file) now self.old draws.old draws.new (self.new, out)) }
        ensures undrawn { IfOk result (λ out. out.undrawn ≡ true → Rose (W.faults draws.old) (W.faults draws.new)) }
        ensures err { OnErr result (self.new ≡ self.old) }
        ensures later { W.faults draws.old ≤ W.faults draws.new }
        ensures failing { W.failing draws.new ≡ W.failing draws.old }
    {
        self.work(alloc, to, Work::Commit { file }, now, draws)
    }

    /// A work is queued, and goes out where it can. Where that comes to nothing, it is taken out again.
    fn work<W: Draws>(
        &mut self,
        alloc: Global,
        to: Side,
        work: Work,
        now: u64,
        draws: &mut W,
    ) -> Mem<Outbox>
        requires few { self.old.steps < MOST_STEPS }
        ensures is { IfOk result (λ out. commands.IsWork (ways_of M.mic_of M.derived M.finished M.started M.accepted self.old.setting) W.gives to work now self.old draws.old draws.new (self.new, out)) }
        ensures undrawn { IfOk result (λ out. out.undrawn ≡ true → Rose (W.faults draws.old) (W.faults draws.new)) }
        ensures err { OnErr result (self.new ≡ self.old) }
        ensures later { W.faults draws.old ≤ W.faults draws.new }
        ensures failing { W.failing draws.new ≡ W.failing draws.old }
    {
        self.push(to, work)?;
        match self.go_on_now(alloc, now, draws) {
            Ok(Some(course)) => Ok(self.end(course)),
            Ok(None) => {
                self.unpush(to);
                self.undraw(alloc)
            }
            Err(none) => {
                self.unpush(to);
                Err(none)
            }
        }
    }

    /// What waits goes on.
    fn go_on_now<W: Draws>(&self, alloc: Global, now: u64, draws: &mut W) -> Mem<Option<Course>>
        ensures is { IfOk result (λ to. GoesOn self.now.setting M.mic_of (M.started self.now.setting.mech self.now.setting.me) W.gives (acting_at now self.now) draws.old draws.new (parts.went_of self.now to)) }
        ensures rose { IfOk result (λ to. to ≡ None → Rose (W.faults draws.old) (W.faults draws.new)) }
        ensures later { W.faults draws.old ≤ W.faults draws.new }
        ensures failing { W.failing draws.new ≡ W.failing draws.old }
    {
        let course = self.course(alloc, now)?;
        self.go_on(alloc, course, draws)
    }

    fn push(&mut self, to: Side, work: Work) -> Mem<()>
        ensures ok { OnOk result (self.new ≡ parts.with_pushed to work self.old) }
        ensures err { OnErr result (self.new ≡ self.old) }
    {
        match to {
            Side::Source => self.queues.source.push(work),
            Side::Dest => self.queues.dest.push(work),
        }
    }

    fn unpush(&mut self, to: Side)
        ensures { (work : Work) (before : ClientState M) → self.old ≡ parts.with_pushed to work before → self.new ≡ before }
    {
        match to {
            Side::Source => self.queues.source.unpush(),
            Side::Dest => self.queues.dest.unpush(),
        }
    }

    /// A second comes by itself: copies that were asked nothing for 30 seconds are asked how far they are.
    pub fn tick(&mut self, alloc: Global, now: u64) -> Mem<Outbox>
        requires few { self.old.steps < MOST_STEPS }
        ensures is { IfOk result (λ out. (self.new, out) ≡ commands.tick_step M.mic_of now self.old) }
        ensures err { OnErr result (self.new ≡ self.old) }
    {
        let mut course = self.course(alloc, now)?;
        course.desk.tick(
            alloc,
            &[1, 2, 3, 4, 5, 6, 7, 8, 9, 10, 11, 12, 13, 14, 15],
            &self.setting.mech,
        )?;
        Ok(self.end(course))
    }

    /// Sends again all that is awaited, each with a new xid: setups, the calls of queues, then those of copies by number.
    /// An INIT goes out with its token, so nothing is drawn. Replies to what was sent before are awaited no more.
    pub fn retry<W: Draws>(&mut self, alloc: Global, now: u64, _draws: &mut W) -> Mem<Outbox>
        requires few { self.old.steps < MOST_STEPS }
        ensures draws { _draws.new ≡ _draws.old }
        ensures is { IfOk result (λ out. (self.new, out) ≡ commands.retry_step M.mic_of now self.old) }
        ensures err { OnErr result (self.new ≡ self.old) }
    {
        let mut course = self.course(alloc, now)?;
        course.retry(alloc, &self.queues, &self.setting.mech)?;
        Ok(self.end(course))
    }
}

/// The destination is asked of a copy; a number that no copy can have is idle.
fn ask<M: Mechanism>(desk: &mut Desk, alloc: Global, j: u8, query: Query, mech: &M) -> Mem<()>
    ensures { IfOk result (λ _. desk.new ≡ commands.asked_if (nat_lt j MOST_COPIES) M.mic_of j query desk.old) }
{
    if (j as u32) < MOST_COPIES {
        desk.query(alloc, j as u32, query, mech)
    } else {
        desk.note(Note::Idle { copy: j })
    }
}

/// The copy is there.
fn begun(course: Course, j: u8, spec: CopySpec, secret: [u8; 32]) -> Course
    requires { j < MOST_COPIES }
    ensures desk { result.desk ≡ commands.begun_with j spec secret course.desk }
    ensures source { result.source_plan ≡ course.source_plan }
    ensures dest { result.dest_plan ≡ course.dest_plan }
{
    let mut course = course;
    course.desk.copies.begin(j as u32, spec, secret);
    course
}
