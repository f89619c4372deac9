//! Records that come from a server.

ghost use Rattle.std.specs.Prelude.{◌≡◌, ◌<◌, ◌≤◌, true, false, None, IfOk, OnErr};
ghost use Rattle.outcome.specs.Causes.{Rose};
ghost use Rattle.rpc_calls.specs.Judging.{IsSoundWhere, judged_of};
ghost use Rattle.rpc_calls.specs.declared.call.TheConstants.Program as programs;
ghost use Rattle.client_core.specs.Calls.{dropping};
ghost use Rattle.client_core.specs.Endings.{ended, ways_of};
ghost use Rattle.client_core.specs.Backs.{back_added};
ghost use Rattle.client_core.specs.Parts as parts;
ghost use Rattle.client_core.specs.Records as spec;
ghost use Rattle.client_core.specs.State.{second_at};
ghost use Rattle.client_core.specs.declared.client.TheConstants.{MOST_STEPS};

use crate::backs::{add_back, free_number};
use crate::client::Client;
use client_steps::Course;
use gss_mech::Mechanism;
use nfs_base::Side;
use outbox::{Dropped, Note, Outbox, Room};
use outcome::Mem;
use rpc_calls::{Judged, Program, judge};
use std::alloc::Global;
use streams::Draws;

impl<M: Mechanism> Client<M> {
    /// Takes a record that comes from a server: a reply to what is awaited there, or a call of the client's callback
    /// program (RFC 8881 section 20). What waited for it goes on.
    #[tactic(auto, using(crate::proofs::Steps::none_failed))]
    pub fn on_record<W: Draws>(
        &mut self,
        alloc: Global,
        from: Side,
        record_: &[u8],
        now: u64,
        draws: &mut W,
    ) -> Mem<Outbox>
        requires few { self.old.steps < MOST_STEPS }
        ensures is { IfOk result (λ out. spec.IsRecord (ways_of M.mic_of M.derived M.finished M.started M.accepted self.old.setting) W.gives from record_.now now self.old draws.old draws.new (self.new, out)) }
        ensures undrawn { IfOk result (λ out. out.undrawn ≡ true → Rose (W.faults draws.old) (W.faults draws.new)) }
        ensures err { OnErr result (self.new ≡ self.old) }
        ensures later { W.faults draws.old ≤ W.faults draws.new }
        ensures failing { W.failing draws.new ≡ W.failing draws.old }
    {
        match self.judge(alloc, record_, now)? {
            Judged::Unread => self.drop_record(alloc, now),
            Judged::Reply => self.on_reply(alloc, from, record_, now, draws),
            Judged::Call(call) => self.on_call(alloc, from, &call, now, draws),
        }
    }

    /// What a record is to the client: a reply, or a call of its callback program, judged by its context (RFC 2203 section 5.3.3).
    pub fn judge(&self, alloc: Global, record_: &[u8], now: u64) -> Mem<Judged>
        ensures is { IfOk result (λ judged. judged ≡ judged_of M.mic_of (second_at now self.now) programs.CALLBACK record_.now self.now.back) }
        ensures sound { IfOk result (IsSoundWhere (second_at now self.now) self.now.back) }
    {
        let second = self.second_at(now);
        judge(
            alloc,
            &self.back,
            record_,
            second,
            &self.setting.mech,
            Program::CALLBACK,
        )
    }

    /// A record that can't be read is dropped.
    fn drop_record(&mut self, alloc: Global, now: u64) -> Mem<Outbox>
        requires few { self.old.steps < MOST_STEPS }
        ensures is { IfOk result (λ out. (self.new, out) ≡ dropping (second_at now self.old) self.old.back Dropped.Unread self.old) }
        ensures drawn { IfOk result (λ out. out.undrawn ≡ false) }
        ensures err { OnErr result (self.new ≡ self.old) }
    {
        let room = Room::new(alloc)?;
        self.second = self.second_at(now);
        self.steps += 1;
        Ok(room.silence(Note::Dropped {
            why: Dropped::Unread,
        }))
    }

    fn on_reply<W: Draws>(
        &mut self,
        alloc: Global,
        from: Side,
        record_: &[u8],
        now: u64,
        draws: &mut W,
    ) -> Mem<Outbox>
        requires few { self.old.steps < MOST_STEPS }
        ensures is { IfOk result (λ out. spec.IsReply (ways_of M.mic_of M.derived M.finished M.started M.accepted self.old.setting) W.gives from record_.now now self.old draws.old draws.new (self.new, out)) }
        ensures undrawn { IfOk result (λ out. out.undrawn ≡ true → Rose (W.faults draws.old) (W.faults draws.new)) }
        ensures err { OnErr result (self.new ≡ self.old) }
        ensures later { W.faults draws.old ≤ W.faults draws.new }
        ensures failing { W.failing draws.new ≡ W.failing draws.old }
    {
        let course = self.hear(alloc, from, record_, now)?;
        match self.go_on(alloc, course, draws)? {
            None => self.undraw(alloc),
            Some(course) => self.end_reply(alloc, course, now),
        }
    }

    /// A reply is taken, and does what it does.
    fn hear(&self, alloc: Global, from: Side, record_: &[u8], now: u64) -> Mem<Course>
        requires few { self.now.steps < MOST_STEPS }
        ensures { IfOk result (λ course. parts.course_of self.now course ≡ spec.heard (ways_of M.mic_of M.derived M.finished M.started M.accepted self.now.setting) from record_.now now self.now) }
    {
        let mut course = self.course(alloc, now)?;
        let free = free_number(&self.back, self.second_at(now));
        course.on_reply(alloc, &self.setting, &self.queues, from, record_, free)?;
        Ok(course)
    }

    /// The step of a reply ends, with a context for callbacks where one goes with it.
    fn end_reply(&mut self, alloc: Global, course: Course, now: u64) -> Mem<Outbox>
        requires few { self.old.steps < MOST_STEPS }
        ensures is { IfOk result (λ out. (self.new, out) ≡ ended (parts.course_of self.old course) (back_added M.derived self.old.setting.me (second_at now self.old) course.desk.made self.old.back) self.old) }
        ensures err { OnErr result (self.new ≡ self.old) }
    {
        let second = self.second_at(now);
        add_back(
            &mut self.back,
            alloc,
            &self.setting,
            course.desk.made,
            second,
        )?;
        self.steps += 1;
        let mut out = self.put(course);
        out.undrawn = false;
        Ok(out)
    }
}
