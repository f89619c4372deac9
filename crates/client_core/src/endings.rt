//! How a step begins and ends.

ghost use Rattle.std.specs.Prelude.{◌≡◌, ◌<◌, ◌≤◌, true, None, IfOk, OnErr};
ghost use Rattle.outcome.specs.Causes.{Rose};
ghost use Rattle.client_steps.specs.Acting.{GoesOn};
ghost use Rattle.client_core.specs.Backs as backs;
ghost use Rattle.client_core.specs.Endings as spec;
ghost use Rattle.client_core.specs.Parts as parts;
ghost use Rattle.client_core.specs.State as state;
ghost use Rattle.client_core.specs.declared.client.TheConstants.{MOST_STEPS};

use crate::client::Client;
use client_steps::{Course, Desk};
use gss_ctx::Contexts;
use gss_mech::Mechanism;
use outbox::{Outbox, Room};
use outcome::Mem;
use std::alloc::Global;
use streams::Draws;
use wire_xdr::Items;

impl<M> Client<M> {
    /// The second by which a step goes that is given this one: the greatest so far.
    pub(crate) fn second_at(&self, now: u64) -> u64
        ensures { result ≡ state.second_at now self.now }
    {
        self.second.max(now)
    }

    /// What a step works on, in a second.
    pub fn course(&self, alloc: Global, now: u64) -> Mem<Course>
        ensures { IfOk result (λ course. parts.course_of self.now course ≡ spec.acting_at now self.now) }
    {
        let source_plan = self.queues.source.plan(alloc)?;
        let dest_plan = self.queues.dest.plan(alloc)?;
        Ok(Course {
            desk: self.desk(alloc, now)?,
            source_plan,
            dest_plan,
        })
    }

    fn desk(&self, alloc: Global, now: u64) -> Mem<Desk>
        ensures { IfOk result (λ desk. desk ≡ spec.desk_at now self.now) }
    {
        let out = Outbox::new(alloc)?;
        let copies = self.copies.copy_all(alloc)?;
        let source = self.source.copy(alloc)?;
        Ok(Desk {
            second: self.second_at(now),
            calls: self.calls,
            source,
            dest: self.dest.copy(alloc)?,
            copies,
            made: None,
            ended: Items::new(alloc),
            out,
        })
    }

    /// What a step worked on comes in place, and gives its outbox. It takes no memory.
    pub(crate) fn put(&mut self, course: Course) -> Outbox
        ensures out { result ≡ course.desk.out }
        ensures after { self.new ≡ parts.placed (parts.course_of self.old course) self.old }
    {
        let Course {
            desk,
            source_plan,
            dest_plan,
        } = course;
        self.queues.source.put(source_plan);
        self.queues.dest.put(dest_plan);
        self.put_desk(desk)
    }

    fn put_desk(&mut self, desk: Desk) -> Outbox
        ensures out { result ≡ desk.out }
        ensures after { self.new ≡ parts.with_desk desk self.old }
    {
        let Desk {
            second,
            calls,
            source,
            dest,
            copies,
            ended,
            out,
            ..
        } = desk;
        self.second = second;
        self.calls = calls;
        self.source = source;
        self.dest = dest;
        self.copies = copies;
        end_backs(&mut self.back, ended.as_slice());
        out
    }

    /// A step ends whose draw failed: nothing changes but the count of steps.
    pub(crate) fn undraw(&mut self, alloc: Global) -> Mem<Outbox>
        requires few { self.old.steps < MOST_STEPS }
        ensures is { IfOk result (λ out. (self.new, out) ≡ spec.undrawn self.old) }
        ensures err { OnErr result (self.new ≡ self.old) }
    {
        let room = Room::new(alloc)?;
        self.steps += 1;
        Ok(room.undrawn())
    }
}

impl<M: Mechanism> Client<M> {
    /// What was done goes on by what waits. None: a draw failed.
    pub(crate) fn go_on<W: Draws>(
        &self,
        alloc: Global,
        course: Course,
        draws: &mut W,
    ) -> Mem<Option<Course>>
        ensures is { IfOk result (λ to. GoesOn self.now.setting M.mic_of (M.started self.now.setting.mech self.now.setting.me) W.gives (parts.course_of self.now course) draws.old draws.new (parts.went_of self.now to)) }
        ensures rose { IfOk result (λ to. to ≡ None → Rose (W.faults draws.old) (W.faults draws.new)) }
        ensures later { W.faults draws.old ≤ W.faults draws.new }
        ensures failing { W.failing draws.new ≡ W.failing draws.old }
    {
        let mut course = course;
        match course.go_on(alloc, &self.setting, &self.queues, draws) {
            Ok(true) => Ok(Some(course)),
            Ok(false) => {
                drop(course);
                Ok(None)
            }
            Err(memory) => {
                drop(course);
                Err(memory)
            }
        }
    }

    /// What was done goes on by what waits, and the step ends.
    pub(crate) fn finish<W: Draws>(
        &mut self,
        alloc: Global,
        course: Course,
        draws: &mut W,
    ) -> Mem<Outbox>
        requires few { self.old.steps < MOST_STEPS }
        ensures is { IfOk result (λ out. spec.IsStep (spec.ways_of M.mic_of M.derived M.finished M.started M.accepted self.old.setting) W.gives (parts.course_of self.old course) (λ a. self.old.back) self.old draws.old draws.new (self.new, out)) }
        ensures undrawn { IfOk result (λ out. out.undrawn ≡ true → Rose (W.faults draws.old) (W.faults draws.new)) }
        ensures err { OnErr result (self.new ≡ self.old) }
        ensures later { W.faults draws.old ≤ W.faults draws.new }
        ensures failing { W.failing draws.new ≡ W.failing draws.old }
    {
        match self.go_on(alloc, course, draws)? {
            None => self.undraw(alloc),
            Some(course) => Ok(self.end(course)),
        }
    }

    /// A step ends, over contexts for callbacks as they are. It takes no memory.
    pub fn end(&mut self, course: Course) -> Outbox
        requires few { self.old.steps < MOST_STEPS }
        ensures { (self.new, result) ≡ spec.ended (parts.course_of self.old course) self.old.back self.old }
    {
        self.steps += 1;
        let mut out = self.put(course);
        out.undrawn = false;
        out
    }
}

/// These contexts for callbacks end.
fn end_backs(back: &mut Contexts<u32>, numbers: &[u32])
    ensures is { back.new ≡ backs.backs_ended numbers.now back.old }
    ensures made { back.new.made ≡ back.old.made }
{
    match numbers {
        [] => {}
        [number, more @ ..] => {
            back.destroy(*number);
            end_backs(back, more);
        }
    }
}
