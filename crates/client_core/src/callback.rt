//! CB_COMPOUND (RFC 8881 section 20.2).

ghost use Rattle.std.specs.Prelude.{◌≡◌, ◌<◌, ◌≤◌, length, true, Ok, IfOk, OnErr};
ghost use Rattle.outcome.specs.Causes.{Rose};
ghost use Rattle.client_steps.specs.Desks.{posted};
ghost use Rattle.nfs_compound.specs.Callbacks.{cb_reply};
ghost use Rattle.nfs_compound.specs.Compounds.{cb_compound_of};
ghost use Rattle.rpc_calls.specs.Answers.{counted, result_reply};
ghost use Rattle.rpc_calls.specs.Judging.{HasSpelling, IsAdmitted, IsThere};
ghost use Rattle.client_core.specs.Callbacks as spec;
ghost use Rattle.client_core.specs.Calls.{result_back};
ghost use Rattle.client_core.specs.Endings.{ended, ways_of};
ghost use Rattle.client_core.specs.Parts as parts;
ghost use Rattle.client_core.specs.State.{second_at};
ghost use Rattle.client_core.specs.declared.client.TheConstants.{MOST_STEPS};

use crate::client::Client;
use crate::labels::{cb_label, reply_seal};
use callbacks::{Answered, Told, answers_can_be_written, evaluate};
use client_steps::{Course, Desk};
use gss_mech::Mechanism;
use nfs_base::{Side, Status};
use nfs_compound::{CbCompound, CbReply, read_cb_compound, write_cb_reply};
use outbox::{Label, Outbox};
use outcome::Mem;
use rpc_calls::{Call, Under, count};
use rpc_msg::Stat;
use std::alloc::Global;
use streams::Draws;
use wire_xdr::Octets;

impl<M: Mechanism> Client<M> {
    /// A CB_COMPOUND that can be read is evaluated and answered.
    #[tactic(auto, unfolding(rpc_msg::specs::Heads::stat))]
    pub(crate) fn on_compound<W: Draws>(
        &mut self,
        alloc: Global,
        from: Side,
        call: &Call,
        args: &[u8],
        now: u64,
        draws: &mut W,
    ) -> Mem<Outbox>
        requires few { self.old.steps < MOST_STEPS }
        requires head { HasSpelling call.now }
        requires there { IsThere self.old.back call.now }
        requires admitted { IsAdmitted call.now }
        ensures is { IfOk result (λ out. spec.IsCompound (cb_compound_of args.now) (ways_of M.mic_of M.derived M.finished M.started M.accepted self.old.setting) W.gives now from call.now self.old draws.old draws.new (self.new, out)) }
        ensures undrawn { IfOk result (λ out. out.undrawn ≡ true → Rose (W.faults draws.old) (W.faults draws.new)) }
        ensures err { OnErr result (self.new ≡ self.old) }
        ensures later { W.faults draws.old ≤ W.faults draws.new }
        ensures failing { W.failing draws.new ≡ W.failing draws.old }
    {
        match read_cb_compound(alloc, args)? {
            Ok(compound) => self.on_callback(alloc, from, call, compound, now, draws),
            Err(_) => self.fail(alloc, from, call, Stat::Garbage, self.second_at(now)),
        }
    }

    /// It is evaluated over the copies, and answered; what waited for them goes on.
    fn on_callback<W: Draws>(
        &mut self,
        alloc: Global,
        from: Side,
        call: &Call,
        compound: CbCompound,
        now: u64,
        draws: &mut W,
    ) -> Mem<Outbox>
        requires few { self.old.steps < MOST_STEPS }
        requires head { HasSpelling call.now }
        requires there { IsThere self.old.back call.now }
        requires admitted { IsAdmitted call.now }
        requires read { spec.WasRead compound }
        ensures is { IfOk result (λ out. spec.IsCompound (Ok compound) (ways_of M.mic_of M.derived M.finished M.started M.accepted self.old.setting) W.gives now from call.now self.old draws.old draws.new (self.new, out)) }
        ensures undrawn { IfOk result (λ out. out.undrawn ≡ true → Rose (W.faults draws.old) (W.faults draws.new)) }
        ensures err { OnErr result (self.new ≡ self.old) }
        ensures later { W.faults draws.old ≤ W.faults draws.new }
        ensures failing { W.failing draws.new ≡ W.failing draws.old }
    {
        let mut course = self.course(alloc, now)?;
        self.answer(alloc, &mut course.desk, from, call, compound)?;
        match self.go_on(alloc, course, draws)? {
            None => self.undraw(alloc),
            Some(course) => Ok(self.end_call(call, course, now)),
        }
    }

    /// The step of a call ends, which is counted. It takes no memory.
    fn end_call(&mut self, call: &Call, course: Course, now: u64) -> Outbox
        requires few { self.old.steps < MOST_STEPS }
        ensures { (self.new, result) ≡ ended (parts.course_of self.old course) (counted (second_at now self.old) call.now self.old.back) self.old }
    {
        let second = self.second_at(now);
        count(&mut self.back, call, second);
        self.end(course)
    }

    /// What it does to the copies is noted, and the results go back.
    fn answer(
        &self,
        alloc: Global,
        desk: &mut Desk,
        from: Side,
        call: &Call,
        compound: CbCompound,
    ) -> Mem<()>
        requires head { HasSpelling call.now }
        requires there { IsThere self.now.back call.now }
        requires admitted { IsAdmitted call.now }
        requires read { spec.WasRead compound }
        ensures { IfOk result (λ _. desk.new ≡ spec.called_back M.mic_of from call.now compound self.now desk.old) }
    {
        answers_can_be_written();
        desk.accept(call.accepted(&self.back));
        let session = self.session_under(call.under);
        let answered = evaluate(alloc, &mut desk.copies, session, &compound)?;
        note_all(desk, answered.told.as_slice())?;
        let label = reply_label(&compound, answered.status);
        self.send_back(
            alloc,
            desk,
            from,
            call,
            &reply_to(compound, answered),
            label,
        )
    }

    fn send_back(
        &self,
        alloc: Global,
        desk: &mut Desk,
        from: Side,
        call: &Call,
        reply: &CbReply,
        label: Label,
    ) -> Mem<()>
        requires head { HasSpelling call.now }
        requires there { IsThere self.now.back call.now }
        requires admitted { IsAdmitted call.now }
        requires fits { cb_reply.Fits reply.now }
        requires short { length (cb_reply.spell reply.now) ≤ 2048 }
        ensures { IfOk result (λ _. desk.new ≡ posted (result_back M.mic_of self.now.back from call.now (cb_reply.spell reply.now) label) desk.old) }
    {
        let bytes = self.seal_back(alloc, call, reply)?;
        desk.post(from, bytes, reply_seal(&self.back, call), label)
    }

    /// The record that answers it.
    fn seal_back(&self, alloc: Global, call: &Call, reply: &CbReply) -> Mem<Octets>
        requires head { HasSpelling call.now }
        requires there { IsThere self.now.back call.now }
        requires admitted { IsAdmitted call.now }
        requires fits { cb_reply.Fits reply.now }
        requires short { length (cb_reply.spell reply.now) ≤ 2048 }
        ensures { IfOk result (λ bytes. bytes ≡ result_reply M.mic_of self.now.back call.now (cb_reply.spell reply.now)) }
    {
        let under = call.under.unwrap();
        let body = write_cb_reply(alloc, reply)?;
        self.back.seal_reply(
            alloc,
            under.number,
            under.seq,
            &call.head,
            body.as_slice(),
            &self.setting.mech,
        )
    }
}

impl<M> Client<M> {
    /// The session of the context under which a call comes.
    fn session_under(&self, under: Option<Under>) -> Option<[u8; 16]>
        ensures { result ≡ spec.session_under under self.now }
    {
        self.session_of(under?.number)
    }

    fn session_of(&self, context: u32) -> Option<[u8; 16]>
        ensures { result ≡ spec.session_of context self.now }
    {
        match self.source.calls_back(context) {
            Some(session) => Some(session),
            None => self.dest.calls_back(context),
        }
    }
}

/// The reply, whose tag is that of the call.
fn reply_to(compound: CbCompound, answered: Answered) -> CbReply
    ensures { result ≡ record { status = answered.status; tag = compound.tag; results = answered.results } }
{
    CbReply {
        status: answered.status,
        tag: compound.tag,
        results: answered.results,
    }
}

fn reply_label(compound: &CbCompound, status: Status) -> Label
    ensures { result ≡ spec.reply_label compound.now status.number }
{
    Label::Reply {
        to: cb_label(compound.ops.as_slice()),
        status: status.number,
    }
}

/// What is told of copies is noted.
fn note_all(desk: &mut Desk, told: &[Told]) -> Mem<()>
    ensures { IfOk result (λ _. desk.new ≡ spec.all_said told.now desk.old) }
{
    match told {
        [] => Ok(()),
        [one, more @ ..] => {
            desk.note_said(one.copy, one.said)?;
            note_all(desk, more)
        }
    }
}
