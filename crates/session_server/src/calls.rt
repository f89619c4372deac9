//! Calls that aren't a COMPOUND, under a context or not.

ghost use Rattle.std.specs.Prelude.{◌≡◌, ◌≢◌, ◌<◌, ◌≤◌, true, [], IfOk};
ghost use Rattle.outcome.specs.Causes.{Rose};
ghost use Rattle.rpc_msg.specs.Heads.{denial, stat};
ghost use Rattle.rpc_calls.specs.Answers.{counted};
ghost use Rattle.rpc_calls.specs.Judging.{HasSpelling, IsThere, MayHaveChild};
ghost use Rattle.session_server.specs.declared.host.TheConstants.{MOST_STEPS};
ghost use Rattle.session_server.specs.Host.{host_of, rules_of, stepped_of, IsCounted};
ghost use Rattle.session_server.specs.Labels.{drop_cause};
ghost use Rattle.session_server.specs.Leaving.{IsStep, IsStill};
ghost use Rattle.session_server.specs.Lengths.{AreShort};
ghost use Rattle.session_server.specs.Steps.{IsInit, denied, dropped, failed, going_back, granted, on_create, on_empty, reply_seal};

use crate::empty::Empty;
use crate::extending::{Extending, Judgement};
use crate::host::Host;
use crate::labels::{denial_label, drop_cause, fault_label};
use disk_model::Disk;
use gss_ctx::{Contexts, Why};
use nfs_base::Seal;
use outbox::{CallLabel, Label, Note, Outbox, Outgoing, Room, To};
use outcome::Mem;
use rpc_calls::{
    Call, RPCSEC_GSS_PRIVILEGE_PROBLEM, answer_create, answer_init, count, deny, fail,
};
use rpc_msg::{Denial, Stat};
use std::alloc::Global;
use streams::Draws;
use wire_xdr::Octets;

impl<D: Disk, X, C: Drop> Host<D, X, C> {
    /// A call whose number its context has seen, or has put behind it, gets no answer (RFC 2203 section 5.3.3.1).
    pub(crate) fn drop_call(
        &mut self,
        alloc: Global,
        call: &Call,
        why: Why,
        second: u64,
    ) -> Mem<Outbox>
    where
        X: Extending<C>,
        requires few { self.old.steps < MOST_STEPS }
        requires counted { IsCounted X.given self.old }
        ensures is { IfOk result (λ out. stepped_of D.size self.new out ≡ dropped (record { leave = X.leaves; lapse = X.lapses }) second (counted second call.now self.old.contexts) (Note.Dropped (drop_cause why)) (host_of D.size self.old)) }
        ensures still { IsStill self.old self.new result }
        ensures short { IfOk result (λ out. AreShort out.sent) }
        ensures step { IsStep X.given X.landed X.untold self.old self.new result }
    {
        let room = Room::new(alloc)?;
        count(&mut self.contexts, call, second);
        self.rest(second);
        Ok(room.silence(Note::Dropped {
            why: drop_cause(why),
        }))
    }

    pub(crate) fn deny(
        &mut self,
        alloc: Global,
        conn: u32,
        call: &Call,
        why: Denial,
        second: u64,
    ) -> Mem<Outbox>
    where
        X: Extending<C>,
        requires few { self.old.steps < MOST_STEPS }
        requires counted { IsCounted X.given self.old }
        requires fits { denial.Fits why }
        ensures is { IfOk result (λ out. stepped_of D.size self.new out ≡ denied (record { leave = X.leaves; lapse = X.lapses }) second conn call.now why (host_of D.size self.old)) }
        ensures still { IsStill self.old self.new result }
        ensures short { IfOk result (λ out. AreShort out.sent) }
        ensures step { IsStep X.given X.landed X.untold self.old self.new result }
    {
        let room = Room::new(alloc)?;
        let accepted = call.accepted(&self.contexts);
        let bytes = deny(&mut self.contexts, alloc, call, why, second)?;
        self.rest(second);
        Ok(room.one_reply(accepted, going_back(conn, bytes, None, denial_label(why))))
    }

    pub(crate) fn fail(
        &mut self,
        alloc: Global,
        conn: u32,
        call: &Call,
        failure: Stat,
        second: u64,
    ) -> Mem<Outbox>
    where
        X: Extending<C>,
        requires few { self.old.steps < MOST_STEPS }
        requires counted { IsCounted X.given self.old }
        requires head { HasSpelling call.now }
        requires there { IsThere self.old.contexts call.now }
        requires failed { failure ≢ Stat.Success }
        requires fits { stat.Fits failure }
        ensures is { IfOk result (λ out. stepped_of D.size self.new out ≡ failed (record { leave = X.leaves; lapse = X.lapses }) (record { mic = X.Mech.mic_of; derived = X.Mech.derived }) second conn call.now failure (host_of D.size self.old)) }
        ensures still { IsStill self.old self.new result }
        ensures short { IfOk result (λ out. AreShort out.sent) }
        ensures step { IsStep X.given X.landed X.untold self.old self.new result }
    {
        let room = Room::new(alloc)?;
        let accepted = call.accepted(&self.contexts);
        let bytes = fail(
            &mut self.contexts,
            alloc,
            call,
            failure,
            second,
            self.server.files.extra.mech(),
        )?;
        self.rest(second);
        Ok(room.one_reply(
            accepted,
            going_back(conn, bytes, None, fault_label(failure)),
        ))
    }

    /// Answers a call without a result.
    pub(crate) fn on_empty(
        &mut self,
        alloc: Global,
        conn: u32,
        call: &Call,
        empty: Empty,
        second: u64,
    ) -> Mem<Outbox>
    where
        X: Extending<C>,
        requires few { self.old.steps < MOST_STEPS }
        requires counted { IsCounted X.given self.old }
        requires head { HasSpelling call.now }
        requires there { IsThere self.old.contexts call.now }
        ensures is { IfOk result (λ out. stepped_of D.size self.new out ≡ on_empty empty (record { leave = X.leaves; lapse = X.lapses }) (record { mic = X.Mech.mic_of; derived = X.Mech.derived }) second conn call.now (host_of D.size self.old)) }
        ensures still { IsStill self.old self.new result }
        ensures short { IfOk result (λ out. AreShort out.sent) }
        ensures step { IsStep X.given X.landed X.untold self.old self.new result }
    {
        let room = Room::new(alloc)?;
        let accepted = call.accepted(&self.contexts);
        let seal = reply_seal(&self.contexts, call);
        let bytes = empty.answer(
            &mut self.contexts,
            alloc,
            call,
            second,
            self.server.files.extra.mech(),
        )?;
        self.rest(second);
        Ok(room.one_reply(accepted, going_back(conn, bytes, seal, empty.label())))
    }

    pub(crate) fn on_init<W: Draws>(
        &mut self,
        alloc: Global,
        conn: u32,
        call: &Call,
        token: &[u8],
        second: u64,
        draws: &mut W,
    ) -> Mem<Outbox>
    where
        X: Extending<C>,
        requires few { self.old.steps < MOST_STEPS }
        requires counted { IsCounted X.given self.old }
        ensures is { IfOk result (λ out. IsInit (rules_of X.gated X.serves X.leaves X.lapses X.judges X.tells X.silent) (record { mic = X.Mech.mic_of; derived = X.Mech.derived }) (X.Mech.accepted (X.mech_of self.old.server.files.extra) token.now) W.gives second conn call.now (host_of D.size self.old) draws.old draws.new (stepped_of D.size self.new out)) }
        ensures volume { self.new.server.files.volume ≡ self.old.server.files.volume }
        ensures unused { IfOk result (λ out. out.used ≡ []) }
        ensures short { IfOk result (λ out. AreShort out.sent) }
        ensures step { IsStep X.given X.landed X.untold self.old self.new result }
        ensures later { W.faults draws.old ≤ W.faults draws.new }
        ensures undrawn { IfOk result (λ out. out.undrawn ≡ true → Rose (W.faults draws.old) (W.faults draws.new)) }
        ensures failing { W.failing draws.new ≡ W.failing draws.old }
    {
        let room = Room::new(alloc)?;
        let told = answer_init(
            &mut self.contexts,
            alloc,
            call,
            token,
            second,
            self.server.files.extra.mech(),
            draws,
        )?;
        let seal = told.seal(&self.contexts);
        self.rest(second);
        let label = Label::Reply {
            to: CallLabel::Init,
            status: told.major,
        };
        let undrawn = told.draw_failed;
        let mut out = room.one_reply(None, going_back(conn, told.bytes, seal, label));
        out.undrawn = undrawn;
        Ok(out)
    }

    #[tactic(auto, unfolding(rpc_msg::specs::Heads::denial, rpc_msg::specs::Heads::stat))]
    pub(crate) fn on_create(
        &mut self,
        alloc: Global,
        conn: u32,
        call: &Call,
        name: &[u8],
        privilege: &[u8],
        second: u64,
    ) -> Mem<Outbox>
    where
        X: Extending<C>,
        requires few { self.old.steps < MOST_STEPS }
        requires counted { IsCounted X.given self.old }
        requires head { HasSpelling call.now }
        requires there { IsThere self.old.contexts call.now }
        requires parent { MayHaveChild self.old.contexts call.now }
        ensures is { IfOk result (λ out. stepped_of D.size self.new out ≡ on_create (rules_of X.gated X.serves X.leaves X.lapses X.judges X.tells X.silent) (record { mic = X.Mech.mic_of; derived = X.Mech.derived }) second conn call.now name.now privilege.now (host_of D.size self.old)) }
        ensures still { IsStill self.old self.new result }
        ensures short { IfOk result (λ out. AreShort out.sent) }
        ensures step { IsStep X.given X.landed X.untold self.old self.new result }
    {
        let number = call.under.unwrap().number;
        let judgement = self
            .server
            .files
            .extra
            .judge(alloc, &self.contexts, number, name, privilege, second)?;
        match judgement {
            Judgement::Granted(carry) => self.grant(alloc, conn, call, carry, second),
            Judgement::Misspelt => self.fail(alloc, conn, call, Stat::Garbage, second),
            Judgement::Refused(cause) => {
                let why = Denial::Auth(RPCSEC_GSS_PRIVILEGE_PROBLEM);
                let mut out = self.deny(alloc, conn, call, why, second)?;
                out.notes.push(Note::Privilege { cause });
                Ok(out)
            }
        }
    }

    /// A privilege is granted: a child is made that carries it.
    fn grant(&mut self, alloc: Global, conn: u32, call: &Call, carry: C, second: u64) -> Mem<Outbox>
    where
        X: Extending<C>,
        requires few { self.old.steps < MOST_STEPS }
        requires counted { IsCounted X.given self.old }
        requires head { HasSpelling call.now }
        requires there { IsThere self.old.contexts call.now }
        requires parent { MayHaveChild self.old.contexts call.now }
        ensures is { IfOk result (λ out. stepped_of D.size self.new out ≡ granted (record { leave = X.leaves; lapse = X.lapses }) (record { mic = X.Mech.mic_of; derived = X.Mech.derived }) second conn call.now carry (host_of D.size self.old)) }
        ensures still { IsStill self.old self.new result }
        ensures short { IfOk result (λ out. AreShort out.sent) }
        ensures step { IsStep X.given X.landed X.untold self.old self.new result }
    {
        let room = Room::new(alloc)?;
        let accepted = call.accepted(&self.contexts);
        let seal = reply_seal(&self.contexts, call);
        let told = answer_create(
            &mut self.contexts,
            alloc,
            call,
            carry,
            second,
            self.server.files.extra.mech(),
        )?;
        self.rest(second);
        let label = Label::Reply {
            to: CallLabel::Create,
            status: told.major,
        };
        Ok(room.one_reply(accepted, going_back(conn, told.bytes, seal, label)))
    }
}

/// The seal of a result: that under which the call is answered, if there is one.
pub(crate) fn reply_seal<C>(contexts: &Contexts<C>, call: &Call) -> Option<Seal>
    ensures { result ≡ reply_seal contexts.now call.now.under }
{
    match &call.under {
        Some(under) => Some(contexts.seal(under.number, under.seq)),
        None => None,
    }
}

/// A record that goes back on the connection on which the call came.
pub(crate) fn going_back(conn: u32, bytes: Octets, seal: Option<Seal>, label: Label) -> Outgoing
    ensures { result ≡ going_back conn bytes seal label }
{
    Outgoing {
        to: To::Conn(conn),
        bytes,
        seal,
        label,
    }
}
