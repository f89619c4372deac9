//! Calls of the client's callback program (RFC 8881 section 20), but CB_COMPOUND.

ghost use Rattle.std.specs.Prelude.{◌≡◌, ◌≢◌, ◌<◌, ◌≤◌, true, false, [], IfOk, OnErr};
ghost use Rattle.outcome.specs.Causes.{Rose};
ghost use Rattle.copy_privs.specs.Told.{privilege_told};
ghost use Rattle.rpc_calls.specs.Judging.{HasSpelling, IsSound, IsThere};
ghost use Rattle.rpc_msg.specs.Heads.{denial, stat};
ghost use Rattle.client_core.specs.Calls as spec;
ghost use Rattle.client_core.specs.Endings.{ways_of};
ghost use Rattle.client_core.specs.Records.{IsWhat};
ghost use Rattle.client_core.specs.State.{second_at};
ghost use Rattle.client_core.specs.declared.client.TheConstants.{MOST_STEPS};

use crate::client::Client;
use crate::labels::{denial_label, done, drop_cause, fault_label, going, reply_seal};
use copy_privs::{PrivFault, read_privilege};
use gss_ctx::Why;
use gss_mech::Mechanism;
use nfs_base::{PrivCause, Side};
use outbox::{CallLabel, Label, Note, Outbox, Room};
use outcome::Mem;
use rpc_calls::{
    Call, RPCSEC_GSS_PRIVILEGE_PROBLEM, What, answer_destroy, answer_init, answer_null, count,
    deny, fail,
};
use rpc_msg::{Denial, Stat};
use std::alloc::Global;
use streams::Draws;

impl<M: Mechanism> Client<M> {
    #[tactic(auto, using(crate::proofs::Steps::none_failed))]
    pub(crate) fn on_call<W: Draws>(
        &mut self,
        alloc: Global,
        from: Side,
        call: &Call,
        now: u64,
        draws: &mut W,
    ) -> Mem<Outbox>
        requires few { self.old.steps < MOST_STEPS }
        requires sound { IsSound (second_at now self.old) self.old.back call.now }
        ensures is { IfOk result (λ out. IsWhat call.now.what (ways_of M.mic_of M.derived M.finished M.started M.accepted self.old.setting) W.gives now from call.now self.old draws.old draws.new (self.new, out)) }
        ensures undrawn { IfOk result (λ out. out.undrawn ≡ true → Rose (W.faults draws.old) (W.faults draws.new)) }
        ensures err { OnErr result (self.new ≡ self.old) }
        ensures later { W.faults draws.old ≤ W.faults draws.new }
        ensures failing { W.failing draws.new ≡ W.failing draws.old }
    {
        let second = self.second_at(now);
        match &call.what {
            What::Dropped(why) => self.drop_call(alloc, call, *why, second),
            What::Denied(why) => self.deny(alloc, from, call, *why, second),
            What::Failed(failure) => self.fail(alloc, from, call, *failure, second),
            What::Null => self.on_null(alloc, from, call, second),
            What::Init { token } => self.on_init(
                alloc,
                from,
                call,
                token.as_slice(),
                second,
                draws,
            ),
            What::Create { name, privilege } => {
                self.on_create(
                    alloc,
                    from,
                    call,
                    name.as_slice(),
                    privilege.as_slice(),
                    second,
                )
            }
            What::Destroy => self.on_destroy(alloc, from, call, second),
            What::Compound { args } => {
                self.on_compound(alloc, from, call, args.as_slice(), now, draws)
            }
        }
    }

    /// A call whose number its context has seen, or has put behind it, gets no answer (RFC 2203 section 5.3.3.1).
    #[tactic(auto, using(crate::proofs::Made::counted_made))]
    fn drop_call(&mut self, alloc: Global, call: &Call, why: Why, second: u64) -> Mem<Outbox>
        requires few { self.old.steps < MOST_STEPS }
        ensures is { IfOk result (λ out. (self.new, out) ≡ spec.call_dropped second call.now why self.old) }
        ensures drawn { IfOk result (λ out. out.undrawn ≡ false) }
        ensures err { OnErr result (self.new ≡ self.old) }
    {
        let room = Room::new(alloc)?;
        count(&mut self.back, call, second);
        self.rest(second);
        Ok(room.silence(Note::Dropped {
            why: drop_cause(why),
        }))
    }

    #[tactic(auto, using(crate::proofs::Made::counted_made))]
    fn deny(
        &mut self,
        alloc: Global,
        from: Side,
        call: &Call,
        why: Denial,
        second: u64,
    ) -> Mem<Outbox>
        requires few { self.old.steps < MOST_STEPS }
        requires fits { denial.Fits why }
        ensures is { IfOk result (λ out. (self.new, out) ≡ spec.denied second from call.now why self.old) }
        ensures drawn { IfOk result (λ out. out.undrawn ≡ false) }
        ensures err { OnErr result (self.new ≡ self.old) }
    {
        let room = Room::new(alloc)?;
        let accepted = call.accepted(&self.back);
        let bytes = deny(&mut self.back, alloc, call, why, second)?;
        self.rest(second);
        Ok(room.one_reply(accepted, going(from, bytes, None, denial_label(why))))
    }

    #[tactic(auto, using(crate::proofs::Made::counted_made))]
    pub(crate) fn fail(
        &mut self,
        alloc: Global,
        from: Side,
        call: &Call,
        failure: Stat,
        second: u64,
    ) -> Mem<Outbox>
        requires few { self.old.steps < MOST_STEPS }
        requires head { HasSpelling call.now }
        requires there { IsThere self.old.back call.now }
        requires failed { failure ≢ Stat.Success }
        requires fits { stat.Fits failure }
        ensures is { IfOk result (λ out. (self.new, out) ≡ spec.failed M.mic_of second from call.now failure self.old) }
        ensures drawn { IfOk result (λ out. out.undrawn ≡ false) }
        ensures err { OnErr result (self.new ≡ self.old) }
    {
        let room = Room::new(alloc)?;
        let accepted = call.accepted(&self.back);
        let bytes = fail(
            &mut self.back,
            alloc,
            call,
            failure,
            second,
            &self.setting.mech,
        )?;
        self.rest(second);
        Ok(room.one_reply(accepted, going(from, bytes, None, fault_label(failure))))
    }

    #[tactic(auto, using(crate::proofs::Made::counted_made))]
    fn on_null(&mut self, alloc: Global, from: Side, call: &Call, second: u64) -> Mem<Outbox>
        requires few { self.old.steps < MOST_STEPS }
        requires head { HasSpelling call.now }
        requires there { IsThere self.old.back call.now }
        ensures is { IfOk result (λ out. (self.new, out) ≡ spec.nulled M.mic_of second from call.now self.old) }
        ensures drawn { IfOk result (λ out. out.undrawn ≡ false) }
        ensures err { OnErr result (self.new ≡ self.old) }
    {
        let room = Room::new(alloc)?;
        let accepted = call.accepted(&self.back);
        let seal = reply_seal(&self.back, call);
        let bytes = answer_null(&mut self.back, alloc, call, second, &self.setting.mech)?;
        self.rest(second);
        Ok(room.one_reply(accepted, going(from, bytes, seal, done(CallLabel::Null))))
    }

    #[tactic(auto, using(crate::proofs::Made::ended_made))]
    fn on_destroy(&mut self, alloc: Global, from: Side, call: &Call, second: u64) -> Mem<Outbox>
        requires few { self.old.steps < MOST_STEPS }
        requires head { HasSpelling call.now }
        requires there { IsThere self.old.back call.now }
        ensures is { IfOk result (λ out. (self.new, out) ≡ spec.destroyed M.mic_of second from call.now self.old) }
        ensures drawn { IfOk result (λ out. out.undrawn ≡ false) }
        ensures err { OnErr result (self.new ≡ self.old) }
    {
        let room = Room::new(alloc)?;
        let accepted = call.accepted(&self.back);
        let seal = reply_seal(&self.back, call);
        let bytes = answer_destroy(&mut self.back, alloc, call, second, &self.setting.mech)?;
        self.rest(second);
        Ok(room.one_reply(accepted, going(from, bytes, seal, done(CallLabel::Destroy))))
    }

    /// The second comes, and the step is counted.
    fn rest(&mut self, second: u64)
        requires few { self.old.steps < MOST_STEPS }
        ensures { self.new ≡ spec.resting second self.old.back self.old }
    {
        self.second = second;
        self.steps += 1;
    }

    /// A context is made of a token, as every acceptor makes one.
    fn on_init<W: Draws>(
        &mut self,
        alloc: Global,
        from: Side,
        call: &Call,
        token: &[u8],
        second: u64,
        draws: &mut W,
    ) -> Mem<Outbox>
        requires few { self.old.steps < MOST_STEPS }
        ensures is { IfOk result (λ out. spec.IsInit M.mic_of (M.accepted self.old.setting.mech token.now) W.gives second from call.now self.old draws.old draws.new (self.new, out)) }
        ensures undrawn { IfOk result (λ out. out.undrawn ≡ true → Rose (W.faults draws.old) (W.faults draws.new)) }
        ensures err { OnErr result (self.new ≡ self.old) }
        ensures later { W.faults draws.old ≤ W.faults draws.new }
        ensures failing { W.failing draws.new ≡ W.failing draws.old }
    {
        let room = Room::new(alloc)?;
        let told = answer_init(
            &mut self.back,
            alloc,
            call,
            token,
            second,
            &self.setting.mech,
            draws,
        )?;
        self.steps += 1;
        if told.draw_failed {
            return Ok(room.undrawn());
        }
        let seal = told.seal(&self.back);
        self.second = second;
        Ok(room.one_reply(None, going(from, told.bytes, seal, init_label(told.major))))
    }

    /// A client gives no privileges.
    #[tactic(auto, unfolding(rpc_msg::specs::Heads::denial, rpc_msg::specs::Heads::stat))]
    fn on_create(
        &mut self,
        alloc: Global,
        from: Side,
        call: &Call,
        name: &[u8],
        privilege: &[u8],
        second: u64,
    ) -> Mem<Outbox>
        requires few { self.old.steps < MOST_STEPS }
        requires head { HasSpelling call.now }
        requires there { IsThere self.old.back call.now }
        ensures is { IfOk result (λ out. (self.new, out) ≡ spec.created (spec.is_misspelt (privilege_told name.now privilege.now)) M.mic_of second from call.now self.old) }
        ensures drawn { IfOk result (λ out. out.undrawn ≡ false) }
        ensures err { OnErr result (self.new ≡ self.old) }
    {
        if is_misspelt(alloc, name, privilege)? {
            return self.fail(alloc, from, call, Stat::Garbage, second);
        }
        let why = Denial::Auth(RPCSEC_GSS_PRIVILEGE_PROBLEM);
        let mut out = self.deny(alloc, from, call, why, second)?;
        out.notes.push(Note::Privilege {
            cause: PrivCause::Unknown,
        });
        Ok(out)
    }
}

fn init_label(major: u32) -> Label
    ensures { result ≡ Label.Reply CallLabel.Init major }
{
    Label::Reply {
        to: CallLabel::Init,
        status: major,
    }
}

/// Whether a privilege is misspelt.
fn is_misspelt(alloc: Global, name: &[u8], privilege: &[u8]) -> Mem<bool>
    ensures { IfOk result (λ bad. bad ≡ spec.is_misspelt (privilege_told name.now privilege.now)) }
{
    match read_privilege(alloc, name, privilege)? {
        Err(PrivFault::BadXdr { .. }) => Ok(true),
        Err(PrivFault::UnknownName) => Ok(false),
        Ok(_) => Ok(false),
    }
}
