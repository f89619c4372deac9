ghost use Rattle.std.specs.Prelude.{◌≡◌, ◌<◌, ◌≤◌, true, false, IfOk, OnErr};
ghost use Rattle.outcome.specs.Causes.{Rose};
ghost use Rattle.client_core.specs.Endings.{ways_of};
ghost use Rattle.client_leaving.specs.Leaving as spec;
ghost use Rattle.client_core.specs.declared.client.TheConstants.{MOST_STEPS};
ghost use Rattle.client_steps.specs.declared.parting.Parting.TheVariants as partings;

use client_core::Client;
use client_steps::Parting;
use gss_mech::Mechanism;
use nfs_base::Side;
use outbox::Outbox;
use outcome::Mem;
use rpc_calls::Judged;
use std::alloc::Global;
use streams::Draws;

/// A client that is to ask nothing more, and takes leave of its servers: it closes what is open, and ends its sessions and
/// contexts. It is meant for one of whom no answer is awaited ([`Client::awaits`]); what else was awaited of a server stays so
/// until that server's setup is down.
#[derive(Drop)]
pub struct Leaving<M> {
    pub client: Client<M>,

    /// What the source was asked last.
    pub source: Parting,

    /// What the destination was asked last.
    pub dest: Parting,
}

impl<M> Leaving<M> {
    /// No leave was taken yet.
    pub fn new(client: Client<M>) -> Leaving<M>
        ensures { result ≡ record { client = client; source = partings.Done; dest = partings.Done } }
    {
        Leaving {
            client,
            source: Parting::Done,
            dest: Parting::Done,
        }
    }

    fn parting(&self, side: Side) -> Parting
        ensures { result ≡ spec.parting_at side self.now }
    {
        match side {
            Side::Source => self.source,
            Side::Dest => self.dest,
        }
    }

    fn set_parting(&mut self, side: Side, parting: Parting)
        ensures { self.new ≡ spec.with_parting side parting self.old }
    {
        match side {
            Side::Source => self.source = parting,
            Side::Dest => self.dest = parting,
        }
    }
}

impl<M: Mechanism> Leaving<M> {
    /// Takes leave of each server that is set up: CLOSE of the lowest file that is open there goes out, or DESTROY_SESSION where
    /// none is (RFC 8881 sections 18.2 and 18.37).
    pub fn farewell(&mut self, alloc: Global, now: u64) -> Mem<Outbox>
        requires few { self.old.client.steps < MOST_STEPS }
        ensures is { IfOk result (λ out. (self.new, out) ≡ spec.farewell_step M.mic_of now self.old) }
        ensures err { OnErr result (self.new ≡ self.old) }
    {
        let mut course = self.client.course(alloc, now)?;
        let mech = &self.client.setting().mech;
        let source = course.desk.leave(alloc, Side::Source, mech)?;
        let dest = course.desk.leave(alloc, Side::Dest, mech)?;
        self.source = source;
        self.dest = dest;
        Ok(self.client.end(course))
    }

    /// Takes a record that comes from a server. The answer to what was asked of it last lets the next call go: CLOSE of each open
    /// file, the lowest first, DESTROY_SESSION, DESTROY_CLIENTID and the context's DESTROY. After the answer to that the server's
    /// setup is down, and so it is after a denial, or where a CLOSE is answered that the session is gone. Anything but a reply
    /// is taken as by [`Client::on_record`].
    pub fn on_record<W: Draws>(
        &mut self,
        alloc: Global,
        from: Side,
        record_: &[u8],
        now: u64,
        draws: &mut W,
    ) -> Mem<Outbox>
        requires few { self.old.client.steps < MOST_STEPS }
        ensures is { IfOk result (λ out. spec.IsRecord (ways_of M.mic_of M.derived M.finished M.started M.accepted self.old.client.setting) W.gives from record_.now now self.old draws.old draws.new (self.new, out)) }
        ensures undrawn { IfOk result (λ out. out.undrawn ≡ true → Rose (W.faults draws.old) (W.faults draws.new)) }
        ensures err { OnErr result (self.new ≡ self.old) }
        ensures later { W.faults draws.old ≤ W.faults draws.new }
        ensures failing { W.failing draws.new ≡ W.failing draws.old }
    {
        match self.client.judge(alloc, record_, now)? {
            Judged::Reply => self.on_reply(alloc, from, record_, now),
            Judged::Unread | Judged::Call(_) => self
                .client
                .on_record(alloc, from, record_, now, draws),
        }
    }

    fn on_reply(&mut self, alloc: Global, from: Side, record_: &[u8], now: u64) -> Mem<Outbox>
        requires few { self.old.client.steps < MOST_STEPS }
        ensures is { IfOk result (λ out. (self.new, out) ≡ spec.reply_step (ways_of M.mic_of M.derived M.finished M.started M.accepted self.old.client.setting).means from record_.now now self.old) }
        ensures drawn { IfOk result (λ out. out.undrawn ≡ false) }
        ensures err { OnErr result (self.new ≡ self.old) }
    {
        let mut course = self.client.course(alloc, now)?;
        let parting = self.parting(from);
        let setting = self.client.setting();
        let queues = self.client.queues();
        let next = course.on_parting_reply(alloc, setting, queues, from, parting, record_)?;
        let out = self.client.end(course);
        self.set_parting(from, next);
        Ok(out)
    }
}
