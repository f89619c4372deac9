//! A server, and a step of it.

ghost use Rattle.std.specs.Prelude.{◌≡◌, ◌+◌, ◌<◌, ◌≤◌, [], true, max, IfOk, OnErr};
ghost use Rattle.outcome.specs.Causes.{Rose};
ghost use Rattle.rpc_calls.specs.Judging.{IsSound, IsSoundWhere, judged_of};
ghost use Rattle.server_volume.specs.Moments.{Counted};
ghost use Rattle.server_volume.specs.Store.{seat_of};
ghost use Rattle.session_server.specs.Host.{host_of, rules_of, stepped_of, IsCounted, IsCountedBy, KeepsOwn};
ghost use Rattle.session_server.specs.Leaving.{IsStep, IsStill};
ghost use Rattle.session_server.specs.Lengths.{AreShort};
ghost use Rattle.session_server.specs.Steps.{IsTurn, IsCallTurn, dropped, rested};

use crate::empty::Empty;
use crate::extending::Extending;
use compound_server::Server;
use disk_model::Disk;
use gss_ctx::Contexts;
use outbox::{Dropped, Note, Outbox, Room};
use outcome::Mem;
use rpc_calls::{Call, Judged, Program, What, judge};
use std::alloc::Global;
use streams::Draws;

/// How many steps a server makes at most.
pub const MOST_STEPS: u32 = 67_108_863;

/// A server: its contexts, its files, and its clients with their sessions.
#[derive(Drop)]
pub struct Host<D: Disk, X, C> {
    pub contexts: Contexts<C>,
    pub server: Server<D, X>,

    /// The greatest second that it was given.
    pub second: u64,

    /// How many steps it made.
    pub steps: u32,
}

impl<D: Disk, X, C: Drop> Host<D, X, C> {
    /// The second by which a server goes that is given this one: the greatest so far.
    pub fn second_at(&self, now: u64) -> u64
        ensures { result ≡ max self.now.second now }
    {
        self.second.max(now)
    }

    /// What a record is to this server in a second.
    pub fn judge(&self, alloc: Global, record_: &[u8], second: u64) -> Mem<Judged>
    where
        X: Extending<C>,
        ensures judged { IfOk result (λ judged. judged ≡ judged_of X.Mech.mic_of second Program.NFS record_.now self.now.contexts) }
        ensures sound { IfOk result (IsSoundWhere second self.now.contexts) }
    {
        judge(
            alloc,
            &self.contexts,
            record_,
            second,
            self.server.files.extra.mech(),
            Program::NFS,
        )
    }

    /// Takes a record that comes on a connection, and answers it: one step. A record that can't be read is dropped, and
    /// so is a reply, since this server calls nobody; a call is answered by what it is, a COMPOUND that is admitted after
    /// it was executed. Without memory the server is as before.
    #[tactic(auto, using(crate::proofs::Turns::ran_unused, crate::proofs::Turns::none_failed))]
    pub fn on_record<W: Draws>(
        &mut self,
        alloc: Global,
        conn: u32,
        record_: &[u8],
        now: u64,
        draws: &mut W,
    ) -> Mem<Outbox>
    where
        X: Extending<C>,
        requires few { self.old.steps < MOST_STEPS }
        requires counted { IsCounted X.given self.old }
        ensures turn { D.Told → IfOk result (λ out. IsTurn (rules_of X.gated X.serves X.leaves X.lapses X.judges X.tells X.silent) (record { mic = X.Mech.mic_of; derived = X.Mech.derived }) (X.Mech.accepted (X.mech_of self.old.server.files.extra)) W.gives conn record_.now now (host_of D.size self.old) draws.old draws.new (stepped_of D.size self.new out)) }
        ensures ran { IfOk result (λ out. Counted D.Told (seat_of D.size D.fuse D.timeline D.faults self.old.server.files.volume) (seat_of D.size D.fuse D.timeline D.faults self.new.server.files.volume) [] out.used) }
        ensures short { IfOk result (λ out. AreShort out.sent) }
        ensures undrawn { IfOk result (λ out. out.undrawn ≡ true → Rose (W.faults draws.old) (W.faults draws.new)) }
        ensures steps { IfOk result (λ _. self.new.steps ≡ self.old.steps + 1) }
        ensures err { OnErr result (self.new ≡ self.old) }
        ensures counted { IsCounted X.given self.new }
        ensures own { KeepsOwn X.landed X.untold self.old self.new }
        ensures later { W.faults draws.old ≤ W.faults draws.new }
        ensures failing { W.failing draws.new ≡ W.failing draws.old }
    {
        let second = self.second_at(now);
        match self.judge(alloc, record_, second)? {
            Judged::Unread => self.drop_record(alloc, second, Dropped::Unread),
            Judged::Reply => self.drop_record(alloc, second, Dropped::Unmatched),
            Judged::Call(call) => self.on_call(alloc, conn, &call, second, draws),
        }
    }

    /// Answers a call that was judged in this second. The server goes by it from then on, whatever it went by before: whoever
    /// judges by [`Host::second_at`] gives the greatest so far.
    #[tactic(auto, using(crate::proofs::Turns::ran_unused, crate::proofs::Turns::none_failed))]
    pub fn on_call<W: Draws>(
        &mut self,
        alloc: Global,
        conn: u32,
        call: &Call,
        second: u64,
        draws: &mut W,
    ) -> Mem<Outbox>
    where
        X: Extending<C>,
        requires few { self.old.steps < MOST_STEPS }
        requires counted { IsCounted X.given self.old }
        requires sound { IsSound second self.old.contexts call.now }
        ensures turn { D.Told → IfOk result (λ out. IsCallTurn (rules_of X.gated X.serves X.leaves X.lapses X.judges X.tells X.silent) (record { mic = X.Mech.mic_of; derived = X.Mech.derived }) (X.Mech.accepted (X.mech_of self.old.server.files.extra)) W.gives second conn call.now (host_of D.size self.old) draws.old draws.new (stepped_of D.size self.new out)) }
        ensures ran { IfOk result (λ out. Counted D.Told (seat_of D.size D.fuse D.timeline D.faults self.old.server.files.volume) (seat_of D.size D.fuse D.timeline D.faults self.new.server.files.volume) [] out.used) }
        ensures short { IfOk result (λ out. AreShort out.sent) }
        ensures undrawn { IfOk result (λ out. out.undrawn ≡ true → Rose (W.faults draws.old) (W.faults draws.new)) }
        ensures steps { IfOk result (λ _. self.new.steps ≡ self.old.steps + 1) }
        ensures err { OnErr result (self.new ≡ self.old) }
        ensures counted { IsCounted X.given self.new }
        ensures own { KeepsOwn X.landed X.untold self.old self.new }
        ensures later { W.faults draws.old ≤ W.faults draws.new }
        ensures failing { W.failing draws.new ≡ W.failing draws.old }
    {
        match &call.what {
            What::Dropped(why) => self.drop_call(alloc, call, *why, second),
            What::Denied(why) => self.deny(alloc, conn, call, *why, second),
            What::Failed(failure) => self.fail(alloc, conn, call, *failure, second),
            What::Null => self.on_empty(alloc, conn, call, Empty::Null, second),
            What::Init { token } => self.on_init(
                alloc,
                conn,
                call,
                token.as_slice(),
                second,
                draws,
            ),
            What::Create { name, privilege } => self.on_create(
                alloc,
                conn,
                call,
                name.as_slice(),
                privilege.as_slice(),
                second,
            ),
            What::Destroy => self.on_empty(alloc, conn, call, Empty::Destroy, second),
            What::Compound { args } => {
                self.on_compound(alloc, conn, call, args.as_slice(), second)
            }
        }
    }

    /// A second comes by itself.
    pub fn tick(&mut self, now: u64)
    where
        X: Extending<C>,
        requires few { self.old.steps < MOST_STEPS }
        requires counted { IsCounted X.given self.old }
        ensures is { host_of D.size self.new ≡ rested (record { leave = X.leaves; lapse = X.lapses }) (max self.old.second now) self.old.contexts (host_of D.size self.old) }
        ensures volume { self.new.server.files.volume ≡ self.old.server.files.volume }
        ensures counted { IsCounted X.given self.new }
    {
        let second = self.second_at(now);
        self.rest(second);
    }

    /// The second has come, with what that does to what the server has of its own, and the step is counted.
    pub(crate) fn rest(&mut self, second: u64)
    where
        X: Extending<C>,
        requires few { self.old.steps < MOST_STEPS }
        requires counted { IsCountedBy X.given (self.old.steps + 1) self.old }
        ensures rested { self.new ≡ record self.old { server = record self.old.server { files = record self.old.server.files { extra = X.lapses second self.old.server.files.extra } }; second = second; steps = self.old.steps + 1 } }
        ensures counted { IsCounted X.given self.new }
    {
        self.server.files.extra.lapse(second);
        self.second = second;
        self.steps += 1;
    }

    /// A record that isn't a call gets no answer.
    fn drop_record(&mut self, alloc: Global, second: u64, why: Dropped) -> Mem<Outbox>
    where
        X: Extending<C>,
        requires few { self.old.steps < MOST_STEPS }
        requires counted { IsCounted X.given self.old }
        ensures is { IfOk result (λ out. stepped_of D.size self.new out ≡ dropped (record { leave = X.leaves; lapse = X.lapses }) second self.old.contexts (Note.Dropped why) (host_of D.size self.old)) }
        ensures still { IsStill self.old self.new result }
        ensures short { IfOk result (λ out. AreShort out.sent) }
        ensures step { IsStep X.given X.landed X.untold self.old self.new result }
    {
        let room = Room::new(alloc)?;
        self.rest(second);
        Ok(room.silence(Note::Dropped { why }))
    }
}
