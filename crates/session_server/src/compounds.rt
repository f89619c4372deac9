//! COMPOUND under a context (RFC 8881 section 16.2).

ghost use Rattle.std.specs.Prelude.{◌≡◌, ◌<◌, ◌≤◌, false, [], length, IfOk, Ok};
ghost use Rattle.nfs_base.specs.declared.limits.TheConstants.{TEXT_LIMIT};
ghost use Rattle.nfs_compound.specs.Compounds.{compound_of};
ghost use Rattle.rpc_calls.specs.Judging.{HasSpelling, IsAdmitted, IsThere};
ghost use Rattle.server_volume.specs.Moments.{Counted};
ghost use Rattle.server_volume.specs.Store.{seat_of};
ghost use Rattle.session_server.specs.declared.host.TheConstants.{MOST_STEPS};
ghost use Rattle.session_server.specs.Host.{host_of, rules_of, stepped_of, IsCounted};
ghost use Rattle.session_server.specs.Leaving.{IsStep};
ghost use Rattle.session_server.specs.Lengths.{AreShort};
ghost use Rattle.session_server.specs.Steps.{IsCompoundTurn, who_calls};

use crate::calls::{going_back, reply_seal};
use crate::extending::Extending;
use crate::host::Host;
use crate::labels::{compound_label, status_in};
use compound_server::Who;
use disk_model::Disk;
use gss_ctx::Context;
use nfs_compound::{Compound, read_compound};
use outbox::{Label, Outbox, Room};
use outcome::Mem;
use rpc_calls::{Call, Under, count};
use rpc_msg::Stat;
use sess_slots::MOST_REPLY;
use std::alloc::Global;

impl<D: Disk, X, C: Drop> Host<D, X, C> {
    /// Answers a COMPOUND that a context admitted, by its arguments.
    #[tactic(auto, using(crate::proofs::Turns::ran_unused), unfolding(rpc_msg::specs::Heads::stat))]
    pub(crate) fn on_compound(
        &mut self,
        alloc: Global,
        conn: u32,
        call: &Call,
        args: &[u8],
        second: u64,
    ) -> Mem<Outbox>
    where
        X: Extending<C>,
        requires few { self.old.steps < MOST_STEPS }
        requires counted { IsCounted X.given self.old }
        requires head { HasSpelling call.now }
        requires there { IsThere self.old.contexts call.now }
        requires admitted { IsAdmitted call.now }
        ensures is { D.Told → IfOk result (λ out. IsCompoundTurn (rules_of X.gated X.serves X.leaves X.lapses X.judges X.tells X.silent) (record { mic = X.Mech.mic_of; derived = X.Mech.derived }) second conn call.now (compound_of args.now) (host_of D.size self.old) (stepped_of D.size self.new out)) }
        ensures ran { IfOk result (λ out. Counted D.Told (seat_of D.size D.fuse D.timeline D.faults self.old.server.files.volume) (seat_of D.size D.fuse D.timeline D.faults self.new.server.files.volume) [] out.used) }
        ensures short { IfOk result (λ out. AreShort out.sent) }
        ensures drawn { IfOk result (λ out. out.undrawn ≡ false) }
        ensures step { IsStep X.given X.landed X.untold self.old self.new result }
    {
        match read_compound(alloc, args)? {
            Ok(compound) => self.evaluate(alloc, conn, call, compound, second),
            Err(_) => self.fail(alloc, conn, call, Stat::Garbage, second),
        }
    }

    /// Evaluates a COMPOUND that was read. The room of its answer is taken first.
    fn evaluate(
        &mut self,
        alloc: Global,
        conn: u32,
        call: &Call,
        compound: Compound,
        second: u64,
    ) -> Mem<Outbox>
    where
        X: Extending<C>,
        requires few { self.old.steps < MOST_STEPS }
        requires counted { IsCounted X.given self.old }
        requires head { HasSpelling call.now }
        requires there { IsThere self.old.contexts call.now }
        requires admitted { IsAdmitted call.now }
        requires tag { length compound.tag ≤ TEXT_LIMIT }
        requires short { length compound.ops ≤ compound.count }
        ensures is { D.Told → IfOk result (λ out. IsCompoundTurn (rules_of X.gated X.serves X.leaves X.lapses X.judges X.tells X.silent) (record { mic = X.Mech.mic_of; derived = X.Mech.derived }) second conn call.now (Ok compound) (host_of D.size self.old) (stepped_of D.size self.new out)) }
        ensures ran { IfOk result (λ out. Counted D.Told (seat_of D.size D.fuse D.timeline D.faults self.old.server.files.volume) (seat_of D.size D.fuse D.timeline D.faults self.new.server.files.volume) [] out.used) }
        ensures short { IfOk result (λ out. AreShort out.sent) }
        ensures drawn { IfOk result (λ out. out.undrawn ≡ false) }
        ensures step { IsStep X.given X.landed X.untold self.old self.new result }
    {
        let room = Room::new(alloc)?;
        let accepted = call.accepted(&self.contexts);
        let seal = reply_seal(&self.contexts, call);
        let label = compound_label(compound.ops.as_slice());
        let under = call.under.unwrap();
        let sealer = self.contexts.sealer(
            alloc,
            under.number,
            under.seq,
            &call.head,
            MOST_REPLY,
            self.server.files.extra.mech(),
        )?;
        let context = self.contexts.context(under.number).unwrap();
        let who = who_calls(second, conn, under, context);
        let told = self.server.on_compound(
            alloc,
            &who,
            context.principal.as_slice(),
            &context.carry,
            compound,
        )?;
        count(&mut self.contexts, call, second);
        self.second = second;
        self.steps += 1;
        let status = status_in(told.body.as_slice());
        let bytes = sealer.seal(told.body.as_slice(), self.server.files.extra.mech());
        let label = Label::Reply { to: label, status };
        let mut out = room.one_reply(accepted, going_back(conn, bytes, seal, label));
        out.used = told.used;
        self.server.files.extra.tell(&mut out.notes);
        Ok(out)
    }
}

/// By whom a call under a context is made.
fn who_calls<C>(second: u64, conn: u32, under: Under, context: &Context<C>) -> Who
    ensures { result ≡ who_calls second conn under context.now }
{
    let root = match context.parent {
        Some(parent) => parent,
        None => under.number,
    };
    Who {
        context: under.number,
        root,
        conn,
        second,
    }
}
