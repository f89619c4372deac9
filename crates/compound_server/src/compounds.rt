//! COMPOUND in a session (RFC 8881 sections 2.10.6, 16.2 and 18.46).

ghost use Rattle.std.specs.Prelude.{◌≡◌, ◌==◌, ◌*◌, ◌+◌, ◌-◌, ◌≤◌, ◌<◌, ◌^◌, [], length, map, IfOk, OnErr, IsSome};
ghost use Rattle.nfs_base.specs.declared.limits.TheConstants.{DATA_LIMIT, MOST_OPERATIONS, SLOTS, TEXT_LIMIT};
ghost use Rattle.file_server.specs.declared.progress.TheConstants.{MOST_RESULT};
ghost use Rattle.compound_server.specs.Refusals.{tail_refusal};
ghost use Rattle.sess_slots.specs.declared.answers.Begin.{Begin};
ghost use Rattle.file_server.specs.Answering.{Ready, IsNew};
ghost use Rattle.server_volume.specs.Moments.{Counted};
ghost use Rattle.server_volume.specs.Store.{seat_of};
ghost use Rattle.sess_slots.specs.Begins.{client_at, reply_at};
ghost use Rattle.sess_slots.specs.Table.{numbers_made};
ghost use Rattle.compound_server.specs.Compounds.{on_compound, kept_bytes, tail_results, by_minor, unless_many, by_first, by_begin, sequence, outside_session, alone_refusal, minor_refusal, executed, caller_at, first_number};
ghost use Rattle.compound_server.specs.Preparing.{op_of, AreSuited};
ghost use Rattle.compound_server.specs.State.{Gives, IsCounted, answered_by, begun, given_of, refusal, state_of, with_own};
ghost use Rattle.compound_server.specs.Walking.{walk};

use crate::preparing::{PreparedOps, prepare};
use crate::refusing::{stands_alone, tail_refusal};
use crate::replying::{HEAD_ROOM, REFUSAL_ROOM, put_head, put_refusal, put_sequence};
use crate::server::Server;
use crate::serving::Serving;
use crate::who::Who;
use disk_model::Disk;
use file_ops::{FileArg, OP_ILLEGAL, OP_SEQUENCE, SequenceArgs};
use file_server::{Caller, Progress};
use nfs_base::{MOST_OPERATIONS, Status};
use nfs_compound::{Compound, MINOR_VERSION, Op, Tail};
use outcome::Mem;
use server_volume::CallList;
use sess_slots::{Begin, MOST_REPLY, Place};
use std::alloc::Global;
use wire_xdr::{Octets, Page};

/// What a COMPOUND gives besides the server's new state.
#[derive(Drop)]
pub struct Reply {
    /// The reply's body, COMPOUND4res.
    pub body: Octets,

    /// The calls on the volume, in order.
    pub used: CallList,
}

impl<D: Disk, X> Server<D, X> {
    /// Answers a COMPOUND. A new number on a slot is executed and its reply kept; a retry is answered with the reply that
    /// is kept. Without memory the server is as before.
    #[tactic(auto, unfolding(crate::specs::Compounds::on_compound))]
    pub fn on_compound<C>(
        &mut self,
        alloc: Global,
        who: &Who,
        principal: &[u8],
        carry: &Option<C>,
        compound: Compound,
    ) -> Mem<Reply>
    where
        X: Serving<C>,
        requires tag { length compound.tag ≤ TEXT_LIMIT }
        requires few { length compound.ops ≤ compound.count }
        requires numbered { numbers_made self.old.sessions < 2 ^ 32 - 1 }
        requires opens { self.old.files.opens.made + MOST_OPERATIONS < 2 ^ 32 }
        requires own { X.given self.old.files.extra + MOST_OPERATIONS < 2 ^ 32 }
        ensures gives { D.Told → IfOk result (λ told. Gives (λ choice. on_compound (record { gate = X.gated; serve = X.serves }) (record { leave = X.leaves; lapse = X.lapses }) choice who.now principal.now carry.now compound (state_of D.size self.old)) (state_of D.size self.new) told.used told.body) }
        ensures short { IfOk result (λ told. length told.body ≤ MOST_REPLY) }
        ensures ran { IfOk result (λ told. Counted D.Told (seat_of D.size D.fuse D.timeline D.faults self.old.files.volume) (seat_of D.size D.fuse D.timeline D.faults self.new.files.volume) [] told.used) }
        ensures err { OnErr result (self.new ≡ self.old) }
        ensures counted { IsCounted X.given X.landed self.old self.new }
    {
        let Compound {
            tag,
            minor,
            count,
            ops,
            tail,
        } = compound;
        if minor != MINOR_VERSION {
            return self.refuse_minor(alloc, who, tag.as_slice());
        }
        if count > MOST_OPERATIONS {
            let op = first_number(ops.as_slice(), tail);
            return self.refuse(alloc, who, tag.as_slice(), op, Status::TOO_MANY_OPS);
        }
        self.by_first(
            alloc,
            who,
            principal,
            carry,
            tag.as_slice(),
            count,
            ops.into_vec(),
            tail,
        )
    }

    /// A compound of another minor version has no results.
    fn refuse_minor<C>(&mut self, alloc: Global, who: &Who, tag: &[u8]) -> Mem<Reply>
    where
        X: Serving<C>,
        requires { length tag.now ≤ TEXT_LIMIT }
        ensures gives { IfOk result (λ told. given_of D.size self.new told ≡ minor_refusal tag.now (with_own (X.lapses who.now.second self.old.files.extra) (state_of D.size self.old))) }
        ensures short { IfOk result (λ told. length told.body ≤ MOST_REPLY) }
        ensures volume { self.new.files.volume ≡ self.old.files.volume }
        ensures err { OnErr result (self.new ≡ self.old) }
        ensures counted { IsCounted X.given X.landed self.old self.new }
    {
        let used = CallList::new(alloc)?;
        let mut page = Page::new(alloc, HEAD_ROOM + tag.len())?;
        put_head(&mut page, Status::MINOR_VERS_MISMATCH, tag, 0);
        self.files.extra.lapse(who.second);
        Ok(Reply {
            body: page.finish(),
            used,
        })
    }

    /// One operation is answered by a status alone.
    pub(crate) fn refuse<C>(
        &mut self,
        alloc: Global,
        who: &Who,
        tag: &[u8],
        op: u32,
        status: Status,
    ) -> Mem<Reply>
    where
        X: Serving<C>,
        requires { length tag.now ≤ TEXT_LIMIT }
        ensures gives { IfOk result (λ told. given_of D.size self.new told ≡ refusal (with_own (X.lapses who.now.second self.old.files.extra) (state_of D.size self.old)) tag.now op status) }
        ensures short { IfOk result (λ told. length told.body ≤ MOST_REPLY) }
        ensures volume { self.new.files.volume ≡ self.old.files.volume }
        ensures err { OnErr result (self.new ≡ self.old) }
        ensures counted { IsCounted X.given X.landed self.old self.new }
    {
        let used = CallList::new(alloc)?;
        let mut page = Page::new(alloc, HEAD_ROOM + tag.len() + REFUSAL_ROOM)?;
        put_refusal(&mut page, status, tag, op);
        self.files.extra.lapse(who.second);
        Ok(Reply {
            body: page.finish(),
            used,
        })
    }

    #[tactic(auto, unfolding(crate::specs::Compounds::by_first))]
    fn by_first<C>(
        &mut self,
        alloc: Global,
        who: &Who,
        principal: &[u8],
        carry: &Option<C>,
        tag: &[u8],
        count: u32,
        mut ops: Vec<Op>,
        tail: Tail,
    ) -> Mem<Reply>
    where
        X: Serving<C>,
        requires tag { length tag.now ≤ TEXT_LIMIT }
        requires few { length ops.items ≤ MOST_OPERATIONS }
        requires numbered { numbers_made self.old.sessions < 2 ^ 32 - 1 }
        requires opens { self.old.files.opens.made + MOST_OPERATIONS < 2 ^ 32 }
        requires own { X.given self.old.files.extra + MOST_OPERATIONS < 2 ^ 32 }
        ensures gives { D.Told → IfOk result (λ told. Gives (λ choice. by_first (record { gate = X.gated; serve = X.serves }) (record { leave = X.leaves; lapse = X.lapses }) choice who.now principal.now carry.now tag.now count ops.items tail (with_own (X.lapses who.now.second self.old.files.extra) (state_of D.size self.old))) (state_of D.size self.new) told.used told.body) }
        ensures short { IfOk result (λ told. length told.body ≤ MOST_REPLY) }
        ensures ran { IfOk result (λ told. Counted D.Told (seat_of D.size D.fuse D.timeline D.faults self.old.files.volume) (seat_of D.size D.fuse D.timeline D.faults self.new.files.volume) [] told.used) }
        ensures err { OnErr result (self.new ≡ self.old) }
        ensures counted { IsCounted X.given X.landed self.old self.new }
    {
        if ops.is_empty() {
            return self.at_tail(alloc, who, tag, tail);
        }
        let first = ops.remove(0);
        match &first {
            Op::File(FileArg::Sequence(args)) => {
                let told = self.on_sequence(alloc, who, carry, tag, args, ops, tail);
                drop(first);
                told
            }
            _ => {
                let told = self.outside_session(alloc, who, principal, carry, tag, count, &first);
                drop(first);
                told
            }
        }
    }

    /// No operation was read: what answers the one that couldn't be read or isn't served, if there is one.
    fn at_tail<C>(&mut self, alloc: Global, who: &Who, tag: &[u8], tail: Tail) -> Mem<Reply>
    where
        X: Serving<C>,
        requires { length tag.now ≤ TEXT_LIMIT }
        ensures gives { IfOk result (λ told. given_of D.size self.new told ≡ answered_by (with_own (X.lapses who.now.second self.old.files.extra) (state_of D.size self.old)) tag.now (tail_results (tail_refusal tail))) }
        ensures short { IfOk result (λ told. length told.body ≤ MOST_REPLY) }
        ensures volume { self.new.files.volume ≡ self.old.files.volume }
        ensures err { OnErr result (self.new ≡ self.old) }
        ensures counted { IsCounted X.given X.landed self.old self.new }
    {
        match tail_refusal(tail) {
            Some(refusal) => self.refuse(alloc, who, tag, refusal.op, refusal.status),
            None => self.tell_nothing(alloc, who, tag),
        }
    }

    /// A compound of no operations is done.
    fn tell_nothing<C>(&mut self, alloc: Global, who: &Who, tag: &[u8]) -> Mem<Reply>
    where
        X: Serving<C>,
        requires { length tag.now ≤ TEXT_LIMIT }
        ensures gives { IfOk result (λ told. given_of D.size self.new told ≡ answered_by (with_own (X.lapses who.now.second self.old.files.extra) (state_of D.size self.old)) tag.now []) }
        ensures short { IfOk result (λ told. length told.body ≤ MOST_REPLY) }
        ensures volume { self.new.files.volume ≡ self.old.files.volume }
        ensures err { OnErr result (self.new ≡ self.old) }
        ensures counted { IsCounted X.given X.landed self.old self.new }
    {
        let used = CallList::new(alloc)?;
        let mut page = Page::new(alloc, HEAD_ROOM + tag.len())?;
        put_head(&mut page, Status::OK, tag, 0);
        self.files.extra.lapse(who.second);
        Ok(Reply {
            body: page.finish(),
            used,
        })
    }

    #[tactic(auto, unfolding(crate::specs::Compounds::outside_session))]
    fn outside_session<C>(
        &mut self,
        alloc: Global,
        who: &Who,
        principal: &[u8],
        carry: &Option<C>,
        tag: &[u8],
        count: u32,
        op: &Op,
    ) -> Mem<Reply>
    where
        X: Serving<C>,
        requires tag { length tag.now ≤ TEXT_LIMIT }
        requires numbered { numbers_made self.old.sessions < 2 ^ 32 - 1 }
        ensures gives { IfOk result (λ told. given_of D.size self.new told ≡ outside_session (record { gate = X.gated; serve = X.serves }) (record { leave = X.leaves; lapse = X.lapses }) who.now principal.now carry.now tag.now count op.now (with_own (X.lapses who.now.second self.old.files.extra) (state_of D.size self.old))) }
        ensures short { IfOk result (λ told. length told.body ≤ MOST_REPLY) }
        ensures volume { self.new.files.volume ≡ self.old.files.volume }
        ensures err { OnErr result (self.new ≡ self.old) }
        ensures counted { IsCounted X.given X.landed self.old self.new }
    {
        let number = op.number();
        if !stands_alone(number) {
            return self.refuse(alloc, who, tag, number, Status::OP_NOT_IN_SESSION);
        }
        if let Some(status) = self.alone_refusal(who, carry, count, number) {
            return self.refuse(alloc, who, tag, number, status);
        }
        match op {
            Op::File(FileArg::ExchangeId(args)) => self.exchange_id(
                alloc, who, principal, tag, args,
            ),
            Op::File(FileArg::CreateSession(args)) => self.create_session(alloc, who, tag, args),
            Op::File(FileArg::DestroySession(id)) => self.destroy_session(alloc, who, tag, id),
            Op::File(FileArg::DestroyClientId(client)) => self.destroy_clientid(
                alloc, who, tag, *client,
            ),
            _ => self.refuse(alloc, who, tag, number, Status::OP_NOT_IN_SESSION),
        }
    }

    /// Why an operation that stands alone isn't evaluated.
    fn alone_refusal<C>(
        &mut self,
        who: &Who,
        carry: &Option<C>,
        count: u32,
        op: u32,
    ) -> Option<Status>
    where
        X: Serving<C>,
        ensures refusal { result ≡ alone_refusal (count == 1) (record { gate = X.gated; serve = X.serves }) who.now carry.now op (X.lapses who.now.second self.old.files.extra) }
        ensures same { self.new ≡ self.old }
    {
        if count != 1 {
            return Some(Status::NOT_ONLY_OP);
        }
        let caller = Caller {
            client: 0,
            session: 0,
            context: who.context,
            second: who.second,
        };
        self.gate_refusal(&caller, carry, op)
    }

    #[tactic(auto, unfolding(crate::specs::Compounds::sequence))]
    fn on_sequence<C>(
        &mut self,
        alloc: Global,
        who: &Who,
        carry: &Option<C>,
        tag: &[u8],
        args: &SequenceArgs,
        ops: Vec<Op>,
        tail: Tail,
    ) -> Mem<Reply>
    where
        X: Serving<C>,
        requires tag { length tag.now ≤ TEXT_LIMIT }
        requires few { length ops.items < MOST_OPERATIONS }
        requires opens { self.old.files.opens.made + MOST_OPERATIONS < 2 ^ 32 }
        requires own { X.given self.old.files.extra + MOST_OPERATIONS < 2 ^ 32 }
        ensures gives { D.Told → IfOk result (λ told. Gives (λ choice. sequence (record { gate = X.gated; serve = X.serves }) choice who.now carry.now tag.now args.now ops.items tail (with_own (X.lapses who.now.second self.old.files.extra) (state_of D.size self.old))) (state_of D.size self.new) told.used told.body) }
        ensures short { IfOk result (λ told. length told.body ≤ MOST_REPLY) }
        ensures ran { IfOk result (λ told. Counted D.Told (seat_of D.size D.fuse D.timeline D.faults self.old.files.volume) (seat_of D.size D.fuse D.timeline D.faults self.new.files.volume) [] told.used) }
        ensures err { OnErr result (self.new ≡ self.old) }
        ensures counted { IsCounted X.given X.landed self.old self.new }
    {
        match self
            .sessions
            .begin(&args.session, args.slot, args.sequence, who.root)
        {
            Begin::New(place) => self.execute(alloc, who, place, carry, tag, args, ops, tail),
            Begin::Replay(place) => self.replay(alloc, who, place),
            Begin::FalseRetry => self.refuse(alloc, who, tag, OP_SEQUENCE, Status::SEQ_FALSE_RETRY),
            Begin::BadSession => self.refuse(alloc, who, tag, OP_SEQUENCE, Status::BADSESSION),
            Begin::BadSlot => self.refuse(alloc, who, tag, OP_SEQUENCE, Status::BADSLOT),
            Begin::Misordered => self.refuse(alloc, who, tag, OP_SEQUENCE, Status::SEQ_MISORDERED),
        }
    }

    /// A retry is answered with the reply that was kept.
    fn replay<C>(&mut self, alloc: Global, who: &Who, place: Place) -> Mem<Reply>
    where
        X: Serving<C>,
        requires slot { place.slot < SLOTS }
        requires kept { IsSome (reply_at self.old.sessions place) }
        ensures gives { IfOk result (λ told. given_of D.size self.new told ≡ record { state = with_own (X.lapses who.now.second self.old.files.extra) (state_of D.size self.old); used = []; body = kept_bytes (reply_at self.old.sessions place) }) }
        ensures short { IfOk result (λ told. length told.body ≤ MOST_REPLY) }
        ensures volume { self.new.files.volume ≡ self.old.files.volume }
        ensures err { OnErr result (self.new ≡ self.old) }
        ensures counted { IsCounted X.given X.landed self.old self.new }
    {
        let used = CallList::new(alloc)?;
        let body = Octets::from_slice(alloc, self.sessions.kept(place))?;
        self.files.extra.lapse(who.second);
        Ok(Reply { body, used })
    }

    /// A new number is executed: all memory first.
    fn execute<C>(
        &mut self,
        alloc: Global,
        who: &Who,
        place: Place,
        carry: &Option<C>,
        tag: &[u8],
        args: &SequenceArgs,
        ops: Vec<Op>,
        tail: Tail,
    ) -> Mem<Reply>
    where
        X: Serving<C>,
        requires tag { length tag.now ≤ TEXT_LIMIT }
        requires few { length ops.items < MOST_OPERATIONS }
        requires there { IsSome (client_at self.old.sessions place.session) }
        requires slot { place.slot < SLOTS }
        requires opens { self.old.files.opens.made + MOST_OPERATIONS < 2 ^ 32 }
        requires own { X.given self.old.files.extra + MOST_OPERATIONS < 2 ^ 32 }
        ensures gives { D.Told → IfOk result (λ told. Gives (λ choice. by_begin (Begin.New place) (record { gate = X.gated; serve = X.serves }) choice who.now carry.now tag.now args.now ops.items tail (with_own (X.lapses who.now.second self.old.files.extra) (state_of D.size self.old))) (state_of D.size self.new) told.used told.body) }
        ensures short { IfOk result (λ told. length told.body ≤ MOST_REPLY) }
        ensures ran { IfOk result (λ told. Counted D.Told (seat_of D.size D.fuse D.timeline D.faults self.old.files.volume) (seat_of D.size D.fuse D.timeline D.faults self.new.files.volume) [] told.used) }
        ensures err { OnErr result (self.new ≡ self.old) }
        ensures counted { IsCounted X.given X.landed self.old self.new }
    {
        let body = Page::new(alloc, MOST_REPLY)?;
        let kept = Page::new(alloc, MOST_REPLY)?;
        let p = Progress::new(alloc, MOST_OPERATIONS)?;
        let prepared = prepare(alloc, &self.files.extra, carry, ops)?;
        self.files.extra.lapse(who.second);
        let client = self.sessions.client_of(place);
        let caller = Caller {
            client,
            session: place.session,
            context: who.context,
            second: who.second,
        };
        Ok(self.carry_out(
            who, place, &caller, carry, tag, args, prepared, tail, p, body, kept,
        ))
    }

    /// The operations are evaluated, and the reply is kept. It takes no memory.
    fn carry_out<C>(
        &mut self,
        who: &Who,
        place: Place,
        caller: &Caller,
        carry: &Option<C>,
        tag: &[u8],
        args: &SequenceArgs,
        ops: PreparedOps<X::Room>,
        tail: Tail,
        mut p: Progress,
        mut body: Page,
        mut kept: Page,
    ) -> Reply
    where
        X: Serving<C>,
        requires tag { length tag.now ≤ TEXT_LIMIT }
        requires few { length ops < MOST_OPERATIONS }
        requires suited { AreSuited X.suits carry.now ops }
        requires there { IsSome (client_at self.old.sessions place.session) }
        requires slot { place.slot < SLOTS }
        requires ready { Ready p MOST_OPERATIONS }
        requires new { IsNew p }
        requires body { body ≡ record { bytes = []; room = MOST_REPLY } }
        requires kept { kept ≡ record { bytes = []; room = MOST_REPLY } }
        requires page { p.page.room ≤ DATA_LIMIT + MOST_OPERATIONS * MOST_RESULT }
        requires opens { self.old.files.opens.made + MOST_OPERATIONS < 2 ^ 32 }
        requires own { X.given self.old.files.extra + MOST_OPERATIONS < 2 ^ 32 }
        ensures gives { D.Told → Gives (λ choice. executed who.now place tag.now args.now (walk (record { gate = X.gated; serve = X.serves }) choice caller.now carry.now tail (map op_of ops) (begun (state_of D.size self.old)))) (state_of D.size self.new) result.used result.body }
        ensures short { length result.body ≤ MOST_REPLY }
        ensures ran { Counted D.Told (seat_of D.size D.fuse D.timeline D.faults self.old.files.volume) (seat_of D.size D.fuse D.timeline D.faults self.new.files.volume) [] result.used }
        ensures counted { IsCounted X.given X.landed self.old self.new }
    {
        let done = self.evaluate(caller, carry, ops, tail, 1, &mut p);
        put_head(&mut body, done.status, tag, done.count);
        put_sequence(&mut body, args);
        body.append(p.page.as_slice());
        kept.append(body.as_slice());
        self.sessions
            .finish(place, who.root, kept.finish(), who.second);
        let Progress {
            page: _,
            used,
            held: _,
            has_read: _,
        } = p;
        Reply {
            body: body.finish(),
            used,
        }
    }
}

/// The number under which a compound with too many operations is answered.
fn first_number(ops: &[Op], tail: Tail) -> u32
    ensures { result ≡ first_number ops.now tail }
{
    match ops {
        [op, ..] => op.number(),
        [] => match tail_refusal(tail) {
            Some(refusal) => refusal.op,
            None => OP_ILLEGAL,
        },
    }
}
