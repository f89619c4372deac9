ghost use Rattle.std.specs.Prelude.{◌≡◌, ◌+◌, ◌<◌, ◌≤◌, true, false, All, IfOk, IfSome, MatchOption, OnOk, OnErr, option_copied};
ghost use Rattle.copy_workers.specs.Desk.{chunk_limit, given_to, landed_by, Adds, IsModest, IsSmall};
ghost use Rattle.outbox.specs.Counting.{landed_in, records_to};
ghost use Rattle.core_desk.specs.Core.{closing_of, passed_sent, same_sent, Gave, IsEmpty, LossIs, TurnIs};
ghost use Rattle.core_desk.specs.Kept.{kept_of, nothing_kept, passed_of, Gives};

use crate::kept::Kept;
use crate::machine::{Core, MOST_CALLS};
use copy_workers::{Desk, given_to, landed_in};
use outbox::{Outbox, Outgoing, To};
use outcome::Mem;
use rpc_msg::Watched;
use std::alloc::Global;
use std::marker::{Model, Send};
use std::sync::ledger::{Book, Ledger, Share};
use streams::{Clock, Draws};
use wire_xdr::Items;

/// Why a desk is closed.
#[derive(Clone, Copy, Debug, PartialEq, Eq)]
pub enum Closing {
    /// It was asked to close.
    Asked,

    /// The machine has no step left.
    Calls,
}

/// A destination's machine with its clock, its draws and the books of what workers did. The first book's total is what the
/// machine's jobs landed.
#[derive(Drop)]
pub struct CoreDesk<L: Ledger, T: Ledger, G: Ledger, K: Core<W>, C, W: Draws> {
    core: K,
    clock: C,
    draws: W,
    landed: Book<L>,
    turns: Book<T>,
    given: Book<G>,
    kept: Kept,
    asked: bool,
}

impl<L: Ledger, T: Ledger, G: Ledger, K: Core<W>, C, W: Draws> Model
    for CoreDesk<L, T, G, K, C, W> {
    ghost use Rattle.std.specs.Prelude.{◌≡◌};
    ghost use Rattle.core_desk.specs.Core.{DeskState};

    ghost Value = { DeskState K W };

    ghost view = { λ d. record {
      core = d.core;
      draws = d.draws;
      landed = d.landed.total;
      turns = d.turns.total;
      given = d.given.total;
      kept = d.kept;
      asked = d.asked;
    } };

    ghost invariant = { λ d. d.landed.total ≡ K.landed d.core };
}

impl<L: Ledger, T: Ledger, G: Ledger, K: Core<W>, C: Clock, W: Draws> CoreDesk<L, T, G, K, C, W> {
    /// An open desk. The books are those of landed bytes, of turns, and of bytes given to send; the first has what the machine's
    /// jobs landed.
    pub fn new(
        core: K,
        clock: C,
        draws: W,
        landed: Book<L>,
        turns: Book<T>,
        given: Book<G>,
    ) -> CoreDesk<L, T, G, K, C, W>
        requires { landed.total ≡ K.landed core }
        ensures { result ≡ record { core = core; draws = draws; landed = landed.total; turns = turns.total; given = given.total; kept = nothing_kept; asked = false } }
    {
        CoreDesk {
            core,
            clock,
            draws,
            landed,
            turns,
            given,
            kept: Kept::none(),
            asked: false,
        }
    }

    /// Takes a record that comes on a connection: one step of the machine, or, where none is left, nothing. Without memory the
    /// machine is as before.
    pub fn on_record(&mut self, alloc: Global, conn: u32, record_: &[u8]) -> Mem<Outbox>
        ensures step { K.steps self.old.core < MOST_CALLS → IfOk result (λ out. Gave (λ now old told new. K.takes_record conn record_.now now self.old.draws self.new.draws old told new) same_sent self.old.core out self.new.core) }
        ensures full { MOST_CALLS ≤ K.steps self.old.core → IfOk result IsEmpty × (self.new ≡ self.old) }
        ensures rest { self.new ≡ record self.old { core = self.new.core; draws = self.new.draws } }
        ensures small { IfOk result (λ out. All IsSmall out.sent) }
        ensures counted { K.steps self.old.core < MOST_CALLS → OnOk result (K.steps self.new.core ≡ K.steps self.old.core + 1) }
        ensures err { OnErr result (self.new.core ≡ self.old.core) }
    {
        if self.core.calls() >= MOST_CALLS {
            return nothing(alloc);
        }
        let now = self.clock.now();
        let CoreDesk { core, draws, .. } = self;
        core.on_record(alloc, conn, record_, now, draws)
    }

    /// A second comes by itself: one step of the machine, or, where none is left, nothing. Of the calls that it sends to the source
    /// the desk keeps the last one for each worker, and the worker's next turn sends it. Without memory all is as before.
    pub fn tick(&mut self, alloc: Global) -> Mem<Outbox>
        ensures step { K.steps self.old.core < MOST_CALLS → IfOk result (λ out. Gave K.ticks passed_sent self.old.core out self.new.core) }
        ensures full { MOST_CALLS ≤ K.steps self.old.core → IfOk result IsEmpty × (self.new ≡ self.old) }
        ensures rest { self.new ≡ record self.old { core = self.new.core; kept = self.new.kept } }
        ensures later { K.steps self.old.core ≤ K.steps self.new.core }
        ensures err { OnErr result (self.new ≡ self.old) }
    {
        if self.core.calls() >= MOST_CALLS {
            return nothing(alloc);
        }
        let now = self.clock.now();
        let out = self.core.tick(alloc, now)?;
        Ok(keep_calls(&mut self.kept, out))
    }

    /// Closes the desk for workers.
    pub fn close(&mut self)
        ensures { self.new ≡ record self.old { asked = true } }
    {
        self.asked = true;
    }

    /// The machine, lent. The book of landed bytes has what its jobs landed.
    pub fn core(&self) -> &K
        ensures is { result.now ≡ self.now.core }
        ensures booked { self.now.landed ≡ K.landed self.now.core }
    {
        &self.core
    }

    /// The machine, handed back. The calls that are kept are lost.
    pub fn hand_back(self) -> K
    where
        C: Drop,
        W: Drop,
        ensures { result ≡ self.core }
    {
        let CoreDesk { core, .. } = self;
        core
    }
}

/// What a step gives that wasn't made.
fn nothing(alloc: Global) -> Mem<Outbox>
    ensures { IfOk result IsEmpty }
{
    Outbox::new(alloc)
}

/// What a step gives, without the calls to the source, which are kept.
fn keep_calls(kept: &mut Kept, out: Outbox) -> Outbox
    requires { All IsSmall out.sent }
    ensures is { result ≡ record out { sent = passed_of out.sent } }
    ensures kept { kept.new ≡ kept_of out.sent kept.old }
{
    let Outbox {
        sent,
        notes,
        accepted,
        used,
        undrawn,
    } = out;
    let mut sent = sent.into_vec();
    take_calls(kept, &mut sent);
    Outbox {
        sent: Items::from_vec(sent),
        notes,
        accepted,
        used,
        undrawn,
    }
}

/// Takes the calls to the source out of a list of records.
fn take_calls(kept: &mut Kept, sent: &mut Vec<Outgoing>)
    requires { All IsSmall sent.old.items }
    ensures passed { sent.new.items ≡ passed_of sent.old.items }
    ensures kept { kept.new ≡ kept_of sent.old.items kept.old }
{
    let mut at = 0;
    'calls: while at < sent.len() {
        match sent[at].to {
            To::Source(number) if 1 <= number && number <= 8 => {
                let call = sent.remove(at);
                kept.put(number, call);
            }
            _ => at += 1,
        }
    }
}

/// What a turn gives, behind the call that is kept for the worker. Where memory is refused the call stays kept.
fn with_kept(kept: &mut Kept, worker: u8, out: Outbox) -> Outbox
    requires worker { 1 ≤ worker }
    requires workers { worker ≤ 8 }
    requires small { All IsSmall out.sent }
    requires one { records_to worker out.sent ≤ 1 }
    requires chunk { landed_in out.notes ≤ chunk_limit }
    ensures is { result ≡ record out { sent = result.sent } }
    ensures gives { Gives worker kept.old kept.new out.sent result.sent }
    ensures modest { IsModest worker result }
{
    let Outbox {
        sent,
        notes,
        accepted,
        used,
        undrawn,
    } = out;
    let mut sent = sent.into_vec();
    put_first(kept, worker, &mut sent);
    Outbox {
        sent: Items::from_vec(sent),
        notes,
        accepted,
        used,
        undrawn,
    }
}

/// Puts the call that is kept for a worker before what is sent.
fn put_first(kept: &mut Kept, worker: u8, sent: &mut Vec<Outgoing>)
    requires worker { 1 ≤ worker }
    requires workers { worker ≤ 8 }
    requires small { All IsSmall sent.old.items }
    requires one { records_to worker sent.old.items ≤ 1 }
    ensures gives { Gives worker kept.old kept.new sent.old.items sent.new.items }
    ensures small { All IsSmall sent.new.items }
    ensures few { records_to worker sent.new.items ≤ 2 }
{
    let Some(call) = kept.take(worker) else {
        return;
    };
    match sent.insert(0, call) {
        Ok(()) => {}
        Err(refused) => kept.put(worker, refused.value),
    }
}

/// A worker's step of the machine: it takes the record that came for the worker, or finds what the worker is to do, which goes behind
/// the call that is kept for it.
fn step<K: Core<W>, W: Draws>(
    core: &mut K,
    draws: &mut W,
    kept: &mut Kept,
    alloc: Global,
    worker: u8,
    reply: Option<&[u8]>,
    now: u64,
) -> Mem<Outbox>
    requires few { K.steps core.old < MOST_CALLS }
    requires worker { 1 ≤ worker }
    requires workers { worker ≤ 8 }
    ensures step { IfOk result (λ out. MatchOption (option_copied reply.entry)
        (Gave (λ second old told new. K.works worker second draws.old draws.new old told new) (Gives worker kept.old kept.new) core.old out core.new)
        (λ message. Gave (K.takes_reply worker message) same_sent core.old out core.new)) }
    ensures rest { IfSome (option_copied reply.entry) (λ message. (draws.new ≡ draws.old) × (kept.new ≡ kept.old)) }
    ensures modest { IfOk result (λ out. IsModest worker out) }
    ensures landed { K.landed core.new ≡ K.landed core.old + landed_by result }
    ensures counted { OnOk result (K.steps core.new ≡ K.steps core.old + 1) }
    ensures err { OnErr result (core.new ≡ core.old) }
{
    match reply {
        Some(bytes) => core.on_source_reply(alloc, worker, bytes, now),
        None => {
            let out = core.work(alloc, worker, now, draws)?;
            Ok(with_kept(kept, worker, out))
        }
    }
}

/// Books what a turn landed and what it gives the worker to send.
fn book_all<L: Ledger, G: Ledger>(
    landed: &mut Book<L>,
    book: &mut Book<G>,
    worker: u8,
    out: &Outbox,
    share: &mut Share<L>,
    given: &mut Share<G>,
)
    requires modest { IsModest worker out.now }
    requires share { 0 < share.old.parts }
    requires given { 0 < given.old.parts }
    ensures landed { Adds (landed_in out.now.notes) landed.old.total landed.new.total share.old.amount share.new.amount }
    ensures given { Adds (given_to worker out.now.sent) book.old.total book.new.total given.old.amount given.new.amount }
    ensures share_parts { share.new.parts ≡ share.old.parts }
    ensures given_parts { given.new.parts ≡ given.old.parts }
{
    landed.add(share, landed_in(out.notes.as_slice()));
    book.add(given, given_to(worker, out.sent.as_slice()));
}

impl<L: Ledger, T: Ledger, G: Ledger, N, K: Core<W> + Send, C: Clock + Send, W: Draws + Send> Desk<
    L,
    T,
    G,
    N,
> for CoreDesk<L, T, G, K, C, W> {
    type Shut = Closing;

    ghost landed_book = { λ d. d.landed };

    ghost turns_book = { λ d. d.turns };

    ghost given_book = { λ d. d.given };

    ghost shut_by = { λ d. closing_of d.asked (K.steps d.core) };

    ghost takes_turn = { λ worker reply old result new. TurnIs K.steps (K.works worker) (K.takes_reply worker) worker reply old result new };

    ghost loses_link = { λ worker old result new. LossIs K.steps (K.fails_link worker) old result new };

    fn turn(
        &mut self,
        alloc: Global,
        worker: u8,
        reply: Option<&[u8]>,
        share: &mut Share<L>,
        turned: &mut Share<T>,
        given: &mut Share<G>,
    ) -> Mem<Outbox> {
        let CoreDesk {
            core,
            clock,
            draws,
            landed,
            turns,
            given: book,
            kept,
            asked: _,
        } = self;
        turns.add(turned, 1);
        if core.calls() >= MOST_CALLS {
            return nothing(alloc);
        }
        let out = step(core, draws, kept, alloc, worker, reply, clock.now())?;
        book_all(landed, book, worker, &out, share, given);
        Ok(out)
    }

    fn link_failed(&mut self, alloc: Global, worker: u8, _link: &Watched<N>) -> Mem<Outbox> {
        if self.core.calls() >= MOST_CALLS {
            return nothing(alloc);
        }
        self.core.link_failed(alloc, worker)
    }

    fn closed(&self) -> Option<Closing> {
        if self.asked {
            return Some(Closing::Asked);
        }
        if self.core.calls() >= MOST_CALLS {
            return Some(Closing::Calls);
        }
        None
    }

    fn book(&mut self, all: &mut Share<L>) -> u64 {
        self.landed.audit(all);
        self.core.landed()
    }
}
