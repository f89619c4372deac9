ghost use Rattle.std.specs.Prelude.{◌≡◌, ◌≢◌, ◌+◌, ◌*◌, ◌<◌, ◌≤◌, ◌^◌, true, [], is_some, if◌then◌else◌};
ghost use Rattle.rpc_msg.specs.Watching.{is_down};
ghost use Rattle.copy_workers.specs.Desk.{chunk_limit, given_limit, given_to, IsModest};
ghost use Rattle.outbox.specs.Counting.{landed_in};
ghost use Rattle.copy_workers.specs.InFlight.{answered_by, with_calls, xid_of, xids_of};
ghost use Rattle.copy_workers.specs.Workers.{Sends, WasShut, WorkerIs};

use crate::counting::{given_to, landed_in};
use crate::desk::Desk;
use crate::gate::Gate;
use crate::holding::{Held, hold};
use crate::in_flight::InFlight;
use crate::link::Link;
use crate::pace::Pace;
use crate::report::{Ended, WorkerEnd};
use crate::sending::{post_all, send_all};
use crate::turn::{Turn, may_give_work, turn_of};
use outbox::Outbox;
use rpc_msg::{Got, Watched};
use std::alloc::Global;
use std::sync::ledger::{Ledger, Share};
use std::sync::{Mutex, Wait};

// How often the desk is told that a link is down, where memory is refused.
const TRIES: u32 = 100;

// Works until the turns are used, the link is down or the desk is closed. Records are taken as long as a call awaits its answer, and
// each is given to the desk, whether it is one or not; one for which memory was refused is kept and given again.
pub(crate) fn work_all<R: Wait, L: Ledger, T: Ledger, G: Ledger, N: Link, K: Desk<L, T, G, N>>(
    rt: &R,
    alloc: Global,
    gate: &Gate,
    desk: &Mutex<K>,
    worker: u8,
    turns: u64,
    share: &mut Share<L>,
    turned: &mut Share<T>,
    given: &mut Share<G>,
    link: &mut Watched<N>,
) -> (Ended, Option<K::Shut>)
    requires worker { 1 ≤ worker }
    requires workers { worker ≤ 8 }
    requires turns { turns < 2 ^ 32 }
    requires unsent { link.old.sent ≡ 0 }
    requires share { (0 < share.old.parts) × (share.old.amount ≡ 0) }
    requires turned { (0 < turned.old.parts) × (turned.old.amount ≡ 0) }
    requires given { (0 < given.old.parts) × (given.old.amount ≡ 0) }
    ensures share_parts { share.new.parts ≡ share.old.parts }
    ensures turned_parts { turned.new.parts ≡ turned.old.parts }
    ensures given_parts { given.new.parts ≡ given.old.parts }
    ensures share { share.new.amount ≡ result.0.share }
    ensures turned { turned.new.amount ≡ result.0.turned }
    ensures given { given.new.amount ≡ result.0.given }
    ensures worker { WorkerIs turns (is_some result.1) link.new result.0 }
    ensures shut { WasShut K.shut_by result.1 }
{
    let mut done = Ended::nothing();
    let mut awaited = InFlight::Nothing;
    let mut pace = Pace::new();
    let mut kept = false;
    'turns: while done.turned < turns {
        let reply = fetch(link, awaited, kept);
        if link.down().is_some() {
            report_down(rt, alloc, gate, desk, worker, link);
            return (done.ending(WorkerEnd::Down), None);
        }
        match hold(rt, alloc, desk, worker, reply, link, share, turned, given) {
            Held::Closed(shut) => return (done.ending(WorkerEnd::Closed), Some(shut)),
            Held::Starved => {
                done.turned += 1;
                kept = reply;
                pace = take_rest(link, pace.after(Turn::Wanting), InFlight::Nothing);
            }
            Held::Gave(out) => {
                done.count(worker, &out);
                awaited = carry_out(
                    link,
                    gate,
                    worker,
                    awaited_still(link, awaited, reply),
                    reply,
                    &out,
                );
                pace = take_rest(link, pace.after(turn_of(reply, &out)), awaited);
                kept = false;
            }
        }
    }
    if link.down().is_some() {
        report_down(rt, alloc, gate, desk, worker, link);
        return (done.ending(WorkerEnd::Down), None);
    }
    (done.ending(WorkerEnd::Turns), None)
}

// Takes the next record where a call awaits its answer and none is kept, and says whether there is one. The link may go down by it.
fn fetch<N: Link>(link: &mut Watched<N>, awaited: InFlight, kept: bool) -> bool
    ensures awaited { result ≡ true → xids_of awaited ≢ [] }
    ensures sent { link.new.sent ≡ link.old.sent }
    ensures down { is_down link.old.signs ≡ true → is_down link.new.signs ≡ true }
{
    if awaited.is_empty() {
        return false;
    }
    kept || link.next() == Got::Whole
}

// Which calls await an answer still, behind the record that came, where one did.
fn awaited_still<N: Link>(link: &Watched<N>, awaited: InFlight, reply: bool) -> InFlight
    ensures { xids_of result ≡ (if reply then answered_by (xid_of link.now.feed.told) (xids_of awaited) else xids_of awaited) }
{
    if reply {
        return awaited.without(link.record());
    }
    awaited
}

// Sends what a holding gave, and wakes the others where it may have given them work. It says which calls await an answer then.
fn carry_out<N: Link>(
    link: &mut Watched<N>,
    gate: &Gate,
    worker: u8,
    awaited: InFlight,
    reply: bool,
    out: &Outbox,
) -> InFlight
    requires modest { IsModest worker out.now }
    requires room { link.old.sent + given_to worker out.now.sent < 2 ^ 64 }
    ensures awaited { xids_of result ≡ with_calls worker out.now.sent (xids_of awaited) }
    ensures sends { Sends (given_to worker out.now.sent) link.old.sent link.new.sent (is_down link.new.signs) }
    ensures down { is_down link.old.signs ≡ true → is_down link.new.signs ≡ true }
{
    let awaited = send_all(link, worker, awaited, out.sent.as_slice());
    post_all(link, out.sent.as_slice());
    if may_give_work(reply, out.notes.as_slice()) {
        gate.wake();
    }
    awaited
}

// Rests as long as is due, where no call awaits an answer.
fn take_rest<N: Link>(link: &mut Watched<N>, pace: Pace, awaited: InFlight) -> Pace
    ensures sent { link.new.sent ≡ link.old.sent }
    ensures signs { link.new.signs ≡ link.old.signs }
{
    if !awaited.is_empty() {
        return pace;
    }
    let woken = link.link().rest(pace.rest());
    pace.rested(woken)
}

// Tells the desk that the worker's link is down.
fn report_down<R: Wait, L: Ledger, T: Ledger, G: Ledger, N: Link, K: Desk<L, T, G, N>>(
    rt: &R,
    alloc: Global,
    gate: &Gate,
    desk: &Mutex<K>,
    worker: u8,
    link: &mut Watched<N>,
)
    requires worker { 1 ≤ worker }
    requires workers { worker ≤ 8 }
    requires down { is_down link.old.signs ≡ true }
    ensures sent { link.new.sent ≡ link.old.sent }
    ensures signs { link.new.signs ≡ link.old.signs }
{
    'tries: for _ in 0..TRIES {
        let answer = desk.lock(rt).link_failed(alloc, worker, link);
        match answer {
            Ok(out) => {
                post_all(link, out.sent.as_slice());
                gate.wake();
                return;
            }
            Err(_) => {
                take_rest(link, Pace::new().after(Turn::Wanting), InFlight::Nothing);
            }
        }
    }
}

impl Ended {
    // A worker that did nothing.
    pub(crate) fn nothing() -> Ended
        ensures { result ≡ record { share = 0; turned = 0; given = 0; end = WorkerEnd.NoLink } }
    {
        Ended {
            share: 0,
            turned: 0,
            given: 0,
            end: WorkerEnd::NoLink,
        }
    }

    // The same, ending by this.
    fn ending(self, end: WorkerEnd) -> Ended
        ensures { result ≡ record self { end = end } }
    {
        Ended { end, ..self }
    }

    // Counts a turn that gave something.
    fn count(&mut self, worker: u8, out: &Outbox)
        requires modest { IsModest worker out.now }
        requires turned { self.old.turned < 2 ^ 32 }
        requires share { self.old.share ≤ chunk_limit * self.old.turned }
        requires given { self.old.given ≤ given_limit * self.old.turned }
        ensures { self.new ≡ record self.old {
          share = self.old.share + landed_in out.now.notes;
          turned = self.old.turned + 1;
          given = self.old.given + given_to worker out.now.sent;
        } }
    {
        self.share += landed_in(out.notes.as_slice());
        self.turned += 1;
        self.given += given_to(worker, out.sent.as_slice());
    }
}
