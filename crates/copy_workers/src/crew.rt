ghost use Rattle.std.specs.Prelude.{◌≡◌, ◌+◌, ◌<◌, ◌≤◌, ◌^◌, ◌∷◌, length, map, sum, take, is_some, None};
ghost use Rattle.std.specs.Thread.{IsSend, IsSync};
ghost use Rattle.copy_workers.specs.Workers.{first_shut, given_of, landed_of, rows, turns_of, AllNobody, AllUnsent, AllWorkers, WasShut, WorkerIs};

use crate::desk::Desk;
use crate::gate::Gate;
use crate::link::Link;
use crate::report::{Ended, WorkerReport};
use crate::worker::work_all;
use rpc_msg::Watched;
use std::alloc::Global;
use std::sync::ledger::{Ledger, Share};
use std::sync::{Mutex, Wait};
use std::thread::{Threads, join_mut};

// What workers did, each at one link, and why the desk was closed, where one of them ended by that.
#[derive(Drop)]
pub(crate) struct Many<Z> {
    ended: [Ended; 8],
    shut: Option<Z>,
}

/// Runs a worker in a thread of its own for each link, until each has had `turns` holdings of the desk, its link is down or the
/// desk is closed. A worker sends what its holding gave outside the lock, takes the replies outside it, and lands each in a
/// further holding. A holding that finds no memory changes nothing but the count of turns. Workers wake all that rest at the
/// gate where their holding may have given others work. Where no thread can be had, workers run one after the other.
pub fn run_workers<
    R: Threads + Wait + Sync,
    L: Ledger + Send,
    T: Ledger + Send,
    G: Ledger + Send,
    N: Link + Send,
    K: Desk<L, T, G, N>,
>(
    rt: &R,
    alloc: Global,
    gate: &Gate,
    desk: &Mutex<K>,
    all: Share<L>,
    turned: Share<T>,
    given: Share<G>,
    links: &mut [Watched<N>],
    turns: u64,
) -> WorkerReport<L, T, G, K::Shut>
    requires some { 1 ≤ length links.old }
    requires few { length links.old ≤ 8 }
    requires unsent { AllUnsent links.old }
    requires parts { 8 ≤ L.parts }
    requires turned_parts { 8 ≤ T.parts }
    requires given_parts { 8 ≤ G.parts }
    requires all { (all.parts ≡ L.parts) × (all.amount ≡ 0) }
    requires turned { (turned.parts ≡ T.parts) × (turned.amount ≡ 0) }
    requires given { (given.parts ≡ G.parts) × (given.amount ≡ 0) }
    requires turns { turns < 2 ^ 32 }
    ensures parts { result.all.parts ≡ L.parts }
    ensures turned_parts { result.all_turned.parts ≡ T.parts }
    ensures given_parts { result.all_given.parts ≡ G.parts }
    ensures all { result.all.amount ≡ sum result.shares }
    ensures all_turned { result.all_turned.amount ≡ sum result.turned }
    ensures all_given { result.all_given.amount ≡ sum result.given }
    ensures book { result.book ≡ sum result.shares }
    ensures workers { AllWorkers turns (is_some result.shut) links.new (rows result.shares result.turned result.given result.ends) }
    ensures shut { WasShut K.shut_by result.shut }
{
    let mut all = all;
    let mut turned = turned;
    let mut given = given;
    let done = crew(
        rt,
        alloc,
        gate,
        desk,
        1,
        turns,
        &mut all,
        &mut turned,
        &mut given,
        links,
    );
    let book = desk.lock(rt).book(&mut all);
    done.report(book, all, turned, given)
}

// Runs a worker for each of these links, the first of which is that of worker `first`.
#[cycle(crew)]
fn crew<
    R: Threads + Wait + Sync,
    L: Ledger + Send,
    T: Ledger + Send,
    G: Ledger + Send,
    N: Link + Send,
    K: Desk<L, T, G, N>,
>(
    rt: &R,
    alloc: Global,
    gate: &Gate,
    desk: &Mutex<K>,
    first: u8,
    turns: u64,
    all: &mut Share<L>,
    turned: &mut Share<T>,
    given: &mut Share<G>,
    links: &mut [Watched<N>],
) -> Many<K::Shut>
    requires first { (1 ≤ first) × (first + length links.old ≤ 9) }
    requires turns { turns < 2 ^ 32 }
    requires unsent { AllUnsent links.old }
    requires all { (length links.old ≤ all.old.parts) × (all.old.amount ≡ 0) }
    requires turned { (length links.old ≤ turned.old.parts) × (turned.old.amount ≡ 0) }
    requires given { (length links.old ≤ given.old.parts) × (given.old.amount ≡ 0) }
    ensures all { (all.new.parts ≡ all.old.parts) × (all.new.amount ≡ landed_of result.ended) }
    ensures turned { (turned.new.parts ≡ turned.old.parts) × (turned.new.amount ≡ turns_of result.ended) }
    ensures given { (given.new.parts ≡ given.old.parts) × (given.new.amount ≡ given_of result.ended) }
    ensures workers { AllWorkers turns (is_some result.shut) links.new result.ended }
    ensures shut { WasShut K.shut_by result.shut }
{
    let Some((link, rest)) = links.split_first_mut() else {
        return Many::none();
    };
    let mut my_share = all.split_off(1, 0);
    let mut my_turned = turned.split_off(1, 0);
    let mut my_given = given.split_off(1, 0);
    let ((mine, shut), others) = both(
        rt,
        alloc,
        gate,
        desk,
        first,
        turns,
        &mut my_share,
        &mut my_turned,
        &mut my_given,
        link,
        all,
        turned,
        given,
        rest,
    );
    all.merge(my_share);
    turned.merge(my_turned);
    given.merge(my_given);
    others.behind(mine, shut)
}

// Runs the worker of one link beside those of the links after it.
#[cycle(crew)]
fn both<
    R: Threads + Wait + Sync,
    L: Ledger + Send,
    T: Ledger + Send,
    G: Ledger + Send,
    N: Link + Send,
    K: Desk<L, T, G, N>,
>(
    rt: &R,
    alloc: Global,
    gate: &Gate,
    desk: &Mutex<K>,
    first: u8,
    turns: u64,
    my_share: &mut Share<L>,
    my_turned: &mut Share<T>,
    my_given: &mut Share<G>,
    link: &mut Watched<N>,
    all: &mut Share<L>,
    turned: &mut Share<T>,
    given: &mut Share<G>,
    rest: &mut [Watched<N>],
) -> ((Ended, Option<K::Shut>), Many<K::Shut>)
    requires first { (1 ≤ first) × (first + length rest.old ≤ 8) }
    requires turns { turns < 2 ^ 32 }
    requires unsent_mine { link.old.sent ≡ 0 }
    requires unsent { AllUnsent rest.old }
    requires my_share { (0 < my_share.old.parts) × (my_share.old.amount ≡ 0) }
    requires my_turned { (0 < my_turned.old.parts) × (my_turned.old.amount ≡ 0) }
    requires my_given { (0 < my_given.old.parts) × (my_given.old.amount ≡ 0) }
    requires all { (length rest.old ≤ all.old.parts) × (all.old.amount ≡ 0) }
    requires turned { (length rest.old ≤ turned.old.parts) × (turned.old.amount ≡ 0) }
    requires given { (length rest.old ≤ given.old.parts) × (given.old.amount ≡ 0) }
    ensures my_share { (my_share.new.parts ≡ my_share.old.parts) × (my_share.new.amount ≡ result.0.0.share) }
    ensures my_turned { (my_turned.new.parts ≡ my_turned.old.parts) × (my_turned.new.amount ≡ result.0.0.turned) }
    ensures my_given { (my_given.new.parts ≡ my_given.old.parts) × (my_given.new.amount ≡ result.0.0.given) }
    ensures worker { WorkerIs turns (is_some result.0.1) link.new result.0.0 }
    ensures my_shut { WasShut K.shut_by result.0.1 }
    ensures all { (all.new.parts ≡ all.old.parts) × (all.new.amount ≡ landed_of result.1.ended) }
    ensures turned { (turned.new.parts ≡ turned.old.parts) × (turned.new.amount ≡ turns_of result.1.ended) }
    ensures given { (given.new.parts ≡ given.old.parts) × (given.new.amount ≡ given_of result.1.ended) }
    ensures workers { AllWorkers turns (is_some result.1.shut) rest.new result.1.ended }
    ensures shut { WasShut K.shut_by result.1.shut }
{
    let mut mine = || -> (Ended, Option<K::Shut>)
        requires { IsSync R.row × IsSend K.row × IsSend N.row × IsSend K.Shut.row
            × (1 ≤ first) × (first ≤ 8) × (turns < 2 ^ 32) × (link.now.sent ≡ 0)
            × (0 < my_share.now.parts) × (my_share.now.amount ≡ 0)
            × (0 < my_turned.now.parts) × (my_turned.now.amount ≡ 0)
            × (0 < my_given.now.parts) × (my_given.now.amount ≡ 0) }
        ensures { (my_share.exit.now.parts ≡ my_share.entry.now.parts) × (my_share.exit.now.amount ≡ result.0.share)
            × (my_turned.exit.now.parts ≡ my_turned.entry.now.parts) × (my_turned.exit.now.amount ≡ result.0.turned)
            × (my_given.exit.now.parts ≡ my_given.entry.now.parts) × (my_given.exit.now.amount ≡ result.0.given)
            × WorkerIs turns (is_some result.1) link.exit.now result.0 × WasShut K.shut_by result.1 }
    {
        work_all(
            rt, alloc, gate, desk, first, turns, my_share, my_turned, my_given, link,
        )
    };
    let mut others = || -> Many<K::Shut>
        requires { IsSync R.row × IsSend K.row × IsSend N.row × IsSend K.Shut.row × IsSend L.row × IsSend T.row × IsSend G.row
            × (1 ≤ first) × (first + length rest.now ≤ 8) × (turns < 2 ^ 32) × AllUnsent rest.now
            × (length rest.now ≤ all.now.parts) × (all.now.amount ≡ 0)
            × (length rest.now ≤ turned.now.parts) × (turned.now.amount ≡ 0)
            × (length rest.now ≤ given.now.parts) × (given.now.amount ≡ 0) }
        ensures { (all.exit.now.parts ≡ all.entry.now.parts) × (all.exit.now.amount ≡ landed_of result.ended)
            × (turned.exit.now.parts ≡ turned.entry.now.parts) × (turned.exit.now.amount ≡ turns_of result.ended)
            × (given.exit.now.parts ≡ given.entry.now.parts) × (given.exit.now.amount ≡ given_of result.ended)
            × AllWorkers turns (is_some result.shut) rest.exit.now result.ended × WasShut K.shut_by result.shut }
    {
        crew(
            rt,
            alloc,
            gate,
            desk,
            first + 1,
            turns,
            all,
            turned,
            given,
            rest,
        )
    };
    join_mut(rt, &mut mine, &mut others)
}

impl<Z: Drop> Many<Z> {
    // No workers.
    fn none() -> Many<Z>
        ensures nobody { AllNobody result.ended }
        ensures shut { result.shut ≡ None }
        ensures landed { landed_of result.ended ≡ 0 }
        ensures turned { turns_of result.ended ≡ 0 }
        ensures given { given_of result.ended ≡ 0 }
    {
        Many {
            ended: [Ended::nothing(); 8],
            shut: None,
        }
    }

    // One worker, and these after it but for the last.
    fn behind(self, mine: Ended, shut: Option<Z>) -> Many<Z>
        ensures ended { result.ended ≡ mine ∷ take 7 self.ended }
        ensures shut { result.shut ≡ first_shut shut self.shut }
    {
        let Many {
            ended,
            shut: others,
        } = self;
        let [a, b, c, d, e, f, g, _] = ended;
        Many {
            ended: [mine, a, b, c, d, e, f, g],
            shut: shut.or(others),
        }
    }

    // What is told of them.
    fn report<L: Ledger, T: Ledger, G: Ledger>(
        self,
        book: u64,
        all: Share<L>,
        all_turned: Share<T>,
        all_given: Share<G>,
    ) -> WorkerReport<L, T, G, Z>
        ensures shares { (result.all ≡ all) × (result.all_turned ≡ all_turned) × (result.all_given ≡ all_given) }
        ensures book { result.book ≡ book }
        ensures landed { result.shares ≡ map (λ e. e.share) self.ended }
        ensures turned { result.turned ≡ map (λ e. e.turned) self.ended }
        ensures given { result.given ≡ map (λ e. e.given) self.ended }
        ensures ends { result.ends ≡ map (λ e. e.end) self.ended }
        ensures shut { result.shut ≡ self.shut }
    {
        let Many { ended, shut } = self;
        let [a, b, c, d, e, f, g, h] = ended;
        WorkerReport {
            all,
            all_turned,
            all_given,
            shares: [
                a.share, b.share, c.share, d.share, e.share, f.share, g.share, h.share,
            ],
            book,
            turned: [
                a.turned, b.turned, c.turned, d.turned, e.turned, f.turned, g.turned, h.turned,
            ],
            given: [
                a.given, b.given, c.given, d.given, e.given, f.given, g.given, h.given,
            ],
            ends: [a.end, b.end, c.end, d.end, e.end, f.end, g.end, h.end],
            shut,
        }
    }
}
