ghost use Rattle.std.specs.Prelude.{◌≡◌, ◌<◌, ◌≤◌, Some};
ghost use Rattle.core_desk.specs.Core.{closing_of};
ghost use Rattle.dest_server.specs.Coming.{core_words, ComesFrom};

use callback_server::Host;
use copy_workers::Desk;
use core_desk::{Closing, Core, CoreDesk, MOST_CALLS};
use link_server::Origin;
use outbox::{Outbox, Outgoing};
use outcome::Mem;
use rpc_msg::Watched;
use std::alloc::Global;
use std::marker::{Model, Send};
use std::sync::ledger::{Book, Ledger, Share};
use streams::{Clock, Draws};
use wire_xdr::Items;

/// A desk with the book of the calls that connections made of its machine and that found memory. The book's total is at most the
/// machine's count of steps, so that no connection made more calls than the machine made steps; and the machine has come to its state by
/// steps since the server began.
#[derive(Drop)]
pub struct CountedDesk<Q: Origin<K>, L: Ledger, T: Ledger, G: Ledger, K: Core<W>, C, W: Draws> {
    desk: CoreDesk<L, T, G, K, C, W>,
    calls: Book<Q>,
}

impl<Q: Origin<K>, L: Ledger, T: Ledger, G: Ledger, K: Core<W>, C, W: Draws> Model
    for CountedDesk<Q, L, T, G, K, C, W> {
    ghost use Rattle.dest_server.specs.Coming.{core_words};
    ghost use Rattle.dest_server.specs.Desk.{DeskCount, IsCounted};

    ghost Value = { DeskCount K W };

    ghost view = { λ d. record { desk = d.desk; booked = d.calls.total } };

    ghost invariant = { λ d. IsCounted (core_words K.takes_record K.ticks K.works K.takes_reply K.fails_link) K.steps Q.origin d.desk.core d.calls.total };
}

impl<Q: Origin<K>, L: Ledger, T: Ledger, G: Ledger, K: Core<W>, C: Clock, W: Draws> CountedDesk<
    Q,
    L,
    T,
    G,
    K,
    C,
    W,
> {
    /// The desk with which the server begins, with a book of no calls.
    pub fn new(desk: CoreDesk<L, T, G, K, C, W>, calls: Book<Q>) -> CountedDesk<Q, L, T, G, K, C, W>
        requires booked { calls.total ≡ 0 }
        requires origin { Q.origin ≡ Some desk.core }
        ensures { result ≡ record { desk = desk; booked = 0 } }
    {
        CountedDesk { desk, calls }
    }

    /// The machine, handed back.
    pub fn hand_back(self) -> K
    where
        C: Drop,
        W: Drop,
        ensures is { result ≡ self.desk.core }
        ensures came { ComesFrom (core_words K.takes_record K.ticks K.works K.takes_reply K.fails_link) Q.origin result }
    {
        let CountedDesk { desk, calls: _ } = self;
        desk.hand_back()
    }
}

impl<Q: Origin<K>, L: Ledger, T: Ledger, G: Ledger, K: Core<W>, C: Clock, W: Draws> Host<Q>
    for CountedDesk<Q, L, T, G, K, C, W> {
    ghost use Rattle.dest_server.specs.Coming.{core_words};
    ghost use Rattle.dest_server.specs.Desk.{desk_answers};

    ghost answers = { desk_answers (core_words K.takes_record K.ticks K.works K.takes_reply K.fails_link) K.landed K.steps Q.origin };

    fn answer(
        &mut self,
        alloc: Global,
        conn: u32,
        record_: &[u8],
        mine: &mut Share<Q>,
    ) -> Mem<Items<Outgoing>> {
        self.calls.audit(mine);
        if self.desk.core().calls() >= MOST_CALLS {
            return Ok(Items::new(alloc));
        }
        let out = self.desk.on_record(alloc, conn, record_)?;
        self.calls.add(mine, 1);
        Ok(out.sent)
    }

    fn tick(&mut self, alloc: Global) -> Mem<Items<Outgoing>> {
        let out = self.desk.tick(alloc)?;
        Ok(out.sent)
    }

    fn close(&mut self) {
        self.desk.close();
    }
}

impl<
    Q: Origin<K>,
    L: Ledger,
    T: Ledger,
    G: Ledger,
    N,
    K: Core<W> + Send,
    C: Clock + Send,
    W: Draws + Send,
> Desk<L, T, G, N> for CountedDesk<Q, L, T, G, K, C, W> {
    type Shut = Closing;

    ghost landed_book = { λ d. d.desk.landed };

    ghost turns_book = { λ d. d.desk.turns };

    ghost given_book = { λ d. d.desk.given };

    ghost shut_by = { λ d. closing_of d.desk.asked (K.steps d.desk.core) };

    fn turn(
        &mut self,
        alloc: Global,
        worker: u8,
        reply: Option<&[u8]>,
        share: &mut Share<L>,
        turned: &mut Share<T>,
        given: &mut Share<G>,
    ) -> Mem<Outbox> {
        <CoreDesk<L, T, G, K, C, W> as Desk<L, T, G, N>>::turn(
            &mut self.desk,
            alloc,
            worker,
            reply,
            share,
            turned,
            given,
        )
    }

    fn link_failed(&mut self, alloc: Global, worker: u8, link: &Watched<N>) -> Mem<Outbox> {
        <CoreDesk<L, T, G, K, C, W> as Desk<L, T, G, N>>::link_failed(
            &mut self.desk,
            alloc,
            worker,
            link,
        )
    }

    fn closed(&self) -> Option<Closing> {
        <CoreDesk<L, T, G, K, C, W> as Desk<L, T, G, N>>::closed(&self.desk)
    }

    fn book(&mut self, all: &mut Share<L>) -> u64 {
        <CoreDesk<L, T, G, K, C, W> as Desk<L, T, G, N>>::book(&mut self.desk, all)
    }
}
