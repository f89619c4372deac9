ghost use Rattle.std.specs.Prelude.{◌≡◌, ◌+◌, ◌-◌, ◌*◌, ◌^◌, ◌<◌, ◌≤◌, IfErr, IfOk, IfSome};
ghost use Rattle.net_links.specs.Links.{IsNew};
ghost use Rattle.link_server.specs.Answering.{Answers};
ghost use Rattle.link_server.specs.Accepting.{KeptAt, KeptNew, KeptWith, LentIs, Stops, Waits};
ghost use Rattle.link_server.specs.Keeping.{books_of};
ghost use Rattle.link_server.specs.Serving.{ServedIs};

use crate::bell::Bell;
use crate::counted::{Counted, Origin};
use crate::link::{Closed, serve_link};
use crate::machine::Machine;
use crate::running::{Running, start};
use crate::tally::{ALL_RECORDS, EACH_RECORDS, MOST_LINKS, Stop, Tally};
use net_links::{Dialed, Halves, Net};
use rpc_msg::{Pumped, Sink, Source};
use std::alloc::Global;
use std::marker::{Model, Send, Sync};
use std::snapshot::Snapshot;
use std::sync::ledger::Share;
use std::sync::{Mutex, Wait};
use std::thread::{Scope, Threads};

// A server that accepts: the connections that threads serve, what is left of the share of calls, and what was done.
#[derive(Drop)]
pub(crate) struct Site<C: Origin<K>, K: Machine, F: Source + Drop, T: Sink + Drop, N: Net> {
    before: Snapshot<N>,
    running: Vec<Running<C, K, F, T>>,
    all: Share<C>,
    tally: Tally,
}

impl<C: Origin<K>, K: Machine, F: Source + Drop, T: Sink + Drop, N: Net> Model
    for Site<C, K, F, T, N> {
    ghost use Rattle.std.specs.Prelude.{◌+◌, ◌*◌, ◌≤◌, vec_len};
    ghost use Rattle.link_server.specs.Accepting.{SiteState};
    ghost use Rattle.link_server.specs.Keeping.{books_of};
    ghost use Rattle.link_server.specs.declared.tally.TheConstants.{ALL_RECORDS, EACH_RECORDS, MOST_LINKS};

    ghost Value = { SiteState };

    ghost view = { λ s. record {
      before = books_of N.hung N.up N.accepted s.before.value;
      running = vec_len s.running;
      tally = s.tally;
    } };

    ghost invariant = { λ s. record {
      few : vec_len s.running ≤ MOST_LINKS;
      parts : MOST_LINKS + 2 ≤ s.all.parts + vec_len s.running;
      starved : s.tally.starved + vec_len s.running ≤ s.tally.accepted;
      left : s.tally.left + EACH_RECORDS * vec_len s.running ≤ ALL_RECORDS;
    } };
}

impl<C: Origin<K>, K: Machine, F: Source + Drop, T: Sink + Drop, N: Net<From = F, To = T>> Site<
    C,
    K,
    F,
    T,
    N,
> {
    // It did nothing yet. Where memory is refused, it serves each connection by itself.
    pub(crate) fn new(alloc: Global, all: Share<C>, net: &N) -> Site<C, K, F, T, N>
        requires { MOST_LINKS + 2 ≤ all.parts }
        ensures { result ≡ record {
          before = books_of N.hung N.up N.accepted net.now;
          running = 0;
          tally = record { accepted = 0; starved = 0; left = ALL_RECORDS; stop = Stop.All };
        } }
    {
        let mut running = Vec::new(alloc);
        let _ = running.reserve(MOST_LINKS);
        Site {
            before: Snapshot::of(net),
            running,
            all,
            tally: Tally {
                accepted: 0,
                starved: 0,
                left: ALL_RECORDS,
                stop: Stop::All,
            },
        }
    }

    // Hangs up a connection that was served, and takes back the records that it left.
    fn hang(&mut self, net: &mut N, from: F, to: T, end: Option<Pumped>, given: u64, unused: u64)
        requires served { ServedIs (Answers K.calls_of K.step K.kept C.origin) given unused end (record { brings = F.gives from; takes = T.takes to }) }
        requires lent { LentIs given self.old }
        requires room { self.old.tally.left + EACH_RECORDS * self.old.running + given ≤ ALL_RECORDS }
        requires counted { self.old.tally.starved + self.old.running < self.old.tally.accepted }
        requires kept { N.Told → KeptWith (Answers K.calls_of K.step K.kept C.origin) (books_of N.hung N.up N.accepted net.old) given self.old }
        ensures kept { N.Told → KeptAt (Answers K.calls_of K.step K.kept C.origin) (books_of N.hung N.up N.accepted net.new) self.new }
        ensures running { self.new.running ≡ self.old.running }
        ensures waits { Waits self.old self.new }
        ensures coming { N.Told → N.coming net.new ≡ N.coming net.old }
        ensures faults { N.faults net.new ≡ N.faults net.old }
    {
        net.hang_up(from, to);
        self.tally = self.tally.after(end, unused);
    }

    // Waits for the thread of one connection, and hangs it up.
    fn finish<R: Threads>(&mut self, rt: &R, bell: &Bell, net: &mut N, at: usize)
        requires some { at < self.old.running }
        requires kept { N.Told → KeptAt (Answers K.calls_of K.step K.kept C.origin) (books_of N.hung N.up N.accepted net.old) self.old }
        ensures kept { N.Told → KeptAt (Answers K.calls_of K.step K.kept C.origin) (books_of N.hung N.up N.accepted net.new) self.new }
        ensures running { self.new.running + 1 ≡ self.old.running }
        ensures waits { Waits self.old self.new }
        ensures coming { N.Told → N.coming net.new ≡ N.coming net.old }
        ensures faults { N.faults net.new ≡ N.faults net.old }
    {
        let Running { seat, handle } = self.running.swap_remove(at);
        let Closed {
            mine,
            from,
            to,
            end,
            unused,
        } = handle.join(rt);
        bell.clear(seat);
        self.all.merge(mine);
        self.hang(net, from, to, end, EACH_RECORDS, unused);
    }

    // One of the connections whose threads are at their end.
    fn find_ended(&self, bell: &Bell) -> Option<usize>
        ensures { IfSome result (λ at. at < self.now.running) }
    {
        for at in 0..self.running.len() {
            if bell.rang(self.running[at].seat) {
                return Some(at);
            }
        }
        None
    }

    // The same, as soon as there is one.
    fn wait_for_one<R: Wait>(&self, rt: &R, bell: &Bell) -> usize
        requires { 0 < self.now.running }
        ensures { result < self.now.running }
    {
        for _ in rt.forever() {
            if let Some(at) = self.find_ended(bell) {
                return at;
            }
            bell.rest(rt);
        }
        unreachable!()
    }

    // Hangs up those that have ended, without waiting for any other.
    pub(crate) fn gather<R: Threads>(&mut self, rt: &R, bell: &Bell, net: &mut N)
        requires kept { N.Told → KeptAt (Answers K.calls_of K.step K.kept C.origin) (books_of N.hung N.up N.accepted net.old) self.old }
        ensures kept { N.Told → KeptAt (Answers K.calls_of K.step K.kept C.origin) (books_of N.hung N.up N.accepted net.new) self.new }
        ensures waits { Waits self.old self.new }
        ensures coming { N.Told → N.coming net.new ≡ N.coming net.old }
        ensures faults { N.faults net.new ≡ N.faults net.old }
    {
        'ended: while let Some(at) = self.find_ended(bell) {
            self.finish(rt, bell, net, at);
        }
    }

    // Waits until fewer are served than may be at once.
    fn make_room<R: Threads + Wait>(&mut self, rt: &R, bell: &Bell, net: &mut N)
        requires kept { N.Told → KeptAt (Answers K.calls_of K.step K.kept C.origin) (books_of N.hung N.up N.accepted net.old) self.old }
        ensures kept { N.Told → KeptAt (Answers K.calls_of K.step K.kept C.origin) (books_of N.hung N.up N.accepted net.new) self.new }
        ensures room { self.new.running < MOST_LINKS }
        ensures waits { Waits self.old self.new }
        ensures coming { N.Told → N.coming net.new ≡ N.coming net.old }
        ensures faults { N.faults net.new ≡ N.faults net.old }
    {
        if self.running.len() < MOST_LINKS {
            return;
        }
        let at = self.wait_for_one(rt, bell);
        self.finish(rt, bell, net, at);
    }

    // Waits until the records of one connection are left, or none is served any more. Those that a connection leaves are back as soon
    // as it has ended, so that one that goes on holds up nobody for whom others left enough.
    fn get_records<R: Threads + Wait>(&mut self, rt: &R, bell: &Bell, net: &mut N)
        requires kept { N.Told → KeptAt (Answers K.calls_of K.step K.kept C.origin) (books_of N.hung N.up N.accepted net.old) self.old }
        ensures kept { N.Told → KeptAt (Answers K.calls_of K.step K.kept C.origin) (books_of N.hung N.up N.accepted net.new) self.new }
        ensures records { self.new.tally.left < EACH_RECORDS → self.new.running ≡ 0 }
        ensures fewer { self.new.running ≤ self.old.running }
        ensures enough { EACH_RECORDS ≤ self.old.tally.left → self.new ≡ self.old }
        ensures waits { Waits self.old self.new }
        ensures coming { N.Told → N.coming net.new ≡ N.coming net.old }
        ensures faults { N.faults net.new ≡ N.faults net.old }
    {
        'short: while self.tally.left < EACH_RECORDS && !self.running.is_empty() {
            let at = self.wait_for_one(rt, bell);
            self.finish(rt, bell, net, at);
        }
    }

    // Waits until all have ended, and hangs each up as it ends.
    pub(crate) fn wait_for_all<R: Threads + Wait>(&mut self, rt: &R, bell: &Bell, net: &mut N)
        requires kept { N.Told → KeptAt (Answers K.calls_of K.step K.kept C.origin) (books_of N.hung N.up N.accepted net.old) self.old }
        ensures kept { N.Told → KeptAt (Answers K.calls_of K.step K.kept C.origin) (books_of N.hung N.up N.accepted net.new) self.new }
        ensures none { self.new.running ≡ 0 }
        ensures idle { self.old.running ≡ 0 → self.new ≡ self.old }
        ensures waits { Waits self.old self.new }
        ensures coming { N.Told → N.coming net.new ≡ N.coming net.old }
        ensures faults { N.faults net.new ≡ N.faults net.old }
    {
        'ends: while !self.running.is_empty() {
            let at = self.wait_for_one(rt, bell);
            self.finish(rt, bell, net, at);
        }
    }

    // Whether a thread has this seat.
    fn is_taken(&self, seat: u8) -> bool {
        self.running.iter().any(|other| other.seat == seat)
    }

    // A seat that no thread has.
    fn free_seat(&self) -> u8 {
        for seat in 0..32 {
            if !self.is_taken(seat) {
                return seat;
            }
        }
        0
    }

    // Serves a connection by itself, with the records of one connection or with all that are left.
    fn serve_here<R: Wait>(
        &mut self,
        rt: &R,
        alloc: Global,
        desk: &Mutex<Counted<C, K>>,
        net: &mut N,
        from: F,
        to: T,
    )
        requires new { IsNew (record { brings = F.gives from; takes = T.takes to }) }
        requires room { self.old.running < MOST_LINKS }
        requires records { self.old.tally.left < EACH_RECORDS → self.old.running ≡ 0 }
        requires counted { self.old.tally.starved + self.old.running < self.old.tally.accepted }
        requires kept { N.Told → KeptWith (Answers K.calls_of K.step K.kept C.origin) (books_of N.hung N.up N.accepted net.old) 0 self.old }
        ensures kept { N.Told → KeptAt (Answers K.calls_of K.step K.kept C.origin) (books_of N.hung N.up N.accepted net.new) self.new }
        ensures waits { Waits self.old self.new }
        ensures coming { N.Told → N.coming net.new ≡ N.coming net.old }
        ensures faults { N.faults net.new ≡ N.faults net.old }
    {
        let conn = self.tally.accepted;
        let given = self.tally.left.min(EACH_RECORDS);
        let share = self.all.split_off(1, 0);
        let Closed {
            mine,
            from,
            to,
            end,
            unused,
        } = serve_link(rt, alloc, desk, share, conn, given, from, to);
        self.all.merge(mine);
        self.tally.left -= given;
        self.hang(net, from, to, end, given, unused);
    }

    // The ways of one connection more, or why no more are accepted.
    pub(crate) fn accept<R: Threads + Wait>(
        &mut self,
        rt: &R,
        bell: &Bell,
        net: &mut N,
    ) -> Result<(F, T), Stop>
        requires kept { N.Told → KeptAt (Answers K.calls_of K.step K.kept C.origin) (books_of N.hung N.up N.accepted net.old) self.old }
        ensures new { IfOk result (λ ways. IsNew (record { brings = F.gives ways.0; takes = T.takes ways.1 })) }
        ensures room { self.new.running < MOST_LINKS }
        ensures records { IfOk result (λ ways. self.new.tally.left < EACH_RECORDS → self.new.running ≡ 0) }
        ensures kept_new { IfOk result (λ ways. N.Told → KeptNew (Answers K.calls_of K.step K.kept C.origin) (books_of N.hung N.up N.accepted net.new) self.new) }
        ensures kept { IfErr result (λ stop. N.Told → KeptAt (Answers K.calls_of K.step K.kept C.origin) (books_of N.hung N.up N.accepted net.new) self.new) }
        ensures stops { IfErr result (λ stop. Stops N.Told (N.coming net.new) (N.faults net.old) (N.faults net.new) self.new stop) }
        ensures waits { Waits self.old self.new }
        ensures later { N.faults net.old ≤ N.faults net.new }
    {
        self.make_room(rt, bell, net);
        self.get_records(rt, bell, net);
        if self.tally.left == 0 {
            return Err(Stop::Spent);
        }
        match net.accept() {
            Dialed::Up(link) => Ok(link.halves()),
            Dialed::End => Err(Stop::End),
            Dialed::Failed => Err(Stop::Failed),
        }
    }

    // Has a connection served that was accepted just now: by a thread, with the records of one connection, or by itself.
    pub(crate) fn admit<'s, E, R: Threads + Wait + Sync>(
        &mut self,
        rt: &'s R,
        alloc: Global,
        scope: &Scope<'s, E>,
        bell: &'s Bell,
        desk: &'s Mutex<Counted<C, K>>,
        net: &mut N,
        from: F,
        to: T,
    )
    where
        C: Send + 's,
        K: Send + 's,
        F: Send + 's,
        T: Send + 's,
        requires new { IsNew (record { brings = F.gives from; takes = T.takes to }) }
        requires room { self.old.running < MOST_LINKS }
        requires records { self.old.tally.left < EACH_RECORDS → self.old.running ≡ 0 }
        requires more { self.old.tally.accepted < 2 ^ 32 - 1 }
        requires kept { N.Told → KeptNew (Answers K.calls_of K.step K.kept C.origin) (books_of N.hung N.up N.accepted net.old) self.old }
        ensures kept { N.Told → KeptAt (Answers K.calls_of K.step K.kept C.origin) (books_of N.hung N.up N.accepted net.new) self.new }
        ensures before { self.new.before ≡ self.old.before }
        ensures accepted { self.new.tally.accepted ≡ self.old.tally.accepted + 1 }
        ensures coming { N.Told → N.coming net.new ≡ N.coming net.old }
        ensures faults { N.faults net.new ≡ N.faults net.old }
    {
        self.tally.accepted += 1;
        if self.tally.left < EACH_RECORDS || self.running.len() == self.running.capacity() {
            self.serve_here(rt, alloc, desk, net, from, to);
            return;
        }
        let conn = self.tally.accepted;
        let seat = self.free_seat();
        let share = self.all.split_off(1, 0);
        self.tally.left -= EACH_RECORDS;
        match start(rt, alloc, scope, bell, desk, share, conn, seat, from, to) {
            Ok(running) => self.running.push_reserved(running),
            Err(closed) => {
                let Closed {
                    mine,
                    from,
                    to,
                    end,
                    unused,
                } = closed;
                self.all.merge(mine);
                self.hang(net, from, to, end, EACH_RECORDS, unused);
            }
        }
    }

    // How many connections were accepted.
    pub(crate) fn accepted(&self) -> u32
        ensures { result ≡ self.now.tally.accepted }
    {
        self.tally.accepted
    }

    // What was done, where no more are accepted by this cause.
    pub(crate) fn stopped(self, stop: Stop) -> Tally
        ensures { result ≡ record self.tally { stop = stop } }
    {
        Tally { stop, ..self.tally }
    }
}
