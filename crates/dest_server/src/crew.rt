ghost use Rattle.std.specs.Prelude.{◌≡◌, ◌<◌, ◌≤◌, ◌^◌, IfErr, IfOk, is_some};
ghost use Rattle.link_server.specs.Keeping.{books_of, StopIs};
ghost use Rattle.callback_server.specs.Crew.{DialedFor, ServesBeside, ServesNone};
ghost use Rattle.dest_server.specs.Coming.{core_words};
ghost use Rattle.dest_server.specs.Desk.{desk_answers};

use crate::desk::CountedDesk;
use callback_links::Line;
use callback_server::{DialFault, Shares, Worked, dial_all, hang_all, serve_beside};
use copy_workers::{Gate, WorkerReport};
use core_desk::{Closing, Core};
use link_server::{Origin, Tally};
use net_links::Net;
use rpc_msg::{Sink, Source};
use std::alloc::Global;
use std::marker::{Send, Sync};
use std::sync::ledger::Ledger;
use std::sync::{Mutex, Wait};
use std::thread::Threads;
use streams::{Clock, Draws};

// What a server did whose workers' links were dialed.
#[derive(Drop)]
pub(crate) struct Served<L: Ledger, T: Ledger, G: Ledger> {
    // What it did with connections.
    pub(crate) tally: Tally,

    // What its workers did.
    pub(crate) report: WorkerReport<L, T, G, Closing>,
}

// What a server is asked to do.
#[derive(Clone, Copy)]
pub(crate) struct Service {
    // How many connections it accepts at most.
    pub(crate) conns: u32,

    // How many workers it has, from 1 to 8.
    pub(crate) workers: usize,

    // The port at which each of them finds the source.
    pub(crate) port: u16,

    // How many turns each of them has at most.
    pub(crate) turns: u64,
}

// Dials the links of the workers, serves up to `conns` connections of a net, one after the other, while the workers work, and hangs
// the workers' links up. A connection is given 1,048,576 records, or all that are left of the server's 16,777,216. Each one that was
// accepted is hung up as soon as it has ended. Where it wants memory, that one ends, and is counted. No more is accepted where
// accepting fails, no connection is left, or no record is. Then the host is closed for workers. Where a dial fails, or memory is
// refused for it, no connection is accepted, and those links that were dialed are hung up. Each share is all of its ledger, with no
// amount; that of calls is two parts of one at least.
pub(crate) fn serve_desk<
    'a,
    R: Threads + Wait + Sync,
    Q: Origin<K> + Send,
    B: Ledger + Send,
    L: Ledger + Send,
    T: Ledger + Send,
    G: Ledger + Send,
    F: Source + Send + Drop,
    S: Sink + Send + Drop,
    K: Core<W> + Send,
    C: Clock + Send,
    W: Draws + Send,
    N: Net<From = F, To = S>,
>(
    rt: &'a R,
    alloc: Global,
    desk: &Mutex<CountedDesk<Q, L, T, G, K, C, W>>,
    gate: &'a Gate,
    line: &'a Mutex<Line<B, S>>,
    shares: Shares<Q, B, L, T, G>,
    service: Service,
    net: &mut N,
) -> Result<Served<L, T, G>, DialFault>
    requires workers { (1 ≤ service.workers) × (service.workers ≤ 8) }
    requires turns { service.turns < 2 ^ 32 }
    requires calls { 2 ≤ shares.calls.parts }
    requires own { (B.parts ≡ 1) × (shares.own.parts ≡ 1) × (shares.own.amount ≡ 0) }
    requires all { (8 ≤ L.parts) × (shares.all.parts ≡ L.parts) × (shares.all.amount ≡ 0) }
    requires turned { (8 ≤ T.parts) × (shares.turned.parts ≡ T.parts) × (shares.turned.amount ≡ 0) }
    requires given { (8 ≤ G.parts) × (shares.given.parts ≡ G.parts) × (shares.given.amount ≡ 0) }
    ensures beside { IfOk result (λ served. ServesBeside N.Told (desk_answers (core_words K.takes_record K.ticks K.works K.takes_reply K.fails_link) K.landed K.steps Q.origin)
        (books_of N.hung N.up N.accepted net.old) (books_of N.hung N.up N.accepted net.new)
        service.workers service.turns
        (record { shares = served.report.shares; turned = served.report.turned; given = served.report.given; ends = served.report.ends; shut = is_some served.report.shut })
        served.tally) }
    ensures stop { IfOk result (λ served. StopIs N.Told service.conns served.tally.accepted served.tally.left (N.coming net.new)
        (N.faults net.old) (N.faults net.new) served.tally.stop) }
    ensures none { IfErr result (λ _. ServesNone N.Told (books_of N.hung N.up N.accepted net.old) (books_of N.hung N.up N.accepted net.new) service.workers) }
    ensures fault { IfErr result (λ fault. DialedFor (N.faults net.old) (N.faults net.new) fault) }
    ensures later { N.faults net.old ≤ N.faults net.new }
{
    let mut crew = Vec::new(alloc);
    let workers = service.workers;
    let dialed = dial_all(rt, alloc, gate, line, workers, service.port, net, &mut crew);
    if let Some(fault) = dialed {
        hang_all(crew, net);
        return Err(fault);
    }
    let (tally, worked) = serve_beside(
        rt,
        alloc,
        desk,
        gate,
        line,
        shares,
        service.conns,
        service.turns,
        crew,
        net,
    );
    let Worked { links, report } = worked;
    hang_all(links, net);
    Ok(Served { tally, report })
}
