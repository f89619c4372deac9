ghost use Rattle.std.specs.Prelude.{◌≡◌, ◌<◌, ◌≤◌, ◌^◌, length, is_some};
ghost use Rattle.copy_workers.specs.Workers.{AllUnsent};
ghost use Rattle.link_server.specs.Keeping.{books_of, StopIs};
ghost use Rattle.callback_server.specs.Crew.{WorkedIs};
ghost use Rattle.callback_server.specs.Keeping.{Serves};

use crate::connections::serve_each;
use crate::crew::{Worked, start};
use crate::host::Host;
use callback_links::Line;
use copy_workers::{Desk, Gate, Link};
use link_server::Tally;
use net_links::Net;
use rpc_msg::{Sink, Source, Watched};
use std::alloc::Global;
use std::marker::{Send, Sync};
use std::sync::ledger::{Ledger, Share};
use std::sync::{Mutex, Wait};
use std::thread::{self, Threads};

/// The shares of a server's ledgers: of connections' calls, of their own puts, and of what workers landed, turned and were given.
#[derive(Drop)]
pub struct Shares<Q: Ledger, B: Ledger, L: Ledger, T: Ledger, G: Ledger> {
    pub calls: Share<Q>,
    pub own: Share<B>,
    pub all: Share<L>,
    pub turned: Share<T>,
    pub given: Share<G>,
}

/// Serves up to `conns` connections of a net, one after the other, while workers work at these links. A connection is given
/// 1,048,576 records, or all that are left of the server's 16,777,216. Each one that was accepted is hung up as soon as it has ended.
/// Where it wants memory, that one ends, and is counted. No more is accepted where accepting fails, no connection is left, or no
/// record is. Then the host is closed for workers, which are waited for. Each share is all of its ledger, with no amount; that of
/// calls is two parts of one at least.
pub fn serve_beside<
    R: Threads + Wait + Sync,
    Q: Ledger + Send,
    B: Ledger + Send,
    L: Ledger + Send,
    T: Ledger + Send,
    G: Ledger + Send,
    F: Source + Drop,
    S: Sink + Drop,
    K: Link + Send + Drop,
    Z: Send + Drop,
    H: Host<Q> + Desk<L, T, G, K, Shut = Z> + Send,
    N: Net<From = F, To = S>,
>(
    rt: &R,
    alloc: Global,
    desk: &Mutex<H>,
    gate: &Gate,
    line: &Mutex<Line<B, S>>,
    shares: Shares<Q, B, L, T, G>,
    conns: u32,
    turns: u64,
    crew: Vec<Watched<K>>,
    net: &mut N,
) -> (Tally, Worked<K, L, T, G, Z>)
    requires some { 1 ≤ length crew.items }
    requires few { length crew.items ≤ 8 }
    requires unsent { AllUnsent crew.items }
    requires turns { turns < 2 ^ 32 }
    requires calls { 2 ≤ shares.calls.parts }
    requires own { (B.parts ≡ 1) × (shares.own.parts ≡ 1) × (shares.own.amount ≡ 0) }
    requires all { (8 ≤ L.parts) × (shares.all.parts ≡ L.parts) × (shares.all.amount ≡ 0) }
    requires turned { (8 ≤ T.parts) × (shares.turned.parts ≡ T.parts) × (shares.turned.amount ≡ 0) }
    requires given { (8 ≤ G.parts) × (shares.given.parts ≡ G.parts) × (shares.given.amount ≡ 0) }
    ensures worked { WorkedIs (length crew.items) turns result.1.links.items (record {
      shares = result.1.report.shares;
      turned = result.1.report.turned;
      given = result.1.report.given;
      ends = result.1.report.ends;
      shut = is_some result.1.report.shut;
    }) }
    ensures served { N.Told → Serves H.answers (books_of N.hung N.up N.accepted net.old) (books_of N.hung N.up N.accepted net.new) result.0 }
    ensures stop { StopIs N.Told conns result.0.accepted result.0.left (N.coming net.new) (N.faults net.old) (N.faults net.new) result.0.stop }
    ensures later { N.faults net.old ≤ N.faults net.new }
{
    let (net, tally, worked) = thread::scope(
        thread::scope_env(),
        rt,
        |scope| -> (&mut N, Tally, Worked<K, L, T, G, Z>)
            requires { (1 ≤ length crew.items) × (length crew.items ≤ 8) × AllUnsent crew.items × (turns < 2 ^ 32)
                × (2 ≤ shares.calls.parts) × (B.parts ≡ 1) × (shares.own.parts ≡ 1) × (shares.own.amount ≡ 0)
                × (8 ≤ L.parts) × (shares.all.parts ≡ L.parts) × (shares.all.amount ≡ 0)
                × (8 ≤ T.parts) × (shares.turned.parts ≡ T.parts) × (shares.turned.amount ≡ 0)
                × (8 ≤ G.parts) × (shares.given.parts ≡ G.parts) × (shares.given.amount ≡ 0) }
            ensures name { result.0.ghost_name ≡ net.entry.ghost_name }
            ensures worked { WorkedIs (length crew.items) turns result.2.links.items (record {
              shares = result.2.report.shares;
              turned = result.2.report.turned;
              given = result.2.report.given;
              ends = result.2.report.ends;
              shut = is_some result.2.report.shut;
            }) }
            ensures served { N.Told → Serves H.answers (books_of N.hung N.up N.accepted net.entry.now) (books_of N.hung N.up N.accepted result.0.now) result.1 }
            ensures stop { StopIs N.Told conns result.1.accepted result.1.left (N.coming result.0.now) (N.faults net.entry.now) (N.faults result.0.now) result.1.stop }
            ensures later { N.faults net.entry.now ≤ N.faults result.0.now }
        {
            let Shares {
                mut calls,
                mut own,
                all,
                turned,
                given,
            } = shares;
            let crew = start(
                rt, alloc, scope, desk, gate, all, turned, given, crew, turns,
            );
            let tally = serve_each(
                rt, alloc, desk, gate, line, &mut calls, &mut own, conns, net,
            );
            let worked = match crew {
                Ok(handle) => {
                    desk.lock(rt).close();
                    gate.wake();
                    handle.join(rt)
                }
                Err(worked) => worked,
            };
            (net, tally, worked)
        },
    );
    take_back(net);
    (tally, worked)
}

// Takes a net back that a scope was lent.
fn take_back<N>(net: &mut N)
    ensures { net.new ≡ net.old }
{}
