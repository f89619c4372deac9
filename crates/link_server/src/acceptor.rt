ghost use Rattle.std.specs.Prelude.{◌≡◌, ◌+◌, ◌≤◌};
ghost use Rattle.link_server.specs.Answering.{Answers};
ghost use Rattle.link_server.specs.Keeping.{books_of, Serves, StopIs};

use crate::bell::Bell;
use crate::counted::{Counted, Origin};
use crate::machine::Machine;
use crate::site::Site;
use crate::tally::{MOST_LINKS, Stop, Tally};
use net_links::Net;
use rpc_msg::{Sink, Source};
use std::alloc::Global;
use std::marker::{Send, Sync};
use std::sync::ledger::Share;
use std::sync::{Mutex, Wait};
use std::thread::{self, Scope, Threads};

// Accepts connections until as many were as are asked for, or there are no more, and waits until all have ended.
fn accept_all<
    's,
    E,
    R: Threads + Wait + Sync,
    C: Origin<K> + Send + 's,
    K: Machine + Send + 's,
    F: Source + Send + Drop + 's,
    T: Sink + Send + Drop + 's,
    N: Net<From = F, To = T>,
>(
    rt: &'s R,
    alloc: Global,
    scope: &Scope<'s, E>,
    bell: &'s Bell,
    desk: &'s Mutex<Counted<C, K>>,
    all: Share<C>,
    conns: u32,
    net: &mut N,
) -> Tally
    requires { MOST_LINKS + 2 ≤ all.parts }
    ensures served { N.Told → Serves (Answers K.calls_of K.step K.kept C.origin)
        (books_of N.hung N.up N.accepted net.old) (books_of N.hung N.up N.accepted net.new) result }
    ensures stop { StopIs N.Told conns result.accepted result.left (N.coming net.new) (N.faults net.old) (N.faults net.new) result.stop }
    ensures later { N.faults net.old ≤ N.faults net.new }
{
    let mut site = Site::new(alloc, all, net);
    let mut stop = Stop::All;
    'conns: while site.accepted() < conns {
        site.gather(rt, bell, net);
        match site.accept(rt, bell, net) {
            Ok((from, to)) => site.admit(rt, alloc, scope, bell, desk, net, from, to),
            Err(cause) => {
                stop = cause;
                break;
            }
        }
    }
    site.wait_for_all(rt, bell, net);
    site.stopped(stop)
}

/// Accepts up to `conns` connections of a net, and serves the records of each by the machine under the lock, in threads, sixteen
/// connections at most at once; one by itself where no thread can be had. A connection is given 1,048,576 records; where fewer
/// than that are left of the server's 16,777,216, it waits until those that end gave back enough, or no other is served, and then
/// gives the next one all that are left. Each connection that was accepted is hung up: those that have ended before the next one is
/// accepted, and the others as they end. Where a connection wants memory, that one ends, and is counted. It accepts no more where accepting fails, no connection
/// is left, or no record is. The share has eighteen parts of the ledger at least, and no connection's calls.
pub fn serve<
    R: Threads + Wait + Sync,
    C: Origin<K> + Send,
    K: Machine + Send,
    F: Source + Send + Drop,
    T: Sink + Send + Drop,
    N: Net<From = F, To = T>,
>(
    rt: &R,
    alloc: Global,
    desk: &Mutex<Counted<C, K>>,
    all: Share<C>,
    conns: u32,
    net: &mut N,
) -> Tally
    requires { MOST_LINKS + 2 ≤ all.parts }
    ensures served { N.Told → Serves (Answers K.calls_of K.step K.kept C.origin)
        (books_of N.hung N.up N.accepted net.old) (books_of N.hung N.up N.accepted net.new) result }
    ensures stop { StopIs N.Told conns result.accepted result.left (N.coming net.new) (N.faults net.old) (N.faults net.new) result.stop }
    ensures later { N.faults net.old ≤ N.faults net.new }
{
    let bell = Bell::new();
    let bell = &bell;
    let (net, tally) = thread::scope(
        thread::scope_env(),
        rt,
        |scope| -> (&mut N, Tally)
            requires { MOST_LINKS + 2 ≤ all.parts }
            ensures name { result.0.ghost_name ≡ net.entry.ghost_name }
            ensures served { N.Told → Serves (Answers K.calls_of K.step K.kept C.origin)
                (books_of N.hung N.up N.accepted net.entry.now) (books_of N.hung N.up N.accepted result.0.now) result.1 }
            ensures stop { StopIs N.Told conns result.1.accepted result.1.left (N.coming result.0.now) (N.faults net.entry.now) (N.faults result.0.now) result.1.stop }
            ensures later { N.faults net.entry.now ≤ N.faults result.0.now }
        {
            let tally = accept_all(rt, alloc, scope, bell, desk, all, conns, net);
            (net, tally)
        },
    );
    take_back(net);
    tally
}

// Takes a net back that a scope was lent.
fn take_back<N>(net: &mut N)
    ensures { net.new ≡ net.old }
{}
