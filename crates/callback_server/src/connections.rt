ghost use Rattle.std.specs.Prelude.{◌≡◌, ◌+◌, ◌^◌, ◌-◌, ◌<◌, ◌≤◌};
ghost use Rattle.net_links.specs.Links.{HangsUp};
ghost use Rattle.link_server.specs.Keeping.{books_of, StopIs};
ghost use Rattle.callback_server.specs.Keeping.{tally_with, Serves};

use crate::connection::{Closed, serve_link};
use crate::host::Host;
use callback_links::Line;
use copy_workers::Gate;
use link_server::{ALL_RECORDS, EACH_RECORDS, Stop, Tally};
use net_links::{Dialed, Halves, Net};
use rpc_msg::{Sink, Source};
use std::alloc::Global;
use std::sync::ledger::{Ledger, Share};
use std::sync::{Mutex, Wait};

/// Serves up to `conns` connections of a net, one after the other, and hangs each up as soon as it has ended. A connection is given
/// 1,048,576 records, or all that are left of the server's 16,777,216. Where it wants memory, it ends, and is counted. No more is
/// accepted where accepting fails, no connection is left, or no record is. The share of the line's ledger is all of it.
pub fn serve_each<
    R: Wait,
    Q: Ledger,
    B: Ledger,
    H: Host<Q>,
    F: Source,
    T: Sink + Drop,
    N: Net<From = F, To = T>,
>(
    rt: &R,
    alloc: Global,
    desk: &Mutex<H>,
    gate: &Gate,
    line: &Mutex<Line<B, T>>,
    calls: &mut Share<Q>,
    own: &mut Share<B>,
    conns: u32,
    net: &mut N,
) -> Tally
    requires calls { 2 ≤ calls.old.parts }
    requires own { (B.parts ≡ 1) × (own.old.parts ≡ 1) × (own.old.amount ≡ 0) }
    ensures served { N.Told → Serves H.answers (books_of N.hung N.up N.accepted net.old) (books_of N.hung N.up N.accepted net.new) result }
    ensures stop { StopIs N.Told conns result.accepted result.left (N.coming net.new) (N.faults net.old) (N.faults net.new) result.stop }
    ensures later { N.faults net.old ≤ N.faults net.new }
{
    let mut tally = Tally {
        accepted: 0,
        starved: 0,
        left: ALL_RECORDS,
        stop: Stop::All,
    };
    'conns: while tally.accepted < conns {
        if tally.left == 0 {
            tally.stop = Stop::Spent;
            return tally;
        }
        match net.accept() {
            Dialed::Up(link) => {
                let (from, to) = link.halves();
                let given = tally.left.min(EACH_RECORDS);
                let conn = tally.accepted;
                let closed = serve_link(
                    rt, alloc, desk, gate, line, calls, own, conn, given, from, to,
                );
                hang(&mut tally, net, given, closed);
            }
            Dialed::End => {
                tally.stop = Stop::End;
                return tally;
            }
            Dialed::Failed => {
                tally.stop = Stop::Failed;
                return tally;
            }
        }
    }
    tally
}

// Hangs up a connection that was served, counts it, and takes back the records that it left.
fn hang<F: Source, T: Sink, N: Net<From = F, To = T>>(
    tally: &mut Tally,
    net: &mut N,
    given: u64,
    closed: Closed<F, T>,
)
    requires up { N.Told → 0 < N.up net.old }
    requires few { tally.old.accepted < 2 ^ 32 - 1 }
    requires starved { tally.old.starved ≤ tally.old.accepted }
    requires left { tally.old.left ≤ ALL_RECORDS }
    requires given { given ≤ tally.old.left }
    requires unused { closed.unused ≤ given }
    ensures tally { tally.new ≡ tally_with tally.old given closed.unused closed.end }
    ensures hung { N.Told → HangsUp (N.hung net.old) (N.hung net.new) (record { brings = F.gives closed.from; takes = T.takes closed.to }) }
    ensures up { N.Told → N.up net.old ≡ N.up net.new + 1 }
    ensures accepted { N.Told → N.accepted net.new ≡ N.accepted net.old }
    ensures coming { N.Told → N.coming net.new ≡ N.coming net.old }
    ensures faults { N.faults net.new ≡ N.faults net.old }
{
    let Closed {
        from,
        to,
        end,
        unused,
    } = closed;
    net.hang_up(from, to);
    tally.accepted += 1;
    if end.is_none() {
        tally.starved += 1;
    }
    tally.left = tally.left - given + unused;
}
