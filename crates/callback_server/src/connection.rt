ghost use Rattle.std.specs.Prelude.{◌≡◌, ◌≤◌};
ghost use Rattle.net_links.specs.Links.{IsNew};
ghost use Rattle.link_server.specs.Serving.{Went};
ghost use Rattle.callback_server.specs.Serving.{heard, AttendedIs};

use crate::handler::Answering;
use crate::host::Host;
use callback_links::{Line, Sending};
use copy_workers::Gate;
use rpc_msg::{Pumped, RecordFeed, Sink, Source, pump_records};
use std::alloc::Global;
use std::sync::ledger::{Ledger, Share};
use std::sync::{Mutex, Wait};

// A connection that was served: its two ways, how it ended (without an answer: for want of memory), and how many of the records
// that it was given are left.
#[derive(Drop)]
pub(crate) struct Closed<F, T> {
    pub(crate) from: F,
    pub(crate) to: T,
    pub(crate) end: Option<Pumped>,
    pub(crate) unused: u64,
}

// Serves the records of a new connection, at most as many as are given, with a part of the share of calls and the line's share.
pub(crate) fn serve_link<R: Wait, Q: Ledger, B: Ledger, H: Host<Q>, F: Source, T: Sink + Drop>(
    rt: &R,
    alloc: Global,
    desk: &Mutex<H>,
    gate: &Gate,
    line: &Mutex<Line<B, T>>,
    calls: &mut Share<Q>,
    own: &mut Share<B>,
    conn: u32,
    given: u64,
    from: F,
    to: T,
) -> Closed<F, T>
    requires calls { 2 ≤ calls.old.parts }
    requires own { (B.parts ≡ 1) × (own.old.parts ≡ 1) × (own.old.amount ≡ 0) }
    requires new { IsNew (record { brings = F.gives from; takes = T.takes to }) }
    ensures calls { 2 ≤ calls.new.parts }
    ensures own { (own.new.parts ≡ 1) × (own.new.amount ≡ 0) }
    ensures served { AttendedIs H.answers given result.unused result.end (record { brings = F.gives result.from; takes = T.takes result.to }) }
{
    let mut from = from;
    let mut left = given;
    let mut sending = Sending::open(rt, line, own.split_off(1, 0), conn, to);
    let mut handler = Answering::new(rt, desk, gate, line, calls.split_off(1, 0), conn);
    let end = pump(alloc, &mut from, &mut sending, &mut handler, &mut left);
    let (back, to) = sending.close();
    own.merge(back);
    calls.merge(handler.hand_back());
    Closed {
        from,
        to,
        end,
        unused: left,
    }
}

// Pumps until the connection ends, and answers nothing where memory is wanted.
fn pump<R: Wait, Q: Ledger, B: Ledger, H: Host<Q>, F: Source, T: Sink + Drop>(
    alloc: Global,
    from: &mut F,
    sending: &mut Sending<'_, R, B, T>,
    handler: &mut Answering<'_, R, Q, B, H, T>,
    left: &mut u64,
) -> Option<Pumped>
    ensures went { Went H.answers handler.old handler.new (heard (F.gives from.old) sending.old) (heard (F.gives from.new) sending.new)
        left.old left.new result }
    ensures whole { (F.gives from.new).whole ≡ (F.gives from.old).whole }
{
    let Ok(mut feed) = RecordFeed::new(alloc) else {
        return None;
    };
    pump_records(alloc, from, sending, &mut feed, handler, u64::MAX, left).ok()
}
