ghost use Rattle.std.specs.Prelude.{◌≡◌, ◌<◌};
ghost use Rattle.net_links.specs.Links.{IsNew};
ghost use Rattle.link_server.specs.Answering.{Answers};
ghost use Rattle.link_server.specs.Serving.{ServedIs, Went};

use crate::counted::{Counted, Origin};
use crate::machine::Machine;
use crate::shared::Shared;
use rpc_msg::{Pumped, RecordFeed, Sink, Source, pump_records};
use std::alloc::Global;
use std::sync::ledger::{Ledger, Share};
use std::sync::{Mutex, Wait};

// A connection that was served: its share of calls, its two ways, how it ended (without an answer: for want of memory), and how
// many of the records that it was given are left.
#[derive(Drop)]
pub(crate) struct Closed<C: Ledger, F, T> {
    pub(crate) mine: Share<C>,
    pub(crate) from: F,
    pub(crate) to: T,
    pub(crate) end: Option<Pumped>,
    pub(crate) unused: u64,
}

// Serves the records of a new connection, at most as many as are given.
pub(crate) fn serve_link<R: Wait, C: Origin<K>, K: Machine, F: Source, T: Sink>(
    rt: &R,
    alloc: Global,
    desk: &Mutex<Counted<C, K>>,
    mine: Share<C>,
    conn: u32,
    given: u64,
    from: F,
    to: T,
) -> Closed<C, F, T>
    requires part { 0 < mine.parts }
    requires calls { mine.amount ≡ 0 }
    requires new { IsNew (record { brings = F.gives from; takes = T.takes to }) }
    ensures part { 0 < result.mine.parts }
    ensures served { ServedIs (Answers K.calls_of K.step K.kept C.origin) given result.unused result.end
        (record { brings = F.gives result.from; takes = T.takes result.to }) }
{
    let mut from = from;
    let mut to = to;
    let mut left = given;
    let mut handler = Shared::new(rt, desk, mine, conn);
    let end = pump(alloc, &mut from, &mut to, &mut handler, &mut left);
    Closed {
        mine: handler.hand_back(),
        from,
        to,
        end,
        unused: left,
    }
}

// Pumps until the connection ends, and answers nothing where memory is wanted.
fn pump<R: Wait, C: Origin<K>, K: Machine, F: Source, T: Sink>(
    alloc: Global,
    from: &mut F,
    to: &mut T,
    handler: &mut Shared<'_, R, C, K>,
    left: &mut u64,
) -> Option<Pumped>
    ensures went { Went (Answers K.calls_of K.step K.kept C.origin) handler.old handler.new
        (record { brings = F.gives from.old; takes = T.takes to.old }) (record { brings = F.gives from.new; takes = T.takes to.new })
        left.old left.new result }
    ensures whole { (F.gives from.new).whole ≡ (F.gives from.old).whole }
{
    let Ok(mut feed) = RecordFeed::new(alloc) else {
        return None;
    };
    pump_records(alloc, from, to, &mut feed, handler, u64::MAX, left).ok()
}
