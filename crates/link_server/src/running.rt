ghost use Rattle.std.specs.Prelude.{◌≡◌, ◌<◌, IfErr};
ghost use Rattle.net_links.specs.Links.{IsNew};
ghost use Rattle.link_server.specs.Answering.{Answers};
ghost use Rattle.link_server.specs.Serving.{ClosesFull};

use crate::bell::Bell;
use crate::counted::{Counted, Origin};
use crate::link::{Closed, serve_link};
use crate::machine::Machine;
use crate::tally::EACH_RECORDS;
use rpc_msg::{Sink, Source};
use std::alloc::Global;
use std::marker::{PhantomData, Send, Sync};
use std::sync::ledger::Share;
use std::sync::{Mutex, Wait};
use std::thread::{Promise, PromisedHandle, Scope, Threads};

// What the thread of a connection promises: that it served it.
#[derive(Drop)]
pub(crate) struct Served<C, K> {
    by: PhantomData<C>,
    of: PhantomData<K>,
}

impl<C: Origin<K>, K: Machine, F: Source, T: Sink> Promise<Closed<C, F, T>> for Served<C, K> {
    ghost kept_by = { λ _ closed. ClosesFull (Answers K.calls_of K.step K.kept C.origin) closed.mine.parts closed.unused closed.end
        (record { brings = F.gives closed.from; takes = T.takes closed.to }) };
}

// A connection that is served by a thread, and the seat of that thread.
#[derive(Drop)]
pub(crate) struct Running<C: Origin<K>, K: Machine, F: Source + Drop, T: Sink + Drop> {
    pub(crate) seat: u8,
    pub(crate) handle: PromisedHandle<Closed<C, F, T>, Served<C, K>>,
}

// Starts a thread that serves a new connection, or serves it where no thread can be had.
pub(crate) fn start<
    's,
    E,
    R: Threads + Wait + Sync,
    C: Origin<K> + Send + 's,
    K: Machine + Send + 's,
    F: Source + Send + Drop + 's,
    T: Sink + Send + Drop + 's,
>(
    rt: &'s R,
    alloc: Global,
    scope: &Scope<'s, E>,
    bell: &'s Bell,
    desk: &'s Mutex<Counted<C, K>>,
    mine: Share<C>,
    conn: u32,
    seat: u8,
    from: F,
    to: T,
) -> Result<Running<C, K, F, T>, Closed<C, F, T>>
    requires part { 0 < mine.parts }
    requires calls { mine.amount ≡ 0 }
    requires new { IsNew (record { brings = F.gives from; takes = T.takes to }) }
    ensures refused { IfErr result (λ closed. ClosesFull (Answers K.calls_of K.step K.kept C.origin) closed.mine.parts closed.unused closed.end
        (record { brings = F.gives closed.from; takes = T.takes closed.to })) }
{
    let job = move || -> Closed<C, F, T>
        requires { (0 < mine.parts) × (mine.amount ≡ 0) × IsNew (record { brings = F.gives from; takes = T.takes to }) }
        ensures { ClosesFull (Answers K.calls_of K.step K.kept C.origin) result.mine.parts result.unused result.end
            (record { brings = F.gives result.from; takes = T.takes result.to }) }
    {
        let closed = serve_link(rt, alloc, desk, mine, conn, EACH_RECORDS, from, to);
        bell.ring(seat);
        closed
    };
    let promise = Served::<C, K> {
        by: PhantomData,
        of: PhantomData,
    };
    match scope.spawn_with(promise, job) {
        Ok(handle) => Ok(Running { seat, handle }),
        Err(refused) => {
            let closed = (refused.value)();
            bell.clear(seat);
            Err(closed)
        }
    }
}
