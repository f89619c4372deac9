ghost use Rattle.std.specs.Prelude.{◌≡◌, ◌+◌, ◌<◌, ◌≤◌};
ghost use Rattle.copy_workers.specs.Workers.{held_given, held_landed, held_shut, held_turns, HeldIsModest, WasShut};

use crate::desk::Desk;
use crate::link::Link;
use outbox::Outbox;
use rpc_msg::Watched;
use std::alloc::Global;
use std::sync::ledger::{Ledger, Share};
use std::sync::{Mutex, Wait};

// What came of one holding.
#[derive(Drop)]
pub(crate) enum Held<Z> {
    /// The desk was closed, and nothing was done.
    Closed(Z),
    /// Memory was refused.
    Starved,
    /// What is to be sent and told.
    Gave(Outbox),
}

// Holds the desk once: lands the record that the link lends where there is a reply, else asks for work.
pub(crate) fn hold<R: Wait, L: Ledger, T: Ledger, G: Ledger, N: Link, K: Desk<L, T, G, N>>(
    rt: &R,
    alloc: Global,
    desk: &Mutex<K>,
    worker: u8,
    reply: bool,
    link: &Watched<N>,
    share: &mut Share<L>,
    turned: &mut Share<T>,
    given: &mut Share<G>,
) -> Held<K::Shut>
    requires worker { 1 ≤ worker }
    requires workers { worker ≤ 8 }
    requires share { 0 < share.old.parts }
    requires turned { 0 < turned.old.parts }
    requires given { 0 < given.old.parts }
    ensures share_parts { share.new.parts ≡ share.old.parts }
    ensures turned_parts { turned.new.parts ≡ turned.old.parts }
    ensures given_parts { given.new.parts ≡ given.old.parts }
    ensures share { share.new.amount ≡ share.old.amount + held_landed result }
    ensures turned { turned.new.amount ≡ turned.old.amount + held_turns result }
    ensures given { given.new.amount ≡ given.old.amount + held_given worker result }
    ensures modest { HeldIsModest worker result }
    ensures shut { WasShut K.shut_by (held_shut result) }
{
    let mut held = desk.lock(rt);
    if let Some(shut) = held.closed() {
        return Held::Closed(shut);
    }
    let record_ = if reply { Some(link.record()) } else { None };
    match held.turn(alloc, worker, record_, share, turned, given) {
        Ok(out) => Held::Gave(out),
        Err(_) => Held::Starved,
    }
}
