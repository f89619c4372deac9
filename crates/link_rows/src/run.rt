//! A server over a new toy machine.

ghost use Rattle.std.specs.Prelude.{◌≡◌, ◌≤◌, Some};

use crate::toy::Toy;
use link_server::{Counted, Origin, Tally, serve};
use net_links::Net;
use rpc_msg::{Sink, Source};
use std::alloc::Global;
use std::marker::{Brand, Send, Sync};
use std::sync::ledger::Blank;
use std::sync::{Mutex, Wait};
use std::thread::Threads;

/// Serves up to so many connections of a net.
pub fn run<
    R: Threads + Wait + Sync,
    F: Source + Send + Drop,
    T: Sink + Send + Drop,
    N: Net<From = F, To = T>,
>(rt: &R, alloc: Global, conns: u32, net: &mut N) -> Tally {
    run_by::<Brand, R, F, T, N>(rt, alloc, Blank::new(18), Toy::new(), conns, net)
}

fn run_by<
    C: Origin<Toy> + Send,
    R: Threads + Wait + Sync,
    F: Source + Send + Drop,
    T: Sink + Send + Drop,
    N: Net<From = F, To = T>,
>(rt: &R, alloc: Global, blank: Blank, toy: Toy, conns: u32, net: &mut N) -> Tally
    requires blank { (blank.name ≡ C.name) × (blank.parts ≡ C.parts) × (18 ≤ blank.parts) }
    requires origin { C.origin ≡ Some toy }
{
    let (book, all) = blank.open::<C>();
    let desk = Mutex::new(Counted::new(toy, book));
    serve(rt, alloc, &desk, all, conns, net)
}
