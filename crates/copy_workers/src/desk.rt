ghost use Rattle.std.specs.Prelude.{◌≡◌, ℕ, ◌<◌, ◌≤◌, true, List, Option, Result, IfOk, option_copied};
ghost use Rattle.rpc_msg.specs.Watching.{is_down};
ghost use Rattle.copy_workers.specs.Desk.{landed_by, given_by, Adds, IsModest};
ghost use Rattle.outbox.specs.Counting.{records_to};
ghost use Rattle.outbox.specs.declared.outgoing.Outbox.{Outbox};
ghost use Rattle.outcome.specs.declared.memory.NoMemory.{NoMemory};

use outbox::Outbox;
use outcome::Mem;
use rpc_msg::Watched;
use std::alloc::Global;
use std::marker::Send;
use std::sync::ledger::{Ledger, Share};

/// What workers share under one lock. It keeps a book of each of three ledgers: of the bytes that landed, of the turns that
/// workers had, and of the bytes that they were given to send. A worker has a share of each. Workers' numbers go from 1 to 8.
pub trait Desk<L: Ledger, T: Ledger, G: Ledger, N>: Send {
    /// Why a desk is closed.
    type Shut: Send + Drop;

    // The totals of the three books.
    ghost landed_book: { Self → ℕ };

    ghost turns_book: { Self → ℕ };

    ghost given_book: { Self → ℕ };

    // Why it is closed, where it is.
    ghost shut_by: { Self → Option Self.Shut };

    // What a worker's turn did, with the record that came on its link or without one, and what was done of a link that is down. A desk
    // that has no more to tell than its books says nothing.
    ghost takes_turn: { (worker : ℕ) → Option (List ℕ) → Self → Result Outbox NoMemory → Self → Type 0 } = { λ _ _ _ _ _. Unit {0} };

    ghost loses_link: { (worker : ℕ) → Self → Result Outbox NoMemory → Self → Type 0 } = { λ _ _ _ _. Unit {0} };

    /// A worker's turn. Takes the record that came on the worker's link, or, where there is none, finds what the worker is to do;
    /// and gives records to the worker's link, at most two, and records to connections. The turn is counted also where memory is
    /// refused, after which nothing else changed in the books, and the record may be given once more.
    fn turn(
        &mut self,
        alloc: Global,
        worker: u8,
        reply: Option<&[u8]>,
        share: &mut Share<L>,
        turned: &mut Share<T>,
        given: &mut Share<G>,
    ) -> Mem<Outbox>
        requires worker { 1 ≤ worker }
        requires workers { worker ≤ 8 }
        requires share { 0 < share.old.parts }
        requires turned { 0 < turned.old.parts }
        requires given { 0 < given.old.parts }
        ensures share_parts { share.new.parts ≡ share.old.parts }
        ensures turned_parts { turned.new.parts ≡ turned.old.parts }
        ensures given_parts { given.new.parts ≡ given.old.parts }
        ensures landed { Adds (landed_by result) (landed_book self.old) (landed_book self.new) share.old.amount share.new.amount }
        ensures turned { Adds 1 (turns_book self.old) (turns_book self.new) turned.old.amount turned.new.amount }
        ensures given { Adds (given_by worker result) (given_book self.old) (given_book self.new) given.old.amount given.new.amount }
        ensures modest { IfOk result (λ out. IsModest worker out) }
        ensures turn { takes_turn worker (option_copied reply.entry) self.old result self.new };

    /// A worker's link is down. Nothing goes to it any more, and the books stay.
    fn link_failed(&mut self, alloc: Global, worker: u8, link: &Watched<N>) -> Mem<Outbox>
        requires worker { 1 ≤ worker }
        requires workers { worker ≤ 8 }
        requires down { is_down link.now.signs ≡ true }
        ensures landed { landed_book self.new ≡ landed_book self.old }
        ensures turned { turns_book self.new ≡ turns_book self.old }
        ensures given { given_book self.new ≡ given_book self.old }
        ensures none { IfOk result (λ out. records_to worker out.sent ≡ 0) }
        ensures loss { loses_link worker self.old result self.new };

    /// Why the desk is closed, where it is.
    fn closed(&self) -> Option<Self::Shut>
        ensures { result ≡ shut_by self.now };

    /// The total of the book of landed bytes, which is the amount of a share with every part.
    fn book(&mut self, all: &mut Share<L>) -> u64
        requires { all.old.parts ≡ L.parts }
        ensures total { result ≡ landed_book self.old }
        ensures amount { result ≡ all.old.amount }
        ensures parts { all.new.parts ≡ all.old.parts }
        ensures share { all.new.amount ≡ all.old.amount }
        ensures same { self.new ≡ self.old };
}
