ghost use Rattle.std.specs.Prelude.{◌≡◌, ◌<◌, ◌≤◌, length, IfOk, OnErr, Option, Some};
ghost use Rattle.rpc_msg.specs.Records.{record_limit};
ghost use Rattle.link_server.specs.Answering.{Answers, Starved, system_error_of};
ghost use Rattle.link_server.specs.Reaching.{ReachedFrom};

use crate::machine::{MOST_CALLS, Machine};
use outcome::Mem;
use std::alloc::Global;
use std::marker::{Brand, Model};
use std::sync::ledger::{Book, Ledger, Share};
use wire_xdr::Octets;

/// The ledger of the calls that connections make of a server's machine, and the machine as the server began with it.
pub trait Origin<K>: Ledger {
    // As it was then, where it is known.
    ghost origin: { Option K };
}

impl<K> Origin<K> for Brand {
    ghost use Rattle.std.specs.Prelude.{None};

    ghost origin = { None };
}

/// A machine, with the book of the calls that connections made of it and that found memory. Its total is at most the machine's
/// count, so that no connection made more calls than the machine; and the machine has come to its state by calls since the server began.
#[derive(Drop)]
pub struct Counted<C: Origin<K>, K: Machine> {
    machine: K,
    book: Book<C>,
}

impl<C: Origin<K>, K: Machine> Model for Counted<C, K> {
    ghost use Rattle.std.specs.Prelude.{◌≤◌};
    ghost use Rattle.link_server.specs.Counting.{CountedState};
    ghost use Rattle.link_server.specs.Reaching.{ReachedFrom};

    ghost Value = { CountedState K };

    ghost view = { λ c. record { machine = c.machine; booked = c.book.total } };

    ghost invariant = { λ c. record {
      booked : c.book.total ≤ K.calls_of c.machine;
      reached : ReachedFrom K.calls_of K.step K.kept C.origin c.machine;
    } };
}

impl<C: Origin<K>, K: Machine> Counted<C, K> {
    /// The machine with which the server begins, with a book whose total is at most the machine's count of calls.
    pub fn new(machine: K, book: Book<C>) -> Counted<C, K>
        requires booked { book.total ≤ K.calls_of machine }
        requires origin { C.origin ≡ Some machine }
        ensures { result ≡ record { machine = machine; booked = book.total } }
    {
        Counted { machine, book }
    }

    /// The machine, lent.
    pub fn machine(&self) -> &K
        ensures { result.now ≡ self.now.machine }
    {
        &self.machine
    }

    /// The machine, handed back.
    pub fn hand_back(self) -> K
        ensures is { result ≡ self.machine }
        ensures reached { ReachedFrom K.calls_of K.step K.kept C.origin result }
    {
        let Counted { machine, book: _ } = self;
        machine
    }

    // Answers a record that came on a connection, whose calls the share has. Where the machine has no call left nothing is
    // answered. Without memory the share is as before.
    pub(crate) fn answer(
        &mut self,
        alloc: Global,
        conn: u32,
        record_: &[u8],
        mine: &mut Share<C>,
    ) -> Mem<Octets>
        requires { 0 < mine.old.parts }
        ensures parts { mine.new.parts ≡ mine.old.parts }
        ensures small { IfOk result (λ reply. length reply ≤ record_limit) }
        ensures answered { IfOk result (λ reply. Answers K.calls_of K.step K.kept C.origin
            (record { conn = conn; calls = mine.old.amount }) record_.now reply (record { conn = conn; calls = mine.new.amount })) }
        ensures err { OnErr result (Starved K.calls_of K.step K.kept (ReachedFrom K.calls_of K.step K.kept C.origin) self.old.machine self.new.machine
            (record { conn = conn; calls = mine.old.amount }) record_.now (system_error_of record_.now) (record { conn = conn; calls = mine.new.amount })) }
    {
        self.book.audit(mine);
        if self.machine.calls() >= MOST_CALLS {
            return Ok(Octets::from_vec(Vec::new(alloc)));
        }
        let reply = self.machine.on_record(alloc, conn, record_)?;
        self.book.add(mine, 1);
        Ok(reply)
    }
}
