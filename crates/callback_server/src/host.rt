ghost use Rattle.std.specs.Prelude.{◌≡◌, ◌<◌, ℕ, List, All, IfOk, OnErr};
ghost use Rattle.copy_workers.specs.Desk.{IsSmall};
ghost use Rattle.link_server.specs.Answering.{Caller, system_error_of};
ghost use Rattle.callback_server.specs.Replies.{reply_to};

use outbox::Outgoing;
use outcome::Mem;
use std::alloc::Global;
use std::sync::ledger::{Ledger, Share};
use wire_xdr::Items;

/// What answers the records of connections, beside workers that share it: a machine with its clock and its draws, and with a book
/// of the calls that connections made of it. It sends records to connections unasked, too.
pub trait Host<Q: Ledger> {
    // What a connection gets for a record, from some state of the machine to some other.
    ghost answers: { Caller → List ℕ → List ℕ → Caller → Type 0 };

    /// Takes a record that came on a connection, whose calls the share has, and gives what is sent then: the reply is the first of
    /// the records for that connection. Where memory is refused, the connection gets what is told of that.
    fn answer(
        &mut self,
        alloc: Global,
        conn: u32,
        record_: &[u8],
        mine: &mut Share<Q>,
    ) -> Mem<Items<Outgoing>>
        requires part { 0 < mine.old.parts }
        ensures parts { mine.new.parts ≡ mine.old.parts }
        ensures small { IfOk result (λ sent. All IsSmall sent) }
        ensures answered { IfOk result (λ sent. answers (record { conn = conn; calls = mine.old.amount }) record_.now
            (reply_to conn sent) (record { conn = conn; calls = mine.new.amount })) }
        ensures err { OnErr result (answers (record { conn = conn; calls = mine.old.amount }) record_.now
            (system_error_of record_.now) (record { conn = conn; calls = mine.new.amount })) };

    /// A second comes by itself, and this is sent then. Without memory all is as before.
    fn tick(&mut self, alloc: Global) -> Mem<Items<Outgoing>>;

    /// Closes it for workers.
    fn close(&mut self);
}
