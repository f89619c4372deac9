ghost use Rattle.std.specs.Prelude.{◌≡◌, ◌<◌, ◌≤◌, length, All};
ghost use Rattle.copy_workers.specs.Desk.{IsSmall};
ghost use Rattle.rpc_msg.specs.Records.{record_limit};
ghost use Rattle.callback_server.specs.Replies.{reply_to};

use crate::host::Host;
use crate::replies::{post_all, take_reply, xid_of};
use callback_links::Line;
use copy_workers::Gate;
use outbox::Outgoing;
use outcome::Mem;
use rpc_msg::{Handler, system_error};
use std::alloc::Global;
use std::marker::Model;
use std::sync::ledger::{Ledger, Share};
use std::sync::{Mutex, Wait};
use streams::Sink;
use wire_xdr::{Items, Octets};

/// Answers the records of one connection by a host that workers share. For each it holds the host's lock once, and once more for a
/// tick; then it wakes the workers. What else these give for connections goes out by the line, with no lock of the host held.
#[derive(Drop)]
pub(crate) struct Answering<'a, R, Q: Ledger, B: Ledger, H: Host<Q>, T: Sink> {
    rt: &'a R,
    desk: &'a Mutex<H>,
    gate: &'a Gate,
    line: &'a Mutex<Line<B, T>>,
    mine: Share<Q>,
    conn: u32,
}

impl<'a, R, Q: Ledger, B: Ledger, H: Host<Q>, T: Sink> Model for Answering<'a, R, Q, B, H, T> {
    ghost use Rattle.std.specs.Prelude.{◌<◌};
    ghost use Rattle.link_server.specs.Answering.{Caller};

    ghost Value = { Caller };

    ghost view = { λ s. record { conn = s.conn; calls = s.mine.amount } };

    ghost invariant = { λ s. 0 < s.mine.parts };
}

impl<'a, R: Wait, Q: Ledger, B: Ledger, H: Host<Q>, T: Sink + Drop> Answering<'a, R, Q, B, H, T> {
    // The handler of a connection, whose calls the share has.
    pub(crate) fn new(
        rt: &'a R,
        desk: &'a Mutex<H>,
        gate: &'a Gate,
        line: &'a Mutex<Line<B, T>>,
        mine: Share<Q>,
        conn: u32,
    ) -> Answering<'a, R, Q, B, H, T>
        requires { 0 < mine.parts }
        ensures { result ≡ record { conn = conn; calls = mine.amount } }
    {
        Answering {
            rt,
            desk,
            gate,
            line,
            mine,
            conn,
        }
    }

    // The share, handed back.
    pub(crate) fn hand_back(self) -> Share<Q>
        ensures some { 0 < result.parts }
        ensures amount { result.amount ≡ self.entry.calls }
    {
        let Answering { mine, .. } = self;
        mine
    }

    // The reply among what is sent. The rest goes out by the line.
    fn pass(&self, alloc: Global, sent: Items<Outgoing>) -> Octets
        requires { All IsSmall sent }
        ensures is { result ≡ reply_to self.now.conn sent }
        ensures small { length result ≤ record_limit }
    {
        let mut sent = sent.into_vec();
        let reply = take_reply(alloc, self.conn, &mut sent);
        post_all(self.rt, self.line, sent.as_slice());
        reply
    }

    // A second may have passed.
    fn tick(&self, alloc: Global) {
        let ticked = self.desk.lock(self.rt).tick(alloc);
        if let Ok(sent) = ticked {
            post_all(self.rt, self.line, sent.as_slice());
        }
        self.gate.wake();
    }
}

impl<'a, R: Wait, Q: Ledger, B: Ledger, H: Host<Q>, T: Sink + Drop> Handler
    for Answering<'a, R, Q, B, H, T> {
    ghost answers = { H.answers };

    fn on(&mut self, alloc: Global, record_: &[u8]) -> Mem<Octets> {
        let mut room = Vec::with_capacity(alloc, 24)?;
        let answer = self
            .desk
            .lock(self.rt)
            .answer(alloc, self.conn, record_, &mut self.mine);
        if let Ok(sent) = answer {
            let reply = self.pass(alloc, sent);
            self.tick(alloc);
            return Ok(reply);
        }
        self.tick(alloc);
        room.extend_from_slice(&system_error(xid_of(record_)))
            .unwrap();
        Ok(Octets::from_vec(room))
    }
}
