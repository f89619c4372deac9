ghost use Rattle.std.specs.Prelude.{◌≡◌, ◌<◌, ◌≤◌, length, IfOk, OnErr};
ghost use Rattle.rpc_msg.specs.Records.{record_limit};
ghost use Rattle.link_server.specs.Answering.{Answers, xid_of, system_error_of};

use crate::counted::{Counted, Origin};
use crate::machine::Machine;
use outcome::Mem;
use rpc_msg::{CALL, Handler, system_error};
use std::alloc::Global;
use std::marker::Model;
use std::sync::ledger::Share;
use std::sync::{Mutex, Wait};
use wire_xdr::Octets;

/// Answers the records of one connection by a machine that others call too. It holds the lock for one call at a time.
#[derive(Drop)]
pub struct Shared<'a, R, C: Origin<K>, K: Machine> {
    rt: &'a R,
    desk: &'a Mutex<Counted<C, K>>,
    mine: Share<C>,
    conn: u32,
}

impl<'a, R, C: Origin<K>, K: Machine> Model for Shared<'a, R, C, K> {
    ghost use Rattle.std.specs.Prelude.{◌<◌};
    ghost use Rattle.link_server.specs.Answering.{Caller};

    ghost Value = { Caller };

    ghost view = { λ s. record { conn = s.conn; calls = s.mine.amount } };

    ghost invariant = { λ s. 0 < s.mine.parts };
}

impl<'a, R: Wait, C: Origin<K>, K: Machine> Shared<'a, R, C, K> {
    /// The handler of a connection, whose calls the share has.
    pub fn new(
        rt: &'a R,
        desk: &'a Mutex<Counted<C, K>>,
        mine: Share<C>,
        conn: u32,
    ) -> Shared<'a, R, C, K>
        requires { 0 < mine.parts }
        ensures { result ≡ record { conn = conn; calls = mine.amount } }
    {
        Shared {
            rt,
            desk,
            mine,
            conn,
        }
    }

    /// The share, handed back.
    pub fn hand_back(self) -> Share<C>
        ensures some { 0 < result.parts }
        ensures amount { result.amount ≡ self.entry.calls }
    {
        let Shared { mine, .. } = self;
        mine
    }
}

impl<'a, R: Wait, C: Origin<K>, K: Machine> Handler for Shared<'a, R, C, K> {
    ghost answers = { Answers K.calls_of K.step K.kept C.origin };

    fn on(&mut self, alloc: Global, record_: &[u8]) -> Mem<Octets> {
        let mut room = Vec::with_capacity(alloc, 24)?;
        let answer = self
            .desk
            .lock(self.rt)
            .answer(alloc, self.conn, record_, &mut self.mine);
        if let Ok(reply) = answer {
            return Ok(reply);
        }
        room.extend_from_slice(&system_error(xid_of(record_)))
            .unwrap();
        Ok(Octets::from_vec(room))
    }
}

// The number of a call, and 0 of any other record.
fn xid_of(record_: &[u8]) -> u32
    ensures { result ≡ xid_of record_.now }
{
    match record_ {
        [w, x, y, z, a, b, c, d, ..] => {
            if u32::from_be_bytes([*a, *b, *c, *d]) == CALL {
                u32::from_be_bytes([*w, *x, *y, *z])
            } else {
                0
            }
        }
        _ => 0,
    }
}
