ghost use Rattle.std.specs.Prelude.{◌≡◌, ◌<◌, ◌≤◌, length, All, IfSome};
ghost use Rattle.copy_workers.specs.Desk.{IsSmall};
ghost use Rattle.link_server.specs.Answering.{xid_of};
ghost use Rattle.rpc_msg.specs.Records.{record_limit};
ghost use Rattle.callback_server.specs.Replies.{is_on, place_of, reply_to};

use callback_links::Line;
use outbox::{Outgoing, To};
use rpc_msg::CALL;
use std::alloc::Global;
use std::sync::ledger::Ledger;
use std::sync::{Mutex, Wait};
use streams::Sink;
use wire_xdr::Octets;

// Whether a record goes to this connection.
fn is_on(conn: u32, to: To) -> bool
    ensures { result ≡ is_on conn to }
{
    match to {
        To::Conn(number) => number == conn,
        _ => false,
    }
}

// The place of the first record that goes to this connection.
fn place_of(conn: u32, sent: &[Outgoing]) -> Option<usize>
    ensures is { result ≡ place_of conn sent.now }
    ensures within { IfSome result (λ at. at < length sent.now) }
{
    sent.iter().position(|outgoing| is_on(conn, outgoing.to))
}

// Takes the reply to a connection out of what is sent, empty where there is none.
pub(crate) fn take_reply(alloc: Global, conn: u32, sent: &mut Vec<Outgoing>) -> Octets
    requires { All IsSmall sent.old.items }
    ensures is { result ≡ reply_to conn sent.old.items }
    ensures small { length result ≤ record_limit }
{
    match place_of(conn, sent.as_slice()) {
        Some(at) => {
            let outgoing = sent.remove(at);
            outgoing.bytes
        }
        None => Octets::from_vec(Vec::new(alloc)),
    }
}

// Puts those records on the line that go to connections.
pub(crate) fn post_all<R: Wait, B: Ledger, T: Sink + Drop>(
    rt: &R,
    line: &Mutex<Line<B, T>>,
    sent: &[Outgoing],
) {
    for outgoing in sent {
        if let To::Conn(conn) = outgoing.to {
            line.lock(rt).post(conn, outgoing.bytes.as_slice());
        }
    }
}

// The number of a call, and 0 of any other record.
pub(crate) fn xid_of(record_: &[u8]) -> u32
    ensures { result ≡ xid_of record_.now }
{
    match record_ {
        [w, x, y, z, a, b, c, d, ..] => {
            if u32::from_be_bytes([*a, *b, *c, *d]) == CALL {
                u32::from_be_bytes([*w, *x, *y, *z])
            } else {
                0
            }
        }
        _ => 0,
    }
}
