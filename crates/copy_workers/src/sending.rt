ghost use Rattle.std.specs.Prelude.{◌≡◌, ◌+◌, ◌<◌, ◌≤◌, ◌^◌, true, length, All};
ghost use Rattle.rpc_msg.specs.Records.{record_limit};
ghost use Rattle.rpc_msg.specs.Watching.{is_down};
ghost use Rattle.copy_workers.specs.Desk.{given_to, IsSmall};
ghost use Rattle.copy_workers.specs.InFlight.{with_calls, xids_of};
ghost use Rattle.copy_workers.specs.Workers.{Sends};

use crate::in_flight::InFlight;
use crate::link::Link;
use outbox::{Outgoing, To};
use rpc_msg::{Put, Sink, Watched, mark};

// Sends the records that are to the worker's link, and says which calls await an answer then.
pub(crate) fn send_all<N: Link>(
    link: &mut Watched<N>,
    worker: u8,
    awaited: InFlight,
    sent: &[Outgoing],
) -> InFlight
    requires small { All IsSmall sent.now }
    requires room { link.old.sent + given_to worker sent.now < 2 ^ 64 }
    ensures awaited { xids_of result ≡ with_calls worker sent.now (xids_of awaited) }
    ensures sends { Sends (given_to worker sent.now) link.old.sent link.new.sent (is_down link.new.signs) }
    ensures down { is_down link.old.signs ≡ true → is_down link.new.signs ≡ true }
{
    let mut awaited = awaited;
    'records: for outgoing in sent {
        match outgoing.to {
            To::Source(number) if number == worker => {
                send_one(link, outgoing.bytes.as_slice());
                awaited = awaited.with(outgoing.bytes.as_slice());
            }
            _ => {}
        }
    }
    awaited
}

// Hands the records on that are to connections.
pub(crate) fn post_all<N: Link>(link: &mut Watched<N>, sent: &[Outgoing])
    ensures sent { link.new.sent ≡ link.old.sent }
    ensures signs { link.new.signs ≡ link.old.signs }
{
    'records: for outgoing in sent {
        if let To::Conn(conn) = outgoing.to {
            link.link().post(conn, outgoing.bytes.as_slice());
        }
    }
}

// Sends the mark of a record and the record.
fn send_one<N: Link>(link: &mut Watched<N>, bytes: &[u8])
    requires small { length bytes.now ≤ record_limit }
    requires room { link.old.sent + (length bytes.now + 4) < 2 ^ 64 }
    ensures sends { Sends (length bytes.now + 4) link.old.sent link.new.sent (is_down link.new.signs) }
    ensures down { is_down link.old.signs ≡ true → is_down link.new.signs ≡ true }
{
    send_piece(link, &mark(bytes.len() as u32));
    send_piece(link, bytes);
}

// Puts a piece, as long as the link isn't down.
fn send_piece<N: Link>(link: &mut Watched<N>, piece: &[u8])
    requires room { link.old.sent + length piece.now < 2 ^ 64 }
    ensures sends { Sends (length piece.now) link.old.sent link.new.sent (is_down link.new.signs) }
    ensures down { is_down link.old.signs ≡ true → is_down link.new.signs ≡ true }
{
    if link.down().is_some() {
        return;
    }
    let mut at = 0;
    'puts: while at < piece.len() {
        match link.put(&piece[at..]) {
            Put::Put(count) => at += count,
            Put::Failed => return,
        }
    }
}
