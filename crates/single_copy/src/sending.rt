//! The records of an outbox go out to the servers.

ghost use Rattle.std.specs.Prelude.{◌≡◌};
ghost use Rattle.single_copy.specs.Links as links;
ghost use Rattle.single_copy.specs.Sending as spec;

use crate::links::send;
use nfs_base::{End, Side};
use outbox::{Outgoing, To};
use rpc_msg::{Sink, Source, Watched};

/// Puts the records that go to a server, each with its mark, as long as its link is up.
pub(crate) fn send_all<L: Source + Sink>(link: &mut Watched<L>, to: Side, sent: &[Outgoing])
    ensures { links.Sends L.gives L.takes link.old link.new (spec.put_to to sent.now) }
{
    'records: for outgoing in sent {
        send_to(link, to, outgoing);
    }
}

/// Puts a record, where it goes to this server.
fn send_to<L: Source + Sink>(link: &mut Watched<L>, to: Side, outgoing: &Outgoing)
    ensures { links.Sends L.gives L.takes link.old link.new (spec.put_for to outgoing.now) }
{
    if is_to(to, outgoing.to) {
        send(link, outgoing.bytes.as_slice());
    }
}

fn is_to(side: Side, to: To) -> bool
    ensures { result ≡ spec.is_to side to }
{
    match (side, to) {
        (Side::Source, To::Server(End::Source)) | (Side::Dest, To::Server(End::Dest)) => true,
        _ => false,
    }
}
