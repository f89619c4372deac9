//! A record as it is stored.

ghost use Rattle.std.specs.Prelude.{◌≡◌, MatchOption, None, Some};
ghost use Rattle.wire_log.specs.Keeping.{kept_of};
ghost use Rattle.wire_log.specs.Keeping as keeping;
ghost use Rattle.wire_machine.specs.Ends as ends;

use nfs_base::{End, Seal, Side};
use outbox::{Outgoing, To};
use wire_machine::Port;
use wire_xdr::Octets;

/// How many records a list holds at most. No record of an end is shorter than 24 bytes, so a limit of bytes comes first.
pub const MOST_RECORDS: u64 = 1 << 25;

/// A record that was sent. What its step took is a record of the same list, by its number; 0 is none.
#[derive(Drop)]
pub(crate) struct Kept {
    pub(crate) bytes: Octets,
    pub(crate) seal: Option<Seal>,
    pub(crate) from: End,
    pub(crate) port: Option<Port>,
    pub(crate) step: u64,
    pub(crate) took: u64,
    pub(crate) opening: u32,
    pub(crate) is_reply: bool,
    pub(crate) delivered: bool,
}

/// The step in which a record is sent: its end, the number of the end's opening, the number of the step, and the record that
/// it took, by number; 0 is none.
#[derive(Clone, Copy)]
pub struct Sending {
    pub from: End,
    pub opening: u32,
    pub step: u64,
    pub took: u64,
}

/// A record that was just sent.
pub(crate) fn record_sent(at: Sending, outgoing: Outgoing, is_reply: bool) -> Kept
    ensures { result ≡ kept_of at outgoing is_reply }
{
    let Outgoing {
        to,
        bytes,
        seal,
        ..
    } = outgoing;
    Kept {
        bytes,
        seal,
        from: at.from,
        port: port_of(at.from, to),
        step: at.step,
        took: at.took,
        opening: at.opening,
        is_reply,
        delivered: false,
    }
}

/// The stored record of a number; they are counted from 1.
pub(crate) fn kept_at(records: &[Kept], number: u64) -> Option<&Kept>
    ensures { MatchOption result (keeping.kept_at number records.now ≡ None) (λ kept. keeping.kept_at number records.now ≡ Some kept.now) }
{
    if number == 0 {
        return None;
    }
    records.get((number - 1) as usize)
}

/// The record of a number is delivered, where one has it.
pub(crate) fn deliver(records: &mut [Kept], number: u64)
    ensures { records.new ≡ keeping.delivered_at number records.old }
{
    if number == 0 || number > records.len() as u64 {
        return;
    }
    records[(number - 1) as usize].delivered = true;
}

/// Where a record goes in that an end sends. A server answers on the connection of the call; a destination's worker calls the
/// source on the connection of its number; a client calls the servers. Elsewhere no end sends anything.
pub fn port_of(from: End, to: To) -> Option<Port>
    ensures { result ≡ ends.port_of from to }
{
    match from {
        End::Source => port_of_source(to),
        End::Dest => port_of_dest(to),
        End::Client => port_of_client(to),
    }
}

fn port_of_source(to: To) -> Option<Port>
    ensures { result ≡ ends.port_of End.Source to }
{
    match to {
        To::Conn(0) => Some(Port::Client { from: Side::Source }),
        To::Conn(worker) => Some(Port::Worker { worker }),
        To::Source(_) | To::Server(_) => None,
    }
}

fn port_of_dest(to: To) -> Option<Port>
    ensures { result ≡ ends.port_of End.Dest to }
{
    match to {
        To::Conn(_) => Some(Port::Client { from: Side::Dest }),
        To::Source(worker) => Some(Port::Source {
            conn: u32::from(worker),
        }),
        To::Server(_) => None,
    }
}

fn port_of_client(to: To) -> Option<Port>
    ensures { result ≡ ends.port_of End.Client to }
{
    match to {
        To::Server(End::Source) => Some(Port::Source { conn: 0 }),
        To::Server(End::Dest) => Some(Port::Dest),
        To::Server(End::Client) | To::Conn(_) | To::Source(_) => None,
    }
}

/// The end at which a record goes in.
pub fn end_at(port: Port) -> End
    ensures { result ≡ ends.end_at port }
{
    match port {
        Port::Source { .. } => End::Source,
        Port::Dest => End::Dest,
        Port::Worker { .. } => End::Dest,
        Port::Client { .. } => End::Client,
    }
}
