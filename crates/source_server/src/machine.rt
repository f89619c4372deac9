ghost use Rattle.std.specs.Prelude.{◌≡◌, ◌≤◌, length, All};
ghost use Rattle.outbox.specs.declared.outgoing.Outgoing.{Outgoing};
ghost use Rattle.rpc_msg.specs.Records.{record_limit};
ghost use Rattle.session_server.specs.Lengths.{AreShort};
ghost use Rattle.source_server.specs.Machine.{reply_in};

use disk_model::Disk;
use gss_mech::Mechanism;
use link_server::Machine;
use outbox::Outgoing;
use outcome::Mem;
use source_core::SourceCore;
use std::alloc::Global;
use streams::{Clock, Draws};
use wire_xdr::{Items, Octets};

/// A source with its clock and its draws. A call takes the time from the one and what it draws from the other.
#[derive(Drop)]
pub struct SourceMachine<D: Disk, M, C, W> {
    pub core: SourceCore<D, M>,
    pub clock: C,
    pub draws: W,
}

impl<D: Disk, M: Mechanism, C: Clock, W: Draws> Machine for SourceMachine<D, M, C, W> {
    ghost use Rattle.server_volume.specs.Store.{seat_of};
    ghost use Rattle.source_server.specs.Machine.{calls_of, words_of, Stays, Steps};

    ghost calls_of = { calls_of };

    ghost step = { Steps (words_of D.Told D.size (seat_of D.size D.fuse D.timeline D.faults) M.mic_of M.derived M.accepted W.gives) };

    ghost kept = { Stays };

    fn calls(&self) -> u32 {
        self.core.calls()
    }

    fn on_record(&mut self, alloc: Global, conn: u32, record_: &[u8]) -> Mem<Octets> {
        let now = self.clock.now();
        let out = self
            .core
            .on_record(alloc, conn, record_, now, &mut self.draws)?;
        Ok(reply_of(alloc, out.sent))
    }
}

/// The first of the records that are sent, and none where none is.
fn reply_of(alloc: Global, sent: Items<Outgoing>) -> Octets
    requires { AreShort sent }
    ensures is { result ≡ reply_in sent }
    ensures small { length result ≤ record_limit }
{
    match sent.into_vec().into_iter().next() {
        Some(outgoing) => outgoing.bytes,
        None => Octets::from_vec(Vec::new(alloc)),
    }
}
