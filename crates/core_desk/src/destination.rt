//! A destination's server is such a machine, whatever its disk tells.

use crate::machine::Core;
use dest_core::DestCore;
use disk_model::Disk;
use gss_mech::Mechanism;
use outbox::Outbox;
use outcome::Mem;
use std::alloc::Global;
use streams::Draws;

impl<D: Disk + Drop, M: Mechanism, W: Draws> Core<W> for DestCore<D, M> {
    ghost use Rattle.std.specs.Prelude.{◌≡◌, ◌-◌, []};
    ghost use Rattle.dest_core.specs.Landing.{landed_by};
    ghost use Rattle.dest_core.specs.Stepping.{failure_step, tick_step, IsRecord, IsReply, IsWork};
    ghost use Rattle.server_volume.specs.Moments.{Counted};
    ghost use Rattle.server_volume.specs.Store.{seat_of};
    ghost use Rattle.session_server.specs.Host.{host_of, stepped_of};

    ghost landed = { λ core. landed_by core };

    ghost steps = { λ core. core.steps };

    ghost takes_record = { λ conn message now before after old out new.
        (D.Told → IsRecord (record { mic = M.mic_of; derived = M.derived }) (M.accepted old.server.files.extra.mech) W.gives conn message now (host_of D.size old) before after (stepped_of D.size new out))
        × Counted D.Told (seat_of D.size D.fuse D.timeline D.faults old.server.files.volume) (seat_of D.size D.fuse D.timeline D.faults new.server.files.volume) [] out.used };

    ghost ticks = { λ now old out new. stepped_of D.size new out ≡ tick_step (record { mic = M.mic_of; derived = M.derived }) now (host_of D.size old) };

    ghost works = { λ worker now before after old out new.
        (D.Told → IsWork W.gives (M.started old.server.files.extra.mech) (record { mic = M.mic_of; derived = M.derived }) (worker - 1) now (host_of D.size old) before after (stepped_of D.size new out))
        × Counted D.Told (seat_of D.size D.fuse D.timeline D.faults old.server.files.volume) (seat_of D.size D.fuse D.timeline D.faults new.server.files.volume) [] out.used };

    ghost takes_reply = { λ worker message now old out new.
        (D.Told → IsReply (record { mic = M.mic_of; derived = M.derived }) (M.finished old.server.files.extra.mech old.server.files.extra.copier.principal) (worker - 1) message now (host_of D.size old) (stepped_of D.size new out))
        × Counted D.Told (seat_of D.size D.fuse D.timeline D.faults old.server.files.volume) (seat_of D.size D.fuse D.timeline D.faults new.server.files.volume) [] out.used };

    ghost fails_link = { λ worker old out new. stepped_of D.size new out ≡ failure_step (record { mic = M.mic_of; derived = M.derived }) (worker - 1) (host_of D.size old) };

    fn calls(&self) -> u32 {
        DestCore::calls(self)
    }

    fn landed(&self) -> u64 {
        DestCore::landed(self)
    }

    fn on_record(
        &mut self,
        alloc: Global,
        conn: u32,
        record_: &[u8],
        now: u64,
        draws: &mut W,
    ) -> Mem<Outbox> {
        DestCore::on_record(self, alloc, conn, record_, now, draws)
    }

    fn tick(&mut self, alloc: Global, now: u64) -> Mem<Outbox> {
        DestCore::tick(self, alloc, now)
    }

    fn work(&mut self, alloc: Global, worker: u8, now: u64, draws: &mut W) -> Mem<Outbox> {
        DestCore::work(self, alloc, worker, now, draws)
    }

    fn on_source_reply(
        &mut self,
        alloc: Global,
        worker: u8,
        record_: &[u8],
        now: u64,
    ) -> Mem<Outbox> {
        DestCore::on_source_reply(self, alloc, worker, record_, now)
    }

    fn link_failed(&mut self, alloc: Global, worker: u8) -> Mem<Outbox> {
        DestCore::link_failed(self, alloc, worker)
    }
}
