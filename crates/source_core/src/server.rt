//! The whole server.

ghost use Rattle.std.specs.Prelude.{true, false, ◌≡◌, ◌≤◌, ◌<◌, ◌+◌, ℕ, [], length, None, IfOk, IsOk, OnErr, MatchResult};
ghost use Rattle.block_file.specs.declared.faults.OpenFault.{OpenFault};
ghost use Rattle.block_file.specs.Opened.{homes_by, CanBeOpened, RefusedFor, StandsFor};
ghost use Rattle.block_file.specs.Stored.{flaw_of, home_of, reopened, tag_of};
ghost use Rattle.disk_model.specs.declared.fuse.Fuse.TheVariants.{Unset};
ghost use Rattle.disk_model.specs.Disk.{Image, MayLeave};
ghost use Rattle.disk_model.specs.Elapsed.{contents, present};
ghost use Rattle.outbox.specs.Outboxes.{no_outbox};
ghost use Rattle.outcome.specs.Causes.{Rose};
ghost use Rattle.server_volume.specs.Moments.{Counted};
ghost use Rattle.server_volume.specs.Store.{seat_of};
ghost use Rattle.session_server.specs.declared.host.TheConstants.{MOST_STEPS};
ghost use Rattle.session_server.specs.Beside.{IsArmed, IsHandedBack, IsPeek};
ghost use Rattle.session_server.specs.Host.{host_of, stepped_of};
ghost use Rattle.session_server.specs.Lengths.{AreShort};
ghost use Rattle.session_server.specs.Steps.{IsTurn, ticked};
ghost use Rattle.source_core.specs.Core.{source_rules, IsNew};
ghost use Rattle.source_core.specs.Location.{IsShort};

use crate::carried::Carried;
use crate::own_location::OwnLocation;
use crate::source::Source;
use block_file::{OpenFault, ReadFault, Volume};
use compound_server::Server;
use copy_grants::Grants;
use copy_privs::Peer;
use disk_model::{CrashDisk, Disk};
use file_server::Files;
use gss_ctx::Contexts;
use gss_mech::Mechanism;
use nfs_base::{End, NetLoc};
use outbox::Outbox;
use outcome::Mem;
use sess_slots::Sessions;
use session_server::Host;
use state_ids::Opens;
use std::alloc::Global;
use std::marker::Model;
use streams::Draws;
use wire_xdr::Items;

/// A source: a server whose files are copied by others. Contracts see the [`Host`] that it is, which never gave out more
/// numbers than its steps can have.
#[derive(Drop)]
pub struct SourceCore<D: Disk, M> {
    host: Host<D, Source<M>, Carried>,
}

impl<D: Disk, M> Model for SourceCore<D, M> {
    ghost use Rattle.session_server.specs.declared.host.Host.{Host};
    ghost use Rattle.session_server.specs.Host.{IsCounted};
    ghost use Rattle.source_core.specs.Serving.{given};
    ghost use Rattle.source_core.specs.declared.carried.Carried.{Carried};
    ghost use Rattle.source_core.specs.declared.source.Source.{Source};

    ghost Value = { Host D (Source M) Carried };

    ghost view = { λ core. core.host };

    ghost invariant = { λ core. IsCounted given core.host };
}

impl<D: Disk + Drop, M: Mechanism> SourceCore<D, M> {
    /// Opens the volume on a disk, for a source that knows these servers and is found at `own`, whose strings have at most
    /// 256 bytes together. Where the disk holds no volume it comes back, with what is wrong. Where memory is refused, the
    /// disk is let go.
    pub fn open(
        alloc: Global,
        disk: D,
        mech: M,
        peers: Items<Peer>,
        own: NetLoc,
    ) -> Mem<Result<SourceCore<D, M>, (D, OpenFault)>>
        requires volume { D.Told → (image : Image) → MayLeave (present (D.timeline disk)) image → CanBeOpened (D.size disk) image }
        requires short { IsShort own }
        ensures refused { D.Told → IfOk result (λ answer. MatchResult answer
            (λ _. flaw_of (D.size disk) (contents (D.timeline disk)) ≡ None)
            (λ fault. RefusedFor (flaw_of (D.size disk) (contents (D.timeline disk))) fault.1)) }
        ensures volume { D.Told → IfOk result (λ answer. IfOk answer (λ core. core.server.files.volume.volume ≡ reopened (contents (D.timeline disk)))) }
        ensures tag { D.Told → IfOk result (λ answer. IfOk answer (λ core. core.server.files.volume.tag ≡ tag_of (contents (D.timeline disk)))) }
        ensures homes { D.Told → IfOk result (λ answer. IfOk answer (λ core. (j : ℕ) → 1 ≤ j → j < length core.server.files.volume.volume.files
            → homes_by core.server.files.volume.homes j ≡ home_of (contents (D.timeline disk)) j)) }
        ensures new { IfOk result (λ answer. IfOk answer (IsNew mech peers own)) }
        ensures cause { IfOk result (λ answer. MatchResult answer (λ _. Unit {0})
            (λ fault. fault.1 ≡ OpenFault.DiskFailed → Rose (D.faults disk) (D.faults fault.0))) }
        ensures unset { D.fuse disk ≡ Unset
            → IfOk result (λ answer. MatchResult answer (λ core. D.fuse core.server.files.volume.disk ≡ Unset) (λ fault. D.fuse fault.0 ≡ Unset)) }
        ensures size { IfOk result (λ answer. MatchResult answer (λ core. D.size core.server.files.volume.disk ≡ D.size disk) (λ fault. D.size fault.0 ≡ D.size disk)) }
        ensures faults { IfOk result (λ answer. MatchResult answer (λ core. D.faults disk ≤ D.faults core.server.files.volume.disk) (λ fault. D.faults disk ≤ D.faults fault.0)) }
    {
        let own = OwnLocation::new(own);
        match Volume::open(alloc, disk)? {
            Err(fault) => Ok(Err(fault)),
            Ok(volume) => Ok(Ok(SourceCore::new(alloc, volume, mech, peers, own)?)),
        }
    }

    /// Nobody has called yet.
    fn new(
        alloc: Global,
        volume: Volume<D>,
        mech: M,
        peers: Items<Peer>,
        own: OwnLocation,
    ) -> Mem<SourceCore<D, M>>
        ensures new { IfOk result (IsNew mech peers own) }
        ensures volume { IfOk result (λ core. core.server.files.volume ≡ volume) }
    {
        let boot = volume.boot();
        let opens = Opens::new(alloc, boot)?;
        let sessions = Sessions::new(alloc, boot)?;
        let contexts = Contexts::new(alloc, End::Source, boot)?;
        let extra = Source {
            grants: Grants::new(alloc, boot)?,
            peers,
            own,
            refusal: None,
            mech,
        };
        let files = Files {
            volume,
            opens,
            extra,
        };
        Ok(SourceCore {
            host: Host {
                contexts,
                server: Server { files, sessions },
                second: 0,
                steps: 0,
            },
        })
    }
}

impl<D: Disk, M: Mechanism> SourceCore<D, M> {
    /// Takes a record that comes on a connection, and answers it: one step. Without memory the source is as before.
    pub fn on_record<W: Draws>(
        &mut self,
        alloc: Global,
        conn: u32,
        record_: &[u8],
        now: u64,
        draws: &mut W,
    ) -> Mem<Outbox>
        requires few { self.old.steps < MOST_STEPS }
        ensures turn { D.Told → IfOk result (λ out. IsTurn (source_rules M.mic_of) (record { mic = M.mic_of; derived = M.derived }) (M.accepted self.old.server.files.extra.mech) W.gives conn record_.now now (host_of D.size self.old) draws.old draws.new (stepped_of D.size self.new out)) }
        ensures ran { IfOk result (λ out. Counted D.Told (seat_of D.size D.fuse D.timeline D.faults self.old.server.files.volume) (seat_of D.size D.fuse D.timeline D.faults self.new.server.files.volume) [] out.used) }
        ensures short { IfOk result (λ out. AreShort out.sent) }
        ensures undrawn { IfOk result (λ out. out.undrawn ≡ true → Rose (W.faults draws.old) (W.faults draws.new)) }
        ensures counted { IfOk result (λ _. self.new.steps ≡ self.old.steps + 1) }
        ensures err { OnErr result (self.new ≡ self.old) }
        ensures later { W.faults draws.old ≤ W.faults draws.new }
        ensures failing { W.failing draws.new ≡ W.failing draws.old }
    {
        self.host.on_record(alloc, conn, record_, now, draws)
    }

    /// A second comes by itself: a step that sends nothing. Without memory the source is as before.
    pub fn tick(&mut self, alloc: Global, now: u64) -> Mem<Outbox>
        requires few { self.old.steps < MOST_STEPS }
        ensures out { IfOk result (λ out. out ≡ no_outbox) }
        ensures is { IsOk result → host_of D.size self.new ≡ ticked (source_rules M.mic_of) now (host_of D.size self.old) }
        ensures volume { self.new.server.files.volume ≡ self.old.server.files.volume }
        ensures counted { IfOk result (λ _. self.new.steps ≡ self.old.steps + 1) }
        ensures err { OnErr result (self.new ≡ self.old) }
    {
        let out = Outbox::new(alloc)?;
        self.host.tick(now);
        Ok(out)
    }
}

impl<D: Disk, M> SourceCore<D, M> {
    /// How many steps were made.
    pub fn calls(&self) -> u32
        ensures { result ≡ self.now.steps }
    {
        self.host.steps
    }

    /// The number of the volume's opening. At any time the disk holds the files so that a crash leaves of each what it may, and
    /// no file's safe contents are in doubt but those of a broken volume.
    pub fn boot(&self) -> u32
        ensures value { result ≡ self.now.server.files.volume.volume.boot }
        ensures stands { D.Told → StandsFor D.timeline D.size self.now.server.files.volume }
        ensures certain { self.now.server.files.volume.volume.broken ≡ false → self.now.server.files.volume.volume.doubt ≡ None }
    {
        let _broken = self.host.server.files.volume.is_broken();
        self.host.server.files.volume.boot()
    }

    /// The volume, to look at.
    pub fn volume(&self) -> &Volume<D>
        ensures { result.now ≡ self.now.server.files.volume }
    {
        &self.host.server.files.volume
    }

    /// Fills `out` with a file's bytes from `off` on, and with zeros past its end. It is no step.
    pub fn peek(&mut self, file: u32, off: u64, out: &mut [u8]) -> Result<(), ReadFault>
        requires no_root { 1 ≤ file }
        requires there { file < length self.old.server.files.volume.volume.files }
        ensures { IsPeek D.Told D.size D.fuse D.faults file off self.old self.new out.old out.new result }
    {
        self.host.server.files.volume.read(file, off, out)
    }

    /// Closes it: the disk and the mechanism come back.
    pub fn close(self) -> (D, M)
        ensures disk { result.0 ≡ self.server.files.volume.disk }
        ensures mech { result.1 ≡ self.server.files.extra.mech }
    {
        let SourceCore { host } = self;
        let Host { server, .. } = host;
        let Server { files, .. } = server;
        let Files { volume, extra, .. } = files;
        let Source { mech, .. } = extra;
        (volume.hand_back(), mech)
    }
}

impl<D: Disk, M: Drop> SourceCore<D, M> {
    /// Gives the disk back.
    pub fn hand_back(self) -> D
        ensures { IsHandedBack D.Told D.size D.timeline self result }
    {
        let SourceCore { host } = self;
        let Host { server, .. } = host;
        let Server { files, .. } = server;
        let Files { volume, .. } = files;
        volume.hand_back()
    }
}

impl<D: CrashDisk, M> SourceCore<D, M> {
    /// Lets this many more writes and syncs of the disk pass; the one after them stops the machine.
    pub fn fuse(&mut self, calls: u64)
        ensures { IsArmed D.Told D.size D.fuse D.faults calls self.old self.new }
    {
        self.host.server.files.volume.fuse(calls);
    }
}
