//! The whole server.

ghost use Rattle.std.specs.Prelude.{true, false, ◌≡◌, ◌≤◌, ◌<◌, ◌+◌, ◌-◌, ℕ, [], length, None, IfOk, OnErr, MatchResult};
ghost use Rattle.block_file.specs.Opened.{homes_by, CanBeOpened, RefusedFor, StandsFor};
ghost use Rattle.block_file.specs.Stored.{flaw_of, home_of, reopened, tag_of};
ghost use Rattle.block_file.specs.declared.faults.OpenFault.{OpenFault};
ghost use Rattle.dest_core.specs.Core.{no_copier, IsNew};
ghost use Rattle.dest_core.specs.Landing.{landed_by, LandsTold};
ghost use Rattle.dest_core.specs.Stepping.{failure_step, tick_step, IsRecord, IsReply, IsWork};
ghost use Rattle.dest_tasks.specs.declared.workers.TheConstants.{WORKERS};
ghost use Rattle.disk_model.specs.Disk.{Image, MayLeave};
ghost use Rattle.disk_model.specs.Elapsed.{contents, present};
ghost use Rattle.disk_model.specs.declared.fuse.Fuse.TheVariants.{Unset};
ghost use Rattle.job_book.specs.Book.{book_bytes, IsSound};
ghost use Rattle.job_table.specs.Fits.{PlansAreFit};
ghost use Rattle.outbox.specs.Counting.{records_to};
ghost use Rattle.outcome.specs.Causes.{Rose};
ghost use Rattle.server_volume.specs.Moments.{Counted};
ghost use Rattle.server_volume.specs.Store.{seat_of};
ghost use Rattle.session_server.specs.Beside.{IsArmed, IsHandedBack, IsPeek};
ghost use Rattle.session_server.specs.Host.{host_of, stepped_of};
ghost use Rattle.session_server.specs.Lengths.{AreShort};
ghost use Rattle.session_server.specs.declared.host.TheConstants.{MOST_STEPS};

use crate::destination::Destination;
use crate::steps::{fail_link, take_record, take_reply, tick, work};
use block_file::{OpenFault, ReadFault, Volume};
use compound_server::Server;
use copy_privs::Peer;
use dest_back::Callbacks;
use dest_jobs::{Carried, Copies};
use dest_steps::Copier;
use dest_tasks::WORKERS;
use dest_work::Work;
use disk_model::{CrashDisk, Disk};
use file_server::Files;
use gss_ctx::Contexts;
use gss_mech::Mechanism;
use job_book::Book;
use nfs_base::{End, NetLoc};
use outbox::{NoteList, Outbox};
use outcome::Mem;
use sess_slots::Sessions;
use session_server::Host;
use state_ids::Opens;
use std::alloc::Global;
use std::marker::Model;
use streams::Draws;
use wire_xdr::Octets;

/// A destination: a server that takes copies from one source as jobs. Contracts see the [`Host`] that it is, which never
/// gave out more numbers than its steps can have, has told of all that landed, and landed a chunk a step at most.
#[derive(Drop)]
pub struct DestCore<D: Disk, M> {
    pub(crate) host: Host<D, Destination<M>, Carried>,
}

impl<D: Disk, M> Model for DestCore<D, M> {
    ghost use Rattle.session_server.specs.declared.host.Host.{Host};
    ghost use Rattle.session_server.specs.Host.{IsCounted};
    ghost use Rattle.dest_core.specs.Landing.{IsSilent};
    ghost use Rattle.dest_core.specs.Serving.{given};
    ghost use Rattle.dest_jobs.specs.declared.carried.Carried.{Carried};
    ghost use Rattle.dest_core.specs.declared.destination.Destination.{Destination};

    ghost Value = { Host D (Destination M) Carried };

    ghost view = { λ core. core.host };

    ghost invariant = { λ core. IsCounted given core.host × IsSilent core.host };
}

impl<D: Disk + Drop, M: Mechanism> DestCore<D, M> {
    /// Opens the volume on a disk, for a destination that copies from this source, calls it as this principal and is found
    /// at `own`. Where the disk holds no volume it comes back, with what is wrong. Where memory is refused, the disk is let
    /// go.
    pub fn open(
        alloc: Global,
        disk: D,
        mech: M,
        source: Peer,
        principal: Octets,
        own: NetLoc,
    ) -> Mem<Result<DestCore<D, M>, (D, OpenFault)>>
        requires volume { D.Told → (image : Image) → MayLeave (present (D.timeline disk)) image → CanBeOpened (D.size disk) image }
        ensures refused { D.Told → IfOk result (λ answer. MatchResult answer
            (λ _. flaw_of (D.size disk) (contents (D.timeline disk)) ≡ None)
            (λ fault. RefusedFor (flaw_of (D.size disk) (contents (D.timeline disk))) fault.1)) }
        ensures volume { D.Told → IfOk result (λ answer. IfOk answer (λ core. core.server.files.volume.volume ≡ reopened (contents (D.timeline disk)))) }
        ensures tag { D.Told → IfOk result (λ answer. IfOk answer (λ core. core.server.files.volume.tag ≡ tag_of (contents (D.timeline disk)))) }
        ensures homes { D.Told → IfOk result (λ answer. IfOk answer (λ core. (j : ℕ) → 1 ≤ j → j < length core.server.files.volume.volume.files
            → homes_by core.server.files.volume.homes j ≡ home_of (contents (D.timeline disk)) j)) }
        ensures new { IfOk result (λ answer. IfOk answer (IsNew mech source principal own)) }
        ensures cause { IfOk result (λ answer. MatchResult answer (λ _. Unit {0})
            (λ fault. fault.1 ≡ OpenFault.DiskFailed → Rose (D.faults disk) (D.faults fault.0))) }
        ensures unset { D.fuse disk ≡ Unset
            → IfOk result (λ answer. MatchResult answer (λ core. D.fuse core.server.files.volume.disk ≡ Unset) (λ fault. D.fuse fault.0 ≡ Unset)) }
        ensures size { IfOk result (λ answer. MatchResult answer (λ core. D.size core.server.files.volume.disk ≡ D.size disk) (λ fault. D.size fault.0 ≡ D.size disk)) }
        ensures faults { IfOk result (λ answer. MatchResult answer (λ core. D.faults disk ≤ D.faults core.server.files.volume.disk) (λ fault. D.faults disk ≤ D.faults fault.0)) }
    {
        match Volume::open(alloc, disk)? {
            Err(fault) => Ok(Err(fault)),
            Ok(volume) => Ok(Ok(DestCore::new(alloc, volume, mech, source, principal, own)?)),
        }
    }

    /// Nobody has called yet.
    fn new(
        alloc: Global,
        volume: Volume<D>,
        mech: M,
        source: Peer,
        principal: Octets,
        own: NetLoc,
    ) -> Mem<DestCore<D, M>>
        ensures new { IfOk result (IsNew mech source principal own) }
        ensures volume { IfOk result (λ core. core.server.files.volume ≡ volume) }
    {
        let boot = volume.boot();
        let capacity = volume.capacity();
        let opens = Opens::new(alloc, boot)?;
        let sessions = Sessions::new(alloc, boot)?;
        let contexts = Contexts::new(alloc, End::Dest, boot)?;
        let copier = no_copier(alloc, boot, capacity, source, principal)?;
        let extra = Destination { copier, own, mech };
        let files = Files {
            volume,
            opens,
            extra,
        };
        Ok(DestCore {
            host: Host {
                contexts,
                server: Server { files, sessions },
                second: 0,
                steps: 0,
            },
        })
    }
}

/// Nothing was copied yet.
fn no_copier(
    alloc: Global,
    boot: u32,
    capacity: u64,
    source: Peer,
    principal: Octets,
) -> Mem<Copier>
    ensures { IfOk result (λ copier. copier ≡ no_copier boot capacity source principal) }
{
    let book = Book::new(alloc, boot, capacity)?;
    let told = NoteList::new(alloc)?;
    let work = Work::new(alloc);
    let back = Callbacks::new(alloc);
    let copies = Copies { book, told, source };
    Ok(Copier {
        copies,
        work,
        back,
        principal,
    })
}

impl<D: Disk, M: Mechanism> DestCore<D, M> {
    /// Takes a record that comes on a connection, and answers it: one step. Without memory the destination is as before.
    pub fn on_record<W: Draws>(
        &mut self,
        alloc: Global,
        conn: u32,
        record_: &[u8],
        now: u64,
        draws: &mut W,
    ) -> Mem<Outbox>
        requires few { self.old.steps < MOST_STEPS }
        ensures turn { D.Told → IfOk result (λ out. IsRecord (record { mic = M.mic_of; derived = M.derived }) (M.accepted self.old.server.files.extra.mech) W.gives conn record_.now now (host_of D.size self.old) draws.old draws.new (stepped_of D.size self.new out)) }
        ensures ran { IfOk result (λ out. Counted D.Told (seat_of D.size D.fuse D.timeline D.faults self.old.server.files.volume) (seat_of D.size D.fuse D.timeline D.faults self.new.server.files.volume) [] out.used) }
        ensures short { IfOk result (λ out. AreShort out.sent) }
        ensures undrawn { IfOk result (λ out. out.undrawn ≡ true → Rose (W.faults draws.old) (W.faults draws.new)) }
        ensures counted { IfOk result (λ _. self.new.steps ≡ self.old.steps + 1) }
        ensures err { OnErr result (self.new ≡ self.old) }
        ensures later { W.faults draws.old ≤ W.faults draws.new }
        ensures failing { W.failing draws.new ≡ W.failing draws.old }
        ensures landed { landed_by self.new ≡ landed_by self.old }
    {
        take_record(&mut self.host, alloc, conn, record_, now, draws)
    }

    /// A second comes by itself: a step in which the jobs end whose clients' leases have, and what was sent 30 or more seconds ago
    /// goes out again. Without memory the destination is as before.
    pub fn tick(&mut self, alloc: Global, now: u64) -> Mem<Outbox>
        requires few { self.old.steps < MOST_STEPS }
        ensures is { IfOk result (λ out. stepped_of D.size self.new out ≡ tick_step (record { mic = M.mic_of; derived = M.derived }) now (host_of D.size self.old)) }
        ensures volume { self.new.server.files.volume ≡ self.old.server.files.volume }
        ensures short { IfOk result (λ out. AreShort out.sent) }
        ensures counted { IfOk result (λ _. self.new.steps ≡ self.old.steps + 1) }
        ensures err { OnErr result (self.new ≡ self.old) }
        ensures landed { landed_by self.new ≡ landed_by self.old }
    {
        tick(&mut self.host, alloc, now)
    }

    /// A worker's turn, by the worker's number from 1 on, once the leases have ended: a step. Without memory the destination is
    /// as before.
    pub fn work<W: Draws>(
        &mut self,
        alloc: Global,
        worker: u8,
        now: u64,
        draws: &mut W,
    ) -> Mem<Outbox>
        requires few { self.old.steps < MOST_STEPS }
        requires worker { 1 ≤ worker }
        requires workers { worker ≤ WORKERS }
        ensures is { D.Told → IfOk result (λ out. IsWork W.gives (M.started self.old.server.files.extra.mech) (record { mic = M.mic_of; derived = M.derived }) (worker - 1) now (host_of D.size self.old) draws.old draws.new (stepped_of D.size self.new out)) }
        ensures ran { IfOk result (λ out. Counted D.Told (seat_of D.size D.fuse D.timeline D.faults self.old.server.files.volume) (seat_of D.size D.fuse D.timeline D.faults self.new.server.files.volume) [] out.used) }
        ensures once { IfOk result (λ out. length out.used ≤ 1) }
        ensures undrawn { IfOk result (λ out. out.undrawn ≡ true → Rose (W.faults draws.old) (W.faults draws.new)) }
        ensures short { IfOk result (λ out. AreShort out.sent) }
        ensures counted { IfOk result (λ _. self.new.steps ≡ self.old.steps + 1) }
        ensures err { OnErr result (self.new ≡ self.old) }
        ensures later { W.faults draws.old ≤ W.faults draws.new }
        ensures failing { W.failing draws.new ≡ W.failing draws.old }
        ensures lands { IfOk result (λ out. LandsTold (landed_by self.old) (landed_by self.new) out.notes) }
        ensures one { IfOk result (λ out. records_to worker out.sent ≤ 1) }
    {
        work(&mut self.host, alloc, u32::from(worker - 1), now, draws)
    }

    /// Takes a record that the source sent to a worker: a step. Without memory the destination is as before.
    pub fn on_source_reply(
        &mut self,
        alloc: Global,
        worker: u8,
        record_: &[u8],
        now: u64,
    ) -> Mem<Outbox>
        requires few { self.old.steps < MOST_STEPS }
        requires worker { 1 ≤ worker }
        requires workers { worker ≤ WORKERS }
        ensures is { D.Told → IfOk result (λ out. IsReply (record { mic = M.mic_of; derived = M.derived }) (M.finished self.old.server.files.extra.mech self.old.server.files.extra.copier.principal) (worker - 1) record_.now now (host_of D.size self.old) (stepped_of D.size self.new out)) }
        ensures ran { IfOk result (λ out. Counted D.Told (seat_of D.size D.fuse D.timeline D.faults self.old.server.files.volume) (seat_of D.size D.fuse D.timeline D.faults self.new.server.files.volume) [] out.used) }
        ensures once { IfOk result (λ out. length out.used ≤ 1) }
        ensures short { IfOk result (λ out. AreShort out.sent) }
        ensures counted { IfOk result (λ _. self.new.steps ≡ self.old.steps + 1) }
        ensures err { OnErr result (self.new ≡ self.old) }
        ensures lands { IfOk result (λ out. LandsTold (landed_by self.old) (landed_by self.new) out.notes) }
        ensures one { IfOk result (λ out. records_to worker out.sent ≤ 1) }
    {
        take_reply(&mut self.host, alloc, u32::from(worker - 1), record_, now)
    }

    /// A worker's link failed: a step. Without memory the destination is as before.
    pub fn link_failed(&mut self, alloc: Global, worker: u8) -> Mem<Outbox>
        requires few { self.old.steps < MOST_STEPS }
        requires worker { 1 ≤ worker }
        requires workers { worker ≤ WORKERS }
        ensures is { IfOk result (λ out. stepped_of D.size self.new out ≡ failure_step (record { mic = M.mic_of; derived = M.derived }) (worker - 1) (host_of D.size self.old)) }
        ensures volume { self.new.server.files.volume ≡ self.old.server.files.volume }
        ensures short { IfOk result (λ out. AreShort out.sent) }
        ensures counted { IfOk result (λ _. self.new.steps ≡ self.old.steps + 1) }
        ensures err { OnErr result (self.new ≡ self.old) }
        ensures landed { landed_by self.new ≡ landed_by self.old }
        ensures none { IfOk result (λ out. records_to worker out.sent ≡ 0) }
    {
        fail_link(&mut self.host, alloc, u32::from(worker - 1))
    }
}

impl<D: Disk, M> DestCore<D, M> {
    /// How many steps were made.
    pub fn calls(&self) -> u32
        ensures { result ≡ self.now.steps }
    {
        self.host.steps
    }

    /// The number of the volume's opening. At any time the disk holds the files so that a crash leaves of each what it may, and
    /// no file's safe contents are in doubt but those of a broken volume.
    pub fn boot(&self) -> u32
        ensures value { result ≡ self.now.server.files.volume.volume.boot }
        ensures stands { D.Told → StandsFor D.timeline D.size self.now.server.files.volume }
        ensures certain { self.now.server.files.volume.volume.broken ≡ false → self.now.server.files.volume.volume.doubt ≡ None }
    {
        let _broken = self.host.server.files.volume.is_broken();
        self.host.server.files.volume.boot()
    }

    /// How many bytes the jobs landed, those that aren't there any more included. It is less than 2^48. Of every destination, whatever was done
    /// before, each job's entries are lawful, each claim is of a chunk that hasn't landed, and the ranges of those that run
    /// are apart; the numbers of their plans are below the bounds of their types; and the disk holds the files so that a
    /// crash leaves of each what it may.
    pub fn landed(&self) -> u64
        ensures value { result ≡ book_bytes self.now.server.files.extra.copier.copies.book }
        ensures same { result ≡ landed_by self.now }
        ensures sound { IsSound self.now.server.files.extra.copier.copies.book.table }
        ensures plans { PlansAreFit self.now.server.files.extra.copier.copies.book.table }
        ensures stands { D.Told → StandsFor D.timeline D.size self.now.server.files.volume }
    {
        let _broken = self.host.server.files.volume.is_broken();
        let _steps = self.calls();
        let landed = self.host.server.files.extra.copier.copies.book.landed();
        u64::try_from(landed).unwrap()
    }

    /// The volume, to look at.
    pub fn volume(&self) -> &Volume<D>
        ensures { result.now ≡ self.now.server.files.volume }
    {
        &self.host.server.files.volume
    }

    /// Fills `out` with a file's bytes from `off` on, and with zeros past its end. It is no step.
    pub fn peek(&mut self, file: u32, off: u64, out: &mut [u8]) -> Result<(), ReadFault>
        requires no_root { 1 ≤ file }
        requires there { file < length self.old.server.files.volume.volume.files }
        ensures { IsPeek D.Told D.size D.fuse D.faults file off self.old self.new out.old out.new result }
    {
        self.host.server.files.volume.read(file, off, out)
    }

    /// Closes it: the disk and the mechanism come back.
    pub fn close(self) -> (D, M)
        ensures disk { result.0 ≡ self.server.files.volume.disk }
        ensures mech { result.1 ≡ self.server.files.extra.mech }
    {
        let DestCore { host } = self;
        let Host { server, .. } = host;
        let Server { files, .. } = server;
        let Files { volume, extra, .. } = files;
        let Destination { mech, .. } = extra;
        (volume.hand_back(), mech)
    }
}

impl<D: Disk, M: Drop> DestCore<D, M> {
    /// Gives the disk back.
    pub fn hand_back(self) -> D
        ensures { IsHandedBack D.Told D.size D.timeline self result }
    {
        let DestCore { host } = self;
        let Host { server, .. } = host;
        let Server { files, .. } = server;
        let Files { volume, .. } = files;
        volume.hand_back()
    }
}

impl<D: CrashDisk, M> DestCore<D, M> {
    /// Lets this many more writes and syncs of the disk pass; the one after them stops the machine.
    pub fn fuse(&mut self, calls: u64)
        ensures { IsArmed D.Told D.size D.fuse D.faults calls self.old self.new }
    {
        self.host.server.files.volume.fuse(calls);
    }
}
