//! What the two servers of a run do in small steps, where they are there.

ghost use Rattle.std.specs.Prelude.{◌≡◌, ◌+◌, ◌<◌, ◌≤◌, ℕ, length, true, IfOk, IfSome, OnErr};
ghost use Rattle.wire_run.specs.Cutting.{DestCalls, SourceCalls};
ghost use Rattle.wire_run.specs.Watching.{fuse_in};
ghost use Rattle.session_server.specs.declared.host.TheConstants.{MOST_STEPS};
ghost use Rattle.wire_machine.specs.Ends as acts;
ghost use Rattle.wire_machine.specs.Steps.{command_of};
ghost use Rattle.run_ends.specs.Ends.{is_worker, run_machines};
ghost use Rattle.wire_run.specs.Stage.{dest_boot, dest_disk, dest_steps, peeked_of, source_boot, source_disk, source_steps, ClientActs, DestActs, DestPeeks, DestSized, HasFitPlans, IsCommand, IsDestOpen, IsSourceOpen, SourceActs, SourcePeeks, SourceSized};

use crate::bytes::{are_bytes, of_bytes};
use crate::client_turn::command;
use crate::ends::{DestEnd, SourceEnd};
use crate::system::Peeked;
use block_file::ReadFault;
use client_core::Client;
use dest_core::DestCore;
use dest_tasks::WORKERS;
use disk_model::CrashDisk;
use gss_mech::Mechanism;
use nfs_base::Side;
use outbox::Outbox;
use outcome::Mem;
use std::alloc::Global;
use streams::CountDraws;
use wire_schedule::Event;

impl<D: CrashDisk + Drop, M: Mechanism> SourceEnd<D, M> {
    /// Takes a record on a connection.
    pub(crate) fn take(
        &mut self,
        alloc: Global,
        conn: u32,
        bytes: &[u8],
        now: u64,
        draws: &mut CountDraws,
    ) -> Mem<Outbox>
        requires open { IsSourceOpen self.old }
        requires few { source_steps self.old < MOST_STEPS }
        ensures acts { IfOk result (SourceActs D.Told (run_machines M.mic_of M.derived M.started M.accepted M.finished) D.faults D.size (acts.SourceTakes conn bytes.now) now self.old draws.old self.new draws.new) }
        ensures calls { IfOk result (λ out. SourceCalls D.Told D.size D.fuse D.timeline D.faults self.old self.new out.used) }
        ensures err { OnErr result (self.new ≡ self.old) }
    {
        volume_laws::steps_keep_the_files();
        volume_laws::counts_rise_where_calls_fail::<D>();
        let SourceEnd::Open(core) = self else {
            unreachable!()
        };
        core.boot();
        are_bytes(bytes);
        of_bytes(core.on_record(alloc, conn, bytes, now, draws))
    }

    /// A second comes.
    pub(crate) fn tick(&mut self, alloc: Global, now: u64) -> Mem<Outbox>
        requires open { IsSourceOpen self.old }
        requires few { source_steps self.old < MOST_STEPS }
        ensures acts { IfOk result (λ out. (draws : ℕ) → SourceActs D.Told (run_machines M.mic_of M.derived M.started M.accepted M.finished) D.faults D.size acts.SourceTicks now self.old draws self.new draws out) }
        ensures calls { IfOk result (λ out. SourceCalls D.Told D.size D.fuse D.timeline D.faults self.old self.new out.used) }
        ensures fuse { fuse_in D.fuse (source_disk self.new) ≡ fuse_in D.fuse (source_disk self.old) }
        ensures err { OnErr result (self.new ≡ self.old) }
    {
        let SourceEnd::Open(core) = self else {
            unreachable!()
        };
        core.boot();
        core.tick(alloc, now)
    }

    /// The number of its volume's opening.
    pub(crate) fn opening(&self) -> u32
        requires { IsSourceOpen self.now }
        ensures { result ≡ source_boot self.now }
    {
        let SourceEnd::Open(core) = self else {
            unreachable!()
        };
        core.boot()
    }

    /// How many bytes a file has now; 0 where it isn't there.
    pub(crate) fn size(&self, file: u32) -> u64
        requires open { IsSourceOpen self.now }
        requires no_root { 1 ≤ file }
        ensures { SourceSized file self.now result }
    {
        let SourceEnd::Open(core) = self else {
            unreachable!()
        };
        let volume = core.volume();
        if volume.files() < file {
            return 0;
        }
        volume.file(file).size
    }

    /// Fills `out` with bytes of a file as they are now.
    pub(crate) fn peek(&mut self, file: u32, off: u64, out: &mut [u8]) -> Peeked
        requires open { IsSourceOpen self.old }
        requires file { 1 ≤ file }
        ensures peeks { SourcePeeks D.Told D.faults D.size file off self.old self.new out.old out.new result }
        ensures fuse { fuse_in D.fuse (source_disk self.new) ≡ fuse_in D.fuse (source_disk self.old) }
    {
        let SourceEnd::Open(core) = self else {
            unreachable!()
        };
        if core.volume().files() < file {
            return Peeked::Refused;
        }
        peeked(core.peek(file, off, out))
    }
}

impl<D: CrashDisk + Drop, M: Mechanism> DestEnd<D, M> {
    /// Takes a record on the client's connection.
    pub(crate) fn take(
        &mut self,
        alloc: Global,
        bytes: &[u8],
        now: u64,
        draws: &mut CountDraws,
    ) -> Mem<Outbox>
        requires open { IsDestOpen self.old }
        requires few { dest_steps self.old < MOST_STEPS }
        ensures acts { IfOk result (DestActs D.Told (run_machines M.mic_of M.derived M.started M.accepted M.finished) D.faults D.size (acts.DestTakes 0 bytes.now) now self.old draws.old self.new draws.new) }
        ensures calls { IfOk result (λ out. DestCalls D.Told D.size D.fuse D.timeline D.faults self.old self.new out.used) }
        ensures err { OnErr result (self.new ≡ self.old) }
    {
        volume_laws::steps_keep_the_files();
        volume_laws::counts_rise_where_calls_fail::<D>();
        let DestEnd::Open(core) = self else {
            unreachable!()
        };
        core.boot();
        are_bytes(bytes);
        let out = of_bytes(core.on_record(alloc, 0, bytes, now, draws));
        core.landed();
        out
    }

    /// A worker makes its next step.
    pub(crate) fn work(
        &mut self,
        alloc: Global,
        worker: u8,
        now: u64,
        draws: &mut CountDraws,
    ) -> Mem<Outbox>
        requires open { IsDestOpen self.old }
        requires few { dest_steps self.old < MOST_STEPS }
        requires there { is_worker worker ≡ true }
        ensures acts { IfOk result (DestActs D.Told (run_machines M.mic_of M.derived M.started M.accepted M.finished) D.faults D.size (acts.Works worker) now self.old draws.old self.new draws.new) }
        ensures calls { IfOk result (λ out. DestCalls D.Told D.size D.fuse D.timeline D.faults self.old self.new out.used) }
        ensures err { OnErr result (self.new ≡ self.old) }
    {
        volume_laws::steps_keep_the_files();
        volume_laws::counts_rise_where_calls_fail::<D>();
        let DestEnd::Open(core) = self else {
            unreachable!()
        };
        core.boot();
        let out = of_bytes(core.work(alloc, worker, now, draws));
        core.landed();
        out
    }

    /// A worker hears a record of the source. One that isn't there hears nothing.
    pub(crate) fn hear(&mut self, alloc: Global, worker: u32, bytes: &[u8], now: u64) -> Mem<Outbox>
        requires open { IsDestOpen self.old }
        requires few { dest_steps self.old < MOST_STEPS }
        ensures acts { IfOk result (λ out. (draws : ℕ) → DestActs D.Told (run_machines M.mic_of M.derived M.started M.accepted M.finished) D.faults D.size (acts.Hears worker bytes.now) now self.old draws self.new draws out) }
        ensures calls { IfOk result (λ out. DestCalls D.Told D.size D.fuse D.timeline D.faults self.old self.new out.used) }
        ensures err { OnErr result (self.new ≡ self.old) }
    {
        let there = is_worker(worker);
        if there {
            self.hear_at(alloc, worker as u8, bytes, now)
        } else {
            are_bytes(bytes);
            self.has_fit_plans();
            self.rests();
            Outbox::new(alloc)
        }
    }

    fn hear_at(&mut self, alloc: Global, worker: u8, bytes: &[u8], now: u64) -> Mem<Outbox>
        requires open { IsDestOpen self.old }
        requires few { dest_steps self.old < MOST_STEPS }
        requires there { is_worker worker ≡ true }
        ensures acts { IfOk result (λ out. (draws : ℕ) → DestActs D.Told (run_machines M.mic_of M.derived M.started M.accepted M.finished) D.faults D.size (acts.Hears worker bytes.now) now self.old draws self.new draws out) }
        ensures calls { IfOk result (λ out. DestCalls D.Told D.size D.fuse D.timeline D.faults self.old self.new out.used) }
        ensures err { OnErr result (self.new ≡ self.old) }
    {
        volume_laws::steps_keep_the_files();
        volume_laws::counts_rise_where_calls_fail::<D>();
        let DestEnd::Open(core) = self else {
            unreachable!()
        };
        core.boot();
        are_bytes(bytes);
        let out = of_bytes(core.on_source_reply(alloc, worker, bytes, now));
        core.landed();
        out
    }

    /// A second comes.
    pub(crate) fn tick(&mut self, alloc: Global, now: u64) -> Mem<Outbox>
        requires open { IsDestOpen self.old }
        requires few { dest_steps self.old < MOST_STEPS }
        ensures acts { IfOk result (λ out. (draws : ℕ) → DestActs D.Told (run_machines M.mic_of M.derived M.started M.accepted M.finished) D.faults D.size acts.DestTicks now self.old draws self.new draws out) }
        ensures calls { IfOk result (λ out. DestCalls D.Told D.size D.fuse D.timeline D.faults self.old self.new out.used) }
        ensures fuse { fuse_in D.fuse (dest_disk self.new) ≡ fuse_in D.fuse (dest_disk self.old) }
        ensures err { OnErr result (self.new ≡ self.old) }
    {
        let DestEnd::Open(core) = self else {
            unreachable!()
        };
        core.boot();
        let out = of_bytes(core.tick(alloc, now));
        core.landed();
        out
    }

    /// The plans of its jobs are within the bounds of their types.
    fn has_fit_plans(&self)
        requires { IsDestOpen self.now }
        ensures { HasFitPlans self.now }
    {
        let DestEnd::Open(core) = self else {
            unreachable!()
        };
        core.landed();
    }

    /// The number of its volume's opening.
    pub(crate) fn opening(&self) -> u32
        requires { IsDestOpen self.now }
        ensures { result ≡ dest_boot self.now }
    {
        let DestEnd::Open(core) = self else {
            unreachable!()
        };
        core.boot()
    }

    /// How many bytes a file has now; 0 where it isn't there.
    pub(crate) fn size(&self, file: u32) -> u64
        requires open { IsDestOpen self.now }
        requires no_root { 1 ≤ file }
        ensures { DestSized file self.now result }
    {
        let DestEnd::Open(core) = self else {
            unreachable!()
        };
        let volume = core.volume();
        if volume.files() < file {
            return 0;
        }
        volume.file(file).size
    }

    /// Fills `out` with bytes of a file as they are now.
    pub(crate) fn peek(&mut self, file: u32, off: u64, out: &mut [u8]) -> Peeked
        requires open { IsDestOpen self.old }
        requires file { 1 ≤ file }
        ensures peeks { DestPeeks D.Told D.faults D.size file off self.old self.new out.old out.new result }
        ensures fuse { fuse_in D.fuse (dest_disk self.new) ≡ fuse_in D.fuse (dest_disk self.old) }
    {
        let DestEnd::Open(core) = self else {
            unreachable!()
        };
        if core.volume().files() < file {
            return Peeked::Refused;
        }
        peeked(core.peek(file, off, out))
    }
}

/// Whether the destination has a worker of this number.
fn is_worker(worker: u32) -> bool
    ensures { result ≡ is_worker worker }
{
    1 <= worker && worker <= WORKERS
}

/// The client carries out the command that an event is.
pub(crate) fn client_commanded<M: Mechanism>(
    client: &mut Client<M>,
    alloc: Global,
    event: &Event,
    now: u64,
    draws: &mut CountDraws,
) -> Mem<Outbox>
    requires command { IsCommand event.now client.old }
    requires few { client.old.steps < MOST_STEPS }
    ensures acts { IfOk result (λ out. IfSome (command_of event.now) (λ act. ClientActs (run_machines M.mic_of M.derived M.started M.accepted M.finished) act now client.old draws.old client.new draws.new out)) }
    ensures err { OnErr result (client.new ≡ client.old) }
{
    client_laws::each_step_counts_one::<M, CountDraws>();
    client_laws::copies_begin_by_command::<M, CountDraws>();
    of_bytes(command(client, alloc, event, now, draws))
}

/// The client takes a record of a server.
pub(crate) fn client_takes<M: Mechanism>(
    client: &mut Client<M>,
    alloc: Global,
    from: Side,
    bytes: &[u8],
    now: u64,
    draws: &mut CountDraws,
) -> Mem<Outbox>
    requires few { client.old.steps < MOST_STEPS }
    ensures acts { IfOk result (ClientActs (run_machines M.mic_of M.derived M.started M.accepted M.finished) (acts.ClientTakes from bytes.now) now client.old draws.old client.new draws.new) }
    ensures err { OnErr result (client.new ≡ client.old) }
{
    client_laws::each_step_counts_one::<M, CountDraws>();
    client_laws::copies_begin_by_command::<M, CountDraws>();
    are_bytes(bytes);
    of_bytes(client.on_record(alloc, from, bytes, now, draws))
}

/// A second comes at the client.
pub(crate) fn client_ticks<M: Mechanism>(
    client: &mut Client<M>,
    alloc: Global,
    now: u64,
) -> Mem<Outbox>
    requires few { client.old.steps < MOST_STEPS }
    ensures acts { IfOk result (λ out. (draws : ℕ) → ClientActs (run_machines M.mic_of M.derived M.started M.accepted M.finished) acts.ClientTicks now client.old draws client.new draws out) }
    ensures err { OnErr result (client.new ≡ client.old) }
{
    client_laws::each_step_counts_one::<M, CountDraws>();
    client_laws::copies_begin_by_command::<M, CountDraws>();
    of_bytes(client.tick(alloc, now))
}

/// What a read of a volume comes to.
fn peeked(read: Result<(), ReadFault>) -> Peeked
    ensures { result ≡ peeked_of read }
{
    match read {
        Ok(()) => Peeked::Shown,
        Err(ReadFault::Broken) => Peeked::Refused,
        Err(ReadFault::DiskFailed) => Peeked::Failed,
    }
}
