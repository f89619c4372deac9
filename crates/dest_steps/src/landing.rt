//! How a chunk lands.

ghost use Rattle.dest_steps.specs.Sending.{AreShort, GoBack, LandingMaySend};
ghost use Rattle.std.specs.Prelude.{◌≡◌, ◌<◌, ◌≤◌, ◌+◌, [], length, IfOk, IfSome, None};
ghost use Rattle.block_file.specs.Opened.{SameOpening};
ghost use Rattle.server_volume.specs.Choices.{Grows};
ghost use Rattle.server_volume.specs.Moments.{Counted};
ghost use Rattle.server_volume.specs.Store.{seat_of, store_of};
ghost use Rattle.server_volume.specs.declared.used.TheConstants.{MOST_CALLS};
ghost use Rattle.dest_tasks.specs.declared.workers.TheConstants.{WORKERS};
ghost use Rattle.dest_jobs.specs.Counting.{Lands};
ghost use Rattle.dest_steps.specs.Landing.{doing_of, landed, late, target, target_off, waits, written_at, written_to, Does};
ghost use Rattle.dest_steps.specs.Turning.{landing_for};
ghost use Rattle.job_book.specs.Book.{id_of, named};
ghost use Rattle.job_log.specs.declared.chunk.Landing.TheVariants as takes;
ghost use Rattle.job_table.specs.Table.{table_landing};
ghost use Rattle.nfs_base.specs.declared.limits.TheConstants.{DATA_LIMIT};
ghost use Rattle.dest_steps.specs.Copier.{around_of};

use crate::around::Here;
use crate::copier::Copier;
use crate::telling::Telling;
use crate::working::target_file;
use block_file::{Volume, WriteFault};
use dest_tasks::Post;
use disk_model::Disk;
use gss_mech::Mechanism;
use job_book::Chunk;
use nfs_base::{DATA_LIMIT, JobName, Stop};
use outbox::{CallList, Note, Outgoing};
use outcome::Mem;
use server_volume::call_write;
use sess_slots::Sessions;
use std::alloc::Global;
use wire_xdr::{Items, Octets};

/// What is told where a chunk can't be written: the disk failed, or no write number is left.
#[derive(Drop)]
pub struct Landing {
    pub fault: Telling,
    pub worn: Telling,
}

impl Copier {
    /// The same, for a job that runs.
    pub(crate) fn landing<M: Mechanism>(
        &self,
        alloc: Global,
        job: JobName,
        sessions: &Sessions,
        here: Here,
        mech: &M,
    ) -> Mem<Option<Landing>>
        ensures short { IfOk result (λ told. LandingMaySend told) }
        ensures told { IfOk result (λ told. told ≡ landing_for (record { mic = M.mic_of; derived = M.derived }) (around_of sessions.now here) job self.now) }
    {
        if !self.copies.book.is_running(job) {
            return Ok(None);
        }
        let fault = self.tell_stop(alloc, job, Stop::DiskFault, sessions, here, mech)?;
        let worn = self.tell_stop(alloc, job, Stop::Worn, sessions, here, mech)?;
        Ok(Some(Landing { fault, worn }))
    }

    /// A chunk that comes for a job that takes it no more.
    fn late(&mut self, job: JobName, chunk: Chunk)
        ensures { self.new ≡ late job chunk self.old }
    {
        self.copies.note(Note::Late {
            job,
            off: chunk.off,
        });
    }

    /// A chunk that waits for an earlier one: the worker holds it.
    fn hold(&mut self, place: u32, job: JobName, chunk: Chunk, bytes: Octets)
        requires { place < WORKERS }
        ensures { self.new ≡ waits place job chunk bytes self.old }
    {
        self.copies.note(Note::Held {
            job,
            off: chunk.off,
        });
        self.work
            .workers
            .put(place, Post::Holds { job, chunk, bytes });
    }
}

/// Lands a chunk of a job, whose bytes a worker has. Where it has to wait for an earlier one, the worker holds it; where the job
/// takes it no more, nothing is written.
#[tactic(auto, using(crate::proofs::Doing::grows_none, crate::proofs::Doing::same_opening, server_volume::specs::MomentLaws::counted_none))]
pub(crate) fn land<D: Disk>(
    copier: &mut Copier,
    volume: &mut Volume<D>,
    place: u32,
    job: JobName,
    chunk: Chunk,
    bytes: Octets,
    told: Option<Landing>,
    used: &mut CallList,
    room: Vec<Outgoing>,
) -> Items<Outgoing>
    requires short { LandingMaySend told }
    requires place { place < WORKERS }
    requires calls { length used.old < MOST_CALLS }
    requires room { room.items ≡ [] }
    ensures does { D.Told → Does (λ choice. landed choice place job chunk bytes told (doing_of copier.old (store_of D.size volume.old) used.old)) copier.new (store_of D.size volume.new) used.new result }
    ensures ran { Counted D.Told (seat_of D.size D.fuse D.timeline D.faults volume.old) (seat_of D.size D.fuse D.timeline D.faults volume.new) used.old used.new }
    ensures grows { Grows used.old used.new }
    ensures short { AreShort result }
    ensures back { GoBack result }
    ensures lands { Lands copier.old.copies copier.new.copies }
    ensures once { length used.new ≤ length used.old + 1 }
    ensures opening { SameOpening volume.old.volume volume.new.volume }
    ensures tag { volume.new.tag ≡ volume.old.tag }
    ensures given { copier.new.copies.book.table.made ≡ copier.old.copies.book.table.made }
{
    match copier.copies.book.landing(job, chunk) {
        job_book::Landing::Late => {
            copier.late(job, chunk);
            Items::from_vec(room)
        }
        job_book::Landing::Held => {
            copier.hold(place, job, chunk, bytes);
            Items::from_vec(room)
        }
        job_book::Landing::Landed => match told {
            Some(told) => write(copier, volume, job, chunk, &bytes, told, used, room),
            None => Items::from_vec(room),
        },
    }
}

#[tactic(auto, using(crate::proofs::Doing::grows_none, crate::proofs::Doing::same_opening, server_volume::specs::MomentLaws::counted_none))]
fn write<D: Disk>(
    copier: &mut Copier,
    volume: &mut Volume<D>,
    job: JobName,
    chunk: Chunk,
    bytes: &Octets,
    told: Landing,
    used: &mut CallList,
    room: Vec<Outgoing>,
) -> Items<Outgoing>
    requires short { LandingMaySend (Some told) }
    requires takes { table_landing copier.old.copies.book.table (id_of job) chunk ≡ takes.Landed }
    requires calls { length used.old < MOST_CALLS }
    requires room { room.items ≡ [] }
    ensures does { D.Told → Does (λ choice. written_to choice job chunk bytes.now told (doing_of copier.old (store_of D.size volume.old) used.old)) copier.new (store_of D.size volume.new) used.new result }
    ensures ran { Counted D.Told (seat_of D.size D.fuse D.timeline D.faults volume.old) (seat_of D.size D.fuse D.timeline D.faults volume.new) used.old used.new }
    ensures grows { Grows used.old used.new }
    ensures short { AreShort result }
    ensures back { GoBack result }
    ensures lands { Lands copier.old.copies copier.new.copies }
    ensures once { length used.new ≤ length used.old + 1 }
    ensures opening { SameOpening volume.old.volume volume.new.volume }
    ensures tag { volume.new.tag ≡ volume.old.tag }
    ensures given { copier.new.copies.book.table.made ≡ copier.old.copies.book.table.made }
{
    match target(copier, volume, job, chunk, bytes.len()) {
        None => Items::from_vec(room),
        Some((file, off)) => {
            write_at(
                copier, volume, job, chunk, file, off, bytes, told, used, room,
            )
        }
    }
}

fn write_at<D: Disk>(
    copier: &mut Copier,
    volume: &mut Volume<D>,
    job: JobName,
    chunk: Chunk,
    file: u32,
    off: u64,
    bytes: &Octets,
    told: Landing,
    used: &mut CallList,
    room: Vec<Outgoing>,
) -> Items<Outgoing>
    requires short { LandingMaySend (Some told) }
    requires takes { table_landing copier.old.copies.book.table (id_of job) chunk ≡ takes.Landed }
    requires no_root { 1 ≤ file }
    requires there { file < length volume.old.volume.files }
    requires few { length bytes.now ≤ DATA_LIMIT }
    requires calls { length used.old < MOST_CALLS }
    requires room { room.items ≡ [] }
    ensures does { D.Told → Does (λ choice. written_at choice job chunk file off bytes.now told (doing_of copier.old (store_of D.size volume.old) used.old)) copier.new (store_of D.size volume.new) used.new result }
    ensures ran { Counted D.Told (seat_of D.size D.fuse D.timeline D.faults volume.old) (seat_of D.size D.fuse D.timeline D.faults volume.new) used.old used.new }
    ensures grows { Grows used.old used.new }
    ensures short { AreShort result }
    ensures back { GoBack result }
    ensures lands { Lands copier.old.copies copier.new.copies }
    ensures once { length used.new ≤ length used.old + 1 }
    ensures opening { SameOpening volume.old.volume volume.new.volume }
    ensures tag { volume.new.tag ≡ volume.old.tag }
    ensures given { copier.new.copies.book.table.made ≡ copier.old.copies.book.table.made }
{
    let Landing { fault, worn } = told;
    match call_write(volume, used, file, off, bytes.as_slice()) {
        Ok(()) => {
            copier.copies.land(job, chunk);
            Items::from_vec(room)
        }
        Err(WriteFault::Worn) => copier.stop(job, Stop::Worn, worn),
        Err(WriteFault::TooFar) => copier.stop(job, Stop::DiskFault, fault),
        Err(WriteFault::DiskFailed) => copier.stop(job, Stop::DiskFault, fault),
        Err(WriteFault::Broken) => copier.stop(job, Stop::DiskFault, fault),
    }
}

/// In which file and where in it so many bytes of a chunk land.
fn target<D: Disk>(
    copier: &Copier,
    volume: &Volume<D>,
    job: JobName,
    chunk: Chunk,
    len: usize,
) -> Option<(u32, u64)>
    ensures target { result ≡ target (store_of D.size volume.now) chunk len (named copier.now.copies.book.table job) }
    ensures no_root { IfSome result (λ place. 1 ≤ place.0) }
    ensures there { IfSome result (λ place. place.0 < length volume.now.volume.files) }
    ensures short { IfSome result (λ place. len ≤ DATA_LIMIT) }
{
    if len > DATA_LIMIT as usize {
        return None;
    }
    let file = target_file(copier, volume, job)?;
    let off = target_off(copier, job, chunk)?;
    Some((file, off))
}

fn target_off(copier: &Copier, job: JobName, chunk: Chunk) -> Option<u64>
    ensures { result ≡ target_off chunk (named copier.now.copies.book.table job) }
{
    match copier.copies.book.plan(job) {
        None => None,
        Some(plan) => plan.dst_off.checked_add(chunk.off),
    }
}
