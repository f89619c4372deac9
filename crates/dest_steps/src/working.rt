//! A worker's turn is made.

ghost use Rattle.dest_steps.specs.Sending.{AreShort, GoBack, IsTelling, LandingMaySend, TurnMaySend};
ghost use Rattle.std.specs.Prelude.{◌≡◌, ◌<◌, ◌≤◌, ◌+◌, [], length, IfSome, None, vec_capacity};
ghost use Rattle.block_file.specs.Opened.{SameOpening};
ghost use Rattle.server_volume.specs.Calls.{commit_call};
ghost use Rattle.server_volume.specs.Choices.{Grows};
ghost use Rattle.server_volume.specs.Moments.{Counted};
ghost use Rattle.server_volume.specs.Store.{seat_of, store_of};
ghost use Rattle.server_volume.specs.declared.used.TheConstants.{MOST_CALLS};
ghost use Rattle.dest_tasks.specs.declared.workers.TheConstants.{WORKERS};
ghost use Rattle.copy_model.specs.Job.{AllowsCommit};
ghost use Rattle.dest_steps.specs.Landing.{doing_of, stopped_in, target_file, Does};
ghost use Rattle.dest_steps.specs.Working.{commit_by, commit_if, held_landed, may_commit, turn_made};
ghost use Rattle.dest_jobs.specs.Counting.{KeepsLanded, Lands};
ghost use Rattle.dest_jobs.specs.Progress.{commits};
ghost use Rattle.dest_tasks.specs.Posts.{post_at};
ghost use Rattle.job_book.specs.Book.{id_of, named};
ghost use Rattle.job_table.specs.Table.{is_running};
ghost use Rattle.outbox.specs.Counting.{records_to};
ghost use Rattle.std.specs.Prelude.{true, ◌∷◌};

use crate::copier::Copier;
use crate::landing::{Landing, land};
use crate::telling::Telling;
use crate::turning::{Committing, Turn};
use block_file::Volume;
use dest_tasks::Post;
use disk_model::Disk;
use nfs_base::{JobName, Stop};
use outbox::{CallList, Outgoing};
use server_volume::call_commit;
use wire_xdr::Items;

/// Makes a worker's turn, and gives what goes out. `room` has room for one record.
#[tactic(auto, using(crate::proofs::Doing::grows_none, crate::proofs::Doing::same_opening, server_volume::specs::MomentLaws::counted_none))]
pub fn take_turn<D: Disk>(
    copier: &mut Copier,
    volume: &mut Volume<D>,
    place: u32,
    turn: Turn,
    used: &mut CallList,
    room: Vec<Outgoing>,
) -> Items<Outgoing>
    requires short { TurnMaySend turn }
    requires place { place < WORKERS }
    requires calls { length used.old < MOST_CALLS }
    requires room { room.items ≡ [] }
    requires one { 1 ≤ vec_capacity room }
    ensures does { D.Told → Does (λ choice. turn_made choice place turn (doing_of copier.old (store_of D.size volume.old) used.old)) copier.new (store_of D.size volume.new) used.new result }
    ensures ran { Counted D.Told (seat_of D.size D.fuse D.timeline D.faults volume.old) (seat_of D.size D.fuse D.timeline D.faults volume.new) used.old used.new }
    ensures grows { Grows used.old used.new }
    ensures short { AreShort result }
    ensures one { records_to (place + 1) result ≤ 1 }
    ensures lands { Lands copier.old.copies copier.new.copies }
    ensures once { length used.new ≤ length used.old + 1 }
    ensures opening { SameOpening volume.old.volume volume.new.volume }
    ensures tag { volume.new.tag ≡ volume.old.tag }
    ensures given { copier.new.copies.book.table.made ≡ copier.old.copies.book.table.made }
{
    match turn {
        Turn::Rest => Items::from_vec(room),
        Turn::Undrawn => Items::from_vec(room),
        Turn::Sent(call) => one_record(room, call),
        Turn::Stops(job, cause, told) => copier.stop(job, cause, told),
        Turn::Lands(told) => land_held(copier, volume, place, told, used, room),
        Turn::Commits(job, told) => commit(copier, volume, job, told, used, room),
    }
}

fn one_record(room: Vec<Outgoing>, call: Outgoing) -> Items<Outgoing>
    requires room { room.items ≡ [] }
    requires one { 1 ≤ vec_capacity room }
    ensures { result ≡ call ∷ [] }
{
    let mut room = room;
    room.push(call).unwrap();
    Items::from_vec(room)
}

impl Copier {
    /// Stops a job, where it still can be, and gives what is sent to its client.
    #[tactic(auto, using(crate::proofs::Jobs::stops_made))]
    pub(crate) fn stop(&mut self, job: JobName, cause: Stop, told: Telling) -> Items<Outgoing>
        ensures after { self.new ≡ stopped_in job cause told self.old }
        ensures sent { result ≡ told.sent }
        ensures given { self.new.copies.book.table.made ≡ self.old.copies.book.table.made }
        ensures keeps { KeepsLanded self.old.copies self.new.copies }
    {
        let Telling { back, sent } = told;
        self.copies.stop(job, cause);
        self.back = back;
        sent
    }

    /// All of a job is committed: its client is told.
    fn commit(&mut self, job: JobName, told: Telling) -> Items<Outgoing>
        requires running { is_running self.old.copies.book.table (id_of job) ≡ true }
        requires landed { IfSome (named self.old.copies.book.table job) (λ job. AllowsCommit job.log.entries) }
        ensures after { self.new ≡ record self.old { copies = commits job self.old.copies; back = told.back } }
        ensures sent { result ≡ told.sent }
        ensures given { self.new.copies.book.table.made ≡ self.old.copies.book.table.made }
        ensures keeps { KeepsLanded self.old.copies self.new.copies }
    {
        let Telling { back, sent } = told;
        self.copies.commit(job);
        self.back = back;
        sent
    }
}

/// The worker tries to land the chunk that it holds.
#[tactic(auto, using(crate::proofs::Doing::grows_none, crate::proofs::Doing::same_opening, server_volume::specs::MomentLaws::counted_none))]
fn land_held<D: Disk>(
    copier: &mut Copier,
    volume: &mut Volume<D>,
    place: u32,
    told: Option<Landing>,
    used: &mut CallList,
    room: Vec<Outgoing>,
) -> Items<Outgoing>
    requires short { LandingMaySend told }
    requires place { place < WORKERS }
    requires calls { length used.old < MOST_CALLS }
    requires room { room.items ≡ [] }
    ensures does { D.Told → Does (λ choice. held_landed choice place told (post_at copier.old.work.workers place) (doing_of copier.old (store_of D.size volume.old) used.old)) copier.new (store_of D.size volume.new) used.new result }
    ensures ran { Counted D.Told (seat_of D.size D.fuse D.timeline D.faults volume.old) (seat_of D.size D.fuse D.timeline D.faults volume.new) used.old used.new }
    ensures grows { Grows used.old used.new }
    ensures short { AreShort result }
    ensures back { GoBack result }
    ensures lands { Lands copier.old.copies copier.new.copies }
    ensures once { length used.new ≤ length used.old + 1 }
    ensures opening { SameOpening volume.old.volume volume.new.volume }
    ensures tag { volume.new.tag ≡ volume.old.tag }
    ensures given { copier.new.copies.book.table.made ≡ copier.old.copies.book.table.made }
{
    match copier.work.workers.take(place) {
        Post::Idle => Items::from_vec(room),
        Post::Awaits { job, errand } => {
            copier.work.workers.put(place, Post::Awaits { job, errand });
            Items::from_vec(room)
        }
        Post::Holds { job, chunk, bytes } => {
            land(copier, volume, place, job, chunk, bytes, told, used, room)
        }
    }
}

/// The file of a job is committed, where it still runs and all of it has landed; then the client is told.
#[tactic(auto, using(crate::proofs::Doing::grows_none, crate::proofs::Doing::same_opening, server_volume::specs::MomentLaws::counted_none))]
fn commit<D: Disk>(
    copier: &mut Copier,
    volume: &mut Volume<D>,
    job: JobName,
    told: Committing,
    used: &mut CallList,
    room: Vec<Outgoing>,
) -> Items<Outgoing>
    requires done { IsTelling told.done.sent }
    requires fault { IsTelling told.fault.sent }
    requires calls { length used.old < MOST_CALLS }
    requires room { room.items ≡ [] }
    ensures does { D.Told → Does (λ choice. commit_if (may_commit job copier.old) choice job told (doing_of copier.old (store_of D.size volume.old) used.old)) copier.new (store_of D.size volume.new) used.new result }
    ensures ran { Counted D.Told (seat_of D.size D.fuse D.timeline D.faults volume.old) (seat_of D.size D.fuse D.timeline D.faults volume.new) used.old used.new }
    ensures grows { Grows used.old used.new }
    ensures short { AreShort result }
    ensures back { GoBack result }
    ensures keeps { KeepsLanded copier.old.copies copier.new.copies }
    ensures once { length used.new ≤ length used.old + 1 }
    ensures opening { SameOpening volume.old.volume volume.new.volume }
    ensures tag { volume.new.tag ≡ volume.old.tag }
    ensures given { copier.new.copies.book.table.made ≡ copier.old.copies.book.table.made }
{
    let book = &copier.copies.book;
    if !book.is_running(job) || !book.is_whole(job) {
        return Items::from_vec(room);
    }
    match target_file(copier, volume, job) {
        None => Items::from_vec(room),
        Some(file) => commit_file(copier, volume, job, file, told, used),
    }
}

fn commit_file<D: Disk>(
    copier: &mut Copier,
    volume: &mut Volume<D>,
    job: JobName,
    file: u32,
    told: Committing,
    used: &mut CallList,
) -> Items<Outgoing>
    requires done { IsTelling told.done.sent }
    requires fault { IsTelling told.fault.sent }
    requires running { is_running copier.old.copies.book.table (id_of job) ≡ true }
    requires landed { IfSome (named copier.old.copies.book.table job) (λ job. AllowsCommit job.log.entries) }
    requires no_root { 1 ≤ file }
    requires there { file < length volume.old.volume.files }
    requires calls { length used.old < MOST_CALLS }
    ensures does { D.Told → Does (λ choice. commit_by job told (commit_call choice used.old (store_of D.size volume.old) file) (doing_of copier.old (store_of D.size volume.old) used.old)) copier.new (store_of D.size volume.new) used.new result }
    ensures ran { Counted D.Told (seat_of D.size D.fuse D.timeline D.faults volume.old) (seat_of D.size D.fuse D.timeline D.faults volume.new) used.old used.new }
    ensures grows { Grows used.old used.new }
    ensures short { AreShort result }
    ensures back { GoBack result }
    ensures keeps { KeepsLanded copier.old.copies copier.new.copies }
    ensures once { length used.new ≤ length used.old + 1 }
    ensures opening { SameOpening volume.old.volume volume.new.volume }
    ensures tag { volume.new.tag ≡ volume.old.tag }
    ensures given { copier.new.copies.book.table.made ≡ copier.old.copies.book.table.made }
{
    let Committing { done, fault } = told;
    match call_commit(volume, used, file) {
        Ok(()) => copier.commit(job, done),
        Err(_) => copier.stop(job, Stop::DiskFault, fault),
    }
}

/// The file of a job, where there is such a file.
pub(crate) fn target_file<D: Disk>(copier: &Copier, volume: &Volume<D>, job: JobName) -> Option<u32>
    ensures file { result ≡ target_file (store_of D.size volume.now) (named copier.now.copies.book.table job) }
    ensures no_root { IfSome result (λ file. 1 ≤ file) }
    ensures there { IfSome result (λ file. file < length volume.now.volume.files) }
{
    match copier.copies.book.plan(job) {
        None => None,
        Some(plan) => {
            if plan.file == 0 || plan.file > volume.files() {
                return None;
            }
            Some(plan.file)
        }
    }
}
