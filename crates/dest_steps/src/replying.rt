//! The source's answers.

ghost use Rattle.dest_steps.specs.Sending.{AreShort, EffectMaySend};
ghost use Rattle.std.specs.Prelude.{◌≡◌, ◌<◌, ◌≤◌, ◌+◌, [], length, IfOk, IfSome, IsSome, None};
ghost use Rattle.block_file.specs.Opened.{SameOpening};
ghost use Rattle.server_volume.specs.Choices.{Grows};
ghost use Rattle.server_volume.specs.Moments.{Counted};
ghost use Rattle.server_volume.specs.Store.{seat_of, store_of};
ghost use Rattle.server_volume.specs.declared.used.TheConstants.{MOST_CALLS};
ghost use Rattle.dest_tasks.specs.declared.workers.TheConstants.{WORKERS};
ghost use Rattle.std.specs.Prelude.{OnErr};
ghost use Rattle.dest_steps.specs.Landing.{doing_of, Does};
ghost use Rattle.dest_steps.specs.Replying.{bytes_due, dropped, effect_done, is_read, len_for, may_size, stop_due, with_denial, IsFound, IsHeard, IsHeardAs, IsSizedIf, IsSizing};
ghost use Rattle.dest_jobs.specs.Counting.{KeepsLanded, Lands};
ghost use Rattle.dest_jobs.specs.Progress.{MaySize};
ghost use Rattle.job_book.specs.Book.{named};
ghost use Rattle.outbox.specs.Counting.{records_to};
ghost use Rattle.outbox.specs.declared.note.Dropped.TheVariants.{Unmatched, Unread};
ghost use Rattle.dest_steps.specs.declared.replying.Effect.TheVariants as effects;
ghost use Rattle.dest_steps.specs.Copier.{around_of};

use crate::around::Here;
use crate::copier::Copier;
use crate::landing::{Landing, land};
use crate::telling::Telling;
use block_file::Volume;
use dest_tasks::Errand;
use dest_work::{Finding, Taken, len_of};
use disk_model::Disk;
use gss_mech::Mechanism;
use job_book::Chunk;
use mount::Mount;
use nfs_base::{JobName, Seal, Stop};
use outbox::{CallList, Dropped, Note, Outgoing};
use outcome::Mem;
use rpc_msg::{RpcFault, read_call, read_reply};
use sess_slots::Sessions;
use std::alloc::Global;
use wire_xdr::{Items, Octets};

/// What an answer of the source does, once there is all memory for it.
#[derive(Drop)]
pub enum Effect {
    /// The record is dropped.
    Drops(Dropped),

    /// Nothing more than that it was taken.
    Goes(Mount),

    /// A job's CREATE was denied for the first time.
    Denied(JobName, Mount),

    /// A job is to be stopped.
    Stops(JobName, Stop, Telling, Mount),

    /// A chunk is to land.
    Lands(JobName, Chunk, Octets, Option<Landing>, Mount),
}

/// The same, and under which seal the record was accepted, where it was accepted under one.
#[derive(Drop)]
pub struct Heard {
    pub effect: Effect,
    pub accepted: Option<Seal>,
}

impl Copier {
    /// What a record does that the source sent to a worker. A job gets its length by that. Without memory nothing changes.
    pub fn hear<M: Mechanism>(
        &mut self,
        alloc: Global,
        place: u32,
        record_: &[u8],
        sessions: &Sessions,
        here: Here,
        mech: &M,
    ) -> Mem<Heard>
        requires { place < WORKERS }
        ensures short { IfOk result (λ heard. EffectMaySend heard.effect) }
        ensures heard { IfOk result (λ heard. IsHeard (record { mic = M.mic_of; derived = M.derived }) (M.finished mech.now self.old.principal) (around_of sessions.now here) place record_.now self.old heard self.new) }
        ensures given { self.new.copies.book.table.made ≡ self.old.copies.book.table.made }
        ensures keeps { KeepsLanded self.old.copies self.new.copies }
        ensures notes { length self.new.copies.told ≤ length self.old.copies.told + 1 }
        ensures err { OnErr result (self.new ≡ self.old) }
    {
        if !is_read(alloc, record_)? {
            return Ok(dropped(Dropped::Unread));
        }
        let taken = self.work.take(
            alloc,
            place,
            self.principal.as_slice(),
            record_,
            &self.copies.book,
            mech,
        )?;
        match taken {
            None => Ok(dropped(Dropped::Unmatched)),
            Some(taken) => self.hear_taken(alloc, taken, sessions, here, mech),
        }
    }

    fn hear_taken<M: Mechanism>(
        &mut self,
        alloc: Global,
        taken: Taken,
        sessions: &Sessions,
        here: Here,
        mech: &M,
    ) -> Mem<Heard>
        ensures short { IfOk result (λ heard. EffectMaySend heard.effect) }
        ensures heard { IfOk result (λ heard. IsHeardAs (record { mic = M.mic_of; derived = M.derived }) (around_of sessions.now here) taken self.old heard self.new) }
        ensures given { self.new.copies.book.table.made ≡ self.old.copies.book.table.made }
        ensures keeps { KeepsLanded self.old.copies self.new.copies }
        ensures notes { length self.new.copies.told ≤ length self.old.copies.told + 1 }
        ensures err { OnErr result (self.new ≡ self.old) }
    {
        let Taken {
            job,
            errand,
            finding,
            accepted,
            mount,
        } = taken;
        let effect = self.find(alloc, job, errand, finding, mount, sessions, here, mech)?;
        Ok(Heard { effect, accepted })
    }

    fn find<M: Mechanism>(
        &mut self,
        alloc: Global,
        job: JobName,
        errand: Errand,
        finding: Finding,
        mount: Mount,
        sessions: &Sessions,
        here: Here,
        mech: &M,
    ) -> Mem<Effect>
        ensures short { IfOk result EffectMaySend }
        ensures found { IfOk result (λ effect. IsFound (record { mic = M.mic_of; derived = M.derived }) (around_of sessions.now here) job errand finding mount self.old effect self.new) }
        ensures given { self.new.copies.book.table.made ≡ self.old.copies.book.table.made }
        ensures keeps { KeepsLanded self.old.copies self.new.copies }
        ensures notes { length self.new.copies.told ≤ length self.old.copies.told + 1 }
        ensures err { OnErr result (self.new ≡ self.old) }
    {
        match finding {
            Finding::Unmatched => Ok(Effect::Drops(Dropped::Unmatched)),
            Finding::GoesOn => Ok(Effect::Goes(mount)),
            Finding::FirstDenial => Ok(Effect::Denied(job, mount)),
            Finding::Stops(cause) => self.stops_by(alloc, job, cause, mount, sessions, here, mech),
            Finding::HasSize(size) => self.sizes(alloc, job, size, mount, sessions, here, mech),
            Finding::Brings(bytes) => self.brings(
                alloc, job, errand, bytes, mount, sessions, here, mech,
            ),
        }
    }

    fn brings<M: Mechanism>(
        &self,
        alloc: Global,
        job: JobName,
        errand: Errand,
        bytes: Octets,
        mount: Mount,
        sessions: &Sessions,
        here: Here,
        mech: &M,
    ) -> Mem<Effect>
        ensures short { IfOk result EffectMaySend }
        ensures effect { IfOk result (λ effect. effect ≡ bytes_due (record { mic = M.mic_of; derived = M.derived }) (around_of sessions.now here) job errand bytes mount self.now) }
    {
        match errand {
            Errand::Setup => Ok(Effect::Goes(mount)),
            Errand::Confirm => Ok(Effect::Goes(mount)),
            Errand::Size => Ok(Effect::Goes(mount)),
            Errand::Bytes(chunk) => {
                let told = self.landing(alloc, job, sessions, here, mech)?;
                Ok(Effect::Lands(job, chunk, bytes, told, mount))
            }
        }
    }

    /// A job is to be stopped, where it still can be.
    fn stops_by<M: Mechanism>(
        &self,
        alloc: Global,
        job: JobName,
        cause: Stop,
        mount: Mount,
        sessions: &Sessions,
        here: Here,
        mech: &M,
    ) -> Mem<Effect>
        ensures short { IfOk result EffectMaySend }
        ensures effect { IfOk result (λ effect. effect ≡ stop_due (record { mic = M.mic_of; derived = M.derived }) (around_of sessions.now here) job cause mount self.now) }
    {
        if !self.copies.book.is_running(job) {
            return Ok(Effect::Goes(mount));
        }
        let told = self.tell_stop(alloc, job, cause, sessions, here, mech)?;
        Ok(Effect::Stops(job, cause, told, mount))
    }

    /// The size of the source's file makes the length known of a job that runs and has none, or stops it.
    fn sizes<M: Mechanism>(
        &mut self,
        alloc: Global,
        job: JobName,
        size: u64,
        mount: Mount,
        sessions: &Sessions,
        here: Here,
        mech: &M,
    ) -> Mem<Effect>
        ensures short { IfOk result EffectMaySend }
        ensures sized { IfOk result (λ effect. IsSizedIf (may_size job self.old) (record { mic = M.mic_of; derived = M.derived }) (around_of sessions.now here) job size mount self.old effect self.new) }
        ensures given { self.new.copies.book.table.made ≡ self.old.copies.book.table.made }
        ensures keeps { KeepsLanded self.old.copies self.new.copies }
        ensures notes { length self.new.copies.told ≤ length self.old.copies.told + 1 }
        ensures err { OnErr result (self.new ≡ self.old) }
    {
        if !self.may_size(job) {
            return Ok(Effect::Goes(mount));
        }
        match self.len_for(job, size) {
            None => Ok(Effect::Goes(mount)),
            Some(Err(cause)) => self.stops_by(alloc, job, cause, mount, sessions, here, mech),
            Some(Ok(len)) => self.size_to(job, len, mount),
        }
    }

    fn may_size(&self, job: JobName) -> bool
        ensures { result ≡ may_size job self.now }
    {
        self.copies.book.is_running(job) && self.copies.book.len(job).is_none()
    }

    fn len_for(&self, job: JobName, size: u64) -> Option<Result<u64, Stop>>
        ensures { result ≡ len_for self.now.copies.book.table.capacity size (named self.now.copies.book.table job) }
    {
        let capacity = self.copies.book.capacity();
        match self.copies.book.plan(job) {
            None => None,
            Some(plan) => Some(len_of(plan, capacity, size)),
        }
    }

    #[tactic(auto, using(dest_jobs::specs::LandedLaws::sizing_lands_none))]
    fn size_to(&mut self, job: JobName, len: u64, mount: Mount) -> Mem<Effect>
        requires there { IsSome (named self.old.copies.book.table job) }
        requires may { IfSome (named self.old.copies.book.table job) (MaySize self.old.copies.book.table.capacity len) }
        ensures short { IfOk result EffectMaySend }
        ensures sized { IfOk result (λ effect. IsSizing len job mount self.old effect self.new) }
        ensures given { self.new.copies.book.table.made ≡ self.old.copies.book.table.made }
        ensures keeps { KeepsLanded self.old.copies self.new.copies }
        ensures notes { length self.new.copies.told ≤ length self.old.copies.told + 1 }
        ensures err { OnErr result (self.new ≡ self.old) }
    {
        self.copies.size(job, len)?;
        Ok(Effect::Goes(mount))
    }

    /// A record is dropped.
    pub(crate) fn drop_record(&mut self, why: Dropped)
        ensures { self.new ≡ dropped why self.old }
    {
        self.copies.note(Note::Dropped { why });
    }

    fn deny(&mut self, job: JobName, mount: Mount)
        ensures { self.new ≡ with_denial job mount self.old }
    {
        self.work.settle_to(mount);
        self.work.seats.deny(job.number);
    }
}

fn dropped(why: Dropped) -> Heard
    ensures { result ≡ record { effect = effects.Drops why; accepted = None } }
{
    Heard {
        effect: Effect::Drops(why),
        accepted: None,
    }
}

/// Whether a record has a head of a call or a reply that can be read.
#[tactic(auto, unfolding(crate::specs::Replying::is_read))]
fn is_read(alloc: Global, record_: &[u8]) -> Mem<bool>
    ensures { IfOk result (λ read. read ≡ is_read record_.now) }
{
    match read_call(alloc, record_)? {
        Ok(_) => Ok(true),
        Err(RpcFault::OtherKind { .. }) => Ok(read_reply(alloc, record_)?.is_ok()),
        Err(RpcFault::BadXdr { .. }) => Ok(false),
    }
}

/// Does what an answer does, and gives what goes out.
#[tactic(auto, using(crate::proofs::Doing::grows_none, crate::proofs::Doing::same_opening, server_volume::specs::MomentLaws::counted_none))]
pub fn take_effect<D: Disk>(
    copier: &mut Copier,
    volume: &mut Volume<D>,
    place: u32,
    effect: Effect,
    used: &mut CallList,
    room: Vec<Outgoing>,
) -> Items<Outgoing>
    requires short { EffectMaySend effect }
    requires place { place < WORKERS }
    requires calls { length used.old < MOST_CALLS }
    requires room { room.items ≡ [] }
    ensures does { D.Told → Does (λ choice. effect_done choice place effect (doing_of copier.old (store_of D.size volume.old) used.old)) copier.new (store_of D.size volume.new) used.new result }
    ensures ran { Counted D.Told (seat_of D.size D.fuse D.timeline D.faults volume.old) (seat_of D.size D.fuse D.timeline D.faults volume.new) used.old used.new }
    ensures grows { Grows used.old used.new }
    ensures short { AreShort result }
    ensures one { records_to (place + 1) result ≤ 1 }
    ensures lands { Lands copier.old.copies copier.new.copies }
    ensures once { length used.new ≤ length used.old + 1 }
    ensures opening { SameOpening volume.old.volume volume.new.volume }
    ensures tag { volume.new.tag ≡ volume.old.tag }
    ensures given { copier.new.copies.book.table.made ≡ copier.old.copies.book.table.made }
{
    match effect {
        Effect::Drops(why) => {
            copier.drop_record(why);
            Items::from_vec(room)
        }
        Effect::Goes(mount) => {
            copier.work.settle_to(mount);
            Items::from_vec(room)
        }
        Effect::Denied(job, mount) => {
            copier.deny(job, mount);
            Items::from_vec(room)
        }
        Effect::Stops(job, cause, told, mount) => {
            copier.work.settle_to(mount);
            copier.stop(job, cause, told)
        }
        Effect::Lands(job, chunk, bytes, told, mount) => {
            copier.work.settle_to(mount);
            land(copier, volume, place, job, chunk, bytes, told, used, room)
        }
    }
}
