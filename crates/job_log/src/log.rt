ghost use Rattle.std.specs.Prelude.{◌≡◌, ◌+◌, ◌*◌, ◌/◌, ◌<◌, ◌≤◌, ◌^◌, [], None, Some, IfOk, OnOk, OnErr, IfSome, IfNone, nat_le, true, false};
ghost use Rattle.std.specs.Bool.{OnTrue, OnFalse};
ghost use Rattle.copy_model.specs.Job.{Sized, Stopped, Committed, Reported, size_of, has_ended, is_reported, landed_bytes, chunk_len, chunk_size, chunks_of, IsLawful, AllowsCommit};
ghost use Rattle.job_log.specs.Log.{total, is_claimed, waits, landing_of, with_entry, with_claim, landed, after_landing, given_back, sized, IsNextClaim, HasNoClaim, ClaimsAreNew};

use crate::{Bits, Chunk, Landing};
use copy_model::logs_grow;
use nfs_base::{CHUNK_SIZE, Stop};
use outcome::Mem;
use std::alloc::Global;
use std::marker::Model;

/// What came about in a job.
#[derive(Clone, Copy)]
enum Entry {
    Sized(u64),
    Landed(Chunk),
    Stopped,
    Committed,
    Reported,
}

/// The log of one copy job, with its claims.
#[derive(Drop)]
pub struct JobLog {
    consecutive: bool,
    entries: Vec<Entry>,
    claimed: Bits,
    landed: Bits,

    // Each chunk of an earlier word has landed or is claimed.
    first: usize,
    len: Option<u64>,
    bytes: u64,
    ended: bool,
    reported: bool,
    cause: Option<Stop>,
    spare: u64,
}

impl Model for JobLog {
    ghost use Rattle.std.specs.Prelude.{vec_capacity};
    ghost use Rattle.job_log.specs.Log.{JobView};
    ghost use Rattle.job_log.specs.Kept.{view_of, entries_of, IsKept};

    ghost Value = { JobView };

    ghost view = { λ l. view_of l.consecutive l.entries.items l.cause l.claimed l.spare };

    ghost invariant = { λ l. IsKept l.consecutive (entries_of l.entries.items) l.claimed l.landed l.first l.len l.bytes l.ended l.reported l.spare (vec_capacity l.entries) };
}

impl JobLog {
    /// The log of a job that was just accepted. It takes the room for the entries that every job may have.
    pub fn new(alloc: Global, consecutive: bool) -> Mem<JobLog>
        ensures { IfOk result (λ log. log ≡ record { consecutive = consecutive; entries = []; cause = None; claims = []; spare = 0 }) }
    {
        logs_grow();
        Ok(JobLog {
            consecutive,
            entries: Vec::with_capacity(alloc, 4)?,
            claimed: Bits::new(alloc),
            landed: Bits::new(alloc),
            first: 0,
            len: None,
            bytes: 0,
            ended: false,
            reported: false,
            cause: None,
            spare: 0,
        })
    }

    /// Makes the room for a range of this length.
    pub fn reserve(&mut self, len: u64) -> Mem<()>
        ensures same { self.new ≡ record self.old { spare = self.new.spare } }
        ensures room { OnOk result (len ≤ self.new.spare) }
        ensures stays { self.old.spare ≤ self.new.spare }
        ensures err { OnErr result (self.new ≡ self.old) }
    {
        if len <= self.spare {
            return Ok(());
        }
        let chunks = chunk_count(len);
        self.claimed.reserve(chunks)?;
        self.landed.reserve(chunks)?;
        self.entries.reserve(chunks + 4)?;
        self.spare = len;
        Ok(())
    }

    /// Makes the length of the copied range known, in bytes.
    pub fn size(&mut self, len: u64)
        requires not_sized { size_of self.old.entries ≡ None }
        requires running { has_ended self.old.entries ≡ false }
        requires room { len ≤ self.old.spare }
        ensures done { self.new ≡ sized self.old len }
        ensures known { size_of self.new.entries ≡ Some len }
    {
        logs_grow();
        let chunks = chunk_count(len);
        self.claimed.reset(chunks);
        self.landed.reset(chunks);
        self.first = 0;
        self.len = Some(len);
        self.entries.push(Entry::Sized(len)).unwrap();
    }

    /// Claims the lowest chunk that is neither landed nor claimed. None where the job isn't sized or has
    /// ended, and where each chunk has landed or is claimed.
    pub fn claim(&mut self) -> Option<Chunk>
        ensures next { IfSome result (λ chunk. IsNextClaim self.old chunk) }
        ensures claimed { IfSome result (λ chunk. self.new ≡ with_claim self.old chunk true) }
        ensures none { IfNone result (HasNoClaim self.old) }
        ensures same { IfNone result (self.new ≡ self.old) }
    {
        if self.ended {
            return None;
        }
        let at = self.claimed.first_free(&self.landed, self.first)?;
        let total = self.len.unwrap();
        self.first = at / 64;
        self.claimed.set(at);
        Some(chunk_at(at, total))
    }

    /// Gives a claim back. A chunk that isn't claimed changes nothing.
    pub fn give_back(&mut self, chunk: Chunk)
        ensures { self.new ≡ given_back self.old chunk }
    {
        if self.is_claimed(chunk) {
            let at = (chunk.off / CHUNK_SIZE) as usize;
            self.claimed.clear(at);
            self.first = self.first.min(at / 64);
        }
    }

    /// Whether this chunk is claimed.
    pub fn is_claimed(&self, chunk: Chunk) -> bool
        ensures claimed { result ≡ is_claimed self.now chunk }
    {
        let at = (chunk.off / CHUNK_SIZE) as usize;
        chunk.off % CHUNK_SIZE == 0
            && at < self.claimed.len()
            && self.claimed.get(at)
            && u64::from(chunk.len) == (self.len.unwrap() - chunk.off).min(CHUNK_SIZE)
    }

    /// Whether a chunk has to wait for an earlier one.
    fn waits(&self, chunk: Chunk) -> bool
        requires { is_claimed self.now chunk ≡ true }
        ensures { result ≡ waits self.now chunk }
    {
        let at = (chunk.off / CHUNK_SIZE) as usize;
        if !self.consecutive {
            return false;
        }
        if at == 0 {
            return false;
        }
        !self.landed.get(at - 1)
    }

    /// What landing this chunk would answer: `Late` where the job has ended or the chunk isn't claimed, `Held`
    /// where the job is consecutive and an earlier chunk hasn't landed.
    pub fn landing(&self, chunk: Chunk) -> Landing
        ensures { result ≡ landing_of self.now chunk }
    {
        if self.ended || !self.is_claimed(chunk) {
            return Landing::Late;
        }
        if self.waits(chunk) {
            return Landing::Held;
        }
        Landing::Landed
    }

    /// Lands a chunk, where it isn't late and doesn't have to wait.
    pub fn land(&mut self, chunk: Chunk) -> Landing
        ensures answer { result ≡ landing_of self.old chunk }
        ensures done { self.new ≡ after_landing self.old chunk result }
    {
        let landing = self.landing(chunk);
        match landing {
            Landing::Landed => self.note_landed(chunk),
            Landing::Held | Landing::Late => {}
        }
        landing
    }

    fn note_landed(&mut self, chunk: Chunk)
        requires claimed { is_claimed self.old chunk ≡ true }
        requires ready { waits self.old chunk ≡ false }
        requires running { has_ended self.old.entries ≡ false }
        ensures { self.new ≡ landed self.old chunk }
    {
        logs_grow();
        let at = (chunk.off / CHUNK_SIZE) as usize;
        self.claimed.clear(at);
        self.landed.set(at);
        self.bytes += u64::from(chunk.len);
        self.entries.push(Entry::Landed(chunk)).unwrap();
    }

    /// Stops the job: nothing of it lands any more.
    pub fn stop(&mut self, cause: Stop)
        requires { has_ended self.old.entries ≡ false }
        ensures { self.new ≡ record (with_entry self.old Stopped) { cause = Some cause } }
    {
        logs_grow();
        self.ended = true;
        self.cause = Some(cause);
        self.entries.push(Entry::Stopped).unwrap();
    }

    /// Notes that all of the job landed and was committed.
    pub fn commit(&mut self)
        requires running { has_ended self.old.entries ≡ false }
        requires landed { AllowsCommit self.old.entries }
        ensures { self.new ≡ with_entry self.old Committed }
    {
        logs_grow();
        self.ended = true;
        self.entries.push(Entry::Committed).unwrap();
    }

    /// Notes that the client was told of the end.
    pub fn report(&mut self)
        requires ended { has_ended self.old.entries ≡ true }
        requires not_reported { is_reported self.old.entries ≡ false }
        ensures { self.new ≡ with_entry self.old Reported }
    {
        logs_grow();
        self.reported = true;
        self.entries.push(Entry::Reported).unwrap();
    }

    /// How many bytes have landed. The entries are lawful, and each claim names a chunk that hasn't landed.
    pub fn landed(&self) -> u64
        ensures value { result ≡ landed_bytes self.now.entries }
        ensures lawful { IsLawful self.now.consecutive self.now.entries }
        ensures claims { ClaimsAreNew self.now }
    {
        self.bytes
    }

    /// The length of the copied range in bytes, once it is known.
    pub fn len(&self) -> Option<u64>
        ensures { result ≡ size_of self.now.entries }
    {
        self.len
    }

    /// Whether there is room for a range of this length.
    pub fn has_room(&self, len: u64) -> bool
        ensures { result ≡ nat_le len self.now.spare }
    {
        len <= self.spare
    }

    /// Whether the job was stopped or committed.
    pub fn is_ended(&self) -> bool
        ensures { result ≡ has_ended self.now.entries }
    {
        self.ended
    }

    /// Whether the client was told of the end.
    pub fn is_reported(&self) -> bool
        ensures { result ≡ is_reported self.now.entries }
    {
        self.reported
    }

    /// Whether the length is known and each chunk has landed.
    pub fn is_whole(&self) -> bool
        ensures yes { OnTrue result (AllowsCommit self.now.entries) }
        ensures no { OnFalse result (AllowsCommit self.now.entries → ⊥) }
    {
        match self.len {
            Some(len) => self.bytes == len,
            None => false,
        }
    }

    /// Why the job was stopped, if it was.
    pub fn cause(&self) -> Option<Stop>
        ensures { result ≡ self.now.cause }
    {
        self.cause
    }
}

/// How many chunks a range of this length has.
fn chunk_count(len: u64) -> usize
    ensures { result ≡ chunks_of len }
{
    len.div_ceil(CHUNK_SIZE) as usize
}

/// The chunk of this number, of a range of this length.
fn chunk_at(at: usize, total: u64) -> Chunk
    requires { at * chunk_size < total }
    ensures off { result.off ≡ at * chunk_size }
    ensures len { result.len ≡ chunk_len total (at * chunk_size) }
{
    let off = at as u64 * CHUNK_SIZE;
    Chunk {
        off,
        len: (total - off).min(CHUNK_SIZE) as u32,
    }
}
