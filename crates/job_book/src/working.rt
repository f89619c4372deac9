//! What comes about in a job on its way.

ghost use Rattle.std.specs.Prelude.{◌≡◌, None, true, IfSome, IsSome, MatchOption, OnErr, OnOk};
ghost use Rattle.copy_model.specs.Job.{AllowsCommit, Committed};
ghost use Rattle.job_log.specs.Log.{after_landing, given_back, sized, with_entry};
ghost use Rattle.std.specs.Bool.{OnFalse, OnTrue};
ghost use Rattle.job_table.specs.Table.{CanSize, GetsRoom, is_ended, is_running, table_landing};
ghost use Rattle.job_book.specs.Book.{id_of, named};
ghost use Rattle.job_book.specs.Working.{claimed, is_whole, next_chunk, size_in, stopped, with_its};

use crate::book::{Book, id_of};
use job_log::{Chunk, Landing};
use job_table::Plan;
use nfs_base::{JobName, Stop};
use outcome::Mem;

impl Book {
    /// What was asked for.
    pub fn plan(&self, name: JobName) -> Option<&Plan>
        ensures found { IfSome result (λ plan. IfSome (named self.now.table name) (λ job. plan.now ≡ job.plan)) }
        ensures exactly { MatchOption result (named self.now.table name ≡ None) (λ _. IsSome (named self.now.table name)) }
    {
        self.jobs.plan(id_of(name))
    }

    /// The length of a job's range in bytes, once it is known.
    pub fn len(&self, name: JobName) -> Option<u64>
        ensures { result ≡ size_in (named self.now.table name) }
    {
        self.jobs.len(id_of(name))
    }

    /// Whether a job's length is known and each of its chunks has landed.
    pub fn is_whole(&self, name: JobName) -> bool
        ensures whole { result ≡ is_whole (named self.now.table name) }
        ensures commits { result ≡ true → IfSome (named self.now.table name) (λ job. AllowsCommit job.log.entries) }
    {
        copy_model::first_chunks();
        self.jobs.is_whole(id_of(name))
    }

    /// Whether a job is there that was stopped or committed.
    pub fn is_ended(&self, name: JobName) -> bool
        ensures { result ≡ is_ended self.now.table (id_of name) }
    {
        self.jobs.is_ended(id_of(name))
    }

    /// Claims a job's next chunk. None where the job is retired, isn't sized or has ended, and where each chunk has landed
    /// or is claimed.
    pub fn claim(&mut self, name: JobName) -> Option<Chunk>
        ensures chunk { result ≡ next_chunk (named self.old.table name) }
        ensures claimed { self.new ≡ claimed result name self.old }
    {
        self.jobs.claim(id_of(name))
    }

    /// Gives a claim back. A chunk that isn't claimed changes nothing.
    pub fn give_back(&mut self, name: JobName, chunk: Chunk)
        ensures { self.new ≡ with_its name (λ log. given_back log chunk) self.old }
    {
        self.jobs.give_back(id_of(name), chunk);
    }

    /// What landing this chunk would answer.
    pub fn landing(&self, name: JobName, chunk: Chunk) -> Landing
        ensures { result ≡ table_landing self.now.table (id_of name) chunk }
    {
        self.jobs.landing(id_of(name), chunk)
    }

    /// Lands a chunk, where it isn't late and doesn't have to wait.
    pub fn land(&mut self, name: JobName, chunk: Chunk) -> Landing
        ensures answer { result ≡ table_landing self.old.table (id_of name) chunk }
        ensures done { self.new ≡ with_its name (λ log. after_landing log chunk result) self.old }
    {
        self.jobs.land(id_of(name), chunk)
    }

    /// The capacity of each file in bytes.
    pub fn capacity(&self) -> u64
        ensures { result ≡ self.now.table.capacity }
    {
        self.jobs.capacity()
    }

    /// Makes the room that a job of this length needs.
    pub fn reserve(&mut self, name: JobName, len: u64) -> Mem<()>
        requires { IsSome (named self.old.table name) }
        ensures room { OnOk result (GetsRoom self.old.table self.new.table (id_of name) len) }
        ensures past { self.new.past ≡ self.old.past }
        ensures err { OnErr result (self.new ≡ self.old) }
    {
        self.jobs.reserve(id_of(name), len)
    }

    /// Whether a job is there that can get this length.
    pub fn can_size(&self, name: JobName, len: u64) -> bool
        ensures there { OnTrue result (IsSome (named self.now.table name)) }
        ensures yes { OnTrue result (IfSome (named self.now.table name) (λ job. CanSize self.now.table.capacity job len)) }
        ensures no { OnFalse result (IfSome (named self.now.table name) (λ job. CanSize self.now.table.capacity job len → ⊥)) }
    {
        self.jobs.can_size(id_of(name), len)
    }

    /// Makes the length of a job's range known: the count that was asked for where that isn't 0.
    pub fn size(&mut self, name: JobName, len: u64)
        requires there { IsSome (named self.old.table name) }
        requires can { IfSome (named self.old.table name) (λ job. CanSize self.old.table.capacity job len) }
        ensures { self.new ≡ with_its name (λ log. sized log len) self.old }
    {
        self.jobs.size(id_of(name), len);
    }

    /// Stops a job: nothing of it lands any more.
    pub fn stop(&mut self, name: JobName, cause: Stop)
        requires { is_running self.old.table (id_of name) ≡ true }
        ensures { self.new ≡ with_its name (λ log. stopped cause log) self.old }
    {
        self.jobs.stop(id_of(name), cause);
    }

    /// Notes that all of a job landed and was committed.
    pub fn committed(&mut self, name: JobName)
        requires running { is_running self.old.table (id_of name) ≡ true }
        requires landed { IfSome (named self.old.table name) (λ job. AllowsCommit job.log.entries) }
        ensures { self.new ≡ with_its name (λ log. with_entry log Committed) self.old }
    {
        self.jobs.committed(id_of(name));
    }
}
