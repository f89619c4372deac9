//! Laws of tasks.

ghost use Rattle.std.specs.Prelude.{◌≡◌, ℕ, ◌+◌, false, true, IfSome, IsSome, List, Some};
ghost use Rattle.copy_model.specs.Job.{chunks_of};
ghost use Rattle.copy_model.specs.Marks.{is_committed};
ghost use Rattle.job_book.specs.Book.{BookView, IsSound, id_of, named};
ghost use Rattle.job_book.specs.Working.{claimed, is_whole, next_chunk, size_in, with_its};
ghost use Rattle.job_log.specs.Log.{given_back};
ghost use Rattle.job_log.specs.declared.chunk.Chunk.{Chunk};
ghost use Rattle.job_table.specs.Table.{is_running};
ghost use Rattle.nfs_base.specs.declared.job.JobName.{JobName};
ghost use Rattle.dest_tasks.specs.Completing.{chunks_left, landings_in, Commits, Deed, Does, GoesOn, Sizes};
ghost use Rattle.dest_tasks.specs.declared.tasks.Sight.{Sight};
ghost use Rattle.dest_tasks.specs.declared.tasks.Task.TheVariants.{Commit, Read};
ghost use Rattle.dest_tasks.specs.Tasks.{asking_task, job_task, or_else, task_from};

/// A chunk that is to be read is the next one of its job.
pub fn chunks_are_next()
    ensures { (see : JobName → Sight) (left after : ℕ) (b : BookView) (name : JobName) (chunk : Chunk) → task_from see left after b ≡ Some (Read name chunk) → next_chunk (named b.table name) ≡ Some chunk }
{}

/// A job's next chunk that is claimed and given back leaves the book as it was.
pub fn claims_go_back()
    ensures { (b : BookView) (name : JobName) (chunk : Chunk) → next_chunk (named b.table name) ≡ Some chunk → with_its name (λ log. given_back log chunk) (claimed (Some chunk) name b) ≡ b }
{}

/// A job whose commit is found runs, and each of its chunks has landed.
pub fn commits_are_whole()
    ensures running { (see : JobName → Sight) (left after : ℕ) (b : BookView) (name : JobName) → task_from see left after b ≡ Some (Commit name)
        → is_running b.table (id_of name) ≡ true }
    ensures whole { (see : JobName → Sight) (left after : ℕ) (b : BookView) (name : JobName) → task_from see left after b ≡ Some (Commit name)
        → is_whole (named b.table name) ≡ true }
{}

/// A job whose length is known completes with as many landings as it has chunks, and with the commit that a worker then finds,
/// whatever else is done meanwhile, to this job and to others, that doesn't end it.
pub fn sized_jobs_complete()
    // Once its length is known all of its chunks are left.
    ensures begun { (name : JobName) (spare len : ℕ) (b c : BookView) → IsSound b.table → IsSome (named b.table name) → Does (Sizes spare len name) b c
        → chunks_left (named c.table name) ≡ chunks_of len }
    // Each landing of one of its chunks lowers by one how many are left, and nothing else changes that.
    ensures left { (name : JobName) (len : ℕ) (deeds : List Deed) (b c : BookView) → GoesOn name len deeds b c
        → chunks_left (named c.table name) + landings_in name deeds ≡ chunks_left (named b.table name) }
    ensures sized { (name : JobName) (len : ℕ) (deeds : List Deed) (b c : BookView) → GoesOn name len deeds b c
        → size_in (named c.table name) ≡ Some len }
    ensures running { (name : JobName) (len : ℕ) (deeds : List Deed) (b c : BookView) → GoesOn name len deeds b c
        → is_running c.table (id_of name) ≡ is_running b.table (id_of name) }
    // With as many landings as chunks were left, all has landed.
    ensures whole { (name : JobName) (len : ℕ) (deeds : List Deed) (b c : BookView) → GoesOn name len deeds b c
        → landings_in name deeds ≡ chunks_left (named b.table name) → is_whole (named c.table name) ≡ true }
    // Then its task is to commit, once nothing is to be asked for it: a session or its context at the source.
    ensures task { (see : JobName → Sight) (b : BookView) (name : JobName) → is_running b.table (id_of name) ≡ true → is_whole (named b.table name) ≡ true
        → (see name).gone ≡ false → job_task see name b ≡ or_else (asking_task (see name) true name) (Some (Commit name)) }
    // By that it's completed.
    ensures committed { (name : JobName) (b c : BookView) → IsSome (named b.table name) → Does (Commits name) b c
        → IfSome (named c.table name) (λ job. is_committed job.log.entries ≡ true) }
{}
