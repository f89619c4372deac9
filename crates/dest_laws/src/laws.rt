//! Laws of a destination's steps.

ghost use Rattle.std.specs.Prelude.{◌≡◌, ◌≤◌, ℕ, false, length, true, Bool, List, None, Option, Some};
ghost use Rattle.copy_ops.specs.declared.args.CopyArgs.{CopyArgs};
ghost use Rattle.dest_back.specs.declared.hearing.Hearing.{Hearing};
ghost use Rattle.dest_jobs.specs.Copying.{copied};
ghost use Rattle.dest_jobs.specs.Ending.{end_all};
ghost use Rattle.dest_jobs.specs.Offloads.{after_cancel};
ghost use Rattle.dest_jobs.specs.declared.carried.Carried.{Carried};
ghost use Rattle.dest_jobs.specs.declared.copies.Copies.{Copies};
ghost use Rattle.dest_jobs.specs.declared.copying.CopyRoom.{CopyRoom};
ghost use Rattle.dest_jobs.specs.declared.copying.Ends.{Ends};
ghost use Rattle.dest_laws.specs.Deeds.{book_in, ByDeeds, GoesWithin};
ghost use Rattle.dest_laws.specs.Going.{is_rest, CanAskAll, CanCall};
ghost use Rattle.dest_steps.specs.Copier.{Around, Codes};
ghost use Rattle.dest_steps.specs.Failing.{link_failed};
ghost use Rattle.dest_steps.specs.Hearing.{hearing_done};
ghost use Rattle.dest_steps.specs.Landing.{target, target_file, Doing};
ghost use Rattle.dest_steps.specs.Replying.{effect_done, IsHeard};
ghost use Rattle.dest_steps.specs.Working.{may_commit, turn_made};
ghost use Rattle.dest_steps.specs.declared.copier.Copier.{Copier};
ghost use Rattle.dest_steps.specs.declared.failing.Failing.{Failing};
ghost use Rattle.dest_steps.specs.declared.landing.Landing.{Landing};
ghost use Rattle.dest_steps.specs.declared.replying.Effect.TheVariants as effects;
ghost use Rattle.dest_steps.specs.declared.replying.Effect.{Effect};
ghost use Rattle.dest_steps.specs.declared.replying.Heard.{Heard};
ghost use Rattle.dest_steps.specs.declared.turning.Committing.{Committing};
ghost use Rattle.dest_steps.specs.declared.turning.Turn.TheVariants as turns;
ghost use Rattle.dest_steps.specs.declared.turning.Turn.{Turn};
ghost use Rattle.dest_tasks.specs.Completing.{chunks_left, Commits, Does, Lands};
ghost use Rattle.dest_tasks.specs.Posts.{holds, post_at};
ghost use Rattle.dest_tasks.specs.declared.post.Post.TheVariants.{Holds};
ghost use Rattle.dest_tasks.specs.declared.tasks.Task.{Task};
ghost use Rattle.dest_work.specs.Work.{task_at, turn};
ghost use Rattle.dest_work.specs.declared.work.Work.{Work};
ghost use Rattle.gss_ctx.specs.Seals.{Mic};
ghost use Rattle.job_book.specs.Book.{BookView, IsSound, id_of, named};
ghost use Rattle.job_book.specs.Working.{size_in};
ghost use Rattle.job_log.specs.declared.chunk.Chunk.{Chunk};
ghost use Rattle.job_log.specs.declared.chunk.Landing.TheVariants as takes;
ghost use Rattle.job_table.specs.Table.{table_landing};
ghost use Rattle.mount.specs.State.{awaited_at, has_numbers, Mounted};
ghost use Rattle.mount.specs.declared.machine.SendAt.{SendAt};
ghost use Rattle.nfs_base.specs.declared.job.JobName.{JobName};
ghost use Rattle.nfs_base.specs.declared.job.Stop.{Stop};
ghost use Rattle.nfs_base.specs.declared.status.Status.{Status};
ghost use Rattle.server_volume.specs.Calls.{commit_call, write_call};
ghost use Rattle.server_volume.specs.Choices.{Choice};
ghost use Rattle.sess_slots.specs.Table.{SessionTable};

/// Whatever a step of a destination does to its jobs is a list of deeds.
pub fn steps_are_deeds()
    // A worker's turn: what is due, by which a chunk is claimed, and what is done.
    ensures due { (mic : Mic) (at : SendAt) (me : List ℕ) (sessions : SessionTable) (w : Work) (b : BookView) → ByDeeds b (turn mic at me sessions w b).book }
    ensures turn { (choice : Choice) (place : ℕ) (turn : Turn) (d : Doing) → ByDeeds (book_in d) (book_in (turn_made choice place turn d).doing) }
    // A record of the source: what is heard, by which a length becomes known, and what is done.
    ensures heard { (codes : Codes) (finished : List ℕ → List ℕ → Option (List ℕ)) (around : Around) (place : ℕ) (message : List ℕ) (old : Copier) (heard : Heard) (new : Copier)
        → IsHeard codes finished around place message old heard new → ByDeeds old.copies.book new.copies.book }
    ensures effect { (choice : Choice) (place : ℕ) (effect : Effect) (d : Doing) → ByDeeds (book_in d) (book_in (effect_done choice place effect d).doing) }
    // A link that failed, and a client's reply.
    ensures failure { (place : ℕ) (failing : Failing) (x : Copier) → ByDeeds x.copies.book (link_failed place failing x).0.copies.book }
    ensures reply { (boot : ℕ) (hearing : Hearing) (x : Copier) → ByDeeds x.copies.book (hearing_done boot hearing x).0.copies.book }
    // COPY, OFFLOAD_CANCEL, and the end of clients.
    ensures copy { (client : ℕ) (carry : Option Carried) (args : CopyArgs) (ends : Ends) (room : CopyRoom) (closed : Option Status) (boot : ℕ) (x : Copies)
        → ByDeeds x.book (copied client carry args ends room closed boot x).0.book }
    ensures cancel { (job : Option JobName) (x : Copies) → ByDeeds x.book (after_cancel job x).book }
    ensures clients { (test : ℕ → Bool) (cause : Stop) (x : Copies) → ByDeeds x.book (end_all test cause x).book }
{
    dest_tasks::chunks_are_next();
}

/// No step of a destination gives more than one entry to its jobs, and none but COPY takes a copy: in a worker's turn what is due
/// gives none and what is done one at most, and a record of the source, heard and done, one at most.
pub fn steps_give_one_entry()
    ensures due { (mic : Mic) (at : SendAt) (me : List ℕ) (sessions : SessionTable) (w : Work) (b : BookView) → GoesWithin 0 0 b (turn mic at me sessions w b).book }
    ensures turn { (choice : Choice) (place : ℕ) (turn : Turn) (d : Doing) → GoesWithin 0 1 (book_in d) (book_in (turn_made choice place turn d).doing) }
    ensures heard { (choice : Choice) (codes : Codes) (finished : List ℕ → List ℕ → Option (List ℕ)) (around : Around) (place : ℕ) (message : List ℕ) (old : Copier) (heard : Heard) (new : Copier) (d : Doing)
        → IsHeard codes finished around place message old heard new → d.copier ≡ new
        → GoesWithin 0 1 old.copies.book (book_in (effect_done choice place heard.effect d).doing) }
    ensures failure { (place : ℕ) (failing : Failing) (x : Copier) → GoesWithin 0 1 x.copies.book (link_failed place failing x).0.copies.book }
    ensures reply { (boot : ℕ) (hearing : Hearing) (x : Copier) → GoesWithin 0 0 x.copies.book (hearing_done boot hearing x).0.copies.book }
    ensures copy { (client : ℕ) (carry : Option Carried) (args : CopyArgs) (ends : Ends) (room : CopyRoom) (closed : Option Status) (boot : ℕ) (x : Copies)
        → GoesWithin 1 0 x.book (copied client carry args ends room closed boot x).0.book }
    ensures cancel { (job : Option JobName) (x : Copies) → GoesWithin 0 0 x.book (after_cancel job x).book }
    ensures clients { (test : ℕ → Bool) (cause : Stop) (x : Copies) → GoesWithin 0 0 x.book (end_all test cause x).book }
{
    dest_tasks::chunks_are_next();
}

/// A task that a worker finds which awaits and holds nothing is done: a call goes out by it or is to be begun, or its job is to be
/// committed. That wants numbers, contexts that are there, and what a call can carry.
pub fn found_tasks_go_out()
    ensures { (mic : Mic) (at : SendAt) (me : List ℕ) (sessions : SessionTable) (w : Work) (b : BookView) (task : Task)
        → awaited_at w.mount at.place ≡ None → holds (post_at w.workers at.place) ≡ false → has_numbers w.mount.standing at.place ≡ true
        → CanCall w.mount → CanAskAll mic w b → task_at sessions at.now w b ≡ Some task → is_rest (turn mic at me sessions w b).told.0 ≡ false }
{
    dest_tasks::chunks_are_next();
}

/// So no step raises how many chunks of a job are left, once its length is known.
pub fn chunks_left_never_rise()
    ensures { (name : JobName) (len : ℕ) (b c : BookView) → IsSound b.table → size_in (named b.table name) ≡ Some len → ByDeeds b c
        → chunks_left (named c.table name) ≤ chunks_left (named b.table name) }
{}

/// A chunk that the source brought lands where the job takes it and the volume writes it, and one that a worker holds lands in
/// its turn. A job that runs and is whole is committed where the volume does that.
pub fn chunks_land()
    ensures brought { (choice : Choice) (place : ℕ) (job : JobName) (chunk : Chunk) (bytes : List ℕ) (told : Landing) (m : Mounted) (at : ℕ × ℕ) (d : Doing)
        → table_landing (book_in d).table (id_of job) chunk ≡ takes.Landed → target d.store chunk (length bytes) (named (book_in d).table job) ≡ Some at
        → (write_call choice d.used d.store at.0 at.1 bytes).fault ≡ None
        → Does (Lands job chunk) (book_in d) (book_in (effect_done choice place (effects.Lands job chunk bytes (Some told) m) d).doing) }
    ensures held { (choice : Choice) (place : ℕ) (job : JobName) (chunk : Chunk) (bytes : List ℕ) (told : Landing) (at : ℕ × ℕ) (d : Doing)
        → post_at d.copier.work.workers place ≡ Holds job chunk bytes
        → table_landing (book_in d).table (id_of job) chunk ≡ takes.Landed → target d.store chunk (length bytes) (named (book_in d).table job) ≡ Some at
        → (write_call choice d.used d.store at.0 at.1 bytes).fault ≡ None
        → Does (Lands job chunk) (book_in d) (book_in (turn_made choice place (turns.Lands (Some told)) d).doing) }
    ensures committed { (choice : Choice) (place : ℕ) (job : JobName) (told : Committing) (file : ℕ) (d : Doing) → may_commit job d.copier ≡ true
        → target_file d.store (named (book_in d).table job) ≡ Some file → (commit_call choice d.used d.store file).fault ≡ None
        → Does (Commits job) (book_in d) (book_in (turn_made choice place (turns.Commits job told) d).doing) }
{}
