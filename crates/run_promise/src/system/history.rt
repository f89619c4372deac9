ghost use Rattle.std.specs.Prelude.{◌≡◌, ◌+◌, ◌<◌, ◌≤◌, ◌||◌, ℕ, Bool, List, false, length, slice_index_or};
ghost use Rattle.dest_laws.specs.Histories.Linked.{GoOn, IsSeenAs, looked_up as seen_as, name_at};
ghost use Rattle.dest_laws.specs.Histories.Seen.{seen_in};
ghost use Rattle.dest_laws.specs.View.View.{plan_seen};
ghost use Rattle.job_table.specs.Table.{JobTable};
ghost use Rattle.nfs_base.specs.declared.job.JobName.{JobName};
ghost use Rattle.run_promise.specs.System.Listing.{listed_in};
ghost use Rattle.wire_machine.specs.History.{Listed, jobs_after, no_job, seen_next};
ghost use Rattle.wire_model.specs.Copies.{Job};

/// What is seen after a step is as many copies as numbers were given out: at each place what was seen there, as it goes on, and
/// past them nothing.
pub fn histories_are_folds()
    ensures count { (listed : List Listed) (stable : JobName → Bool) (boot made : ℕ) (jobs : List Job) → length jobs ≤ made
        → length (jobs_after listed stable boot made jobs) ≡ made }
    ensures each { (listed : List Listed) (stable : JobName → Bool) (boot made : ℕ) (jobs : List Job) (place : ℕ) → place < made
        → slice_index_or (jobs_after listed stable boot made jobs) place no_job ≡ seen_next listed stable boot (place + 1) (slice_index_or jobs place no_job) }
    ensures past { (listed : List Listed) (stable : JobName → Bool) (boot made : ℕ) (jobs : List Job) (place : ℕ) → length jobs ≤ made → made ≤ place
        → slice_index_or (jobs_after listed stable boot made jobs) place no_job ≡ no_job }
{}

/// What is seen goes on as the table's jobs show it, and is marked stable where it was, or is now.
pub fn histories_show_jobs()
    ensures on { (stable : JobName → Bool) (before now : JobTable) (jobs : List Job) → length jobs ≡ before.made → before.made ≤ now.made
        → GoOn plan_seen before now (λ place. slice_index_or jobs place no_job)
        (λ place. slice_index_or (jobs_after (listed_in now) stable now.boot now.made jobs) place no_job) }
    ensures marked { (stable : JobName → Bool) (now : JobTable) (jobs : List Job) (place : ℕ) → place < now.made
        → (slice_index_or (jobs_after (listed_in now) stable now.boot now.made jobs) place no_job).stable
        ≡ ((slice_index_or jobs place no_job).stable || stable (name_at now.boot place)) }
{
    histories_are_folds();
}
