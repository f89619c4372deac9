ghost use Rattle.std.specs.Prelude.{◌≡◌, ◌+◌, ◌≤◌, None};
ghost use Rattle.copy_model.specs.Job.{size_of};
ghost use Rattle.job_table.specs.Table.{end_of, job_end, overlaps};

use crate::job::{Job, Plan};

/// Where the range of a plan ends in the destination's file, given the length once it is known.
fn end_of(capacity: u64, plan: &Plan, sized: Option<u64>) -> u128
    ensures { result ≡ end_of capacity plan.now sized }
{
    let from = u128::from(plan.dst_off);
    if plan.count > 0 {
        return from + u128::from(plan.count);
    }
    match sized {
        Some(len) => from + u128::from(len),
        None => u128::from(capacity),
    }
}

/// Whether a new range would have a byte in common with that of a job that runs.
pub(crate) fn overlaps(capacity: u64, plan: &Plan, job: &Job) -> bool
    ensures { result ≡ overlaps capacity plan.now job.now }
{
    if job.log.is_ended() {
        return false;
    }
    if plan.file != job.plan.file {
        return false;
    }
    let from = u128::from(plan.dst_off.max(job.plan.dst_off));
    let to = end_of(capacity, plan, None).min(end_of(capacity, &job.plan, job.log.len()));
    from < to
}
