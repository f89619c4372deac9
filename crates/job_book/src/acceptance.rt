use nfs_base::JobName;

/// What becomes of a copy that is asked for.
#[derive(Clone, Copy, PartialEq, Eq)]
pub enum Acceptance {
    /// It is a job now.
    Accepted(JobName),

    /// Its range has a byte in common with that of this job, which runs.
    Overlap(JobName),

    /// There are sixteen jobs that aren't retired.
    Full,

    /// Its range passes the capacity of the file.
    TooFar,
}
