//! What a worker is at.

ghost use Rattle.std.specs.Prelude.{◌≡◌};
ghost use Rattle.dest_tasks.specs.Posts.{asks, awaits, confirms, holds, is_idle, is_same, job_in, sets_up, sizes};

use job_book::Chunk;
use nfs_base::JobName;
use wire_xdr::Octets;

/// What a worker asks the source for.
#[derive(Clone, Copy, PartialEq, Eq)]
pub enum Errand {
    /// The next step of the setup.
    Setup,

    /// The context under which the copy is confirmed (copy_confirm_auth, RFC 7862 section 4.10.1.1).
    Confirm,

    /// The size of the source's file.
    Size,

    /// The bytes of a chunk.
    Bytes(Chunk),
}

/// What a worker is at, and for which job.
#[derive(Drop)]
pub enum Post {
    /// Nothing.
    Idle,

    /// It awaits an answer of the source.
    Awaits {
        job: JobName,
        errand: Errand,
    },

    /// It holds the bytes of a chunk, which are to land.
    Holds {
        job: JobName,
        chunk: Chunk,
        bytes: Octets,
    },
}

impl Post {
    pub(crate) fn is_idle(&self) -> bool
        ensures { result ≡ is_idle self.now }
    {
        match self {
            Post::Idle => true,
            Post::Awaits { .. } => false,
            Post::Holds { .. } => false,
        }
    }

    pub(crate) fn holds(&self) -> bool
        ensures { result ≡ holds self.now }
    {
        match self {
            Post::Idle => false,
            Post::Awaits { .. } => false,
            Post::Holds { .. } => true,
        }
    }

    pub(crate) fn awaits(&self) -> bool
        ensures { result ≡ awaits self.now }
    {
        match self {
            Post::Idle => false,
            Post::Awaits { .. } => true,
            Post::Holds { .. } => false,
        }
    }

    /// Whether a step of the setup is awaited.
    pub(crate) fn sets_up(&self) -> bool
        ensures { result ≡ sets_up self.now }
    {
        match self {
            Post::Idle => false,
            Post::Awaits { errand, .. } => matches!(errand, Errand::Setup),
            Post::Holds { .. } => false,
        }
    }

    /// Whether a job's context is awaited.
    pub(crate) fn confirms(&self, name: JobName) -> bool
        ensures { result ≡ confirms name self.now }
    {
        match self {
            Post::Idle => false,
            Post::Awaits { job, errand } => is_same(*job, name)
                && matches!(errand, Errand::Confirm),
            Post::Holds { .. } => false,
        }
    }

    /// Whether the size of a job's file is awaited.
    pub(crate) fn sizes(&self, name: JobName) -> bool
        ensures { result ≡ sizes name self.now }
    {
        match self {
            Post::Idle => false,
            Post::Awaits { job, errand } => is_same(*job, name) && matches!(errand, Errand::Size),
            Post::Holds { .. } => false,
        }
    }

    /// What it awaits, and for which job.
    pub(crate) fn asks(&self) -> Option<(JobName, Errand)>
        ensures { result ≡ asks self.now }
    {
        match self {
            Post::Idle => None,
            Post::Awaits { job, errand } => Some((*job, *errand)),
            Post::Holds { .. } => None,
        }
    }

    /// The job for which it is.
    pub(crate) fn job(&self) -> Option<JobName>
        ensures { result ≡ job_in self.now }
    {
        match self {
            Post::Idle => None,
            Post::Awaits { job, .. } => Some(*job),
            Post::Holds { job, .. } => Some(*job),
        }
    }
}

fn is_same(job: JobName, name: JobName) -> bool
    ensures { result ≡ is_same job name }
{
    job.boot == name.boot && job.number == name.number
}
