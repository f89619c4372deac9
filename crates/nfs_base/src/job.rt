ghost use Rattle.nfs_base.specs.Text.{job_text, stop_text};
ghost use Rattle.std.specs.Prelude.{Some};

use crate::Status;
use std::fmt;

/// A copy job by its name: the boot number of the destination that accepted it, and its number there,
/// counted from 1.
#[derive(Clone, Copy, PartialEq, Eq)]
pub struct JobName {
    pub boot: u32,
    pub number: u32,
}

impl fmt::Display for JobName {
    ghost output = { λ job. Some (job_text job) };

    fn fmt<W: fmt::Write>(&self, f: &mut fmt::Formatter<W>) -> fmt::Result {
        write!(f, "{}.{}", self.boot, self.number)
    }
}

/// Why a job was stopped.
#[derive(Clone, Copy, PartialEq, Eq)]
pub enum Stop {
    /// The client cancelled it (OFFLOAD_CANCEL, RFC 7862 section 15.8).
    Cancelled,

    /// The client's lease ran out.
    LeaseExpired,

    /// The client was ended, by itself or by another of its name.
    ClientGone,

    /// The source refused a call that the job rested on.
    SourceRefused(Status),

    /// A call to the source failed, with this accept_stat (RFC 5531 section 9).
    SourceFailed(u32),

    /// The range to copy ends past the source file's end.
    PastEnd,

    /// The destination file has no room for the range.
    NoRoom,

    /// A call on a disk failed that the job rested on.
    DiskFault,

    /// The link to the source failed.
    LinkFault,

    /// The destination's volume has no number for a further write until it is opened anew.
    Worn,
}

impl fmt::Display for Stop {
    ghost output = { λ stop. Some (stop_text stop) };

    fn fmt<W: fmt::Write>(&self, f: &mut fmt::Formatter<W>) -> fmt::Result {
        match self {
            Stop::Cancelled => f.write_str("cancelled"),
            Stop::LeaseExpired => f.write_str("lease"),
            Stop::ClientGone => f.write_str("gone"),
            Stop::SourceRefused(status) => write!(f, "refused {status}"),
            Stop::SourceFailed(accept_stat) => write!(f, "sourcefault {accept_stat}"),
            Stop::PastEnd => f.write_str("pastend"),
            Stop::NoRoom => f.write_str("noroom"),
            Stop::DiskFault => f.write_str("disk"),
            Stop::LinkFault => f.write_str("link"),
            Stop::Worn => f.write_str("worn"),
        }
    }
}
