//! What is queued, what happens to it, and what is told of it.

ghost use Rattle.std.specs.Prelude.{◌≡◌};
ghost use Rattle.write_queue.specs.Queue.{file_of};

use nfs_base::Status;
use wire_xdr::Octets;

/// What is to be done to a file of a server.
#[derive(Drop)]
pub enum Work {
    /// WRITE of these bytes at an offset in bytes (RFC 8881 section 18.32).
    Write {
        file: u32,
        offset: u64,
        bytes: Octets,
    },

    /// COMMIT of the whole file (RFC 8881 section 18.3).
    Commit {
        file: u32,
    },
}

impl Work {
    /// The file, by its number.
    pub fn file(&self) -> u32
        ensures { result ≡ file_of self.now }
    {
        match self {
            Work::Write { file, .. } | Work::Commit { file } => *file,
        }
    }
}

/// What happens to the first work.
#[derive(Clone, Copy)]
pub enum QueueEvent {
    /// OPEN of its file went out.
    OpenSent,

    /// That OPEN was answered OK.
    Opened,

    /// The work itself went out.
    Sent,

    /// WRITE was answered OK: so many bytes were written, under this verifier.
    Written { count: u32, verifier: [u8; 8] },

    /// COMMIT was answered OK, with this verifier.
    Committed { verifier: [u8; 8] },

    /// The OPEN or the work came to nothing, with this status.
    Refused(Status),
}

/// What is told of a work that was answered.
#[derive(Clone, Copy)]
pub enum Line {
    /// A WRITE of so many bytes.
    Written { file: u32, count: u32 },

    /// A COMMIT: whether its verifier is that of each WRITE of the file which was answered since the last such line.
    Committed { file: u32, same: bool },

    /// Either, refused with this status.
    Refused { file: u32, status: Status },
}
