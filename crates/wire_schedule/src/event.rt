ghost use Rattle.wire_schedule.specs.Admission.{is_between, is_within};
ghost use Rattle.std.specs.Prelude.{◌≡◌};

use nfs_base::{CopySpec, MOST_BLOCKS, MOST_FILES, Side};
use wire_xdr::Octets;

/// The highest number of a copy.
pub(crate) const MOST_COPIES: u8 = 15;

/// The highest number of a worker.
const MOST_WORKERS: u8 = 8;

/// How many bytes one event writes at most.
const MOST_WRITTEN: u64 = 65_536;

/// How many bytes one event shows at most.
const MOST_SHOWN: u64 = 64;

/// The highest number of what a crash may leave.
const MOST_PICK: u8 = 3;

/// How many seconds the clock moves on at most in one event.
const MOST_SECONDS: u64 = 1_000_000;

/// One event of a schedule. Files, copies and records go by number, counted from 1; offsets and lengths are bytes.
#[derive(Debug, Drop)]
pub enum Event {
    /// A server's volume is formatted and opened, with so many files of so many blocks each.
    Volume {
        side: Side,
        files: u32,
        blocks: u32,
    },

    /// The client writes to a file.
    Write {
        side: Side,
        file: u32,
        off: u64,
        bytes: Octets,
    },

    /// The client asks a server to commit a file.
    Commit {
        side: Side,
        file: u32,
    },

    /// The client begins the copy of this number.
    Copy {
        copy: u8,
        spec: CopySpec,
    },

    /// The client asks how far its copy is.
    Status {
        copy: u8,
    },

    /// The client cancels its copy.
    Cancel {
        copy: u8,
    },

    /// The client sends each call that it awaits again.
    Retry,

    /// The record of this number is delivered, for the first time or again.
    Deliver {
        number: u64,
    },

    /// Each record that wasn't delivered yet and was sent before this event is delivered, in order.
    Flow,

    /// A worker of the destination makes one step.
    Work {
        worker: u8,
    },

    /// The clock moves on by so many seconds, and each end looks at it.
    Tick {
        seconds: u32,
    },

    /// Shows bytes of a file as they are now, zeros past its end.
    Peek {
        side: Side,
        file: u32,
        off: u64,
        len: u8,
    },

    /// A server's machine stops, and its disk is the pick of this number of what a crash may leave.
    Crash {
        side: Side,
        pick: u8,
    },

    /// So many more writes and syncs of a server's disk pass; the next stops its machine, in the event that makes it, and its disk
    /// is that pick.
    CrashAfter {
        side: Side,
        calls: u64,
        pick: u8,
    },
}

impl Event {
    /// Whether it keeps the limits that stand in its own line.
    pub(crate) fn is_within(&self) -> bool
        ensures { result ≡ is_within self.now }
    {
        match self {
            Event::Volume { files, blocks, .. } => {
                is_between(1, u64::from(MOST_FILES), u64::from(*files))
                    && is_between(1, u64::from(MOST_BLOCKS), u64::from(*blocks))
                    && u64::from(*files) * u64::from(*blocks) <= u64::from(MOST_BLOCKS)
            }
            Event::Write { off, bytes, .. } => {
                let len = bytes.len() as u64;
                is_between(1, MOST_WRITTEN, len) && off.checked_add(len).is_some()
            }
            Event::Copy { copy, .. } | Event::Status { copy } | Event::Cancel { copy } => {
                is_between(1, u64::from(MOST_COPIES), u64::from(*copy))
            }
            Event::Work { worker } => is_between(1, u64::from(MOST_WORKERS), u64::from(*worker)),
            Event::Tick { seconds } => is_between(1, MOST_SECONDS, u64::from(*seconds)),
            Event::Peek { off, len, .. } => {
                let len = u64::from(*len);
                is_between(1, MOST_SHOWN, len) && off.checked_add(len).is_some()
            }
            Event::Crash { pick, .. } | Event::CrashAfter { pick, .. } => *pick <= MOST_PICK,
            Event::Commit { .. } | Event::Retry | Event::Deliver { .. } | Event::Flow => true,
        }
    }
}

/// Whether a number lies between two bounds, both with it.
pub(crate) fn is_between(low: u64, high: u64, n: u64) -> bool
    ensures { result ≡ is_between low high n }
{
    low <= n && n <= high
}
