//! What a copy says of itself.

use nfs_base::Status;

/// What is to be told of a copy.
#[derive(Clone, Copy)]
pub enum Word {
    /// The destination has accepted it (COPY, RFC 7862 section 15.2).
    Started,

    /// So many of its bytes have landed (OFFLOAD_STATUS, RFC 7862 section 15.9).
    Copied(u64),

    /// All of it is stable at the destination.
    Stable,

    /// It failed, with this status.
    Failed(Status),

    /// The source file's change attribute stood still over the whole copy.
    Exact,

    /// Whether it did isn't known.
    Unsure,

    /// It was cancelled.
    Cancelled,
}

/// What is told at once, in its order.
#[derive(Clone, Copy)]
pub enum Said {
    Nothing,
    One(Word),
    Two(Word, Word),
}
