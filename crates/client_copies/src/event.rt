//! What happens to a copy.

use crate::{First, Query, Refusal, Session};
use copy_ops::OffloadEnd;
use nfs_base::{Side, StateId, Status};

/// What happens to a copy. Moments are whole seconds.
#[derive(Clone, Copy)]
pub enum Event {
    /// Its file is open at this server, by an OPEN of its own or of another.
    Opened(Side),

    /// The call that was due went out.
    Sent,

    /// CREATE was answered OK: the child under which it goes on is there.
    Allowed,

    /// COPY_NOTIFY was answered OK.
    Granted(First),

    /// COPY was answered OK, with the stateid of the copy. It was last sent at `sent_at`.
    Accepted {
        id: StateId,
        sent_at: u64,
    },

    /// The last GETATTR told this change attribute, in this session.
    Told {
        change: u64,
        session: Session,
    },

    /// What was asked on the way was refused.
    Refused(Refusal),

    /// OFFLOAD_STATUS or OFFLOAD_CANCEL went out.
    Queried(Query),

    /// OFFLOAD_STATUS was answered OK: so many bytes have landed, and the copy ended with this status, where it has ended.
    /// It was last sent at `sent_at`.
    Progressed {
        count: u64,
        complete: Option<Status>,
        sent_at: u64,
    },

    /// OFFLOAD_CANCEL was answered OK.
    Cancelled,

    /// OFFLOAD_STATUS or OFFLOAD_CANCEL was refused.
    QueryRefused(Refusal),

    /// CB_OFFLOAD told how it ended (RFC 7862 section 16.1).
    Offloaded(OffloadEnd),

    /// The setup at this server went down, with this status.
    Down {
        side: Side,
        status: Status,
    },
}
