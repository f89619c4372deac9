//! Where operations may stand, and what answers those that can't be evaluated.

ghost use Rattle.std.specs.Prelude.{◌≡◌};
ghost use Rattle.compound_server.specs.Refusals.{place_refusal, stands_alone, tail_refusal};

use file_ops::{
    OP_CREATE_SESSION, OP_DESTROY_CLIENTID, OP_DESTROY_SESSION, OP_EXCHANGE_ID, OP_ILLEGAL,
    OP_SEQUENCE,
};
use nfs_base::Status;
use nfs_compound::Tail;

/// An operation that is answered by a status alone.
#[derive(Clone, Copy, PartialEq, Eq)]
pub struct TailRefusal {
    /// The operation's number.
    pub op: u32,

    pub status: Status,
}

/// Whether an operation stands alone in its compound.
pub fn stands_alone(op: u32) -> bool
    ensures { result ≡ stands_alone op }
{
    op == OP_EXCHANGE_ID
        || op == OP_CREATE_SESSION
        || op == OP_DESTROY_SESSION
        || op == OP_DESTROY_CLIENTID
}

/// Why an operation can't stand behind SEQUENCE.
pub(crate) fn place_refusal(op: u32) -> Option<Status>
    ensures { result ≡ place_refusal op }
{
    if op == OP_SEQUENCE {
        return Some(Status::SEQUENCE_POS);
    }
    if stands_alone(op) {
        return Some(Status::NOT_ONLY_OP);
    }
    None
}

/// What answers the operation at which the reading of a compound ended.
pub fn tail_refusal(tail: Tail) -> Option<TailRefusal>
    ensures { result ≡ tail_refusal tail }
{
    match tail {
        Tail::Whole => None,
        Tail::Unreadable { op, .. } => Some(TailRefusal {
            op,
            status: Status::BADXDR,
        }),
        Tail::Unsupported { op, .. } => Some(TailRefusal {
            op,
            status: Status::NOTSUPP,
        }),
        Tail::Illegal { .. } => Some(TailRefusal {
            op: OP_ILLEGAL,
            status: Status::OP_ILLEGAL,
        }),
    }
}
