//! What records are called in a transcript.

ghost use Rattle.std.specs.Prelude.{◌≡◌};
ghost use Rattle.session_server.specs.Labels.{compound_label, denial_label, drop_cause, fault_label, status_in};

use gss_ctx::Why;
use nfs_compound::Op;
use outbox::{CallLabel, Dropped, Label};
use rpc_msg::{Denial, Stat};

/// Why a context dropped a call.
pub(crate) fn drop_cause(why: Why) -> Dropped
    ensures { result ≡ drop_cause why }
{
    match why {
        Why::Repeat => Dropped::Repeat,
        Why::Old => Dropped::Old,
    }
}

pub(crate) fn denial_label(why: Denial) -> Label
    ensures { result ≡ denial_label why }
{
    match why {
        Denial::Auth(why) => Label::Denied(why),
        Denial::Mismatch { .. } => Label::Mismatch,
    }
}

pub(crate) fn fault_label(failure: Stat) -> Label
    ensures { result ≡ fault_label failure }
{
    Label::Fault(failure.number())
}

/// A COMPOUND is called by its last operation that was read.
pub(crate) fn compound_label(ops: &[Op]) -> CallLabel
    ensures { result ≡ compound_label ops.now }
{
    ops.iter().fold(
        CallLabel::Compound,
        |_, op| CallLabel::Operation(op.number()),
    )
}

/// The status of a COMPOUND's reply, which stands in its first word (RFC 8881 section 16.2.2).
pub(crate) fn status_in(body: &[u8]) -> u32
    ensures { result ≡ status_in body.now }
{
    match body {
        [a, b, c, d, ..] => u32::from_be_bytes([*a, *b, *c, *d]),
        _ => 0,
    }
}
