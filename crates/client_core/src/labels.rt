//! What records are called that go back to a server, and under what they are sealed.

ghost use Rattle.std.specs.Prelude.{◌≡◌};
ghost use Rattle.client_steps.specs.Desks.{going};
ghost use Rattle.client_core.specs.Callbacks as callbacks;
ghost use Rattle.client_core.specs.Calls as spec;

use client_site::end_of;
use gss_ctx::{Contexts, Why};
use nfs_base::{Seal, Side};
use nfs_compound::CbOp;
use outbox::{CallLabel, Dropped, Label, Outgoing, To};
use rpc_calls::Call;
use rpc_msg::{Denial, Stat};
use wire_xdr::Octets;

/// A record that goes back to the server that called.
pub(crate) fn going(to: Side, bytes: Octets, seal: Option<Seal>, label: Label) -> Outgoing
    ensures { result ≡ going to bytes seal label }
{
    Outgoing {
        to: To::Server(end_of(to)),
        bytes,
        seal,
        label,
    }
}

/// The reply to a call that was carried out.
pub(crate) fn done(to: CallLabel) -> Label
    ensures { result ≡ Label.Reply to 0 }
{
    Label::Reply { to, status: 0 }
}

pub(crate) fn reply_seal(back: &Contexts<u32>, call: &Call) -> Option<Seal>
    ensures { result ≡ spec.reply_seal back.now call.now.under }
{
    match &call.under {
        Some(under) => Some(back.seal(under.number, under.seq)),
        None => None,
    }
}

pub(crate) fn drop_cause(why: Why) -> Dropped
    ensures { result ≡ spec.drop_cause why }
{
    match why {
        Why::Repeat => Dropped::Repeat,
        Why::Old => Dropped::Old,
    }
}

pub(crate) fn denial_label(why: Denial) -> Label
    ensures { result ≡ spec.denial_label why }
{
    match why {
        Denial::Auth(why) => Label::Denied(why),
        Denial::Mismatch { .. } => Label::Mismatch,
    }
}

pub(crate) fn fault_label(failure: Stat) -> Label
    ensures { result ≡ spec.fault_label failure }
{
    Label::Fault(failure.number())
}

/// A CB_COMPOUND is called by its last operation that was read.
pub(crate) fn cb_label(ops: &[CbOp]) -> CallLabel
    ensures { result ≡ callbacks.cb_label ops.now }
{
    ops.iter().fold(
        CallLabel::Compound,
        |_, op| CallLabel::Callback(op.number()),
    )
}
