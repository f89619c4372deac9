//! What a worker's call is called.

ghost use Rattle.std.specs.Prelude.{◌≡◌, ◌<◌};
ghost use Rattle.dest_steps.specs.Calls.{errand_label, setup_label, workers_call};
ghost use Rattle.dest_tasks.specs.declared.workers.TheConstants.{WORKERS};

use dest_tasks::Errand;
use file_ops::{OP_CREATE_SESSION, OP_EXCHANGE_ID, OP_GETATTR, OP_READ};
use mount::Sent;
use outbox::{CallLabel, Label, Outgoing, To};
use session_client::Setup;

/// What a call of a worker is called, where the setup is so far.
pub(crate) fn errand_label(errand: Errand, setup: Setup) -> CallLabel
    ensures { result ≡ errand_label errand setup }
{
    match errand {
        Errand::Setup => setup_label(setup),
        Errand::Confirm => CallLabel::Create,
        Errand::Size => CallLabel::Operation(OP_GETATTR),
        Errand::Bytes(_) => CallLabel::Operation(OP_READ),
    }
}

/// What the next step of a setup is called.
fn setup_label(setup: Setup) -> CallLabel
    ensures { result ≡ setup_label setup }
{
    match setup {
        Setup::Down => CallLabel::Init,
        Setup::Rooted { .. } => CallLabel::Operation(OP_EXCHANGE_ID),
        Setup::Registered { .. } => CallLabel::Operation(OP_CREATE_SESSION),
        Setup::Joined { .. } => CallLabel::Compound,
        Setup::Up { .. } => CallLabel::Compound,
    }
}

/// A worker's call that goes out. A worker's number is its place and 1.
pub(crate) fn workers_call(place: u32, label: CallLabel, sent: Sent) -> Outgoing
    requires { place < WORKERS }
    ensures { result ≡ workers_call place label sent }
{
    let Sent { bytes, seal } = sent;
    Outgoing {
        to: To::Source((place + 1) as u8),
        bytes,
        seal,
        label: Label::Call(label),
    }
}
