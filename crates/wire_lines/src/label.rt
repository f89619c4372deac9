//! What records are called.

ghost use Rattle.std.specs.Prelude.{◌≡◌, Some};
ghost use Rattle.wire_lines.specs.LineText.{call_text, label_text};

use nfs_compound::{cb_name_of, name_of};
use outbox::{CallLabel, Label};
use std::fmt;

/// A label as text.
#[derive(Clone, Copy)]
pub(crate) struct Called {
    pub(crate) label: Label,
}

impl fmt::Display for Called {
    ghost output = { λ called. Some (label_text called.label) };

    fn fmt<W: fmt::Write>(&self, f: &mut fmt::Formatter<W>) -> fmt::Result {
        match self.label {
            Label::Call(call) => f.write_str(call_name(call)),
            Label::Reply { to, status } => {
                let name = call_name(to);
                write!(f, "{name} {status}")
            }
            Label::Denied(why) => write!(f, "denied {why}"),
            Label::Mismatch => f.write_str("mismatch"),
            Label::Fault(stat) => write!(f, "fault {stat}"),
        }
    }
}

/// The name of a call.
fn call_name(call: CallLabel) -> &'static str
    ensures { result.now ≡ call_text call }
{
    match call {
        CallLabel::Init => "INIT",
        CallLabel::Create => "CREATE",
        CallLabel::Destroy => "DESTROY",
        CallLabel::Null => "NULL",
        CallLabel::Compound => "COMPOUND",
        CallLabel::Operation(op) => name_of(op),
        CallLabel::Callback(op) => cb_name_of(op),
    }
}
