//! What is known of bytes by their type.

ghost use Rattle.std.specs.Prelude.{◌≡◌, IfOk};
ghost use Rattle.run_ends.specs.Handling.{AreBytes};
ghost use Rattle.wire_xdr.specs.Cursor.{IsBytes};

use outbox::{Outbox, Outgoing};
use outcome::Mem;

/// Each number of a slice of bytes is a byte.
pub(crate) fn are_bytes(bytes: &[u8])
    ensures { IsBytes bytes.now }
{}

/// What a step gave. The records that it sends are bytes.
pub(crate) fn of_bytes(given: Mem<Outbox>) -> Mem<Outbox>
    ensures same { result ≡ given }
    ensures bytes { IfOk given (λ out. AreBytes out.sent) }
{
    let out = given?;
    all_are_bytes(out.sent.as_slice());
    Ok(out)
}

fn all_are_bytes(records: &[Outgoing])
    ensures { AreBytes records.now }
{
    for outgoing in records {
        are_bytes(outgoing.bytes.as_slice());
    }
}
