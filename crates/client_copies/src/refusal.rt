//! Why a call came to nothing.

ghost use Rattle.std.specs.Prelude.{◌≡◌};
ghost use Rattle.client_copies.specs.Refusals.{refused_with};

use nfs_base::Status;

/// The status of a failed call is this and its accept_stat (own: no server sends such a status).
const FAILED_CALL: u32 = 20_000;

/// Why a call came to nothing.
#[derive(Clone, Copy)]
pub enum Refusal {
    /// It was answered with this status.
    Answered(Status),

    /// It failed with this accept_stat (RFC 5531 section 9), or it was answered by what doesn't spell an answer, which
    /// counts as an accept_stat of 0.
    Failed(u32),

    /// It was a CREATE that was denied, or answered with a major status other than 0.
    NotAllowed,
}

impl Refusal {
    /// The status that it counts as.
    pub fn status(self) -> Status
        ensures { result ≡ refused_with self }
    {
        match self {
            Refusal::Answered(status) => status,
            Refusal::Failed(accept_stat) => Status {
                number: FAILED_CALL.saturating_add(accept_stat),
            },
            Refusal::NotAllowed => Status::PARTNER_NO_AUTH,
        }
    }
}
