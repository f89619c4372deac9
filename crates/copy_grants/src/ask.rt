ghost use Rattle.std.specs.Prelude.{◌≡◌};
ghost use Rattle.copy_grants.specs.Permits.{cause_status};

use nfs_base::{Cause, NetLoc, StateId, Status};

/// Under what a READ with a stateid of COPY_NOTIFY is asked for.
#[derive(Clone, Copy)]
pub struct Ask<'a> {
    pub id: StateId,

    /// The number of the current file.
    pub file: u32,

    /// Where the principal of the calling context's parent is found, if it is one of the servers.
    pub peer: Option<&'a NetLoc>,

    /// Whether the calling context carries a copy_confirm_auth.
    pub confirmed: bool,

    /// That privilege's user.
    pub user: &'a [u8],

    /// That privilege's code.
    pub code: &'a [u8],

    /// The parent's key.
    pub key: &'a [u8; 32],
}

/// What [`crate::Grants::permit`] answers.
#[derive(Clone, Copy, PartialEq, Eq)]
pub enum Permit {
    Permitted,
    Denied(Cause),
}

/// The status with which a READ is refused for a cause (RFC 8881 section 15.1).
pub fn status_of(cause: Cause) -> Status
    ensures { result ≡ cause_status cause }
{
    match cause {
        Cause::NoPrivilege | Cause::WrongDestination | Cause::WrongUser | Cause::Unconfirmed => {
            Status::ACCESS
        }
        Cause::Stale | Cause::Unknown | Cause::WrongFile => Status::BAD_STATEID,
        Cause::Expired => Status::EXPIRED,
    }
}
