ghost use Rattle.std.specs.Prelude.{◌≡◌, []};

use nfs_base::Status;
use std::alloc::Global;
use std::marker::Model;

/// A slot of a session, each by its number.
#[derive(Clone, Copy, Debug, PartialEq, Eq)]
pub struct Place {
    pub session: u32,
    pub slot: u32,
}

/// What a SEQUENCE means (RFC 8881 sections 2.10.6 and 18.46).
#[derive(Clone, Copy, Debug, PartialEq, Eq)]
pub enum Begin {
    /// A number that comes next on its slot: the call is executed.
    New(Place),

    /// The slot's last number again: nothing is executed, and the kept reply answers.
    Replay(Place),

    /// The slot's last number again, from another root context than the kept reply was for.
    FalseRetry,

    /// There is no such session.
    BadSession,

    /// There is no such slot.
    BadSlot,

    /// The number is neither the slot's next one nor a retry.
    Misordered,
}

/// The back channel of a session: the connection that it was made on, the callback program, and the handle of
/// the context for the calls (RFC 8881 section 18.36).
#[derive(Clone, Copy, PartialEq, Eq)]
pub struct Back {
    pub conn: u32,
    pub program: u32,
    pub handle: [u8; 8],
}

/// A list of client IDs.
#[derive(Drop)]
pub struct ClientIds {
    ids: Vec<u64>,
}

impl Model for ClientIds {
    ghost use Rattle.std.specs.Prelude.{ℕ, List};

    ghost Value = { List ℕ };

    ghost view = { λ list. list.ids.items };
}

impl ClientIds {
    /// No client.
    pub fn new(alloc: Global) -> ClientIds
        ensures { result ≡ [] }
    {
        ClientIds {
            ids: Vec::new(alloc),
        }
    }

    /// The IDs, lent.
    pub fn as_slice(&self) -> &[u64]
        ensures { result.now ≡ self.now }
    {
        self.ids.as_slice()
    }

    pub(crate) fn from_vec(ids: Vec<u64>) -> ClientIds
        ensures { result ≡ ids.items }
    {
        ClientIds { ids }
    }
}

/// What EXCHANGE_ID answers (RFC 8881 section 18.35).
#[derive(Drop)]
pub enum Exchanged {
    /// The client's ID, the sequence that its next CREATE_SESSION has, whether it is confirmed, and the clients
    /// that were ended to make room for it.
    Client {
        id: u64,
        sequence: u32,
        confirmed: bool,
        ended: ClientIds,
    },

    Refused(Status),
}

/// What CREATE_SESSION answers (RFC 8881 section 18.36).
#[derive(Drop)]
pub enum Created {
    /// The session's ID, the sequence that was asked with, the pair's old client, where this call ended one, and
    /// whether the call that made the session asked for a back channel.
    Made {
        session: [u8; 16],
        sequence: u32,
        ended: Option<u64>,
        asked: bool,
    },

    Refused(Status),
}
