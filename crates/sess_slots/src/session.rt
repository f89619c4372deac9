ghost use Rattle.std.specs.Prelude.{◌≡◌, ◌==◌, ◌<◌, ◌≤◌, IfOk, filter, length, not, position};
ghost use Rattle.sess_slots.specs.Table.{is_among, session_id, has_id};
ghost use Rattle.nfs_base.specs.declared.limits.TheConstants.{SLOTS};
ghost use Rattle.sess_slots.specs.declared.slot.TheConstants.{MOST_REPLY};
ghost use Rattle.sess_slots.specs.Begins.{reply_kept};
ghost use Rattle.sess_slots.specs.Clients.{new_session};

use crate::client::is_among;
use crate::slot::Slots;
use crate::{Back, Place};
use outcome::Mem;
use std::alloc::Global;
use wire_xdr::Octets;

/// A session of a client (RFC 8881 section 2.10).
#[derive(Drop)]
pub struct Session {
    pub number: u32,

    /// The ID of the client.
    pub client: u64,

    pub back: Option<Back>,
    pub slots: Slots,
}

impl Session {
    pub(crate) fn new(alloc: Global, number: u32, client: u64, back: Option<Back>) -> Mem<Session>
        ensures { IfOk result (λ session. session ≡ new_session number client back) }
    {
        Ok(Session {
            number,
            client,
            back,
            slots: Slots::new(alloc)?,
        })
    }

    /// Whether this is its ID, at a server with this boot number.
    pub(crate) fn has_id(&self, boot: u32, id: &[u8; 16]) -> bool
        ensures { result ≡ has_id boot id.now self.now }
    {
        session_id(boot, self.number) == *id
    }
}

/// The ID of a session by the server's boot number and its own.
pub(crate) fn session_id(boot: u32, number: u32) -> [u8; 16]
    ensures { result ≡ session_id boot number }
{
    let mut id = [0; 16];
    id[..4].copy_from_slice(&boot.to_be_bytes());
    id[4..8].copy_from_slice(&number.to_be_bytes());
    id
}

/// Takes out the sessions of these clients.
pub(crate) fn end_sessions(sessions: &mut Vec<Session>, ids: &[u64])
    ensures { sessions.new.items ≡ filter (λ s. not (is_among ids.now s.client)) sessions.old.items }
{
    sessions.retain(|s| !is_among(ids, s.client));
}

/// Takes out the session with this ID.
pub(crate) fn end_session(sessions: &mut Vec<Session>, boot: u32, id: &[u8; 16])
    ensures { sessions.new.items ≡ filter (λ s. not (has_id boot id.now s)) sessions.old.items }
{
    sessions.retain(|s| !s.has_id(boot, id));
}

/// Moves the number of a place's slot, and keeps the reply with its root context.
pub(crate) fn keep(sessions: &mut Vec<Session>, place: Place, root: u32, reply: Octets)
    requires slot { place.slot < SLOTS }
    requires short { length reply ≤ MOST_REPLY }
    ensures { sessions.new.items ≡ reply_kept place root reply sessions.old.items }
{
    if let Some(at) = place_of(sessions.as_slice(), place.session) {
        sessions[at].slots.finish(place.slot, root, reply);
    }
}

fn place_of(sessions: &[Session], number: u32) -> Option<usize>
    ensures { result ≡ position (λ s. s.number == number) sessions.now }
{
    sessions.iter().position(|s| s.number == number)
}
