ghost use Rattle.std.specs.Prelude.{◌≡◌, ◌==◌, ◌+◌, ◌<◌, ◌≤◌, ◌^◌, [], ℕ, length, Some, IsSome, IfOk, option_copied};
ghost use Rattle.nfs_base.specs.declared.limits.TheConstants.{SLOTS};
ghost use Rattle.sess_slots.specs.declared.slot.TheConstants.{MOST_REPLY};
ghost use Rattle.sess_slots.specs.Table.{SessionTable, numbers_made, client_of_id, session_numbered, session_of_id, without};
ghost use Rattle.sess_slots.specs.Begins.{IsThere, begin_of, client_at, reply_at, back_at, finished, has_lapsed};

mod create;
mod destroy;
mod exchange;

use crate::client::{Client, end_clients, renew};
use crate::session::{Session, end_sessions, keep};
use crate::{Back, Begin, Place};
use nfs_base::{MOST_CLIENTS, MOST_SESSIONS, SLOTS};
use outcome::Mem;
use std::alloc::Global;
use std::marker::Model;
use wire_xdr::Octets;

/// The clients of a server, and their sessions. Each call that doesn't answer [`Mem`] takes no memory.
#[derive(Drop)]
pub struct Sessions {
    boot: u32,
    clients: Vec<Client>,
    sessions: Vec<Session>,
    clients_made: u32,
    sessions_made: u32,
}

impl Model for Sessions {
    ghost use Rattle.std.specs.Prelude.{◌+◌, ◌<◌, ◌^◌};
    ghost use Rattle.sess_slots.specs.Table.{SessionTable};

    ghost Value = { SessionTable };

    ghost view = { λ s. record { boot = s.boot; clients = s.clients.items; sessions = s.sessions.items; clients_made = s.clients_made; sessions_made = s.sessions_made } };

    ghost invariant = { λ s. s.clients_made + s.sessions_made < 2 ^ 32 };
}

impl Sessions {
    /// No client yet, at a server with this boot number.
    pub fn new(alloc: Global, boot: u32) -> Mem<Sessions>
        ensures { IfOk result (λ s. s ≡ record { boot = boot; clients = []; sessions = []; clients_made = 0; sessions_made = 0 }) }
    {
        Ok(Sessions {
            boot,
            clients: Vec::with_capacity(alloc, MOST_CLIENTS)?,
            sessions: Vec::with_capacity(alloc, MOST_SESSIONS)?,
            clients_made: 0,
            sessions_made: 0,
        })
    }

    /// How many numbers were given to clients and sessions together.
    pub fn made(&self) -> u32
        ensures { result ≡ numbers_made self.now }
    {
        self.clients_made + self.sessions_made
    }

    /// What a SEQUENCE means: `root` is the number of the calling context, or of its parent where it is a
    /// child. Nothing changes until [`Sessions::finish`].
    pub fn begin(&self, session: &[u8; 16], slot: u32, number: u32, root: u32) -> Begin
        ensures answer { result ≡ begin_of self.now session.now slot number root }
        ensures there { IsThere self.now result }
    {
        self.decide(session, slot, number, root)
    }

    fn decide(&self, session: &[u8; 16], slot: u32, number: u32, root: u32) -> Begin
        ensures { result ≡ begin_of self.now session.now slot number root }
    {
        let Some(found) = self.session_of_id(session) else {
            return Begin::BadSession;
        };
        if slot >= SLOTS {
            return Begin::BadSlot;
        }
        let place = Place {
            session: found.number,
            slot,
        };
        found.slots.begin(place, number, root)
    }

    /// Notes that a new number was executed: moves its slot's number, keeps the reply with its root context, and
    /// renews the client's lease. A reply has at most [`MOST_REPLY`](crate::MOST_REPLY) bytes.
    pub fn finish(&mut self, place: Place, root: u32, kept: Octets, now: u64)
        requires there { IsSome (client_at self.old place.session) }
        requires slot { place.slot < SLOTS }
        requires short { length kept ≤ MOST_REPLY }
        ensures { self.new ≡ finished self.old place root kept now }
    {
        let client = self.client_of(place);
        keep(&mut self.sessions, place, root, kept);
        renew(&mut self.clients, client, now);
    }

    /// The reply kept at a place, lent.
    pub fn kept(&self, place: Place) -> &[u8]
        requires slot { place.slot < SLOTS }
        requires kept { IsSome (reply_at self.now place) }
        ensures reply { reply_at self.now place ≡ Some result.now }
        ensures short { length result.now ≤ MOST_REPLY }
    {
        let session = self.session(place.session).unwrap();
        session.slots.kept(place.slot).unwrap().as_slice()
    }

    /// The ID of the client of a session.
    pub fn client_of(&self, place: Place) -> u64
        requires { IsSome (client_at self.now place.session) }
        ensures { client_at self.now place.session ≡ Some result }
    {
        self.session(place.session).unwrap().client
    }

    /// The back channel of a session by its number. None: the session is gone, or it has none.
    pub fn back_of(&self, session: u32) -> Option<Back>
        ensures { result ≡ back_at self.now session }
    {
        self.session(session)?.back
    }

    /// Whether a client's lease has ended: there is no such client, or its last use was 90 or more seconds ago.
    pub fn lapsed(&self, client: u64, now: u64) -> bool
        ensures { result ≡ has_lapsed self.now client now }
    {
        match self.client(client) {
            None => true,
            Some(client) => client.is_idle(now),
        }
    }

    fn client(&self, id: u64) -> Option<&Client>
        ensures { option_copied result ≡ client_of_id self.now.clients id }
    {
        self.clients.iter().find(|c| c.id == id)
    }

    fn session(&self, number: u32) -> Option<&Session>
        ensures { option_copied result ≡ session_numbered self.now.sessions number }
    {
        self.sessions.iter().find(|s| s.number == number)
    }

    fn session_of_id(&self, id: &[u8; 16]) -> Option<&Session>
        ensures { option_copied result ≡ session_of_id self.now id.now }
    {
        let boot = self.boot;
        self.sessions.iter().find(|s| s.has_id(boot, id))
    }

    /// Ends clients, with their sessions.
    fn end(&mut self, ids: &[u64])
        ensures { self.new ≡ without ids.now self.old }
    {
        end_clients(&mut self.clients, ids);
        end_sessions(&mut self.sessions, ids);
    }
}
