ghost use Rattle.std.specs.Prelude.{◌≡◌, ◌==◌, ◌≤◌, IfOk, filter, not, position, vec_len, vec_capacity};
ghost use Rattle.sess_slots.specs.Table.{is_among};
ghost use Rattle.sess_slots.specs.Begins.{is_idle, renewed_by};
ghost use Rattle.sess_slots.specs.Clients.{is_of, is_confirmed, gives_way, beside, new_client, confirmed_by, reclaimed_by};

use nfs_base::LEASE_SECONDS;
use outcome::Mem;
use std::alloc::Global;
use wire_xdr::Octets;

/// A client: a principal with an owner string, and the verifier of the one boot of that owner
/// (RFC 8881 section 2.4).
#[derive(Drop)]
pub struct Client {
    pub id: u64,
    pub principal: Octets,
    pub owner: Octets,
    pub verifier: [u8; 8],

    /// The sequence of its last CREATE_SESSION that made a session, and 0 before the first.
    pub last: u32,

    /// The session that this made. A client is confirmed where there is one.
    pub created: Option<CreatedSession>,

    /// Whether RECLAIM_COMPLETE came.
    pub reclaimed: bool,

    /// The second of its last use.
    pub used: u64,
}

/// What CREATE_SESSION answered, for a call that comes again: the session's number, and whether it asked for a back
/// channel.
#[derive(Clone, Copy, PartialEq, Eq)]
pub struct CreatedSession {
    pub number: u32,
    pub asked: bool,
}

impl Client {
    pub(crate) fn new(
        alloc: Global,
        id: u64,
        principal: &[u8],
        owner: &[u8],
        verifier: &[u8; 8],
        now: u64,
    ) -> Mem<Client>
        ensures { IfOk result (λ client. client ≡ new_client id principal.now owner.now verifier.now now) }
    {
        Ok(Client {
            id,
            principal: Octets::from_slice(alloc, principal)?,
            owner: Octets::from_slice(alloc, owner)?,
            verifier: *verifier,
            last: 0,
            created: None,
            reclaimed: false,
            used: now,
        })
    }

    pub(crate) fn is_of(&self, principal: &[u8], owner: &[u8]) -> bool
        ensures { result ≡ is_of principal.now owner.now self.now }
    {
        self.principal.as_slice() == principal && self.owner.as_slice() == owner
    }

    pub(crate) fn is_confirmed(&self) -> bool
        ensures { result ≡ is_confirmed self.now }
    {
        self.created.is_some()
    }

    /// Whether it makes room for a new client of this pair.
    pub(crate) fn gives_way(&self, principal: &[u8], owner: &[u8]) -> bool
        ensures { result ≡ gives_way principal.now owner.now self.now }
    {
        self.is_of(principal, owner) && !self.is_confirmed()
    }

    /// Whether it had no use for the seconds of a lease.
    pub(crate) fn is_idle(&self, now: u64) -> bool
        ensures { result ≡ is_idle now self.now }
    {
        now.saturating_sub(self.used) >= LEASE_SECONDS
    }
}

/// Takes these clients out.
pub(crate) fn end_clients(clients: &mut Vec<Client>, ids: &[u64])
    ensures items { clients.new.items ≡ filter (λ c. not (is_among ids.now c.id)) clients.old.items }
    ensures len { vec_len clients.new ≤ vec_len clients.old }
    ensures capacity { vec_capacity clients.new ≡ vec_capacity clients.old }
{
    clients.retain(|c| !is_among(ids, c.id));
}

/// Takes out the clients that make room for a new one of this pair.
pub(crate) fn make_way(clients: &mut Vec<Client>, principal: &[u8], owner: &[u8])
    ensures items { clients.new.items ≡ beside clients.old.items principal.now owner.now }
    ensures len { vec_len clients.new ≤ vec_len clients.old }
    ensures capacity { vec_capacity clients.new ≡ vec_capacity clients.old }
{
    clients.retain(|c| !c.gives_way(principal, owner));
}

pub(crate) fn is_among(ids: &[u64], id: u64) -> bool
    ensures { result ≡ is_among ids.now id }
{
    ids.iter().any(|k| *k == id)
}

fn place_of(clients: &[Client], id: u64) -> Option<usize>
    ensures { result ≡ position (λ c. c.id == id) clients.now }
{
    clients.iter().position(|c| c.id == id)
}

/// Renews a client's lease.
pub(crate) fn renew(clients: &mut Vec<Client>, id: u64, now: u64)
    ensures { clients.new.items ≡ renewed_by id now clients.old.items }
{
    if let Some(at) = place_of(clients.as_slice(), id) {
        clients[at].used = now;
    }
}

/// Notes the sequence of a client's CREATE_SESSION and the session that it made.
pub(crate) fn confirm(clients: &mut Vec<Client>, id: u64, sequence: u32, made: CreatedSession)
    ensures { clients.new.items ≡ confirmed_by id sequence made clients.old.items }
{
    if let Some(at) = place_of(clients.as_slice(), id) {
        let client = &mut clients[at];
        client.last = sequence;
        client.created = Some(made);
    }
}

/// Notes that RECLAIM_COMPLETE came from a client.
pub(crate) fn note_reclaim(clients: &mut Vec<Client>, id: u64)
    ensures { clients.new.items ≡ reclaimed_by id clients.old.items }
{
    if let Some(at) = place_of(clients.as_slice(), id) {
        clients[at].reclaimed = true;
    }
}
