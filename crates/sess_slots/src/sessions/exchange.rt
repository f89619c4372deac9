ghost use Rattle.std.specs.Prelude.{◌≡◌, ◌+◌, ◌-◌, ◌<◌, ◌^◌, ◌++◌, [], ◌∷◌, ◌&&◌, None, IfOk, OnOk, OnErr, length, map, filter, not, option_copied, bytes_eq};
ghost use Rattle.sess_slots.specs.Table.{numbers_made, client_id, is_among};
ghost use Rattle.sess_slots.specs.Begins.{is_idle};
ghost use Rattle.sess_slots.specs.Clients.{is_of, known_client, gives_way, beside, ended_for_room, exchange_answer, exchange_answer_at, exchange_table, exchange_table_at};

use super::Sessions;
use crate::client::{Client, end_clients, make_way};
use crate::session::end_sessions;
use crate::slot::next_number;
use crate::{ClientIds, Exchanged};
use nfs_base::{MOST_CLIENTS, Status};
use outcome::Mem;

impl Sessions {
    /// EXCHANGE_ID (RFC 8881 section 18.35): the ID of the client of a principal and an owner that has this
    /// verifier. Where there is none, a new client is made, in the place of the one that this pair had
    /// unconfirmed. Where there are 16 others, those without use for 90 seconds are ended first; DELAY where
    /// none is. The ID is the boot number, then a number counted from 1.
    pub fn exchange(
        &mut self,
        principal: &[u8],
        owner: &[u8],
        verifier: &[u8; 8],
        now: u64,
    ) -> Mem<Exchanged>
        requires { numbers_made self.old < 2 ^ 32 - 1 }
        ensures answer { IfOk result (λ answer. answer ≡ exchange_answer self.old principal.now owner.now verifier.now now) }
        ensures done { OnOk result (self.new ≡ exchange_table self.old principal.now owner.now verifier.now now) }
        ensures err { OnErr result (self.new ≡ self.old) }
    {
        match self.known(principal, owner, verifier) {
            Some(client) => Ok(Exchanged::Client {
                id: client.id,
                sequence: next_number(client.last),
                confirmed: client.is_confirmed(),
                ended: ClientIds::new(*self.clients.allocator()),
            }),
            None => self.add(principal, owner, verifier, now),
        }
    }

    fn known(&self, principal: &[u8], owner: &[u8], verifier: &[u8; 8]) -> Option<&Client>
        ensures { option_copied result ≡ known_client self.now.clients principal.now owner.now verifier.now }
    {
        self.clients
            .iter()
            .find(|c| c.is_of(principal, owner) && c.verifier == *verifier)
    }

    /// Makes a new client, if there is room.
    fn add(
        &mut self,
        principal: &[u8],
        owner: &[u8],
        verifier: &[u8; 8],
        now: u64,
    ) -> Mem<Exchanged>
        requires { numbers_made self.old < 2 ^ 32 - 1 }
        ensures answer { IfOk result (λ answer. answer ≡ exchange_answer_at None self.old principal.now owner.now now) }
        ensures done { OnOk result (self.new ≡ exchange_table_at None self.old principal.now owner.now verifier.now now) }
        ensures err { OnErr result (self.new ≡ self.old) }
    {
        let ended = self.ended_for_room(principal, owner, now)?;
        let others = self.others(principal, owner);
        if others.saturating_sub(ended.as_slice().len()) >= MOST_CLIENTS {
            return Ok(Exchanged::Refused(Status::DELAY));
        }
        let number = self.clients_made + 1;
        let id = client_id(self.boot, number);
        let alloc = *self.clients.allocator();
        let client = Client::new(alloc, id, principal, owner, verifier, now)?;
        take_in(&mut self.clients, client, principal, owner, &ended)?;
        end_sessions(&mut self.sessions, ended.as_slice());
        self.clients_made = number;
        Ok(Exchanged::Client {
            id,
            sequence: 1,
            confirmed: false,
            ended,
        })
    }

    /// How many clients stand beside a new one of this pair.
    fn others(&self, principal: &[u8], owner: &[u8]) -> usize
        ensures { result ≡ length (beside self.now.clients principal.now owner.now) }
    {
        self.clients
            .iter()
            .filter(|c| !c.gives_way(principal, owner))
            .count()
    }

    /// The clients that are ended to make room for a new one of this pair.
    fn ended_for_room(&self, principal: &[u8], owner: &[u8], now: u64) -> Mem<ClientIds>
        ensures { IfOk result (λ ids. ids ≡ ended_for_room (beside self.now.clients principal.now owner.now) now) }
    {
        let alloc = *self.clients.allocator();
        if self.others(principal, owner) < MOST_CLIENTS {
            return Ok(ClientIds::new(alloc));
        }
        Ok(ClientIds::from_vec(self.idle(principal, owner, now)?))
    }

    fn idle(&self, principal: &[u8], owner: &[u8], now: u64) -> Mem<Vec<u64>>
        ensures { IfOk result (λ ids. ids.items ≡ map (λ c. c.id) (filter (is_idle now) (beside self.now.clients principal.now owner.now))) }
    {
        let alloc = *self.clients.allocator();
        let ids = self
            .clients
            .iter()
            .filter(|c| !c.gives_way(principal, owner))
            .filter(|c| c.is_idle(now))
            .map(|c| c.id)
            .collect(alloc)?;
        Ok(ids)
    }
}

/// Adds a client, and takes out those that make room for it.
fn take_in(
    clients: &mut Vec<Client>,
    client: Client,
    principal: &[u8],
    owner: &[u8],
    ended: &ClientIds,
) -> Mem<()>
    ensures ok { OnOk result (clients.new.items ≡ filter (λ c. not (is_among ended.now c.id)) (beside clients.old.items principal.now owner.now) ++ client ∷ []) }
    ensures err { OnErr result (clients.new.items ≡ clients.old.items) }
{
    clients.reserve(1)?;
    make_way(clients, principal, owner);
    end_clients(clients, ended.as_slice());
    clients.push(client)?;
    Ok(())
}

/// The ID of a client by the server's boot number and its own.
fn client_id(boot: u32, number: u32) -> u64
    ensures { result ≡ client_id boot number }
{
    u64::from(boot) * 0x1_0000_0000 + u64::from(number)
}
