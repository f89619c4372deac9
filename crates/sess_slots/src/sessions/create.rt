ghost use Rattle.std.specs.Prelude.{◌≡◌, ◌==◌, ◌+◌, ◌-◌, ◌<◌, ◌^◌, if◌then◌else◌, IfOk, OnOk, OnErr, ◌&&◌, find, option_copied, option_to_list};
ghost use Rattle.nfs_base.specs.declared.status.TheConstants.Status.{SEQ_MISORDERED};
ghost use Rattle.sess_slots.specs.Table.{numbers_made, session_id, without};
ghost use Rattle.sess_slots.specs.Clients.{old_client, again_answer, create_answer, create_table, asked_back, is_of, is_confirmed, session_added};

use super::Sessions;
use crate::client::{Client, CreatedSession, confirm};
use crate::session::{Session, session_id};
use crate::slot::next_number;
use crate::{Back, Created};
use nfs_base::{MOST_SESSIONS, Status};
use outcome::Mem;

impl Sessions {
    /// CREATE_SESSION (RFC 8881 section 18.36). An unknown client is STALE_CLIENTID. The client's last sequence
    /// is answered as it was, its next one makes a session, and another one is SEQ_MISORDERED; DELAY at 32
    /// sessions. A client's first session confirms it, and ends the client that this pair had confirmed, with
    /// its sessions. `asked` tells whether the call asks for a back channel, and `back` is the handle of the one that
    /// it can have, on connection `conn` for the callback program.
    pub fn create(
        &mut self,
        client: u64,
        sequence: u32,
        conn: u32,
        program: u32,
        asked: bool,
        back: Option<[u8; 8]>,
        _now: u64,
    ) -> Mem<Created>
        requires { numbers_made self.old < 2 ^ 32 - 1 }
        ensures answer { IfOk result (λ answer. answer ≡ create_answer self.old client sequence asked) }
        ensures done { OnOk result (self.new ≡ create_table self.old client sequence asked (asked_back conn program back)) }
        ensures err { OnErr result (self.new ≡ self.old) }
    {
        let table = &*self;
        let Some(found) = table.client(client) else {
            return Ok(Created::Refused(Status::STALE_CLIENTID));
        };
        if sequence != next_number(found.last) {
            return Ok(table.created_before(found, sequence));
        }
        if table.sessions.len() >= MOST_SESSIONS {
            return Ok(Created::Refused(Status::DELAY));
        }
        let ended = table.old_client(found);
        let back = asked_back(conn, program, back);
        let session = self.replace(client, ended, sequence, asked, back)?;
        Ok(Created::Made {
            session,
            sequence,
            ended,
            asked,
        })
    }

    /// The answer to a sequence that isn't the client's next.
    fn created_before(&self, client: &Client, sequence: u32) -> Created
        ensures { result ≡ (if sequence == client.now.last then again_answer client.now.created self.now.boot sequence else Created.Refused SEQ_MISORDERED) }
    {
        match client.created {
            Some(made) if sequence == client.last => Created::Made {
                session: session_id(self.boot, made.number),
                sequence,
                ended: None,
                asked: made.asked,
            },
            _ => Created::Refused(Status::SEQ_MISORDERED),
        }
    }

    /// The client that the pair had confirmed, where this one isn't confirmed yet.
    fn old_client(&self, client: &Client) -> Option<u64>
        ensures { result ≡ old_client self.now.clients client.now }
    {
        if client.is_confirmed() {
            return None;
        }
        let old = self.confirmed(client.principal.as_slice(), client.owner.as_slice())?;
        Some(old.id)
    }

    fn confirmed(&self, principal: &[u8], owner: &[u8]) -> Option<&Client>
        ensures { option_copied result ≡ find (λ c. is_of principal.now owner.now c && is_confirmed c) self.now.clients }
    {
        self.clients
            .iter()
            .find(|c| c.is_of(principal, owner) && c.is_confirmed())
    }

    /// Makes a session of a client, which this confirms.
    fn add_session(
        &mut self,
        client: u64,
        sequence: u32,
        asked: bool,
        back: Option<Back>,
    ) -> Mem<[u8; 16]>
        requires { numbers_made self.old < 2 ^ 32 - 1 }
        ensures id { IfOk result (λ id. id ≡ session_id self.old.boot (self.old.sessions_made + 1)) }
        ensures done { OnOk result (self.new ≡ session_added self.old client sequence asked back) }
        ensures err { OnErr result (self.new ≡ self.old) }
    {
        let number = self.sessions_made + 1;
        let alloc = *self.sessions.allocator();
        let made = CreatedSession { number, asked };
        let session = Session::new(alloc, number, client, back)?;
        self.sessions.push(session)?;
        self.sessions_made = number;
        confirm(&mut self.clients, client, sequence, made);
        Ok(session_id(self.boot, number))
    }

    /// The same, and ends the client that this one replaces.
    fn replace(
        &mut self,
        client: u64,
        old: Option<u64>,
        sequence: u32,
        asked: bool,
        back: Option<Back>,
    ) -> Mem<[u8; 16]>
        requires { numbers_made self.old < 2 ^ 32 - 1 }
        ensures id { IfOk result (λ id. id ≡ session_id self.old.boot (self.old.sessions_made + 1)) }
        ensures done { OnOk result (self.new ≡ without (option_to_list old) (session_added self.old client sequence asked back)) }
        ensures err { OnErr result (self.new ≡ self.old) }
    {
        let session = self.add_session(client, sequence, asked, back)?;
        self.end_old(old);
        Ok(session)
    }

    fn end_old(&mut self, ended: Option<u64>)
        ensures { self.new ≡ without (option_to_list ended) self.old }
    {
        match ended {
            Some(old) => self.end(&[old]),
            None => self.end(&[]),
        }
    }
}

/// The back channel that is asked for.
fn asked_back(conn: u32, program: u32, handle: Option<[u8; 8]>) -> Option<Back>
    ensures { result ≡ asked_back conn program handle }
{
    match handle {
        None => None,
        Some(handle) => Some(Back {
            conn,
            program,
            handle,
        }),
    }
}
