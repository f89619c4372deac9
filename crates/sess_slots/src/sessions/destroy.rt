ghost use Rattle.std.specs.Prelude.{◌≡◌};
ghost use Rattle.sess_slots.specs.Clients.{destroy_answer, destroy_table, reclaim_answer, reclaim_table, has_session, destroy_client_answer, destroy_client_table};

use super::Sessions;
use crate::client::note_reclaim;
use crate::session::end_session;
use nfs_base::Status;

impl Sessions {
    /// DESTROY_SESSION (RFC 8881 section 18.37). An unknown session is BADSESSION.
    pub fn destroy(&mut self, session: &[u8; 16]) -> Status
        ensures answer { result ≡ destroy_answer self.old session.now }
        ensures done { self.new ≡ destroy_table self.old session.now }
    {
        let status = match self.session_of_id(session) {
            None => Status::BADSESSION,
            Some(_) => Status::OK,
        };
        end_session(&mut self.sessions, self.boot, session);
        status
    }

    /// RECLAIM_COMPLETE (RFC 8881 section 18.51). An unknown client is STALE_CLIENTID; the second time is
    /// COMPLETE_ALREADY.
    pub fn reclaim(&mut self, client: u64) -> Status
        ensures answer { result ≡ reclaim_answer self.old client }
        ensures done { self.new ≡ reclaim_table self.old client }
    {
        let status = match self.client(client) {
            None => Status::STALE_CLIENTID,
            Some(found) if found.reclaimed => Status::COMPLETE_ALREADY,
            Some(_) => Status::OK,
        };
        note_reclaim(&mut self.clients, client);
        status
    }

    /// DESTROY_CLIENTID (RFC 8881 section 18.50). An unknown client is STALE_CLIENTID, and one that has a session
    /// or, as `holds` tells, an open is CLIENTID_BUSY. Otherwise the client is ended.
    pub fn destroy_client(&mut self, client: u64, holds: bool) -> Status
        ensures answer { result ≡ destroy_client_answer self.old client holds }
        ensures done { self.new ≡ destroy_client_table self.old client holds }
    {
        if self.client(client).is_none() {
            return Status::STALE_CLIENTID;
        }
        if holds || self.has_session(client) {
            return Status::CLIENTID_BUSY;
        }
        self.end(&[client]);
        Status::OK
    }

    fn has_session(&self, client: u64) -> bool
        ensures { result ≡ has_session self.now client }
    {
        self.sessions.iter().any(|s| s.client == client)
    }
}
