ghost use Rattle.std.specs.Prelude.{◌≡◌, ◌==◌, ◌+◌, ◌-◌, ◌<◌, ◌^◌, ℕ, None, Some, IfOk, OnOk, OnErr, MatchResult, option_copied};
ghost use Rattle.copy_grants.specs.Grants.{no_grants, notify_answer, notify_table, cancel_refusal, cancelled, expired, grant_numbered, is_full};
ghost use Rattle.copy_grants.specs.Permits.{asked, permit_refusal, permit_of, permit_table, grant_refusal, is_shown, used};

use crate::grant::{end_number, end_unused, note_use};
use crate::{Ask, Grant, Permit};
use gss_mech::Mechanism;
use nfs_base::{Cause, MOST_GRANTS, NetLoc, StateId, Status};
use outcome::Mem;
use std::alloc::Global;
use std::marker::Model;
use wire_xdr::Octets;

/// There are as many grants as there may be.
#[derive(Clone, Copy, PartialEq, Eq)]
pub struct Full;

/// The grants of a source. All room is taken when it is made: only [`Grants::notify`], which copies strings, can
/// want memory afterwards.
#[derive(Drop)]
pub struct Grants {
    boot: u32,
    grants: Vec<Grant>,
    made: u32,
}

impl Model for Grants {
    ghost use Rattle.std.specs.Prelude.{◌≤◌, vec_capacity};
    ghost use Rattle.nfs_base.specs.declared.limits.TheConstants.{MOST_GRANTS};
    ghost use Rattle.copy_grants.specs.Grants.{GrantTable};

    ghost Value = { GrantTable };

    ghost view = { λ t. record { boot = t.boot; grants = t.grants.items; made = t.made } };

    ghost invariant = { λ t. MOST_GRANTS ≤ vec_capacity t.grants };
}

impl Grants {
    /// Nothing is granted yet, at a server with this boot number.
    pub fn new(alloc: Global, boot: u32) -> Mem<Grants>
        ensures { IfOk result (λ t. t ≡ no_grants boot) }
    {
        Ok(Grants {
            boot,
            grants: Vec::with_capacity(alloc, MOST_GRANTS)?,
            made: 0,
        })
    }

    /// How many numbers were given out.
    pub fn made(&self) -> u32
        ensures { result ≡ self.now.made }
    {
        self.made
    }

    /// COPY_NOTIFY (RFC 7862 section 15.3): grants a destination to read a file for a user, by a secret. The
    /// stateid has seqid 1, kind 2 and the next number. `Full` comes exactly where 64 grants are in the table,
    /// those that are too old to be used included.
    pub fn notify(
        &mut self,
        now: u64,
        file: u32,
        destination: &NetLoc,
        user: &[u8],
        secret: &[u8],
    ) -> Mem<Result<StateId, Full>>
        requires { self.old.made < 2 ^ 32 - 1 }
        ensures answer { IfOk result (λ answer. answer ≡ notify_answer self.old) }
        ensures done { OnOk result (self.new ≡ notify_table self.old now file destination.now user.now secret.now) }
        ensures err { OnErr result (self.new ≡ self.old) }
    {
        if self.grants.len() >= MOST_GRANTS {
            return Ok(Err(Full));
        }
        let alloc = *self.grants.allocator();
        let destination = destination.copy()?;
        let user = Octets::from_slice(alloc, user)?;
        let secret = Octets::from_slice(alloc, secret)?;
        Ok(self.notify_taken(now, file, destination, user, secret))
    }

    /// The same with strings that it takes over. It takes no memory.
    pub fn notify_taken(
        &mut self,
        now: u64,
        file: u32,
        destination: NetLoc,
        user: Octets,
        secret: Octets,
    ) -> Result<StateId, Full>
        requires { self.old.made < 2 ^ 32 - 1 }
        ensures answer { result ≡ notify_answer self.old }
        ensures done { self.new ≡ notify_table self.old now file destination user secret }
    {
        if self.grants.len() >= MOST_GRANTS {
            return Err(Full);
        }
        let number = self.made + 1;
        self.grants
            .push(Grant {
                number,
                file,
                destination,
                user,
                secret,
                used: now,
            })
            .unwrap();
        self.made = number;
        Ok(StateId {
            seqid: 1,
            kind: StateId::COPY_NOTIFY,
            boot: self.boot,
            number,
        })
    }

    /// Whether a READ is permitted under the grant that its stateid names: the first row of the table that
    /// holds is the cause. Where it is permitted, the grant was last used now. It takes no memory.
    pub fn permit<M: Mechanism>(&mut self, now: u64, ask: &Ask, mech: &M) -> Permit
        ensures answer { result ≡ permit_of (permit_refusal M.mic_of self.old now (asked ask.now)) }
        ensures done { self.new ≡ permit_table M.mic_of self.old now (asked ask.now) }
    {
        if let Some(cause) = self.refuses(now, ask, mech) {
            return Permit::Denied(cause);
        }
        self.renew(ask.id.number, now);
        Permit::Permitted
    }

    /// Whether some live grant covers what is asked, whatever its number. It takes no memory.
    pub fn shows<M: Mechanism>(&self, now: u64, ask: &Ask, mech: &M) -> bool
        ensures { result ≡ is_shown M.mic_of self.now now (asked ask.now) }
    {
        self.grants.iter().any(|g| g.shows(now, ask, mech))
    }

    /// OFFLOAD_CANCEL of a grant (RFC 7862 section 15.8) ends it. BAD_STATEID where the stateid is of another
    /// boot or names none.
    pub fn cancel(&mut self, id: &StateId) -> Result<(), Status>
        ensures answer { MatchResult result (λ _. cancel_refusal self.old id.now ≡ None) (λ status. cancel_refusal self.old id.now ≡ Some status) }
        ensures done { OnOk result (self.new ≡ cancelled id.now.number self.old) }
        ensures err { OnErr result (self.new ≡ self.old) }
    {
        if self.numbered(id.number).is_none() || id.boot != self.boot {
            return Err(Status::BAD_STATEID);
        }
        self.end(id.number);
        Ok(())
    }

    /// Takes out the grants that were last used 180 or more seconds ago.
    pub fn expire(&mut self, now: u64)
        ensures { self.new ≡ expired now self.old }
    {
        end_unused(&mut self.grants, now);
    }

    fn refuses<M: Mechanism>(&self, now: u64, ask: &Ask, mech: &M) -> Option<Cause>
        ensures { result ≡ permit_refusal M.mic_of self.now now (asked ask.now) }
    {
        if !ask.confirmed {
            return Some(Cause::NoPrivilege);
        }
        if ask.id.boot != self.boot {
            return Some(Cause::Stale);
        }
        let Some(grant) = self.numbered(ask.id.number) else {
            return Some(Cause::Unknown);
        };
        if !grant.is_live(now) {
            return Some(Cause::Expired);
        }
        grant.refuses(ask, mech)
    }

    fn numbered(&self, number: u32) -> Option<&Grant>
        ensures { option_copied result ≡ grant_numbered self.now number }
    {
        self.grants.iter().find(|g| g.number == number)
    }

    fn renew(&mut self, number: u32, now: u64)
        ensures { self.new ≡ used number now self.old }
    {
        note_use(&mut self.grants, number, now);
    }

    fn end(&mut self, number: u32)
        ensures { self.new ≡ cancelled number self.old }
    {
        end_number(&mut self.grants, number);
    }
}
