ghost use Rattle.std.specs.Prelude.{◌≡◌, ◌==◌, filter, not, position, vec_capacity, vec_len, ◌≤◌, None, Some, MatchOption, option_map};
ghost use Rattle.copy_grants.specs.Grants.{is_live, is_kept};
ghost use Rattle.copy_grants.specs.Permits.{asked, is_at, use_refusal, shown_by};
ghost use Rattle.nfs_base.specs.Changed.{changed};

use crate::Ask;
use copy_privs::confirm_matches;
use gss_mech::Mechanism;
use nfs_base::{Cause, LEASE_SECONDS, NetLoc};
use wire_xdr::Octets;

/// After how many seconds without use a grant is taken out.
const GRANT_KEPT: u64 = 180;

/// What a source lets a destination do: read this file for this user, where it knows the secret.
#[derive(Drop)]
pub struct Grant {
    pub number: u32,
    pub file: u32,
    pub destination: NetLoc,
    pub user: Octets,
    pub secret: Octets,

    /// The second of its last use, or of its making.
    pub used: u64,
}

impl Grant {
    /// Whether it was used in the last 90 seconds.
    pub(crate) fn is_live(&self, now: u64) -> bool
        ensures { result ≡ is_live now self.now }
    {
        now.saturating_sub(self.used) < LEASE_SECONDS
    }

    /// Whether it was used in the last 180 seconds.
    pub(crate) fn is_kept(&self, now: u64) -> bool
        ensures { result ≡ is_kept now self.now }
    {
        now.saturating_sub(self.used) < GRANT_KEPT
    }

    /// Why it doesn't cover what is asked, whatever its number and its age.
    pub(crate) fn refuses<M: Mechanism>(&self, ask: &Ask, mech: &M) -> Option<Cause>
        ensures { result ≡ use_refusal M.mic_of (asked ask.now) self.now }
    {
        if self.file != ask.file {
            return Some(Cause::WrongFile);
        }
        if !is_at(ask.peer, &self.destination) {
            return Some(Cause::WrongDestination);
        }
        if self.user.as_slice() != ask.user {
            return Some(Cause::WrongUser);
        }
        if !confirm_matches(ask.code, self.secret.as_slice(), ask.key, mech) {
            return Some(Cause::Unconfirmed);
        }
        None
    }

    /// Whether it is live and covers what is asked.
    pub(crate) fn shows<M: Mechanism>(&self, now: u64, ask: &Ask, mech: &M) -> bool
        ensures { result ≡ shown_by M.mic_of now (asked ask.now) self.now }
    {
        self.is_live(now) && self.refuses(ask, mech).is_none()
    }
}

fn is_at(peer: Option<&NetLoc>, destination: &NetLoc) -> bool
    ensures { result ≡ is_at (option_map (λ l. l.now) peer.entry) destination.now }
{
    match peer {
        None => false,
        Some(peer) => destination.is_same(peer),
    }
}

/// Takes out the grant with this number.
pub(crate) fn end_number(grants: &mut Vec<Grant>, number: u32)
    ensures items { grants.new.items ≡ filter (λ g. not (g.number == number)) grants.old.items }
    ensures capacity { vec_capacity grants.new ≡ vec_capacity grants.old }
{
    grants.retain(|g| g.number != number);
}

/// Takes out the grants without use for 180 seconds.
pub(crate) fn end_unused(grants: &mut Vec<Grant>, now: u64)
    ensures items { grants.new.items ≡ filter (is_kept now) grants.old.items }
    ensures capacity { vec_capacity grants.new ≡ vec_capacity grants.old }
{
    grants.retain(|g| g.is_kept(now));
}

/// Notes that the grant with this number is used.
pub(crate) fn note_use(grants: &mut Vec<Grant>, number: u32, now: u64)
    ensures items { grants.new.items ≡ changed (λ g. g.number == number) (λ g. record g { used = now }) grants.old.items }
    ensures capacity { vec_capacity grants.new ≡ vec_capacity grants.old }
{
    if let Some(at) = place_of(grants.as_slice(), number) {
        grants[at].used = now;
    }
}

fn place_of(grants: &[Grant], number: u32) -> Option<usize>
    ensures { result ≡ position (λ g. g.number == number) grants.now }
{
    grants.iter().position(|g| g.number == number)
}
