ghost use Rattle.std.specs.Prelude.{◌≡◌, ◌++◌, ◌∷◌, [], List};
ghost use Rattle.std.specs.List.{list_any};
ghost use Rattle.nfs_base.specs.Locations.{same_location};
ghost use Rattle.copy_privs.specs.declared.privilege.Privilege.{Privilege};
ghost use Rattle.copy_privs.specs.Create.{from_refusal, to_refusal, confirm_refusal, confirmation};
ghost use Rattle.copy_privs.specs.Further.{further};

use crate::peer::{is_location, is_peer};
use crate::{Peer, Privilege, confirm_matches};
use gss_mech::Mechanism;
use nfs_base::{NetLoc, PrivCause};

/// What a copy_confirm_auth comes with: the principal and the key of the context under which it is made, and
/// the privilege's code and user.
#[derive(Clone, Copy)]
pub struct Confirming<'a> {
    pub principal: &'a [u8],
    pub key: &'a [u8; 32],
    pub code: &'a [u8],
    pub user: &'a [u8],
}

/// Why a source refuses a copy_from_auth under a parent of this principal, if it does: `WrongUser` where the
/// user is another, else `WrongPeer` where the destination is none of the servers.
pub fn refuse_from(
    peers: &[Peer],
    principal: &[u8],
    destination: &NetLoc,
    user: &[u8],
) -> Option<PrivCause>
    ensures { result ≡ from_refusal peers.now principal.now destination.now user.now }
{
    if user != principal {
        return Some(PrivCause::WrongUser);
    }
    if !is_location(peers, destination) {
        return Some(PrivCause::WrongPeer);
    }
    None
}

/// Why a destination that copies from this source refuses a copy_to_auth under a parent of this principal, if
/// it does: `WrongUser` where the user is another, else `WrongPeer` where the source isn't among the places.
pub fn refuse_to(
    source: &NetLoc,
    principal: &[u8],
    sources: &[NetLoc],
    user: &[u8],
) -> Option<PrivCause>
    ensures { result ≡ to_refusal source.now principal.now sources.now user.now }
{
    if user != principal {
        return Some(PrivCause::WrongUser);
    }
    if !is_among(sources, source) {
        return Some(PrivCause::WrongPeer);
    }
    None
}

fn is_among(locations: &[NetLoc], location: &NetLoc) -> bool
    ensures { result ≡ list_any (λ l. same_location l location.now) locations.now }
{
    locations.iter().any(|l| l.is_same(location))
}

/// Why a source refuses a copy_confirm_auth, from why it does over the privileges that were seen so far
/// (`Unknown` over none), and one more that a live child carries.
pub fn refuse_confirm<M: Mechanism>(
    so_far: Option<PrivCause>,
    carried: &Privilege,
    peers: &[Peer],
    asked: &Confirming,
    mech: &M,
) -> Option<PrivCause>
    ensures { (seen : List Privilege) → so_far ≡ confirm_refusal M.mic_of peers.now (confirmation asked.now) seen → result ≡ confirm_refusal M.mic_of peers.now (confirmation asked.now) (seen ++ carried.now ∷ []) }
{
    further(so_far, refuse_one(carried, peers, asked, mech))
}

fn refuse_one<M: Mechanism>(
    carried: &Privilege,
    peers: &[Peer],
    asked: &Confirming,
    mech: &M,
) -> Option<PrivCause>
    ensures { result ≡ confirm_refusal M.mic_of peers.now (confirmation asked.now) (carried.now ∷ []) }
{
    match carried {
        Privilege::From {
            secret,
            destination,
            user,
        } => {
            if !confirm_matches(asked.code, secret.as_slice(), asked.key, mech) {
                return Some(PrivCause::NoMatch);
            }
            if user.as_slice() != asked.user {
                return Some(PrivCause::WrongUser);
            }
            if !is_peer(peers, asked.principal, destination) {
                return Some(PrivCause::WrongPeer);
            }
            None
        }
        Privilege::To { .. } | Privilege::Confirm { .. } => Some(PrivCause::Unknown),
    }
}

/// Of two answers the one whose tests went further.
fn further(first: Option<PrivCause>, second: Option<PrivCause>) -> Option<PrivCause>
    ensures { result ≡ further first second }
{
    match (first, second) {
        (None, _) | (_, None) => None,
        (Some(PrivCause::WrongPeer), _) | (_, Some(PrivCause::WrongPeer)) => {
            Some(PrivCause::WrongPeer)
        }
        (Some(PrivCause::WrongUser), _) | (_, Some(PrivCause::WrongUser)) => {
            Some(PrivCause::WrongUser)
        }
        (Some(PrivCause::NoMatch), _) | (_, Some(PrivCause::NoMatch)) => Some(PrivCause::NoMatch),
        (Some(PrivCause::Unknown), Some(PrivCause::Unknown)) => Some(PrivCause::Unknown),
    }
}
