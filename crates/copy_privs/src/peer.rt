ghost use Rattle.std.specs.Prelude.{◌≡◌, option_copied};
ghost use Rattle.copy_privs.specs.Create.{is_peer, is_location, location_of};

use nfs_base::NetLoc;
use wire_xdr::Octets;

/// Another server of the realm: its principal, and where it is found.
#[derive(Drop)]
pub struct Peer {
    pub principal: Octets,
    pub loc: NetLoc,
}

/// The location of a principal among some servers. None exactly where none of them has it.
pub fn location_of<'a>(peers: &'a [Peer], principal: &[u8]) -> Option<&'a NetLoc>
    ensures { option_copied result ≡ location_of peers.now principal.now }
{
    let peer = peers.iter().find(|p| p.principal.as_slice() == principal)?;
    Some(&peer.loc)
}

/// Whether one of some servers has this principal and is found there.
pub fn is_peer(peers: &[Peer], principal: &[u8], loc: &NetLoc) -> bool
    ensures { result ≡ is_peer peers.now principal.now loc.now }
{
    peers.iter().any(|p| p.principal.as_slice() == principal && p.loc.is_same(loc))
}

/// Whether one of some servers is found there.
pub(crate) fn is_location(peers: &[Peer], loc: &NetLoc) -> bool
    ensures { result ≡ is_location peers.now loc.now }
{
    peers.iter().any(|p| p.loc.is_same(loc))
}
