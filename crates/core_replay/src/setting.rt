//! What all cases have alike: the principals, and where servers are found.

ghost use Rattle.std.specs.Prelude.{◌≤◌, length, IfOk};
ghost use Rattle.nfs_base.specs.Forms.{net_loc};
ghost use Rattle.source_core.specs.Location.{IsShort};

use copy_privs::Peer;
use gss_mech::Realm;
use nfs_base::NetLoc;
use outcome::Mem;
use std::alloc::Global;
use wire_xdr::{Items, Octets};

/// The principals of all cases, with their keys.
pub fn realm(alloc: Global) -> Mem<Realm> {
    let mut keys = Vec::new(alloc);
    add_keys(alloc, &mut keys)?;
    Realm::new(alloc, keys.as_slice())
}

fn add_keys(alloc: Global, keys: &mut Vec<(Octets, [u8; 32])>) -> Mem<()> {
    add_key(alloc, keys, b"user", 1)?;
    add_key(alloc, keys, b"dest", 2)?;
    add_key(alloc, keys, b"eve", 3)?;
    add_key(alloc, keys, b"other", 4)
}

/// Adds a principal, whose key is 32 times this byte.
fn add_key(alloc: Global, keys: &mut Vec<(Octets, [u8; 32])>, name: &[u8], byte: u8) -> Mem<()> {
    let name = Octets::from_slice(alloc, name)?;
    Ok(keys.push((name, [byte; 32]))?)
}

/// Where the source is found.
pub fn source_place(alloc: Global) -> Mem<NetLoc>
    ensures fits { IfOk result (λ loc. net_loc.Fits loc) }
    ensures short { IfOk result IsShort }
{
    tcp(alloc, b"127.0.0.1.8.1")
}

/// Where the destination is found.
pub fn dest_place(alloc: Global) -> Mem<NetLoc>
    ensures { IfOk result (λ loc. net_loc.Fits loc) }
{
    tcp(alloc, b"127.0.0.1.8.2")
}

/// As whom the destination calls.
pub fn dest_name(alloc: Global) -> Mem<Octets> {
    Ok(Octets::from_slice(alloc, b"dest")?)
}

/// The source from which the destination copies.
pub fn dest_source(alloc: Global) -> Mem<Peer> {
    peer(alloc, b"source", b"127.0.0.1.8.1")
}

/// The servers that the source knows.
pub fn source_peers(alloc: Global) -> Mem<Items<Peer>> {
    let mut peers = Items::new(alloc);
    add_peer(alloc, &mut peers, b"dest", b"127.0.0.1.8.2")?;
    add_peer(alloc, &mut peers, b"other", b"10.0.0.2.8.1")?;
    Ok(peers)
}

fn add_peer(alloc: Global, peers: &mut Items<Peer>, principal: &[u8], addr: &[u8]) -> Mem<()>
    requires { length addr.now ≤ 64 }
{
    peers.push(peer(alloc, principal, addr)?)
}

fn peer(alloc: Global, principal: &[u8], addr: &[u8]) -> Mem<Peer>
    requires { length addr.now ≤ 64 }
{
    Ok(Peer {
        principal: Octets::from_slice(alloc, principal)?,
        loc: tcp(alloc, addr)?,
    })
}

#[tactic(auto, unfolding(nfs_base::specs::Forms::net_loc))]
fn tcp(alloc: Global, addr: &[u8]) -> Mem<NetLoc>
    requires { length addr.now ≤ 64 }
    ensures fits { IfOk result (λ loc. net_loc.Fits loc) }
    ensures short { IfOk result IsShort }
{
    Ok(NetLoc::Addr {
        netid: Octets::from_slice(alloc, b"tcp")?,
        addr: Octets::from_slice(alloc, addr)?,
    })
}
