//! What is the same in every run: who the ends are, and where the servers are found.

ghost use Rattle.std.specs.Prelude.{◌≡◌, ◌+◌, length, IfOk};
ghost use Rattle.source_core.specs.Location.{IsShort};
ghost use Rattle.run_ends.specs.Setting as setting;

use copy_privs::Peer;
use nfs_base::NetLoc;
use outcome::Mem;
use std::alloc::Global;
use wire_xdr::{Items, Octets};

/// The tag of the source's volume.
pub const SOURCE_TAG: u64 = 1;

/// The tag of the destination's volume.
pub const DEST_TAG: u64 = 2;

/// As whom the client calls.
pub fn user(alloc: Global) -> Mem<Octets>
    ensures { IfOk result (λ name. name ≡ setting.user) }
{
    Octets::from_slice(alloc, b"user")
}

/// As whom the destination calls.
pub fn dest_name(alloc: Global) -> Mem<Octets>
    ensures { IfOk result (λ name. name ≡ setting.dest_name) }
{
    Octets::from_slice(alloc, b"dest")
}

/// Where the source is found.
pub fn source_place(alloc: Global) -> Mem<NetLoc>
    ensures is { IfOk result (λ loc. loc ≡ setting.source_place) }
    ensures short { IfOk result IsShort }
{
    tcp(alloc, b"127.0.0.1.8.1")
}

/// Where the destination is found.
pub fn dest_place(alloc: Global) -> Mem<NetLoc>
    ensures { IfOk result (λ loc. loc ≡ setting.dest_place) }
{
    tcp(alloc, b"127.0.0.1.8.2")
}

/// The source from which the destination copies.
pub fn dest_source(alloc: Global) -> Mem<Peer>
    ensures { IfOk result (λ peer. peer ≡ setting.dest_source) }
{
    Ok(Peer {
        principal: Octets::from_slice(alloc, b"source")?,
        loc: source_place(alloc)?,
    })
}

/// The servers that the source knows: the destination.
pub fn source_peers(alloc: Global) -> Mem<Items<Peer>>
    ensures { IfOk result (λ peers. peers ≡ setting.source_peers) }
{
    let mut peers = Items::new(alloc);
    peers.push(Peer {
        principal: dest_name(alloc)?,
        loc: dest_place(alloc)?,
    })?;
    Ok(peers)
}

fn tcp(alloc: Global, addr: &[u8]) -> Mem<NetLoc>
    ensures { IfOk result (λ loc. loc ≡ setting.tcp addr.now) }
{
    Ok(NetLoc::Addr {
        netid: Octets::from_slice(alloc, b"tcp")?,
        addr: Octets::from_slice(alloc, addr)?,
    })
}
