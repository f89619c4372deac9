ghost use Rattle.std.specs.Prelude.{◌≡◌, ◌↔◌, IfOk, true};
ghost use Rattle.nfs_base.specs.Forms.{net_loc};
ghost use Rattle.nfs_base.specs.Locations.{same_location};

use crate::TEXT_LIMIT;
use outcome::Mem;
use std::alloc::Global;
use wire_xdr::{Octets, ReadError, Reader, Writer, Xdr};

/// The kinds of network locations by number (netloc_type4, RFC 7863 section 2.2).
const NL4_NAME: u32 = 1;

const NL4_URL: u32 = 2;

const NL4_NETADDR: u32 = 3;

/// Where a server is found (netloc4, RFC 7862 section 4.8). Each string has at most 1,024 bytes.
#[derive(Drop)]
pub enum NetLoc {
    /// By its name.
    Name(Octets),

    /// By a URL.
    Url(Octets),

    /// By a network's name and an address there (netaddr4, RFC 8881 section 3.3.9).
    Addr { netid: Octets, addr: Octets },
}

impl NetLoc {
    /// Whether it is the same location, byte for byte.
    pub fn is_same(&self, other: &NetLoc) -> bool
        ensures told { result ≡ same_location self.now other.now }
        ensures equal { (result ≡ true) ↔ (self.now ≡ other.now) }
    {
        self.has_same_bytes(other)
    }

    fn has_same_bytes(&self, other: &NetLoc) -> bool
        ensures { result ≡ same_location self.now other.now }
    {
        match (self, other) {
            (NetLoc::Name(a), NetLoc::Name(b)) => a.as_slice() == b.as_slice(),
            (NetLoc::Url(a), NetLoc::Url(b)) => a.as_slice() == b.as_slice(),
            (
                NetLoc::Addr { netid, addr },
                NetLoc::Addr {
                    netid: other_netid,
                    addr: other_addr,
                },
            ) => {
                netid.as_slice() == other_netid.as_slice()
                    && addr.as_slice() == other_addr.as_slice()
            }
            _ => false,
        }
    }

    /// The same location once more.
    pub fn copy(&self) -> Mem<NetLoc>
        ensures { IfOk result (λ copy. copy ≡ self.now) }
    {
        match self {
            NetLoc::Name(name) => Ok(NetLoc::Name(name.copy()?)),
            NetLoc::Url(url) => Ok(NetLoc::Url(url.copy()?)),
            NetLoc::Addr { netid, addr } => Ok(NetLoc::Addr {
                netid: netid.copy()?,
                addr: addr.copy()?,
            }),
        }
    }
}

impl Xdr for NetLoc {
    ghost form = { net_loc };

    #[tactic(auto, unfolding(crate::specs::Forms::net_loc))]
    fn parse(alloc: Global, reader: &mut Reader) -> Result<NetLoc, ReadError> {
        let start = reader.at();
        match u32::parse(alloc, reader)? {
            NL4_NAME => Ok(NetLoc::Name(Octets::parse(alloc, reader, TEXT_LIMIT)?)),
            NL4_URL => Ok(NetLoc::Url(Octets::parse(alloc, reader, TEXT_LIMIT)?)),
            NL4_NETADDR => Ok(NetLoc::Addr {
                netid: Octets::parse(alloc, reader, TEXT_LIMIT)?,
                addr: Octets::parse(alloc, reader, TEXT_LIMIT)?,
            }),
            _ => Err(ReadError::at(start)),
        }
    }

    #[tactic(auto, unfolding(crate::specs::Forms::net_loc))]
    fn put(&self, writer: &mut Writer) -> Mem<()> {
        match self {
            NetLoc::Name(name) => {
                NL4_NAME.put(writer)?;
                name.put(writer)
            }
            NetLoc::Url(url) => {
                NL4_URL.put(writer)?;
                url.put(writer)
            }
            NetLoc::Addr { netid, addr } => {
                NL4_NETADDR.put(writer)?;
                netid.put(writer)?;
                addr.put(writer)
            }
        }
    }
}
