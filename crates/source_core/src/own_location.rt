ghost use Rattle.std.specs.Prelude.{◌≡◌, ◌+◌, ◌≤◌, length};
ghost use Rattle.nfs_base.specs.Forms.{net_loc};
ghost use Rattle.wire_xdr.specs.Page.{Added};
ghost use Rattle.source_core.specs.Location.{IsShort};

use nfs_base::NetLoc;
use std::marker::Model;
use wire_xdr::Page;

/// How many bytes the strings of a source's own location have at most, together.
pub const MOST_LOCATION: u32 = 256;

/// Where a source is found itself. Its strings have at most 256 bytes together, so that it fits into the answer of an
/// operation. Contracts see the location.
#[derive(Drop)]
pub struct OwnLocation {
    loc: NetLoc,
}

impl Model for OwnLocation {
    ghost use Rattle.nfs_base.specs.declared.net_loc.NetLoc.{NetLoc};
    ghost use Rattle.source_core.specs.Location.{IsShort};

    ghost Value = { NetLoc };

    ghost view = { λ own. own.loc };

    ghost invariant = { λ own. IsShort own.loc };
}

impl OwnLocation {
    /// A location whose strings are that short.
    pub fn new(loc: NetLoc) -> OwnLocation
        requires { IsShort loc }
        ensures { result ≡ loc }
    {
        OwnLocation { loc }
    }

    /// Writes it (netloc4).
    #[tactic(auto, unfolding(nfs_base::specs::Forms::net_loc, wire_xdr::specs::Words::word_bytes))]
    pub(crate) fn put(&self, page: &mut Page)
        requires { length page.old.bytes + 274 ≤ page.old.room }
        ensures added { Added page.old (net_loc.spell self.now) page.new }
        ensures len { length page.new.bytes ≤ length page.old.bytes + 274 }
    {
        match &self.loc {
            NetLoc::Name(name) => {
                page.u32(1);
                page.opaque(name.as_slice());
            }
            NetLoc::Url(url) => {
                page.u32(2);
                page.opaque(url.as_slice());
            }
            NetLoc::Addr { netid, addr } => {
                page.u32(3);
                page.opaque(netid.as_slice());
                page.opaque(addr.as_slice());
            }
        }
    }
}
