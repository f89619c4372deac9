//! The reply to a CB_COMPOUND.

ghost use Rattle.std.specs.Prelude.{◌≡◌, IfOk};
ghost use Rattle.wire_xdr.specs.All.{ReadsAll};
ghost use Rattle.nfs_compound.specs.Callbacks.{cb_reply};

use crate::cb_res::CbRes;
use crate::limits::NO_LIMIT;
use nfs_base::{Status, TEXT_LIMIT};
use outcome::Mem;
use std::alloc::Global;
use wire_xdr::{BadXdr, Items, Octets, ReadError, Reader, Writer, Xdr, read_all, write_all};

/// The reply to a CB_COMPOUND, CB_COMPOUND4res (RFC 8881 section 20.2).
#[derive(Drop)]
pub struct CbReply {
    pub status: Status,
    pub tag: Octets,
    pub results: Items<CbRes>,
}

impl Xdr for CbReply {
    ghost form = { cb_reply };

    #[tactic(auto, unfolding(crate::specs::Callbacks::cb_reply))]
    fn parse(alloc: Global, reader: &mut Reader) -> Result<CbReply, ReadError> {
        Ok(CbReply {
            status: Status::parse(alloc, reader)?,
            tag: Octets::parse(alloc, reader, TEXT_LIMIT)?,
            results: Items::parse(alloc, reader, NO_LIMIT)?,
        })
    }

    #[tactic(auto, unfolding(crate::specs::Callbacks::cb_reply))]
    fn put(&self, writer: &mut Writer) -> Mem<()> {
        self.status.put(writer)?;
        self.tag.put(writer)?;
        self.results.put(writer)
    }
}

/// Reads the body of a reply to CB_COMPOUND, which is all of the bytes, as [`crate::read_reply_body`] reads
/// that of a reply to COMPOUND.
pub fn read_cb_reply(alloc: Global, bytes: &[u8]) -> Mem<Result<CbReply, BadXdr>>
    ensures { IfOk result (ReadsAll cb_reply bytes.now) }
{
    read_all(alloc, bytes)
}

/// The spelling of a reply to CB_COMPOUND.
pub fn write_cb_reply(alloc: Global, value: &CbReply) -> Mem<Octets>
    requires { cb_reply.Fits value.now }
    ensures { IfOk result (λ bytes. bytes ≡ cb_reply.spell value.now) }
{
    write_all(alloc, value)
}
