//! The reply to a COMPOUND.

ghost use Rattle.std.specs.Prelude.{◌≡◌, IfOk};
ghost use Rattle.wire_xdr.specs.All.{ReadsAll};
ghost use Rattle.nfs_compound.specs.Results.{reply};

use crate::limits::NO_LIMIT;
use crate::res::Res;
use nfs_base::{Status, TEXT_LIMIT};
use outcome::Mem;
use std::alloc::Global;
use wire_xdr::{BadXdr, Items, Octets, ReadError, Reader, Writer, Xdr, read_all, write_all};

/// The reply to a COMPOUND, COMPOUND4res: the status of the last operation that was evaluated, the tag of the
/// call, and the results (RFC 8881 section 16.2).
#[derive(Drop)]
pub struct Reply {
    pub status: Status,
    pub tag: Octets,
    pub results: Items<Res>,
}

impl Xdr for Reply {
    ghost form = { reply };

    #[tactic(auto, unfolding(crate::specs::Results::reply))]
    fn parse(alloc: Global, reader: &mut Reader) -> Result<Reply, ReadError> {
        Ok(Reply {
            status: Status::parse(alloc, reader)?,
            tag: Octets::parse(alloc, reader, TEXT_LIMIT)?,
            results: Items::parse(alloc, reader, NO_LIMIT)?,
        })
    }

    #[tactic(auto, unfolding(crate::specs::Results::reply))]
    fn put(&self, writer: &mut Writer) -> Mem<()> {
        self.status.put(writer)?;
        self.tag.put(writer)?;
        self.results.put(writer)
    }
}

/// Reads the body of a reply to COMPOUND, which is all of the bytes. It is read exactly where they are its
/// spelling; a refusal names the first place that fails, or the first byte behind the results, and lies within
/// the bytes or at their end.
pub fn read_reply_body(alloc: Global, bytes: &[u8]) -> Mem<Result<Reply, BadXdr>>
    ensures { IfOk result (ReadsAll reply bytes.now) }
{
    read_all(alloc, bytes)
}

/// The spelling of a reply to COMPOUND.
pub fn write_reply_body(alloc: Global, value: &Reply) -> Mem<Octets>
    requires { reply.Fits value.now }
    ensures { IfOk result (λ bytes. bytes ≡ reply.spell value.now) }
{
    write_all(alloc, value)
}
