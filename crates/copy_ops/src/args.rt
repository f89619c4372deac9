ghost use Rattle.copy_ops.specs.Forms.{copy_args, notify_args, clone_args};

use nfs_base::{MOST_NET_LOCS, NetLoc, StateId};
use outcome::Mem;
use std::alloc::Global;
use wire_xdr::{Items, ReadError, Reader, Writer, Xdr};

/// What COPY is asked to do (COPY4args, RFC 7862 section 15.2). Offsets and the count are bytes; a count of
/// 0 goes to the end of the source file.
#[derive(Drop)]
pub struct CopyArgs {
    pub src_id: StateId,
    pub dst_id: StateId,
    pub src_off: u64,
    pub dst_off: u64,
    pub count: u64,

    /// Whether the bytes are to be copied in their order.
    pub consecutive: bool,

    /// Whether the answer is to wait until the copy is done.
    pub synchronous: bool,

    /// Where the source server is found, at most eight places; none where it is this server.
    pub sources: Items<NetLoc>,
}

impl Xdr for CopyArgs {
    ghost form = { copy_args };

    #[tactic(auto, unfolding(crate::specs::Forms::copy_args))]
    fn parse(alloc: Global, reader: &mut Reader) -> Result<CopyArgs, ReadError> {
        let (src_id, (dst_id, (src_off, dst_off))) = <(StateId, (StateId, (u64, u64)))>::parse(
            alloc, reader,
        )?;
        Ok(CopyArgs {
            src_id,
            dst_id,
            src_off,
            dst_off,
            count: u64::parse(alloc, reader)?,
            consecutive: bool::parse(alloc, reader)?,
            synchronous: bool::parse(alloc, reader)?,
            sources: Items::parse(alloc, reader, MOST_NET_LOCS)?,
        })
    }

    #[tactic(auto, unfolding(crate::specs::Forms::copy_args))]
    fn put(&self, writer: &mut Writer) -> Mem<()> {
        let places = (self.src_id, (self.dst_id, (self.src_off, self.dst_off)));
        let ways = (self.consecutive, self.synchronous);
        (places, (self.count, ways)).put(writer)?;
        self.sources.put(writer)
    }
}

/// What COPY_NOTIFY is asked to allow (COPY_NOTIFY4args, RFC 7862 section 15.3): that the destination
/// reads the file that the stateid opened.
#[derive(Drop)]
pub struct NotifyArgs {
    pub src_id: StateId,
    pub destination: NetLoc,
}

impl Xdr for NotifyArgs {
    ghost form = { notify_args };

    #[tactic(auto, unfolding(crate::specs::Forms::notify_args))]
    fn parse(alloc: Global, reader: &mut Reader) -> Result<NotifyArgs, ReadError> {
        Ok(NotifyArgs {
            src_id: StateId::parse(alloc, reader)?,
            destination: NetLoc::parse(alloc, reader)?,
        })
    }

    #[tactic(auto, unfolding(crate::specs::Forms::notify_args))]
    fn put(&self, writer: &mut Writer) -> Mem<()> {
        self.src_id.put(writer)?;
        self.destination.put(writer)
    }
}

/// What CLONE is asked to do (CLONE4args, RFC 7862 section 15.13). Offsets and the count are bytes; a count
/// of 0 goes to the end of the source file.
#[derive(Clone, Copy, PartialEq, Eq)]
pub struct CloneArgs {
    pub src_id: StateId,
    pub dst_id: StateId,
    pub src_off: u64,
    pub dst_off: u64,
    pub count: u64,
}

impl Xdr for CloneArgs {
    ghost form = { clone_args };

    #[tactic(auto, unfolding(crate::specs::Forms::clone_args))]
    fn parse(alloc: Global, reader: &mut Reader) -> Result<CloneArgs, ReadError> {
        let (src_id, (dst_id, (src_off, (dst_off, count)))) = <(
            StateId,
            (StateId, (u64, (u64, u64))),
        )>::parse(alloc, reader)?;
        Ok(CloneArgs {
            src_id,
            dst_id,
            src_off,
            dst_off,
            count,
        })
    }

    #[tactic(auto, unfolding(crate::specs::Forms::clone_args))]
    fn put(&self, writer: &mut Writer) -> Mem<()> {
        let range = (self.src_off, (self.dst_off, self.count));
        (self.src_id, (self.dst_id, range)).put(writer)
    }
}
