ghost use Rattle.copy_ops.specs.Forms.{offload_end, cb_offload};

use nfs_base::{Handle, StateId, Status, WriteResponse};
use outcome::Mem;
use std::alloc::Global;
use wire_xdr::{ReadError, Reader, Writer, Xdr};

/// How a copy ended (offload_info4, RFC 7862 section 16.1).
#[derive(Clone, Copy, PartialEq, Eq)]
pub enum OffloadEnd {
    /// All was copied.
    Done(WriteResponse),

    /// It failed with this status, which isn't 0, after so many bytes.
    Failed { status: Status, count: u64 },
}

impl Xdr for OffloadEnd {
    ghost form = { offload_end };

    #[tactic(auto, unfolding(crate::specs::Forms::offload_end))]
    fn parse(alloc: Global, reader: &mut Reader) -> Result<OffloadEnd, ReadError> {
        match u32::parse(alloc, reader)? {
            0 => Ok(OffloadEnd::Done(WriteResponse::parse(alloc, reader)?)),
            number => Ok(OffloadEnd::Failed {
                status: Status { number },
                count: u64::parse(alloc, reader)?,
            }),
        }
    }

    #[tactic(auto, unfolding(crate::specs::Forms::offload_end))]
    fn put(&self, writer: &mut Writer) -> Mem<()> {
        match self {
            OffloadEnd::Done(response) => (0u32, *response).put(writer),
            OffloadEnd::Failed { status, count } => (status.number, *count).put(writer),
        }
    }
}

/// What CB_OFFLOAD tells the client (CB_OFFLOAD4args, RFC 7862 section 16.1): the copy with this stateid,
/// to this file, ended so.
#[derive(Drop)]
pub struct CbOffload {
    pub handle: Handle,
    pub id: StateId,
    pub end: OffloadEnd,
}

impl Xdr for CbOffload {
    ghost form = { cb_offload };

    #[tactic(auto, unfolding(crate::specs::Forms::cb_offload))]
    fn parse(alloc: Global, reader: &mut Reader) -> Result<CbOffload, ReadError> {
        let (handle, (id, end)) = <(Handle, (StateId, OffloadEnd))>::parse(alloc, reader)?;
        Ok(CbOffload { handle, id, end })
    }

    #[tactic(auto, unfolding(crate::specs::Forms::cb_offload))]
    fn put(&self, writer: &mut Writer) -> Mem<()> {
        (self.handle, (self.id, self.end)).put(writer)
    }
}
