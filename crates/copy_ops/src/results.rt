ghost use Rattle.copy_ops.specs.Forms.{copy_done, copy_answer, notify_grant, offload_progress};

use nfs_base::{MOST_NET_LOCS, NetLoc, StateId, Status, Time, WriteResponse};
use outcome::Mem;
use std::alloc::Global;
use wire_xdr::{Items, ReadError, Reader, Writer, Xdr};

/// What COPY did, and in which way (COPY4resok, RFC 7862 section 15.2).
#[derive(Clone, Copy, PartialEq, Eq)]
pub struct CopyDone {
    pub response: WriteResponse,
    pub consecutive: bool,
    pub synchronous: bool,
}

impl Xdr for CopyDone {
    ghost form = { copy_done };

    #[tactic(auto, unfolding(crate::specs::Forms::copy_done))]
    fn parse(alloc: Global, reader: &mut Reader) -> Result<CopyDone, ReadError> {
        let (response, (consecutive, synchronous)) = <(WriteResponse, (bool, bool))>::parse(
            alloc, reader,
        )?;
        Ok(CopyDone {
            response,
            consecutive,
            synchronous,
        })
    }

    #[tactic(auto, unfolding(crate::specs::Forms::copy_done))]
    fn put(&self, writer: &mut Writer) -> Mem<()> {
        (self.response, (self.consecutive, self.synchronous)).put(writer)
    }
}

/// The number of OFFLOAD_NO_REQS.
const NO_REQS: u32 = Status::OFFLOAD_NO_REQS.number;

/// What COPY answers (COPY4res, RFC 7862 section 15.2).
#[derive(Clone, Copy, PartialEq, Eq)]
pub enum CopyAnswer {
    Done(CopyDone),

    /// OFFLOAD_NO_REQS, with the ways in which the server could copy.
    NoReqs {
        consecutive: bool,
        synchronous: bool,
    },

    /// Any other status than 0.
    Refused(Status),
}

impl Xdr for CopyAnswer {
    ghost form = { copy_answer };

    #[tactic(auto, unfolding(crate::specs::Forms::copy_answer))]
    fn parse(alloc: Global, reader: &mut Reader) -> Result<CopyAnswer, ReadError> {
        match u32::parse(alloc, reader)? {
            0 => Ok(CopyAnswer::Done(CopyDone::parse(alloc, reader)?)),
            NO_REQS => {
                let (consecutive, synchronous) = <(bool, bool)>::parse(alloc, reader)?;
                Ok(CopyAnswer::NoReqs {
                    consecutive,
                    synchronous,
                })
            }
            number => Ok(CopyAnswer::Refused(Status { number })),
        }
    }

    #[tactic(auto, unfolding(crate::specs::Forms::copy_answer))]
    fn put(&self, writer: &mut Writer) -> Mem<()> {
        match self {
            CopyAnswer::Done(done) => (0u32, *done).put(writer),
            CopyAnswer::NoReqs {
                consecutive,
                synchronous,
            } => (NO_REQS, (*consecutive, *synchronous)).put(writer),
            CopyAnswer::Refused(status) => {
                status.number.put(writer)?;
                writer.void()
            }
        }
    }
}

/// What COPY_NOTIFY allowed (COPY_NOTIFY4resok, RFC 7862 section 15.3).
#[derive(Drop)]
pub struct NotifyGrant {
    /// How long the destination may wait before it begins.
    pub lease: Time,

    /// With what stateid it reads.
    pub id: StateId,

    /// Where it finds this server, at most eight places.
    pub sources: Items<NetLoc>,
}

impl Xdr for NotifyGrant {
    ghost form = { notify_grant };

    #[tactic(auto, unfolding(crate::specs::Forms::notify_grant))]
    fn parse(alloc: Global, reader: &mut Reader) -> Result<NotifyGrant, ReadError> {
        Ok(NotifyGrant {
            lease: Time::parse(alloc, reader)?,
            id: StateId::parse(alloc, reader)?,
            sources: Items::parse(alloc, reader, MOST_NET_LOCS)?,
        })
    }

    #[tactic(auto, unfolding(crate::specs::Forms::notify_grant))]
    fn put(&self, writer: &mut Writer) -> Mem<()> {
        (self.lease, self.id).put(writer)?;
        self.sources.put(writer)
    }
}

/// How far a copy is (OFFLOAD_STATUS4resok, RFC 7862 section 15.9).
#[derive(Clone, Copy, PartialEq, Eq)]
pub struct OffloadProgress {
    /// Bytes copied so far.
    pub count: u64,

    /// With what status the copy ended; none while it goes on.
    pub complete: Option<Status>,
}

impl Xdr for OffloadProgress {
    ghost form = { offload_progress };

    #[tactic(auto, unfolding(crate::specs::Forms::offload_progress))]
    fn parse(alloc: Global, reader: &mut Reader) -> Result<OffloadProgress, ReadError> {
        let (count, complete) = <(u64, Option<Status>)>::parse(alloc, reader)?;
        Ok(OffloadProgress { count, complete })
    }

    #[tactic(auto, unfolding(crate::specs::Forms::offload_progress))]
    fn put(&self, writer: &mut Writer) -> Mem<()> {
        (self.count, self.complete).put(writer)
    }
}
