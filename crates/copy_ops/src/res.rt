ghost use Rattle.std.specs.Prelude.{◌≡◌};
ghost use Rattle.copy_ops.specs.Forms.{copy_res, copy_res_number, copy_res_own};
ghost use Rattle.copy_ops.specs.Operations.{copy_res_status};

use crate::operation::{OP_CLONE, OP_COPY, OP_COPY_NOTIFY, OP_OFFLOAD_CANCEL, OP_OFFLOAD_STATUS};
use crate::{CopyAnswer, NotifyGrant, OffloadProgress};
use nfs_base::{Answer, Status};
use outcome::Mem;
use std::alloc::Global;
use wire_xdr::{ReadError, Reader, Writer, Xdr, XdrBy};

/// The result of an operation of a copy, by the operation. OFFLOAD_CANCEL and CLONE answer a status alone
/// (RFC 7862 sections 15.8 and 15.13).
#[derive(Drop)]
pub enum CopyRes {
    Copy(CopyAnswer),
    CopyNotify(Answer<NotifyGrant>),
    OffloadCancel(Status),
    OffloadStatus(Answer<OffloadProgress>),
    Clone(Status),
}

impl CopyRes {
    /// The operation's number.
    pub fn number(&self) -> u32
        ensures { result ≡ copy_res_number self.now }
    {
        match self {
            CopyRes::Copy(_) => OP_COPY,
            CopyRes::CopyNotify(_) => OP_COPY_NOTIFY,
            CopyRes::OffloadCancel(_) => OP_OFFLOAD_CANCEL,
            CopyRes::OffloadStatus(_) => OP_OFFLOAD_STATUS,
            CopyRes::Clone(_) => OP_CLONE,
        }
    }

    /// The status that the result begins with.
    pub fn status(&self) -> Status
        ensures { result ≡ copy_res_status self.now }
    {
        match self {
            CopyRes::Copy(CopyAnswer::Done(_)) => Status::OK,
            CopyRes::Copy(CopyAnswer::NoReqs { .. }) => Status::OFFLOAD_NO_REQS,
            CopyRes::Copy(CopyAnswer::Refused(status)) => *status,
            CopyRes::CopyNotify(answer) => answer.status(),
            CopyRes::OffloadCancel(status) => *status,
            CopyRes::OffloadStatus(answer) => answer.status(),
            CopyRes::Clone(status) => *status,
        }
    }
}

impl XdrBy for CopyRes {
    ghost form = { copy_res };

    ghost number_of = { copy_res_number };

    #[tactic(auto, unfolding(crate::specs::Forms::copy_res))]
    fn parse_by(alloc: Global, number: u32, reader: &mut Reader) -> Result<CopyRes, ReadError> {
        match number {
            OP_COPY => CopyAnswer::parse(alloc, reader).map(CopyRes::Copy),
            OP_COPY_NOTIFY => Answer::parse(alloc, reader).map(CopyRes::CopyNotify),
            OP_OFFLOAD_CANCEL => Status::parse(alloc, reader).map(CopyRes::OffloadCancel),
            OP_OFFLOAD_STATUS => Answer::parse(alloc, reader).map(CopyRes::OffloadStatus),
            OP_CLONE => Status::parse(alloc, reader).map(CopyRes::Clone),
            _ => Err(ReadError::at(reader.at())),
        }
    }

    #[tactic(auto, unfolding(crate::specs::Forms::copy_res))]
    fn put_by(&self, writer: &mut Writer) -> Mem<()> {
        match self {
            CopyRes::Copy(answer) => answer.put(writer),
            CopyRes::CopyNotify(answer) => answer.put(writer),
            CopyRes::OffloadCancel(status) => status.put(writer),
            CopyRes::OffloadStatus(answer) => answer.put(writer),
            CopyRes::Clone(status) => status.put(writer),
        }
    }

    ghost own = { copy_res_own };
}
