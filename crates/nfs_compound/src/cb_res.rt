//! The results of a CB_COMPOUND.

ghost use Rattle.nfs_compound.specs.Callbacks.{cb_outcome};

use copy_ops::OP_CB_OFFLOAD;
use file_ops::{CbSeqDone, OP_CB_SEQUENCE};
use nfs_base::{Answer, Status};
use outcome::Mem;
use std::alloc::Global;
use wire_xdr::{ReadError, Reader, Writer, Xdr};

/// The result of an operation of a CB_COMPOUND. An operation that has no variant in the first two is answered
/// by `Bare`, with a status other than 0.
#[derive(Drop)]
pub enum CbRes {
    Sequence(Answer<CbSeqDone>),
    Offload(Status),
    Bare { op: u32, status: Status },
}

impl Xdr for CbRes {
    ghost form = { cb_outcome };

    #[tactic(auto, unfolding(crate::specs::Callbacks::cb_outcome))]
    fn parse(alloc: Global, reader: &mut Reader) -> Result<CbRes, ReadError> {
        match u32::parse(alloc, reader)? {
            OP_CB_SEQUENCE => Ok(CbRes::Sequence(Answer::parse(alloc, reader)?)),
            OP_CB_OFFLOAD => Ok(CbRes::Offload(Status::parse(alloc, reader)?)),
            op => {
                let start = reader.at();
                let status = Status::parse(alloc, reader)?;
                if status.number == 0 {
                    return Err(ReadError::at(start));
                }
                Ok(CbRes::Bare { op, status })
            }
        }
    }

    #[tactic(auto, unfolding(crate::specs::Callbacks::cb_outcome))]
    fn put(&self, writer: &mut Writer) -> Mem<()> {
        match self {
            CbRes::Sequence(answer) => {
                OP_CB_SEQUENCE.put(writer)?;
                answer.put(writer)
            }
            CbRes::Offload(status) => (OP_CB_OFFLOAD, *status).put(writer),
            CbRes::Bare { op, status } => (*op, *status).put(writer),
        }
    }
}
